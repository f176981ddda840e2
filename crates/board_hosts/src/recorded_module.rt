// What a board takes, and gives back.
use channel_port::ChannelPort;
use line_memory::History;
use module_core::Module;

/// A module with its device, its gauge, and the record of its life.
#[derive(Drop)]
pub struct RecordedModule<K: ChannelPort, D, E> {
    pub running: Module<K>,
    pub device: D,
    pub energy: E,
    pub history: History,
}
