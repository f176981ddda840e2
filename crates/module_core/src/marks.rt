// What a module says of itself.
ghost use Rattle.std.specs.Prelude.{◌≡◌, ◌≤◌, ◌^◌};

use crate::Module;
use arm_state::Mode;
use channel_port::ChannelPort;
use channel_set::ChannelSet;

impl<K: ChannelPort> Module<K> {
    /// The number of writes accepted, counted from the first life on.
    pub fn accepted(&self) -> u64
        ensures is { result ≡ self.now.front.accepted }
        ensures fits { result ≤ 2 ^ 62 }
    {
        self.front.accepted
    }

    /// The number of writes that are persistent: those with a smaller number are.
    pub fn mark(&self) -> u64
        ensures { result ≡ self.now.front.persisted }
    {
        self.front.persisted
    }

    /// The channels, to be looked at.
    pub fn channels(&self) -> &ChannelSet<K>
        ensures { result.now ≡ self.now.channels }
    {
        &self.channels
    }

    /// What the module does with writes.
    pub fn mode(&self) -> Mode
        ensures { result ≡ self.now.front.mode }
    {
        self.front.mode
    }
}
