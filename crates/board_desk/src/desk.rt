// What lies behind the board's lock.
ghost use Rattle.std.specs.Prelude.{◌≤◌, vec_capacity};
ghost use Rattle.std.specs.Arc.{arc_value};
ghost use Rattle.board_desk.specs.Desk.{desk_view};
ghost use Rattle.board_desk.specs.Kept.{IsDeskKept};

use crate::board_port::BoardPort;
use board_hosts::{AcceptedCount, BoardName, BoardSeat, MarkBoard};
use channel_locks::PartsName;
use channel_log::{ChannelLogs, FrontSeat};
use channel_port::ChannelPort;
use channel_set::PortTerms;
use energy_budget::Energy;
use line_memory::History;
use save_device::SaveDevice;
use split_module::SplitFront;
use std::alloc::Global;
use std::sync::Arc;

/// The front of a board's module with its device, its gauge and the record of its life; the words and the seat that moves them,
/// which show the front's two numbers; how many of the life's writes are the hosts'; and the seat that knows the log of each
/// channel.
#[derive(Drop)]
pub struct Desk<K: ChannelPort, D: SaveDevice, E: Energy, B: BoardName + PartsName> {
    pub split: SplitFront,
    pub terms: PortTerms,
    /// Room for the ports, and those that channels have lent.
    pub room: Vec<BoardPort<K, B>>,
    pub device: D,
    pub energy: E,
    pub history: History,
    pub marks: Arc<MarkBoard, Global>,
    pub seat: BoardSeat,
    pub tally: AcceptedCount<B>,
    pub logs: ChannelLogs,
    pub known: FrontSeat,
    pub ghost spacious: { B.ports ≤ vec_capacity room },
    pub ghost kept: { IsDeskKept B.BoardName B.PartsName
        (desk_view split terms (D.state device) (E.gauge energy) history known.logs)
        (arc_value marks) seat tally.book.total logs known.table },
}
