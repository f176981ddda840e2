// A module with its record and the tables of its board, before the board has a name.
ghost use Rattle.std.specs.Prelude.{◌≡◌, ◌+◌, ◌≤◌, [], length, vec_len, All, IfErr, IfOk};
ghost use Rattle.module_core.specs.Stands.{HasDevice, setup_of};
ghost use Rattle.board_hosts.specs.Client.{client};
ghost use Rattle.board_hosts.specs.Kept.{IsOfNewLife, IsRecordKept};
ghost use Rattle.ddr4_boards.specs.Naming.{IsNamed};

use board_hosts::{BoardName, NotStarted, RecordedModule};
use channel_locks::PartsName;
use channel_port::ChannelPort;
use energy_budget::Energy;
use notice_book::Notices;
use save_device::SaveDevice;
use split_board::{BoardTables, Started, start};
use std::alloc::Global;

/// A module that has just begun, with its record, and the tables of its board. Contracts see both, and how many channels the
/// module has. No event was asked of it yet.
#[derive(Drop)]
pub struct Ready<K: ChannelPort, D: SaveDevice, E: Energy> {
    pub tables: BoardTables,
    pub recorded: RecordedModule<K, D, E>,
    pub channels: u64,
    pub ghost counted: { channels ≡ (setup_of K.ChannelPort recorded.running).shape.channels },
    pub ghost sized: { HasDevice K.ChannelPort recorded.running (D.state recorded.device) },
    pub ghost fresh: { IsOfNewLife K.ChannelPort D.SaveDevice recorded },
    pub ghost kept: { IsRecordKept K.ChannelPort D.SaveDevice E.Energy recorded },
    pub ghost mark: { tables.opening.mark ≤ recorded.running.front.persisted },
    pub ghost uncut: { recorded.running.front.accepted
        ≡ recorded.running.front.terms.start + length recorded.history.writes },
}

impl<K: ChannelPort + Drop, D: SaveDevice + Drop, E: Energy + Drop> Ready<K, D, E> {
    /// The board with a lock for each channel, with a book of notices, and its hosts. It refuses only where there is no memory for
    /// it, and then gives module and book back.
    pub fn board<B: BoardName + PartsName, N: Notices + Drop>(
        self,
        alloc: Global,
        notices: N,
    ) -> Result<Started<K, D, E, B, N>, NotStarted<K, D, E, N>>
        requires named { IsNamed K.ChannelPort B.Ledger B.BoardName.own B.PartsName.own
            self.tables self.recorded }
        ensures number { IfOk result (λ s. vec_len s.hosts ≡ B.parts) }
        ensures hosts { IfOk result (λ s.
            All (λ h. h ≡ client self.tables.opening.mark self.tables.opening.mark 0 [])
            s.hosts.items) }
        ensures recorded { IfErr result (λ left. left.recorded ≡ self.recorded) }
        ensures notices { IfErr result (λ left. left.notices ≡ notices) }
    {
        let Ready {
            tables,
            recorded,
            channels: _,
        } = self;
        start::<K, D, E, B, N>(alloc, tables, recorded, notices)
    }
}
