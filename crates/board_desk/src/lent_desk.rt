// A desk is taken apart while its channels have lent their ports, and put together again.
ghost use Rattle.std.specs.Prelude.{None, ◌≡◌, ◌+◌, ◌++◌, min, true, vec_len};
ghost use Rattle.std.specs.Arc.{arc_value};
ghost use Rattle.arm_state.specs.Modes.{has_ended};
ghost use Rattle.channel_locks.specs.Slots.{IsSlotKept};
ghost use Rattle.channel_locks.specs.Unlocked.{port_in};
ghost use Rattle.channel_log.specs.Log.{IsLogOf, log_tells};
ghost use Rattle.channel_log.specs.Seats.{AllLogs, AreOf};
ghost use Rattle.board_desk.specs.Asking.{CameBy, pieces_with};
ghost use Rattle.board_desk.specs.Calling.{Course};
ghost use Rattle.board_desk.specs.Kept.{IsDeskKept};
ghost use Rattle.board_desk.specs.Loans.{ComesBack};
ghost use Rattle.board_desk.specs.Locking.{HaveComeBack};
ghost use Rattle.board_desk.specs.Views.{desk_of};
ghost use Rattle.board_desk.specs.Whole.{CallAnswers};
ghost use Rattle.board_desk.specs.declared.pieces.RecordedPieces.{RecordedPieces};

use crate::desk::Desk;
use crate::loans::restore;
use crate::pieces::RecordedPieces;
use board_hosts::{AcceptedCount, BoardName, BoardSeat, MarkBoard, publish};
use channel_locks::{Part, PartsName};
use channel_log::{ChannelLogs, ChannelSeat, FrontSeat};
use channel_port::ChannelPort;
use energy_budget::Energy;
use save_device::SaveDevice;
use split_module::SplitModule;
use std::alloc::Global;
use std::sync::Arc;

/// What stays of a desk while a whole module has the rest: the marks that it shows, the count of the hosts' writes, and what it
/// knows of the channels.
#[derive(Drop)]
pub(crate) struct DeskBooks<B: BoardName> {
    pub(crate) marks: Arc<MarkBoard, Global>,
    pub(crate) seat: BoardSeat,
    pub(crate) tally: AcceptedCount<B>,
    pub(crate) logs: ChannelLogs,
    pub(crate) known: FrontSeat,
}

/// A desk that was taken apart, with the ports that its channels have lent.
#[derive(Drop)]
pub(crate) struct LentDesk<K: ChannelPort, D: SaveDevice, E: Energy, B: BoardName + PartsName> {
    pub(crate) rest: RecordedPieces<K, D, E, B>,
    pub(crate) books: DeskBooks<B>,
}

impl<K: ChannelPort, D: SaveDevice, E: Energy, B: BoardName + PartsName> Desk<K, D, E, B> {
    /// Takes the desk apart. The module's pieces have the ports that were lent.
    pub(crate) fn apart(self) -> LentDesk<K, D, E, B>
        ensures view { pieces_with K.ChannelPort D.SaveDevice E.Energy B.PartsName.own
            result.rest self.known.logs ≡ desk_of K.ChannelPort D.SaveDevice E.Energy
            B.BoardName.own B.PartsName.own self }
        ensures known { result.books.known ≡ self.known }
        ensures ports { result.rest.pieces.ports.items ≡ self.room.items }
        ensures device { result.rest.device ≡ self.device }
        ensures energy { result.rest.energy ≡ self.energy }
        ensures terms { result.rest.pieces.terms ≡ self.terms }
        ensures front { result.rest.pieces.front ≡ self.split }
        ensures history { result.rest.history ≡ self.history }
        ensures kept { IsDeskKept B.BoardName.own B.PartsName.own
            (pieces_with K.ChannelPort D.SaveDevice E.Energy B.PartsName.own
            result.rest result.books.known.logs)
            (arc_value result.books.marks) result.books.seat result.books.tally.book.total
            result.books.logs result.books.known.table }
    {
        let rest = RecordedPieces {
            pieces: SplitModule {
                front: self.split,
                ports: self.room,
                terms: self.terms,
            },
            device: self.device,
            energy: self.energy,
            history: self.history,
        };
        let books = DeskBooks {
            marks: self.marks,
            seat: self.seat,
            tally: self.tally,
            logs: self.logs,
            known: self.known,
        };
        LentDesk { rest, books }
    }
}

impl<K: ChannelPort + Drop, D: SaveDevice, E: Energy, B: BoardName + PartsName> LentDesk<
    K,
    D,
    E,
    B,
> {
    /// Behind a call a channel has its port back, where the board has the channel: the last one of those that are lent still.
    pub(crate) fn give_back(
        &mut self,
        number: u64,
        part: &mut Option<Part<K>>,
        seat: &mut ChannelSeat,
    )
        requires lent { part.old ≡ None }
        requires tables { AreOf self.old.books.logs self.old.books.known seat.old }
        requires table { seat.old.table ≡ B.logs }
        requires channel { seat.old.channel ≡ number }
        requires count { vec_len self.old.rest.pieces.ports ≡ min (number + 1) B.ports }
        requires stays { (log_tells seat.old.log).ended ≡ true
            → has_ended self.old.rest.pieces.front.front.mode ≡ true }
        requires due { ∥ ComesBack K.ChannelPort B.PartsName.own self.old.rest.pieces.terms.hold
            (has_ended self.old.rest.pieces.front.front.mode) number (log_tells seat.old.log)
            self.old.rest.pieces.ports.items ∥₁ }
        ensures kept { IsSlotKept K.ChannelPort B.PartsName.own part.new seat.new number }
        ensures port { self.old.rest.pieces.ports.items
            ≡ self.new.rest.pieces.ports.items ++ port_in K.ChannelPort part.new }
        ensures back { (done : RecordedPieces K D E B) (first : AllLogs)
            → IsLogOf first.logs number seat.old.log
            → HaveComeBack K.ChannelPort D.SaveDevice E.Energy B.BoardName.own B.PartsName.own
            (number + 1) done first self.old.rest self.old.books.known
            → HaveComeBack K.ChannelPort D.SaveDevice E.Energy B.BoardName.own B.PartsName.own
            number done first self.new.rest self.new.books.known }
        ensures marks { arc_value self.new.books.marks ≡ arc_value self.old.books.marks }
        ensures seat { self.new.books.seat ≡ self.old.books.seat }
        ensures total { self.new.books.tally.book.total ≡ self.old.books.tally.book.total }
        ensures logs { self.new.books.logs ≡ self.old.books.logs }
    {
        let rest = &mut self.rest;
        let ended = rest.pieces.front.front.mode().has_ended();
        restore(
            &self.books.logs,
            &mut self.books.known,
            &mut rest.pieces.ports,
            rest.pieces.terms.hold,
            ended,
            number,
            part,
            seat,
        );
    }

    /// Puts the desk together behind a call, once each channel has its port back. The marks are the front's two numbers then.
    pub(crate) fn together(self) -> Desk<K, D, E, B>
        requires came { (asked : RecordedPieces K D E B) × (done : RecordedPieces K D E B)
            × (first : AllLogs) × (course : Course)
            × CameBy K.ChannelPort D.SaveDevice E.Energy B.PartsName.own B.BoardName.own course
            asked done (arc_value self.books.marks) self.books.seat self.books.tally.book.total
            self.books.logs first
            × HaveComeBack K.ChannelPort D.SaveDevice E.Energy B.BoardName.own B.PartsName.own
            0 done first self.rest self.books.known }
        ensures answers { (asked : RecordedPieces K D E B) (done : RecordedPieces K D E B)
            (first : AllLogs) (course : Course)
            → CameBy K.ChannelPort D.SaveDevice E.Energy B.PartsName.own B.BoardName.own course
            asked done (arc_value self.books.marks) self.books.seat self.books.tally.book.total
            self.books.logs first
            → HaveComeBack K.ChannelPort D.SaveDevice E.Energy B.BoardName.own B.PartsName.own
            0 done first self.rest self.books.known
            → CallAnswers B.PartsName.own course (pieces_with K.ChannelPort D.SaveDevice E.Energy
            B.PartsName.own asked first.logs)
            (desk_of K.ChannelPort D.SaveDevice E.Energy B.BoardName.own B.PartsName.own result) }
        ensures view { desk_of K.ChannelPort D.SaveDevice E.Energy B.BoardName.own B.PartsName.own
            result ≡ pieces_with K.ChannelPort D.SaveDevice E.Energy B.PartsName.own
            self.rest self.books.known.logs }
        ensures known { result.known ≡ self.books.known }
        ensures history { result.history ≡ self.rest.history }
    {
        let LentDesk { rest, books } = self;
        let split = rest.pieces.front;
        let marks = books.marks;
        let mut seat = books.seat;
        publish(
            &marks,
            &mut seat,
            split.front.accepted(),
            split.front.mark(),
        );
        Desk {
            split,
            terms: rest.pieces.terms,
            room: rest.pieces.ports,
            device: rest.device,
            energy: rest.energy,
            history: rest.history,
            marks,
            seat,
            tally: books.tally,
            logs: books.logs,
            known: books.known,
        }
    }
}
