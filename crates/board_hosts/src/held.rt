// A board that was put together.
ghost use Rattle.std.specs.Prelude.{◌≡◌, ◌+◌};
ghost use Rattle.board_hosts.specs.SeenMarks.{seen_marks};
ghost use Rattle.std.specs.Arc.{arc_value};
ghost use Rattle.module_core.specs.Stands.{setup_of};
ghost use Rattle.board_hosts.specs.Kept.{IsBoardKept, IsRecordKept};
ghost use Rattle.board_hosts.specs.Marks.{ShowsNoMore, marks_of};

use crate::board_name::BoardName;
use crate::recorded_module::RecordedModule;
use crate::tally::AcceptedCount;
use crate::{BoardSeat, MarkBoard};
use channel_port::ChannelPort;
use energy_budget::Energy;
use save_device::SaveDevice;
use std::alloc::Global;
use std::sync::Arc;

/// What a board comes to once its threads were joined and its channels gathered: the module with its record, the words and the
/// seat that moves them, which show the module's two numbers, and how many of the life's writes are the hosts'. It keeps that some
/// life so far leads to where module, device and gauge stand. No thread shares it any more, and it is there to be ended.
#[derive(Drop)]
pub struct Held<K: ChannelPort, D: SaveDevice, E: Energy, B: BoardName> {
    pub recorded: RecordedModule<K, D, E>,
    pub marks: Arc<MarkBoard, Global>,
    pub seat: BoardSeat,
    pub tally: AcceptedCount<B>,
    pub ghost kept: { IsBoardKept K.ChannelPort D.SaveDevice E.Energy B.BoardName
        recorded (arc_value marks) seat tally.book.total },
}

/// Moves the words to how many writes were accepted, and how many of them are persistent. They show no more before.
pub fn publish(marks: &MarkBoard, seat: &mut BoardSeat, accepted: u64, persisted: u64)
    requires board { seat.old.board ≡ marks.now }
    requires shown { ShowsNoMore accepted persisted seat.old }
    ensures { seat.new ≡ seen_marks marks.now accepted persisted }
{
    seat.accept(marks, accepted);
    seat.raise(marks, persisted);
}

impl<K: ChannelPort, D: SaveDevice, E: Energy, B: BoardName> Held<K, D, E, B> {
    /// Puts a module with its record together with the words, the seat that shows its two numbers, and the count of the hosts' writes.
    pub fn new(
        recorded: RecordedModule<K, D, E>,
        marks: Arc<MarkBoard, Global>,
        seat: BoardSeat,
        tally: AcceptedCount<B>,
    ) -> Held<K, D, E, B>
        requires board { arc_value marks ≡ B.board }
        requires channels { (setup_of K.ChannelPort recorded.running).shape.channels
            ≡ B.channels }
        requires kept { IsRecordKept K.ChannelPort D.SaveDevice E.Energy recorded }
        requires seat { seat ≡ marks_of K.ChannelPort B.board recorded.running }
        requires counted { recorded.running.front.accepted
            ≡ recorded.running.front.terms.start + B.before + tally.book.total }
        ensures { result.recorded ≡ recorded }
    {
        Held {
            recorded,
            marks,
            seat,
            tally,
        }
    }
}
