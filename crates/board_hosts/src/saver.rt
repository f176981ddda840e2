// A saver's turn.
ghost use Rattle.std.specs.Prelude.{◌≡◌};
ghost use Rattle.board_hosts.specs.Savers.{needs_save, turn_at, working_of};

use arm_state::{ArmRefusal, Mode, SaveState};
use nv_machine::StepReply;
use worker_turns::Working;

/// What a saver is to do.
#[derive(Clone, Copy, Debug, PartialEq, Eq)]
pub enum SaverTurn {
    /// Begin a save.
    Begin,
    /// Make a step of the save that runs.
    Step,
    /// Nothing: all accepted writes are in the newest image.
    Rest,
    /// Nothing any more: mains were lost.
    End,
}

/// What a saver did.
#[derive(Clone, Copy, Debug, PartialEq, Eq)]
pub enum Saving {
    Began(Result<(), ArmRefusal>),
    Stepped(StepReply),
    Rested,
    /// Mains were lost.
    Closed,
}

// Whether a save is to be begun, where none runs.
fn needs_save(mode: Mode, unsettled: bool, saved: u64, accepted: u64) -> bool
    ensures { result ≡ needs_save mode unsettled saved accepted }
{
    match mode {
        Mode::Stranded => true,
        Mode::Disarmed | Mode::Armed => unsettled || saved < accepted,
        _ => false,
    }
}

/// What a saver is to do, where the newest image has `saved` of the accepted writes.
pub fn turn_at(mode: Mode, saves: SaveState, saved: u64, accepted: u64) -> SaverTurn
    ensures { result ≡ turn_at mode saves saved accepted }
{
    if mode.has_ended() {
        return SaverTurn::End;
    }
    if saves.is_running {
        return SaverTurn::Step;
    }
    if needs_save(mode, saves.is_unsettled, saved, accepted) {
        return SaverTurn::Begin;
    }
    SaverTurn::Rest
}

/// How a saver goes on behind its turn.
pub fn working_of(saving: Saving) -> Working
    ensures { result ≡ working_of saving }
{
    match saving {
        Saving::Rested | Saving::Stepped(StepReply::Waiting) => Working::Rested,
        Saving::Began(_) | Saving::Stepped(_) => Working::Worked,
        Saving::Closed => Working::Closed,
    }
}
