// What moves a module from one mode to another.
ghost use Rattle.std.specs.Prelude.{◌≡◌};
ghost use Rattle.arm_state.specs.Moves.{mode_after};

use crate::Mode;

/// What may move a module to another mode.
#[derive(Clone, Copy, Debug, PartialEq, Eq)]
pub enum Move {
    /// The newest image was marked as armed.
    Arm,
    /// The module was told to disarm.
    Disarm,
    /// The gauge showed less than the pending writes need.
    RunLow,
    /// A save ended well.
    EndSave,
    /// A save ended by a failure of the device.
    FailSave,
    /// Mains were lost, and all accepted writes were saved.
    CloseSaved,
    /// Mains were lost, and not all accepted writes were saved.
    CloseUnsaved,
}

impl Mode {
    /// The mode after a move; a move that isn't one of this mode leaves it.
    pub fn after(self, cause: Move) -> Mode
        ensures { result ≡ mode_after cause self }
    {
        match (cause, self) {
            (Move::Arm, Mode::Disarmed) => Mode::Armed,
            (Move::Disarm | Move::RunLow, Mode::Armed) => Mode::Disarming,
            (Move::EndSave, Mode::Disarming | Mode::Stranded) => Mode::Disarmed,
            (Move::FailSave, Mode::Disarming) => Mode::Stranded,
            (Move::CloseSaved, Mode::Armed | Mode::Disarming | Mode::Stranded) => Mode::Saved,
            (Move::CloseUnsaved, Mode::Saved) => Mode::Saved,
            (Move::CloseUnsaved, _) => Mode::Closing,
            (_, mode) => mode,
        }
    }
}
