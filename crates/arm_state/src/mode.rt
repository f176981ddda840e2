// The modes.
ghost use Rattle.std.specs.Prelude.{◌≡◌};
ghost use Rattle.arm_state.specs.Modes.{is_armed, is_disarming, has_ended, is_backed, accepts_writes, reads_gauge, repeats_in, is_short};

use std::fmt;

/// What a module does with writes, and which of them are persistent. A mode is shown as its name in lower case.
#[derive(Clone, Copy, Debug, PartialEq, Eq)]
pub enum Mode {
    /// Writes are accepted. Those of the last finished save are persistent.
    Disarmed,
    /// Writes are accepted where there is the energy for their save. All are persistent.
    Armed,
    /// Writes are refused while a save of all accepted ones runs. All are persistent.
    Disarming,
    /// The device failed in that save, which can be begun again. All are persistent.
    Stranded,
    /// Mains were lost, and not all accepted writes were saved.
    Closing,
    /// Mains were lost, and all accepted writes were saved.
    Saved,
}

impl fmt::Display for Mode {
    fn fmt<W: fmt::Write>(&self, f: &mut fmt::Formatter<W>) -> fmt::Result {
        f.write_str(match self {
            Mode::Disarmed => "disarmed",
            Mode::Armed => "armed",
            Mode::Disarming => "disarming",
            Mode::Stranded => "stranded",
            Mode::Closing => "closing",
            Mode::Saved => "saved",
        })
    }
}

impl Mode {
    /// Is each write persistent as soon as it is accepted?
    pub fn is_armed(self) -> bool
        ensures { result ≡ is_armed self }
    {
        matches!(self, Mode::Armed)
    }

    /// Does a save of all accepted writes run, or is it to be begun again?
    pub fn is_disarming(self) -> bool
        ensures { result ≡ is_disarming self }
    {
        matches!(self, Mode::Disarming | Mode::Stranded)
    }

    /// Were mains lost?
    pub fn has_ended(self) -> bool
        ensures { result ≡ has_ended self }
    {
        matches!(self, Mode::Closing | Mode::Saved)
    }

    /// Are all accepted writes persistent, by the energy that is kept for their save?
    pub fn is_backed(self) -> bool
        ensures { result ≡ is_backed self }
    {
        matches!(self, Mode::Armed | Mode::Disarming | Mode::Stranded)
    }

    /// May a write be accepted, as far as the mode goes?
    pub fn accepts_writes(self) -> bool
        ensures { result ≡ accepts_writes self }
    {
        matches!(self, Mode::Disarmed | Mode::Armed)
    }

    /// Does `sense` read the gauge? Else it answers the last reading.
    pub fn reads_gauge(self) -> bool
        ensures { result ≡ reads_gauge self }
    {
        !self.is_disarming() && !self.has_ended()
    }

    /// How many device calls a save on mains may make again, of those that a closing save may: only the save of a disarming is
    /// one.
    pub fn repeats(self, retries: u64) -> u64
        ensures { result ≡ repeats_in self retries }
    {
        match self {
            Mode::Disarming => retries,
            _ => 0,
        }
    }

    /// Is a reading under what is needed? Only writes that are persistent at once need energy.
    pub fn is_short(self, reading: u64, need: u64) -> bool
        ensures { result ≡ is_short self reading need }
    {
        self.is_armed() && reading < need
    }
}
