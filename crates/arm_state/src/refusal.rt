// Why a module refuses what it is asked, and the answers to arm and disarm.
ghost use Rattle.std.specs.Prelude.{◌≡◌};
ghost use Rattle.arm_state.specs.Refusals.{arm_refusal, disarm_refusal, save_refusal, energy_refusal_of};

use crate::Mode;
use thiserror::Error;

/// Why a write was refused: the first that holds in the order 6, 4, 3, 5, 1, 2. Each is shown as its number, its name and
/// its numbers.
#[derive(Clone, Copy, Debug, PartialEq, Eq, Error)]
pub enum WriteRefusal {
    /// The line's channel has as many pending writes as its queue holds.
    #[error("1 Full")]
    Full,
    /// The last reading is too low for one more write.
    #[error("2 EnergyLow {need} {has}")]
    EnergyLow { need: u64, has: u64 },
    /// The module is disarming, or stranded at that.
    #[error("3 Disarming")]
    Disarming,
    /// Mains were lost, or no life runs.
    #[error("4 Closed")]
    Closed,
    /// The life has accepted as many writes as it has room for, or the number would be 2^62.
    #[error("5 TrailFull")]
    TrailFull,
    /// The module has no such line.
    #[error("6 NoSuchLine")]
    NoSuchLine,
}

/// Why a read was refused: the first that holds in the order 6, 4, 1. Each is shown as its number and its name.
#[derive(Clone, Copy, Debug, PartialEq, Eq, Error)]
pub enum ReadRefusal {
    /// The line's channel has as many reads that are pending or not collected as there is room for.
    #[error("1 Full")]
    Full,
    /// Mains were lost, or no life runs.
    #[error("4 Closed")]
    Closed,
    /// The module has no such line.
    #[error("6 NoSuchLine")]
    NoSuchLine,
}

/// Why arming, disarming or a save was refused. Each is shown as its number, its name and its numbers.
#[derive(Clone, Copy, Debug, PartialEq, Eq, Error)]
pub enum ArmRefusal {
    /// The gauge shows less than the pending writes need.
    #[error("1 NeedEnergy {need} {has}")]
    NeedEnergy { need: u64, has: u64 },
    /// A save runs.
    #[error("2 SaveRunning")]
    SaveRunning,
    /// What the device holds isn't known since a call of it failed.
    #[error("3 Unsettled")]
    Unsettled,
    /// The module is disarming, or stranded at that.
    #[error("4 Disarming")]
    Disarming,
    /// Mains were lost.
    #[error("5 Closed")]
    Closed,
    /// The newest image has generation 2^62 or a greater one.
    #[error("6 Spent")]
    Spent,
    /// The device failed when the newest image was to be marked.
    #[error("7 Device")]
    Device,
}

/// The answer to arming that wasn't refused.
#[derive(Clone, Copy, Debug, PartialEq, Eq)]
pub enum ArmReply {
    Armed,
    AlreadyArmed,
}

/// The answer to disarming that wasn't refused.
#[derive(Clone, Copy, Debug, PartialEq, Eq)]
pub enum DisarmReply {
    Disarming,
    AlreadyDisarmed,
}

/// What may stand in the way of arming and of a save.
#[derive(Clone, Copy, Debug, PartialEq, Eq)]
pub struct SaveState {
    /// A save runs.
    pub is_running: bool,
    /// A call of the device failed since a save last ended well.
    pub is_unsettled: bool,
    /// The newest image has generation 2^62 or a greater one.
    pub is_spent: bool,
}

impl Mode {
    /// Why arming is refused, before the gauge is read: the first of Closed, Disarming, SaveRunning, Unsettled and Spent
    /// that holds. A module that is armed refuses nothing.
    pub fn arm_refusal(self, saves: SaveState) -> Option<ArmRefusal>
        ensures { result ≡ arm_refusal self saves }
    {
        if self.is_armed() {
            return None;
        }
        if self.has_ended() {
            return Some(ArmRefusal::Closed);
        }
        if self.is_disarming() {
            return Some(ArmRefusal::Disarming);
        }
        if saves.is_running {
            return Some(ArmRefusal::SaveRunning);
        }
        if saves.is_unsettled {
            return Some(ArmRefusal::Unsettled);
        }
        if saves.is_spent {
            return Some(ArmRefusal::Spent);
        }
        None
    }

    /// Why disarming is refused: Closed or Disarming.
    pub fn disarm_refusal(self) -> Option<ArmRefusal>
        ensures { result ≡ disarm_refusal self }
    {
        match self {
            Mode::Closing | Mode::Saved => Some(ArmRefusal::Closed),
            Mode::Disarming | Mode::Stranded => Some(ArmRefusal::Disarming),
            Mode::Disarmed | Mode::Armed => None,
        }
    }

    /// Why a save isn't begun: the first of Closed, SaveRunning and Spent that holds. A stranded save is begun again over
    /// the same image, so it is never spent.
    pub fn save_refusal(self, saves: SaveState) -> Option<ArmRefusal>
        ensures { result ≡ save_refusal self saves }
    {
        if self.has_ended() {
            return Some(ArmRefusal::Closed);
        }
        if saves.is_running {
            return Some(ArmRefusal::SaveRunning);
        }
        if saves.is_spent && self != Mode::Stranded {
            return Some(ArmRefusal::Spent);
        }
        None
    }
}

/// Why arming is refused once the gauge was read: it shows less than is needed.
pub fn energy_refusal(need: u64, has: u64) -> Option<ArmRefusal>
    ensures { result ≡ energy_refusal_of need has }
{
    if has < need {
        return Some(ArmRefusal::NeedEnergy { need, has });
    }
    None
}
