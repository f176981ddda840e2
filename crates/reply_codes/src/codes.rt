// What a call answers: a code, and numbers beside it. `include/panguhero.h` names the same codes.
ghost use Rattle.std.specs.Prelude.{◌≡◌};
ghost use Rattle.reply_codes.specs.Codes.{arm_told, disarm_told, found_told, handed_told, level_told, loss_told, mode_told, mode_number, open_code, profile_code, read_told, ticket_told, collected_told, refusal_told, restore_code, restore_told, save_told, told, told_code, write_told};

use arm_state::{ArmRefusal, ArmReply, DisarmReply, Loss, Mode, ReadRefusal, WriteRefusal};
use channel_port::{Collected, Ticket};
use noted_device::Handed;
use nv_machine::{Accepted, StepReply};
use nv_profile::ProfileFault;
use open_life::{Found, LineRead, OpenFault};
use slot_store::{Head, RestoreError, Verdict};

/// The numbers that go with a code; 0 where there is none.
#[repr(C)]
#[derive(Clone, Copy, Debug, PartialEq, Eq)]
pub struct Numbers {
    pub first: u64,
    pub second: u64,
}

/// What a call answers.
#[derive(Clone, Copy, Debug, PartialEq, Eq)]
pub struct Told {
    pub code: u32,
    pub numbers: Numbers,
}

pub const DONE: u32 = 0;

pub const NO_MEMORY: u32 = 1;

pub const NO_PROFILE: u32 = 2;

pub const BUFFER: u32 = 3;

pub const SIZE: u32 = 4;

pub const NO_IMAGE: u32 = 5;

pub const DAMAGED: u32 = 6;

pub const DEVICE: u32 = 7;

pub const NO_HANDLE: u32 = 8;

pub const ALREADY_OPEN: u32 = 9;

pub const POSSIBLE_LOSS: u32 = 10;

pub const NULL: u32 = 11;

pub const OVERLAP: u32 = 12;

pub const NO_PICK: u32 = 13;

pub const IN_FILE: u32 = 14;

pub const LONGER: u32 = 15;

pub const FULL: u32 = 16;

pub const ENERGY_LOW: u32 = 17;

pub const DISARMING: u32 = 18;

pub const CLOSED: u32 = 19;

pub const TRAIL_FULL: u32 = 20;

pub const NO_SUCH_LINE: u32 = 21;

pub const READS_FULL: u32 = 22;

pub const READ_WAITS: u32 = 23;

pub const NO_SUCH_WRITE: u32 = 24;

pub const NO_SUCH_READ: u32 = 25;

pub const SYNC: u32 = 26;

pub const NO_CHANGE: u32 = 27;

pub const NO_EVENT: u32 = 28;

pub const ROOM: u32 = 29;

pub const NEED_ENERGY: u32 = 32;

pub const SAVE_RUNNING: u32 = 33;

pub const UNSETTLED: u32 = 34;

pub const SPENT: u32 = 35;

pub const STEPPED: u32 = 48;

pub const WAITING: u32 = 49;

pub const TURNED: u32 = 50;

pub const NO_SAVE: u32 = 51;

pub const RETRY: u32 = 52;

pub const SAVE_FAULT: u32 = 53;

pub const UNSAVED: u32 = 54;

pub const DARK: u32 = 55;

/// As many serial numbers of tickets as C can tell apart.
const SERIALS: u128 = 1 << 64;

impl Told {
    /// A code with no numbers.
    pub fn code(code: u32) -> Told
        ensures { result ≡ told_code code }
    {
        Told::with(code, 0, 0)
    }

    /// A code with its numbers.
    pub fn with(code: u32, first: u64, second: u64) -> Told
        ensures { result ≡ told code first second }
    {
        Told {
            code,
            numbers: Numbers { first, second },
        }
    }
}

/// What a write is answered.
pub fn write_told(reply: Result<Accepted, WriteRefusal>) -> Told
    ensures { result ≡ write_told reply }
{
    match reply {
        Ok(Accepted { number, mark }) => Told::with(DONE, number, mark),
        Err(WriteRefusal::Full) => Told::code(FULL),
        Err(WriteRefusal::EnergyLow { need, has }) => Told::with(ENERGY_LOW, need, has),
        Err(WriteRefusal::Disarming) => Told::code(DISARMING),
        Err(WriteRefusal::Closed) => Told::code(CLOSED),
        Err(WriteRefusal::TrailFull) => Told::code(TRAIL_FULL),
        Err(WriteRefusal::NoSuchLine) => Told::code(NO_SUCH_LINE),
    }
}

/// What a read that waits is answered: its channel, and its number among the channel's.
pub fn ticket_told(ticket: Ticket) -> Told
    ensures { result ≡ ticket_told ticket }
{
    let low = ticket.serial % SERIALS;
    Told::with(READ_WAITS, ticket.channel, low as u64)
}

/// What there is for a ticket.
pub fn collected_told(ticket: Ticket, collected: Collected) -> Told
    ensures { result ≡ collected_told ticket collected }
{
    match collected {
        Collected::Data { line, at, .. } => Told::with(DONE, line, at),
        Collected::Pending => ticket_told(ticket),
        Collected::Unknown => Told::code(NO_SUCH_READ),
    }
}

/// What a read is answered.
pub fn read_told(reply: Result<LineRead, ReadRefusal>) -> Told
    ensures { result ≡ read_told reply }
{
    match reply {
        Ok(LineRead::Content(_)) => Told::code(DONE),
        Ok(LineRead::Waiting(ticket)) => ticket_told(ticket),
        Err(ReadRefusal::Full) => Told::code(READS_FULL),
        Err(ReadRefusal::Closed) => Told::code(CLOSED),
        Err(ReadRefusal::NoSuchLine) => Told::code(NO_SUCH_LINE),
    }
}

/// Why a module isn't armed, disarmed or saved.
pub fn refusal_told(refusal: ArmRefusal) -> Told
    ensures { result ≡ refusal_told refusal }
{
    match refusal {
        ArmRefusal::NeedEnergy { need, has } => Told::with(NEED_ENERGY, need, has),
        ArmRefusal::SaveRunning => Told::code(SAVE_RUNNING),
        ArmRefusal::Unsettled => Told::code(UNSETTLED),
        ArmRefusal::Disarming => Told::code(DISARMING),
        ArmRefusal::Closed => Told::code(CLOSED),
        ArmRefusal::Spent => Told::code(SPENT),
        ArmRefusal::Device => Told::code(DEVICE),
    }
}

/// What arming is answered.
pub fn arm_told(reply: Result<ArmReply, ArmRefusal>) -> Told
    ensures { result ≡ arm_told reply }
{
    match reply {
        Ok(ArmReply::Armed) => Told::code(DONE),
        Ok(ArmReply::AlreadyArmed) => Told::with(DONE, 1, 0),
        Err(refusal) => refusal_told(refusal),
    }
}

/// What disarming is answered.
pub fn disarm_told(reply: Result<DisarmReply, ArmRefusal>) -> Told
    ensures { result ≡ disarm_told reply }
{
    match reply {
        Ok(DisarmReply::Disarming) => Told::code(DONE),
        Ok(DisarmReply::AlreadyDisarmed) => Told::with(DONE, 1, 0),
        Err(refusal) => refusal_told(refusal),
    }
}

// The number of a mode.
fn mode_number(mode: Mode) -> u64
    ensures { result ≡ mode_number mode }
{
    match mode {
        Mode::Disarmed => 0,
        Mode::Armed => 1,
        Mode::Disarming => 2,
        Mode::Stranded => 3,
        Mode::Closing => 4,
        Mode::Saved => 5,
    }
}

/// How a mode is told.
pub fn mode_told(mode: Mode) -> Told
    ensures { result ≡ mode_told mode }
{
    Told::with(DONE, mode_number(mode), 0)
}

/// How a reading of the gauge is told, with the mode.
pub fn level_told(reading: u64, mode: Mode) -> Told
    ensures { result ≡ level_told reading mode }
{
    Told::with(DONE, reading, mode_number(mode))
}

/// What a restore is answered.
pub fn restore_told(head: Head) -> Told
    ensures { result ≡ restore_told head }
{
    let code = match head.verdict {
        Verdict::Complete => DONE,
        Verdict::PossibleLoss { .. } => POSSIBLE_LOSS,
    };
    Told::with(code, head.newest.generation, head.count)
}

/// Why nothing is restored.
pub fn restore_code(error: RestoreError) -> u32
    ensures { result ≡ restore_code error }
{
    match error {
        RestoreError::NoImage => NO_IMAGE,
        RestoreError::Damaged { .. } => DAMAGED,
        RestoreError::WrongSize => SIZE,
        RestoreError::Device => DEVICE,
        RestoreError::Memory => NO_MEMORY,
    }
}

/// What a save, or a step of one, is answered.
pub fn save_told(reply: Result<StepReply, ArmRefusal>) -> Told
    ensures { result ≡ save_told reply }
{
    match reply {
        Ok(StepReply::Saved { generation, count }) => Told::with(DONE, generation, count),
        Ok(StepReply::Did(_)) => Told::code(STEPPED),
        Ok(StepReply::Waiting) => Told::code(WAITING),
        Ok(StepReply::Turned) => Told::code(TURNED),
        Ok(StepReply::NoSave) => Told::code(NO_SAVE),
        Ok(StepReply::Retry) => Told::code(RETRY),
        Ok(StepReply::Fault) => Told::code(SAVE_FAULT),
        Err(refusal) => refusal_told(refusal),
    }
}

/// What a loss of mains is answered.
pub fn loss_told(loss: Loss) -> Told
    ensures { result ≡ loss_told loss }
{
    match loss {
        Loss::Saved { generation, count } => Told::with(DONE, generation, count),
        Loss::Unsaved => Told::code(UNSAVED),
        Loss::Dark => Told::code(DARK),
        Loss::Fault => Told::code(SAVE_FAULT),
        Loss::Closed => Told::code(CLOSED),
    }
}

/// How a change that is handed out is told.
pub fn handed_told(handed: Handed) -> Told
    ensures { result ≡ handed_told handed }
{
    match handed {
        Handed::Nothing => Told::code(NO_CHANGE),
        Handed::Sync => Told::code(SYNC),
        Handed::Write { at, length } => Told::with(DONE, at as u64, length as u64),
        Handed::Longer { length } => Told::with(LONGER, length as u64, 0),
    }
}

/// Why a text gives no profile.
pub fn profile_code(fault: ProfileFault) -> u32
    ensures { result ≡ profile_code fault }
{
    match fault {
        ProfileFault::Refused => NO_PROFILE,
        ProfileFault::Memory => NO_MEMORY,
    }
}

/// What a device held, as an opening on it tells that.
pub fn found_told(found: Found) -> Told
    ensures { result ≡ found_told found }
{
    match found {
        Found::Restored(head) => restore_told(head),
        Found::Formatted => Told::code(DONE),
    }
}

/// Why nothing was opened.
pub fn open_code(fault: OpenFault) -> u32
    ensures { result ≡ open_code fault }
{
    match fault {
        OpenFault::Restore(error) => restore_code(error),
        OpenFault::Format => DEVICE,
        OpenFault::Memory => NO_MEMORY,
    }
}
