// What happens to a module, and what it answers.
use arm_state::{ArmRefusal, ArmReply, DisarmReply, Loss, ReadRefusal, WriteRefusal};
use channel_port::{Collected, Done, Got, Ticket};
use line_memory::Write;
use slot_store::Step;

/// A write's number, its place among the accepted writes, and the number of those that are persistent.
#[derive(Clone, Copy, Debug, PartialEq, Eq)]
pub struct Accepted {
    pub number: u64,
    pub mark: u64,
}

/// The answer to a step of a save.
#[derive(Clone, Copy, Debug, PartialEq, Eq)]
pub enum StepReply {
    /// The step was made, and others are to come.
    Did(Step),
    /// The last step was made: the image of this generation, with so many writes, is the newest.
    Saved { generation: u64, count: u64 },
    /// A write that the page is to have waits for its array.
    Waiting,
    /// The reading was low, so that the module is disarming.
    Turned,
    /// No save runs.
    NoSave,
    /// The device failed, and the step is to be made again.
    Retry,
    /// The device failed, which ends the save.
    Fault,
}

/// What happens to a module: each is one of its calls, with that call's arguments but the device and the gauge.
#[derive(Clone, Copy, Debug, PartialEq, Eq)]
pub enum Event {
    /// A host writes a line.
    Write(Write),
    /// A host reads a line.
    Read { line: u64 },
    /// A host asks for what there is for a ticket.
    Collect(Ticket),
    /// A channel may issue one command.
    Work { channel: u64 },
    /// The gauge is read.
    Sense,
    Arm,
    Disarm,
    /// A save of all accepted writes is begun.
    SaveBegin,
    /// The save that runs makes its coming step.
    SaveStep,
    /// Mains are lost.
    Lose,
}

/// The answer to an event.
#[derive(Clone, Copy, Debug, PartialEq, Eq)]
pub enum Reply {
    Write(Result<Accepted, WriteRefusal>),
    Read(Result<Got, ReadRefusal>),
    Collect(Collected),
    Work(Option<Done>),
    Sense(u64),
    Arm(Result<ArmReply, ArmRefusal>),
    Disarm(Result<DisarmReply, ArmRefusal>),
    SaveBegin(Result<(), ArmRefusal>),
    SaveStep(StepReply),
    Lose(Loss),
}
