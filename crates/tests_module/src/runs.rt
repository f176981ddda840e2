// Lists of events, each as one run. The expected values are worked out by hand.
ghost use Rattle.std.specs.Prelude.{◌≡◌, All};
ghost use Rattle.module_core.specs.Stands.{IsForChannels};

use crate::check::same;
use crate::load::{Image, Load, restores_to};
use arm_state::{ArmReply, Loss, WriteRefusal};
use channel_port::ChannelPort;
use energy_budget::Meter;
use line_memory::Write;
use nv_machine::{Accepted, Event, Reply, StepReply};
use save_device::SaveDevice;
use slot_store::{Step, Verdict};
use std::alloc::Global;
use std::process::Abort;

// A module answers a list of events so, on a gauge of this level, and leaves this image.
fn answers_with<K: ChannelPort, D: SaveDevice, R: Abort>(
    rt: &R,
    alloc: Global,
    load: &mut Load<K, D>,
    level: u64,
    events: &[Event],
    replies: &[Reply],
    image: Image,
)
    requires channels { All (IsForChannels K.ChannelPort load.old.running) events.now }
{
    let mut gauge = Meter::with(level, 1);
    let answers = load
        .running
        .run(alloc, events, &mut load.device, &mut gauge);
    same(rt, answers.expect(rt, "memory").as_slice(), replies);
    restores_to(rt, alloc, &mut load.device, image);
}

const SAVE: [Event; 10] = [
    Event::SaveBegin,
    Event::SaveStep,
    Event::SaveStep,
    Event::SaveStep,
    Event::Write(Write {
        line: 127,
        data: [0x33; 64],
    }),
    Event::SaveStep,
    Event::SaveStep,
    Event::SaveStep,
    Event::SaveStep,
    Event::SaveStep,
];

const SAVE_REPLIES: [Reply; 10] = [
    Reply::SaveBegin(Ok(())),
    Reply::SaveStep(StepReply::Did(Step::Close)),
    Reply::SaveStep(StepReply::Did(Step::SyncClosed)),
    Reply::SaveStep(StepReply::Did(Step::Page(0))),
    Reply::Write(Ok(Accepted { number: 0, mark: 0 })),
    Reply::SaveStep(StepReply::Did(Step::Page(1))),
    Reply::SaveStep(StepReply::Did(Step::Header)),
    Reply::SaveStep(StepReply::Did(Step::SyncBody)),
    Reply::SaveStep(StepReply::Did(Step::Open)),
    Reply::SaveStep(StepReply::Saved {
        generation: 2,
        count: 0,
    }),
];

/// A write behind the beginning of a save isn't in its image.
pub(crate) fn save_at_once<K: ChannelPort, D: SaveDevice, R: Abort>(
    rt: &R,
    alloc: Global,
    load: &mut Load<K, D>,
) {
    let image = Image {
        generation: 2,
        count: 0,
        verdict: Verdict::Complete,
        first: 0,
        last: 0,
    };
    answers_with(rt, alloc, load, 0, &SAVE, &SAVE_REPLIES, image);
}

/// A module arms, accepts two writes, and loses its mains.
pub(crate) const LOSS: [Event; 5] = [
    Event::Sense,
    Event::Arm,
    Event::Write(Write {
        line: 0,
        data: [0x11; 64],
    }),
    Event::Write(Write {
        line: 127,
        data: [0x22; 64],
    }),
    Event::Lose,
];

const LOSS_REPLIES: [Reply; 5] = [
    Reply::Sense(8999),
    Reply::Arm(Ok(ArmReply::Armed)),
    Reply::Write(Ok(Accepted { number: 0, mark: 1 })),
    Reply::Write(Ok(Accepted { number: 1, mark: 2 })),
    Reply::Lose(Loss::Saved {
        generation: 2,
        count: 2,
    }),
];

/// A loss of mains saves what an armed module accepted.
pub(crate) fn lose_at_once<K: ChannelPort, D: SaveDevice, R: Abort>(
    rt: &R,
    alloc: Global,
    load: &mut Load<K, D>,
) {
    let image = Image {
        generation: 2,
        count: 2,
        verdict: Verdict::Complete,
        first: 0x11,
        last: 0x22,
    };
    answers_with(rt, alloc, load, 9000, &LOSS, &LOSS_REPLIES, image);
}

const TURN: [Event; 5] = [
    Event::Arm,
    Event::SaveBegin,
    Event::SaveStep,
    Event::Write(Write {
        line: 0,
        data: [0x11; 64],
    }),
    Event::SaveStep,
];

const TURN_REPLIES: [Reply; 5] = [
    Reply::Arm(Ok(ArmReply::Armed)),
    Reply::SaveBegin(Ok(())),
    Reply::SaveStep(StepReply::Turned),
    Reply::Write(Err(WriteRefusal::Disarming)),
    Reply::SaveStep(StepReply::Did(Step::Close)),
];

/// A gauge that shows just enough to arm, and a unit less at the first step of a save.
pub(crate) fn turn_at_once<K: ChannelPort, D: SaveDevice, R: Abort>(
    rt: &R,
    alloc: Global,
    load: &mut Load<K, D>,
) {
    let image = Image {
        generation: 1,
        count: 0,
        verdict: Verdict::PossibleLoss { after: 0 },
        first: 0,
        last: 0,
    };
    answers_with(rt, alloc, load, 3341, &TURN, &TURN_REPLIES, image);
}
