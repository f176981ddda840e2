// A closing save.
ghost use Rattle.std.specs.Prelude.{◌≡◌, ◌*◌, Some};
ghost use Rattle.std.specs.Option.{ForSome};
ghost use Rattle.slot_store.specs.Slots.{HasSize};
ghost use Rattle.slot_store.specs.Runs.{plan_of};
ghost use Rattle.channel_set.specs.Set.{shape_of, view_of};
ghost use Rattle.slot_store.specs.Finishing.{underway};
ghost use Rattle.slot_store.specs.Repeating.{FinishesRepeating};
ghost use Rattle.module_saves.specs.Closing.{action_of, arrays_at, payments, saves_at};
ghost use Rattle.module_saves.specs.Saving.{IsOfLines};

use crate::Saves;
use channel_port::ChannelPort;
use channel_set::ChannelSet;
use energy_budget::{Action, Energy};
use save_device::SaveDevice;
use save_image::PAGE_BYTES;
use slot_store::{BrokenOff, Refused, SaveRun, SaveSource, Step};

// What is paid for a step of a save.
fn action_of(step: Step) -> Action
    ensures { result ≡ action_of step }
{
    match step {
        Step::Close => Action::CloseGate,
        Step::Header => Action::WriteHeader,
        Step::Page(_) => Action::WritePage,
        Step::Open => Action::OpenGate,
        Step::SyncClosed | Step::SyncBody | Step::SyncOpen | Step::Done => Action::Sync,
    }
}

// The arrays of the channels, as a memory that pays for each step of its save.
#[derive(Drop)]
struct PaidArrays<'a, K: ChannelPort, E: Energy> {
    channels: &'a ChannelSet<K>,
    energy: &'a mut E,
}

impl<K: ChannelPort, E: Energy> SaveSource for PaidArrays<'_, K, E> {
    ghost use Rattle.module_saves.specs.Closing.{PaysForStep};

    ghost memory = { λ arrays. (view_of K.ChannelPort arrays.channels.now).array };

    ghost asks = { PaysForStep K.ChannelPort E.gauge };

    fn ask(&mut self, step: Step) -> Result<(), Refused> {
        let cost = self.channels.costs().cost(action_of(step));
        match self.energy.pay(cost) {
            Ok(()) => Ok(()),
            Err(_) => Err(Refused),
        }
    }

    fn page<'p>(&'p self, page: usize, room: &'p mut [u8; PAGE_BYTES]) -> &'p [u8; PAGE_BYTES] {
        *room = self.channels.page(page);
        room
    }
}

// How many steps a closing save of these channels may make again.
fn repeats_of<K: ChannelPort>(channels: &ChannelSet<K>) -> u64
    ensures { result ≡ (shape_of K.ChannelPort channels.now).costs.retries }
{
    channels.costs().retries
}

// All steps of a save of the arrays, each paid for first, also one that is made again.
fn pay_and_finish<K: ChannelPort, D: SaveDevice, E: Energy>(
    run: &mut SaveRun,
    channels: &ChannelSet<K>,
    device: &mut D,
    energy: &mut E,
    repeats: u64,
) -> Result<(), BrokenOff>
    requires lines { (plan_of run.old).lines ≡ (shape_of K.ChannelPort channels.now).lines }
    requires size { HasSize (plan_of run.old).lines (D.state device.old) }
    ensures { FinishesRepeating payments repeats result
        (underway (arrays_at (view_of K.ChannelPort channels.now) (E.gauge energy.old))
        run.old (D.state device.old))
        (underway (arrays_at (view_of K.ChannelPort channels.now) (E.gauge energy.new))
        run.new (D.state device.new)) }
{
    run.finish_repeating(&mut PaidArrays { channels, energy }, device, repeats)
}

impl Saves {
    ghost use Rattle.module_saves.specs.Closing.{ClosesSave};

    /// Makes the save that runs to its end, each step of it paid for first.
    pub fn finish<K: ChannelPort, D: SaveDevice, E: Energy>(
        &mut self,
        channels: &ChannelSet<K>,
        device: &mut D,
        energy: &mut E,
    ) -> Result<(), BrokenOff>
        requires lines { IsOfLines (shape_of K.ChannelPort channels.now).lines self.old.saving }
        requires size { HasSize (shape_of K.ChannelPort channels.now).lines (D.state device.old) }
        ensures saves { ClosesSave (view_of K.ChannelPort channels.now) result
            (saves_at self.old (D.state device.old) (E.gauge energy.old))
            (saves_at self.new (D.state device.new) (E.gauge energy.new)) }
        ensures none { self.new.saving ≡ None }
        ensures lines { IsOfLines (shape_of K.ChannelPort channels.now).lines self.new.saving }
        ensures size { HasSize (shape_of K.ChannelPort channels.now).lines (D.state device.new) }
    {
        let Some(mut run) = self.saving.take() else {
            return Ok(());
        };
        let repeats = repeats_of(channels);
        let finished = pay_and_finish(&mut run, channels, device, energy, repeats);
        self.learn(&run);
        finished
    }
}
