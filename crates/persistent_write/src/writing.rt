// A write that is made persistent.
ghost use Rattle.std.specs.Prelude.{◌≡◌, ◌<◌, IfOk};
ghost use Rattle.module_core.specs.Stands.{HasDevice, assembly, setup_of};
ghost use Rattle.nv_session.specs.Coming.{Comes};
ghost use Rattle.persistent_write.specs.Persisting.{SavesFor, WritesPersistently};

use arm_state::{ArmRefusal, WriteRefusal};
use channel_port::ChannelPort;
use energy_budget::Energy;
use line_memory::Write;
use module_core::Module;
use notice_book::Persisted;
use nv_machine::StepReply;
use nv_session::save;
use save_device::SaveDevice;
use thiserror::Error;

/// Why a write isn't persistent. But for `Refused` it was accepted: later reads see it, and it has this number.
#[derive(Clone, Copy, Debug, PartialEq, Eq, Error)]
pub enum NotPersistent {
    /// The write was refused, and nothing has changed.
    #[error("the write was refused: {why}")]
    Refused { why: WriteRefusal },
    /// No save could be begun.
    #[error("write {number} was accepted, and no save begins: {why}")]
    NotBegun { number: u64, why: ArmRefusal },
    /// The last step of its save: `Fault` where the device failed oftener than its calls are made again, and else a step of a save
    /// for which 4,096 turns didn't suffice, which may go on.
    #[error("write {number} was accepted, and its save ended with {last:?}")]
    NotSaved { number: u64, last: StepReply },
}

// Makes a save, or the rest of one that runs, for a write that was accepted.
fn save_for<K: ChannelPort, D: SaveDevice, E: Energy>(
    running: &mut Module<K>,
    device: &mut D,
    energy: &mut E,
    number: u64,
) -> Result<Persisted, NotPersistent>
    requires size { HasDevice K.ChannelPort running.old (D.state device.old) }
    ensures number { IfOk result (λ p. p.number ≡ number) }
    ensures below { IfOk result (λ p. p.number < p.mark) }
    ensures mark { IfOk result (λ p. p.mark ≡ running.new.front.persisted) }
    ensures comes { Comes K.ChannelPort (SavesFor number result)
        (assembly running.old (D.state device.old) (E.gauge energy.old))
        (assembly running.new (D.state device.new) (E.gauge energy.new)) }
    ensures setup { setup_of K.ChannelPort running.new ≡ setup_of K.ChannelPort running.old }
    ensures size { HasDevice K.ChannelPort running.new (D.state device.new) }
{
    let channels = running.channels().count();
    match save(running, channels, device, energy) {
        Ok(last) => match running.persisted(number) {
            Some(persisted) => Ok(persisted),
            None => Err(NotPersistent::NotSaved { number, last }),
        },
        Err(why) => Err(NotPersistent::NotBegun { number, why }),
    }
}

// Whether a save has ended without the write: it was begun before the write was accepted.
fn is_of_an_earlier_save(made: Result<Persisted, NotPersistent>) -> bool {
    matches!(
        made,
        Err(NotPersistent::NotSaved {
            last: StepReply::Saved { .. },
            ..
        })
    )
}

/// Writes a line, and returns once the write is persistent: at once while the module is armed, and else behind a save, which is made
/// to its end. Where a save ran already it ends without the write, and a second one is made. So it takes at most two saves of
/// 4,096 turns each. The write is accepted once and no other one is. It cuts no stored writes: where `TrailFull` is met, cut.
pub fn write_persistent<K: ChannelPort, D: SaveDevice, E: Energy>(
    running: &mut Module<K>,
    device: &mut D,
    energy: &mut E,
    write: Write,
) -> Result<Persisted, NotPersistent>
    requires size { HasDevice K.ChannelPort running.old (D.state device.old) }
    ensures below { IfOk result (λ p. p.number < p.mark) }
    ensures mark { IfOk result (λ p. p.mark ≡ running.new.front.persisted) }
    ensures comes { Comes K.ChannelPort (WritesPersistently write result)
        (assembly running.old (D.state device.old) (E.gauge energy.old))
        (assembly running.new (D.state device.new) (E.gauge energy.new)) }
    ensures setup { setup_of K.ChannelPort running.new ≡ setup_of K.ChannelPort running.old }
    ensures size { HasDevice K.ChannelPort running.new (D.state device.new) }
{
    let number = match running.write(write) {
        Ok(accepted) => accepted.number,
        Err(why) => return Err(NotPersistent::Refused { why }),
    };
    if let Some(persisted) = running.persisted(number) {
        return Ok(persisted);
    }
    let made = save_for(running, device, energy, number);
    if !is_of_an_earlier_save(made) {
        return made;
    }
    save_for(running, device, energy, number)
}
