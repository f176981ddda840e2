// The beginning of a life: on what a device restores to, or on one that is formatted.
ghost use Rattle.std.specs.Prelude.{◌≡◌, IfErr, IfOk};
ghost use Rattle.ddr4_timing.specs.Limits.{lines_of};
ghost use Rattle.energy_budget.specs.Meter.{leak_of, level_of};
ghost use Rattle.interleave_map.specs.declared.ready.Interleaving.{Interleaving};
ghost use Rattle.line_memory.specs.Memory.{IsMemory};
ghost use Rattle.module_core.specs.Stands.{HasDevice, setup_of};
ghost use Rattle.nv_session.specs.Living.{IsShapeFor};
ghost use Rattle.save_image.specs.Header.{Fits};
ghost use Rattle.slot_store.specs.Outcomes.{NoImage, Outcome, restored};
ghost use Rattle.slot_store.specs.Slots.{HasSize};
ghost use Rattle.slot_store.specs.Told.{IsRestored};
ghost use Rattle.live_store.specs.Lives.{now_of};
ghost use Rattle.live_store.specs.Starts.{Begins, IsUnused, RestsOn};
ghost use Rattle.live_store.specs.Refusals.{IsRefusedFor};

use crate::fault::LiveFault;
use crate::life::Life;
use crate::unused::is_unused;
use channel_port::ChannelPort;
use ddr4_timing::timing::Geometry;
use energy_budget::Meter;
use interleave_map::cells::line_count;
use line_memory::zero_memory;
use module_core::Module;
use nv_profile::Profile;
use nv_script::Answer;
use nv_session::Wires;
use save_device::SaveDevice;
use save_image::Version;
use script_runner::restore_answer;
use slot_store::{RestoreError, Restored, format, restore};
use std::alloc::Global;

/// A life that has begun, and the answer that tells on what.
#[derive(Drop)]
pub struct Opened<K: ChannelPort, D: SaveDevice> {
    pub life: Life<K, D>,
    pub answer: Answer,
}

// A life on a device, of a module that was opened with what the device holds.
fn begin<K: ChannelPort, D: SaveDevice>(
    running: Module<K>,
    device: D,
    geometry: Geometry,
    answer: Answer,
) -> Opened<K, D>
    requires channels { geometry.channels ≡ (setup_of K.ChannelPort running).shape.channels }
    requires size { HasDevice K.ChannelPort running (D.state device) }
    ensures running { result.life.running ≡ running }
    ensures device { result.life.device ≡ device }
    ensures gauge { level_of result.life.gauge ≡ 0 }
    ensures leak { leak_of result.life.gauge ≡ 0 }
    ensures answer { result.answer ≡ answer }
    ensures geometry { result.life.geometry ≡ geometry }
{
    Opened {
        life: Life {
            running,
            device,
            gauge: Meter::with(0, 0),
            geometry,
        },
        answer,
    }
}

// How many lines a profile has.
fn lines_in(profile: &Profile) -> usize
    ensures { result ≡ lines_of profile.now.checked.geometry }
{
    line_count(&profile.checked) as usize
}

// Makes a device that holds no image, and on which no save has ended, a store of zero lines, and opens a life on it.
fn open_anew<K: ChannelPort + Drop, A: Wires<K>, D: SaveDevice + Drop>(
    alloc: Global,
    profile: &Profile,
    wires: &A,
    mut device: D,
) -> Result<Opened<K, D>, LiveFault>
    requires shape { (map : Interleaving) → IsShapeFor profile.now (A.shape wires.now map) }
    requires size { HasSize (lines_of profile.now.checked.geometry) (D.state device) }
    requires none { restored (lines_of profile.now.checked.geometry) (D.state device).bytes
        ≡ NoImage }
    requires unused { IsUnused (lines_of profile.now.checked.geometry) (D.state device).bytes }
    ensures begins { IfOk result (λ opened. Begins K.ChannelPort
        (lines_of profile.now.checked.geometry) opened.answer (D.state device).bytes
        (now_of opened.life)) }
    ensures setup { IfOk result (λ opened. setup_of K.ChannelPort opened.life.running
        ≡ record { shape = A.shape wires.now profile.now.map; trail = profile.now.sizes.trail }) }
    ensures geometry { IfOk result (λ opened.
        opened.life.geometry ≡ profile.now.checked.geometry) }
    ensures failed { IfErr result (λ fault. (outcome : Outcome) → IsRefusedFor outcome fault) }
{
    let lines = lines_in(profile);
    let Ok(memory) = zero_memory(alloc, lines) else {
        return Err(LiveFault::Memory);
    };
    let Ok(head) = format(&mut device, lines) else {
        return Err(LiveFault::Format);
    };
    let restored = Restored {
        head,
        version: Version::Two,
        lines: memory,
    };
    match wires.open(alloc, profile.map, restored, profile.sizes.trail) {
        Ok(running) => Ok(begin(running, device, profile.checked.geometry, Answer::Formatted)),
        Err(_) => Err(LiveFault::Memory),
    }
}

// Opens a life with what a device restored to, which is at rest on it.
fn open_restored<K: ChannelPort + Drop, A: Wires<K>, D: SaveDevice + Drop>(
    alloc: Global,
    profile: &Profile,
    wires: &A,
    device: D,
    restored: Restored,
) -> Result<Opened<K, D>, LiveFault>
    requires shape { (map : Interleaving) → IsShapeFor profile.now (A.shape wires.now map) }
    requires size { HasSize (lines_of profile.now.checked.geometry) (D.state device) }
    requires sound { IsMemory (lines_of profile.now.checked.geometry) restored.lines.items
        × Fits restored.head.newest.generation restored.head.count }
    requires found { IsRestored restored (lines_of profile.now.checked.geometry)
        (D.state device).bytes }
    requires rests { RestsOn restored (lines_of profile.now.checked.geometry) (D.state device) }
    ensures begins { IfOk result (λ opened. Begins K.ChannelPort
        (lines_of profile.now.checked.geometry) opened.answer (D.state device).bytes
        (now_of opened.life)) }
    ensures setup { IfOk result (λ opened. setup_of K.ChannelPort opened.life.running
        ≡ record { shape = A.shape wires.now profile.now.map; trail = profile.now.sizes.trail }) }
    ensures geometry { IfOk result (λ opened.
        opened.life.geometry ≡ profile.now.checked.geometry) }
    ensures failed { IfErr result (λ fault. (outcome : Outcome) → IsRefusedFor outcome fault) }
{
    let answer = restore_answer(Ok(restored.head));
    match wires.open(alloc, profile.map, restored, profile.sizes.trail) {
        Ok(running) => Ok(begin(running, device, profile.checked.geometry, answer)),
        Err(_) => Err(LiveFault::Memory),
    }
}

/// Opens a life with what a device restores to, over the profile's map, disarmed, with a gauge that shows 0. A device with no image,
/// on which no save ever ended, is formatted first: one of zeros, or one whose first formatting was broken off. Else what a
/// restore refuses is refused, and no byte has changed.
pub fn open<K: ChannelPort + Drop, A: Wires<K>, D: SaveDevice + Drop>(
    alloc: Global,
    profile: &Profile,
    wires: &A,
    mut device: D,
) -> Result<Opened<K, D>, LiveFault>
    requires { (map : Interleaving) → IsShapeFor profile.now (A.shape wires.now map) }
    ensures begins { IfOk result (λ opened. Begins K.ChannelPort
        (lines_of profile.now.checked.geometry) opened.answer (D.state device).bytes
        (now_of opened.life)) }
    ensures setup { IfOk result (λ opened. setup_of K.ChannelPort opened.life.running
        ≡ record { shape = A.shape wires.now profile.now.map; trail = profile.now.sizes.trail }) }
    ensures geometry { IfOk result (λ opened.
        opened.life.geometry ≡ profile.now.checked.geometry) }
    ensures refused { IfErr result (IsRefusedFor
        (restored (lines_of profile.now.checked.geometry) (D.state device).bytes)) }
{
    let lines = lines_in(profile);
    match restore(alloc, &mut device, lines) {
        Ok(restored) => open_restored(alloc, profile, wires, device, restored),
        Err(RestoreError::NoImage) => match is_unused(&mut device, lines) {
            Ok(true) => open_anew(alloc, profile, wires, device),
            Ok(false) => Err(LiveFault::Restore(RestoreError::NoImage)),
            Err(_) => Err(LiveFault::Restore(RestoreError::Device)),
        },
        Err(error) => Err(LiveFault::Restore(error)),
    }
}
