// How a life is opened: on what a device restores to, or on one that is formatted.
ghost use Rattle.std.specs.Prelude.{◌≡◌, IfErr, IfOk, None, true};
ghost use Rattle.channel_set.specs.Issuing.{HaveIssuedNone};
ghost use Rattle.ddr4_timing.specs.Limits.{lines_of};
ghost use Rattle.energy_budget.specs.Meter.{leak_of, level_of, lie_of, meter_gauge};
ghost use Rattle.interleave_map.specs.declared.ready.Interleaving.{Interleaving};
ghost use Rattle.line_memory.specs.Memory.{IsMemory};
ghost use Rattle.module_core.specs.Stands.{assembly, setup_of};
ghost use Rattle.nv_session.specs.Living.{IsShapeFor};
ghost use Rattle.save_device.specs.Calls.{MakesCalls};
ghost use Rattle.save_image.specs.Header.{Fits};
ghost use Rattle.slot_store.specs.Outcomes.{NoImage, restored};
ghost use Rattle.slot_store.specs.Slots.{HasSize};
ghost use Rattle.slot_store.specs.Steps.{format_calls};
ghost use Rattle.slot_store.specs.Told.{IsRestored};
ghost use Rattle.open_life.specs.Begins.{Begins, BeginsNew, HadOpeningCalls, IsOfFormat, IsRefusedFor, RestsOn};
ghost use Rattle.open_life.specs.Lives.{IsAlive};
ghost use Rattle.open_life.specs.Now.{now_of};

use crate::life::OpenLife;
use channel_port::ChannelPort;
use energy_budget::Meter;
use interleave_map::cells::line_count;
use line_memory::zero_memory;
use module_core::Module;
use nv_profile::Profile;
use nv_session::Wires;
use save_device::SaveDevice;
use save_image::Version;
use slot_store::{Head, RestoreError, Restored, format, restore};
use std::alloc::Global;
use thiserror::Error;

/// What a device held.
#[derive(Clone, Copy, Debug)]
pub enum Found {
    /// An image, which the life began with.
    Restored(Head),
    /// None, and it was formatted.
    Formatted,
}

/// Why no life began.
#[derive(Clone, Copy, Debug, Error)]
pub enum OpenFault {
    #[error("the device is not restored: {0}")]
    Restore(RestoreError),
    #[error("the device is not formatted: a call of it failed")]
    Format,
    #[error("memory")]
    Memory,
}

/// A life that has begun, and what its device held.
#[derive(Drop)]
pub struct Opened<K: ChannelPort, D: SaveDevice> {
    pub life: OpenLife<K, D>,
    pub found: Found,
}

// How many lines a profile has.
fn lines_in(profile: &Profile) -> usize
    ensures { result ≡ lines_of profile.now.checked.geometry }
{
    line_count(&profile.checked) as usize
}

// A life on a device, with a gauge that shows 0.
fn begin<K: ChannelPort, D: SaveDevice>(
    running: Module<K>,
    device: D,
    gauge: Meter,
    profile: &Profile,
) -> OpenLife<K, D>
    requires { IsAlive K.ChannelPort profile.now
        (assembly running (D.state device) (meter_gauge gauge)) }
    ensures now { now_of result ≡ assembly running (D.state device) (meter_gauge gauge) }
    ensures running { result.running ≡ running }
    ensures device { result.device ≡ device }
    ensures gauge { result.gauge ≡ gauge }
    ensures profile { result.profile ≡ profile.now }
{
    OpenLife {
        running,
        device,
        gauge,
        profile: *profile,
    }
}

/// Makes a device a store of zero lines, and opens a life on it over the profile's map, disarmed, with a gauge that shows 0 and tells no
/// lie. The device has the calls of one format, and no channel has issued a command.
pub fn open_new<K: ChannelPort + Drop, A: Wires<K>, D: SaveDevice + Drop>(
    alloc: Global,
    profile: &Profile,
    wires: &A,
    mut device: D,
) -> Result<OpenLife<K, D>, OpenFault>
    requires shape { (map : Interleaving) → IsShapeFor profile.now (A.shape wires.now map) }
    requires size { HasSize (lines_of profile.now.checked.geometry) (D.state device) }
    ensures begins { IfOk result (λ life. BeginsNew K.ChannelPort
        (lines_of profile.now.checked.geometry) (now_of life)) }
    ensures setup { IfOk result (λ life. setup_of K.ChannelPort life.running
        ≡ record { shape = A.shape wires.now profile.now.map; trail = profile.now.sizes.trail }) }
    ensures issued { IfOk result (λ life. HaveIssuedNone K.ChannelPort life.running.channels) }
    ensures calls { IfOk result (λ life.
        MakesCalls (format_calls (lines_of profile.now.checked.geometry)) true
        (D.state device).calls (D.state life.device).calls) }
    ensures level { IfOk result (λ life. level_of life.gauge ≡ 0) }
    ensures leak { IfOk result (λ life. leak_of life.gauge ≡ 0) }
    ensures lie { IfOk result (λ life. lie_of life.gauge ≡ None) }
    ensures profile { IfOk result (λ life. life.profile ≡ profile.now) }
    ensures failed { IfErr result IsOfFormat }
{
    let lines = lines_in(profile);
    let Ok(memory) = zero_memory(alloc, lines) else {
        return Err(OpenFault::Memory);
    };
    let Ok(head) = format(&mut device, lines) else {
        return Err(OpenFault::Format);
    };
    let restored = Restored {
        head,
        version: Version::Two,
        lines: memory,
    };
    match wires.open(alloc, profile.map, restored, profile.sizes.trail) {
        Ok(running) => Ok(begin(running, device, Meter::with(0, 0), profile)),
        Err(_) => Err(OpenFault::Memory),
    }
}

// Opens a life with what a device restored to, which is at rest on it.
fn open_restored<K: ChannelPort + Drop, A: Wires<K>, D: SaveDevice + Drop>(
    alloc: Global,
    profile: &Profile,
    wires: &A,
    device: D,
    restored: Restored,
) -> Result<Opened<K, D>, OpenFault>
    requires shape { (map : Interleaving) → IsShapeFor profile.now (A.shape wires.now map) }
    requires size { HasSize (lines_of profile.now.checked.geometry) (D.state device) }
    requires sound { IsMemory (lines_of profile.now.checked.geometry) restored.lines.items
        × Fits restored.head.newest.generation restored.head.count }
    requires found { IsRestored restored (lines_of profile.now.checked.geometry)
        (D.state device).bytes }
    requires rests { RestsOn restored (lines_of profile.now.checked.geometry) (D.state device) }
    ensures begins { IfOk result (λ opened. Begins K.ChannelPort
        (lines_of profile.now.checked.geometry) opened.found (D.state device).bytes
        (now_of opened.life)) }
    ensures setup { IfOk result (λ opened. setup_of K.ChannelPort opened.life.running
        ≡ record { shape = A.shape wires.now profile.now.map; trail = profile.now.sizes.trail }) }
    ensures restored { IfOk result (λ opened. opened.found ≡ Found.Restored restored.head) }
    ensures issued { IfOk result (λ opened.
        HaveIssuedNone K.ChannelPort opened.life.running.channels) }
    ensures device { IfOk result (λ opened. opened.life.device ≡ device) }
    ensures level { IfOk result (λ opened. level_of opened.life.gauge ≡ 0) }
    ensures leak { IfOk result (λ opened. leak_of opened.life.gauge ≡ 0) }
    ensures lie { IfOk result (λ opened. lie_of opened.life.gauge ≡ None) }
    ensures profile { IfOk result (λ opened. opened.life.profile ≡ profile.now) }
    ensures failed { IfErr result (λ fault. fault ≡ OpenFault.Memory) }
{
    let found = Found::Restored(restored.head);
    match wires.open(alloc, profile.map, restored, profile.sizes.trail) {
        Ok(running) => {
            let life = begin(running, device, Meter::with(0, 0), profile);
            Ok(Opened { life, found })
        }
        Err(_) => Err(OpenFault::Memory),
    }
}

// The same on a device that was formatted, as it held no image.
fn open_formatted<K: ChannelPort + Drop, A: Wires<K>, D: SaveDevice + Drop>(
    alloc: Global,
    profile: &Profile,
    wires: &A,
    device: D,
) -> Result<Opened<K, D>, OpenFault>
    requires shape { (map : Interleaving) → IsShapeFor profile.now (A.shape wires.now map) }
    requires size { HasSize (lines_of profile.now.checked.geometry) (D.state device) }
    requires none { restored (lines_of profile.now.checked.geometry) (D.state device).bytes
        ≡ NoImage }
    ensures begins { IfOk result (λ opened. Begins K.ChannelPort
        (lines_of profile.now.checked.geometry) opened.found (D.state device).bytes
        (now_of opened.life)) }
    ensures setup { IfOk result (λ opened. setup_of K.ChannelPort opened.life.running
        ≡ record { shape = A.shape wires.now profile.now.map; trail = profile.now.sizes.trail }) }
    ensures issued { IfOk result (λ opened.
        HaveIssuedNone K.ChannelPort opened.life.running.channels) }
    ensures calls { IfOk result (λ opened.
        MakesCalls (format_calls (lines_of profile.now.checked.geometry)) true
        (D.state device).calls (D.state opened.life.device).calls) }
    ensures found { IfOk result (λ opened. opened.found ≡ Found.Formatted) }
    ensures level { IfOk result (λ opened. level_of opened.life.gauge ≡ 0) }
    ensures leak { IfOk result (λ opened. leak_of opened.life.gauge ≡ 0) }
    ensures lie { IfOk result (λ opened. lie_of opened.life.gauge ≡ None) }
    ensures profile { IfOk result (λ opened. opened.life.profile ≡ profile.now) }
    ensures failed { IfErr result IsOfFormat }
{
    match open_new(alloc, profile, wires, device) {
        Ok(life) => Ok(Opened {
            life,
            found: Found::Formatted,
        }),
        Err(fault) => Err(fault),
    }
}

/// Opens a life with what a device restores to, over the profile's map, disarmed, with a gauge that shows 0 and tells no lie. A device
/// that holds no image is formatted first where that is wanted, and else refused. What a restore refuses is refused, and no byte has
/// changed. The device has the calls of one restore, and where it was formatted those of one format behind them; no channel has issued
/// a command. `Format` comes only where a device that holds no image was to be formatted.
pub fn open<K: ChannelPort + Drop, A: Wires<K>, D: SaveDevice + Drop>(
    alloc: Global,
    profile: &Profile,
    wires: &A,
    mut device: D,
    formats: bool,
) -> Result<Opened<K, D>, OpenFault>
    requires { (map : Interleaving) → IsShapeFor profile.now (A.shape wires.now map) }
    ensures begins { IfOk result (λ opened. Begins K.ChannelPort
        (lines_of profile.now.checked.geometry) opened.found (D.state device).bytes
        (now_of opened.life)) }
    ensures asked { IfOk result (λ opened. opened.found ≡ Found.Formatted → formats ≡ true) }
    ensures setup { IfOk result (λ opened. setup_of K.ChannelPort opened.life.running
        ≡ record { shape = A.shape wires.now profile.now.map; trail = profile.now.sizes.trail }) }
    ensures issued { IfOk result (λ opened.
        HaveIssuedNone K.ChannelPort opened.life.running.channels) }
    ensures calls { IfOk result (λ opened.
        HadOpeningCalls (lines_of profile.now.checked.geometry) opened.found
        (D.state device) (D.state opened.life.device)) }
    ensures level { IfOk result (λ opened. level_of opened.life.gauge ≡ 0) }
    ensures leak { IfOk result (λ opened. leak_of opened.life.gauge ≡ 0) }
    ensures lie { IfOk result (λ opened. lie_of opened.life.gauge ≡ None) }
    ensures profile { IfOk result (λ opened. opened.life.profile ≡ profile.now) }
    ensures refused { IfErr result (IsRefusedFor
        (restored (lines_of profile.now.checked.geometry) (D.state device).bytes)) }
    ensures wanted { IfErr result (λ fault. fault ≡ OpenFault.Format → formats ≡ true) }
{
    let lines = lines_in(profile);
    match restore(alloc, &mut device, lines) {
        Ok(restored) => open_restored(alloc, profile, wires, device, restored),
        Err(RestoreError::NoImage) if formats => open_formatted(alloc, profile, wires, device),
        Err(error) => Err(OpenFault::Restore(error)),
    }
}
