// A module on the image of a device.
ghost use Rattle.std.specs.Prelude.{◌≡◌, ℕ, [], replicate, IfErr, IfOk};
ghost use Rattle.ddr4_timing.specs.Limits.{lines_of};
ghost use Rattle.line_memory.specs.History.{recorded};
ghost use Rattle.line_memory.specs.Memory.{IsMemory};
ghost use Rattle.module_core.specs.Opening.{opened_with};
ghost use Rattle.module_core.specs.Stands.{ModuleStands, setup_of};
ghost use Rattle.channel_set.specs.Issuing.{HaveIssuedNone};
ghost use Rattle.save_device.specs.Device.{DeviceState, IsSettled, faults_of};
ghost use Rattle.save_device.specs.Memory.{state_of};
ghost use Rattle.save_image.specs.Header.{Fits};
ghost use Rattle.slot_store.specs.declared.slots.Slot.TheVariants.{First};
ghost use Rattle.slot_store.specs.Formatted.{IsFormatted};
ghost use Rattle.slot_store.specs.Outcomes.{Found, first_image, restored};
ghost use Rattle.slot_store.specs.Rest.{IsAtRestOn};
ghost use Rattle.slot_store.specs.Slots.{IsCapacity, device_size};
ghost use Rattle.slot_store.specs.Told.{CallsOfRestore, IsRestored, Refuses, image_of_restored};
ghost use Rattle.ddr4_boards.specs.Restored.{HadOneRefused, HadOneRestore, IsToldByFaults, RecordsRestored};
ghost use Rattle.ddr4_boards.specs.Setup.{IsSetupOf};

use crate::ready::Ready;
use board_hosts::{Opening, RecordedModule};
use channel_port::ChannelPort;
use ddr4_module::Sizes;
use ddr4_port::Ddr4Port;
use ddr4_timing::timing::Checked;
use energy_budget::{Costs, Energy};
use interleave_map::cells::line_count;
use interleave_map::line_map::LineMap;
use line_memory::{History, Line};
use module_core::Module;
use nv_profile::Profile;
use save_device::{MemoryDevice, SaveDevice};
use slot_store::{RestoreError, Restored, device_size, format, restore_at_once};
use split_board::BoardTables;
use std::alloc::{AllocError, Global};
use std::thread::Threads;

/// Why no module was opened, as a restore says it, `Memory` also where there was none for the module; and the device and the gauge
/// that it was to have.
#[derive(Drop)]
pub struct NotOpened<D: SaveDevice, E: Energy> {
    pub why: RestoreError,
    pub device: D,
    pub energy: E,
}

// How many lines a profile has; they make whole pages.
fn capacity_of(checked: &Checked) -> usize
    ensures is { result ≡ lines_of checked.now.geometry }
    ensures capacity { IsCapacity result }
{
    line_count(checked) as usize
}

/// A device in memory with zero lines, as many as the profile has: zero bytes that were formatted, settled, of which a restore finds
/// the image of generation 1.
pub fn formatted(alloc: Global, profile: &Profile) -> anyhow::Result<MemoryDevice>
    ensures formatted { IfOk result (λ device.
        IsFormatted (lines_of profile.now.checked.geometry)
        (replicate (device_size (lines_of profile.now.checked.geometry)) 0)
        (state_of device).bytes) }
    ensures finds { IfOk result (λ device.
        restored (lines_of profile.now.checked.geometry) (state_of device).bytes
        ≡ Found First (first_image (lines_of profile.now.checked.geometry))) }
    ensures settled { IfOk result (λ device. IsSettled (state_of device)) }
{
    let lines = capacity_of(&profile.checked);
    let bytes = Vec::from_elem(alloc, 0, device_size(lines))?;
    let mut device = MemoryDevice::new(alloc, bytes)?;
    format(&mut device, lines)?;
    Ok(device)
}

/// Reads the newest image of a device of a profile, by the calls of one restore. No byte of it changes. The lines of both slots
/// are digested at once, where a thread is to be had.
pub fn restore_device<D: SaveDevice, R: Threads>(
    rt: &R,
    alloc: Global,
    profile: &Profile,
    device: &mut D,
) -> Result<Restored, RestoreError>
    ensures found { IfOk result (λ it. IsRestored it
        (lines_of profile.now.checked.geometry) (D.state device.old).bytes) }
    ensures refused { IfErr result (λ error. Refuses error
        (restored (lines_of profile.now.checked.geometry) (D.state device.old).bytes)) }
    ensures calls { CallsOfRestore (lines_of profile.now.checked.geometry) result
        (D.state device.old) (D.state device.new) }
    ensures same { (D.state device.new).bytes ≡ (D.state device.old).bytes }
{
    restore_at_once(rt, alloc, device, capacity_of(&profile.checked))
}

// The record of a life that begins with these lines, with room for so many writes.
fn record_of(alloc: Global, lines: &[Line], start: u64, trail: u64) -> Result<History, AllocError>
    ensures { IfOk result (λ history. history ≡ recorded lines.now start [] trail) }
{
    let mut base = Vec::with_capacity(alloc, lines.len())?;
    base.extend_from_slice(lines)?;
    match History::new(alloc, base, start, trail as usize) {
        Ok(history) => Ok(history),
        Err((_, error)) => Err(error),
    }
}

// A module that has begun, the tables of its board, and the record of its life.
struct Begun<K: ChannelPort> {
    tables: BoardTables,
    running: Module<K>,
    history: History,
}

// A module that begins with what a device restored to, with the tables of its board and its record.
fn begin<'m, M: LineMap>(
    alloc: Global,
    map: &'m M,
    profile: &Profile,
    restored: Restored,
    hosts: usize,
) -> Result<Begun<Ddr4Port<'m, M>>, AllocError>
    requires lawful { M.is_lawful map.now }
    requires geometry { M.geometry_of map.now ≡ profile.now.checked.geometry }
    requires memory { IsMemory (lines_of profile.now.checked.geometry) restored.lines.items }
    requires numbers { Fits restored.head.newest.generation restored.head.count }
    ensures parts { IfOk result (λ begun. begun.tables.opening.parts ≡ hosts) }
    ensures mark { IfOk result (λ begun.
        begun.tables.opening.mark ≡ begun.running.front.persisted) }
    ensures begins { IfOk result (λ begun. (arm : ℕ) (at : DeviceState)
        → IsAtRestOn restored.head.newest.slot (image_of_restored restored arm)
        (lines_of profile.now.checked.geometry) restored.head.closed at
        → ModuleStands ⟦<Ddr4Port<'m, M> as ChannelPort>⟧ begun.running at
        (opened_with restored.head (image_of_restored restored arm))) }
    ensures issued { IfOk result (λ begun.
        HaveIssuedNone ⟦<Ddr4Port<'m, M> as ChannelPort>⟧ begun.running.channels) }
    ensures setup { IfOk result (λ begun. IsSetupOf (M.place_of map.now) profile.now
        (setup_of ⟦<Ddr4Port<'m, M> as ChannelPort>⟧ begun.running)) }
    ensures history { IfOk result (λ begun. begun.history
        ≡ recorded restored.lines.items restored.head.count [] profile.now.sizes.trail) }
{
    let costs = Costs::of(&profile.checked, &profile.costs).with_retries(profile.sizes.retries);
    let sizes = Sizes {
        depth: profile.sizes.depth,
        reads: profile.sizes.reads,
        trail: profile.sizes.trail,
        keeps_commands: false,
    };
    let history = record_of(alloc, &restored.lines, restored.head.count, sizes.trail)?;
    let running = match ddr4_module::open(alloc, restored, map, &profile.checked, costs, sizes) {
        Ok(running) => running,
        Err((_, error)) => return Err(error),
    };
    let opening = Opening::new(alloc, running.mark(), hosts)?;
    let tables = BoardTables::new(alloc, opening)?;
    Ok(Begun {
        tables,
        running,
        history,
    })
}

/// A module of a profile over a lawful map of its geometry, with the memory that a device restores to, its record, and the tables
/// of its board for so many hosts. The device is restored once, as `restore_device` does, and nothing else is asked of it: no byte
/// of it changes. No channel has issued a command. Where none is opened the device and the gauge are given back: `Device` where a
/// call of the device failed, and only there; `Memory` only where there was none.
pub fn open<'m, M: LineMap, D: SaveDevice + Drop, E: Energy + Drop, R: Threads>(
    rt: &R,
    alloc: Global,
    map: &'m M,
    profile: &Profile,
    mut device: D,
    energy: E,
    hosts: usize,
) -> Result<Ready<Ddr4Port<'m, M>, D, E>, NotOpened<D, E>>
    requires lawful { M.is_lawful map.now }
    requires geometry { M.geometry_of map.now ≡ profile.now.checked.geometry }
    ensures parts { IfOk result (λ ready. ready.tables.opening.parts ≡ hosts) }
    ensures mark { IfOk result (λ ready.
        ready.tables.opening.mark ≡ ready.recorded.running.front.persisted) }
    ensures new { IfOk result (λ ready. ready.recorded.history.writes ≡ []) }
    ensures restored { IfOk result (λ ready. RecordsRestored
        (restored (lines_of profile.now.checked.geometry) (D.state device).bytes)
        profile.now.sizes.trail ready.recorded.history) }
    ensures same { IfOk result (λ ready.
        (D.state ready.recorded.device).bytes ≡ (D.state device).bytes) }
    ensures calls { IfOk result (λ ready. HadOneRestore (lines_of profile.now.checked.geometry)
        (D.state device) (D.state ready.recorded.device)) }
    ensures spared { IfOk result (λ ready.
        faults_of (D.state ready.recorded.device) ≡ faults_of (D.state device)) }
    ensures gauge { IfOk result (λ ready. ready.recorded.energy ≡ energy) }
    ensures issued { IfOk result (λ ready.
        HaveIssuedNone ⟦<Ddr4Port<'m, M> as ChannelPort>⟧ ready.recorded.running.channels) }
    ensures setup { IfOk result (λ ready. IsSetupOf (M.place_of map.now) profile.now
        (setup_of ⟦<Ddr4Port<'m, M> as ChannelPort>⟧ ready.recorded.running)) }
    ensures refused { IfErr result (λ none. Refuses none.why
        (restored (lines_of profile.now.checked.geometry) (D.state device).bytes)) }
    ensures refused_calls { IfErr result (λ none. HadOneRefused
        (lines_of profile.now.checked.geometry) none.why
        (D.state device) (D.state none.device)) }
    ensures faults { IfErr result (λ none. IsToldByFaults none.why
        (faults_of (D.state device)) (faults_of (D.state none.device))) }
    ensures device { IfErr result (λ none. (D.state none.device).bytes ≡ (D.state device).bytes) }
    ensures energy { IfErr result (λ none. none.energy ≡ energy) }
{
    let lines = capacity_of(&profile.checked);
    let restored = match restore_at_once(rt, alloc, &mut device, lines) {
        Ok(restored) => restored,
        Err(error) => {
            return Err(NotOpened {
                why: error,
                device,
                energy,
            });
        }
    };
    let Ok(begun) = begin(alloc, map, profile, restored, hosts) else {
        return Err(NotOpened {
            why: RestoreError::Memory,
            device,
            energy,
        });
    };
    let Begun {
        tables,
        running,
        history,
    } = begun;
    Ok(Ready {
        tables,
        recorded: RecordedModule {
            running,
            device,
            energy,
            history,
        },
        channels: profile.checked.geometry.channels,
    })
}
