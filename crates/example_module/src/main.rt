//! A module that one thread has alone: a write that is persistent once it returns, two writes while the module is armed, a loss of
//! mains, and what its device restores to.
#![tactic(auto)]

use panguhero::{
    ChannelPort, MemoryDevice, Meter, Ready, ReadyMap, RecordedModule, Restored, TINY, Write,
    formatted, open, read_profile, restore_device, write_persistent,
};

/// More energy than any save takes, in units.
const AMPLE: u64 = 1 << 62;

// A write of a line whose bytes are all this one.
fn filled(line: u64, byte: u8) -> Write {
    Write {
        line,
        data: [byte; 64],
    }
}

// Writes a line while the module is disarmed and two while it is armed, and loses the mains; what is left is the device.
fn lose<K: ChannelPort + Drop>(
    rt: &HostRuntime,
    ready: Ready<K, MemoryDevice, Meter>,
) -> anyhow::Result<MemoryDevice> {
    let Ready { recorded, .. } = ready;
    let RecordedModule {
        mut running,
        mut device,
        mut energy,
        ..
    } = recorded;
    let told = write_persistent(&mut running, &mut device, &mut energy, filled(0, 0x11));
    println!(*rt; "a persistent write: {told:?}")?;
    let armed = running.arm(&mut device, &mut energy);
    println!(*rt; "arm: {armed:?}")?;
    let second = running.write(filled(1, 0x22));
    let third = running.write(filled(2, 0x33));
    println!(*rt; "two writes: {second:?}, {third:?}")?;
    let lost = running.power_loss(&mut device, &mut energy);
    println!(*rt; "loss of mains: {lost:?}")?;
    Ok(device)
}

// What the device restored to.
fn show(rt: &HostRuntime, restored: &Restored) -> anyhow::Result<()> {
    let head = restored.head;
    println!(*rt;
        "restored: generation {}, {} writes, {}",
        head.newest.generation, head.count, head.verdict
    )?;
    for (line, bytes) in restored.lines.iter().enumerate().take(3) {
        println!(*rt; "line {line}: {:02x}", bytes[0])?;
    }
    Ok(())
}

fn main(rt: HostRuntime) -> anyhow::Result<()> {
    let profile = read_profile(rt.alloc(), TINY.as_bytes())?;
    let map = ReadyMap {
        interleaving: profile.map,
        checked: profile.checked,
    };
    let device = formatted(rt.alloc(), &profile)?;
    let meter = Meter::with(AMPLE, 1);
    let mut device = match open(&rt, rt.alloc(), &map, &profile, device, meter, 1) {
        Ok(ready) => lose(&rt, ready)?,
        Err(refused) => return Err(refused.why.into()),
    };
    let restored = restore_device(&rt, rt.alloc(), &profile, &mut device)?;
    show(&rt, &restored)
}
