// What a restore of two images with digests takes, in turn and at once, beside the digest of as many lines.
ghost use Rattle.slot_store.specs.Slots.{IsCapacity};

use crate::digests::digest_once;
use crate::measured::Measured;
use crate::opening::capacity_of;
use crate::plain::Plain;
use crate::rounds::formatted;
use ddr4_timing::timing::Checked;
use save_device::MemoryDevice;
use slot_store::{restore, restore_at_once};
use std::alloc::Global;
use std::thread::Threads;
use std::time::{Clock, Instant};

/// Nanoseconds of all restores of a device in turn, of as many at once, and of as many digests of one image's lines.
#[derive(Clone, Copy)]
pub struct Restores {
    pub in_turn: u128,
    pub at_once: u128,
    pub digests: u128,
    /// The generation that each of them restored, and the first byte of the digest.
    pub generation: u64,
    pub first: u8,
}

impl Restores {
    // One of each.
    fn round<R: Threads + Clock>(
        &mut self,
        rt: &R,
        alloc: Global,
        device: &mut MemoryDevice,
        lines: usize,
    ) -> anyhow::Result<()>
        requires { IsCapacity lines }
    {
        let start = Instant::now(rt)?;
        let in_turn = restore(alloc, device, lines)?;
        let turn = start.elapsed(rt)?.as_nanos();
        let start = Instant::now(rt)?;
        let at_once = restore_at_once(rt, alloc, device, lines)?;
        let once = start.elapsed(rt)?.as_nanos();
        let start = Instant::now(rt)?;
        self.first = digest_once(&at_once.lines);
        let digest = start.elapsed(rt)?.as_nanos();
        anyhow::ensure!(in_turn.head == at_once.head, "two answers of one device");
        self.generation = at_once.head.newest.generation;
        self.in_turn = self.in_turn.saturating_add(turn);
        self.at_once = self.at_once.saturating_add(once);
        self.digests = self.digests.saturating_add(digest);
        Ok(())
    }
}

// A device whose slots both hold images with digests.
fn two_images(alloc: Global, checked: &Checked) -> anyhow::Result<MemoryDevice> {
    let device = formatted(alloc, checked)?;
    let mut plain = Plain::open(alloc, device, capacity_of(checked)?)?;
    plain.save()?;
    Ok(plain.into_device())
}

/// So many restores of each kind of a device with the lines of a profile, in turns.
pub(crate) fn restore_rounds<R: Threads + Clock>(
    rt: &R,
    alloc: Global,
    checked: &Checked,
    rounds: u64,
) -> anyhow::Result<Restores> {
    let lines = capacity_of(checked)?;
    let mut device = two_images(alloc, checked)?;
    let mut restores = Restores {
        in_turn: 0,
        at_once: 0,
        digests: 0,
        generation: 0,
        first: 0,
    };
    for _ in 0..rounds {
        restores.round(rt, alloc, &mut device, lines)?;
    }
    Ok(restores)
}
