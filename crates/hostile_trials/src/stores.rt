// Stores with one byte of a header turned.
ghost use Rattle.std.specs.Prelude.{◌<◌, ◌≤◌, ◌^◌};

use crate::format::{Answer, LINES, SIZE, SLOT_BYTES, SlotPage, answer_for};
use crate::tally::TrialCounts;
use line_memory::Line;
use save_device::{MemoryDevice, SaveDevice};
use save_image::{PAGE_BYTES, Version, header_bytes, header_bytes_2};
use slot_store::{Slot, restore};
use std::alloc::Global;
use std::mem;

/// Of the image in the first slot, and of the one in the second.
pub(crate) const VERSIONS: [(Version, Version); 4] = [
    (Version::One, Version::One),
    (Version::One, Version::Two),
    (Version::Two, Version::One),
    (Version::Two, Version::Two),
];

// The SHA-256 of 8,192 zero bytes, by another program.
const DIGEST_OF_ZEROS: [u8; 32] = [
    0x9f, 0x1d, 0xcb, 0xc3, 0x5c, 0x35, 0x0d, 0x60, 0x27, 0xf9, 0x8b, 0xe0, 0xf5, 0xc8, 0xb4, 0x3b,
    0x42, 0xca, 0x52, 0xb7, 0x60, 0x44, 0x59, 0xc0, 0xc4, 0x2b, 0xe3, 0xaa, 0x88, 0x91, 0x3d, 0x47,
];

// And of 64 bytes 0x11 with 8,128 zero bytes behind them.
const DIGEST_OF_11: [u8; 32] = [
    0xb7, 0xd1, 0x0e, 0x33, 0x2e, 0xe2, 0xf8, 0xcd, 0x70, 0x77, 0xfa, 0xc1, 0x2c, 0xcd, 0xbe, 0x6c,
    0x75, 0x93, 0x4f, 0x6a, 0x5c, 0xf4, 0x1c, 0x8b, 0x1d, 0xd5, 0xe1, 0x3d, 0x69, 0x6a, 0x28, 0x31,
];

// What each byte is turned to.
const BYTES: [u8; 5] = [0, 1, 0x5a, 0xa5, 0xff];

/// A device with an image of zero lines of generation 1 in its first slot, and in the second one of generation 2 after a write of
/// the first line; and the two slots as they are to be read.
#[derive(Drop)]
pub(crate) struct Store {
    pub device: MemoryDevice,
    first: SlotPage,
    second: SlotPage,
}

// The page of an open slot.
fn page_of(version: Version, generation: u64, count: u64, digest: [u8; 32]) -> SlotPage
    requires generation { (1 ≤ generation) × (generation < 2 ^ 63) }
    requires count { count ≤ 2 ^ 62 }
{
    let mut header = match version {
        Version::One => header_bytes(generation, count, LINES as u64, false),
        Version::Two => header_bytes_2(generation, count, LINES as u64, false, &digest),
    };
    header[0] = 0xa5;
    SlotPage { header, digest }
}

// Writes bytes over those of a device.
fn put(device: &mut MemoryDevice, at: usize, bytes: &[u8]) -> anyhow::Result<()> {
    if device.len() != SIZE || at > SIZE || bytes.len() > SIZE - at {
        anyhow::bail!("no place of the device");
    }
    device.write_at(at, bytes)?;
    Ok(())
}

impl Store {
    /// With images of these versions.
    pub(crate) fn new(alloc: Global, versions: (Version, Version)) -> anyhow::Result<Store> {
        let mut device = MemoryDevice::new(alloc, Vec::from_elem(alloc, 0, SIZE)?)?;
        let first = page_of(versions.0, 1, 0, DIGEST_OF_ZEROS);
        let second = page_of(versions.1, 2, 1, DIGEST_OF_11);
        put(&mut device, 0, &first.header)?;
        put(&mut device, SLOT_BYTES, &second.header)?;
        put(&mut device, SLOT_BYTES + PAGE_BYTES, &[0x11; 64])?;
        Ok(Store {
            device,
            first,
            second,
        })
    }

    fn page(&mut self, slot: Slot) -> &mut SlotPage {
        match slot {
            Slot::First => &mut self.first,
            Slot::Second => &mut self.second,
        }
    }

    // Turns a byte of a slot's header, and gives what stood there.
    fn turn(&mut self, slot: Slot, at: usize, byte: u8) -> anyhow::Result<u8> {
        if at >= PAGE_BYTES {
            anyhow::bail!("no place of a header");
        }
        let before = mem::replace(&mut self.page(slot).header[at], byte);
        put(&mut self.device, slot.start(LINES) + at, &[byte])?;
        Ok(before)
    }

    // What a restore answers, and the first line of the memory that it gives.
    fn restored(&mut self, alloc: Global) -> (Answer, Option<Line>) {
        match restore(alloc, &mut self.device, LINES) {
            Ok(restored) => (
                Answer::Newest(restored.head),
                restored.lines.first().copied(),
            ),
            Err(error) => (Answer::Refused(error), None),
        }
    }

    // What it is to answer, by the second reading.
    fn expected(&self) -> (Answer, Option<Line>) {
        let answer = answer_for(&self.first, &self.second);
        let line = match answer {
            Answer::Refused(_) => None,
            Answer::Newest(head) => match head.newest.slot {
                Slot::First => Some([0; 64]),
                Slot::Second => Some([0x11; 64]),
            },
        };
        (answer, line)
    }

    // One byte of a header is turned to each other one, and back again.
    fn turn_byte(
        &mut self,
        rt: &HostRuntime,
        slot: Slot,
        at: usize,
        tally: &mut TrialCounts,
    ) -> anyhow::Result<()> {
        for byte in BYTES {
            let before = self.turn(slot, at, byte)?;
            let (answer, expected) = (self.restored(rt.alloc()), self.expected());
            tally.count(answer.1.is_some(), answer == expected);
            if answer != expected {
                println!(rt;
                    "wrong: byte {at} of slot {slot} is {byte:02x}: {answer:?}, and not {expected:?}"
                )?;
            }
            self.turn(slot, at, before)?;
        }
        Ok(())
    }
}

// The first 80 bytes of a header have all that it says; of those behind them each that is a multiple of so many is turned.
fn turn_header(
    rt: &HostRuntime,
    versions: (Version, Version),
    slot: Slot,
    apart: usize,
) -> anyhow::Result<()> {
    let mut store = Store::new(rt.alloc(), versions)?;
    let mut tally = TrialCounts::new();
    for at in 0..4096_usize {
        if at < 80 || apart == 1 || at.checked_rem(apart) == Some(0) {
            store.turn_byte(rt, slot, at, &mut tally)?;
        }
    }
    let (first, second) = (versions.0 as u8, versions.1 as u8);
    let what = format!(in rt.alloc();
        "images of versions {first} and {second}, bytes of the header in slot {slot}"
    )?;
    tally.show(rt, &what, "restored")
}

/// Of stores with images of these versions, in both slots.
pub(crate) fn turn_headers(
    rt: &HostRuntime,
    versions: (Version, Version),
    apart: usize,
) -> anyhow::Result<()> {
    turn_header(rt, versions, Slot::First, apart)?;
    turn_header(rt, versions, Slot::Second, apart)
}
