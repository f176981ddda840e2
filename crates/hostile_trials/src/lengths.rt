// Devices of each length.
use crate::format::{Answer, SIZE};
use crate::stores::Store;
use crate::tally::TrialCounts;
use save_device::{MemoryDevice, SaveDevice};
use save_image::Version;
use slot_store::{RestoreError, Slot, restore};
use std::alloc::Global;

// The first bytes of a store of 128 lines, or those with zeros behind them.
fn cut(alloc: Global, bytes: &[u8], length: usize) -> anyhow::Result<MemoryDevice> {
    let mut cut = bytes.to_vec(alloc)?;
    cut.resize(length, 0)?;
    Ok(MemoryDevice::new(alloc, cut)?)
}

// What a device of this length is refused for, or none where it is the whole store. A memory of 64 lines needs 16,384 bytes, and
// one of 128 needs 24,576; the header says 128.
fn refusal(lines: usize, length: usize) -> Option<RestoreError> {
    match (lines, length) {
        (64, 16_384) => Some(RestoreError::Damaged { slot: Slot::First }),
        (128, 24_576) => None,
        _ => Some(RestoreError::WrongSize),
    }
}

fn try_length(
    rt: &HostRuntime,
    bytes: &[u8],
    length: usize,
    tally: &mut TrialCounts,
) -> anyhow::Result<()> {
    for lines in [64, 128] {
        let mut device = cut(rt.alloc(), bytes, length)?;
        let refused = restore(rt.alloc(), &mut device, lines).err();
        let expected = refusal(lines, length);
        tally.count(refused.is_none(), refused == expected);
        if refused != expected {
            println!(rt;
                "wrong: {length} bytes for {lines} lines: {refused:?}, and not {expected:?}"
            )?;
        }
    }
    Ok(())
}

/// Each length from 0 to that of the store in steps of 64, and one beside each.
pub(crate) fn try_lengths(rt: &HostRuntime) -> anyhow::Result<()> {
    let mut device = Store::new(rt.alloc(), (Version::Two, Version::Two))?.device;
    let mut bytes = Vec::from_elem(rt.alloc(), 0, SIZE)?;
    if device.len() != SIZE || bytes.len() != SIZE {
        anyhow::bail!("no device");
    }
    device.read(0, &mut bytes)?;
    let mut tally = TrialCounts::new();
    for step in 0..385_usize {
        for length in [64 * step, 64 * step + 1, (64 * step).saturating_sub(1)] {
            try_length(rt, &bytes, length, &mut tally)?;
        }
    }
    tally.show(rt, "lengths of a store", "restored")
}
