// What the header pages of both slots say.
ghost use Rattle.std.specs.Prelude.{◌≡◌, ◌+◌, ◌≤◌, List, ℕ, length, is_ok, slice_range, IfOk};
ghost use Rattle.save_device.specs.Changes.{OnlyReads};
ghost use Rattle.slot_store.specs.Slots.{HasSize, slot_state, slot_with, body_in};
ghost use Rattle.slot_store.specs.Told.{AreReadings, told, digest_said, version_said, header_at, header_in_page, header_of_reading, in_slot};
ghost use Rattle.save_image.specs.declared.page.TheConstants.{PAGE_BYTES};
ghost use Rattle.slot_store.specs.declared.slots.TheConstants.{MOST_LINES};

use crate::Slot;
use save_device::{DeviceFault, SaveDevice};
use save_image::{Header, PAGE_BYTES, Version, read_header};

/// What the header page of a slot says.
#[derive(Clone, Copy)]
pub(crate) enum Reading {
    /// The gate isn't open.
    Shut,
    /// It is open, and the page is no header.
    Broken,
    Image(Header),
}

impl Reading {
    /// The digest that the lines have to have, if any.
    pub(crate) fn digest(self) -> Option<[u8; 32]>
        ensures { result ≡ digest_said self }
    {
        match self {
            Reading::Image(header) => header.digest,
            Reading::Shut | Reading::Broken => None,
        }
    }

    /// The version of the image.
    pub(crate) fn version(self) -> Version
        ensures { result ≡ version_said self }
    {
        match self.digest() {
            None => Version::One,
            Some(_) => Version::Two,
        }
    }
}

/// What the header pages of both slots say.
#[derive(Clone, Copy)]
pub(crate) struct Readings {
    pub(crate) first: Reading,
    pub(crate) second: Reading,
}

impl Readings {
    /// What that of this slot says.
    pub(crate) fn of(&self, slot: Slot) -> Reading
        ensures { result ≡ in_slot self.now slot }
    {
        match slot {
            Slot::First => self.first,
            Slot::Second => self.second,
        }
    }
}

/// Reads one page.
pub(crate) fn read_page<D: SaveDevice>(
    device: &mut D,
    at: usize,
) -> Result<[u8; PAGE_BYTES], DeviceFault>
    requires { at + PAGE_BYTES ≤ length (D.state device.old).bytes }
    ensures page { IfOk result
        (λ page. page ≡ slice_range (D.state device.old).bytes at (at + PAGE_BYTES)) }
    ensures reads { OnlyReads 1 (is_ok result) (D.state device.old) (D.state device.new) }
{
    let mut page = [0; PAGE_BYTES];
    device.read(at, &mut page)?;
    Ok(page)
}

fn reading_of(page: &[u8; PAGE_BYTES], lines: usize) -> Reading
    ensures state { (memory : List (List ℕ))
        → slot_with lines page.now memory ≡ told result memory }
    ensures header { header_in_page lines page.now ≡ header_of_reading result }
{
    if page[0] != 0xA5 {
        return Reading::Shut;
    }
    match read_header(page, lines as u64) {
        Ok(header) => Reading::Image(header),
        Err(_) => Reading::Broken,
    }
}

fn read_slot<D: SaveDevice>(
    device: &mut D,
    slot: Slot,
    lines: usize,
) -> Result<Reading, DeviceFault>
    requires lines { lines ≤ MOST_LINES }
    requires size { HasSize lines (D.state device.old) }
    ensures state { IfOk result (λ reading. slot_state lines slot (D.state device.old).bytes
        ≡ told reading (body_in lines slot (D.state device.old).bytes)) }
    ensures header { IfOk result (λ reading.
        header_at lines slot (D.state device.old).bytes ≡ header_of_reading reading) }
    ensures reads { OnlyReads 1 (is_ok result) (D.state device.old) (D.state device.new) }
{
    let page = read_page(device, slot.start(lines))?;
    Ok(reading_of(&page, lines))
}

/// Reads both.
pub(crate) fn read_both<D: SaveDevice>(
    device: &mut D,
    lines: usize,
) -> Result<Readings, DeviceFault>
    requires lines { lines ≤ MOST_LINES }
    requires size { HasSize lines (D.state device.old) }
    ensures readings { IfOk result (AreReadings lines (D.state device.old).bytes) }
    ensures reads { OnlyReads 2 (is_ok result) (D.state device.old) (D.state device.new) }
{
    let first = read_slot(device, Slot::First, lines)?;
    let second = read_slot(device, Slot::Second, lines)?;
    Ok(Readings { first, second })
}
