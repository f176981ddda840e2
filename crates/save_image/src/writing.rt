// How a header is written.
ghost use Rattle.std.specs.Prelude.{◌≡◌, ◌+◌, ◌≤◌, [], ◌∷◌, ◌++◌, length, Some, None};
ghost use Rattle.save_image.specs.Header.{header, fields, arm_byte, zeros, le8, spliced};
ghost use Rattle.save_image.specs.declared.page.TheConstants.{PAGE_BYTES};

use crate::PAGE_BYTES;
use byteorder::{ByteOrder, LittleEndian};

/// The arm byte of an image that is armed; that of a clear one is 0.
pub const ARMED: u8 = 0x5a;

// Writes a number of eight bytes.
#[tactic(auto, unfolding(crate::specs::Header::le8))]
fn put_number(page: &mut [u8], at: usize, n: u64)
    requires { at + 8 ≤ length page.old }
    ensures { page.new ≡ spliced at (le8 n) page.old }
{
    LittleEndian::write_u64(&mut page[at..at + 8], n);
}

// Writes bytes.
fn put(page: &mut [u8], at: usize, bytes: &[u8])
    requires { at + length bytes.now ≤ length page.old }
    ensures { page.new ≡ spliced at bytes.now page.old }
{
    page[at..at + bytes.len()].copy_from_slice(bytes);
}

// A page of zero bytes.
#[tactic(auto, unfolding(crate::specs::Header::zeros))]
fn zero_page() -> [u8; PAGE_BYTES]
    ensures { result ≡ zeros PAGE_BYTES }
{
    [0; PAGE_BYTES]
}

// A page with a closed gate, an arm byte, a magic text and the numbers, and zeros behind them.
fn page_of_fields(
    magic: &[u8; 8],
    generation: u64,
    count: u64,
    lines: u64,
    armed: bool,
) -> [u8; PAGE_BYTES]
    ensures { result ≡ fields 0 (arm_byte armed) magic.now generation count lines ++ zeros 4056 }
{
    let mut page = zero_page();
    let arm = if armed { ARMED } else { 0 };
    put(&mut page, 0, &[0, arm]);
    put(&mut page, 8, magic);
    put_number(&mut page, 16, generation);
    put_number(&mut page, 24, count);
    put_number(&mut page, 32, lines);
    page
}

/// The header of an image of version 1, with a closed gate: its generation (1 to 2^63 - 1), the number of writes that it
/// holds (at most 2^62), the number of lines, and whether it is armed. Opening the gate, byte 0, is a write of its own.
pub fn header_bytes(generation: u64, count: u64, lines: u64, armed: bool) -> [u8; PAGE_BYTES]
    ensures { result ≡ header None 0 (arm_byte armed) generation count lines }
{
    page_of_fields(b"NVSAVE01", generation, count, lines, armed)
}

/// The header of an image of version 2, with a closed gate: the same, and the SHA-256 of its body.
pub fn header_bytes_2(
    generation: u64,
    count: u64,
    lines: u64,
    armed: bool,
    digest: &[u8; 32],
) -> [u8; PAGE_BYTES]
    ensures { result ≡ header (Some digest.now) 0 (arm_byte armed) generation count lines }
{
    let mut page = page_of_fields(b"NVSAVE02", generation, count, lines, armed);
    put(&mut page, 40, digest);
    page
}
