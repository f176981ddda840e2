// How a header is read.
ghost use Rattle.std.specs.Prelude.{◌≡◌, ◌+◌, ◌<◌, ◌≤◌, ◌^◌, ◌↔◌, length, IsTrue, All, Ok, Some, None, IfOk, IfErr, IfSome, IsNone, OnErr};
ghost use Rattle.save_image.specs.Header.{Fits};
ghost use Rattle.save_image.specs.declared.page.TheConstants.{PAGE_BYTES};
ghost use Rattle.save_image.specs.Reading.{IsSound, IsHeaderFault, HasMagic, HasPadding, number_in, part, version_in, digest_by, fields_end};
ghost use Rattle.save_image.specs.Image.{header_in, header_of, fields_of};
ghost use Rattle.save_image.specs.declared.reading.Header.{Header};

use crate::PAGE_BYTES;
use byteorder::{ByteOrder, LittleEndian};

/// A version of the bytes of an image.
#[derive(Clone, Copy, Debug, PartialEq, Eq)]
pub enum Version {
    /// The header has no digest.
    One = 1,
    /// The header has the SHA-256 of the body.
    Two = 2,
}

/// What a header says.
#[derive(Clone, Copy, Debug, PartialEq, Eq)]
pub struct Header {
    /// The commit byte, 0xA5 where the gate is open.
    pub gate: u8,
    /// 0x00 where the image is clear; anything else counts as armed.
    pub arm: u8,
    pub generation: u64,
    /// The number of writes that the image holds.
    pub count: u64,
    /// The SHA-256 of the body, in version 2.
    pub digest: Option<[u8; 32]>,
}

impl Header {
    ghost use Rattle.save_image.specs.Image.{version_of};

    /// The version of the image.
    pub fn version(&self) -> Version
        ensures { result ≡ version_of self.now }
    {
        match self.digest {
            None => Version::One,
            Some(_) => Version::Two,
        }
    }
}

/// The first thing that is wrong with a page that is no header, by its number.
#[derive(Clone, Copy, Debug, PartialEq, Eq)]
pub enum HeaderFault {
    /// Bytes 8 to 15 are neither `NVSAVE01` nor `NVSAVE02`.
    Magic = 1,
    /// It is of an image of another number of lines.
    Lines = 2,
    /// The generation is 0 or above 2^63 - 1.
    Generation = 3,
    /// The count is above 2^62.
    Count = 4,
    /// A byte that has to be zero isn't.
    Padding = 5,
}

// Whether all bytes are zero.
fn all_zero(bytes: &[u8]) -> bool
    ensures { IsTrue result ↔ All (λ b. b ≡ 0) bytes.now }
{
    bytes.iter().all(|b| *b == 0)
}

// The number in eight bytes.
#[tactic(auto, unfolding(crate::specs::Reading::number_in))]
fn number_at(page: &[u8; PAGE_BYTES], at: usize) -> u64
    requires { at + 8 ≤ PAGE_BYTES }
    ensures { result ≡ number_in page.now at }
{
    LittleEndian::read_u64(&page[at..at + 8])
}

// Whether this text stands where the magic text has to.
fn has_text(page: &[u8; PAGE_BYTES], text: &[u8; 8]) -> bool
    ensures { IsTrue result ↔ (part 8 16 page.now ≡ text.now) }
{
    page[8..16] == text[..]
}

// The version that the magic text says, if it is one.
fn version_at(page: &[u8; PAGE_BYTES]) -> Option<Version>
    ensures some { IfSome result
        (λ version. HasMagic page.now × (version ≡ version_in page.now)) }
    ensures none { IsNone result → ¬ HasMagic page.now }
{
    if has_text(page, b"NVSAVE02") {
        return Some(Version::Two);
    }
    if has_text(page, b"NVSAVE01") {
        return Some(Version::One);
    }
    None
}

// The digest in a page of this version, if it has one.
fn digest_at(page: &[u8; PAGE_BYTES], version: Version) -> Option<[u8; 32]>
    ensures { result ≡ digest_by version page.now }
{
    match version {
        Version::One => None,
        Version::Two => {
            let mut digest = [0; 32];
            digest.copy_from_slice(&page[40..72]);
            Some(digest)
        }
    }
}

// Where the fields of a page of this version end.
fn end_of_fields(version: Version) -> usize
    ensures { result ≡ fields_end version }
{
    match version {
        Version::One => 40,
        Version::Two => 72,
    }
}

#[tactic(auto, unfolding(crate::specs::Reading::HasPadding))]
fn has_padding(page: &[u8], version: Version) -> bool
    requires length { 72 ≤ length page.now }
    requires version { version ≡ version_in page.now }
    ensures { IsTrue result ↔ HasPadding page.now }
{
    all_zero(&page[2..8]) && all_zero(&page[end_of_fields(version)..])
}

// The fields of a header, or the first fault.
fn fields(page: &[u8; PAGE_BYTES], lines: u64) -> Result<Header, HeaderFault>
    ensures ok { IfOk result (λ header. IsSound page.now lines × (header ≡ fields_of page.now)) }
    ensures err { IfErr result (IsHeaderFault page.now lines) }
{
    let Some(version) = version_at(page) else {
        return Err(HeaderFault::Magic);
    };
    if number_at(page, 32) != lines {
        return Err(HeaderFault::Lines);
    }
    let generation = number_at(page, 16);
    if generation == 0 || generation >= 1 << 63 {
        return Err(HeaderFault::Generation);
    }
    let count = number_at(page, 24);
    if count > 1 << 62 {
        return Err(HeaderFault::Count);
    }
    if !has_padding(page, version) {
        return Err(HeaderFault::Padding);
    }
    Ok(Header {
        gate: page[0],
        arm: page[1],
        generation,
        count,
        digest: digest_at(page, version),
    })
}

/// The header of an image of so many lines, in either version. A page that is none is refused with the first fault in the
/// order of the numbers; the first two bytes may be anything, and so may the digest.
pub fn read_header(page: &[u8; PAGE_BYTES], lines: u64) -> Result<Header, HeaderFault>
    // What is read is spelled so, each byte of it.
    ensures found { IfOk result (λ header.
        (page.now ≡ header_of header lines) × Fits header.generation header.count) }

    // What is spelled so is read.
    ensures only { (header : Header) → page.now ≡ header_of header lines
        → Fits header.generation header.count → result ≡ Ok header }
    ensures header { IfOk result (λ header. header_in lines page.now ≡ Some header) }
    ensures none { OnErr result (header_in lines page.now ≡ None) }

    ensures fault { IfErr result (IsHeaderFault page.now lines) }
{
    fields(page, lines)
}
