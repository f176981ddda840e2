// A header written out by hand, and what is wrong with pages that are none. The expected bytes come from the format.
use crate::check::same;
use save_image::{
    Header, HeaderFault, Version, header_bytes, header_bytes_2, page_bytes, page_lines, read_header,
};

// Generation 2, count 3, 128 lines, armed.
const ARMED_HEADER: [u8; 40] = [
    0x00, 0x5a, 0x00, 0x00, 0x00, 0x00, 0x00, 0x00, // gate, arm byte, zeros
    0x4e, 0x56, 0x53, 0x41, 0x56, 0x45, 0x30, 0x31, // NVSAVE01
    0x02, 0x00, 0x00, 0x00, 0x00, 0x00, 0x00, 0x00, // generation
    0x03, 0x00, 0x00, 0x00, 0x00, 0x00, 0x00, 0x00, // count
    0x80, 0x00, 0x00, 0x00, 0x00, 0x00, 0x00, 0x00, // lines
];

// The magic text of version 2.
const MAGIC_2: [u8; 8] = [0x4e, 0x56, 0x53, 0x41, 0x56, 0x45, 0x30, 0x32];

// The SHA-256 of the three bytes "abc", as FIPS 180-4 has it.
const DIGEST: [u8; 32] = [
    0xba, 0x78, 0x16, 0xbf, 0x8f, 0x01, 0xcf, 0xea, 0x41, 0x41, 0x40, 0xde, 0x5d, 0xae, 0x22, 0x23,
    0xb0, 0x03, 0x61, 0xa3, 0x96, 0x17, 0x7a, 0x9c, 0xb4, 0x10, 0xff, 0x61, 0xf2, 0x00, 0x15, 0xad,
];

// Whether the page has these bytes from a place on.
fn holds(page: &[u8; 4096], at: usize, bytes: &[u8]) -> bool {
    page.iter().skip(at).zip(bytes).all(|(a, b)| *a == *b)
}

#[test]
fn a_header_byte_by_byte(rt: HostRuntime) {
    let page = header_bytes(2, 3, 128, true);
    same(&rt, holds(&page, 0, &ARMED_HEADER), true);
    same(&rt, page.iter().skip(40).all(|b| *b == 0), true);
    let clear = header_bytes(0x0102_0304_0506_0708, 1 << 62, 65_536, false);
    same(&rt, holds(&clear, 0, &[0, 0]), true);
    same(&rt, holds(&clear, 16, &[8, 7, 6, 5, 4, 3, 2, 1]), true);
    same(&rt, holds(&clear, 24, &[0, 0, 0, 0, 0, 0, 0, 0x40]), true);
    same(&rt, holds(&clear, 32, &[0, 0, 1, 0, 0, 0, 0, 0]), true);
}

// The header of version 2 has the same fields and its own text, the digest behind them, and then zeros.
#[test]
fn a_header_with_a_digest_byte_by_byte(rt: HostRuntime) {
    let page = header_bytes_2(2, 3, 128, true, &DIGEST);
    same(&rt, holds(&page, 0, &ARMED_HEADER[..8]), true);
    same(&rt, holds(&page, 8, &MAGIC_2), true);
    same(&rt, holds(&page, 16, &ARMED_HEADER[16..]), true);
    same(&rt, holds(&page, 40, &DIGEST), true);
    same(&rt, page.iter().skip(72).all(|b| *b == 0), true);
}

// The header above with an open gate, in either version.
fn opened(digest: Option<[u8; 32]>) -> [u8; 4096] {
    let mut page = match digest {
        None => header_bytes(2, 3, 128, true),
        Some(digest) => header_bytes_2(2, 3, 128, true, &digest),
    };
    page[0] = 0xa5;
    page
}

#[test]
fn a_header_is_read_again(rt: HostRuntime) {
    for (digest, version) in [(None, Version::One), (Some(DIGEST), Version::Two)] {
        let page = opened(digest);
        let header = Header {
            gate: 0xa5,
            arm: 0x5a,
            generation: 2,
            count: 3,
            digest,
        };
        same(&rt, header.version(), version);
        same(&rt, read_header(&page, 128), Ok(header));
        same(&rt, read_header(&page, 64), Err(HeaderFault::Lines));
    }
    same(&rt, (Version::One as u8, Version::Two as u8), (1, 2));
}

// What is read of the header above after one byte was changed.
fn changed(digest: Option<[u8; 32]>, at: usize, byte: u8) -> Result<Header, HeaderFault> {
    let mut page = opened(digest);
    if at < 4096 {
        page[at] = byte;
    }
    read_header(&page, 128)
}

#[test]
fn the_first_fault_is_named(rt: HostRuntime) {
    for (digest, first) in [(None, 40), (Some(DIGEST), 72)] {
        for (at, byte, fault) in [
            (15, 0x30, HeaderFault::Magic),
            (15, 0x33, HeaderFault::Magic),
            (33, 0x01, HeaderFault::Lines),
            (16, 0x00, HeaderFault::Generation),
            (23, 0x80, HeaderFault::Generation),
            (31, 0x40, HeaderFault::Count),
            (2, 0x01, HeaderFault::Padding),
            (first, 0x01, HeaderFault::Padding),
            (4095, 0xff, HeaderFault::Padding),
        ] {
            same(&rt, (at, changed(digest, at, byte)), (at, Err(fault)));
        }
        same(&rt, changed(digest, 0, 0xff).is_ok(), true);
        same(&rt, changed(digest, 1, 0xff).is_ok(), true);
    }
    for (fault, number) in [
        (HeaderFault::Magic, 1),
        (HeaderFault::Lines, 2),
        (HeaderFault::Generation, 3),
        (HeaderFault::Count, 4),
        (HeaderFault::Padding, 5),
    ] {
        same(&rt, fault as u8, number);
    }
}

// The text of version 1 has no digest behind its fields, and that of version 2 has any, zeros too.
#[test]
fn the_text_tells_the_version(rt: HostRuntime) {
    let one = changed(Some(DIGEST), 15, 0x31);
    same(&rt, one, Err(HeaderFault::Padding));
    let two = changed(None, 15, 0x32);
    same(&rt, two.map(|header| header.digest), Ok(Some([0; 32])));
    for at in 0..32 {
        let mut digest = DIGEST;
        digest[at] = 0x77;
        let header = changed(Some(DIGEST), 40 + at, 0x77);
        same(&rt, header.map(|header| header.digest), Ok(Some(digest)));
    }
}

#[test]
fn lines_and_pages(rt: HostRuntime) {
    let mut memory = [[0; 64]; 128];
    memory[64][0] = 0x11;
    memory[127][63] = 0x22;
    let page = page_bytes(&memory, 1);
    same(&rt, (page[0], page[4095]), (0x11, 0x22));
    same(&rt, page_lines(page), &memory[64..]);
}
