// The line, the least that the host reads or writes.

/// The bytes of a line.
pub const LINE_BYTES: usize = 64;

/// The bytes of one line, the least that the host reads or writes.
pub type Line = [u8; LINE_BYTES];
