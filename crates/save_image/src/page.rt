// The page, of which a header is one and a body has some.

/// The bytes of a page: of a header, and of each page of a body.
pub const PAGE_BYTES: usize = 4096;

/// The lines of a page of a body. An image has whole pages, so this is the fewest lines that one has.
pub const PAGE_LINES: usize = 64;
