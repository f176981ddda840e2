//! The bytes of a save image, exactly: its header, a page of 4,096 bytes, and the pages of its body. Numbers are little
//! endian. There are two versions: in version 2 the header has the SHA-256 of the body. `specs/Header.antt`,
//! `specs/Body.antt` and `specs/Image.antt` spell them out.
#![tactic(auto)]

mod body;
mod page;
mod reading;
mod writing;

pub use body::{page_bytes, page_lines};
pub use page::{PAGE_BYTES, PAGE_LINES};
pub use reading::{Header, HeaderFault, Version, read_header};
pub use writing::{ARMED, header_bytes, header_bytes_2};
