// What the digest of an image takes alone.
ghost use Rattle.std.specs.Prelude.{length};
ghost use Rattle.slot_store.specs.Slots.{IsCapacity};

use line_memory::Line;
use save_image::{PAGE_LINES, page_bytes};
use sha2::{Digest, Sha256};

/// The first byte of the digest of all lines, which are fed a page at a time, as a save writes them.
pub(crate) fn digest_once(lines: &[Line]) -> u8
    requires { IsCapacity (length lines.now) }
{
    let mut hasher = Sha256::new();
    for page in 0..lines.len() / PAGE_LINES {
        hasher.update(page_bytes(lines, page));
    }
    hasher.finalize()[0]
}
