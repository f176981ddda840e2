// The pages of a body.
ghost use Rattle.std.specs.Prelude.{◌≡◌, ◌+◌, ◌*◌, ◌≤◌, length};
ghost use Rattle.save_image.specs.Body.{page_of, lines_in};
ghost use Rattle.save_image.specs.declared.page.TheConstants.{PAGE_LINES};

use crate::{PAGE_BYTES, PAGE_LINES};
use line_memory::Line;

/// The bytes of a page of the body: 64 lines of the memory, in their order. Nothing is copied.
pub fn page_bytes(memory: &[Line], page: usize) -> &[u8; PAGE_BYTES]
    requires { PAGE_LINES * page + PAGE_LINES ≤ length memory.now }
    ensures { result.now ≡ page_of page memory.now }
{
    let lines = &memory[PAGE_LINES * page..PAGE_LINES * page + PAGE_LINES];
    lines.as_flattened().as_array().unwrap()
}

/// The 64 lines of a page of the body. Nothing is copied.
pub fn page_lines(page: &[u8; PAGE_BYTES]) -> &[Line]
    ensures { result.now ≡ lines_in PAGE_LINES page.now }
{
    let (lines, _) = page.as_chunks();
    lines
}
