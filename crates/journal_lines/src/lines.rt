// The bytes of lines.
ghost use Rattle.std.specs.Prelude.{◌≡◌, ◌≢◌, ◌↔◌, ◌<◌, ◌≤◌, ◌+◌, ◌^◌, ◌++◌, ℕ, length, take, drop, slice_index_or, [], if◌then◌else◌, IfNone, IfSome, IsTrue};
ghost use Rattle.std.specs.Int.{w64, from_le_bytes};
ghost use Rattle.journal_log.specs.Lines.{line_with, lines_of, size_of};
ghost use Rattle.journal_log.specs.Log.{head_line};

use line_memory::{LINE_BYTES, Line};

/// How many bytes of a record a line holds.
pub const MOST_IN_LINE: usize = 62;

/// How many lines a record takes.
pub fn record_size(bytes: &[u8]) -> usize
    ensures { result ≡ size_of bytes.now }
{
    bytes.len().saturating_sub(1) / MOST_IN_LINE + 1
}

// Writes bytes into a line.
fn put(line: &mut [u8], at: usize, bytes: &[u8])
    requires { at + length bytes.now ≤ length line.old }
    ensures { line.new ≡ take at line.old ++ (bytes.now ++ drop (at + length bytes.now) line.old) }
{
    line[at..at + bytes.len()].copy_from_slice(bytes);
}

/// A line that holds these bytes, the last of its record or not.
pub fn line_bytes(last: bool, bytes: &[u8]) -> Line
    requires { length bytes.now ≤ 62 }
    ensures { result ≡ line_with (if last then 1 else 0) bytes.now }
{
    let mut line = [0; LINE_BYTES];
    let ends = if last { 1 } else { 0 };
    put(&mut line, 0, &[bytes.len() as u8, ends]);
    put(&mut line, 2, bytes);
    line
}

/// The line of a record with this number among its lines.
pub fn record_line(bytes: &[u8], number: usize) -> Line
    requires { number < size_of bytes.now }
    ensures { result ≡ slice_index_or (lines_of bytes.now) number [] }
{
    let from = number * MOST_IN_LINE;
    if bytes.len() - from > MOST_IN_LINE {
        line_bytes(false, &bytes[from..from + MOST_IN_LINE])
    } else {
        line_bytes(true, &bytes[from..])
    }
}

/// The head of a journal: how many records were cut from its front, where the first line in use is, and how many are in use.
pub fn head_bytes(gone: u64, first: u64, used: u64) -> Line
    ensures { result ≡ head_line gone first used }
{
    let mut line = [0; LINE_BYTES];
    put(&mut line, 0, &gone.to_le_bytes());
    put(&mut line, 8, &first.to_le_bytes());
    put(&mut line, 16, &used.to_le_bytes());
    line
}

// Whether two lines hold the same bytes.
pub(crate) fn is_same(one: &Line, other: &Line) -> bool
    ensures { IsTrue result ↔ (one.now ≡ other.now) }
{
    one == other
}

// The number in eight bytes of a line.
fn word_at(line: &Line, at: usize) -> u64
    requires { at ≤ 56 }
    ensures { result ≡ from_le_bytes w64 (take 8 (drop at line.now)) }
{
    u64::from_le_bytes([
        line[at],
        line[at + 1],
        line[at + 2],
        line[at + 3],
        line[at + 4],
        line[at + 5],
        line[at + 6],
        line[at + 7],
    ])
}

/// What a head says.
#[derive(Clone, Copy, Debug, PartialEq, Eq)]
pub struct HeadNumbers {
    /// How many records were cut from the front.
    pub gone: u64,
    /// The place in the ring of the first line in use.
    pub first: u64,
    /// How many lines are in use.
    pub used: u64,
}

/// What a line says as the head of a journal; None exactly where it isn't one.
pub fn head_numbers(line: &Line) -> Option<HeadNumbers>
    ensures some { IfSome result (λ head. line.now ≡ head_line head.gone head.first head.used) }
    ensures numbers { IfSome result (λ head. (head.gone < 2 ^ 64)
        × (head.first < 2 ^ 64) × (head.used < 2 ^ 64)) }
    ensures none { IfNone result ((gone first used : ℕ) → gone < 2 ^ 64 → first < 2 ^ 64
        → used < 2 ^ 64 → line.now ≢ head_line gone first used) }
{
    let head = HeadNumbers {
        gone: word_at(line, 0),
        first: word_at(line, 8),
        used: word_at(line, 16),
    };
    if is_same(line, &head_bytes(head.gone, head.first, head.used)) {
        Some(head)
    } else {
        None
    }
}
