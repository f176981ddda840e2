// Least clocks, and how a command raises them.
ghost use Rattle.std.specs.Prelude.{◌≡◌, ℕ, ◌<◌, ◌==◌, if◌then◌else◌, max, length, slice_index_or};

/// The least clocks of the commands to a bank behind the commands to it; `column` is that of a RD or WR.
#[derive(Clone, Copy)]
pub struct BankCells {
    pub act: u64,
    pub column: u64,
    pub pre: u64,
}

/// Raises a least clock.
pub(crate) fn raise(cell: &mut u64, least: u64)
    ensures { cell.new ≡ max cell.old least }
{
    *cell = (*cell).max(least);
}

/// Raises the least clocks of one of a table and of the others.
pub(crate) fn raise_all(cells: &mut [u64], one: u64, near: u64, far: u64)
    ensures { (k none : ℕ) → k < length cells.old → slice_index_or cells.new k none
        ≡ max (slice_index_or cells.old k none) (if one == k then near else far) }
{
    for (number, cell) in cells.iter_mut().enumerate() {
        let least = if one == number as u64 { near } else { far };
        *cell = (*cell).max(least);
    }
}
