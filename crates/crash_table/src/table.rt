// The table of what restores found, line by line.
ghost use Rattle.std.specs.Prelude.{◌≡◌, ◌<◌, ◌-◌, ◌^◌, ℕ, true, List, [], ◌∷◌, ◌++◌, All, IfOk, IfSome, OnOk};
ghost use Rattle.crash_table.specs.declared.tried.Tried.{Tried};
ghost use Rattle.crash_table.specs.Counting.{IsCountOf};
ghost use Rattle.crash_table.specs.Rows.{AreAdded, AreAlike, AreRowsOf, IsAlike, IsAtStop, IsOneMore, IsRowOf};
ghost use Rattle.crash_table.specs.Blocks.{AreBlocksOf, IsAlikeLast, JoinsBlock, TakesLine};

use crate::counts::Counts;
use crate::outcome::Outcome;
use crate::stop::Stop;
use crate::tried::Tried;
use std::alloc::{AllocError, Global};
use std::fmt;

/// An outcome, and how often it was found.
#[derive(Clone, Copy, Debug, PartialEq, Eq)]
pub struct OutcomeCount {
    pub outcome: Outcome,
    pub times: u64,
}

/// What restores found at one stop of a line.
#[derive(Drop)]
pub struct AtStop {
    pub line: u64,
    pub stop: Stop,
    pub rows: Vec<OutcomeCount>,
}

/// Lines of a script, one behind another, whose stops have the same outcomes.
#[derive(Drop)]
pub struct Block {
    pub first: u64,
    pub last: u64,
    pub rows: Vec<OutcomeCount>,
}

/// What restores found, line by line. Lines with the same outcomes stand together.
#[derive(Drop)]
pub struct Table {
    alloc: Global,
    blocks: Vec<Block>,
    counts: Counts,
}

// Where the row of an outcome stands.
fn row_of(rows: &[OutcomeCount], outcome: Outcome) -> Option<usize>
    ensures { IsRowOf outcome rows.now result }
{
    rows.iter().position(|row| row.outcome == outcome)
}

// Counts an outcome once more.
fn count_outcome(rows: &mut Vec<OutcomeCount>, outcome: Outcome) -> Result<(), AllocError>
    requires { All (λ row. row.times < 2 ^ 64 - 1) rows.old.items }
    ensures { OnOk result (IsOneMore outcome rows.old.items rows.new.items) }
{
    match row_of(rows, outcome) {
        Some(place) => rows[place].times += 1,
        None => rows.push(OutcomeCount { outcome, times: 1 })?,
    }
    Ok(())
}

// The outcomes of what was tried, each once, and how often it was found.
fn rows_of(alloc: Global, tried: &[Tried]) -> Result<Vec<OutcomeCount>, AllocError>
    ensures { IfOk result (λ rows. AreRowsOf tried.now rows.items) }
{
    let mut rows = Vec::new(alloc);
    for one in tried {
        count_outcome(&mut rows, one.outcome)?;
    }
    Ok(rows)
}

fn write_rows<W: fmt::Write>(rows: &[OutcomeCount], f: &mut fmt::Formatter<W>) -> fmt::Result {
    for row in rows {
        write!(f, "\n{:>8} {}", row.times, row.outcome)?;
    }
    Ok(())
}

// Do two rows have the same outcome, and can their numbers be added?
fn is_alike(row: &OutcomeCount, other: &OutcomeCount) -> bool
    ensures { result ≡ true → IsAlike row.now other.now }
{
    row.outcome == other.outcome && row.times.checked_add(other.times).is_some()
}

// Is it so of rows, one after another?
fn are_alike(rows: &[OutcomeCount], others: &[OutcomeCount]) -> bool
    ensures { result ≡ true → AreAlike rows.now others.now }
{
    if rows.len() != others.len() {
        return false;
    }
    for place in 0..rows.len() {
        if !is_alike(&rows[place], &others[place]) {
            return false;
        }
    }
    true
}

// Adds the numbers of rows with the same outcomes.
fn add_rows(rows: &mut Vec<OutcomeCount>, others: &[OutcomeCount])
    requires { AreAlike rows.old.items others.now }
    ensures { AreAdded others.now rows.old.items rows.new.items }
{
    for place in 0..others.len() {
        rows[place].times += others[place].times;
    }
}

// The place of the last block, where its rows and these are alike.
fn alike_last(blocks: &[Block], rows: &[OutcomeCount]) -> Option<usize>
    ensures { IfSome result (IsAlikeLast rows.now blocks.now) }
{
    let last = blocks.last()?;
    if are_alike(&last.rows, rows) {
        Some(blocks.len() - 1)
    } else {
        None
    }
}

// Puts a line behind blocks, by its number and its rows, or into the last of them where that has the same outcomes.
fn put_line(blocks: &mut Vec<Block>, line: u64, rows: Vec<OutcomeCount>) -> Result<(), AllocError>
    ensures { OnOk result (TakesLine line rows.items blocks.old.items blocks.new.items) }
{
    match alike_last(blocks, &rows) {
        Some(place) => blocks[place].join(line, &rows),
        None => blocks.push(Block {
            first: line,
            last: line,
            rows,
        })?,
    }
    Ok(())
}

impl Block {
    // Takes the next line in, whose rows have the same outcomes.
    fn join(&mut self, line: u64, rows: &[OutcomeCount])
        requires { AreAlike self.old.rows.items rows.now }
        ensures { JoinsBlock line rows.now self.old self.new }
    {
        self.last = line;
        add_rows(&mut self.rows, rows);
    }
}

impl fmt::Display for Block {
    fn fmt<W: fmt::Write>(&self, f: &mut fmt::Formatter<W>) -> fmt::Result {
        if self.first == self.last {
            write!(f, "line {}", self.first)?;
        } else {
            write!(f, "lines {} to {}", self.first, self.last)?;
        }
        write_rows(&self.rows, f)
    }
}

impl AtStop {
    /// What was tried of one stop of a line, by the line's number; none where that is nothing.
    pub fn of(alloc: Global, line: u64, tried: &[Tried]) -> Result<Option<AtStop>, AllocError>
        ensures { IfOk result (IsAtStop line tried.now) }
    {
        let Some(first) = tried.first() else {
            return Ok(None);
        };
        let rows = rows_of(alloc, tried)?;
        Ok(Some(AtStop {
            line,
            stop: first.stop,
            rows,
        }))
    }
}

impl fmt::Display for AtStop {
    fn fmt<W: fmt::Write>(&self, f: &mut fmt::Formatter<W>) -> fmt::Result {
        write!(f, "line {}, {}", self.line, self.stop)?;
        write_rows(&self.rows, f)
    }
}

impl Table {
    /// Of no line.
    pub fn new(alloc: Global) -> Table
        ensures counts { IsCountOf [] result.counts }
        ensures blocks { AreBlocksOf [] result.blocks.items }
    {
        Table {
            alloc,
            blocks: Vec::new(alloc),
            counts: Counts::new(),
        }
    }

    /// Takes the next line in, by its number and what was tried of it. Refused for want of memory, it may have counted it.
    pub fn add(&mut self, line: u64, tried: &[Tried]) -> Result<(), AllocError>
        ensures counts { (all : List Tried) → IsCountOf all self.old.counts
            → IsCountOf (all ++ tried.now) self.new.counts }
        ensures blocks { OnOk result ((lines : List (ℕ × List Tried))
            → AreBlocksOf lines self.old.blocks.items
            → AreBlocksOf (lines ++ (line, tried.now) ∷ []) self.new.blocks.items) }
    {
        self.counts.count_all(tried);
        let rows = rows_of(self.alloc, tried)?;
        put_line(&mut self.blocks, line, rows)?;
        Ok(())
    }

    /// Its lines, those with the same outcomes together.
    pub fn blocks(&self) -> &[Block]
        ensures { result.now ≡ self.now.blocks.items }
    {
        &self.blocks
    }

    /// Its counts.
    pub fn counts(&self) -> Counts
        ensures { result ≡ self.now.counts }
    {
        self.counts
    }
}

impl fmt::Display for Table {
    fn fmt<W: fmt::Write>(&self, f: &mut fmt::Formatter<W>) -> fmt::Result {
        for block in &self.blocks {
            write!(f, "{block}\n")?;
        }
        write!(f, "{}", self.counts)
    }
}
