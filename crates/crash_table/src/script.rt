// A script with the numbers of its lines.
ghost use Rattle.std.specs.Prelude.{◌≡◌, ◌≢◌, ℕ, ◌<◌, length, get_or, IfErr, IfOk, IfSome, None, All};
ghost use Rattle.nv_script.specs.Line.{NamesChannelOf};
ghost use Rattle.nv_script.specs.Texts.{IsRefusedBy, IsScript, numbers_from, text_lines};

use ddr4_timing::timing::Geometry;
use nv_script::{ScriptFault, ScriptLine, line_numbers, read_script};
use std::alloc::Global;

/// The lines of a script that aren't skipped, and the number of each in its text.
#[derive(Drop)]
pub struct Script {
    pub lines: Vec<ScriptLine>,
    pub numbers: Vec<u64>,
}

impl Script {
    /// Reads a script, as a run does. Refused as `read_script` refuses it.
    pub fn read(alloc: Global, script: &[u8], geometry: &Geometry) -> Result<Script, ScriptFault>
        ensures lines { IfOk result (λ read. IsScript geometry.now script.now read.lines.items) }
        ensures numbers { IfOk result (λ read.
            read.numbers.items ≡ numbers_from 1 (text_lines script.now)) }
        ensures names { IfOk result (λ read. All (NamesChannelOf geometry.now) read.lines.items) }
        ensures refused { IfErr result (IsRefusedBy geometry.now script.now) }
    {
        let lines = read_script(alloc, script, geometry)?;
        let numbers = line_numbers(alloc, script)?;
        Ok(Script { lines, numbers })
    }

    /// The number of a line by its place among those that aren't skipped; 0 past the last.
    pub fn number(&self, place: usize) -> u64
        ensures { result ≡ get_or self.now.numbers.items place 0 }
    {
        self.numbers.get(place).copied().unwrap_or(0)
    }

    /// The place of the line with this number; none where that is skipped.
    pub fn place(&self, number: u64) -> Option<usize>
        ensures here { IfSome result (λ place. place < length self.now.lines.items) }
        ensures asked { IfSome result (λ place. get_or self.now.numbers.items place 0 ≡ number) }
        ensures none { result ≡ None → (place : ℕ) → place < length self.now.lines.items
            → get_or self.now.numbers.items place 0 ≢ number }
    {
        for place in 0..self.lines.len() {
            if self.number(place) == number {
                return Some(place);
            }
        }
        None
    }
}
