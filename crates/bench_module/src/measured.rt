// What is measured, of a module and of a plain array alike.
use line_memory::Line;
use thiserror::Error;

/// Why a measurement can't go on.
#[derive(Clone, Copy, Debug, PartialEq, Eq, Error)]
pub enum Stall {
    #[error("no such costs")]
    Costs,
    #[error("no such device")]
    Device,
    #[error("no such write")]
    Write,
    #[error("no such read")]
    Read,
    #[error("no save")]
    Save,
    #[error("idle")]
    Idle,
    #[error("not armed")]
    Arm,
    #[error("nothing saved on backup")]
    Loss,
    #[error("not there in time")]
    Turns,
}

/// A memory that can be saved.
pub trait Measured {
    /// Writes a line.
    fn write(&mut self, line: u64, data: Line) -> Result<(), Stall>;

    /// Reads a line, after all writes before.
    fn read(&mut self, line: u64) -> Result<Line, Stall>;

    /// Makes a whole save; its generation.
    fn save(&mut self) -> Result<u64, Stall>;
}
