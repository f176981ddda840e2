// Why a picture can't be drawn.
use std::alloc::AllocError;
use std::io;
use thiserror::Error;

/// Why a picture can't be drawn.
#[derive(Clone, Copy, Debug, PartialEq, Eq, Error)]
pub enum DrawFault {
    /// The writer failed. What it took before stays.
    #[error("writer")]
    Writer,
    #[error("memory")]
    Memory,
}

impl From<AllocError> for DrawFault {
    fn from(_: AllocError) -> DrawFault {
        DrawFault::Memory
    }
}

impl From<io::Error> for DrawFault {
    fn from(_: io::Error) -> DrawFault {
        DrawFault::Writer
    }
}
