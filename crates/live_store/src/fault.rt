// Why a program that lives on a device ends with a fault.
use crate::talk::TalkFault;
use file_device::OpenFault;
use slot_store::RestoreError;
use thiserror::Error;

/// Why no life began, or why it ended before its input did.
#[derive(Clone, Copy, Debug, Error)]
pub enum LiveFault {
    #[error("{0}")]
    Open(OpenFault),
    /// What the file holds isn't restored. `NoImage` comes only where something was stored: a file with nothing is formatted.
    #[error("the store is not restored: {0}")]
    Restore(RestoreError),
    #[error("the store is not formatted: the device failed")]
    Format,
    #[error("{0}")]
    Talk(TalkFault),
    #[error("memory")]
    Memory,
}

impl From<OpenFault> for LiveFault {
    fn from(fault: OpenFault) -> LiveFault {
        LiveFault::Open(fault)
    }
}

impl From<TalkFault> for LiveFault {
    fn from(fault: TalkFault) -> LiveFault {
        LiveFault::Talk(fault)
    }
}
