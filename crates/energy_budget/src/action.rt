// The actions of a closing save.

/// What a closing save pays for at once.
#[derive(Clone, Copy, Debug, PartialEq, Eq)]
pub enum Action {
    /// The close step of a channel's drain, with the SRE at its end.
    CloseStep,
    /// The entry step of a channel's drain, for one pending write.
    EntryStep,
    /// Closing the gate of the slot that is saved to, or the sync in its place.
    CloseGate,
    /// Writing the header.
    WriteHeader,
    /// Writing one page.
    WritePage,
    /// Opening the gate.
    OpenGate,
    /// A sync behind any of these.
    Sync,
}
