//! The channels of a memory side by side, as the lines of the host see them: one port for each channel.
//!
//! What contracts see of them is `ChannelsView` (`specs/Set.antt`), and which writes they carry is `CarriesAll`
//! (`specs/Carrying.antt`): the sentence on the whole memory, which follows from what each port carries.
#![tactic(auto)]

mod apart;
mod asking;
mod at_once;
mod copying;
mod draining;
mod laws;
mod set;
mod terms;
mod working;

pub use apart::SetApart;
pub use laws::arrays_settle;
pub use set::ChannelSet;
pub use terms::PortTerms;
