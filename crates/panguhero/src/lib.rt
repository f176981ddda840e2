//! A battery-backed memory module in software, as a program uses it.
//!
//! **What a module is.** A module is a memory of lines of 64 bytes over DDR4 channels, with a device that its content is saved to and a
//! gauge of the energy for a last save. A life of it begins with what its device restores to and ends with a loss of its mains, or where
//! the program stops. A `Profile` has its sizes, timing and costs. One thread has a module alone (`write_persistent`), or several share
//! one as hosts of a board (`with_board`).
//!
//! **The four promises.**
//!
//! 1. A write that is accepted has the next number, and each later read sees it.
//! 2. Whatever stops the program, at any moment, a restore gives the memory after a first part of the accepted writes.
//! 3. A write that was told to be persistent is in it wherever the restore is `Complete`; else a loss is named as possible, and
//!    there is a cause. After a life with an honest gauge and a device that failed in no last save it is in it always.
//! 4. While a module is armed each accepted write is persistent at once; while it is disarmed it is behind the next save.
//!
//! `await_persistent` and `write_persistent` return once a write is persistent; nothing says that they do. Each refusal has a name,
//! and gives back what was handed in.
//!
//! **A first program.** Two hosts write a line each, and wait until it is persistent:
//!
//!     struct Lines;
//!
//!     impl BoardUse<MemoryDevice, Meter> for Lines {
//!         type Value = Option<Persisted>;
//!
//!         fn host<'m, B: BoardName + PartsName, R: Wait + Clock>(
//!             &self,
//!             rt: &R,
//!             alloc: Global,
//!             board: &MeteredBoard<'m, B>,
//!             _mains: &Mains,
//!             host: &mut Host<B>,
//!             seat: usize,
//!         ) -> HostEnd<Option<Persisted>> {
//!             let write = Write { line: seat as u64, data: [7; 64] };
//!             let told = match board.write(rt, host, write) {
//!                 Ok(receipt) => board.await_persistent(rt, host, &receipt).ok(),
//!                 Err(_) => None,
//!             };
//!             HostEnd::unchecked(alloc, told)
//!         }
//!     }
//!
//! and `with_board(&rt, alloc, &profile, formatted(alloc, &profile)?, Meter::with(1 << 62, 1), 2, &Lines)` runs them. docs/LIBRARY.md
//! goes on from here.
#![tactic(auto)]

pub use arm_state::{ArmRefusal, ArmReply, Loss, ReadRefusal, WriteRefusal};
pub use board_hosts::{Always, BoardName, Cut, Host, Receipt, RecordedModule, Seen, Stranger};
pub use board_use::{
    BoardEnd, BoardUse, HostEnd, LifeEnd, Mains, MeteredBoard, NoNotices, NotUsed, Unchecked,
    WhyNot, with_board,
};
pub use channel_locks::PartsName;
pub use channel_port::ChannelPort;
pub use ddr4_boards::{NotOpened, Ready, formatted, open, restore_device};
pub use energy_budget::{Energy, Meter};
pub use interleave_map::ReadyMap;
pub use interleave_map::cells::line_count;
pub use line_memory::{History, Line, Write};
pub use module_core::Module;
pub use notice_book::Persisted;
pub use nv_profile::{Profile, ProfileFault, TINY, read_profile};
pub use persistent_write::{NotPersistent, write_persistent};
pub use save_device::{MemoryDevice, SaveDevice};
pub use slot_store::{RestoreError, Restored, Verdict, restore};
pub use split_board::MainsLost;
