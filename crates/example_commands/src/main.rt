//! The judge of command lists as a program calls it: a list that breaks a timing rule by one clock, and one that keeps it.
#![tactic(auto)]

mod commands;

use crate::commands::judge_two_lists;
use nv_profile::{TINY, read_profile};

fn main(rt: HostRuntime) -> anyhow::Result<()> {
    let profile = read_profile(rt.alloc(), TINY.as_bytes())?;
    judge_two_lists(&rt, &profile.checked)
}
