// Lives of a board over a map.
ghost use Rattle.std.specs.Prelude.{◌≡◌};

use crate::crowd::crowd;
use crate::plans::Plan;
use ddr4_boards::{formatted, open};
use energy_budget::Meter;
use interleave_map::line_map::LineMap;
use line_memory::History;
use notice_book::NoticeBook;
use nv_profile::Profile;
use std::alloc::Global;
use std::marker::Brand;
use std::sync::Wait;
use std::thread::Threads;
use std::time::Clock;

/// More energy than any save takes, in units.
const AMPLE: u64 = 1 << 62;

/// What a restore brought back: of how many writes, and how many lines are other ones than after those writes.
#[derive(Clone, Copy)]
pub(crate) struct Back {
    pub count: u64,
    pub differ: u64,
}

/// What a life came to.
#[derive(Clone, Copy)]
pub(crate) struct Lived {
    pub accepted: u64,
    pub checked: u64,
    pub past: u64,
    pub nanos: u128,
    pub cut_nanos: u128,
    pub back: Option<Back>,
}

// Whether a line of the restored life differs from that of the earlier one after the same writes.
fn differs(earlier: &History, later: &History, line: u64, count: u64) -> bool {
    if !earlier.knows(line, count) || !later.knows(line, count) {
        return true;
    }
    earlier.value_of(line, count) != later.value_of(line, count)
}

// How many of the first lines do.
fn differing(earlier: &History, later: &History, lines: u64, count: u64) -> u64 {
    let mut differ: u64 = 0;
    for line in 0..lines {
        if differs(earlier, later, line, count) {
            differ = differ.saturating_add(1);
        }
    }
    differ
}

/// A life of a board from a formatted device on; where it was saved or its mains were lost, what the next life begins with.
pub(crate) fn life_over<M, R>(
    rt: &R,
    alloc: Global,
    map: &M,
    profile: &Profile,
    plan: &Plan,
) -> anyhow::Result<Lived>
where
    M: LineMap + Sync,
    R: Threads + Wait + Clock + Sync,
    requires lawful { M.is_lawful map.now }
    requires geometry { M.geometry_of map.now ≡ profile.now.checked.geometry }
{
    let device = formatted(alloc, profile)?;
    let meter = Meter::with(AMPLE, 1);
    let ready = open(rt, alloc, map, profile, device, meter, plan.hosts).map_err(
        |refused| refused.why,
    )?;
    let book = NoticeBook::with_room(alloc, 1)?;
    let earlier = crowd::<_, _, Brand, NoticeBook, R>(rt, alloc, ready, book, plan)?;
    let mut lived = Lived {
        accepted: earlier.accepted,
        checked: earlier.checked,
        past: earlier.past,
        nanos: earlier.nanos,
        cut_nanos: earlier.cut_nanos,
        back: None,
    };
    if plan.saves || plan.lost_at.is_some() {
        let meter = Meter::with(AMPLE, 1);
        let later = open(rt, alloc, map, profile, earlier.device, meter, 1)
            .map_err(|refused| refused.why)?
            .recorded;
        let count = later.running.accepted();
        lived.back = Some(Back {
            count,
            differ: differing(&earlier.history, &later.history, plan.lines, count),
        });
    }
    Ok(lived)
}
