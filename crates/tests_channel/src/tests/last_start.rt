// A drain that starts at the last clock at which one may.
ghost use Rattle.std.specs.Prelude.{◌≡◌, ◌≤◌, ◌<◌, ◌+◌, ◌*◌, ◌^◌, []};
ghost use Rattle.ddr4_timing.specs.Lawful.{IsLawful, with_command};
ghost use Rattle.ddr4_timing.specs.Limits.{close_of};
ghost use Rattle.energy_budget.specs.Costs.{AreReckonedFor};
ghost use Rattle.ddr4_timing.specs.declared.command.Command.TheVariants.{Act};

use crate::tests::check::same;
use crate::tests::profiles::behind;
use chan_core::Channel;
use ddr4_timing::command::{Command, Stamped};
use ddr4_timing::fault::first_fault;
use ddr4_timing::place::BankAddress;
use ddr4_timing::profiles::{SMALL, TINY};
use ddr4_timing::timing::Checked;
use drain_core::{DrainReport, drain};
use energy_budget::{Costs, TINY_COSTS};
use interleave_map::{Interleaving, ReadyMap};
use std::process::Abort;

// Opens a row at a clock, as the first command of a channel, and drains it from the next clock on.
fn drain_opened(
    channel: &mut Channel,
    costs: &Costs,
    at: BankAddress,
    row: u64,
    clock: u64,
) -> DrainReport
    requires new { channel.old.commands ≡ [] }
    requires costs { AreReckonedFor channel.old.checked costs.now }
    requires lawful { IsLawful channel.old.checked (with_command [] clock (Act at row)) }
    requires in_time { clock + 1 + (close_of channel.old.checked.timing channel.old.checked.geometry
        + channel.old.checked.geometry.ranks) ≤ 9 * channel.old.checked.timing.t_refi }
    requires early { clock < 2 ^ 32 }
{
    channel.issue(Command::Act { at, row }, clock);
    channel.always();
    drain(channel, costs)
}

// A channel with one write.
fn with_a_write<R: Abort + AllocGlobal>(rt: &R, checked: &Checked) -> Channel
    ensures checked { result.checked ≡ checked.now }
    ensures new { result.commands ≡ [] }
{
    let map = ReadyMap {
        interleaving: Interleaving::Lines,
        checked: *checked,
    };
    let mut channel = Channel::new(rt.alloc(), checked, 0, 8, 8).expect(rt, "memory");
    assert!(*rt; channel.has_line(&map, 0));
    assert!(*rt; channel.put(&map, 0, 0, [0x11; 64]).is_ok());
    channel
}

const FIRST_BANK: BankAddress = BankAddress {
    rank: 0,
    group: 0,
    bank: 0,
};

// Drains a channel of one write, behind a row that was opened at the clock.
fn drain_behind<R: Abort>(
    rt: &R,
    checked: &Checked,
    channel: &mut Channel,
    clock: u64,
) -> DrainReport
    requires checked { channel.old.checked ≡ checked.now }
    requires new { channel.old.commands ≡ [] }
{
    assert!(*rt; TINY_COSTS.is_in_limits() && clock < 1 << 32);
    let costs = Costs::of(checked, &TINY_COSTS);
    let end = clock + 1 + (costs.close + costs.ranks);
    assert!(*rt; end <= 9 * checked.timing.t_refi);
    let at = FIRST_BANK;
    let opened = Stamped {
        clock,
        cmd: Command::Act { at, row: 1 },
    };
    assert!(*rt; first_fault(&checked.rules(), &[opened]).is_none());
    drain_opened(channel, &costs, at, 1, clock)
}

// The last commands of a channel.
fn recent<R: Abort + AllocGlobal>(rt: &R, channel: &Channel) -> Vec<Stamped> {
    let mut list = Vec::new(rt.alloc());
    for i in 0..64 {
        if let Some(command) = channel.recent(i) {
            list.push(command).expect(rt, "memory");
        }
    }
    list
}

const LAST: [(u64, Command); 7] = [
    (
        83_801,
        Command::Act {
            at: FIRST_BANK,
            row: 1,
        },
    ),
    (83_840, Command::PreAll { rank: 0 }),
    (83_856, Command::Ref { rank: 0 }),
    (
        84_276,
        Command::Act {
            at: FIRST_BANK,
            row: 0,
        },
    ),
    (
        84_292,
        Command::Wr {
            at: FIRST_BANK,
            column: 0,
        },
    ),
    (84_326, Command::Pre { at: FIRST_BANK }),
    (84_342, Command::Sre { rank: 0 }),
];

// Nine intervals end at 84,240, and a close step of 437 clocks and an SRE fit before that.
#[test]
fn a_drain_at_the_last_start(rt: HostRuntime) {
    let checked = TINY.check(&SMALL).expect(&rt, "a profile");
    let mut channel = with_a_write(&rt, &checked);
    let report = drain_behind(&rt, &checked, &mut channel, 83_801);
    let list = recent(&rt, &channel);
    same(&rt, list.as_slice(), behind(&rt, 0, &LAST).as_slice());
    same(&rt, first_fault(&checked.rules(), &list), None);
    same(&rt, (report.clocks, report.spent), (541, 570));
}
