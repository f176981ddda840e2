// The worked sums, and the gauges as their callers meet them.
ghost use Rattle.std.specs.Prelude.{◌≡◌};

use crate::check::same;
use ddr4_timing::command::Command;
use ddr4_timing::profiles::{SMALL, TINY};
use ddr4_timing::timing::Checked;
use energy_budget::{
    Action, CostNumbers, Costs, Dark, Energy, Meter, PAGE_LINES, TINY_COSTS, Wild,
};
use std::process::Abort;

fn tiny<R: Abort>(rt: &R) -> Checked {
    TINY.check(&SMALL).expect(rt, "a profile")
}

// All of them alike.
fn alike(e: u64) -> CostNumbers
    ensures { (result.e_act ≡ e) × (result.e_col ≡ e) × (result.e_pre ≡ e) × (result.e_ref ≡ e)
        × (result.e_sre ≡ e) × (result.e_clk ≡ e) × (result.e_mark ≡ e) × (result.e_sync ≡ e)
        × (result.e_page ≡ e) × (result.e_digest ≡ e) × (result.leak ≡ e) }
{
    CostNumbers {
        e_act: e,
        e_col: e,
        e_pre: e,
        e_ref: e,
        e_sre: e,
        e_clk: e,
        e_mark: e,
        e_sync: e,
        e_page: e,
        e_digest: e,
        leak: e,
    }
}

#[test]
fn a_page_that_is_paid_for_is_one_of_an_image(rt: HostRuntime) {
    same(&rt, PAGE_LINES, save_image::PAGE_LINES as u64);
}

#[test]
fn worked_sums(rt: HostRuntime) {
    let costs = Costs::of(&tiny(&rt), &TINY_COSTS);
    same(&rt, costs.cost(Action::EntryStep), 513);
    same(&rt, costs.cost(Action::CloseStep), 439);
    let frame = [
        Action::CloseGate,
        Action::Sync,
        Action::WriteHeader,
        Action::Sync,
        Action::OpenGate,
        Action::Sync,
    ];
    let mut paid: u64 = 0;
    for action in frame {
        paid = paid.saturating_add(costs.cost(action));
    }
    same(&rt, paid, 450);
    same(&rt, costs.cost(Action::WritePage), 1000);
    same(&rt, (costs.reserve(0), costs.reserve(1)), (3328, 3841));
    same(&rt, (costs.steps(0), costs.steps(1)), (10, 11));
    same(&rt, (costs.floor(0), costs.floor(1)), (3339, 3853));
    same(&rt, (costs.need(0), costs.need(1)), (3340, 3854));
    same(&rt, (costs.channels, costs.ranks, costs.pages), (2, 1, 2));
    same(&rt, (costs.close, costs.entry), (437, 486));
}

#[test]
fn worked_sums_with_digests(rt: HostRuntime) {
    let numbers = CostNumbers {
        e_digest: 100,
        ..TINY_COSTS
    };
    let costs = Costs::of(&tiny(&rt), &numbers);
    same(&rt, costs.cost(Action::WritePage), 1100);
    same(&rt, (costs.reserve(0), costs.reserve(1)), (3528, 4041));
    same(&rt, (costs.steps(0), costs.steps(1)), (10, 11));
    same(&rt, (costs.floor(0), costs.floor(1)), (3539, 4053));
    same(&rt, (costs.need(0), costs.need(1)), (3540, 4054));
}

#[test]
fn worked_sums_with_retries(rt: HostRuntime) {
    let costs = Costs::of(&tiny(&rt), &TINY_COSTS).with_retries(2);
    same(&rt, (costs.reserve(0), costs.reserve(1)), (5328, 5841));
    same(&rt, (costs.steps(0), costs.steps(1)), (12, 13));
    same(&rt, (costs.floor(0), costs.floor(1)), (5341, 5855));
    same(&rt, (costs.need(0), costs.need(1)), (5342, 5856));
    let marks = CostNumbers {
        e_mark: 2000,
        ..TINY_COSTS
    };
    let costs = Costs::of(&tiny(&rt), &marks).with_retries(16);
    same(&rt, costs.reserve(0), 9178 + 16 * 2000);
}

#[test]
fn least_and_largest_costs(rt: HostRuntime) {
    let checked = tiny(&rt);
    let none = Costs::of(&checked, &alike(0));
    same(
        &rt,
        (none.reserve(16), none.steps(16), none.floor(16)),
        (0, 26, 0),
    );
    let most = Costs::of(&checked, &alike(1_000_000));
    same(&rt, most.cost(Action::EntryStep), 490_000_000);
    same(&rt, most.cost(Action::CloseStep), 439_000_000);
    same(
        &rt,
        (most.reserve(0), most.floor(0)),
        (888_000_000, 899_000_000),
    );
}

#[test]
fn command_costs_past_their_limit(rt: HostRuntime) {
    let most = alike(1_000_000);
    same(&rt, most.is_in_limits(), true);
    let past = 1_000_001;
    let each = [
        CostNumbers {
            e_act: past,
            ..most
        }
        .is_in_limits(),
        CostNumbers {
            e_col: past,
            ..most
        }
        .is_in_limits(),
        CostNumbers {
            e_pre: past,
            ..most
        }
        .is_in_limits(),
        CostNumbers {
            e_ref: past,
            ..most
        }
        .is_in_limits(),
        CostNumbers {
            e_sre: past,
            ..most
        }
        .is_in_limits(),
    ];
    same(&rt, each, [false; 5]);
}

#[test]
fn other_costs_past_their_limit(rt: HostRuntime) {
    let most = alike(1_000_000);
    let past = 1_000_001;
    let each = [
        CostNumbers {
            e_clk: past,
            ..most
        }
        .is_in_limits(),
        CostNumbers {
            e_mark: past,
            ..most
        }
        .is_in_limits(),
        CostNumbers {
            e_sync: past,
            ..most
        }
        .is_in_limits(),
        CostNumbers {
            e_page: past,
            ..most
        }
        .is_in_limits(),
        CostNumbers {
            e_digest: past,
            ..most
        }
        .is_in_limits(),
        CostNumbers { leak: past, ..most }.is_in_limits(),
    ];
    same(&rt, each, [false; 6]);
}

#[test]
fn costs_of_commands(rt: HostRuntime) {
    same(
        &rt,
        TINY_COSTS.command_cost(&Command::PreAll { rank: 0 }),
        1,
    );
    same(&rt, TINY_COSTS.command_cost(&Command::Ref { rank: 0 }), 20);
    same(&rt, TINY_COSTS.command_cost(&Command::Sre { rank: 0 }), 1);
}

// Pays the costs in turn until one is refused, and answers how many were paid.
fn paid<E: Energy>(gauge: &mut E, costs: &[u64]) -> usize {
    for (count, cost) in costs.iter().enumerate() {
        if gauge.pay(*cost).is_err() {
            return count;
        }
    }
    costs.len()
}

// A closing save of one write on the first of two channels, and two pages.
const SAVE: [u64; 11] = [439, 513, 439, 50, 100, 50, 1000, 1000, 100, 50, 100];

#[test]
fn an_honest_meter_pays_its_level(rt: HostRuntime) {
    let mut meter = Meter::with(3843, 1);
    same(&rt, (meter.sense(), meter.tick()), (3842, 3841));
    same(&rt, paid(&mut meter, &SAVE), 11);
    same(&rt, (meter.pay(1), meter.pay(0)), (Err(Dark), Ok(())));
    same(&rt, (meter.sense(), meter.faults()), (0, 0));
    let mut short = Meter::with(3840, 0);
    same(&rt, paid(&mut short, &SAVE), 10);
    same(&rt, (short.sense(), short.faults()), (99, 0));
}

#[test]
fn a_meter_that_lies(rt: HostRuntime) {
    let mut meter = Meter::with(9000, 0);
    meter.lie(2000);
    same(&rt, meter.sense(), 9000);
    same(&rt, paid(&mut meter, &SAVE), 6);
    same(&rt, (meter.tick(), meter.faults()), (7409, 1));
    meter.end_lie();
    same(&rt, meter.pay(7409), Ok(()));
    meter.lie(10);
    same(
        &rt,
        (meter.pay(4), meter.pay(6), meter.pay(1)),
        (Ok(()), Ok(()), Err(Dark)),
    );
    same(&rt, (meter.sense(), meter.faults()), (0, 1));
}

#[test]
fn a_level_set_under_the_last(rt: HostRuntime) {
    let mut meter = Meter::with(100, 0);
    meter.set(101);
    meter.set(101);
    same(&rt, meter.faults(), 0);
    meter.set(100);
    same(&rt, (meter.sense(), meter.faults()), (100, 1));
}

#[test]
fn a_wild_gauge(rt: HostRuntime) {
    let words = [50, 49, 49, 30, 1000, 0].to_vec(rt.alloc());
    let mut wild = Wild::new(words.expect(&rt, "memory"));
    same(&rt, (wild.sense(), wild.faults()), (50, 0));
    same(&rt, (wild.tick(), wild.faults()), (49, 1));
    same(&rt, (wild.pay(9), wild.faults()), (Ok(()), 1));
    same(&rt, (wild.pay(31), wild.faults()), (Err(Dark), 2));
    same(&rt, (wild.pay(1), wild.faults()), (Ok(()), 2));
    same(&rt, (wild.pay(1000), wild.faults()), (Err(Dark), 2));
    same(&rt, (wild.pay(0), wild.faults()), (Err(Dark), 3));
    same(&rt, (wild.sense(), wild.faults()), (0, 3));
}

fn goes_to_threads<E: Energy + Send + Sync>(_gauge: &E) {}

#[test]
fn gauges_go_to_threads(rt: HostRuntime) {
    goes_to_threads(&Meter::with(1, 0));
    let words = [1].to_vec(rt.alloc()).expect(&rt, "memory");
    goes_to_threads(&Wild::new(words));
}
