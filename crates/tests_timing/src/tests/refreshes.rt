// A channel at its limits: a profile as tight as the checks let it be, four ranks, and requests that conflict without end.
use bank_core::banks::Banks;
use ddr4_timing::command::{Command, Stamped};
use ddr4_timing::fault::first_fault;
use ddr4_timing::place::Place;
use ddr4_timing::profiles::{SHORT_ROWS, TIGHT};
use ddr4_timing::timing::Checked;
use frfcfs::next::{Next, next_command};
use frfcfs::queue::Queue;
use request_notes::pending::Kind;
use std::alloc::Global;
use std::test::Fail;

// Sixteen requests, each of a line of its own, at places that the salt picks.
fn conflicts(alloc: Global, salt: u64) -> Result<Queue, Fail> {
    let mut queue = Queue::with_room(alloc, 16)?;
    for line in 0..16 {
        let mix = salt % 1009 * 31 + line * 7;
        let kind = if mix % 3 == 0 {
            Kind::Write
        } else {
            Kind::Read
        };
        let place = Place {
            channel: 0,
            rank: mix % 4,
            group: mix / 4 % 2,
            bank: mix / 8 % 4,
            row: mix / 3 % 16,
            column: mix / 5 % 4,
        };
        if queue.is_full() || queue.next() == u64::MAX {
            return Err("full".into());
        }
        queue.push(place, line, kind, line, false);
    }
    Ok(queue)
}

// Issues the next command.
fn step(banks: &mut Banks, queue: &Queue, now: u64) -> Option<Stamped> {
    let geometry = banks.checked().geometry;
    if !queue.lies_in(&geometry) {
        return None;
    }
    let Next { clock, cmd, .. } = next_command(banks, queue, now)?;
    banks.issue(cmd, clock);
    Some(Stamped { clock, cmd })
}

// So many commands of a channel, whose requests are others after every third.
fn run(alloc: Global, checked: &Checked, count: u64) -> Result<Vec<Stamped>, Fail> {
    let mut banks = Banks::new(checked);
    let mut list: Vec<Stamped> = Vec::new(alloc);
    let mut now = 0;
    for turn in 0..count {
        let queue = conflicts(alloc, turn / 3)?;
        match step(&mut banks, &queue, now) {
            None => return Err("no command".into()),
            Some(command) => {
                now = command.clock;
                list.push(command)?;
            }
        }
    }
    Ok(list)
}

fn refreshes(list: &[Stamped]) -> u64 {
    let mut count = 0_u64;
    for command in list {
        if matches!(command.cmd, Command::Ref { .. }) {
            count = count.saturating_add(1);
        }
    }
    count
}

#[test]
fn goes_on_for_fifty_intervals(rt: HostRuntime) -> Result<(), Fail> {
    let checked = TIGHT.check(&SHORT_ROWS)?;
    let list = run(rt.alloc(), &checked, 9000)?;
    let last = list.last().ok_or("empty")?;
    assert!(rt; last.clock >= 50 * 184);
    assert_eq!(rt; first_fault(&checked.rules(), &list), None);
    assert!(rt; refreshes(&list) >= 4 * 42);
    Ok(())
}
