// A queue from empty to full and back. The expected values are worked out by hand.
use crate::tests::check::same;
use line_memory::{Line, Write};
use std::process::Abort;
use wpq_core::{PendingWrite, QueueFull, Wpq};

// A line of this byte.
const fn of(byte: u8) -> Line {
    [byte; 64]
}

// The queue takes a write of a line of this byte.
fn takes<R: Abort>(rt: &R, queue: &mut Wpq, number: u64, line: u64, byte: u8) {
    assert!(*rt; queue.may_take(number));
    same(rt, queue.try_push(number, line, of(byte)).is_ok(), true);
}

#[test]
fn a_full_queue_hands_the_write_back(rt: HostRuntime) {
    let mut queue = Wpq::with_depth(rt.alloc(), 2).expect(&rt, "memory");
    same(&rt, (queue.is_empty(), queue.is_full()), (true, false));
    takes(&rt, &mut queue, 3, 0, 0x11);
    takes(&rt, &mut queue, 5, 64, 0x22);
    same(&rt, (queue.is_empty(), queue.is_full()), (false, true));
    let refused = PendingWrite {
        number: 6,
        write: Write {
            line: 2,
            data: of(0x33),
        },
    };
    assert!(rt; queue.may_take(6));
    same(
        &rt,
        queue.try_push(6, 2, of(0x33)),
        Err(QueueFull { refused }),
    );
    same(&rt, queue.len(), 2);
    same(&rt, queue.newest_for(2), None);
}

#[test]
fn the_newest_write_of_a_line_is_found(rt: HostRuntime) {
    let mut queue = Wpq::with_depth(rt.alloc(), 64).expect(&rt, "memory");
    takes(&rt, &mut queue, 0, 7, 0x11);
    takes(&rt, &mut queue, 1, 7, 0x22);
    takes(&rt, &mut queue, 4, 8, 0x33);
    same(&rt, queue.newest_for(7), Some(of(0x22)));
    same(&rt, queue.newest_for(8), Some(of(0x33)));
    same(&rt, queue.newest_for(9), None);
}

#[test]
fn a_write_is_taken_by_its_number(rt: HostRuntime) {
    let mut queue = Wpq::with_depth(rt.alloc(), 3).expect(&rt, "memory");
    takes(&rt, &mut queue, 10, 1, 0x11);
    takes(&rt, &mut queue, 12, 2, 0x22);
    takes(&rt, &mut queue, 15, 3, 0x33);
    same(&rt, queue.take(11), None);
    same(&rt, queue.take(12), Some(of(0x22)));
    same(&rt, queue.take(12), None);
    let writes = queue.writes();
    same(&rt, writes.len(), 2);
    same(&rt, writes.first().map(|write| write.number), Some(10));
    same(&rt, writes.last().map(|write| write.number), Some(15));
    same(&rt, queue.take(10), Some(of(0x11)));
    same(&rt, queue.take(15), Some(of(0x33)));
    same(&rt, queue.is_empty(), true);
}

#[test]
fn the_writes_below_a_number_are_counted(rt: HostRuntime) {
    let mut queue = Wpq::with_depth(rt.alloc(), 3).expect(&rt, "memory");
    takes(&rt, &mut queue, 3, 0, 0);
    takes(&rt, &mut queue, 5, 0, 0);
    takes(&rt, &mut queue, 8, 0, 0);
    same(&rt, queue.below(3), 0);
    same(&rt, queue.below(4), 1);
    same(&rt, queue.below(5), 1);
    same(&rt, queue.below(6), 2);
    same(&rt, queue.below(8), 2);
    same(&rt, queue.below(9), 3);
}

// A place that was left is taken again.
#[test]
fn the_room_serves_again(rt: HostRuntime) {
    let mut queue = Wpq::with_depth(rt.alloc(), 1).expect(&rt, "memory");
    takes(&rt, &mut queue, 0, 9, 0x5a);
    same(&rt, queue.take(0), Some(of(0x5a)));
    takes(&rt, &mut queue, 1, 9, 0xa5);
    same(&rt, queue.take(1), Some(of(0xa5)));
}
