// Boards of marks from their opening to the join of their seats. The expected values are worked out by hand.
ghost use Rattle.std.specs.Prelude.{◌≡◌, ◌≤◌};
ghost use Rattle.board_hosts.specs.SeenMarks.{seen_marks};

use crate::check::same;
use board_hosts::{BoardSeat, HostSeat, MarkBoard};
use std::alloc::Global;
use std::process::Abort;
use std::thread::join;

// A board for two hosts, and all seats.
fn two_hosts<R: Abort>(
    rt: &R,
    alloc: Global,
    count: u64,
) -> (MarkBoard, BoardSeat, HostSeat, HostSeat)
    ensures owner { result.1 ≡ seen_marks result.0 count count }
    ensures first { result.2.board ≡ result.0 }
    ensures second { result.3.board ≡ result.0 }
{
    let (board, owner, mut hosts) = MarkBoard::new(alloc, count, 2).expect(rt, "memory");
    let first = hosts.pop().expect(rt, "a seat");
    let second = hosts.pop().expect(rt, "a seat");
    same(rt, hosts.pop().is_none(), true);
    (board, owner, first, second)
}

// The host loads these marks.
fn loads<R: Abort>(rt: &R, board: &MarkBoard, host: &mut HostSeat, accepted: u64, persisted: u64)
    requires { host.old.board ≡ board.now }
    ensures { host.new.board ≡ board.now }
{
    same(rt, host.accepted(board), accepted);
    same(rt, host.persisted(board), persisted);
}

// The board raises what is persistent, and then the host loads it.
fn raises<R: Abort>(
    rt: &R,
    board: &MarkBoard,
    owner: &mut BoardSeat,
    host: &mut HostSeat,
    count: u64,
    wanted: u64,
)
    requires board { owner.old.board ≡ board.now }
    requires host { host.old.board ≡ board.now }
    requires accepted { count ≤ owner.old.accepted }
    ensures owner { owner.new.board ≡ board.now }
    ensures accepted { owner.new.accepted ≡ owner.old.accepted }
    ensures host { host.new.board ≡ board.now }
{
    owner.raise(board, count);
    same(rt, host.persisted(board), wanted);
}

#[test]
fn hosts_load_what_the_board_stores(rt: HostRuntime) {
    let (board, mut owner, mut first, mut second) = two_hosts(&rt, rt.alloc(), 3);
    loads(&rt, &board, &mut first, 3, 3);
    owner.accept(&board, 5);
    loads(&rt, &board, &mut first, 5, 3);
    raises(&rt, &board, &mut owner, &mut second, 4, 4);
    raises(&rt, &board, &mut owner, &mut second, 2, 4);
    raises(&rt, &board, &mut owner, &mut first, 5, 5);
    owner.join(&board, first);
    owner.join(&board, second);
}

// Accepts so many writes, and shows the host the marks.
fn accepts(board: &MarkBoard, owner: &mut BoardSeat, host: &mut HostSeat, count: u64)
    requires board { owner.old.board ≡ board.now }
    requires host { host.old.board ≡ board.now }
    requires rises { owner.old.accepted ≤ count }
    ensures owner { owner.new ≡ seen_marks board.now count owner.old.persisted }
    ensures host { host.new.board ≡ board.now }
{
    owner.accept(board, count);
    owner.inform(board, host);
}

// Accepts so many writes, all of them persistent, and shows the host the marks twice.
fn persists(board: &MarkBoard, owner: &mut BoardSeat, host: &mut HostSeat, count: u64)
    requires board { owner.old.board ≡ board.now }
    requires host { host.old.board ≡ board.now }
    requires rises { owner.old.accepted ≤ count }
    ensures owner { owner.new.board ≡ board.now }
    ensures host { host.new.board ≡ board.now }
{
    owner.accept(board, count);
    owner.raise(board, count);
    owner.inform(board, host);
    owner.inform(board, host);
}

#[test]
fn an_informed_host_goes_on(rt: HostRuntime) {
    let (board, mut owner, mut hosts) = MarkBoard::new(rt.alloc(), 0, 1).expect(&rt, "memory");
    let mut host = hosts.pop().expect(&rt, "a seat");
    accepts(&board, &mut owner, &mut host, 1);
    loads(&rt, &board, &mut host, 1, 0);
    persists(&board, &mut owner, &mut host, 2);
    same(&rt, host.persisted(&board), 2);
    owner.join(&board, host);
}

#[test]
fn two_threads_load_at_once(rt: HostRuntime) {
    let (board, mut owner, mut first, mut second) = two_hosts(&rt, rt.alloc(), 7);
    owner.accept(&board, 9);
    let (accepted, persisted) = join(&rt, || first.accepted(&board), || second.persisted(&board));
    same(&rt, accepted, 9);
    same(&rt, persisted, 7);
}
