// The threads of a board.
ghost use Rattle.std.specs.Prelude.{◌≡◌, ◌+◌, ◌<◌, ◌≤◌, vec_capacity, vec_len, IfOk};

use crate::hosting::{BoardUse, Done, HostEnd, MeteredBoard, host_one};
use crate::mains::Mains;
use crate::muster::Muster;
use arm_state::Loss;
use board_hosts::{Always, BoardName, Ended, Host};
use channel_locks::PartsName;
use energy_budget::Energy;
use save_device::SaveDevice;
use split_board::{channel_worker, saver_worker};
use std::alloc::{AllocError, Global};
use std::sync::Wait;
use std::thread;
use std::thread::{JoinHandle, Scope, Threads};
use std::time::Clock;
use worker_turns::give_way;

/// Room for hosts: for their threads, for the hosts when they are done, and for what they came to.
#[derive(Drop)]
pub(crate) struct Room<B: BoardName, T> {
    threads: Vec<JoinHandle<Done<B, T>>>,
    hosts: Vec<Host<B>>,
    ends: Vec<HostEnd<T>>,
    ghost fewer: { vec_len ends ≤ vec_len hosts },
    ghost spacious: { vec_capacity hosts ≤ vec_capacity ends },
}

impl<B: BoardName, T: Drop> Room<B, T> {
    /// For so many. It refuses only where there is no memory.
    pub(crate) fn for_hosts(alloc: Global, hosts: usize) -> Result<Room<B, T>, AllocError>
        ensures none { IfOk result (λ room. vec_len room.hosts ≡ 0) }
        ensures unstarted { IfOk result (λ room. vec_len room.threads ≡ 0) }
        ensures threads { IfOk result (λ room. vec_capacity room.threads ≡ hosts) }
        ensures hosts { IfOk result (λ room. vec_capacity room.hosts ≡ hosts) }
    {
        let threads = Vec::with_capacity(alloc, hosts)?;
        let ends = Vec::with_capacity(alloc, hosts)?;
        let hosts = Vec::with_capacity(alloc, hosts)?;
        Ok(Room {
            threads,
            hosts,
            ends,
        })
    }

    // A host that is done.
    fn take(&mut self, done: Done<B, T>)
        requires { vec_len self.old.hosts < vec_capacity self.old.hosts }
        ensures one { vec_len self.new.hosts ≡ vec_len self.old.hosts + 1 }
        ensures room { vec_capacity self.new.hosts ≡ vec_capacity self.old.hosts }
        ensures threads { self.new.threads ≡ self.old.threads }
    {
        self.hosts.push_reserved(done.host);
        if let Some(end) = done.end {
            self.ends.push_reserved(end);
        }
    }

    // A host whose thread was started.
    fn start(&mut self, thread: JoinHandle<Done<B, T>>)
        requires { vec_len self.old.threads < vec_capacity self.old.threads }
        ensures one { vec_len self.new.threads ≡ vec_len self.old.threads + 1 }
        ensures room { vec_capacity self.new.threads ≡ vec_capacity self.old.threads }
        ensures hosts { self.new.hosts ≡ self.old.hosts }
    {
        self.threads.push_reserved(thread);
    }

    // Waits until all threads that were started are done.
    fn join<R: Threads>(&mut self, rt: &R)
        requires { vec_len self.old.hosts + vec_len self.old.threads ≤ vec_capacity self.old.hosts }
        ensures { vec_len self.new.hosts ≡ vec_len self.old.hosts + vec_len self.old.threads }
    {
        for _joined in 0..self.threads.len() {
            let Some(thread) = self.threads.pop() else {
                unreachable!();
            };
            self.take(thread.join(rt));
        }
    }
}

/// The hosts of a board behind its threads and what they came to, the answer to a loss of mains where there was one, and whether a
/// thread was refused.
#[derive(Drop)]
pub(crate) struct Joined<B: BoardName, T> {
    pub hosts: Vec<Host<B>>,
    pub ends: Vec<HostEnd<T>>,
    pub loss: Option<Loss>,
    pub refused: bool,
}

// Waits until so many hosts are done, and loses the mains where one of them asks for it.
fn watch<'m, D, E, B, R>(
    rt: &R,
    board: &MeteredBoard<'m, B, D, E>,
    mains: &Mains,
    muster: &Muster,
    hosts: usize,
) -> Option<Loss>
where
    D: SaveDevice + Drop,
    E: Energy + Drop,
    B: BoardName + PartsName + Send,
    R: Threads + Wait + Clock + Sync,
{
    let mut idle = 0;
    for _ in rt.forever() {
        if mains.are_asked() {
            let loss = board.power_loss(rt, &Always);
            mains.tell_lost();
            return Some(loss);
        }
        if muster.have_left(hosts) {
            return None;
        }
        idle = give_way(rt, idle);
    }
    unreachable!()
}

// A channel's worker, or behind those the saver.
fn work_one<'m, D, E, B, R>(
    rt: &R,
    board: &MeteredBoard<'m, B, D, E>,
    channels: u64,
    worker: u64,
    muster: &Muster,
) -> Ended
where
    D: SaveDevice + Drop,
    E: Energy + Drop,
    B: BoardName + PartsName,
    R: Wait + Clock,
    requires { channels ≡ B.channels }
{
    if worker < channels {
        channel_worker(rt, board, worker, muster)
    } else {
        saver_worker(rt, board, channels, muster)
    }
}

// Starts a worker for each channel and a saver; false where a thread was refused.
fn start_workers<'s, 'm, S, D, E, B, R>(
    scope: &Scope<'s, S>,
    rt: &'s R,
    board: &'s MeteredBoard<'m, B, D, E>,
    channels: u64,
    muster: &'s Muster,
) -> bool
where
    D: SaveDevice + Drop + Send,
    E: Energy + Drop + Send,
    B: BoardName + PartsName + Send + Sync,
    R: Threads + Wait + Clock + Sync,
    requires { channels ≡ B.channels }
{
    for worker in 0..channels.saturating_add(1) {
        let started = scope.spawn(
            move || -> Ended
                requires { channels ≡ B.channels }
            { work_one(rt, board, channels, worker, muster) },
        );
        if started.is_err() {
            return false;
        }
    }
    true
}

// Starts a thread for each host, the last one first; false where a thread was refused, and no host begins then.
fn start_hosts<'s, 'm, S, D, E, U, B, R>(
    scope: &Scope<'s, S>,
    rt: &'s R,
    alloc: Global,
    board: &'s MeteredBoard<'m, B, D, E>,
    mut hosts: Vec<Host<B>>,
    uses: &'s U,
    mains: &'s Mains,
    muster: &'s Muster,
    room: &mut Room<B, U::Value>,
) -> bool
where
    D: SaveDevice + Drop + Send,
    E: Energy + Drop + Send,
    U: BoardUse<D, E> + Sync,
    U::Value: Send + Drop,
    B: BoardName + PartsName + Send + Sync,
    R: Threads + Wait + Clock + Sync,
    requires none { vec_len room.old.hosts ≡ 0 }
    requires unstarted { vec_len room.old.threads ≡ 0 }
    requires threads { vec_capacity room.old.threads ≡ vec_len hosts }
    requires hosts { vec_capacity room.old.hosts ≡ vec_len hosts }
    ensures all { vec_len room.new.hosts + vec_len room.new.threads ≡ vec_len hosts }
    ensures room { vec_capacity room.new.hosts ≡ vec_len hosts }
{
    let mut complete = true;
    let seats = hosts.len();
    for before in 0..seats {
        let Some(host) = hosts.pop() else {
            unreachable!();
        };
        let seat = seats - before - 1;
        let started = scope.spawn(move || -> Done<B, U::Value> {
            host_one(rt, alloc, board, uses, mains, muster, host, seat)
        });
        match started {
            Ok(thread) => room.start(thread),
            Err(left) => {
                complete = false;
                muster.end();
                let host = left.value;
                room.take(host());
            }
        }
    }
    complete
}

// Starts a worker for each channel, a saver and a thread for each host, loses the mains where a host asks for it, and joins the hosts.
// Where a thread is refused no host begins.
fn muster_all<'s, 'm, S, D, E, U, B, R>(
    scope: &Scope<'s, S>,
    rt: &'s R,
    alloc: Global,
    board: &'s MeteredBoard<'m, B, D, E>,
    channels: u64,
    hosts: Vec<Host<B>>,
    uses: &'s U,
    mains: &'s Mains,
    muster: &'s Muster,
    mut room: Room<B, U::Value>,
) -> Joined<B, U::Value>
where
    D: SaveDevice + Drop + Send,
    E: Energy + Drop + Send,
    U: BoardUse<D, E> + Sync,
    U::Value: Send + Drop,
    B: BoardName + PartsName + Send + Sync,
    R: Threads + Wait + Clock + Sync,
    requires channels { channels ≡ B.channels }
    requires none { vec_len room.hosts ≡ 0 }
    requires unstarted { vec_len room.threads ≡ 0 }
    requires threads { vec_capacity room.threads ≡ vec_len hosts }
    requires hosts { vec_capacity room.hosts ≡ vec_len hosts }
    ensures { vec_len result.hosts ≡ vec_len hosts }
{
    let working = start_workers(scope, rt, board, channels, muster);
    if !working {
        muster.end();
    }
    let seats = hosts.len();
    let hosting = start_hosts(
        scope, rt, alloc, board, hosts, uses, mains, muster, &mut room,
    );
    muster.complete();
    let loss = watch(rt, board, mains, muster, seats);
    room.join(rt);
    muster.end();
    let Room {
        threads: _,
        hosts,
        ends,
    } = room;
    Joined {
        hosts,
        ends,
        loss,
        refused: !working || !hosting,
    }
}

/// The same in a scope of threads, which all have ended behind it.
pub(crate) fn run<'m, D, E, U, B, R>(
    rt: &R,
    alloc: Global,
    board: &MeteredBoard<'m, B, D, E>,
    channels: u64,
    hosts: Vec<Host<B>>,
    uses: &U,
    room: Room<B, U::Value>,
) -> Joined<B, U::Value>
where
    D: SaveDevice + Drop + Send,
    E: Energy + Drop + Send,
    U: BoardUse<D, E> + Sync,
    U::Value: Send + Drop,
    B: BoardName + PartsName + Send + Sync,
    R: Threads + Wait + Clock + Sync,
    requires channels { channels ≡ B.channels }
    requires none { vec_len room.hosts ≡ 0 }
    requires unstarted { vec_len room.threads ≡ 0 }
    requires threads { vec_capacity room.threads ≡ vec_len hosts }
    requires hosts { vec_capacity room.hosts ≡ vec_len hosts }
    ensures { vec_len result.hosts ≡ vec_len hosts }
{
    let (muster, mains) = (Muster::new(), Mains::new());
    let (all, power) = (&muster, &mains);
    thread::scope(
        thread::scope_env(),
        rt,
        move |scope| -> Joined<B, U::Value>
            requires { (channels ≡ B.channels) × (vec_len room.hosts ≡ 0)
                × (vec_len room.threads ≡ 0) × (vec_capacity room.threads ≡ vec_len hosts)
                × (vec_capacity room.hosts ≡ vec_len hosts) }
            ensures { vec_len result.hosts ≡ vec_len hosts }
        {
            muster_all(
                scope, rt, alloc, board, channels, hosts, uses, power, all, room,
            )
        },
    )
}
