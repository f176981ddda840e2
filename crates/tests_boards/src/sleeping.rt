// How long a thread sleeps, and that all locks of its board are free meanwhile.
ghost use Rattle.std.specs.Prelude.{◌≡◌};

use crate::alone::worked;
use crate::check::{CHANNELS, same, write_of};
use crate::gates::Turns;
use board_hosts::{BoardName, Ended, Host};
use channel_locks::PartsName;
use channel_port::ChannelPort;
use energy_budget::Energy;
use notice_book::Notices;
use save_device::SaveDevice;
use split_board::{Board, channel_worker, saver_worker};
use std::io;
use std::process::Abort;
use std::sync::Wait;
use std::sync::atomic::{AtomicU64, Ordering};
use std::time::{Clock, Duration};
use worker_turns::give_way;

/// A clock that stands still. It keeps how often it was asked to sleep, and how long last.
#[derive(Drop)]
struct Watch {
    times: AtomicU64,
    micros: AtomicU64,
}

/// How often a thread slept, and how long last, in microseconds.
#[derive(Clone, Copy, Debug, PartialEq, Eq)]
struct Slept {
    times: u64,
    micros: u64,
}

impl Watch {
    // Before any sleep.
    fn new() -> Watch {
        Watch {
            times: AtomicU64::new(0),
            micros: AtomicU64::new(0),
        }
    }

    fn slept(&self) -> Slept {
        Slept {
            times: self.times.load(Ordering::SeqCst),
            micros: self.micros.load(Ordering::SeqCst),
        }
    }
}

impl Clock for Watch {
    fn monotonic(&self) -> io::Result<Duration> {
        Ok(Duration::ZERO)
    }

    fn since_1970(&self) -> io::Result<Duration> {
        Ok(Duration::ZERO)
    }

    fn sleep(&self, duration: Duration) {
        let whole = duration.as_secs().saturating_mul(1_000_000);
        let micros = whole.saturating_add(duration.subsec_micros() as u64);
        self.micros.store(micros, Ordering::SeqCst);
        self.times.fetch_add(1, Ordering::SeqCst);
    }
}

/// A runtime whose threads take all locks of a board each time that they are to sleep.
#[derive(Drop)]
struct Sleeper<'a, K, D, E, B, N, R>
where
    K: ChannelPort,
    D: SaveDevice,
    E: Energy,
    B: BoardName + PartsName,
    N: Notices,
{
    rt: &'a R,
    board: &'a Board<K, D, E, B, N>,
    watch: Watch,
}

impl<K, D, E, B, N, R> Wait for Sleeper<'_, K, D, E, B, N, R>
where
    K: ChannelPort,
    D: SaveDevice,
    E: Energy,
    B: BoardName + PartsName,
    N: Notices,
    R: Wait,
{}

impl<K, D, E, B, N, R> Clock for Sleeper<'_, K, D, E, B, N, R>
where
    K: ChannelPort + Drop,
    D: SaveDevice + Drop,
    E: Energy + Drop,
    B: BoardName + PartsName,
    N: Notices,
    R: Wait,
{
    fn monotonic(&self) -> io::Result<Duration> {
        self.watch.monotonic()
    }

    fn since_1970(&self) -> io::Result<Duration> {
        self.watch.since_1970()
    }

    // Where the thread that sleeps has a lock this call waits for ever.
    fn sleep(&self, duration: Duration) {
        let _level = self.board.sense(self.rt);
        self.watch.sleep(duration);
    }
}

/// A channel's worker sleeps behind its 17th idle turn in a row, a saver a microsecond behind a begin and behind each step, and three
/// milliseconds behind the last one. All locks are free then.
pub(crate) fn watch_sleeps<K, D, E, B, N, R>(
    rt: &R,
    board: &Board<K, D, E, B, N>,
    host: &mut Host<B>,
)
where
    K: ChannelPort + Drop,
    D: SaveDevice + Drop,
    E: Energy + Drop,
    B: BoardName + PartsName,
    N: Notices,
    R: Wait + Clock + Abort,
    requires { CHANNELS ≡ B.channels }
{
    let watch = Watch::new();
    let sleeper = Sleeper { rt, board, watch };
    let idle = Turns {
        worker: 0,
        most: 18,
    };
    same(
        rt,
        channel_worker(&sleeper, board, 0, &idle),
        Ended::Stopped,
    );
    same(rt, sleeper.watch.slept(), sleeps(2, 2));
    same(rt, board.write(rt, host, write_of(0, 11)).is_ok(), true);
    same(rt, worked(rt, board, 2), Ended::Stopped);
    let worker = CHANNELS;
    let most = Turns { worker, most: 8 };
    same(
        rt,
        saver_worker(&sleeper, board, CHANNELS, &most),
        Ended::Stopped,
    );
    same(rt, sleeper.watch.slept(), sleeps(10, 1));
    let last = Turns { worker, most: 1 };
    same(
        rt,
        saver_worker(&sleeper, board, CHANNELS, &last),
        Ended::Stopped,
    );
    same(rt, sleeper.watch.slept(), sleeps(11, 3_000));
}

// What a clock was asked.
fn sleeps(times: u64, micros: u64) -> Slept {
    Slept { times, micros }
}

// A thread gives way behind so many idle turns and one more, and the clock was asked this.
fn gives_way<R: Abort>(rt: &R, watch: &Watch, idle: u64, wanted: Slept) {
    same(rt, give_way(watch, idle), idle.saturating_add(1));
    same(rt, watch.slept(), wanted);
}

#[test]
fn a_thread_sleeps_three_milliseconds_at_most(rt: HostRuntime) {
    let watch = Watch::new();
    gives_way(&rt, &watch, 0, sleeps(0, 0));
    gives_way(&rt, &watch, 15, sleeps(0, 0));
    gives_way(&rt, &watch, 16, sleeps(1, 1));
    gives_way(&rt, &watch, 17, sleeps(2, 2));
    gives_way(&rt, &watch, 3_014, sleeps(3, 2_999));
    gives_way(&rt, &watch, 3_015, sleeps(4, 3_000));
    gives_way(&rt, &watch, 3_016, sleeps(5, 3_000));
    gives_way(&rt, &watch, u64::MAX, sleeps(6, 3_000));
}
