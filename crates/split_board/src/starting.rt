// How a board begins.
ghost use Rattle.std.specs.Prelude.{◌≡◌, ◌+◌, ◌≤◌, [], vec_capacity, vec_len, All, IfOk, IfErr};
ghost use Rattle.std.specs.Arc.{arc_value};
ghost use Rattle.board_hosts.specs.SeenMarks.{AllHaveSeen, seen_marks};
ghost use Rattle.channel_log.specs.Seats.{all_logs};
ghost use Rattle.channel_set.specs.Set.{shape_of};
ghost use Rattle.channel_locks.specs.Lines.{channels_of_lines};
ghost use Rattle.board_hosts.specs.Client.{client};
ghost use Rattle.board_hosts.specs.Kept.{IsRecordKept};
ghost use Rattle.board_desk.specs.Closing.{HaveModule};
ghost use Rattle.split_board.specs.Lines.{AreLinesOfBoard};
ghost use Rattle.split_board.specs.Starting.{IsBoardOf, LiesBehindLocks, make_with};

use crate::board::Board;
use crate::dealing::begin_channels;
use crate::tables::BoardTables;
use board_desk::{BoardPort, Desk};
use board_hosts::{
    AcceptedCount, BoardName, BoardSeat, Host, HostSeat, MarkBoard, NotStarted, Opening,
    RecordedModule, publish, seated,
};
use channel_locks::{LineChannels, LockedChannel, PartsName, UnlockedChannels};
use channel_log::{ChannelLogs, ChannelSeat, FrontSeat};
use channel_port::ChannelPort;
use channel_set::ChannelSet;
use energy_budget::Energy;
use notice_book::Notices;
use save_device::SaveDevice;
use split_module::SplitModule;
use std::alloc::{AllocError, Global};
use std::sync::ledger::Share;
use std::sync::{Arc, Mutex};

/// A board that has begun, and its hosts.
#[derive(Drop)]
pub struct Started<K: ChannelPort, D: SaveDevice, E: Energy, B: BoardName + PartsName, N: Notices> {
    pub board: Board<K, D, E, B, N>,
    pub hosts: Vec<Host<B>>,
}

// What takes memory of a board: the words and the hosts, the table of the lines' channels, and room for ports, seats, channels and locks.
#[derive(Drop)]
struct Prepared<K: ChannelPort, B: BoardName + PartsName> {
    marks: Arc<MarkBoard, Global>,
    hosts: Vec<Host<B>>,
    lines: LineChannels,
    room: Vec<BoardPort<K, B>>,
    seats: Vec<ChannelSeat>,
    channels: Vec<LockedChannel<K, B>>,
    locks: Vec<Mutex<LockedChannel<K, B>>>,
    ghost board: { arc_value marks ≡ B.board },
    ghost no_seat: { seats.items ≡ [] },
    ghost ports: { 8 ≤ vec_capacity room },
    ghost eight: { 8 ≤ vec_capacity seats },
    ghost no_channel: { channels.items ≡ [] },
    ghost dealt: { 8 ≤ vec_capacity channels },
    ghost no_lock: { vec_len locks ≡ 0 },
    ghost spacious: { 8 ≤ vec_capacity locks },
}

// What moves the words, counts the hosts' writes and knows the channels' logs.
#[derive(Drop)]
struct Words<B: BoardName + PartsName> {
    seat: BoardSeat,
    tally: AcceptedCount<B>,
    logs: ChannelLogs,
    known: FrontSeat,
}

// What goes behind the locks of a board, with its hosts, the table of the lines' channels, and room for the locks.
#[derive(Drop)]
struct LaidOut<K: ChannelPort, D: SaveDevice, E: Energy, B: BoardName + PartsName> {
    desk: Desk<K, D, E, B>,
    channels: UnlockedChannels<K, B>,
    lines: LineChannels,
    hosts: Vec<Host<B>>,
    locks: Vec<Mutex<LockedChannel<K, B>>>,
    ghost no_lock: { vec_len locks ≡ 0 },
    ghost spacious: { 8 ≤ vec_capacity locks },
}

// Makes the hosts, the table of the lines' channels, and room for ports, seats, channels and locks.
fn prepare<K: ChannelPort + Drop, B: BoardName + PartsName>(
    alloc: Global,
    marks: MarkBoard,
    seats: Vec<HostSeat>,
    whole: &mut Share<B>,
    mark: u64,
    set: &ChannelSet<K>,
) -> Result<Prepared<K, B>, AllocError>
    requires board { marks ≡ B.board }
    requires seats { AllHaveSeen (seen_marks B.board mark mark) seats.items }
    requires parts { whole.old.parts ≡ vec_len seats }
    requires amount { whole.old.amount ≡ 0 }
    ensures number { IfOk result (λ made. vec_len made.hosts ≡ vec_len seats) }
    ensures hosts { IfOk result (λ made.
        All (λ h. h ≡ client mark mark 0 []) made.hosts.items) }
    ensures rest { IfOk result (λ _. whole.new.parts ≡ 0) }
    ensures none { IfOk result (λ _. whole.new.amount ≡ 0) }
    ensures lines { IfOk result (λ made.
        made.lines ≡ channels_of_lines (shape_of K.ChannelPort set.now)) }
{
    let marks = Arc::new(alloc, marks)?;
    let hosts = seated(alloc, &marks, seats, whole, mark)?;
    let lines = LineChannels::of(alloc, set)?;
    let room = Vec::with_capacity(alloc, 8)?;
    let seats = Vec::with_capacity(alloc, 8)?;
    let channels = Vec::with_capacity(alloc, 8)?;
    let locks = Vec::with_capacity(alloc, 8)?;
    Ok(Prepared {
        marks,
        hosts,
        lines,
        room,
        seats,
        channels,
        locks,
    })
}

// Takes a module with its record apart to what goes behind the locks, once all memory was taken. Nothing becomes of it.
fn lay_out<K, D, E, B>(
    made: Prepared<K, B>,
    words: Words<B>,
    recorded: RecordedModule<K, D, E>,
) -> LaidOut<K, D, E, B>
where
    K: ChannelPort + Drop,
    D: SaveDevice,
    E: Energy,
    B: BoardName + PartsName,
    requires lines { made.lines ≡ channels_of_lines
        (shape_of K.ChannelPort recorded.running.channels) }
    requires shown { words.seat ≡ seen_marks B.board
        recorded.running.front.accepted recorded.running.front.persisted }
    requires counted { words.tally.book.total ≡ 0 }
    requires logs { words.logs ≡ B.logs }
    requires known { words.known ≡ all_logs B.logs [] }
    requires named { IsBoardOf K.ChannelPort D.SaveDevice E.Energy B.BoardName.own
        B.PartsName.own recorded }
    ensures hosts { result.hosts ≡ made.hosts }
    ensures lines { AreLinesOfBoard B.BoardName.own B.PartsName.own result.lines }
    ensures have { HaveModule K.ChannelPort D.SaveDevice E.Energy B.BoardName.own B.PartsName.own
        K.ChannelPort result.desk result.channels recorded }
{
    let mut known = words.known;
    let SplitModule {
        front: split,
        ports,
        terms,
    } = SplitModule::of(recorded.running);
    let (lines, history) = (made.lines, recorded.history);
    let channels = begin_channels(
        &words.logs,
        &mut known,
        made.seats,
        &lines,
        &history,
        &split,
        &terms,
        ports,
        made.channels,
    );
    let desk = Desk {
        split,
        terms,
        room: made.room,
        device: recorded.device,
        energy: recorded.energy,
        history,
        marks: made.marks,
        seat: words.seat,
        tally: words.tally,
        logs: words.logs,
        known,
    };
    LaidOut {
        desk,
        channels,
        lines,
        hosts: made.hosts,
        locks: made.locks,
    }
}

/// Puts a module with its record and a book of notices behind nine locks, with as many hosts as the opening has seats. The record
/// has all writes of the life so far: each is looked at once, and none is copied. The board's name is picked from the tables and
/// the module: a caller is generic over it. What goes behind the locks is the module as it was given. It refuses only where there
/// is no memory, and then gives module and book back.
pub fn start<K, D, E, B, N>(
    alloc: Global,
    tables: BoardTables,
    recorded: RecordedModule<K, D, E>,
    notices: N,
) -> Result<Started<K, D, E, B, N>, NotStarted<K, D, E, N>>
where
    K: ChannelPort + Drop,
    D: SaveDevice,
    E: Energy,
    B: BoardName + PartsName,
    N: Notices,
    requires name { tables.opening.name ≡ B.name }
    requires parts { tables.opening.parts ≡ B.parts }
    requires board { tables.opening.board ≡ B.board }
    requires mark { tables.opening.mark ≤ recorded.running.front.persisted }
    requires logs { tables.logs ≡ B.logs }
    requires before { recorded.running.front.accepted
        ≡ recorded.running.front.terms.start + B.before }
    requires channels { (shape_of K.ChannelPort recorded.running.channels).channels ≡ B.channels }
    requires ports { (shape_of K.ChannelPort recorded.running.channels).channels ≡ B.ports }
    requires made { make_with K.ChannelPort recorded.running.channels.terms
        recorded.running.channels.ports.items ≡ B.make }
    requires base { recorded.history.base ≡ B.base }
    requires whole { recorded.history.start ≡ recorded.running.front.terms.start }
    requires kept { IsRecordKept K.ChannelPort D.SaveDevice E.Energy recorded }
    ensures number { IfOk result (λ s. vec_len s.hosts ≡ B.parts) }
    ensures hosts { IfOk result (λ s.
        All (λ h. h ≡ client tables.opening.mark tables.opening.mark 0 []) s.hosts.items) }
    ensures lies { IfOk result (λ _. LiesBehindLocks K.ChannelPort D.SaveDevice E.Energy
        B.BoardName.own B.PartsName.own K.ChannelPort recorded) }
    ensures recorded { IfErr result (λ left. left.recorded ≡ recorded) }
    ensures notices { IfErr result (λ left. left.notices ≡ notices) }
{
    let BoardTables {
        opening,
        logs,
        known,
    } = tables;
    let Opening {
        blank,
        marks,
        mut seat,
        seats,
        mark,
    } = opening;
    let (book, mut rest) = blank.open::<B>();
    let running = &recorded.running;
    let Ok(made) = prepare(alloc, marks, seats, &mut rest, mark, running.channels()) else {
        return Err(NotStarted {
            why: AllocError,
            recorded,
            notices,
        });
    };
    publish(&made.marks, &mut seat, running.accepted(), running.mark());
    let words = Words {
        seat,
        tally: AcceptedCount { book, rest },
        logs,
        known,
    };
    let LaidOut {
        desk,
        channels,
        lines,
        hosts,
        locks,
    } = lay_out(made, words, recorded);
    let board = Board::new(desk, channels.lock(locks), lines, notices);
    Ok(Started { board, hosts })
}
