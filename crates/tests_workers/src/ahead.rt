// The gate is asked before a channel is: by a worker at its turn, and before a drain. Ports of the tests' own tell.
ghost use Rattle.std.specs.Prelude.{◌≡◌, ◌<◌, [], None, length};
ghost use Rattle.ddr4_timing.specs.Limits.{lines_of};
ghost use Rattle.channel_log.specs.Seats.{one_log};
ghost use Rattle.channel_locks.specs.PortMakes.{make_of};
ghost use Rattle.channel_port.specs.Waits.{nothing};
ghost use Rattle.channel_port.specs.declared.stage.Stage.TheVariants.{OnMains};
ghost use Rattle.channel_set.specs.Carrying.{CarriesAll};
ghost use Rattle.channel_set.specs.Set.{AreAt, view_of};

use crate::check::{AMPLE, same, tiny};
use crate::noted::{Ahead, Asked, NotedPort, Seen};
use channel_locks::{ChannelTurn, LockedChannel, Part, PartsName};
use channel_log::{ChannelLogs, ChannelSeat};
use channel_port::ChannelPort;
use channel_set::{ChannelSet, SetApart};
use ddr4_port::{Ddr4Port, channels_with_memory};
use energy_budget::{Costs, Meter};
use interleave_map::cells::line_count;
use interleave_map::{Interleaving, ReadyMap};
use line_memory::Line;
use nv_profile::Profile;
use std::alloc::Global;
use std::marker::Brand;
use std::process::Abort;
use std::thread::Threads;

/// How many writes may wait in a channel, and how many of its reads may be open.
const PLACES: usize = 8;

// The map `lines` of a profile.
fn map_of(profile: &Profile) -> ReadyMap
    ensures { result.checked.geometry ≡ profile.now.checked.geometry }
{
    ReadyMap {
        interleaving: Interleaving::Lines,
        checked: profile.checked,
    }
}

// As many zero lines as a profile has.
fn zeros<R: Abort>(rt: &R, alloc: Global, profile: &Profile) -> Vec<Line>
    ensures { length result.items ≡ lines_of profile.now.checked.geometry }
{
    let lines = line_count(&profile.checked) as usize;
    Vec::from_elem(alloc, [0; 64], lines).expect(rt, "memory")
}

// The channels of a profile with this memory, on which nothing waits.
fn unused<'m, R: Abort>(
    rt: &R,
    alloc: Global,
    map: &'m ReadyMap,
    profile: &Profile,
    memory: &[Line],
) -> ChannelSet<Ddr4Port<'m, ReadyMap>>
    requires geometry { map.now.checked.geometry ≡ profile.now.checked.geometry }
    requires lines { length memory.now ≡ lines_of profile.now.checked.geometry }
    ensures waits { (view_of ⟦<Ddr4Port<'m, ReadyMap> as ChannelPort>⟧ result).waits ≡ nothing }
    ensures hold { (view_of ⟦<Ddr4Port<'m, ReadyMap> as ChannelPort>⟧ result).hold ≡ None }
    ensures mains { AreAt ⟦<Ddr4Port<'m, ReadyMap> as ChannelPort>⟧ OnMains result }
    ensures carries { CarriesAll ⟦<Ddr4Port<'m, ReadyMap> as ChannelPort>⟧ result memory.now 0 [] }
{
    let costs = Costs::of(&profile.checked, &profile.costs);
    let Ok(channels) = channels_with_memory(
        alloc,
        map,
        &profile.checked,
        memory,
        PLACES,
        PLACES,
        false,
        costs,
    ) else {
        panic!(*rt; "memory");
    };
    channels
}

// The port of the first channel, on which nothing waits.
fn first_port<K: ChannelPort + Drop, R: Abort>(
    rt: &R,
    channels: ChannelSet<K>,
    memory: &[Line],
) -> K
    requires waits { (view_of K.ChannelPort channels).waits ≡ nothing }
    requires hold { (view_of K.ChannelPort channels).hold ≡ None }
    requires mains { AreAt K.ChannelPort OnMains channels }
    requires carries { CarriesAll K.ChannelPort channels memory.now 0 [] }
    ensures number { (K.view result).number ≡ 0 }
    ensures waits { (K.view result).waits ≡ nothing }
    ensures hold { (K.view result).hold ≡ None }
    ensures mains { (K.view result).stage ≡ OnMains }
    ensures carries { K.carries result memory.now [] }
{
    let SetApart { ports, .. } = channels.take_apart();
    let mut ports = ports.into_iter();
    let Some(port) = ports.next() else {
        panic!(*rt; "a channel");
    };
    port
}

// A port on which nothing waits, as a channel of a board, takes the turn of a worker.
fn take_turn<'a, K: ChannelPort + Drop, B: PartsName, R: Abort>(
    rt: &R,
    port: NotedPort<'a, K>,
    memory: &[Line],
    seat: ChannelSeat,
    asked: &Asked,
)
    requires seat { seat ≡ one_log B.logs 0 [] }
    requires some { 0 < B.ports }
    requires made { make_of (K.view port) ≡ B.make }
    requires base { memory.now ≡ B.base }
    requires number { (K.view port).number ≡ 0 }
    requires waits { (K.view port).waits ≡ nothing }
    requires hold { (K.view port).hold ≡ None }
    requires mains { (K.view port).stage ≡ OnMains }
    requires carries { K.carries port memory.now [] }
{
    let part = Part::of(0, port, false);
    let mut channel = LockedChannel::<NotedPort<'a, K>, B>::new(0, Some(part), seat);
    let gate = Ahead::of(asked);
    let idle = ChannelTurn {
        done: None,
        ended: false,
    };
    same(rt, channel.take_turn(&gate), idle);
    let seen = Seen {
        questions: 4,
        late: false,
    };
    same(rt, (gate.seen(), asked.times(0)), (seen, 1));
}

// Tries that on the small profile.
fn try_turn<R: Abort>(rt: &R, alloc: Global) {
    let asked = Asked::new();
    let profile = tiny(rt, alloc);
    let map = map_of(&profile);
    let memory = zeros(rt, alloc, &profile);
    let channels = unused(rt, alloc, &map, &profile, &memory);
    let port = NotedPort {
        port: first_port(rt, channels, &memory),
        channel: 0,
        asked: &asked,
    };
    let (logs, mut known) = ChannelLogs::new(alloc).expect(rt, "memory");
    let seat = known.deal(&logs);
    take_turn::<_, Brand, R>(rt, port, &memory, seat, &asked);
}

// The same ports, which note when they are asked.
fn noted_ports<'a, K: ChannelPort + Drop, R: Abort>(
    rt: &R,
    alloc: Global,
    ports: Vec<K>,
    asked: &'a Asked,
) -> Vec<NotedPort<'a, K>>
    ensures { result.items ≡ ports.items }
{
    let mut noted = Vec::with_capacity(alloc, ports.len()).expect(rt, "memory");
    for port in ports {
        let channel = noted.len() as u64;
        let port = NotedPort {
            port,
            channel,
            asked,
        };
        noted.push(port).expect(rt, "memory");
    }
    noted
}

// The same channels, with those ports.
fn noted<'a, K: ChannelPort + Drop, R: Abort>(
    rt: &R,
    alloc: Global,
    channels: ChannelSet<K>,
    asked: &'a Asked,
) -> ChannelSet<NotedPort<'a, K>>
    requires { AreAt K.ChannelPort OnMains channels }
    ensures { AreAt ⟦<NotedPort<'a, K> as ChannelPort>⟧ OnMains result }
{
    let SetApart {
        ports,
        terms,
        costs,
    } = channels.take_apart();
    ChannelSet::new(noted_ports(rt, alloc, ports, asked), terms, costs)
}

// Loses mains, and drains two channels at once.
fn drain<'a, K: ChannelPort + Drop + Send, R: Abort + Threads + Sync>(
    rt: &R,
    mut channels: ChannelSet<NotedPort<'a, K>>,
    asked: &Asked,
)
    requires { AreAt ⟦<NotedPort<'a, K> as ChannelPort>⟧ OnMains channels }
{
    let gate = Ahead::of(asked);
    channels.lose_mains();
    let drained = channels.drain_at_once(rt, &mut Meter::with(AMPLE, 1), &gate);
    same(rt, drained.is_ok(), true);
    let seen = Seen {
        questions: 8,
        late: false,
    };
    let times = (asked.times(0), asked.times(1));
    same(rt, (gate.seen(), times), (seen, (1, 1)));
}

// Tries that on the small profile.
fn try_drain<R: Abort + Threads + Sync>(rt: &R, alloc: Global) {
    let asked = Asked::new();
    let profile = tiny(rt, alloc);
    let map = map_of(&profile);
    let memory = zeros(rt, alloc, &profile);
    let channels = unused(rt, alloc, &map, &profile, &memory);
    drain(rt, noted(rt, alloc, channels, &asked), &asked);
}

#[test]
fn a_worker_asks_its_gate_before_its_channel(rt: HostRuntime) {
    try_turn(&rt, rt.alloc());
}

#[test]
fn a_drain_at_once_waits_at_its_gate(rt: HostRuntime) {
    try_drain(&rt, rt.alloc());
}
