// The ports of a memory.
ghost use Rattle.std.specs.Prelude.{◌≡◌, ◌≤◌, ℕ, [], None, IfOk, length};
ghost use Rattle.line_memory.specs.Memory.{zero_lines};
ghost use Rattle.ddr4_timing.specs.Limits.{lines_of};
ghost use Rattle.interleave_map.specs.Cells.{cells_of};
ghost use Rattle.energy_budget.specs.Costs.{AreReckonedFor};
ghost use Rattle.chan_core.specs.Calls.{loaded_at};
ghost use Rattle.chan_core.specs.Mapped.{IsPlaceOn};
ghost use Rattle.chan_core.specs.State.{new_channel};
ghost use Rattle.channel_port.specs.declared.stage.Stage.TheVariants.{OnMains};
ghost use Rattle.channel_port.specs.Waits.{nothing};
ghost use Rattle.channel_set.specs.Set.{AreAt, shape_of, view_of};
ghost use Rattle.channel_set.specs.Carrying.{CarriesAll};
ghost use Rattle.channel_set.specs.Issuing.{HaveIssuedNone};
ghost use Rattle.ddr4_port.specs.Memory.{AreUnused, IsUnused, shape_over};

use crate::Ddr4Port;
use chan_core::Channel;
use channel_port::{ChannelPort, Stage};
use channel_set::{ChannelSet, PortTerms};
use ddr4_timing::place::Place;
use ddr4_timing::timing::Checked;
use energy_budget::Costs;
use interleave_map::line_map::LineMap;
use line_memory::Line;
use std::alloc::{AllocError, Global};

// The channel of a number, of zero lines, before any command, which keeps its commands if it is to.
fn unused_channel(
    alloc: Global,
    checked: &Checked,
    number: u64,
    depth: usize,
    reads: usize,
    keeps_commands: bool,
) -> Result<Channel, AllocError>
    requires depth { (1 ≤ depth) × (depth ≤ 64) }
    requires reads { reads ≤ 64 }
    ensures { IfOk result (λ new. new ≡ new_channel checked.now number
        (zero_lines (cells_of checked.now.geometry)) depth reads) }
{
    let mut channel = Channel::new(alloc, checked, number, depth, reads)?;
    if keeps_commands {
        channel.keep_commands(alloc);
    }
    Ok(channel)
}

impl<'m, M: LineMap> Ddr4Port<'m, M> {
    // A port of that channel.
    fn unused(
        alloc: Global,
        map: &'m M,
        checked: &Checked,
        number: u64,
        depth: usize,
        reads: usize,
        keeps_commands: bool,
    ) -> Result<Self, AllocError>
        requires lawful { M.is_lawful map.now }
        requires geometry { M.geometry_of map.now ≡ checked.now.geometry }
        requires depth { (1 ≤ depth) × (depth ≤ 64) }
        requires reads { reads ≤ 64 }
        ensures { IfOk result (IsUnused (M.place_of map.now) checked.now depth reads number) }
    {
        map.interleaves();
        let channel = unused_channel(alloc, checked, number, depth, reads, keeps_commands)?;
        channel.always();
        Ok(Ddr4Port {
            channel: Box::new(alloc, channel)?,
            map,
            stage: Stage::OnMains,
        })
    }

    // Sets the line at a place of this channel, on which nothing waits.
    fn load(&mut self, place: Place, bytes: Line)
        requires place { IsPlaceOn self.old.channel place }
        requires quiet { self.old.channel.requests ≡ [] }
        ensures { self.new
            ≡ record self.old { channel = loaded_at self.old.channel place bytes } }
    {
        self.channel.load_at(place, bytes);
        self.channel.always();
    }
}

// The channels of a profile, each of zero lines, before any command.
fn unused_ports<'m, M: LineMap>(
    alloc: Global,
    map: &'m M,
    checked: &Checked,
    depth: usize,
    reads: usize,
    keeps_commands: bool,
) -> Result<Vec<Ddr4Port<'m, M>>, AllocError>
    requires lawful { M.is_lawful map.now }
    requires geometry { M.geometry_of map.now ≡ checked.now.geometry }
    requires depth { (1 ≤ depth) × (depth ≤ 64) }
    requires reads { reads ≤ 64 }
    ensures { IfOk result (λ ports.
        AreUnused (M.place_of map.now) checked.now depth reads ports.items) }
{
    let mut ports = Vec::with_capacity(alloc, checked.geometry.channels as usize)?;
    for number in 0..checked.geometry.channels {
        let port = Ddr4Port::unused(alloc, map, checked, number, depth, reads, keeps_commands)?;
        ports.push_reserved(port);
    }
    Ok(ports)
}

/// The channels of a profile over a lawful map of its geometry, whose arrays hold this memory. Nothing waits on them, no
/// write is held, and none has issued a command. `depth` is how many writes may wait in a channel, and `reads` how many of
/// its reads may be open; each keeps its commands if it is to. It refuses only where there is no memory.
pub fn channels_with_memory<'m, M: LineMap>(
    alloc: Global,
    map: &'m M,
    checked: &Checked,
    memory: &[Line],
    depth: usize,
    reads: usize,
    keeps_commands: bool,
    costs: Costs,
) -> Result<ChannelSet<Ddr4Port<'m, M>>, AllocError>
    requires lawful { M.is_lawful map.now }
    requires geometry { M.geometry_of map.now ≡ checked.now.geometry }
    requires lines { length memory.now ≡ lines_of checked.now.geometry }
    requires depth { (1 ≤ depth) × (depth ≤ 64) }
    requires reads { reads ≤ 64 }
    requires costs { AreReckonedFor checked.now costs }
    ensures shape { IfOk result (λ set. shape_of ⟦<Ddr4Port<'m, M> as ChannelPort>⟧ set
        ≡ shape_over (M.place_of map.now) checked.now depth reads costs) }
    ensures waits { IfOk result (λ set.
        (view_of ⟦<Ddr4Port<'m, M> as ChannelPort>⟧ set).waits ≡ nothing) }
    ensures hold { IfOk result (λ set.
        (view_of ⟦<Ddr4Port<'m, M> as ChannelPort>⟧ set).hold ≡ None) }
    ensures mains { IfOk result (λ set.
        AreAt ⟦<Ddr4Port<'m, M> as ChannelPort>⟧ OnMains set) }
    ensures checked { IfOk result (λ set. set.terms.checked ≡ checked.now) }
    ensures issued { IfOk result (HaveIssuedNone ⟦<Ddr4Port<'m, M> as ChannelPort>⟧) }
    ensures carries { IfOk result (λ set. (start : ℕ)
        → CarriesAll ⟦<Ddr4Port<'m, M> as ChannelPort>⟧ set memory.now start []) }
{
    map.interleaves();
    let mut ports = unused_ports(alloc, map, checked, depth, reads, keeps_commands)?;
    for (line, bytes) in memory.iter().enumerate() {
        let place = map.place(line as u64);
        ports[place.channel as usize].load(place, *bytes);
    }
    let terms = PortTerms {
        checked: *checked,
        lines: memory.len() as u64,
        depth: depth as u64,
        most_reads: reads as u64,
        hold: None,
    };
    Ok(ChannelSet::new(ports, terms, costs))
}
