// The lanes of a picture, from above to below.
ghost use Rattle.std.specs.Prelude.{◌≡◌, ◌⊎◌, All, Contains, Some, IfOk, OnOk, count_by, slice_get};
ghost use Rattle.schedule_drawing.specs.Drawing.{AreShown, shape_lane};
ghost use Rattle.schedule_drawing.specs.Layouts.{AreNeeded, IsShownFor, is_kind_of, is_of_rank};
ghost use Rattle.schedule_drawing.specs.declared.lanes.Lane.{Lane};

use crate::lanes::{Lane, LaneKind};
use crate::shapes::Shape;
use std::alloc::{AllocError, Global};

/// The lanes of a picture, from above to below: by channel, then by rank, each rank before its banks; a channel's bus last.
#[derive(Drop)]
pub struct Layout {
    pub lanes: Vec<Lane>,
}

// The numbers by which lanes are ordered.
fn key(lane: &Lane) -> (u64, u64, u64, u64, u64) {
    match lane.kind {
        LaneKind::Rank { rank } => (lane.channel, rank, 0, 0, 0),
        LaneKind::Bank { at } => (lane.channel, at.rank, 1, at.group, at.bank),
        LaneKind::Bus => (lane.channel, u64::MAX, 0, 0, 0),
    }
}

// Puts a lane behind the others, unless it is one of them.
fn add(lanes: &mut Vec<Lane>, lane: Lane) -> Result<(), AllocError>
    ensures there { OnOk result (Contains lanes.new.items lane) }
    ensures kept { (other : Lane) → Contains lanes.old.items other →
        Contains lanes.new.items other }
    ensures only { (other : Lane) → Contains lanes.new.items other →
        Contains lanes.old.items other ⊎ (lane ≡ other) }
{
    if lanes.contains(&lane) {
        return Ok(());
    }
    lanes.push(lane)?;
    Ok(())
}

// Puts the lanes of a shape behind the others: its own, its rank's and its channel's bus.
fn add_all(lanes: &mut Vec<Lane>, shape: &Shape) -> Result<(), AllocError>
    ensures there { OnOk result (Contains lanes.new.items (shape_lane shape.now)) }
    ensures kept { (other : Lane) → Contains lanes.old.items other →
        Contains lanes.new.items other }
    ensures only { (other : Lane) → Contains lanes.new.items other →
        Contains lanes.old.items other ⊎ IsShownFor (shape_lane shape.now) other }
{
    let lane = shape.lane();
    add(lanes, lane)?;
    add(lanes, Lane::of_bus(lane.channel))?;
    match lane.kind {
        LaneKind::Bank { at } => {
            add(lanes, Lane::of_rank(lane.channel, at.rank))?;
            Ok(())
        }
        _ => Ok(()),
    }
}

impl Layout {
    /// Of the lanes that shapes stand in, with the ranks of their banks and the buses of their channels.
    pub fn of(alloc: Global, shapes: &[Shape]) -> Result<Layout, AllocError>
        ensures shown { IfOk result (λ layout. AreShown layout.lanes.items shapes.now) }
        ensures needed { IfOk result (λ layout. AreNeeded layout.lanes.items shapes.now) }
    {
        let mut lanes = Vec::new(alloc);
        for shape in shapes {
            add_all(&mut lanes, shape)?;
        }
        lanes.sort_by_key(|lane: &Lane| key(lane))?;
        Ok(Layout { lanes })
    }

    /// The place of a lane, from above; 0 where it isn't there.
    pub fn place(&self, lane: &Lane) -> usize
        ensures { Contains self.now.lanes.items lane.now →
            slice_get self.now.lanes.items result ≡ Some lane.now }
    {
        for (place, other) in self.lanes.iter().enumerate() {
            if other == lane {
                return place;
            }
        }
        0
    }

    /// How many lanes a rank has with those of its banks.
    pub fn rank_lanes(&self, channel: u64, rank: u64) -> usize
        ensures { result ≡ count_by (is_of_rank channel rank) self.now.lanes.items }
    {
        self.lanes
            .iter()
            .filter(|lane| lane.channel == channel && is_kind_of(rank, &lane.kind))
            .count()
    }
}

// Is it the lane of a rank, or of a bank of it?
fn is_kind_of(rank: u64, kind: &LaneKind) -> bool
    ensures { result ≡ is_kind_of rank kind.now }
{
    match kind {
        LaneKind::Rank { rank: other } => *other == rank,
        LaneKind::Bank { at } => at.rank == rank,
        LaneKind::Bus => false,
    }
}
