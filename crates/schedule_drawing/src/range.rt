// A range of clocks.
ghost use Rattle.std.specs.Prelude.{◌≡◌, filter_map, IfOk};
ghost use Rattle.schedule_drawing.specs.Range.{cut_to, part_within};

use crate::shapes::Shape;
use std::alloc::{AllocError, Global};

// A shape as far as it lies from one clock to another. A row that goes on behind them isn't closed there.
fn cut_to(first: u64, last: u64, shape: Shape) -> Shape
    ensures { result ≡ cut_to first last shape }
{
    match shape {
        Shape::Mark { .. } => shape,
        Shape::Row {
            lane,
            row,
            from,
            to,
            is_closed,
        } => Shape::Row {
            lane,
            row,
            from: from.max(first),
            to: to.min(last),
            is_closed: is_closed && to <= last,
        },
        Shape::Data {
            lane,
            from,
            to,
            command,
        } => Shape::Data {
            lane,
            from: from.max(first),
            to: to.min(last),
            command,
        },
        Shape::Refresh { lane, from, to } => Shape::Refresh {
            lane,
            from: from.max(first),
            to: to.min(last),
        },
    }
}

// What of a shape lies from one clock to another, where something does. In a range that ends before it begins nothing does.
fn part_within(first: u64, last: u64, shape: Shape) -> Option<Shape>
    ensures { result ≡ part_within first last shape }
{
    if shape.to() < first || last < shape.from() || last < first {
        None
    } else {
        Some(cut_to(first, last, shape))
    }
}

/// The parts of shapes that lie from one clock to another.
pub(crate) fn parts_of(
    alloc: Global,
    first: u64,
    last: u64,
    shapes: &[Shape],
) -> Result<Vec<Shape>, AllocError>
    ensures { IfOk result (λ parts. parts.items
        ≡ filter_map (part_within first last) shapes.now) }
{
    let mut parts = Vec::new(alloc);
    let mut left = shapes;
    while let [shape, behind @ ..] = left {
        if let Some(part) = part_within(first, last, *shape) {
            parts.push(part)?;
        }
        left = behind;
    }
    Ok(parts)
}
