// A schedule as SVG.
use crate::axis::Axis;
use crate::fault::DrawFault;
use crate::flaws::Flaw;
use crate::lanes::{Lane, LaneKind};
use crate::layout::Layout;
use crate::placing::Placing;
use crate::schedule::{EventKind, Schedule};
use crate::shapes::Shape;
use command_trace::name_of;
use ddr4_timing::command::Command;
use std::alloc::Global;
use std::io::Write;

/// Pixels of a lane, of the names to the left, and of the axis above.
const LANE: u64 = 26;

const LEFT: u64 = 150;

const TOP: u64 = 30;

/// Pixels of a line of events, and behind the last clock.
const EVENT: u64 = 14;

const MARGIN: u64 = 60;

/// Pixels that a clock's number takes on the axis.
const NUMBER: u64 = 44;

/// Pixels of a word of the key, and from the last line of events down to it.
const KEY_WIDTH: u64 = 110;

const KEY_HEIGHT: u64 = 24;

/// The key: of each kind of shape its class and what it is.
const KEY: [(&str, &str); 6] = [
    ("row", "open row"),
    ("open", "row left open"),
    ("read", "data read"),
    ("write", "data written"),
    ("refresh", "refresh"),
    ("flaw", "breaks a rule"),
];

/// The fills differ in how light they are, so that they read in grey.
const STYLE: &str = "text { font: 10px sans-serif; fill: #111 }
.lane { stroke: #ccc }
.rank { fill: #eee }
.row { fill: #cfe3f5; stroke: #5b8db8 }
.open { fill: #cfe3f5; stroke: #5b8db8; stroke-dasharray: 4 3 }
.read { fill: #f4e9a8; stroke: #333 }
.write { fill: #c9803a; stroke: #333 }
.refresh { fill: #555; fill-opacity: 0.3; stroke: #333 }
.mark { stroke: #111; stroke-width: 2 }
.flaw { fill: none; stroke: #d00; stroke-width: 2 }
.cut { stroke: #777; stroke-dasharray: 2 3 }
.tick { stroke: #ddd }
.life { stroke: #111; stroke-width: 2; stroke-dasharray: 6 4 }
.event { stroke: #bbb }";

/// What a picture is drawn with.
#[derive(Drop)]
struct SvgPicture<'a, W> {
    axis: &'a Axis,
    layout: &'a Layout,
    // its right edge
    right: u64,
    writer: &'a mut W,
}

/// Writes a schedule as SVG: a lane a bank under its rank and channel, open rows as bars with their numbers, commands as marks with
/// their names, the data on the bus of each channel, and refreshes as bars across the rank. Clocks go from left to right; a long
/// time in which nothing begins or ends is cut. Events stand below.
pub fn write_svg<W: Write>(
    alloc: Global,
    schedule: &Schedule,
    writer: &mut W,
) -> Result<(), DrawFault> {
    let axis = Axis::of(alloc, schedule)?;
    let layout = Layout::of(alloc, &schedule.shapes)?;
    let device = Placing::of(alloc, &axis, &schedule.events, EventKind::Device)?;
    let modes = Placing::of(alloc, &axis, &schedule.events, EventKind::Mode)?;
    let texts = device.end().max(modes.end());
    let mut picture = SvgPicture {
        axis: &axis,
        layout: &layout,
        right: axis
            .width()
            .saturating_add(MARGIN)
            .max(texts)
            .max(KEY_WIDTH * 6)
            .saturating_add(LEFT),
        writer,
    };
    let lines = device.lines().saturating_add(modes.lines());
    picture.begin(lines)?;
    picture.write_axis(schedule)?;
    picture.write_lanes()?;
    picture.write_shapes(&schedule.shapes)?;
    picture.write_flaws(&schedule.flaws)?;
    picture.write_lives(schedule)?;
    picture.write_events("device", &device, 0)?;
    picture.write_events("mode", &modes, device.lines())?;
    picture.write_key(lines)?;
    writeln!(picture.writer, "</svg>")?;
    Ok(())
}

// The clock of a life that began with the last of these clocks before it.
fn clock_of_life(begins: &[u64], clock: u64) -> u64 {
    let begin = begins.iter().copied().filter(|begin| *begin <= clock).max();
    clock.saturating_sub(begin.unwrap_or(0))
}

impl<W: Write> SvgPicture<'_, W> {
    fn x(&self, clock: u64) -> u64 {
        self.axis.x(clock).saturating_add(LEFT)
    }

    // The upper edge of a lane by its place.
    fn y(&self, place: usize) -> u64 {
        (place as u64).saturating_mul(LANE).saturating_add(TOP)
    }

    fn y_of(&self, lane: &Lane) -> u64 {
        self.y(self.layout.place(lane))
    }

    fn bottom(&self) -> u64 {
        self.y(self.layout.lanes.len())
    }

    // The lower edge of the text of events in a line.
    fn event_y(&self, line: u64) -> u64 {
        self.bottom()
            .saturating_add(line.saturating_mul(EVENT))
            .saturating_add(EVENT + 6)
    }

    // The lower edge of the key below so many lines of events.
    fn key_y(&self, lines: u64) -> u64 {
        self.event_y(lines).saturating_add(KEY_HEIGHT)
    }

    // Begins a picture with so many lines of events below its lanes.
    fn begin(&mut self, lines: u64) -> Result<(), DrawFault> {
        let width = self.right;
        let height = self.key_y(lines).saturating_add(10);
        writeln!(
            self.writer,
            "<svg xmlns=\"http://www.w3.org/2000/svg\" width=\"{width}\" height=\"{height}\">"
        )?;
        writeln!(
            self.writer,
            "<title>DDR4 commands by their clocks</title>\n<style>{STYLE}</style>"
        )?;
        writeln!(
            self.writer,
            "<rect width=\"{width}\" height=\"{height}\" fill=\"#fff\"/>"
        )?;
        Ok(())
    }

    // The clocks above, where there is room, and a line down from each.
    fn write_axis(&mut self, schedule: &Schedule) -> Result<(), DrawFault> {
        let bottom = self.bottom();
        writeln!(self.writer, "<text x=\"6\" y=\"20\">clock</text>")?;
        let mut free = 0;
        for knot in &self.axis.knots {
            let x = knot.x.saturating_add(LEFT);
            if x < free {
                continue;
            }
            free = x.saturating_add(NUMBER);
            let class = if knot.is_cut { "cut" } else { "tick" };
            let clock = clock_of_life(&schedule.begins, knot.clock);
            writeln!(
                self.writer,
                "<line class=\"{class}\" x1=\"{x}\" y1=\"{TOP}\" x2=\"{x}\" y2=\"{bottom}\"/><text x=\"{x}\" y=\"20\">{clock}</text>"
            )?;
        }
        Ok(())
    }

    fn write_lanes(&mut self) -> Result<(), DrawFault> {
        let right = self.right;
        for (place, lane) in self.layout.lanes.iter().enumerate() {
            let y = self.y(place);
            let under = y.saturating_add(LANE);
            let base = y.saturating_add(17);
            if let LaneKind::Rank { .. } = lane.kind {
                writeln!(
                    self.writer,
                    "<rect class=\"rank\" x=\"0\" y=\"{y}\" width=\"{right}\" height=\"{LANE}\"/>"
                )?;
            }
            writeln!(
                self.writer,
                "<line class=\"lane\" x1=\"0\" y1=\"{under}\" x2=\"{right}\" y2=\"{under}\"/><text x=\"6\" y=\"{base}\">{lane}</text>"
            )?;
        }
        Ok(())
    }

    fn write_shapes(&mut self, shapes: &[Shape]) -> Result<(), DrawFault> {
        for shape in shapes {
            self.write_shape(shape)?;
        }
        Ok(())
    }

    fn write_shape(&mut self, shape: &Shape) -> Result<(), DrawFault> {
        match *shape {
            Shape::Mark {
                lane,
                clock,
                command,
            } => self.write_mark(&lane, clock, &command),
            Shape::Row {
                lane,
                row,
                from,
                to,
                is_closed,
            } => self.write_row(&lane, row, from, to, is_closed),
            Shape::Data {
                lane,
                from,
                to,
                command,
            } => self.write_data(&lane, from, to, &command),
            Shape::Refresh { lane, from, to } => self.write_refresh(&lane, from, to),
        }
    }

    fn write_mark(&mut self, lane: &Lane, clock: u64, command: &Command) -> Result<(), DrawFault> {
        let x = self.x(clock);
        let y = self.y_of(lane);
        writeln!(
            self.writer,
            "<line class=\"mark\" x1=\"{x}\" y1=\"{}\" x2=\"{x}\" y2=\"{}\"/><text x=\"{}\" y=\"{}\">{}</text>",
            y.saturating_add(2),
            y.saturating_add(LANE),
            x.saturating_add(3),
            y.saturating_add(10),
            name_of(command)
        )?;
        Ok(())
    }

    fn write_row(
        &mut self,
        lane: &Lane,
        row: u64,
        from: u64,
        to: u64,
        is_closed: bool,
    ) -> Result<(), DrawFault> {
        let y = self.y_of(lane);
        let x = self.x(from);
        let width = self.x(to).saturating_sub(x);
        let class = if is_closed { "row" } else { "open" };
        writeln!(
            self.writer,
            "<rect class=\"{class}\" x=\"{x}\" y=\"{}\" width=\"{width}\" height=\"{}\"/><text x=\"{}\" y=\"{}\">row {row}</text>",
            y.saturating_add(13),
            LANE - 14,
            x.saturating_add(4),
            y.saturating_add(LANE - 3)
        )?;
        Ok(())
    }

    fn write_data(
        &mut self,
        lane: &Lane,
        from: u64,
        to: u64,
        command: &Command,
    ) -> Result<(), DrawFault> {
        let x = self.x(from);
        let y = self.y_of(lane);
        let width = self.x(to).saturating_sub(x);
        let class = match command {
            Command::Rd { .. } => "read",
            _ => "write",
        };
        writeln!(
            self.writer,
            "<rect class=\"{class}\" x=\"{x}\" y=\"{}\" width=\"{width}\" height=\"{}\"/><text x=\"{}\" y=\"{}\">{}</text>",
            y.saturating_add(3),
            LANE - 6,
            x.saturating_add(3),
            y.saturating_add(17),
            name_of(command)
        )?;
        Ok(())
    }

    // A bar across the lanes of the rank.
    fn write_refresh(&mut self, lane: &Lane, from: u64, to: u64) -> Result<(), DrawFault> {
        let LaneKind::Rank { rank } = lane.kind else {
            return Ok(());
        };
        let x = self.x(from);
        let y = self.y_of(lane);
        let width = self.x(to).saturating_sub(x);
        let lanes = self.layout.rank_lanes(lane.channel, rank) as u64;
        let height = lanes.saturating_mul(LANE);
        writeln!(
            self.writer,
            "<rect class=\"refresh\" x=\"{x}\" y=\"{y}\" width=\"{width}\" height=\"{height}\"/>"
        )?;
        Ok(())
    }

    // A red frame around each command that breaks a rule, with the rule as its title.
    fn write_flaws(&mut self, flaws: &[Flaw]) -> Result<(), DrawFault> {
        for flaw in flaws {
            let x = self.x(flaw.clock).saturating_sub(2);
            let y = self.y_of(&flaw.lane).saturating_add(1);
            writeln!(
                self.writer,
                "<rect class=\"flaw\" x=\"{x}\" y=\"{y}\" width=\"28\" height=\"{}\"><title>breaks rule {}</title></rect>",
                LANE - 2,
                flaw.rule
            )?;
        }
        Ok(())
    }

    // A line down where each life but the first begins.
    fn write_lives(&mut self, schedule: &Schedule) -> Result<(), DrawFault> {
        let bottom = self.bottom();
        for begin in schedule.begins.iter().skip(1) {
            if !schedule.shows(*begin) {
                continue;
            }
            let x = self.x(*begin);
            writeln!(
                self.writer,
                "<line class=\"life\" x1=\"{x}\" y1=\"{TOP}\" x2=\"{x}\" y2=\"{bottom}\"/>"
            )?;
        }
        Ok(())
    }

    // Events of a kind, below so many lines of others.
    fn write_events(
        &mut self,
        name: &str,
        placing: &Placing<'_>,
        above: u64,
    ) -> Result<(), DrawFault> {
        let top = self.bottom();
        if placing.lines() > 0 {
            let y = self.event_y(above);
            writeln!(self.writer, "<text x=\"6\" y=\"{y}\">{name}</text>")?;
        }
        for event in &placing.placed {
            let x = event.x.saturating_add(LEFT);
            let y = self.event_y(above.saturating_add(event.line as u64));
            writeln!(
                self.writer,
                "<line class=\"event\" x1=\"{x}\" y1=\"{top}\" x2=\"{x}\" y2=\"{y}\"/><text x=\"{}\" y=\"{y}\">{}</text>",
                x.saturating_add(3),
                event.text
            )?;
        }
        Ok(())
    }

    // What each kind of shape is, below so many lines of events.
    fn write_key(&mut self, lines: u64) -> Result<(), DrawFault> {
        let y = self.key_y(lines);
        let mut x = LEFT;
        for (class, name) in KEY {
            writeln!(
                self.writer,
                "<rect x=\"{x}\" y=\"{}\" width=\"14\" height=\"10\" class=\"{class}\"/><text x=\"{}\" y=\"{y}\">{name}</text>",
                y.saturating_sub(9),
                x.saturating_add(18)
            )?;
            x = x.saturating_add(KEY_WIDTH);
        }
        Ok(())
    }
}
