// Why a line of a trace is no command.
use crate::kind::CommandKind;
use std::fmt;

// What is wanted of a line, a header and a name.
const WORDS: &str = "a channel, a clock and a name are wanted, with one space between two words";

const HEADER: &str =
    "the header of a table is clock,command,channel,rank,bankgroup,bank,row,column";

const NAME: &str = "the names of commands are ACT, RD, WR, RDA, WRA, PRE, PREA, REF and SRE";

// Why a command isn't taken.
const CLOSING: &str = "every fault is told of commands without auto-precharge alone";

const BROKEN: &str =
    "a trace with auto-precharge is drawn where it is lawful, and this command isn't";

const ORDER: &str = "the clock isn't behind the one before it in its channel";

/// Why a line of a trace is no command, or one that isn't taken. Shown in words.
#[derive(Clone, Copy, Debug, PartialEq, Eq)]
pub enum NoCommand {
    /// It has fewer than three words.
    Words,
    /// Its first row isn't the one of a table.
    Header,
    /// It isn't one of the form that was asked for, which is this.
    Form {
        wanted: &'static str,
    },
    /// A row of a table has another number of columns.
    Columns {
        found: usize,
    },
    /// The name is none of a command.
    Name,
    /// The part is no number of 64 bits.
    Number {
        part: &'static str,
    },
    /// No column was named for the part.
    Unnamed {
        part: &'static str,
    },
    /// The part is no number of 64 bits in base 16.
    Hex {
        part: &'static str,
    },
    /// There are more or fewer numbers behind the name than its command has.
    Parts {
        kind: CommandKind,
    },
    /// The command doesn't have the part that stands in this column of a table.
    Further {
        part: &'static str,
        kind: CommandKind,
    },
    /// No channel has this number.
    Channel {
        channel: u64,
        channels: u64,
    },
    /// The clock is 2^63 or more.
    Clock,
    /// The place lies outside the geometry.
    Place,
    /// The command closes its bank by itself, and every fault is asked for.
    Closing,
    /// The command may not follow those before it, and some close their bank by themselves.
    Broken,
    /// The clock isn't behind the one before it in its channel.
    Order,
}

impl fmt::Display for NoCommand {
    fn fmt<W: fmt::Write>(&self, f: &mut fmt::Formatter<W>) -> fmt::Result {
        match *self {
            NoCommand::Words => f.write_str(WORDS),
            NoCommand::Header => f.write_str(HEADER),
            NoCommand::Form { wanted } => f.write_str(wanted),
            NoCommand::Columns { found } => write!(f, "a table has 8 columns, here {found}"),
            NoCommand::Name => f.write_str(NAME),
            NoCommand::Number { part } => write!(
                f,
                "the {part} is a number: decimal digits that fit 64 bits"
            ),
            NoCommand::Unnamed { part } => write!(f, "no column is named {part}"),
            NoCommand::Hex { part } => write!(
                f,
                "the {part} is a number behind 0x: digits of base 16 that fit 64 bits"
            ),
            NoCommand::Parts { kind } => {
                write!(f, "{} has these numbers behind it:", kind.name())?;
                for part in kind.parts() {
                    write!(f, " {part}")?;
                }
                Ok(())
            }
            NoCommand::Further { part, kind } => write!(
                f,
                "{} has no {part}: that column is to be empty",
                kind.name()
            ),
            NoCommand::Channel { channel, channels } => write!(
                f,
                "channel {channel}, and this profile has {channels}"
            ),
            NoCommand::Clock => f.write_str("a clock is below 2^63"),
            NoCommand::Place => f.write_str("a place outside the geometry of this profile"),
            NoCommand::Closing => f.write_str(CLOSING),
            NoCommand::Broken => f.write_str(BROKEN),
            NoCommand::Order => f.write_str(ORDER),
        }
    }
}
