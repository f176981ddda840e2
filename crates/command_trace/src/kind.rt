// The kinds of commands, by the names that traces give them.
ghost use Rattle.std.specs.Prelude.{◌≡◌, ◌≢◌, ◌⊎◌, ◌↔◌, IsTrue, IfSome, IsNone, length};
ghost use Rattle.ddr4_timing.specs.declared.command.Command.{Command};
ghost use Rattle.command_trace.specs.Kinds.{base_of, closes_of, IsCommandOf, IsSpelling, IsWord, kind_of, name_of_kind, numbers_of};
ghost use Rattle.command_trace.specs.Rows.{columns_left, count_of};
ghost use Rattle.command_trace.specs.declared.kind.CommandKind.{CommandKind};

use ddr4_timing::command::Command;
use ddr4_timing::place::BankAddress;

/// A kind of commands.
#[derive(Clone, Copy, Debug, PartialEq, Eq)]
pub enum CommandKind {
    Act,
    Rd,
    Wr,
    /// A read with auto-precharge.
    Rda,
    /// A write with auto-precharge.
    Wra,
    Pre,
    PreAll,
    Ref,
    Sre,
}

impl CommandKind {
    /// The kind of a name as this program prints it.
    pub fn named(name: &str) -> Option<CommandKind>
        ensures some { IfSome result (λ kind. name.now ≡ name_of_kind kind) }
        ensures none { IsNone result → (kind : CommandKind) → name.now ≢ name_of_kind kind }
    {
        match name {
            "ACT" => Some(CommandKind::Act),
            "RD" => Some(CommandKind::Rd),
            "WR" => Some(CommandKind::Wr),
            "RDA" => Some(CommandKind::Rda),
            "WRA" => Some(CommandKind::Wra),
            "PRE" => Some(CommandKind::Pre),
            "PREA" => Some(CommandKind::PreAll),
            "REF" => Some(CommandKind::Ref),
            "SRE" => Some(CommandKind::Sre),
            _ => None,
        }
    }

    /// The kind of a name in one of the spellings that simulators print, in any case.
    pub fn spelled(name: &str) -> Option<CommandKind>
        ensures some { IfSome result (λ kind. IsSpelling kind name.now) }
        ensures none { IsNone result → (kind : CommandKind) → ¬ IsSpelling kind name.now }
    {
        // the kinds of which a trace has most come first
        if is_either("RD", "READ", name) {
            Some(CommandKind::Rd)
        } else if is_either("WR", "WRITE", name) {
            Some(CommandKind::Wr)
        } else if is_either("ACT", "ACTIVATE", name) {
            Some(CommandKind::Act)
        } else if is_either("PRE", "PRECHARGE", name) {
            Some(CommandKind::Pre)
        } else if is_any("RDA", "READ_PRECHARGE", "READ_P", name) {
            Some(CommandKind::Rda)
        } else if is_any("WRA", "WRITE_PRECHARGE", "WRITE_P", name) {
            Some(CommandKind::Wra)
        } else if is_either("PREA", "PREAB", name) {
            Some(CommandKind::PreAll)
        } else if is_any("REF", "REFRESH", "REFAB", name) {
            Some(CommandKind::Ref)
        } else if is_any("SRE", "SREF_ENTER", "SELF_REFRESH_ENTER", name) {
            Some(CommandKind::Sre)
        } else {
            None
        }
    }

    /// The parts behind its name, as `CHANNEL CLOCK NAME` and these.
    pub(crate) fn parts(self) -> &'static [&'static str]
        ensures { length result.now ≡ count_of self }
    {
        match self {
            CommandKind::Act => &["rank", "group", "bank", "row"],
            CommandKind::Rd | CommandKind::Wr | CommandKind::Rda | CommandKind::Wra => &[
                "rank", "group", "bank", "column",
            ],
            CommandKind::Pre => &["rank", "group", "bank"],
            CommandKind::PreAll | CommandKind::Ref | CommandKind::Sre => &["rank"],
        }
    }

    /// Its name, as this program prints it.
    pub fn name(self) -> &'static str
        ensures { result.now ≡ name_of_kind self }
    {
        match self {
            CommandKind::Act => "ACT",
            CommandKind::Rd => "RD",
            CommandKind::Wr => "WR",
            CommandKind::Rda => "RDA",
            CommandKind::Wra => "WRA",
            CommandKind::Pre => "PRE",
            CommandKind::PreAll => "PREA",
            CommandKind::Ref => "REF",
            CommandKind::Sre => "SRE",
        }
    }

    /// The columns of a table in which a command of this kind has no number. They are the rank in column 3, the bank group, the
    /// bank, the row and the column in 7.
    pub(crate) fn columns_left(self) -> &'static [usize]
        ensures { result.now ≡ columns_left self }
    {
        match self {
            CommandKind::Act => &[7],
            CommandKind::Rd | CommandKind::Wr | CommandKind::Rda | CommandKind::Wra => &[6],
            CommandKind::Pre => &[6, 7],
            CommandKind::PreAll | CommandKind::Ref | CommandKind::Sre => &[4, 5, 6, 7],
        }
    }

    /// Is it a read or a write with auto-precharge?
    pub fn closes(self) -> bool
        ensures { result ≡ closes_of self }
    {
        match self {
            CommandKind::Rda | CommandKind::Wra => true,
            _ => false,
        }
    }

    /// The command of this kind whose numbers are these, in the order in which a trace names them. With auto-precharge it is a
    /// read or a write too.
    pub fn command(self, numbers: &[u64]) -> Option<Command>
        ensures some { IfSome result (IsCommandOf self numbers.now) }
        ensures none { IsNone result → (x : Command) → kind_of x ≡ base_of self →
            numbers_of x ≢ numbers.now }
    {
        match (self, numbers) {
            (CommandKind::Act, [rank, group, bank, row]) => Some(Command::Act {
                at: bank_of(rank, group, bank),
                row: *row,
            }),
            (CommandKind::Rd | CommandKind::Rda, [rank, group, bank, column]) => Some(
                Command::Rd {
                    at: bank_of(rank, group, bank),
                    column: *column,
                },
            ),
            (CommandKind::Wr | CommandKind::Wra, [rank, group, bank, column]) => Some(
                Command::Wr {
                    at: bank_of(rank, group, bank),
                    column: *column,
                },
            ),
            (CommandKind::Pre, [rank, group, bank]) => Some(Command::Pre {
                at: bank_of(rank, group, bank),
            }),
            (CommandKind::PreAll, [rank]) => Some(Command::PreAll { rank: *rank }),
            (CommandKind::Ref, [rank]) => Some(Command::Ref { rank: *rank }),
            (CommandKind::Sre, [rank]) => Some(Command::Sre { rank: *rank }),
            _ => None,
        }
    }
}

// Is the name one of two words, in any case?
fn is_either(short: &str, long: &str, name: &str) -> bool
    ensures { IsTrue result ↔ (IsWord short.now name.now ⊎ IsWord long.now name.now) }
{
    short.eq_ignore_ascii_case(name) || long.eq_ignore_ascii_case(name)
}

// Is the name one of three words, in any case?
fn is_any(short: &str, long: &str, other: &str, name: &str) -> bool
    ensures { IsTrue result ↔ (IsWord short.now name.now ⊎ IsWord long.now name.now
        ⊎ IsWord other.now name.now) }
{
    is_either(short, long, name) || other.eq_ignore_ascii_case(name)
}

fn bank_of(rank: &u64, group: &u64, bank: &u64) -> BankAddress
    ensures { result ≡ record { rank = rank.now; group = group.now; bank = bank.now } }
{
    BankAddress {
        rank: *rank,
        group: *group,
        bank: *bank,
    }
}

/// The name of a command.
pub fn name_of(x: &Command) -> &'static str
    ensures { result.now ≡ name_of_kind (kind_of x.now) }
{
    match x {
        Command::Act { .. } => CommandKind::Act.name(),
        Command::Rd { .. } => CommandKind::Rd.name(),
        Command::Wr { .. } => CommandKind::Wr.name(),
        Command::Pre { .. } => CommandKind::Pre.name(),
        Command::PreAll { .. } => CommandKind::PreAll.name(),
        Command::Ref { .. } => CommandKind::Ref.name(),
        Command::Sre { .. } => CommandKind::Sre.name(),
    }
}
