// What the numbers by which commands alone are checked come to.
ghost use Rattle.std.specs.Prelude.{◌≡◌, ◌*◌};
ghost use Rattle.profile_report.specs.Meaning.{IsCommandMeaningOf};

use ddr4_timing::timing::{CommandRules, Geometry};
use std::fmt;

/// What the numbers by which commands alone are checked come to. Shown as a line for what is checked and one for what isn't made,
/// the last without an end of line.
#[derive(Clone, Copy)]
pub struct CommandMeaning {
    pub rules: CommandRules,
    /// The banks of a channel.
    pub banks: u64,
}

impl CommandMeaning {
    /// Of these numbers.
    pub fn of(rules: &CommandRules) -> CommandMeaning
        ensures { IsCommandMeaningOf rules.now result }
    {
        let Geometry {
            ranks,
            groups,
            banks,
            ..
        } = rules.geometry;
        CommandMeaning {
            rules: *rules,
            banks: ranks * groups * banks,
        }
    }
}

impl fmt::Display for CommandMeaning {
    fn fmt<W: fmt::Write>(&self, f: &mut fmt::Formatter<W>) -> fmt::Result {
        let Geometry {
            channels,
            ranks,
            rows,
            columns,
            ..
        } = self.rules.geometry;
        let banks = self.banks;
        write!(
            f,
            "commands on {channels} channels, of each ranks {ranks}, banks {banks}"
        )?;
        write!(f, "\nof each bank rows {rows}, columns {columns}")?;
        write!(f, "\nno module: no tables costs and module")
    }
}
