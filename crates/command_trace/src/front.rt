// Whether the commands of a channel are lawful, in a constant size.
ghost use Rattle.std.specs.Prelude.{◌≡◌, ◌<◌, ◌^◌, ◌-◌, ◌↔◌, IsTrue, List, [], ◌∷◌, ◌++◌, length, min};
ghost use Rattle.command_trace.specs.declared.entry.Located.{Located};
ghost use Rattle.command_trace.specs.Following.{FollowsCommands, IsFirstFault, issued_in};
ghost use Rattle.auto_precharge.specs.Unfolding.{IsLawfulTrace};

use crate::entry::Located;
use auto_precharge::Unfolding;
use ddr4_timing::timing::CommandRules;

/// Whether the commands that came are lawful, and what they leave to the next one while they are. How many they are, and the
/// line of the first one that isn't lawful.
///
/// Each call is given the profile for which it was made.
#[derive(Clone, Copy)]
pub struct CommandChecker {
    unfolding: Unfolding,
    is_lawful: bool,
    count: u64,
    line: u64,
}

impl CommandChecker {
    /// Before any command.
    pub fn new(rules: &CommandRules) -> CommandChecker
        ensures { FollowsCommands rules.now result [] }
    {
        CommandChecker {
            unfolding: Unfolding::new(rules),
            is_lawful: true,
            count: 0,
            line: 0,
        }
    }

    /// Takes the next command. Answers whether all commands until now are lawful.
    pub fn take(&mut self, rules: &CommandRules, next: &Located) -> bool
        requires { next.now.entry.command.clock < 2 ^ 63 }
        ensures follows { (found : List Located) → FollowsCommands rules.now self.old found →
            FollowsCommands rules.now self.new (found ++ next.now ∷ []) }
        ensures lawful { (found : List Located) → FollowsCommands rules.now self.old found →
            (IsTrue result ↔ IsLawfulTrace rules.now (issued_in (found ++ next.now ∷ []))) }
    {
        self.count = self.count.saturating_add(1);
        if !self.is_lawful {
            return false;
        }
        if !self.unfolding.follow(rules, &next.issued()) {
            self.is_lawful = false;
            self.line = next.line;
            return false;
        }
        true
    }

    /// Are the commands that came lawful?
    pub fn is_lawful(&self) -> bool
        ensures { (rules : CommandRules) (found : List Located) →
            FollowsCommands rules self.now found →
            (IsTrue result ↔ IsLawfulTrace rules (issued_in found)) }
    {
        self.is_lawful
    }

    /// How many commands came.
    pub fn count(&self) -> u64
        ensures { (rules : CommandRules) (found : List Located) →
            FollowsCommands rules self.now found →
            result ≡ min (length found) (2 ^ 64 - 1) }
    {
        self.count
    }

    /// The line of the first command that isn't lawful behind those before it; 0 where all are.
    pub fn line(&self) -> u64
        ensures none { (rules : CommandRules) (found : List Located) →
            FollowsCommands rules self.now found → IsLawfulTrace rules (issued_in found) →
            result ≡ 0 }
        ensures first { (rules : CommandRules) (found : List Located) →
            FollowsCommands rules self.now found → ¬ IsLawfulTrace rules (issued_in found) →
            IsFirstFault rules found result }
    {
        self.line
    }
}
