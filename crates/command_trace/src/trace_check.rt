// Whether the commands of each channel of a trace are lawful.
ghost use Rattle.std.specs.Prelude.{◌≡◌, ◌<◌, ◌^◌, ◌-◌, ◌↔◌, [], ◌∷◌, ◌++◌, IsTrue, length, min};

use crate::entry::Located;
use crate::front::CommandChecker;
use ddr4_timing::timing::CommandRules;
use ghost_trace::Trace;

/// No geometry has more channels.
pub const MOST_CHANNELS: u64 = 8;

/// The commands of each channel as they come, with their lines: whether they are lawful, how many they are, and the line of the
/// first one that isn't.
///
/// Takes the same memory whatever comes. Each call is given the profile for which it was made.
#[derive(Drop)]
pub struct TraceCheck {
    fronts: [CommandChecker; 8],
    is_empty: bool,
    given: Trace<Located>,
    ghost told: { IsTrue is_empty ↔ (given.items ≡ []) },
}

impl TraceCheck {
    ghost use Rattle.command_trace.specs.Channels.{AreLawful, FollowsAll, found_of, issued_to};
    ghost use Rattle.command_trace.specs.Following.{IsFirstFault};
    ghost use Rattle.auto_precharge.specs.Unfolding.{IsLawfulTrace};

    /// Before any command.
    pub fn new(rules: &CommandRules) -> TraceCheck
        ensures empty { result.given.items ≡ [] }
        ensures follows { FollowsAll rules.now result }
    {
        TraceCheck {
            fronts: [CommandChecker::new(rules); 8],
            is_empty: true,
            given: Trace::new(),
        }
    }

    /// Takes the next command. Answers whether all commands of its channel are lawful until now.
    pub fn take(&mut self, rules: &CommandRules, next: &Located) -> bool
        requires channel { next.now.entry.channel < MOST_CHANNELS }
        requires clock { next.now.entry.command.clock < 2 ^ 63 }
        ensures adds { self.new.given.items ≡ self.old.given.items ++ next.now ∷ [] }
        ensures follows { FollowsAll rules.now self.old → FollowsAll rules.now self.new }
        ensures lawful { FollowsAll rules.now self.old → (IsTrue result
            ↔ IsLawfulTrace rules.now (issued_to next.now.entry.channel self.new.given.items)) }
    {
        let channel = next.entry.channel as usize;
        let is_lawful = self.fronts[channel].take(rules, next);
        self.given.note(next);
        self.is_empty = false;
        is_lawful
    }

    /// Did no command come?
    pub fn is_empty(&self) -> bool
        ensures { IsTrue result ↔ (self.now.given.items ≡ []) }
    {
        self.is_empty
    }

    /// Are the commands of the channel lawful?
    pub fn is_lawful(&self, rules: &CommandRules, channel: u64) -> bool
        requires { channel < MOST_CHANNELS }
        ensures { FollowsAll rules.now self.now → (IsTrue result
            ↔ IsLawfulTrace rules.now (issued_to channel self.now.given.items)) }
    {
        // the contract is of this profile, and the fronts know it already
        let _of = rules;
        self.fronts[channel as usize].is_lawful()
    }

    /// Are the commands of every channel lawful?
    pub fn are_lawful(&self, rules: &CommandRules) -> bool
        ensures { FollowsAll rules.now self.now
            → (IsTrue result ↔ AreLawful rules.now self.now) }
    {
        for channel in 0..rules.geometry.channels {
            if !self.is_lawful(rules, channel) {
                return false;
            }
        }
        true
    }

    /// How many commands the channel has.
    pub fn count(&self, channel: u64) -> u64
        requires { channel < MOST_CHANNELS }
        ensures { (rules : CommandRules) → FollowsAll rules self.now
            → result ≡ min (length (found_of channel self.now.given.items)) (2 ^ 64 - 1) }
    {
        self.fronts[channel as usize].count()
    }

    /// The line of the first command of the channel that isn't lawful behind those before it; 0 where all are.
    pub fn line(&self, channel: u64) -> u64
        requires { channel < MOST_CHANNELS }
        ensures none { (rules : CommandRules) → FollowsAll rules self.now
            → IsLawfulTrace rules (issued_to channel self.now.given.items) → result ≡ 0 }
        ensures first { (rules : CommandRules) → FollowsAll rules self.now
            → ¬ IsLawfulTrace rules (issued_to channel self.now.given.items)
            → IsFirstFault rules (found_of channel self.now.given.items) result }
    {
        self.fronts[channel as usize].line()
    }
}
