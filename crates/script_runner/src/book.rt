// The commands that the channels of a run's lives have issued, kept.
ghost use Rattle.std.specs.Prelude.{◌≡◌, ◌↔◌, [], ◌∷◌, List, Option, None, Some, IfSome, IsSome, IsTrue, length, map, option_to_list, slice_get};
ghost use Rattle.std.specs.Option.{option_map};
ghost use Rattle.channel_set.specs.Issuing.{issued_in};
ghost use Rattle.ddr4_timing.specs.declared.command.Stamped.{Stamped};
ghost use Rattle.script_runner.specs.Ended.{Kept, Notes, counts_if, nothing, of_counts, of_lives};
ghost use Rattle.script_runner.specs.Issued.{LifeKeepsRules};

use channel_port::ChannelPort;
use channel_set::ChannelSet;
use ddr4_port::{Ddr4Port, keep_rules};
use ddr4_timing::command::Stamped;
use interleave_map::line_map::LineMap;
use module_core::Module;
use std::alloc::Global;
use std::marker::Model;

/// Who is shown each life of a run as it ends, and how it stands before each line.
pub trait LifeBook<K: ChannelPort> {
    /// Of each life that was shown the list of each of its channels, and of each count that was asked for the counts of all channels,
    /// the oldest first; None where they aren't kept, or no longer.
    ghost kept: { Self → Option Kept };

    /// Is shown a life, which ends, and whose channels keep the timing rules.
    fn end(&mut self, life: &Module<K>)
        ensures notes { Notes (of_lives (issued_in K.ChannelPort life.now.channels ∷ []))
            (kept self.old) (kept self.new) }
        ensures rules { LifeKeepsRules K.ChannelPort life.now };

    /// Counts the commands that each channel of the life that runs, if one does, has issued.
    fn count(&mut self, life: Option<&Module<K>>)
        ensures { Notes (of_counts (counts_if K.ChannelPort (option_map (λ it. it.now) life.entry)))
            (kept self.old) (kept self.new) };
}

/// All commands that the channels of a life have issued.
#[derive(Drop)]
pub struct LifeCommands {
    channels: Vec<Vec<Stamped>>,
}

impl Model for LifeCommands {
    ghost use Rattle.std.specs.Prelude.{List, map};
    ghost use Rattle.ddr4_timing.specs.declared.command.Stamped.{Stamped};

    ghost Value = { List (List Stamped) };

    ghost view = { λ life. map (λ commands. commands.items) life.channels.items };
}

impl LifeCommands {
    /// Those of each channel, by its number, the oldest first.
    pub fn channels(&self) -> &[Vec<Stamped>]
        ensures { map (λ commands. commands.items) result.now ≡ self.now }
    {
        &self.channels
    }
}

/// What is kept of a run: the commands of its lives, the oldest first; and before each of its lines, and at the end, how many commands
/// each channel of the life that ran had issued, with an empty list where none ran.
#[derive(Drop)]
pub struct KeptRun {
    lives: Vec<LifeCommands>,
    counts: Vec<Vec<usize>>,
}

impl Model for KeptRun {
    ghost use Rattle.std.specs.Prelude.{map};
    ghost use Rattle.script_runner.specs.Ended.{Kept};

    ghost Value = { Kept };

    ghost view = { λ run. record {
      lives = run.lives.items;
      counts = map (λ counts. counts.items) run.counts.items;
    } };
}

impl KeptRun {
    /// The commands of its lives, the oldest first.
    pub fn lives(&self) -> &[LifeCommands]
        ensures { result.now ≡ self.now.lives }
    {
        &self.lives
    }

    /// Before each of its lines, and at the end, how many commands each channel of the life that ran had issued; none where none ran.
    pub fn counts(&self) -> &[Vec<usize>]
        ensures { map (λ counts. counts.items) result.now ≡ self.now.counts }
    {
        &self.counts
    }
}

/// Keeps the commands of a run's lives, if they are asked for.
#[derive(Drop)]
pub struct CommandBook {
    alloc: Global,
    run: Option<KeptRun>,
}

impl Model for CommandBook {
    ghost use Rattle.std.specs.Prelude.{Option};
    ghost use Rattle.script_runner.specs.Ended.{Kept};

    ghost Value = { Option Kept };

    ghost view = { λ book. book.run };
}

impl CommandBook {
    /// Keeps nothing.
    pub fn closed(alloc: Global) -> CommandBook
        ensures { result ≡ None }
    {
        CommandBook { alloc, run: None }
    }

    /// Keeps the commands of each life, as far as there is memory for them.
    pub fn open(alloc: Global) -> CommandBook
        ensures { result ≡ Some nothing }
    {
        let run = KeptRun {
            lives: Vec::new(alloc),
            counts: Vec::new(alloc),
        };
        CommandBook {
            alloc,
            run: Some(run),
        }
    }

    /// Whether commands are kept.
    pub fn is_open(&self) -> bool
        ensures { IsTrue result ↔ IsSome self.now }
    {
        self.run.is_some()
    }

    /// What is kept; None where it wasn't asked for, or memory gave out.
    pub fn into_run(self) -> Option<KeptRun>
        ensures { result ≡ self }
    {
        let CommandBook { run, .. } = self;
        run
    }

    /// The lives, the oldest first; None where their commands weren't asked for, or memory gave out.
    pub fn into_lives(self) -> Option<Vec<LifeCommands>>
        ensures { option_map (λ lives. lives.items) result ≡ option_map (λ run. run.lives) self }
    {
        match self.into_run() {
            Some(KeptRun { lives, .. }) => Some(lives),
            None => None,
        }
    }

    // One life more. Where there is none, nothing is kept any longer.
    fn add(&mut self, life: Option<LifeCommands>)
        ensures notes { Notes (of_lives (option_to_list life)) self.old self.new }
        ensures none { life ≡ None → self.new ≡ None }
    {
        let Some(run) = &mut self.run else {
            return;
        };
        let is_kept = match life {
            Some(life) => run.lives.push(life).is_ok(),
            None => false,
        };
        if !is_kept {
            self.run = None;
        }
    }

    // The counts of all channels once more. Where there are none, nothing is kept any longer.
    fn add_counts(&mut self, counts: Option<Vec<usize>>)
        ensures notes { IfSome counts (λ counts. Notes (of_counts counts.items) self.old self.new) }
        ensures none { counts ≡ None → self.new ≡ None }
    {
        let Some(run) = &mut self.run else {
            return;
        };
        let is_kept = match counts {
            Some(counts) => run.counts.push(counts).is_ok(),
            None => false,
        };
        if !is_kept {
            self.run = None;
        }
    }
}

// The commands of the channel of a number, where they are kept.
fn commands_on<'c, 'm, M: LineMap>(
    channels: &'c ChannelSet<Ddr4Port<'m, M>>,
    number: u64,
) -> Option<&'c [Stamped]>
    ensures { IfSome result (λ commands.
        slice_get (issued_in ⟦<Ddr4Port<'m, M> as ChannelPort>⟧ channels.now) number
        ≡ Some commands.now) }
{
    let port = channels.port(number)?;
    port.channel().commands()
}

// The same, copied, where there is memory for them.
fn copied_on<'m, M: LineMap>(
    alloc: Global,
    channels: &ChannelSet<Ddr4Port<'m, M>>,
    number: u64,
) -> Option<Vec<Stamped>>
    ensures { IfSome result (λ commands.
        slice_get (issued_in ⟦<Ddr4Port<'m, M> as ChannelPort>⟧ channels.now) number
        ≡ Some commands.items) }
{
    let commands = commands_on(channels, number)?;
    commands.to_vec(alloc).ok()
}

// Those of all channels.
fn commands_of<'m, M: LineMap>(
    alloc: Global,
    channels: &ChannelSet<Ddr4Port<'m, M>>,
) -> Option<LifeCommands>
    ensures { IfSome result (λ life. life
        ≡ issued_in ⟦<Ddr4Port<'m, M> as ChannelPort>⟧ channels.now) }
{
    let mut lists = Vec::new(alloc);
    for number in 0..channels.count() {
        let commands = copied_on(alloc, channels, number)?;
        if lists.push(commands).is_err() {
            return None;
        }
    }
    Some(LifeCommands { channels: lists })
}

// How many they are on each channel.
fn counts_of<'m, M: LineMap>(
    alloc: Global,
    channels: &ChannelSet<Ddr4Port<'m, M>>,
) -> Option<Vec<usize>>
    ensures { IfSome result (λ counts. counts.items
        ≡ map length (issued_in ⟦<Ddr4Port<'m, M> as ChannelPort>⟧ channels.now)) }
{
    let mut counts = Vec::new(alloc);
    for number in 0..channels.count() {
        let commands = commands_on(channels, number)?;
        if counts.push(commands.len()).is_err() {
            return None;
        }
    }
    Some(counts)
}

// The same of the life that runs, if one does.
fn counts_if<'m, M: LineMap>(
    alloc: Global,
    life: Option<&Module<Ddr4Port<'m, M>>>,
) -> Option<Vec<usize>>
    ensures { IfSome result (λ counts. counts.items
        ≡ counts_if ⟦<Ddr4Port<'m, M> as ChannelPort>⟧ (option_map (λ it. it.now) life.entry)) }
{
    match life {
        Some(life) => counts_of(alloc, life.channels()),
        None => Some(Vec::new(alloc)),
    }
}

impl<'m, M: LineMap> LifeBook<Ddr4Port<'m, M>> for CommandBook {
    ghost kept = { λ book. book };

    fn end(&mut self, life: &Module<Ddr4Port<'m, M>>) {
        let channels = life.channels();
        keep_rules(channels);
        if self.is_open() {
            self.add(commands_of(self.alloc, channels));
        }
    }

    fn count(&mut self, life: Option<&Module<Ddr4Port<'m, M>>>) {
        if self.is_open() {
            self.add_counts(counts_if(self.alloc, life));
        }
    }
}
