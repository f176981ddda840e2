// The answers of a script, with all commands of its lives among them.
ghost use Rattle.std.specs.Prelude.{◌≡◌, ◌∷◌, ◌++◌, ◌<◌, ◌≤◌, [], ℕ, List, IfOk, OnOk, get_or, length, max};
ghost use Rattle.nv_script.specs.declared.answer.Answer.{Answer};
ghost use Rattle.command_line.specs.declared.whole.Part.TheVariants.{Begins};
ghost use Rattle.command_line.specs.Whole.{AreUpTo, IsSoFar, HasAllCommands, channel_in};
ghost use Rattle.script_runner.specs.Ended.{Lives};

use ddr4_timing::command::Stamped;
use nv_script::Answer;
use script_runner::LifeCommands;
use std::alloc::{AllocError, Global};

// What an answer is to the commands of lives.
#[derive(Clone, Copy, Debug, PartialEq, Eq)]
enum Part {
    Command { channel: u64, command: Stamped },
    // A life begins.
    Begins,
    Other,
}

fn part_of(answer: &Answer) -> Part
    ensures { result ≡ Rattle.command_line.specs.Whole.part_of answer.now }
{
    match *answer {
        Answer::Issued { channel, command } => Part::Command { channel, command },
        Answer::Formatted | Answer::Restored { .. } => Part::Begins,
        _ => Part::Other,
    }
}

// Answers that are told so far, with the commands of the lives that have begun.
#[derive(Drop)]
struct Whole<'l> {
    alloc: Global,
    lives: &'l [LifeCommands],
    begun: usize,
    // the commands of the life that runs, by channel, and how many of each are told
    channels: &'l [Vec<Stamped>],
    told: Vec<usize>,
    answers: Vec<Answer>,
}

impl<'l> Whole<'l> {
    fn new(alloc: Global, lives: &'l [LifeCommands]) -> Whole<'l>
        ensures { IsSoFar lives.now [] result }
    {
        Whole {
            alloc,
            lives,
            begun: 0,
            channels: &[],
            told: Vec::new(alloc),
            answers: Vec::new(alloc),
        }
    }

    // Tells the commands of a channel below a place that aren't told yet.
    fn tell_below(&mut self, channel: usize, end: usize) -> Result<(), AllocError>
        requires sizes { length self.old.told.items ≡ length self.old.channels.now }
        requires channel { channel < length self.old.channels.now }
        requires end { end ≤ length (channel_in self.old channel) }
        ensures so_far { OnOk result ((lives : Lives) (given : List Answer)
            → IsSoFar lives given self.old → IsSoFar lives given self.new) }
        ensures told { OnOk result (get_or self.new.told.items channel 0
            ≡ max (get_or self.old.told.items channel 0) end) }
        ensures sizes { length self.new.told.items ≡ length self.old.told.items }
        ensures others { OnOk result ((other : ℕ) → get_or self.old.told.items other 0
            ≤ get_or self.new.told.items other 0) }
        ensures channels { self.new.channels.now ≡ self.old.channels.now }
    {
        for at in self.told[channel]..end {
            let command = self.channels[channel][at];
            self.answers.push(Answer::Issued {
                channel: channel as u64,
                command,
            })?;
            self.told[channel] = at + 1;
        }
        Ok(())
    }

    // The place of a channel's first command behind a clock that isn't told yet, or its end.
    fn end_by(&self, channel: usize, last: u64) -> usize
        requires sizes { length self.now.told.items ≡ length self.now.channels.now }
        requires channel { channel < length self.now.channels.now }
        ensures end { result ≤ length (channel_in self.now channel) }
        ensures clocks { AreUpTo last (get_or self.now.told.items channel 0) result
            (channel_in self.now channel) }
    {
        let commands = &self.channels[channel];
        for at in self.told[channel]..commands.len() {
            if commands[at].clock > last {
                return at;
            }
        }
        commands.len()
    }

    // Tells the commands of a channel up to a clock that aren't told yet.
    fn tell(&mut self, channel: u64, last: u64) -> Result<(), AllocError>
        requires { length self.old.told.items ≡ length self.old.channels.now }
        ensures so_far { OnOk result ((lives : Lives) (given : List Answer)
            → IsSoFar lives given self.old → IsSoFar lives given self.new) }
    {
        let channel = channel as usize;
        if channel >= self.channels.len() {
            return Ok(());
        }
        let end = self.end_by(channel, last);
        self.tell_below(channel, end)
    }

    // Tells all commands of the life that runs which aren't told yet.
    fn tell_rest(&mut self) -> Result<(), AllocError>
        requires { length self.old.told.items ≡ length self.old.channels.now }
        ensures so_far { OnOk result ((lives : Lives) (given : List Answer)
            → IsSoFar lives given self.old → IsSoFar lives given self.new) }
        ensures all { OnOk result ((channel : ℕ) → length (channel_in self.new channel)
            ≤ get_or self.new.told.items channel 0) }
    {
        for channel in 0..self.channels.len() {
            let end = self.channels[channel].len();
            self.tell_below(channel, end)?;
        }
        Ok(())
    }

    // An answer that tells that a life begins: the life before it is told to its end.
    fn begin(&mut self, answer: Answer) -> Result<(), AllocError>
        requires sizes { length self.old.told.items ≡ length self.old.channels.now }
        requires begins { Rattle.command_line.specs.Whole.part_of answer ≡ Begins }
        ensures { OnOk result ((lives : Lives) (given : List Answer)
            → IsSoFar lives given self.old → IsSoFar lives (given ++ answer ∷ []) self.new) }
    {
        self.tell_rest()?;
        self.answers.push(answer)?;
        if self.begun >= self.lives.len() {
            return Ok(());
        }
        self.channels = self.lives[self.begun].channels();
        self.told = Vec::from_elem(self.alloc, 0, self.channels.len())?;
        self.begun += 1;
        Ok(())
    }

    // One more answer: of a command all commands of its channel up to its clock.
    fn put(&mut self, answer: Answer) -> Result<(), AllocError>
        requires { length self.old.told.items ≡ length self.old.channels.now }
        ensures { OnOk result ((lives : Lives) (given : List Answer)
            → IsSoFar lives given self.old → IsSoFar lives (given ++ answer ∷ []) self.new) }
    {
        match part_of(&answer) {
            Part::Command { channel, command } => self.tell(channel, command.clock),
            Part::Begins => self.begin(answer),
            Part::Other => Ok(self.answers.push(answer)?),
        }
    }
}

/// The answers of a script, where each life tells all commands of its channels: those that no answer told stand before the next one of
/// their channel that is told, or behind the life's last answer. `lives` are the lives that the answers tell to begin.
pub(crate) fn told_whole(
    alloc: Global,
    answers: &[Answer],
    lives: &[LifeCommands],
) -> Result<Vec<Answer>, AllocError>
    ensures { IfOk result (λ whole. HasAllCommands lives.now answers.now whole.items) }
{
    let mut whole = Whole::new(alloc, lives);
    for answer in answers {
        whole.put(*answer)?;
    }
    whole.tell_rest()?;
    Ok(whole.answers)
}
