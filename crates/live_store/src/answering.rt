// The answers to what is heard.
ghost use Rattle.std.specs.Prelude.{◌≡◌, true, IfErr, OnOk};
ghost use Rattle.nv_script.specs.Line.{NamesChannelOf};
ghost use Rattle.live_store.specs.Lives.{now_of};
ghost use Rattle.live_store.specs.Talks.{AreSaidToHeard, AreSaidToLine, AreSaidToText, TellsAll, TellsNearly};

use crate::life::Life;
use crate::talk::{LineRefusal, Said, Talk, TalkFault, Turn};
use channel_port::ChannelPort;
use nv_script::{ScriptFault, ScriptLine, read_script};
use save_device::SaveDevice;
use script_runner::{is_busy, turns_of};
use std::alloc::Global;

// Answers a line, turn by turn.
fn answer_line<K: ChannelPort, D: SaveDevice, T: Talk>(
    life: &mut Life<K, D>,
    line: ScriptLine,
    talk: &mut T,
) -> Result<(), TalkFault>
    requires channel { NamesChannelOf life.old.geometry line }
    ensures tells { OnOk result (TellsAll K.ChannelPort (AreSaidToLine line)
        (T.said talk.old) (T.said talk.new) (now_of life.old) (now_of life.new)) }
    ensures ends { IfErr result (λ fault. TellsNearly K.ChannelPort
        (T.said talk.old) (T.said talk.new) (now_of life.old) (now_of life.new)) }
    ensures heard { T.heard talk.new ≡ T.heard talk.old }
    ensures geometry { life.new.geometry ≡ life.old.geometry }
{
    for _turn in 0..turns_of(line) {
        let Some(answer) = life.answer(line) else {
            talk.say(Said::Refused(LineRefusal::ScriptsAlone))?;
            return Ok(());
        };
        let turn = Turn {
            asked: line,
            answer,
        };
        talk.say(Said::Answered(turn))?;
        if !is_busy(answer) {
            return Ok(());
        }
    }
    Ok(())
}

// Answers what was heard: the lines of a script that it has, one at most.
fn answer_text<K: ChannelPort, D: SaveDevice, T: Talk>(
    alloc: Global,
    life: &mut Life<K, D>,
    text: &[u8],
    talk: &mut T,
) -> Result<(), TalkFault>
    ensures tells { OnOk result (TellsAll K.ChannelPort
        (AreSaidToText life.old.geometry text.now)
        (T.said talk.old) (T.said talk.new) (now_of life.old) (now_of life.new)) }
    ensures ends { IfErr result (λ fault. TellsNearly K.ChannelPort
        (T.said talk.old) (T.said talk.new) (now_of life.old) (now_of life.new)) }
    ensures heard { T.heard talk.new ≡ T.heard talk.old }
    ensures geometry { life.new.geometry ≡ life.old.geometry }
{
    match read_script(alloc, text, &life.geometry) {
        Ok(lines) => {
            for line in &lines {
                answer_line(life, *line, talk)?;
            }
            Ok(())
        }
        Err(ScriptFault::Line { .. }) => {
            talk.say(Said::Refused(LineRefusal::Unreadable))?;
            Ok(())
        }
        Err(_) => Err(TalkFault::Memory),
    }
}

/// Hears lines and answers each before the next one is heard, until there is none; the life goes on by the events of the verbs
/// that it knows. A line that is none, or that asks for what no life does, is refused by its name, and changes nothing.
pub fn converse<K: ChannelPort, D: SaveDevice, T: Talk>(
    alloc: Global,
    life: &mut Life<K, D>,
    talk: &mut T,
) -> Result<(), TalkFault>
    requires out { T.is_out talk.old ≡ true }
    ensures over { OnOk result (T.is_over talk.new ≡ true) }
    ensures tells { OnOk result (TellsAll K.ChannelPort
        (AreSaidToHeard life.old.geometry (T.heard talk.old) (T.heard talk.new))
        (T.said talk.old) (T.said talk.new) (now_of life.old) (now_of life.new)) }
    ensures ends { IfErr result (λ fault. TellsNearly K.ChannelPort
        (T.said talk.old) (T.said talk.new) (now_of life.old) (now_of life.new)) }
{
    let mut line = Vec::new(alloc);
    for _turn in 0..u64::MAX {
        if !talk.hear(life.mode(), &mut line)? {
            return Ok(());
        }
        answer_text(alloc, life, &line, talk)?;
        talk.flush()?;
    }
    Err(TalkFault::Reader)
}
