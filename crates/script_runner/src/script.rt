// Scripts, run on a session.
ghost use Rattle.std.specs.Prelude.{◌≡◌, ◌<◌, true, IfErr, IfOk, IfSome, OnOk, All};
ghost use Rattle.nv_session.specs.Sessions.{line_count_in, moment_in};
ghost use Rattle.nv_script.specs.Line.{NamesChannelOf};
ghost use Rattle.script_runner.specs.Doing.{Does};
ghost use Rattle.script_runner.specs.Ended.{Notes, ended_by, kept_before, kept_last, lists_in, nothing, of_lives};
ghost use Rattle.script_runner.specs.Issued.{KeepsRules};
ghost use Rattle.script_runner.specs.Runs.{AreAllNoted, DoesLine};
ghost use Rattle.script_runner.specs.Story.{AreCutShort, EndsBy, GoesOn};
ghost use Rattle.script_runner.specs.Keeping.{AnswersTruly, AnswersPart};

use crate::answers::{
    arm_answer, disarm_answer, read_answer, restore_answer, save_answer, step_answer, work_answer,
    write_answer,
};
use crate::book::LifeBook;
use crate::report::Report;
use channel_port::ChannelPort;
use nv_script::{Answer, ScriptFault, ScriptLine};
use nv_session::{FormatError, Level, Session, Wires};
use save_device::Pick;
use std::alloc::Global;

/// Does lines, and reports their answers. A new book is shown how the life that runs stands before each, and each life that one of them
/// ends.
pub(crate) fn answer_lines<K, A, R, B>(
    alloc: Global,
    session: &mut Session<K, A>,
    lines: &[ScriptLine],
    report: &mut R,
    book: &mut B,
) -> Result<(), ScriptFault>
where
    K: ChannelPort + Drop,
    A: Wires<K> + Drop,
    R: Report,
    B: LifeBook<K>,
    requires names { All (NamesChannelOf session.old.profile.checked.geometry) lines.now }
    requires book { IfSome (B.kept book.old) (λ kept. kept ≡ nothing) }
    ensures done { OnOk result (AreAllNoted (line_count_in session.old) lines.now
        (R.answers report.old) (R.answers report.new) (B.kept book.new)
        session.old session.new) }
    ensures cut { IfErr result (λ fault. AreCutShort (line_count_in session.old)
        lines.now (R.answers report.old) (R.answers report.new)) }
    ensures unrefused { OnOk result (R.refusals report.new ≡ R.refusals report.old) }
    ensures continued { OnOk result (GoesOn R.continues report.old report.new) }
    ensures fault { IfErr result (λ fault. EndsBy fault
        (R.refusals report.old) (R.refusals report.new)) }
{
    for line in lines {
        note_line(session, *line, book);
        answer_line(alloc, session, *line, report)?;
    }
    Ok(())
}

// Whether a life begins with a line, and the one before it ends.
fn begins_life(line: ScriptLine) -> bool
    ensures { result ≡ Rattle.script_runner.specs.Issued.begins_life line }
{
    matches!(line, ScriptLine::Format | ScriptLine::Restore { .. })
}

// Shows a book the life that runs, if one does. It keeps the timing rules.
fn note_life<K, A, B>(session: &Session<K, A>, book: &mut B)
where
    K: ChannelPort + Drop,
    A: Wires<K> + Drop,
    B: LifeBook<K>,
    ensures notes { Notes (of_lives (lists_in session.now)) (B.kept book.old) (B.kept book.new) }
    ensures rules { KeepsRules session.now }
{
    if let Some(life) = session.life() {
        book.end(life);
    }
}

// Shows a book the life that a line ends.
fn note_end<K, A, B>(session: &Session<K, A>, line: ScriptLine, book: &mut B)
where
    K: ChannelPort + Drop,
    A: Wires<K> + Drop,
    B: LifeBook<K>,
    ensures notes { Notes (of_lives (ended_by line session.now))
        (B.kept book.old) (B.kept book.new) }
    ensures rules { Rattle.script_runner.specs.Issued.begins_life line ≡ true
        → KeepsRules session.now }
{
    if !begins_life(line) {
        return;
    }
    note_life(session, book);
}

// Shows a book how the life that runs stands before a line, and the life that it ends.
fn note_line<K, A, B>(session: &Session<K, A>, line: ScriptLine, book: &mut B)
where
    K: ChannelPort + Drop,
    A: Wires<K> + Drop,
    B: LifeBook<K>,
    ensures notes { Notes (kept_before line session.now) (B.kept book.old) (B.kept book.new) }
    ensures rules { Rattle.script_runner.specs.Issued.begins_life line ≡ true
        → KeepsRules session.now }
{
    book.count(session.life());
    note_end(session, line, book);
}

/// Shows a book the life that runs at the end, if one does, which keeps the timing rules, and how it stands.
pub(crate) fn note_last<K, A, B>(session: &Session<K, A>, book: &mut B)
where
    K: ChannelPort + Drop,
    A: Wires<K> + Drop,
    B: LifeBook<K>,
    ensures notes { Notes (kept_last session.now) (B.kept book.old) (B.kept book.new) }
    ensures rules { KeepsRules session.now }
{
    note_life(session, book);
    book.count(session.life());
}

/// How many answers a line may have.
pub fn turns_of(line: ScriptLine) -> u64
    ensures { result ≡ Rattle.script_runner.specs.Story.turns_of line }
{
    match line {
        ScriptLine::Work { most, .. } => most,
        _ => 1,
    }
}

/// Whether more commands may follow this answer.
pub fn is_busy(answer: Answer) -> bool
    ensures { result ≡ Rattle.script_runner.specs.Story.is_busy answer }
{
    !matches!(answer, Answer::Idle { .. })
}

/// Does one line, turn by turn, and reports its answers. Each is true by whatever was known before and borne out by the session, and what
/// is known behind it is borne out too. It refuses where the report does, or where there is no memory for a life.
pub fn answer_line<K, A, R>(
    alloc: Global,
    session: &mut Session<K, A>,
    line: ScriptLine,
    report: &mut R,
) -> Result<(), ScriptFault>
where
    K: ChannelPort + Drop,
    A: Wires<K> + Drop,
    R: Report,
    requires line { NamesChannelOf session.old.profile.checked.geometry line }
    ensures done { OnOk result (DoesLine (line_count_in session.old) line
        (R.answers report.old) (R.answers report.new) session.old session.new) }
    ensures part { IfErr result (λ fault. AnswersPart K.ChannelPort (line_count_in session.old) line
        (R.answers report.old) (R.answers report.new) (moment_in session.old)) }
    ensures unrefused { OnOk result (R.refusals report.new ≡ R.refusals report.old) }
    ensures continued { OnOk result (GoesOn R.continues report.old report.new) }
    ensures fault { IfErr result (λ fault. EndsBy fault
        (R.refusals report.old) (R.refusals report.new)) }
    ensures profile { session.new.profile ≡ session.old.profile }
{
    for _turn in 0..turns_of(line) {
        let answer = answer_of(alloc, session, line)?;
        report.answer(answer)?;
        if !is_busy(answer) {
            return Ok(());
        }
    }
    Ok(())
}

// Does a turn of a line with its own words, and answers by what that came to. It refuses only where there is no memory for a life.
fn answer_of<K, A>(
    alloc: Global,
    session: &mut Session<K, A>,
    line: ScriptLine,
) -> Result<Answer, ScriptFault>
where
    K: ChannelPort + Drop,
    A: Wires<K> + Drop,
    requires line { NamesChannelOf session.old.profile.checked.geometry line }
    ensures truly { IfOk result (λ answer. AnswersTruly K.ChannelPort (line_count_in session.old)
        line answer (moment_in session.old) (moment_in session.new)) }
    ensures does { IfOk result (λ answer. Does line answer session.old session.new) }
    ensures fault { IfErr result (λ fault. fault ≡ ScriptFault.Memory) }
    ensures profile { session.new.profile ≡ session.old.profile }
    ensures wires { session.new.wires ≡ session.old.wires }
{
    Ok(match line {
        ScriptLine::Format => match session.format(alloc) {
            Ok(()) => Answer::Formatted,
            Err(FormatError::Device) => Answer::FormatFault,
            Err(FormatError::Memory) => return Err(ScriptFault::Memory),
        },
        ScriptLine::Restore { pick, map } => {
            restore_answer(session.restore(alloc, pick.unwrap_or(Pick::Old), map))
        }
        ScriptLine::Write(write) => write_answer(session.write(write)),
        ScriptLine::Read { line } => read_answer(line, session.read(line)),
        ScriptLine::Work { channel, .. } => work_answer(channel, session.work(channel)),
        ScriptLine::Save => save_answer(session.save()),
        ScriptLine::Step => step_answer(session.step()),
        ScriptLine::Sense { level } => {
            let Level { reading, mode } = session.sense(level);
            Answer::Level { reading, mode }
        }
        ScriptLine::Arm => arm_answer(session.arm()),
        ScriptLine::Disarm => disarm_answer(session.disarm()),
        ScriptLine::Lose => Answer::Lost(session.lose()),
        ScriptLine::Lie { units } => {
            session.lie(units);
            Answer::Lie { units }
        }
        ScriptLine::Fuse { calls } => {
            session.fuse(calls);
            Answer::Fuse { calls }
        }
        ScriptLine::OneFault { call } => {
            session.fail_one(call.saturating_sub(1));
            Answer::OneFault { call }
        }
        ScriptLine::Mark => Answer::Mark {
            mark: session.mark(),
        },
    })
}
