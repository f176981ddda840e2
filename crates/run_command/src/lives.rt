// The commands of a run's lives, written to files.
use command_faults::{Failure, ProgramFault};
use ddr4_timing::command::Stamped;
use nv_script::Answer;
use script_runner::LifeCommands;
use std::alloc::Global;
use std::fs::{self, File};
use std::io::{self, BufWriter, Write};
use std::rt::Files;

// Writes the commands of a channel, each as a line of a trace.
fn write_channel<W: Write>(writer: &mut W, channel: u64, commands: &[Stamped]) -> io::Result<()> {
    for command in commands {
        let command = *command;
        writeln!(writer, "{}", Answer::Issued { channel, command })?;
    }
    Ok(())
}

// Writes those of all channels of a life, one channel behind another.
fn write_life<W: Write>(writer: &mut W, life: &LifeCommands) -> io::Result<()> {
    for (channel, commands) in life.channels().iter().enumerate() {
        write_channel(writer, channel as u64, commands)?;
    }
    writer.flush()
}

// Writes a life to a file of this name.
fn put_life<R: Files + AllocGlobal>(rt: &R, life: &LifeCommands, name: &str) -> io::Result<()> {
    let file = File::create(rt, name)?;
    let mut writer = BufWriter::new(rt.alloc(), file)?;
    write_life(&mut writer, life)
}

// The name of the file of a life, by how many lives come before it.
fn name_of(alloc: Global, name: &str, before: usize) -> Result<String, ProgramFault<'static>> {
    let number = before.saturating_add(1);
    let text = if before == 0 {
        name.to_string(alloc)
    } else {
        format!(in alloc; "{name}.{number}")
    };
    match text {
        Ok(text) => Ok(text),
        Err(_) => Err(ProgramFault::Memory),
    }
}

/// Writes the commands of the first life to a file of this name, those of the n-th one to a file of the same name with n behind a
/// dot. Where no life ran, the first file has no command.
pub(crate) fn write_lives<'a, R: Files + AllocGlobal>(
    rt: &R,
    lives: &[LifeCommands],
    name: &'a str,
) -> Result<(), Failure<'a>> {
    if lives.is_empty() {
        return match fs::write(rt, name, &[]) {
            Ok(()) => Ok(()),
            Err(error) => Err(Failure::of_file(name, &error)),
        };
    }
    for (before, life) in lives.iter().enumerate() {
        let file = name_of(rt.alloc(), name, before)?;
        if let Err(error) = put_life(rt, life, &file) {
            return Err(Failure::of_file(name, &error));
        }
    }
    Ok(())
}
