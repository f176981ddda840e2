// The manual page.
use command_words::{Operand, Switch, Verb, WHY, verbs};
use std::fmt::{self, Display};
use std::io::{self, Write};

// A text of a manual page.
#[derive(Clone, Copy, Drop)]
struct Told<'t>(&'t str);

impl Display for Told<'_> {
    fn fmt<W: fmt::Write>(&self, f: &mut fmt::Formatter<W>) -> fmt::Result {
        for letter in self.0.chars() {
            match letter {
                '-' => f.write_str("\\-")?,
                '\\' => f.write_str("\\e")?,
                _ => write!(f, "{letter}")?,
            }
        }
        Ok(())
    }
}

/// Writes the manual page of the program, in the language of `man`: its verbs, and of each its operands and its options.
pub fn write_page<W: Write>(writer: &mut W) -> io::Result<()> {
    writer.write_all(
        b".TH NVCTL 1\n.SH NAME\nnvctl \\- runs scripts on an NVDIMM\\-N controller\n",
    )?;
    writer.write_all(b".SH SYNOPSIS\n")?;
    for verb in verbs() {
        write_usage(verb, writer)?;
    }
    writer.write_all(b".SH VERBS\n")?;
    for verb in verbs() {
        write_verb(verb, writer)?;
    }
    writer.write_all(b".SH OPTIONS OF ALL VERBS\n")?;
    write_switch(&WHY, writer)?;
    writer.write_all(
        b".SH EXIT STATUS\n0 for a script that ran and for a yes, 2 for a mistake in these words, else 1, with one line on standard error.\n",
    )?;
    writer.write_all(b"Where nobody reads standard output any more it is 141.\n")?;
    writer.write_all(
        b".SH ENVIRONMENT\nWhere NO_COLOR is there and not empty, a fault on a terminal has no color.\n",
    )
}

// How a verb is called.
fn write_usage<W: Write>(verb: &Verb, writer: &mut W) -> io::Result<()> {
    write!(writer, ".br\n\\fBnvctl {}\\fR", verb.name)?;
    for operand in verb.operands {
        let (open, close) = brackets(operand.is_required);
        write!(writer, " {open}\\fI{}\\fR{close}", operand.name)?;
    }
    write_options(verb, writer)?;
    writer.write_all(b"\n")
}

fn write_options<W: Write>(verb: &Verb, writer: &mut W) -> io::Result<()> {
    for switch in verb.switches {
        write!(writer, " [\\fB\\-\\-{}\\fR", Told(switch.name))?;
        if let Some(value) = switch.value {
            write!(writer, " \\fI{}\\fR", value.name)?;
        }
        writer.write_all(b"]")?;
    }
    Ok(())
}

fn brackets(is_required: bool) -> (&'static str, &'static str) {
    if is_required { ("", "") } else { ("[", "]") }
}

fn write_verb<W: Write>(verb: &Verb, writer: &mut W) -> io::Result<()> {
    writeln!(writer, ".SS nvctl {}\n{}.", verb.name, Told(verb.about))?;
    for operand in verb.operands {
        write_operand(operand, writer)?;
    }
    for switch in verb.switches {
        write_switch(switch, writer)?;
    }
    Ok(())
}

fn write_operand<W: Write>(operand: &Operand, writer: &mut W) -> io::Result<()> {
    writeln!(
        writer,
        ".TP\n\\fI{}\\fR\n{}.",
        operand.name,
        Told(operand.help)
    )
}

fn write_switch<W: Write>(switch: &Switch, writer: &mut W) -> io::Result<()> {
    write!(writer, ".TP\n\\fB\\-\\-{}\\fR", Told(switch.name))?;
    if let Some(value) = switch.value {
        write!(writer, " \\fI{}\\fR", value.name)?;
    }
    writeln!(writer, "\n{}.", Told(switch.help))
}
