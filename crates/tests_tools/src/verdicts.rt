// What a check tells of a trace.
use command_trace::{
    Form, Source, TraceReader, check_trace, diagnose, form_of, list_commands, list_issued, tallies,
};
use ddr4_timing::profiles::TINY;
use ddr4_timing::timing::{Checked, Geometry, ProfileError};
use std::alloc::Global;
use std::fmt::Write;

/// One channel of two ranks.
const TWO_RANKS: Geometry = Geometry {
    channels: 1,
    ranks: 2,
    groups: 2,
    banks: 4,
    rows: 2,
    columns: 4,
};

pub(crate) fn checked() -> Result<Checked, ProfileError> {
    TINY.check(&TWO_RANKS)
}

/// The verdict on each channel of a trace, a line each.
pub(crate) fn verdicts(alloc: Global, text: &str, others: bool) -> anyhow::Result<String> {
    verdicts_of(alloc, text, form_of(alloc, text.as_bytes(), others)?)
}

/// The same of a trace of this form.
pub(crate) fn verdicts_of(alloc: Global, text: &str, form: Form) -> anyhow::Result<String> {
    let rules = checked()?.rules();
    let mut reader = TraceReader::new(alloc, text.as_bytes(), form, 1);
    let check = check_trace(&rules, &mut reader)?;
    let mut said = format!(in alloc; "")?;
    if check.are_lawful(&rules) {
        write!(said, "lawful {}", check.count(0))?;
        return Ok(said);
    }
    let mut again = TraceReader::new(alloc, text.as_bytes(), form, 1);
    let issued = list_issued(alloc, &mut again, 0, check.line(0))?;
    match diagnose(alloc, &rules, &issued)? {
        Some(found) => write!(said, "fault {found}")?,
        None => write!(said, "no fault")?,
    }
    Ok(said)
}

// The rules that a trace of one channel breaks, a line each.
fn broken(alloc: Global, text: &str) -> anyhow::Result<String> {
    let rules = checked()?.rules();
    let form = form_of(alloc, text.as_bytes(), false)?;
    let mut reader = TraceReader::new(alloc, text.as_bytes(), form, 1);
    let listed = list_commands(alloc, &mut reader, 0, u64::MAX)?;
    let mut said = format!(in alloc; "")?;
    for tally in &tallies(alloc, &rules, &listed)? {
        writeln!(said, "{tally}")?;
    }
    Ok(said)
}

// A second row is opened in an open bank, and closed too soon; then a read and a write go to the closed bank, and a command to a
// place that isn't there. Behind it all a read of another bank is lawful.
const UNLAWFUL: &str = "0 0 ACT 0 0 0 1
0 1 ACT 0 0 0 0
0 2 PREA 0
0 100 RD 0 0 0 3
0 120 WR 0 0 0 3
0 130 RD 0 9 0 0
0 200 ACT 0 1 0 1
0 216 RD 0 1 0 2
";

const BROKEN: &str = "2, ACT wants its bank closed; line 2: 1 ACT 0 0 0 0; the first of 4
4, ACT to PREA, same bank: at least tRAS = 39, here 2; line 1: 0 ACT 0 0 0 1; line 3: 2 PREA 0; the first of 1
6, ACT to ACT, same bank: at least tRAS + tRP = 55, here 1; line 1: 0 ACT 0 0 0 1; line 2: 1 ACT 0 0 0 0; the first of 1
9, ACT to ACT, same bank group: at least tRRD_L = 6, here 1; line 1: 0 ACT 0 0 0 1; line 2: 1 ACT 0 0 0 0; the first of 1
";

#[test]
fn rules_that_are_broken(rt: HostRuntime) -> anyhow::Result<()> {
    assert_eq!(rt; broken(rt.alloc(), UNLAWFUL)?.as_str(), BROKEN);
    assert_eq!(rt; broken(rt.alloc(), "0 0 ACT 0 0 0 1\n")?.as_str(), "");
    Ok(())
}

/// The most that commands alone may have.
const MOST: Geometry = Geometry {
    channels: 8,
    ranks: 8,
    groups: 4,
    banks: 4,
    rows: 1 << 18,
    columns: 1 << 10,
};

// The line of the first command of the last channel that isn't lawful there; 0 where all are.
fn line_of_a_fault(alloc: Global, text: &str) -> anyhow::Result<u64> {
    let rules = TINY.check_commands(&MOST)?;
    let form = form_of(alloc, text.as_bytes(), false)?;
    let mut reader = TraceReader::new(alloc, text.as_bytes(), form, 8);
    Ok(check_trace(&rules, &mut reader)?.line(7))
}

#[test]
fn the_last_bank_of_a_trace(rt: HostRuntime) -> anyhow::Result<()> {
    for (text, line) in [
        ("7 0 ACT 7 3 3 262143\n7 16 RD 7 3 3 1023\n", 0),
        ("7 0 ACT 7 3 3 262143\n7 15 RD 7 3 3 1023\n", 2),
        ("7 0 ACT 7 3 3 262144\n", 1),
        ("7 0 ACT 7 3 3 262143\n7 16 RD 7 3 3 1024\n", 2),
        ("7 0 ACT 8 3 3 262143\n", 1),
    ] {
        assert_eq!(rt; line_of_a_fault(rt.alloc(), text)?, line, "{text}");
    }
    Ok(())
}

// A lawful channel, one with a read too soon and then one of a closed bank, and one with the latter alone.
const APART: &str = "0 0 ACT 0 0 0 1
3 0 ACT 0 0 0 1
7 0 ACT 0 0 0 1
3 15 RD 0 0 0 3
7 16 RD 0 1 0 3
3 20 RD 0 1 0 2
0 16 RD 0 0 0 2
";

const APART_TOLD: &str = "0 lawful
3 fault 3, ACT to RD, same bank: at least tRCD = 16, here 15; line 2: 0 ACT 0 0 0 1; line 4: 15 RD 0 0 0 3
3 breaks 2, RD wants its bank open; line 6: 20 RD 0 1 0 2; the first of 1
3 breaks 3, ACT to RD, same bank: at least tRCD = 16, here 15; line 2: 0 ACT 0 0 0 1; line 4: 15 RD 0 0 0 3; the first of 1
7 fault 2, RD wants its bank open; line 5: 16 RD 0 1 0 3
7 breaks 2, RD wants its bank open; line 5: 16 RD 0 1 0 3; the first of 1
";

#[test]
fn faults_of_channels_apart(rt: HostRuntime) -> anyhow::Result<()> {
    let rules = TINY.check_commands(&MOST)?;
    let source = Source::Bytes(APART.as_bytes().to_vec(rt.alloc())?);
    let form = source.form(&rt, false)?;
    let check = source.check(&rt, form, &rules)?;
    let mut said = format!(in rt.alloc(); "")?;
    for channel in [0, 3, 7] {
        match source.diagnosis(&rt, form, &rules, &check, channel)? {
            Some(found) => writeln!(said, "{channel} fault {found}")?,
            None => writeln!(said, "{channel} lawful")?,
        }
        for tally in &source.tallies(&rt, form, &rules, channel)? {
            writeln!(said, "{channel} breaks {tally}")?;
        }
    }
    assert_eq!(rt; said.as_str(), APART_TOLD);
    Ok(())
}
