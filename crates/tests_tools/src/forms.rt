// The two forms of a trace, and lines that are no command.
use crate::verdicts::verdicts;
use command_trace::{TraceFault, TraceReader, form_of};
use std::process::Abort;
use std::test::Fail;

fn tells<R: Abort + AllocGlobal>(rt: &R, text: &str, wanted: &str) -> Result<(), Fail> {
    let said = verdicts(rt.alloc(), text, false)?;
    assert_eq!(*rt; said.as_str(), wanted);
    Ok(())
}

const TABLE: &str = "# written by a simulator
clock,command,channel,rank,bankgroup,bank,row,column
0,ACTIVATE,0,0,0,0,1,
16,read,0,0,0,0,,3
30,WRITE,0,0,0,0,,3

64,PRECHARGE,0,0,0,0,,
9360,Refresh,0,0,,,,
9780,sref_enter,0,0,,,,
";

#[test]
fn a_table(rt: HostRuntime) -> Result<(), Fail> {
    tells(&rt, TABLE, "lawful 6")?;
    let dos = TABLE.replace(rt.alloc(), "\n", "\r\n")?;
    tells(&rt, &dos, "lawful 6")?;
    let early = TABLE.replace(rt.alloc(), "64,", "63,")?;
    tells(
        &rt,
        &early,
        "fault 8, WR to PRE, same bank: at least CWL + 4 + tWR = 34, here 33; line 5: 30 WR 0 0 0 3; line 7: 63 PRE 0 0 0",
    )
}

// The trace has a line that is no command.
fn refuses<R: Abort + AllocGlobal>(rt: &R, text: &str) -> Result<(), Fail> {
    let said = verdicts(rt.alloc(), text, false);
    assert!(*rt; said.is_err(), "{text}");
    Ok(())
}

#[test]
fn bad_lines(rt: HostRuntime) -> Result<(), Fail> {
    for line in [
        "0 5 ACT 0 0 0",
        "0 5 ACT 0 0 0 0 0",
        "0 5 act 0 0 0 0",
        "1 5 REF 0",
        "0 -5 REF 0",
        "0 +5 REF 0",
        "0 9223372036854775808 REF 0",
        "0 18446744073709551616 REF 0",
        "0  5 REF 0",
        "x",
        "0",
        "formatted",
    ] {
        refuses(&rt, line)?;
    }
    refuses(
        &rt,
        "command,clock,channel,rank,bankgroup,bank,row,column\n",
    )?;
    refuses(
        &rt,
        "clock,command,channel,rank,bankgroup,bank,row,column\n0,PRE,0,0,0,0,1,\n",
    )?;
    refuses(
        &rt,
        "clock,command,channel,rank,bankgroup,bank,row,column\n0,NOP,0,,,,,\n",
    )
}

#[test]
fn a_run(rt: HostRuntime) -> Result<(), Fail> {
    let text =
        "formatted\naccepted 0 mark 0\n0 0 ACT 0 0 0 0\n0 16 WR 0 0 0 0\n0 idle\nlevel 9000 armed\n";
    let said = verdicts(rt.alloc(), text, true)?;
    assert_eq!(rt; said.as_str(), "lawful 2");
    refuses(&rt, text)?;
    tells(&rt, "", "lawful 0")?;
    tells(&rt, "0 1 SRE 0", "lawful 1")
}

// Twenty digits may fit 64 bits and may not.
#[test]
fn long_numbers(rt: HostRuntime) -> Result<(), Fail> {
    tells(&rt, "0 00000000000000009360 REF 0", "lawful 1")?;
    for (line, wanted) in [
        (
            "0 9223372036854775807 RD 0 0 0 18446744073709551615",
            "fault 2, RD wants a place of the geometry; line 1: 9223372036854775807 RD 0 0 0 18446744073709551615",
        ),
        (
            "0 0 RD 0 0 0 9999999999999999999",
            "fault 2, RD wants a place of the geometry; line 1: 0 RD 0 0 0 9999999999999999999",
        ),
    ] {
        tells(&rt, line, wanted)?;
    }
    for line in [
        "0 0 RD 0 0 0 18446744073709551616",
        "0 0 RD 0 0 0 99999999999999999999",
        "0 0 RD 0 0 0 000000000000000000x1",
        "0 0 RD 0 0 0 00000000000000000x1",
    ] {
        why(
            &rt,
            line,
            "1: the column is a number: decimal digits that fit 64 bits",
        )?;
    }
    Ok(())
}

// Why a line is no command, in a trace of one channel.
fn why<R: Abort + AllocGlobal>(rt: &R, text: &str, wanted: &str) -> Result<(), Fail> {
    let form = form_of(rt.alloc(), text.as_bytes(), false)?;
    let mut reader = TraceReader::new(rt.alloc(), text.as_bytes(), form, 1);
    let said = match reader.next() {
        Err(TraceFault::Line { line, why }) => format!(in rt.alloc(); "{line}: {why}")?,
        _ => format!(in rt.alloc(); "none")?,
    };
    assert_eq!(*rt; said.as_str(), wanted);
    Ok(())
}

#[test]
fn reasons_of_lines(rt: HostRuntime) -> Result<(), Fail> {
    for (line, wanted) in [
        (
            "0 5",
            "1: a channel, a clock and a name are wanted, with one space between two words",
        ),
        (
            "\n0  5 REF 0",
            "2: the clock is a number: decimal digits that fit 64 bits",
        ),
        (
            "x 5 REF 0",
            "1: the channel is a number: decimal digits that fit 64 bits",
        ),
        (
            "0 5 NOP 0",
            "1: the names of commands are ACT, RD, WR, RDA, WRA, PRE, PREA, REF and SRE",
        ),
        (
            "0 5 RD 0 0 0",
            "1: RD has these numbers behind it: rank group bank column",
        ),
        (
            "0 5 ACT 0 0 0 a",
            "1: the row is a number: decimal digits that fit 64 bits",
        ),
        ("1 5 REF 0", "1: channel 1, and this profile has 1"),
        ("0 9223372036854775808 REF 0", "1: a clock is below 2^63"),
    ] {
        why(&rt, line, wanted)?;
    }
    Ok(())
}

#[test]
fn reasons_of_rows(rt: HostRuntime) -> Result<(), Fail> {
    for (rows, wanted) in [
        ("0,5", "2: a table has 8 columns, here 2"),
        (
            "0,NOP,0,,,,,",
            "2: the names of commands are ACT, RD, WR, RDA, WRA, PRE, PREA, REF and SRE",
        ),
        (
            "0,PRE,0,0,0,,,",
            "2: the bank is a number: decimal digits that fit 64 bits",
        ),
        (
            "0,PRE,0,0,0,0,1,",
            "2: PRE has no row: that column is to be empty",
        ),
    ] {
        let text = format!(in rt.alloc(); "{HEADER_LINE}\n{rows}\n")?;
        why(&rt, &text, wanted)?;
    }
    why(
        &rt,
        "command,clock\n",
        "1: the header of a table is clock,command,channel,rank,bankgroup,bank,row,column",
    )
}

const HEADER_LINE: &str = "clock,command,channel,rank,bankgroup,bank,row,column";

// A read with auto-precharge: tRAS lets its bank close at 39, and the ACT of another bank goes at that very clock.
const CLOSING: &str = "0 0 ACT 0 0 0 1
0 16 RDA 0 0 0 3
0 39 ACT 0 1 0 1
0 55 ACT 0 0 0 0
";

#[test]
fn auto_precharge(rt: HostRuntime) -> Result<(), Fail> {
    tells(&rt, CLOSING, "lawful 4")?;
    let early = CLOSING.replace(rt.alloc(), "0 55", "0 54")?;
    tells(
        &rt,
        &early,
        "fault 5, PRE to ACT, same bank or rank: at least tRP = 16, here 15; line 2: 39 PRE 0 0 0; line 4: 54 ACT 0 0 0 0",
    )?;
    let read = CLOSING.replace(rt.alloc(), "0 39 ACT 0 1 0 1", "0 22 RD 0 0 0 1")?;
    tells(
        &rt,
        &read,
        "fault 2, RD wants its bank open, and an auto-precharge is about to close it; line 3: 22 RD 0 0 0 1",
    )
}
