// Traces in the forms of others: what is read of them, and each rule broken once. They are made by hand from what the sources of
// Ramulator 2.0 and DRAMsim3 write.
use crate::verdicts::verdicts_of;
use command_trace::{Form, TraceFault, TraceReader};
use std::alloc::Global;
use std::process::Abort;
use trace_forms::ForeignForm;

fn form_named(name: &str) -> anyhow::Result<Form> {
    match ForeignForm::named(name) {
        Some(form) => Ok(Form::Foreign(form)),
        None => Err(anyhow::Error::msg("no form")),
    }
}

fn tells<R: Abort + AllocGlobal>(
    rt: &R,
    form: Form,
    text: &str,
    wanted: &str,
) -> anyhow::Result<()> {
    let said = verdicts_of(rt.alloc(), text, form)?;
    assert_eq!(*rt; said.as_str(), wanted, "{text}");
    Ok(())
}

const RAMULATOR2: &str = "0, ACT, 0, 0, 0, 0, 1, 3
6, ACT, 0, 0, 0, 1, 0, 0
16, RD, 0, 0, 0, 0, 1, 3
22, RDA, 0, 0, 0, 1, 0, 0
32, WR, 0, 0, 0, 0, 1, 2
66, PRE, 0, 0, 0, 0, 1, 2
82, ACT, 0, 0, 0, 0, 0, 1
98, WRA, 0, 0, 0, 0, 0, 1
9360, REFab, 0, 0, -1, -1, -1, -1
9370, REFab, 0, 1, -1, -1, -1, -1
";

const DRAMSIM3: &str = "0                  activate               0   0   0   0      0x1      0x3
6                  activate               0   0   0   1      0x0      0x0
16                 read                   0   0   0   0      0x1      0x3
22                 read_p                 0   0   0   1      0x0      0x0
32                 write                  0   0   0   0      0x1      0x2
66                 precharge              0   0   0   0      0x1      0x2
82                 activate               0   0   0   0      0x0      0x1
98                 write_p                0   0   0   0      0x0      0x1
9360               refresh               -1   0  -1  -1     -0x1     -0x1
9370               refresh               -1   1  -1  -1     -0x1     -0x1
";

const PLAIN: &str = "0 ACT 0 0 0 0 1 3
6 ACT 0 0 0 1 0 0
16 RD 0 0 0 0 1 3
22 RDA 0 0 0 1 0 0
32 WR 0 0 0 0 1 2
66 PRE 0 0 0 0 1 2
82 ACT 0 0 0 0 0 1
98 WRA 0 0 0 0 0 1
9360 REF 0 0 - - - -
9370 REF 0 1 - - - -
";

#[test]
fn traces_of_others(rt: HostRuntime) -> anyhow::Result<()> {
    for (name, text) in [
        ("ramulator2", RAMULATOR2),
        ("dramsim3", DRAMSIM3),
        ("plain", PLAIN),
    ] {
        tells(&rt, form_named(name)?, text, "lawful 10")?;
        let dos = text.replace(rt.alloc(), "\n", "\r\n")?;
        tells(&rt, form_named(name)?, &dos, "lawful 10")?;
    }
    Ok(())
}

// The rule on the cycle of a bank is never the least.
const FAULTS: [&str; 15] = [
    "fault 1, clocks rise: after 5, here 3; line 1: 5 ACT 0 0 0 0; line 2: 3 ACT 0 1 0 0",
    "fault 2, RD wants its bank open; line 1: 5 RD 0 0 0 3",
    "fault 3, ACT to RD, same bank: at least tRCD = 16, here 15; line 1: 0 ACT 0 0 0 1; line 2: 15 RD 0 0 0 3",
    "fault 4, ACT to PRE, same bank: at least tRAS = 39, here 38; line 1: 0 ACT 0 0 0 1; line 2: 38 PRE 0 0 0",
    "fault 5, PRE to ACT, same bank or rank: at least tRP = 16, here 15; line 2: 39 PRE 0 0 0; line 3: 54 ACT 0 0 0 0",
    "fault 7, RD to PRE, same bank: at least tRTP = 9, here 8; line 2: 35 RD 0 0 0 3; line 3: 43 PRE 0 0 0",
    "fault 8, WR to PRE, same bank: at least CWL + 4 + tWR = 34, here 33; line 2: 16 WR 0 0 0 3; line 3: 49 PRE 0 0 0",
    "fault 9, ACT to ACT, same bank group: at least tRRD_L = 6, here 5; line 1: 0 ACT 0 0 0 1; line 2: 5 ACT 0 0 1 0",
    "fault 10, ACT to the fourth ACT after it, same rank: at least tFAW = 26, here 25; line 1: 0 ACT 0 0 0 1; line 5: 25 ACT 0 0 2 1",
    "fault 11, RD to RD, same bank group: at least tCCD_L = 6, here 5; line 2: 16 RD 0 0 0 0; line 3: 21 RD 0 0 0 1",
    "fault 12, WR to RD, other bank group: at least CWL + 4 + tWTR_S = 19, here 18; line 3: 20 WR 0 0 0 0; line 4: 38 RD 0 1 0 1",
    "fault 13, RD to WR, same channel: at least tRTW = 10, here 9; line 2: 16 RD 0 0 0 0; line 3: 25 WR 0 0 0 1",
    "fault 14, RD to RD, other rank: at least 4 + tCS = 6, here 5; line 3: 17 RD 0 0 0 0; line 4: 22 RD 1 0 0 1",
    "fault 15, REF to ACT, same rank: at least tRFC = 420, here 419; line 1: 9360 REF 0; line 2: 9779 ACT 0 0 0 1",
    "fault 16, REF number 1 of its rank: not before 1 tREFI = 9360, here 9359; line 1: 9359 REF 0",
];

const RAMULATOR2_FAULTS: [&str; 15] = [
    "5, ACT, 0, 0, 0, 0, 0, 0\n3, ACT, 0, 0, 1, 0, 0, 0\n",
    "5, RD, 0, 0, 0, 0, 1, 3\n",
    "0, ACT, 0, 0, 0, 0, 1, 3\n15, RD, 0, 0, 0, 0, 1, 3\n",
    "0, ACT, 0, 0, 0, 0, 1, 3\n38, PRE, 0, 0, 0, 0, 1, 3\n",
    "0, ACT, 0, 0, 0, 0, 1, 3\n39, PRE, 0, 0, 0, 0, 1, 3\n54, ACT, 0, 0, 0, 0, 0, 0\n",
    "0, ACT, 0, 0, 0, 0, 1, 3\n35, RD, 0, 0, 0, 0, 1, 3\n43, PRE, 0, 0, 0, 0, 1, 3\n",
    "0, ACT, 0, 0, 0, 0, 1, 3\n16, WR, 0, 0, 0, 0, 1, 3\n49, PRE, 0, 0, 0, 0, 1, 3\n",
    "0, ACT, 0, 0, 0, 0, 1, 3\n5, ACT, 0, 0, 0, 1, 0, 0\n",
    "0, ACT, 0, 0, 0, 0, 1, 3\n4, ACT, 0, 0, 1, 0, 1, 3\n8, ACT, 0, 0, 0, 1, 1, 3\n12, ACT, 0, 0, 1, 1, 1, 3\n25, ACT, 0, 0, 0, 2, 1, 3\n",
    "0, ACT, 0, 0, 0, 0, 1, 0\n16, RD, 0, 0, 0, 0, 1, 0\n21, RD, 0, 0, 0, 0, 1, 1\n",
    "0, ACT, 0, 0, 0, 0, 1, 0\n4, ACT, 0, 0, 1, 0, 1, 1\n20, WR, 0, 0, 0, 0, 1, 0\n38, RD, 0, 0, 1, 0, 1, 1\n",
    "0, ACT, 0, 0, 0, 0, 1, 0\n16, RD, 0, 0, 0, 0, 1, 0\n25, WR, 0, 0, 0, 0, 1, 1\n",
    "0, ACT, 0, 0, 0, 0, 1, 0\n1, ACT, 0, 1, 0, 0, 1, 1\n17, RD, 0, 0, 0, 0, 1, 0\n22, RD, 0, 1, 0, 0, 1, 1\n",
    "9360, REFab, 0, 0, -1, -1, -1, -1\n9779, ACT, 0, 0, 0, 0, 1, 3\n",
    "9359, REFab, 0, 0, -1, -1, -1, -1\n",
];

const DRAMSIM3_FAULTS: [&str; 15] = [
    "5                  activate               0   0   0   0      0x0      0x0\n3                  activate               0   0   1   0      0x0      0x0\n",
    "5                  read                   0   0   0   0      0x1      0x3\n",
    "0                  activate               0   0   0   0      0x1      0x3\n15                 read                   0   0   0   0      0x1      0x3\n",
    "0                  activate               0   0   0   0      0x1      0x3\n38                 precharge              0   0   0   0      0x1      0x3\n",
    "0                  activate               0   0   0   0      0x1      0x3\n39                 precharge              0   0   0   0      0x1      0x3\n54                 activate               0   0   0   0      0x0      0x0\n",
    "0                  activate               0   0   0   0      0x1      0x3\n35                 read                   0   0   0   0      0x1      0x3\n43                 precharge              0   0   0   0      0x1      0x3\n",
    "0                  activate               0   0   0   0      0x1      0x3\n16                 write                  0   0   0   0      0x1      0x3\n49                 precharge              0   0   0   0      0x1      0x3\n",
    "0                  activate               0   0   0   0      0x1      0x3\n5                  activate               0   0   0   1      0x0      0x0\n",
    "0                  activate               0   0   0   0      0x1      0x3\n4                  activate               0   0   1   0      0x1      0x3\n8                  activate               0   0   0   1      0x1      0x3\n12                 activate               0   0   1   1      0x1      0x3\n25                 activate               0   0   0   2      0x1      0x3\n",
    "0                  activate               0   0   0   0      0x1      0x0\n16                 read                   0   0   0   0      0x1      0x0\n21                 read                   0   0   0   0      0x1      0x1\n",
    "0                  activate               0   0   0   0      0x1      0x0\n4                  activate               0   0   1   0      0x1      0x1\n20                 write                  0   0   0   0      0x1      0x0\n38                 read                   0   0   1   0      0x1      0x1\n",
    "0                  activate               0   0   0   0      0x1      0x0\n16                 read                   0   0   0   0      0x1      0x0\n25                 write                  0   0   0   0      0x1      0x1\n",
    "0                  activate               0   0   0   0      0x1      0x0\n1                  activate               0   1   0   0      0x1      0x1\n17                 read                   0   0   0   0      0x1      0x0\n22                 read                   0   1   0   0      0x1      0x1\n",
    "9360               refresh               -1   0  -1  -1     -0x1     -0x1\n9779               activate               0   0   0   0      0x1      0x3\n",
    "9359               refresh               -1   0  -1  -1     -0x1     -0x1\n",
];

const PLAIN_FAULTS: [&str; 15] = [
    "5 ACT 0 0 0 0 0 0\n3 ACT 0 0 1 0 0 0\n",
    "5 RD 0 0 0 0 1 3\n",
    "0 ACT 0 0 0 0 1 3\n15 RD 0 0 0 0 1 3\n",
    "0 ACT 0 0 0 0 1 3\n38 PRE 0 0 0 0 1 3\n",
    "0 ACT 0 0 0 0 1 3\n39 PRE 0 0 0 0 1 3\n54 ACT 0 0 0 0 0 0\n",
    "0 ACT 0 0 0 0 1 3\n35 RD 0 0 0 0 1 3\n43 PRE 0 0 0 0 1 3\n",
    "0 ACT 0 0 0 0 1 3\n16 WR 0 0 0 0 1 3\n49 PRE 0 0 0 0 1 3\n",
    "0 ACT 0 0 0 0 1 3\n5 ACT 0 0 0 1 0 0\n",
    "0 ACT 0 0 0 0 1 3\n4 ACT 0 0 1 0 1 3\n8 ACT 0 0 0 1 1 3\n12 ACT 0 0 1 1 1 3\n25 ACT 0 0 0 2 1 3\n",
    "0 ACT 0 0 0 0 1 0\n16 RD 0 0 0 0 1 0\n21 RD 0 0 0 0 1 1\n",
    "0 ACT 0 0 0 0 1 0\n4 ACT 0 0 1 0 1 1\n20 WR 0 0 0 0 1 0\n38 RD 0 0 1 0 1 1\n",
    "0 ACT 0 0 0 0 1 0\n16 RD 0 0 0 0 1 0\n25 WR 0 0 0 0 1 1\n",
    "0 ACT 0 0 0 0 1 0\n1 ACT 0 1 0 0 1 1\n17 RD 0 0 0 0 1 0\n22 RD 0 1 0 0 1 1\n",
    "9360 REF 0 0 - - - -\n9779 ACT 0 0 0 0 1 3\n",
    "9359 REF 0 0 - - - -\n",
];

// Each text of a form's has its fault.
fn tells_each<R: Abort + AllocGlobal>(rt: &R, name: &str, texts: &[&str]) -> anyhow::Result<()> {
    for (text, fault) in texts.iter().zip(FAULTS.iter()) {
        tells(rt, form_named(name)?, text, fault)?;
    }
    Ok(())
}

#[test]
fn faults_in_traces_of_others(rt: HostRuntime) -> anyhow::Result<()> {
    tells_each(&rt, "ramulator2", &RAMULATOR2_FAULTS)?;
    tells_each(&rt, "dramsim3", &DRAMSIM3_FAULTS)?;
    tells_each(&rt, "plain", &PLAIN_FAULTS)
}

// What a reader tells of the first line of a trace of one channel.
fn told(alloc: Global, form: Form, text: &str) -> anyhow::Result<String> {
    let mut reader = TraceReader::new(alloc, text.as_bytes(), form, 1);
    let said = match reader.next() {
        Ok(Some(found)) => format!(in alloc; "{} {}", found.entry.channel, found.entry.command)?,
        Err(TraceFault::Line { line, why }) => format!(in alloc; "{line}: {why}")?,
        _ => format!(in alloc; "none")?,
    };
    Ok(said)
}

const NO_RAMULATOR2: &str =
    "1: a line of ramulator2 is CLOCK, COMMAND, CHANNEL, RANK, GROUP, BANK, ROW, COLUMN, with a comma between two";

const NO_DRAMSIM3: &str =
    "1: a line of dramsim3 is CLOCK COMMAND CHANNEL RANK GROUP BANK ROW COLUMN, the last two behind 0x";

const NO_PLAIN: &str =
    "1: a plain line is CLOCK COMMAND CHANNEL RANK GROUP BANK ROW COLUMN, with spaces between two";

// Each limit at and past it, other forms, and a line that ends too soon.
const FIRST_LINES: [(&str, &str, &str); 21] = [
    (
        "ramulator2",
        "9223372036854775807, PRE, 0, 0, 0, 0, 0, 0",
        "0 9223372036854775807 PRE 0 0 0",
    ),
    (
        "ramulator2",
        "9223372036854775808, PRE, 0, 0, 0, 0, 0, 0",
        "1: a clock is below 2^63",
    ),
    (
        "ramulator2",
        "1, RD, 0, 0, 0, 0, -1, 18446744073709551615",
        "0 1 RD 0 0 0 18446744073709551615",
    ),
    (
        "ramulator2",
        "1, RD, 0, 0, 0, 0, -1, 18446744073709551616",
        "1: the column is a number: decimal digits that fit 64 bits",
    ),
    (
        "ramulator2",
        "1, PRE, 1, 0, 0, 0, 0, 0",
        "1: channel 1, and this profile has 1",
    ),
    ("ramulator2", "1, PRE, 0, 0, 0", NO_RAMULATOR2),
    ("ramulator2", "1, PRE, 0, 0, 0, 0, 0, 0, 0", NO_RAMULATOR2),
    ("ramulator2", "1 PRE 0 0 0 0 0 0", NO_RAMULATOR2),
    ("ramulator2", "0 1 PRE 0 0 0", NO_RAMULATOR2),
    (
        "ramulator2",
        "1, REFpb, 0, 0, 0, 0, 0, 0",
        "1: the names of commands are ACT, RD, WR, RDA, WRA, PRE, PREA, REF and SRE",
    ),
    (
        "dramsim3",
        "1 write 7 0 0 0 0x0 0xffffffffffffffff",
        "0 1 WR 0 0 0 18446744073709551615",
    ),
    (
        "dramsim3",
        "1 write 7 0 0 0 0x0 0x10000000000000000",
        "1: the column is a number behind 0x: digits of base 16 that fit 64 bits",
    ),
    (
        "dramsim3",
        "1 activate 0 0 0 0 7 0",
        "1: the row is a number behind 0x: digits of base 16 that fit 64 bits",
    ),
    (
        "dramsim3",
        "1 activate 0 0 -1 0 0x7 0x0",
        "1: the group is a number: decimal digits that fit 64 bits",
    ),
    ("dramsim3", "1, ACT, 0, 0, 0, 0, 1, 3", NO_DRAMSIM3),
    ("dramsim3", "1 activate 0 0 0 0 0x7", NO_DRAMSIM3),
    (
        "plain",
        "  1 PREA - 0 - -  - -",
        "1: the channel is a number: decimal digits that fit 64 bits",
    ),
    ("plain", "  1 PREA 0 0 - -  - -", "0 1 PREA 0"),
    ("plain", "0 1 PREA 0", NO_PLAIN),
    ("plain", "1 ACT 0 0 0 0 1", NO_PLAIN),
    ("plain", "1 ACT 0 0 0 0 1 1\0", NO_PLAIN),
];

#[test]
fn lines_of_others(rt: HostRuntime) -> anyhow::Result<()> {
    for (name, line, wanted) in FIRST_LINES {
        let said = told(rt.alloc(), form_named(name)?, line)?;
        assert_eq!(rt; said.as_str(), wanted, "{line}");
    }
    Ok(())
}

// Columns, a line, and what is told of it, or of the columns.
const COLUMNS: [(&str, &str, &str); 10] = [
    (
        "clock,command,rank,group,bank,row,column",
        "5 act 1 0 1 1 -",
        "0 5 ACT 1 0 1 1",
    ),
    (
        "clock,command,rank,group,bank,row,column",
        "5,act,1,0,1,1,",
        "0 5 ACT 1 0 1 1",
    ),
    (
        "column,row,bank,group,-,rank,command,clock,channel",
        "3 1 0 1 x 0 Read 7 0",
        "0 7 RD 0 1 0 3",
    ),
    (
        "column,row,bank,group,-,rank,command,clock,channel",
        "3,1,0,1,,0,Read,7,0",
        "0 7 RD 0 1 0 3",
    ),
    (
        "clock,command,rank,group,bank,row,column",
        "5 act 1 0 1 1",
        "1: a line has as many words as --columns names, with commas or with spaces between two",
    ),
    (
        "clock,command,rank,group,bank,row,row",
        "",
        "row stands twice",
    ),
    (
        "clock,command,rank,group,bank,row",
        "5 rd 1 0 1 1",
        "1: no column is named column",
    ),
    (
        "clock,command,rank,group,bank,row",
        "5 act 1 0 1 1",
        "0 5 ACT 1 0 1 1",
    ),
    (
        "clock,command,rank,bankgroup,bank,row,column",
        "",
        "columns are clock, command, channel, rank, group, bank, row and column, and - for one that is passed over",
    ),
    (
        "",
        "",
        "columns are clock, command, channel, rank, group, bank, row and column, and - for one that is passed over",
    ),
];

#[test]
fn columns_that_are_named(rt: HostRuntime) -> anyhow::Result<()> {
    for (names, line, wanted) in COLUMNS {
        let said = match ForeignForm::of_columns(rt.alloc(), names) {
            Ok(form) => told(rt.alloc(), Form::Foreign(form), line)?,
            Err(why) => why.to_string(rt.alloc())?,
        };
        assert_eq!(rt; said.as_str(), wanted, "{names}: {line}");
    }
    Ok(())
}
