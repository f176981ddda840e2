// What is counted of a trace.
use crate::verdicts::checked;
use command_trace::{TraceReader, form_of};
use std::alloc::Global;
use std::str;
use trace_statistics::{measure_trace, write_statistics};

fn counted(alloc: Global, text: &str) -> anyhow::Result<String> {
    let rules = checked()?.rules();
    let form = form_of(alloc, text.as_bytes(), false)?;
    let mut reader = TraceReader::new(alloc, text.as_bytes(), form, 1);
    let measured = measure_trace(&rules, &mut reader)?;
    let mut written = Vec::new(alloc);
    write_statistics(&rules, &measured, &mut written)?;
    Ok(String::from_str(alloc, str::from_utf8(&written)?)?)
}

// Two accesses of a row; one behind a PRE for it; one behind a PREA; and one behind a PRE and a REF.
const TRACE: &str = "0 0 ACT 0 0 0 1
0 16 RD 0 0 0 0
0 22 RD 0 0 0 1
0 30 ACT 0 1 0 0
0 46 WR 0 1 0 2
0 60 PRE 0 0 0
0 76 ACT 0 0 0 0
0 92 RD 0 0 0 3
0 131 PREA 0
0 147 ACT 0 0 0 1
0 163 WR 0 0 0 1
0 200 PRE 0 0 0
0 9360 REF 0
0 9500 ACT 1 0 0 0
0 9516 RD 1 0 0 0
0 9780 ACT 0 0 0 1
0 9796 WR 0 0 0 0
0 9999 PRE 0 0 0
";

const COUNTED: &str =
    "0 channel ACT 6 RD 4 WR 3 PRE 3 hits 1 misses 5 conflicts 1 bus 0.28% bytes 44 PREA 1 REF 1 SRE 0
0 bank 0 0 0 ACT 4 RD 3 WR 2 PRE 3 hits 1 misses 3 conflicts 1 bus 0.20% bytes 32
0 bank 0 1 0 ACT 1 RD 0 WR 1 PRE 0 hits 0 misses 1 conflicts 0 bus 0.04% bytes 6
0 bank 1 0 0 ACT 1 RD 1 WR 0 PRE 0 hits 0 misses 1 conflicts 0 bus 0.04% bytes 6
0 rank 0 REF 1 longest 9360 mean 9360 least 74880 window 9754
0 rank 1 REF 0 longest 0 mean 0 least 74724
";

#[test]
fn numbers_of_a_trace(rt: HostRuntime) -> anyhow::Result<()> {
    assert_eq!(rt; counted(rt.alloc(), TRACE)?.as_str(), COUNTED);
    Ok(())
}

// An access with auto-precharge closes its bank itself: the next one is no hit, and no PRE was made for it.
#[test]
fn numbers_of_accesses_that_close_their_bank(rt: HostRuntime) -> anyhow::Result<()> {
    let trace = "0 0 ACT 0 0 0 1\n0 16 RDA 0 0 0 0\n0 70 ACT 0 0 0 1\n0 86 WRA 0 0 0 1\n";
    let wanted =
        "0 channel ACT 2 RD 1 WR 1 PRE 0 hits 0 misses 2 conflicts 0 bus 9.19% bytes 1471 PREA 0 REF 0 SRE 0
0 bank 0 0 0 ACT 2 RD 1 WR 1 PRE 0 hits 0 misses 2 conflicts 0 bus 9.19% bytes 1471
0 rank 0 REF 0 longest 0 mean 0 least 84154
0 rank 1 REF 0 longest 0 mean 0
";
    assert_eq!(rt; counted(rt.alloc(), trace)?.as_str(), wanted);
    Ok(())
}

// A channel without a command has its line, and one with a fault has none.
#[test]
fn numbers_of_no_command_and_of_a_fault(rt: HostRuntime) -> anyhow::Result<()> {
    assert_eq!(rt;
        counted(rt.alloc(), "")?.as_str(),
        "0 channel ACT 0 RD 0 WR 0 PRE 0 hits 0 misses 0 conflicts 0 bus 0.00% bytes 0 PREA 0 REF 0 SRE 0
0 rank 0 REF 0 longest 0 mean 0
0 rank 1 REF 0 longest 0 mean 0
"
    );
    assert_eq!(rt;
        counted(rt.alloc(), "0 0 ACT 0 0 0 1\n0 15 RD 0 0 0 0\n")?.as_str(),
        ""
    );
    Ok(())
}

// Three refreshes, the second of which comes late, and five activates of a rank, the fifth at the first clock that the window lets it.
const REFRESHED: &str = "0 0 ACT 0 0 0 1
0 4 ACT 0 1 0 1
0 8 ACT 0 0 1 1
0 12 ACT 0 1 1 1
0 26 ACT 0 0 2 1
0 100 PREA 0
0 9360 REF 0
0 30000 REF 0
0 30500 REF 0
0 40000 ACT 0 0 0 1
0 40029 ACT 0 1 0 1
";

#[test]
fn margins_of_a_trace(rt: HostRuntime) -> anyhow::Result<()> {
    let said = counted(rt.alloc(), REFRESHED)?;
    let (_, ranks) = said.split_once("0 rank").expect(&rt, "ranks");
    assert_eq!(rt;
        ranks,
        " 0 REF 3 longest 20640 mean 10166 least 63600 window 0\n0 rank 1 REF 0 longest 0 mean 0\n"
    );
    Ok(())
}
