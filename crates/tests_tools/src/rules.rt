// Each rule broken once, by hand. Only the rule on the cycle of a bank can't be the least: a bank is closed between two ACT, and
// the rules on that ask for as much.
use crate::verdicts::verdicts;
use std::process::Abort;
use std::test::Fail;

fn tells<R: Abort + AllocGlobal>(rt: &R, text: &str, wanted: &str) -> Result<(), Fail> {
    let said = verdicts(rt.alloc(), text, false)?;
    assert_eq!(*rt; said.as_str(), wanted);
    Ok(())
}

#[test]
fn order_and_rows(rt: HostRuntime) -> Result<(), Fail> {
    tells(
        &rt,
        "0 5 ACT 0 0 0 0\n0 100 ACT 0 1 0 0\n0 3 PRE 0 0 0\n",
        "fault 1, clocks rise: after 5, here 3; line 1: 5 ACT 0 0 0 0; line 3: 3 PRE 0 0 0",
    )?;
    tells(
        &rt,
        "0 5 RD 0 0 0 0\n",
        "fault 2, RD wants its bank open; line 1: 5 RD 0 0 0 0",
    )?;
    tells(
        &rt,
        "0 5 ACT 0 0 0 2\n",
        "fault 2, ACT wants a place of the geometry; line 1: 5 ACT 0 0 0 2",
    )?;
    tells(
        &rt,
        "0 5 PREA 0\n",
        "fault 2, PREA wants a bank of its rank open; line 1: 5 PREA 0",
    )?;
    tells(
        &rt,
        "# asleep\n\n0 10 SRE 0\n0 500 ACT 0 0 0 0\n",
        "fault 2, ACT wants a rank that is awake; line 4: 500 ACT 0 0 0 0",
    )
}

#[test]
fn rows_of_a_bank(rt: HostRuntime) -> Result<(), Fail> {
    tells(
        &rt,
        "0 0 ACT 0 0 0 0\n0 15 RD 0 0 0 0\n",
        "fault 3, ACT to RD, same bank: at least tRCD = 16, here 15; line 1: 0 ACT 0 0 0 0; line 2: 15 RD 0 0 0 0",
    )?;
    tells(
        &rt,
        "0 0 ACT 0 0 0 0\n0 38 PRE 0 0 0\n",
        "fault 4, ACT to PRE, same bank: at least tRAS = 39, here 38; line 1: 0 ACT 0 0 0 0; line 2: 38 PRE 0 0 0",
    )?;
    tells(
        &rt,
        "0 0 ACT 0 0 0 0\n0 39 PRE 0 0 0\n0 54 ACT 0 0 0 1\n",
        "fault 5, PRE to ACT, same bank or rank: at least tRP = 16, here 15; line 2: 39 PRE 0 0 0; line 3: 54 ACT 0 0 0 1",
    )?;
    tells(
        &rt,
        "0 0 ACT 0 0 0 0\n0 35 RD 0 0 0 0\n0 43 PREA 0\n",
        "fault 7, RD to PREA, same bank: at least tRTP = 9, here 8; line 2: 35 RD 0 0 0 0; line 3: 43 PREA 0",
    )?;
    tells(
        &rt,
        "0 0 ACT 0 0 0 0\n0 16 WR 0 0 0 0\n0 49 PRE 0 0 0\n",
        "fault 8, WR to PRE, same bank: at least CWL + 4 + tWR = 34, here 33; line 2: 16 WR 0 0 0 0; line 3: 49 PRE 0 0 0",
    )
}

#[test]
fn columns(rt: HostRuntime) -> Result<(), Fail> {
    tells(
        &rt,
        "0 0 ACT 0 0 0 0\n0 16 RD 0 0 0 0\n0 21 RD 0 0 0 1\n",
        "fault 11, RD to RD, same bank group: at least tCCD_L = 6, here 5; line 2: 16 RD 0 0 0 0; line 3: 21 RD 0 0 0 1",
    )?;
    tells(
        &rt,
        "0 0 ACT 0 0 0 0\n0 4 ACT 0 1 0 0\n0 20 WR 0 0 0 0\n0 38 RD 0 1 0 1\n",
        "fault 12, WR to RD, other bank group: at least CWL + 4 + tWTR_S = 19, here 18; line 3: 20 WR 0 0 0 0; line 4: 38 RD 0 1 0 1",
    )?;
    tells(
        &rt,
        "0 0 ACT 0 0 0 0\n0 16 RD 0 0 0 0\n0 25 WR 0 0 0 1\n",
        "fault 13, RD to WR, same channel: at least tRTW = 10, here 9; line 2: 16 RD 0 0 0 0; line 3: 25 WR 0 0 0 1",
    )?;
    tells(
        &rt,
        "0 0 ACT 0 0 0 0\n0 1 ACT 1 0 0 0\n0 17 RD 0 0 0 0\n0 22 RD 1 0 0 1\n",
        "fault 14, RD to RD, other rank: at least 4 + tCS = 6, here 5; line 3: 17 RD 0 0 0 0; line 4: 22 RD 1 0 0 1",
    )
}

#[test]
fn a_rank(rt: HostRuntime) -> Result<(), Fail> {
    tells(
        &rt,
        "0 0 ACT 0 0 0 0\n0 5 ACT 0 0 1 0\n",
        "fault 9, ACT to ACT, same bank group: at least tRRD_L = 6, here 5; line 1: 0 ACT 0 0 0 0; line 2: 5 ACT 0 0 1 0",
    )?;
    tells(
        &rt,
        "0 0 ACT 0 0 0 0\n0 4 ACT 0 1 0 0\n0 8 ACT 0 0 1 0\n0 12 ACT 0 1 1 0\n0 16 ACT 0 0 2 0\n",
        "fault 10, ACT to the fourth ACT after it, same rank: at least tFAW = 26, here 16; line 1: 0 ACT 0 0 0 0; line 5: 16 ACT 0 0 2 0",
    )?;
    tells(
        &rt,
        "0 9360 REF 0\n0 9779 ACT 0 0 0 0\n",
        "fault 15, REF to ACT, same rank: at least tRFC = 420, here 419; line 1: 9360 REF 0; line 2: 9779 ACT 0 0 0 0",
    )?;
    tells(
        &rt,
        "0 9359 REF 0\n",
        "fault 16, REF number 1 of its rank: not before 1 tREFI = 9360, here 9359; line 1: 9359 REF 0",
    )?;
    tells(
        &rt,
        "0 9360 REF 0\n0 93601 ACT 0 0 0 0\n",
        "fault 16, at most 9 tREFI = 84240 after the rank's last REF, here 84241; line 2: 93601 ACT 0 0 0 0",
    )
}
