// The first fault of a list of commands.
use ddr4_timing::command::{Command, Stamped};
use ddr4_timing::fault::first_fault;
use ddr4_timing::place::BankAddress;
use ddr4_timing::timing::Checked;

// Opens a row at clock 0 and reads a column of it at this clock.
fn read_at(clock: u64) -> [Stamped; 2] {
    let at = BankAddress {
        rank: 0,
        group: 0,
        bank: 0,
    };
    [
        Stamped {
            clock: 0,
            cmd: Command::Act { at, row: 0 },
        },
        Stamped {
            clock,
            cmd: Command::Rd { at, column: 0 },
        },
    ]
}

/// A read one clock before tRCD has passed, and one when it has.
pub(crate) fn judge_two_lists(rt: &HostRuntime, checked: &Checked) -> anyhow::Result<()> {
    let early = first_fault(&checked.rules(), &read_at(15));
    println!(*rt; "a read at clock 15: {early:?}")?;
    let ready = first_fault(&checked.rules(), &read_at(16));
    println!(*rt; "a read at clock 16: {ready:?}")?;
    Ok(())
}
