// What the commands of a trace come to.
ghost use Rattle.std.specs.Prelude.{◌≡◌, IfOk};
ghost use Rattle.serde_json.specs.View.{view};
ghost use Rattle.statistics_report.specs.Objects.{bank_data, channel_data, maybe_data, numbers_data, rank_data, shared_data};

use ddr4_timing::place::BankAddress;
use serde_json::{Value, json};
use std::alloc::{AllocError, Global};
use trace_statistics::{BankNumbers, Margins, RankNumbers};

// The object of how many commands of each kind went to banks, and of their hits, misses and conflicts.
fn numbers_object(alloc: Global, numbers: &BankNumbers) -> Result<Value, AllocError>
    ensures { IfOk result (λ value. view value ≡ numbers_data numbers.now) }
{
    json!(in alloc; {
        "activates": numbers.activates, "conflicts": numbers.conflicts, "hits": numbers.hits,
        "misses": numbers.misses, "precharges": numbers.precharges, "reads": numbers.reads,
        "writes": numbers.writes
    })
}

// The object of the banks of a channel together: their numbers, and the clock of the channel's last command.
pub(crate) fn channel_object(
    alloc: Global,
    channel: u64,
    last: u64,
    numbers: &BankNumbers,
) -> Result<Value, AllocError>
    ensures { IfOk result (λ value. view value ≡ channel_data channel last numbers.now) }
{
    let banks = numbers_object(alloc, numbers)?;
    json!(in alloc; {"answer": "channel", "banks": banks, "channel": channel, "last": last})
}

// The object of one bank.
pub(crate) fn bank_object(
    alloc: Global,
    channel: u64,
    at: BankAddress,
    numbers: &BankNumbers,
) -> Result<Value, AllocError>
    ensures { IfOk result (λ value. view value ≡ bank_data channel at numbers.now) }
{
    let told = numbers_object(alloc, numbers)?;
    let (rank, group, bank) = (at.rank, at.group, at.bank);
    json!(in alloc; {
        "answer": "bank", "bank": bank, "channel": channel, "group": group, "numbers": told,
        "rank": rank
    })
}

// The object of the commands that went to whole ranks of a channel.
pub(crate) fn shared_object(
    alloc: Global,
    channel: u64,
    numbers: &RankNumbers,
) -> Result<Value, AllocError>
    ensures { IfOk result (λ value. view value ≡ shared_data channel numbers.now) }
{
    json!(in alloc; {
        "answer": "ranks", "channel": channel, "precharges": numbers.precharges,
        "refreshes": numbers.refreshes, "sleeps": numbers.sleeps
    })
}

// A number, or null where there is none.
fn maybe(number: Option<u64>) -> Value
    ensures { view result ≡ maybe_data number }
{
    match number {
        Some(number) => Value::from(number),
        None => Value::Null,
    }
}

// The object of the refreshes of a rank, and of what the rules on refreshes and on four activates left to spare.
pub(crate) fn rank_object(
    alloc: Global,
    channel: u64,
    rank: u64,
    margins: &Margins,
) -> Result<Value, AllocError>
    ensures { IfOk result (λ value. view value ≡ rank_data channel rank margins.now) }
{
    let least = maybe(margins.refresh);
    let window = maybe(margins.window);
    let mean = margins.mean();
    json!(in alloc; {
        "answer": "rank", "channel": channel, "least": least, "longest": margins.longest,
        "mean": mean, "rank": rank, "refreshes": margins.refreshes, "window": window
    })
}
