// The drain of a channel.
ghost use Rattle.std.specs.Prelude.{◌≡◌, ◌≤◌, ◌+◌, ◌*◌, IfOk, length};
ghost use Rattle.energy_budget.specs.CostNumbers.{AreCostsInLimits};
ghost use Rattle.energy_budget.specs.Costs.{AreReckonedFor, close_cost, entry_cost};
ghost use Rattle.drain_core.specs.Paying.{DrainsForPayment, PaysAction};
ghost use Rattle.drain_core.specs.Standing.{CanDrain};
ghost use Rattle.drain_core.specs.Steps.{clocks_of, drained, most_clocks, spent_by};

use crate::payment::{FromGauge, Granted, Payment};
use crate::report::DrainReport;
use crate::steps::{StepEnd, close_step, entry_step, self_refresh, start_clock};
use chan_core::Channel;
use energy_budget::{Action, CostNumbers, Costs, Dark, Energy};

// Asks for each action before it is made: for the close step, and for the entry of each pending write, held or not, in number
// order. Behind the last entry comes an SRE of each rank. Where an action is refused neither it nor any behind it is made.
fn drain_for<P: Payment>(
    channel: &mut Channel,
    numbers: &CostNumbers,
    payment: &mut P,
) -> Result<DrainReport, Dark>
    requires limits { AreCostsInLimits numbers.now }
    requires can { CanDrain channel.old.checked channel.old.commands }
    ensures drains { DrainsForPayment P.pays result
        channel.old channel.new payment.old payment.new }
    ensures clocks { IfOk result (λ report. report.clocks ≡ clocks_of channel.old) }
    ensures spent { IfOk result (λ report. report.spent ≡ spent_by numbers.now channel.old) }
    ensures most_clocks { IfOk result (λ report. report.clocks ≤ most_clocks channel.old) }
{
    channel.always();
    let start = start_clock(channel);
    payment.pay(Action::CloseStep)?;
    let mut end = close_step(channel, numbers);
    for _entry in 0..channel.pending() {
        payment.pay(Action::EntryStep)?;
        let Some(entry) = entry_step(channel, numbers, end.clock) else {
            unreachable!()
        };
        end = StepEnd {
            clock: entry.clock,
            cost: end.cost + entry.cost,
        };
    }
    channel.always();
    let slept = self_refresh(channel, numbers, end.clock);
    let clocks = slept.clock - start;
    Ok(DrainReport {
        clocks,
        spent: end.cost + slept.cost + numbers.e_clk * clocks,
    })
}

/// Drains a channel under backup energy, with a closed page, and pays for each action before it is made: for the close step, a
/// precharge of each rank with an open bank, and for the entry of each pending write, held or not, in number order. Behind the
/// last entry comes an SRE of each rank. Its array is its memory then, nothing is pending, all reads are lost, and the channel
/// sleeps. Where a payment is refused neither its action nor any behind it is made.
///
/// The report's clocks run from one past the last command before to one past the last SRE, and what is spent is what the
/// commands and these clocks cost. It takes no memory, and a constant time for each command.
pub fn drain_paying<E: Energy>(
    channel: &mut Channel,
    costs: &Costs,
    energy: &mut E,
) -> Result<DrainReport, Dark>
    requires limits { AreCostsInLimits costs.now.numbers }
    requires can { CanDrain channel.old.checked channel.old.commands }
    ensures drains { DrainsForPayment (PaysAction costs.now) result
        channel.old channel.new (E.gauge energy.old) (E.gauge energy.new) }
    ensures clocks { IfOk result (λ report. report.clocks ≡ clocks_of channel.old) }
    ensures spent { IfOk result (λ report. report.spent ≡ spent_by costs.now.numbers channel.old) }
    ensures most_clocks { IfOk result (λ report. report.clocks ≤ most_clocks channel.old) }
{
    let mut payment = FromGauge {
        costs: *costs,
        energy,
    };
    drain_for(channel, &costs.numbers, &mut payment)
}

/// Drains a channel as `drain_paying` does, where each action is granted for nothing.
pub fn drain(channel: &mut Channel, costs: &Costs) -> DrainReport
    requires costs { AreReckonedFor channel.old.checked costs.now }
    requires can { CanDrain channel.old.checked channel.old.commands }
    ensures drains { channel.new ≡ drained channel.old }
    ensures clocks { result.clocks ≡ clocks_of channel.old }
    ensures spent { result.spent ≡ spent_by costs.now.numbers channel.old }
    ensures most_clocks { result.clocks ≤ most_clocks channel.old }
    ensures most_spent { result.spent
        ≤ close_cost costs.now + length channel.old.writes * entry_cost costs.now }
{
    channel.always();
    match drain_for(channel, &costs.numbers, &mut Granted) {
        Ok(report) => report,
        Err(_) => unreachable!(),
    }
}
