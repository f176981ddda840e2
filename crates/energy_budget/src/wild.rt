// A gauge that does as it is told, honest or not.
ghost use Rattle.std.specs.Prelude.{◌≡◌, ◌+◌, ◌-◌, ◌≤◌, ◌↔◌, [], IsOk, OnOk, OnErr, IsSomeAnd, drop};
ghost use Rattle.energy_budget.specs.Gauge.{ReadsLevel, PaysCost};
ghost use Rattle.energy_budget.specs.declared.energy.GaugeCall.TheVariants.{Sense, Tick};

use crate::tally::Tally;
use crate::{Dark, Energy, GaugeCall};
use ghost_trace::Trace;
use std::vec::IntoIter;

/// A gauge that answers from a list of words. Each call finds the next word as its level, whatever the level was: a reading
/// answers it, and a payment is made from it where it is enough. Where no word is left a reading answers 0, and each
/// payment is refused. It has no leak.
#[derive(Drop)]
pub struct Wild {
    words: IntoIter<u64>,
    level: u64,
    faults: Tally,
    calls: Trace<GaugeCall>,
}

impl Wild {
    ghost use Rattle.energy_budget.specs.Wild.{words_of, level_found, wild_gauge};

    /// A gauge with level 0 that answers from these words.
    pub fn new(words: Vec<u64>) -> Wild
        ensures words { words_of result ≡ words.items }
        ensures gauge { wild_gauge result
            ≡ record { level = 0; leak = 0; faults = 0; calls = [] } }
    {
        Wild {
            words: words.into_iter(),
            level: 0,
            faults: Tally::new(),
            calls: Trace::new(),
        }
    }

    // Answers the next word in a call of this kind.
    fn read(&mut self, kind: GaugeCall) -> u64
        ensures reads { ReadsLevel kind (wild_gauge self.old) result (wild_gauge self.new) }
        ensures word { result ≡ level_found self.old }
        ensures rest { words_of self.new ≡ drop 1 (words_of self.old) }
    {
        self.calls.note(&kind);
        let word = self.words.next().unwrap_or(0);
        if word < self.level {
            self.faults.add();
        }
        self.level = word;
        word
    }
}

impl Energy for Wild {
    ghost use Rattle.energy_budget.specs.Wild.{words_of, next_word, level_found, wild_gauge};

    ghost gauge = { wild_gauge };

    fn sense(&mut self) -> u64
        ensures reads { ReadsLevel Sense (wild_gauge self.old) result (wild_gauge self.new) }
        ensures word { result ≡ level_found self.old }
        ensures rest { words_of self.new ≡ drop 1 (words_of self.old) }
    {
        self.read(GaugeCall::Sense)
    }

    fn tick(&mut self) -> u64
        ensures reads { ReadsLevel Tick (wild_gauge self.old) result (wild_gauge self.new) }
        ensures word { result ≡ level_found self.old }
        ensures rest { words_of self.new ≡ drop 1 (words_of self.old) }
    {
        self.read(GaugeCall::Tick)
    }

    fn pay(&mut self, cost: u64) -> Result<(), Dark>
        ensures pays { PaysCost (wild_gauge self.old) cost result (wild_gauge self.new) }
        ensures paid { IsOk result ↔ IsSomeAnd (next_word self.old) (λ word. cost ≤ word) }
        ensures ok { OnOk result (level_found self.old ≡ (wild_gauge self.new).level + cost) }
        ensures err { OnErr result (level_found self.old ≡ (wild_gauge self.new).level) }
        ensures rest { words_of self.new ≡ drop 1 (words_of self.old) }
    {
        self.calls.note(&GaugeCall::Pay);
        let level = self.level;
        match self.words.next() {
            Some(word) if cost <= word => {
                self.level = word - cost;
                if word < level {
                    self.faults.add();
                }
                Ok(())
            }
            word => {
                self.level = word.unwrap_or(0);
                if cost <= level {
                    self.faults.add();
                }
                Err(Dark)
            }
        }
    }

    fn faults(&self) -> u64 {
        self.faults.shown()
    }
}
