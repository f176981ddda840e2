// Sets of banks.
ghost use Rattle.std.specs.Prelude.{◌≡◌, ◌≢◌, ◌⊎◌, ◌<◌, ◌↔◌, ℕ, IsTrue, false};
ghost use Rattle.request_notes.specs.BankSets.{Has, IsOneTaken};

/// Some of the 64 banks that a channel has at most, a bit for each.
#[derive(Clone, Copy)]
pub struct BankSet {
    bits: u64,
}

impl BankSet {
    /// No bank.
    pub fn none() -> BankSet
        ensures { (bank : ℕ) → ¬ Has result bank }
    {
        BankSet { bits: 0 }
    }

    /// Whether a bank is one of them.
    pub fn has(&self, bank: usize) -> bool
        requires { bank < 64 }
        ensures { IsTrue result ↔ Has self.now bank }
    {
        self.bits & (1 << bank) != 0
    }

    /// One bank more.
    pub fn add(&mut self, bank: usize)
        requires { bank < 64 }
        ensures { (other : ℕ) → Has self.new other ↔ ((other ≡ bank) ⊎ Has self.old other) }
    {
        self.bits |= 1 << bank;
    }

    /// One bank less.
    pub fn remove(&mut self, bank: usize)
        requires { bank < 64 }
        ensures { (other : ℕ) → other < 64
            → (Has self.new other ↔ (Has self.old other × (other ≢ bank))) }
    {
        let gone = 1 << bank;
        self.bits &= !gone;
    }

    /// Whether there is none.
    pub fn is_empty(&self) -> bool
        ensures none { IsTrue result → (bank : ℕ) → ¬ Has self.now bank }
        ensures some { result ≡ false → (bank : ℕ) × (bank < 64) × Has self.now bank }
    {
        self.bits == 0
    }

    /// Takes one of them out, if there is one.
    pub fn take_one(&mut self) -> Option<usize>
        ensures { IsOneTaken self.old result self.new }
    {
        if self.bits == 0 {
            return None;
        }
        let bank = self.bits.trailing_zeros() as usize;
        self.bits &= !(1 << bank);
        Some(bank)
    }
}
