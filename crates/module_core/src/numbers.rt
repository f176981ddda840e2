// What a front says of itself.
ghost use Rattle.std.specs.Prelude.{◌≡◌, ◌≤◌, ◌^◌};

use crate::Front;
use arm_state::Mode;

impl Front {
    /// How many writes were accepted, counted from the first life on.
    pub fn accepted(&self) -> u64
        ensures is { result ≡ self.now.accepted }
        ensures fits { result ≤ 2 ^ 62 }
    {
        self.accepted
    }

    /// How many of them are persistent: those with a smaller number are.
    pub fn mark(&self) -> u64
        ensures { result ≡ self.now.persisted }
    {
        self.persisted
    }

    /// What the module does with writes.
    pub fn mode(&self) -> Mode
        ensures { result ≡ self.now.mode }
    {
        self.mode
    }

    /// How many writes the newest image holds that is known settled.
    pub fn saved(&self) -> u64
        ensures { result ≡ self.now.saved }
    {
        self.saved
    }

    /// The number of the life's first write.
    pub fn start(&self) -> u64
        ensures { result ≡ self.now.terms.start }
    {
        self.terms.start
    }
}
