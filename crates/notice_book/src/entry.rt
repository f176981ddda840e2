// One notice of a book.
ghost use Rattle.std.specs.Prelude.{◌≡◌, ℕ, ◌<◌};
ghost use Rattle.notice_book.specs.Told.{IsCallableAbove, persisted_at};

/// That a write is persistent: its number lies below the mark.
#[derive(Clone, Copy, Debug, PartialEq, Eq)]
pub struct Persisted {
    pub number: u64,
    pub mark: u64,
}

/// A callback that is called once, with its number and a mark above it. It answers a word of its maker's own.
pub type Notice = Box<dyn FnOnce(Persisted) -> u64 + Send>;

/// A notice that was called: its number, and the word that it answered.
#[derive(Clone, Copy, Debug, PartialEq, Eq)]
pub struct Called {
    pub number: u64,
    pub answer: u64,
}

/// A notice and its number.
#[derive(Drop)]
pub struct Entry {
    pub number: u64,
    pub notice: Notice,
    pub ghost callable: { IsCallableAbove (λ told. pre notice told) number },
}

impl Entry {
    /// Calls the notice, which is then gone.
    pub fn call(self, mark: u64) -> u64
        requires { self.number < mark }
        ensures { post self.notice (persisted_at self.number mark) result }
    {
        let number = self.number;
        (self.notice)(Persisted { number, mark })
    }
}
