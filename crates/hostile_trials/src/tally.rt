// What trials came to.

/// How many trials there were, how many of them were accepted, and how many were answered wrong.
#[derive(Clone, Copy, Drop)]
pub(crate) struct TrialCounts {
    tried: u64,
    accepted: u64,
    wrong: u64,
}

impl TrialCounts {
    pub(crate) fn new() -> TrialCounts {
        TrialCounts {
            tried: 0,
            accepted: 0,
            wrong: 0,
        }
    }

    /// Counts a trial.
    pub(crate) fn count(&mut self, is_accepted: bool, is_right: bool) {
        self.tried = self.tried.saturating_add(1);
        if is_accepted {
            self.accepted = self.accepted.saturating_add(1);
        }
        if !is_right {
            self.wrong = self.wrong.saturating_add(1);
        }
    }

    /// Says what was tried, and how often it was accepted.
    pub(crate) fn show(self, rt: &HostRuntime, what: &str, word: &str) -> anyhow::Result<()> {
        let TrialCounts {
            tried,
            accepted,
            wrong,
        } = self;
        println!(rt; "{what}: {tried} tried, {accepted} {word}, {wrong} wrong")?;
        Ok(())
    }
}
