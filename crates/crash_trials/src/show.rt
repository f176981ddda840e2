// What is written of trials.
use crate::tally::Findings;

/// Writes what trials came to, and counts them.
#[derive(Drop)]
pub(crate) struct Show<'r> {
    pub rt: &'r HostRuntime,
    tried: u64,
    wrong: u64,
}

impl<'r> Show<'r> {
    /// Nothing yet.
    pub(crate) fn new(rt: &'r HostRuntime) -> Show<'r> {
        Show {
            rt,
            tried: 0,
            wrong: 0,
        }
    }

    /// Writes what trials came to, and the script of each that is wrong.
    pub(crate) fn tally(&mut self, what: &str, tally: &Findings) -> anyhow::Result<()> {
        let wrong = tally.wrong.len() as u64;
        println!(*self.rt;
            "    {what}: {} complete, {} possible losses, {wrong} wrong",
            tally.counts.complete, tally.counts.possible_loss
        )?;
        for wrong in &tally.wrong {
            println!(*self.rt; "        {}", wrong.as_str())?;
        }
        let right = tally
            .counts
            .complete
            .saturating_add(tally.counts.possible_loss);
        self.tried = self.tried.saturating_add(right).saturating_add(wrong);
        self.wrong = self.wrong.saturating_add(wrong);
        Ok(())
    }

    /// Writes how many trials there were.
    pub(crate) fn end(self) -> anyhow::Result<()> {
        println!(*self.rt; "{} trials, {} wrong", self.tried, self.wrong)?;
        Ok(())
    }
}
