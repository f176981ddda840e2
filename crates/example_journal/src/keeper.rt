// A store of records: a journal in a module whose device is a file.
use crate::request::Request;
use arm_state::Loss;
use channel_port::ChannelPort;
use journal_load::JournalLife;
use save_device::SaveDevice;

/// A life of the store.
#[derive(Drop)]
pub(crate) struct Keeper<K: ChannelPort, D: SaveDevice> {
    pub(crate) life: JournalLife<K, D>,
}

impl<K: ChannelPort + Drop, D: SaveDevice + Drop> Keeper<K, D> {
    // A text becomes a record, where the module takes it.
    fn add(&mut self, rt: &HostRuntime, text: &str) -> anyhow::Result<()> {
        match self.life.append(text.as_bytes()) {
            Ok(appended) => println!(rt; "added {}", appended.record)?,
            Err(refusal) => println!(rt; "refused: {refusal}")?,
        }
        Ok(())
    }

    // The records below a number go, where the module takes that.
    fn cut(&mut self, rt: &HostRuntime, upto: u64) -> anyhow::Result<()> {
        match self.life.truncate(upto) {
            Ok(_) => println!(rt; "cut {upto}")?,
            Err(refusal) => println!(rt; "refused: {refusal}")?,
        }
        Ok(())
    }

    // Reads a record from the module, and writes its text.
    fn show(&mut self, rt: &HostRuntime, number: u64) -> anyhow::Result<()> {
        match self.life.record(rt.alloc(), number) {
            Ok(Some(bytes)) => match String::from_utf8(bytes) {
                Ok(text) => println!(rt; "{number} {text}")?,
                Err(_) => println!(rt; "{number} is no text")?,
            },
            Ok(None) => println!(rt; "{number} isn't there")?,
            Err(why) => println!(rt; "refused: {why}")?,
        }
        Ok(())
    }

    fn list(&mut self, rt: &HostRuntime) -> anyhow::Result<()> {
        for number in self.life.journal().numbers() {
            self.show(rt, number)?;
        }
        Ok(())
    }

    fn lose(&mut self, rt: &HostRuntime) -> anyhow::Result<()> {
        match self.life.lose() {
            Loss::Saved { .. } => println!(rt; "lost, and all is saved")?,
            Loss::Unsaved => println!(rt; "lost, and nothing was to be saved")?,
            other => println!(rt; "lost: {other:?}")?,
        }
        Ok(())
    }

    /// Answers a line.
    pub(crate) fn answer(&mut self, rt: &HostRuntime, request: Request<'_>) -> anyhow::Result<()> {
        match request {
            Request::Add(text) => self.add(rt, text)?,
            Request::Cut(upto) => self.cut(rt, upto)?,
            Request::Save => match self.life.save() {
                Ok(()) => println!(rt; "saved")?,
                Err(stall) => println!(rt; "refused: {stall}")?,
            },
            Request::Arm => match self.life.arm() {
                Ok(()) => println!(rt; "armed")?,
                Err(stall) => println!(rt; "refused: {stall}")?,
            },
            Request::Lose => self.lose(rt)?,
            Request::List => self.list(rt)?,
            Request::Stored => println!(rt; "stored {}", self.life.stored())?,
        }
        Ok(())
    }
}
