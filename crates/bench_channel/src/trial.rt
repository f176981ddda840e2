// What is measured.
use ddr4_timing::profiles::{LARGEST, SMALL, TINY};
use ddr4_timing::timing::Checked;

/// Where the requests of a stream go.
#[derive(Clone, Copy, Debug, PartialEq, Eq)]
pub enum Stream {
    /// To lines of the first row of each bank.
    Hits,
    /// To lines of one bank, of another row each time.
    Conflicts,
    /// To lines of the whole channel.
    Random,
}

/// A stream over a profile, with so many writes and as many reads pending, for so many commands.
#[derive(Clone, Copy)]
pub struct Trial {
    pub(crate) checked: Checked,
    pub(crate) depth: usize,
    pub(crate) stream: Stream,
    pub(crate) commands: u64,
}

impl Trial {
    /// The trial of a geometry and a stream by their names.
    pub(crate) fn named(
        geometry: &str,
        depth: usize,
        stream: &str,
        commands: u64,
    ) -> anyhow::Result<Trial> {
        let geometry = match geometry {
            "tiny" => SMALL,
            "largest" => LARGEST,
            _ => anyhow::bail!("the geometry is tiny or largest"),
        };
        let stream = match stream {
            "hits" => Stream::Hits,
            "conflicts" => Stream::Conflicts,
            "random" => Stream::Random,
            _ => anyhow::bail!("the stream is hits, conflicts or random"),
        };
        Ok(Trial {
            checked: TINY.check(&geometry)?,
            depth,
            stream,
            commands,
        })
    }
}
