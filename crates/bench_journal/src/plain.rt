// Records that are appended to a plain file.
use crate::rounds::{EACH, Spent};
use std::fs::OpenOptions;
use std::os::unix::fs::{FileExt, OpenOptionsExt};
use std::time::Instant;

/// A thousand records, each written behind the others and synced before the next one; by the clock, since a sync waits.
pub(crate) fn file_rounds(rt: &HostRuntime, path: &str, size: usize) -> anyhow::Result<Spent> {
    let record = Vec::from_elem(rt.alloc(), 7, size)?;
    let file = OpenOptions::new()
        .write(true)
        .create(true)
        .truncate(true)
        .mode(0o600)
        .open(rt, path)?;
    let start = Instant::now(rt)?;
    let mut at = 0u64;
    for _record in 0..EACH {
        file.write_all_at(&record, at)?;
        file.sync_data()?;
        at = at.saturating_add(size as u64);
    }
    Ok(Spent {
        records: EACH,
        writes: EACH,
        millis: u64::try_from(start.elapsed(rt)?.as_millis()).unwrap_or(u64::MAX),
    })
}
