//! Writes the manual page of `nvctl`.
#![tactic(auto)]

use command_help::write_page;
use std::io::{self, BufWriter, Write};

fn main(rt: HostRuntime) -> io::Result<()> {
    let mut writer = BufWriter::new(rt.alloc(), io::writer(&rt))?;
    write_page(&mut writer)?;
    writer.flush()
}
