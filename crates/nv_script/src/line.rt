// The lines of a script.
use interleave_map::Interleaving;
use line_memory::Write;
use save_device::Pick;

/// One line of a script that isn't skipped.
#[derive(Clone, Copy, Debug, PartialEq, Eq)]
pub enum ScriptLine {
    /// `format`
    Format,
    /// `write LINE BYTE`: the byte fills the line.
    Write(Write),
    /// `read LINE`
    Read {
        line: u64,
    },
    /// `work CHANNEL N`: up to that many commands of a channel.
    Work {
        channel: u64,
        most: u64,
    },
    /// `sense N`: sets the level of the gauge, and reads it.
    Sense {
        level: u64,
    },
    /// `arm`
    Arm,
    /// `disarm`
    Disarm,
    /// `save`: a save, or the rest of one.
    Save,
    /// `step`: one step of a save.
    Step,
    /// `lose`: mains are lost.
    Lose,
    /// `lie N`: so many units can be paid on backup, whatever the gauge shows.
    Lie {
        units: u64,
    },
    /// `fuse K` or `fuse off`: the device passes so many calls, or all.
    Fuse {
        calls: Option<u64>,
    },
    /// `onefault K`: the K-th coming call of the device fails alone. `read_script` gives no `call` below 1.
    OneFault {
        call: u64,
    },
    /// `restore [PICK [MAP]]`: a stop with this pick, or with the old bytes, and a life with this map, or the profile's.
    Restore {
        pick: Option<Pick>,
        map: Option<Interleaving>,
    },
    /// `mark`
    Mark,
}
