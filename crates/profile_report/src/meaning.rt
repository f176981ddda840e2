// What the numbers of a profile come to.
ghost use Rattle.std.specs.Prelude.{◌≡◌, ◌≤◌, All, IfSome};
ghost use Rattle.profile_report.specs.Meaning.{IsMeaningOf, if_above, pending_told};

use energy_budget::Costs;
use interleave_map::cells::line_count;
use nv_profile::Profile;
use slot_store::device_size;
use std::fmt;

/// What the numbers of a profile come to. Shown as a line for each number, the last without an end of line.
#[derive(Clone, Copy)]
pub struct Meaning {
    pub profile: Profile,
    pub lines: u64,
    /// The bytes of a device that its saves fit.
    pub device_bytes: u64,
    /// The most clocks that an entry of a drain takes.
    pub entry: u64,
    /// The most clocks that the close step of a drain takes.
    pub close: u64,
    pub costs: Costs,
}

impl Meaning {
    /// Of a profile.
    pub fn of(profile: &Profile) -> Meaning
        ensures { IsMeaningOf profile.now result }
    {
        let geometry = &profile.checked.geometry;
        let timing = &profile.checked.timing;
        let lines = line_count(&profile.checked);
        Meaning {
            profile: *profile,
            lines,
            device_bytes: device_size(lines as usize) as u64,
            entry: timing.entry(geometry),
            close: timing.close(geometry),
            costs: Costs::of(&profile.checked, &profile.costs).with_retries(profile.sizes.retries),
        }
    }

    /// The numbers of pending writes for which it is told what a save takes: none, one, as many as one channel's queue holds, and
    /// as many as those of all channels, each where it is above the one before.
    pub fn pending(&self) -> [Option<u64>; 4]
        ensures told { result ≡ pending_told self.now }
        ensures few { All (λ told. IfSome told (λ pending. pending ≤ 1024)) result }
    {
        let depth = self.profile.sizes.depth.min(1024);
        let channels = self.profile.checked.geometry.channels;
        let most = channels.saturating_mul(self.profile.sizes.depth).min(1024);
        [Some(0), Some(1), above(1, depth), above(depth, most)]
    }
}

// A number where it is above another one.
fn above(other: u64, number: u64) -> Option<u64>
    ensures { result ≡ if_above other number }
{
    if number > other { Some(number) } else { None }
}

// What a save of so many pending writes takes.
fn write_needs<W: fmt::Write>(f: &mut fmt::Formatter<W>, costs: &Costs, pending: u64) -> fmt::Result
    requires { pending ≤ 1024 }
{
    write!(
        f,
        "\npending {pending}: steps {}, reserve {}, floor {}, least reading {}",
        costs.steps(pending),
        costs.reserve(pending),
        costs.floor(pending),
        costs.need(pending)
    )
}

impl fmt::Display for Meaning {
    fn fmt<W: fmt::Write>(&self, f: &mut fmt::Formatter<W>) -> fmt::Result {
        let channels = self.profile.checked.geometry.channels;
        let map = self.profile.map;
        write!(f, "lines {} on {channels} channels, map {map}", self.lines)?;
        write!(f, "\ndevice {} bytes", self.device_bytes)?;
        write!(f, "\nentry {} clocks", self.entry)?;
        write!(f, "\nclose step {} clocks", self.close)?;
        for pending in self.pending() {
            if let Some(pending) = pending {
                write_needs(f, &self.costs, pending)?;
            }
        }
        Ok(())
    }
}
