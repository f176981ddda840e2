// Profiles from TOML.
ghost use Rattle.std.specs.Prelude.{◌≡◌, ◌<◌, length, Err, IfOk, IfSome, IsNone};
ghost use Rattle.toml.specs.View.{table_view};
ghost use Rattle.nv_profile.specs.Nothing.{HoldsOfNone};
ghost use Rattle.nv_profile.specs.Profile.{SaysProfile, SaysRules, IsProfileText, IsNoProfile, IsNoRules, IsNumbersText, IsRulesText, geometry_in, timing_in};

use crate::costs::read_costs;
use crate::profile::Profile;
use crate::sizes::read_module;
use crate::table::{inner, size};
use crate::timing::{read_geometry, read_timing};
use ddr4_timing::timing::CommandRules;
use std::alloc::Global;
use thiserror::Error;
use toml::{Table, table_from_slice};

/// The most bytes of a profile.
pub const MOST_BYTES: usize = 65_536;

/// Why a text gave no profile.
#[derive(Clone, Copy, Debug, PartialEq, Eq, Error)]
pub enum ProfileFault {
    /// It isn't a profile: it is too long, not UTF-8 or not TOML, lacks a key or has a further one, or a value isn't of its
    /// kind or within its limits.
    #[error("1 Refused")]
    Refused = 1,
    /// There was no memory to read it.
    #[error("2 Memory")]
    Memory = 2,
}

/// The numbers of a text: those of a module's profile, or those by which commands alone are checked.
#[derive(Clone, Copy)]
pub enum Numbers {
    Module(Profile),
    Commands(CommandRules),
}

impl Numbers {
    /// Those by which commands are checked.
    pub fn rules(&self) -> CommandRules
        ensures timing { result.timing ≡ timing_in self.now }
        ensures geometry { result.geometry ≡ geometry_in self.now }
    {
        match self {
            Numbers::Module(profile) => profile.checked.rules(),
            Numbers::Commands(rules) => *rules,
        }
    }
}

/// Reads the numbers of a text: a profile as `read_profile` reads it, or the numbers for commands alone as `read_rules` does.
///
/// `Refused` where the bytes are neither, `Memory` where the reader of TOML was refused memory.
pub fn read_numbers(alloc: Global, bytes: &[u8]) -> Result<Numbers, ProfileFault>
    ensures ok { IfOk result (IsNumbersText bytes.now) }
    ensures no_rules { result ≡ Err ProfileFault.Refused → IsNoRules bytes.now }
    ensures no_profile { result ≡ Err ProfileFault.Refused → IsNoProfile bytes.now }
{
    match read_rules(alloc, bytes) {
        Ok(rules) => Ok(Numbers::Commands(rules)),
        Err(ProfileFault::Memory) => Err(ProfileFault::Memory),
        Err(ProfileFault::Refused) => match read_profile(alloc, bytes) {
            Ok(profile) => Ok(Numbers::Module(profile)),
            Err(fault) => Err(fault),
        },
    }
}

/// Reads a profile: bytes that are at most 65,536, UTF-8, and TOML with exactly the keys of a profile, each with a whole
/// number within its limits, and `map` with one of its two words. Timing and geometry have to pass `Timing::check`.
///
/// `Refused` where the bytes are no such text, `Memory` where the reader of TOML was refused memory. It costs what reading
/// the text costs.
pub fn read_profile(alloc: Global, bytes: &[u8]) -> Result<Profile, ProfileFault>
    ensures ok { IfOk result (IsProfileText bytes.now) }
    ensures refused { result ≡ Err ProfileFault.Refused → IsNoProfile bytes.now }

    // A text that is too long isn't read, and so asks for no memory.
    ensures too_long { MOST_BYTES < length bytes.now → result ≡ Err ProfileFault.Refused }
{
    if bytes.len() > MOST_BYTES {
        return Err(ProfileFault::Refused);
    }
    match table_from_slice(alloc, bytes) {
        Ok(table) => profile_of(&table).ok_or(ProfileFault::Refused),
        Err(error) if error.is_memory() => Err(ProfileFault::Memory),
        Err(_) => Err(ProfileFault::Refused),
    }
}

/// The profile that a table says.
fn profile_of(table: &Table) -> Option<Profile>
    ensures some { IfSome result (SaysProfile (table_view table.now)) }
    ensures none { IsNone result → HoldsOfNone (SaysProfile (table_view table.now)) }
{
    if size(table) != 4 {
        return None;
    }
    let timing = read_timing(inner(table, "timing")?)?;
    let geometry = read_geometry(inner(table, "geometry")?)?;
    let costs = read_costs(inner(table, "costs")?)?;
    let (sizes, map) = read_module(inner(table, "module")?)?;
    match timing.check(&geometry) {
        Ok(checked) => Some(Profile {
            checked,
            costs,
            sizes,
            map,
        }),
        Err(_) => None,
    }
}

/// Reads the numbers by which commands alone are checked: bytes that are at most 65,536, UTF-8, and TOML with exactly the tables
/// `timing` and `geometry` of a profile. They have to pass `Timing::check_commands`.
///
/// `Refused` where the bytes are no such text, `Memory` where the reader of TOML was refused memory.
pub fn read_rules(alloc: Global, bytes: &[u8]) -> Result<CommandRules, ProfileFault>
    ensures ok { IfOk result (IsRulesText bytes.now) }
    ensures refused { result ≡ Err ProfileFault.Refused → IsNoRules bytes.now }
    ensures too_long { MOST_BYTES < length bytes.now → result ≡ Err ProfileFault.Refused }
{
    if bytes.len() > MOST_BYTES {
        return Err(ProfileFault::Refused);
    }
    match table_from_slice(alloc, bytes) {
        Ok(table) => rules_of(&table).ok_or(ProfileFault::Refused),
        Err(error) if error.is_memory() => Err(ProfileFault::Memory),
        Err(_) => Err(ProfileFault::Refused),
    }
}

/// The numbers that a table says.
fn rules_of(table: &Table) -> Option<CommandRules>
    ensures some { IfSome result (SaysRules (table_view table.now)) }
    ensures none { IsNone result → HoldsOfNone (SaysRules (table_view table.now)) }
{
    if size(table) != 2 {
        return None;
    }
    let timing = read_timing(inner(table, "timing")?)?;
    let geometry = read_geometry(inner(table, "geometry")?)?;
    match timing.check_commands(&geometry) {
        Ok(rules) => Some(rules),
        Err(_) => None,
    }
}
