// Whole lives on the bytes of a store, as C sees them: no handle, and nothing stays from one call to the next.
ghost use Rattle.std.specs.Prelude.{◌≡◌, ◌≢◌, ◌⊎◌};
ghost use Rattle.nv_profile.specs.Profile.{IsNoProfile};
ghost use Rattle.reply_codes.specs.Codes.{told_by};
ghost use Rattle.whole_lives.specs.Lives.{Formats, LivesOn, Restores};

use crate::exports::tell;
use line_memory::Line;
use reply_codes::Numbers;
use std::alloc::Global;
use whole_lives::{Answer, Ask, format_store, live, restore_store};

/// Makes the bytes a store of zero lines for the profile of a text (TOML).
#[unsafe(no_mangle)]
pub extern "C" fn ph_format(
    alloc: Global,
    profile: &[u8],
    store: &mut [u8],
    numbers: &mut Numbers,
) -> u32
    ensures formats { result ≡ 0 → Formats profile.now store.old store.new }
    ensures no_profile { result ≡ 2 → IsNoProfile profile.now }
    ensures kept { result ≢ 0 → store.new ≡ store.old }
{
    tell(format_store(alloc, profile, store), numbers)
}

/// What the bytes of a store restore to, its lines into a buffer of as many. Code 0 comes with the image's generation and its count;
/// code 10 too, where acknowledged writes may be missing. Else the buffer stays.
#[unsafe(no_mangle)]
pub extern "C" fn ph_restore(
    alloc: Global,
    profile: &[u8],
    store: &[u8],
    lines: &mut [Line],
    numbers: &mut Numbers,
) -> u32
    ensures restores { (result ≡ 0) ⊎ (result ≡ 10)
        → Restores profile.now store.now (told_by result numbers.new) lines.new }
    ensures no_profile { result ≡ 2 → IsNoProfile profile.now }
    ensures kept { result ≢ 0 → result ≢ 10 → lines.new ≡ lines.old }
{
    tell(restore_store(alloc, profile, store, lines), numbers)
}

/// Restores the bytes of a store, and has a module live on them through these events, with a gauge at this level. Code 0 comes with how
/// many answers there are; the bytes are those of the device at the end. Else nothing has changed.
#[unsafe(no_mangle)]
pub extern "C" fn ph_live(
    alloc: Global,
    profile: &[u8],
    store: &mut [u8],
    level: u64,
    events: &[Ask],
    answers: &mut [Answer],
    numbers: &mut Numbers,
) -> u32
    ensures lives { result ≡ 0 → LivesOn profile.now store.old store.new level events.now
        answers.old answers.new }
    ensures no_profile { result ≡ 2 → IsNoProfile profile.now }
    ensures kept { result ≢ 0 → (store.new ≡ store.old) × (answers.new ≡ answers.old) }
{
    tell(live(alloc, profile, store, level, events, answers), numbers)
}
