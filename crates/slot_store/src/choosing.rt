// Which slot has the newest image, by the header pages.
ghost use Rattle.std.specs.Prelude.{◌≡◌, List, ℕ, IfErr};
ghost use Rattle.slot_store.specs.declared.headers.Reading.TheVariants.{Image};
ghost use Rattle.slot_store.specs.Outcomes.{verdict_of};
ghost use Rattle.slot_store.specs.Told.{claimed, IsChosen, IsOfHeaders};

use crate::headers::Reading;
use crate::{Head, Newest, RestoreError, Slot, Verdict};
use save_image::Header;

fn judged(arm: u8, count: u64) -> Verdict
    ensures { result ≡ verdict_of arm count }
{
    if arm == 0 {
        Verdict::Complete
    } else {
        Verdict::PossibleLoss { after: count }
    }
}

// The head of the image in a slot, by its header.
fn head_of(slot: Slot, header: Header, closed: bool) -> Head
    ensures slot { result.newest.slot ≡ slot }
    ensures generation { result.newest.generation ≡ header.generation }
    ensures count { result.count ≡ header.count }
    ensures closed { result.closed ≡ closed }
    ensures verdict { result.verdict ≡ verdict_of header.arm header.count }
{
    Head {
        newest: Newest {
            slot,
            generation: header.generation,
        },
        count: header.count,
        closed,
        verdict: judged(header.arm, header.count),
    }
}

/// The newest image's head, by what the pages say, or why there is none.
pub(crate) fn choose(first: Reading, second: Reading) -> Result<Head, RestoreError>
    ensures chosen { (one two : List (List ℕ))
        → IsChosen result one two (claimed first one) (claimed second two) }
    ensures headers { IfErr result IsOfHeaders }
{
    match (first, second) {
        (Reading::Broken, _) => Err(RestoreError::Damaged { slot: Slot::First }),
        (_, Reading::Broken) => Err(RestoreError::Damaged { slot: Slot::Second }),
        (Reading::Shut, Reading::Shut) => Err(RestoreError::NoImage),
        (Reading::Shut, Reading::Image(header)) => Ok(head_of(Slot::Second, header, true)),
        (Reading::Image(header), Reading::Shut) => Ok(head_of(Slot::First, header, true)),
        (Reading::Image(one), Reading::Image(two)) => newer(one, two),
    }
}

fn newer(first: Header, second: Header) -> Result<Head, RestoreError>
    ensures chosen { (one two : List (List ℕ))
        → IsChosen result one two
        (claimed (Image first) one) (claimed (Image second) two) }
    ensures headers { IfErr result IsOfHeaders }
{
    if first.generation == second.generation {
        return Err(RestoreError::Damaged { slot: Slot::Second });
    }
    if first.generation < second.generation {
        Ok(head_of(Slot::Second, second, false))
    } else {
        Ok(head_of(Slot::First, first, false))
    }
}
