// A second reading of the format of a store of 128 lines: what the page that begins a slot says, and which image is the newest. It
// is written down from the format alone, and knows the digest of a body beforehand.
use save_image::PAGE_BYTES;
use slot_store::{Head, Newest, RestoreError, Slot, Verdict};

/// The lines of a store's memory.
pub(crate) const LINES: usize = 128;

/// The bytes of a slot: a page of its header, and 64 bytes for each line.
pub(crate) const SLOT_BYTES: usize = 12_288;

/// The bytes of a store.
pub(crate) const SIZE: usize = 24_576;

/// A slot by its header page, and by the digest that its body has.
#[derive(Clone, Copy)]
pub(crate) struct SlotPage {
    pub header: [u8; PAGE_BYTES],
    pub digest: [u8; 32],
}

/// What a restore answers.
#[derive(Clone, Copy, Debug, PartialEq, Eq)]
pub(crate) enum Answer {
    Refused(RestoreError),
    Newest(Head),
}

// What a slot is.
#[derive(Clone, Copy)]
enum Kept {
    Closed,
    Broken,
    Image(Numbers),
}

// The numbers of an image.
#[derive(Clone, Copy)]
struct Numbers {
    generation: u64,
    count: u64,
    armed: bool,
}

impl SlotPage {
    // The eight bytes from here on, the lowest first.
    fn generation(&self) -> u64 {
        let h = &self.header;
        u64::from_le_bytes([h[16], h[17], h[18], h[19], h[20], h[21], h[22], h[23]])
    }

    fn count(&self) -> u64 {
        let h = &self.header;
        u64::from_le_bytes([h[24], h[25], h[26], h[27], h[28], h[29], h[30], h[31]])
    }

    fn lines(&self) -> u64 {
        let h = &self.header;
        u64::from_le_bytes([h[32], h[33], h[34], h[35], h[36], h[37], h[38], h[39]])
    }

    // Are all bytes from here on zero?
    fn ends_in_zeros(&self, from: usize) -> bool {
        self.header.iter().skip(from).all(|byte| *byte == 0)
    }

    // The text of its version, and behind its fields the zeros, or the digest and the zeros.
    fn has_a_version(&self) -> bool {
        match &self.header[8..16] {
            b"NVSAVE01" => self.ends_in_zeros(40),
            b"NVSAVE02" => &self.header[40..72] == self.digest.as_slice() && self.ends_in_zeros(72),
            _ => false,
        }
    }

    fn is_image(&self) -> bool {
        let generation = self.generation();
        self.header[2..8].iter().all(|byte| *byte == 0)
            && self.has_a_version()
            && self.lines() == LINES as u64
            && generation > 0
            && generation < 1 << 63
            && self.count() <= 1 << 62
    }

    fn kept(&self) -> Kept {
        if self.header[0] != 0xa5 {
            Kept::Closed
        } else if self.is_image() {
            Kept::Image(Numbers {
                generation: self.generation(),
                count: self.count(),
                armed: self.header[1] != 0,
            })
        } else {
            Kept::Broken
        }
    }
}

// The image in a slot is the newest one.
fn newest(slot: Slot, numbers: Numbers, closed: bool) -> Answer {
    let Numbers {
        generation,
        count,
        armed,
    } = numbers;
    let verdict = if armed {
        Verdict::PossibleLoss { after: count }
    } else {
        Verdict::Complete
    };
    Answer::Newest(Head {
        newest: Newest { slot, generation },
        count,
        closed,
        verdict,
    })
}

/// What a restore of these two slots has to answer.
pub(crate) fn answer_for(first: &SlotPage, second: &SlotPage) -> Answer {
    match (first.kept(), second.kept()) {
        (Kept::Broken, _) => Answer::Refused(RestoreError::Damaged { slot: Slot::First }),
        (_, Kept::Broken) => Answer::Refused(RestoreError::Damaged { slot: Slot::Second }),
        (Kept::Closed, Kept::Closed) => Answer::Refused(RestoreError::NoImage),
        (Kept::Image(one), Kept::Closed) => newest(Slot::First, one, true),
        (Kept::Closed, Kept::Image(two)) => newest(Slot::Second, two, true),
        (Kept::Image(one), Kept::Image(two)) if one.generation == two.generation => {
            Answer::Refused(RestoreError::Damaged { slot: Slot::Second })
        }
        (Kept::Image(one), Kept::Image(two)) if one.generation > two.generation => {
            newest(Slot::First, one, false)
        }
        (Kept::Image(_), Kept::Image(two)) => newest(Slot::Second, two, false),
    }
}
