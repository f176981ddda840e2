// The words of a code.
use crate::codes::{
    ALREADY_OPEN, BUFFER, CLOSED, DAMAGED, DARK, DEVICE, DISARMING, DONE, ENERGY_LOW, FULL,
    IN_FILE, LONGER, NEED_ENERGY, NO_CHANGE, NO_EVENT, NO_HANDLE, NO_IMAGE, NO_MEMORY, NO_PICK,
    NO_PROFILE, NO_SAVE, NO_SUCH_LINE, NO_SUCH_READ, NO_SUCH_WRITE, NULL, OVERLAP, POSSIBLE_LOSS,
    READ_WAITS, READS_FULL, RETRY, ROOM, SAVE_FAULT, SAVE_RUNNING, SIZE, SPENT, STEPPED, SYNC,
    TRAIL_FULL, TURNED, UNSAVED, UNSETTLED, WAITING,
};

// The words of a code about handles, buffers and stores.
fn handle_text(code: u32) -> Option<&'static str> {
    let words = match code {
        DONE => "it was done",
        NO_MEMORY => "there is no memory",
        NO_PROFILE => "the text is no profile",
        BUFFER => "the buffer isn't as long as a line",
        SIZE => "the bytes of the store are of another length",
        NO_IMAGE => "nothing is saved there",
        DAMAGED => "what is saved there is damaged",
        DEVICE => "a call of the device failed",
        NO_HANDLE => "the handle is closed",
        ALREADY_OPEN => "the handle is open",
        POSSIBLE_LOSS => "acknowledged writes may be missing",
        NULL => "a pointer is null",
        OVERLAP => "buffers overlap",
        NO_PICK => "there is no such pick",
        IN_FILE => "the device's bytes are in a store of the caller's",
        LONGER => "the change has more bytes than the buffer",
        _ => return None,
    };
    Some(words)
}

// The words of a code about lines, reads, changes and events.
fn line_text(code: u32) -> Option<&'static str> {
    let words = match code {
        FULL => "the write queue of the line's channel is full",
        ENERGY_LOW => "the energy is too low for one more write",
        DISARMING => "the module is disarming",
        CLOSED => "mains were lost",
        TRAIL_FULL => "there is no room for one more write until a save",
        NO_SUCH_LINE => "there is no such line",
        READS_FULL => "there is no room for one more read",
        READ_WAITS => "the bytes of the read didn't come in time",
        NO_SUCH_WRITE => "there is no such write",
        NO_SUCH_READ => "no read of this ticket waits",
        SYNC => "what was written is to be made durable",
        NO_CHANGE => "no change is noted",
        NO_EVENT => "there is no such event",
        ROOM => "there is room for another number",
        _ => return None,
    };
    Some(words)
}

// The words of a code about arming, saves and mains.
fn save_text(code: u32) -> Option<&'static str> {
    let words = match code {
        NEED_ENERGY => "the energy is too low to arm",
        SAVE_RUNNING => "a save runs",
        UNSETTLED => "the device has failed since the last save",
        SPENT => "there is no generation left",
        STEPPED => "a step of the save was made",
        WAITING => "the save waits for a write",
        TURNED => "the energy was low, so the module is disarming",
        NO_SAVE => "no save runs",
        RETRY => "the device failed, and the step is to be made again",
        SAVE_FAULT => "the device failed, which ended the save",
        UNSAVED => "mains were lost while disarmed",
        DARK => "mains were lost, and the energy didn't suffice",
        _ => return None,
    };
    Some(words)
}

/// The words of a code.
pub fn text_of(code: u32) -> &'static str {
    handle_text(code)
        .or(line_text(code))
        .or(save_text(code))
        .unwrap_or("there is no such code")
}
