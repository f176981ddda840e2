//! What a caller in C is told: of each answer of a module a code with two numbers, and the words of a code.
#![tactic(auto)]

mod codes;
mod texts;

pub use codes::{
    ALREADY_OPEN, BUFFER, CLOSED, DAMAGED, DARK, DEVICE, DISARMING, DONE, ENERGY_LOW, FULL,
    IN_FILE, LONGER, NEED_ENERGY, NO_CHANGE, NO_EVENT, NO_HANDLE, NO_IMAGE, NO_MEMORY, NO_PICK,
    NO_PROFILE, NO_SAVE, NO_SUCH_LINE, NO_SUCH_READ, NO_SUCH_WRITE, NULL, Numbers, OVERLAP,
    POSSIBLE_LOSS, READ_WAITS, READS_FULL, RETRY, ROOM, SAVE_FAULT, SAVE_RUNNING, SIZE, SPENT,
    STEPPED, SYNC, TRAIL_FULL, TURNED, Told, UNSAVED, UNSETTLED, WAITING, arm_told, collected_told,
    disarm_told, found_told, handed_told, level_told, loss_told, mode_told, open_code,
    profile_code, read_told, refusal_told, restore_code, restore_told, save_told, ticket_told,
    write_told,
};
pub use texts::text_of;
