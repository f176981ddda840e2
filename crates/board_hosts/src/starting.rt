// How a board begins.
ghost use Rattle.std.specs.Prelude.{◌≡◌, [], vec_len, All, IfOk};
ghost use Rattle.std.specs.Arc.{arc_value};
ghost use Rattle.board_hosts.specs.SeenMarks.{AllHaveSeen, seen_marks};
ghost use Rattle.board_hosts.specs.Client.{client};

use crate::board_name::BoardName;
use crate::host::Host;
use crate::recorded_module::RecordedModule;
use crate::{HostSeat, MarkBoard};
use channel_port::ChannelPort;
use std::alloc::{AllocError, Global};
use std::sync::Arc;
use std::sync::ledger::Share;

/// A host for each seat, each with one part of the ledger. It refuses only where there is no memory for them.
pub fn seated<B: BoardName>(
    alloc: Global,
    marks: &Arc<MarkBoard, Global>,
    seats: Vec<HostSeat>,
    whole: &mut Share<B>,
    mark: u64,
) -> Result<Vec<Host<B>>, AllocError>
    requires board { arc_value marks.now ≡ B.board }
    requires seats { AllHaveSeen (seen_marks B.board mark mark) seats.items }
    requires parts { whole.old.parts ≡ vec_len seats }
    requires amount { whole.old.amount ≡ 0 }
    ensures number { IfOk result (λ hosts. vec_len hosts ≡ vec_len seats) }
    ensures hosts { IfOk result (λ hosts. All (λ h. h ≡ client mark mark 0 []) hosts.items) }
    ensures rest { IfOk result (λ _. whole.new.parts ≡ 0) }
    ensures none { IfOk result (λ _. whole.new.amount ≡ 0) }
{
    let mut hosts = Vec::with_capacity(alloc, seats.len())?;
    for seat in seats {
        let marks = Arc::try_clone(marks)?;
        let share = whole.split_off(1, 0);
        hosts.push_reserved(Host::new(marks, seat, share));
    }
    Ok(hosts)
}

/// Why no board began: there was no memory for its hosts. The module with its record and the book of notices are given back.
#[derive(Drop)]
pub struct NotStarted<K: ChannelPort, D, E, N> {
    pub why: AllocError,
    pub recorded: RecordedModule<K, D, E>,
    pub notices: N,
}
