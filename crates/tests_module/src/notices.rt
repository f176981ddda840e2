// What a module tells of writes that were saved. The expected values are worked out by hand.
ghost use Rattle.std.specs.Prelude.{◌≡◌};
ghost use Rattle.notice_book.specs.NoticeBooks.{entries_of, number_of_notice};
ghost use Rattle.notice_book.specs.Numbered.{AreNumbersBelow};
ghost use Rattle.notice_book.specs.Told.{IsCallableAbove};

use crate::check::same;
use crate::load::{Image, Load, format_again, restores_to};
use channel_port::ChannelPort;
use module_core::Module;
use notice_book::{Called, Notice, NoticeBook, Persisted};
use save_device::SaveDevice;
use slot_store::Verdict;
use std::alloc::Global;
use std::process::Abort;

// A book for two notices, full, and the third one, which came back.
fn full_book<R: Abort>(
    rt: &R,
    alloc: Global,
    first: Notice,
    second: Notice,
    third: Notice,
) -> (NoticeBook, Notice)
    requires first { IsCallableAbove (λ told. Notice.pre first told) 0 }
    requires second { IsCallableAbove (λ told. Notice.pre second told) 1 }
    requires third { IsCallableAbove (λ told. Notice.pre third told) 2 }
    ensures numbers { AreNumbersBelow number_of_notice 2 (entries_of result.0) }
    ensures back { result.1 ≡ third }
{
    let mut book = NoticeBook::with_room(alloc, 2).expect(rt, "memory");
    same(rt, book.register(0, first).is_ok(), true);
    same(rt, book.register(1, second).is_ok(), true);
    let Err(full) = book.register(2, third) else {
        panic!(*rt; "a further notice in a full book");
    };
    (book, full.notice)
}

// The notices that the module calls answer so.
#[tactic(auto, using(crate::proofs::Later::later_below))]
fn notifies<K: ChannelPort, R: Abort>(
    rt: &R,
    alloc: Global,
    module: &Module<K>,
    book: &mut NoticeBook,
    wanted: &[Called],
)
    requires { AreNumbersBelow number_of_notice 2 (entries_of book.old) }
    ensures { AreNumbersBelow number_of_notice 2 (entries_of book.new) }
{
    let answers = module.notify(alloc, book).expect(rt, "memory");
    same(rt, answers.as_slice(), wanted);
}

/// Notices are called once a save has what they wait for, and not before.
pub(crate) fn notify_of_a_save<K: ChannelPort, D: SaveDevice, R: Abort>(
    rt: &R,
    alloc: Global,
    load: &mut Load<K, D>,
) {
    let first: Notice = Box::new(alloc, |told: Persisted| told.mark).expect(rt, "memory");
    let second: Notice = Box::new(alloc, |told: Persisted| told.number).expect(rt, "memory");
    let third: Notice = Box::new(alloc, |told: Persisted| told.mark).expect(rt, "memory");
    let (mut book, third) = full_book(rt, alloc, first, second, third);
    notifies(rt, alloc, &load.running, &mut book, &[]);
    load.save_three_writes(rt);
    let (first, second) = (
        Called {
            number: 0,
            answer: 3,
        },
        Called {
            number: 1,
            answer: 1,
        },
    );
    notifies(rt, alloc, &load.running, &mut book, &[first, second]);
    same(rt, book.register(2, third).is_ok(), true);
    let told = Persisted { number: 2, mark: 3 };
    same(rt, load.running.persisted(2), Some(told));
    same(rt, load.running.persisted(3), None);
}

/// Another writer formats the device of a life that goes on: what was told persistent is gone, and no verdict tells it.
pub(crate) fn write_behind_its_back<K: ChannelPort, D: SaveDevice, R: Abort>(
    rt: &R,
    alloc: Global,
    load: &mut Load<K, D>,
) {
    load.save_three_writes(rt);
    same(rt, load.running.mark(), 3);
    format_again(rt, &mut load.device);
    let image = Image {
        generation: 1,
        count: 0,
        verdict: Verdict::Complete,
        first: 0,
        last: 0,
    };
    restores_to(rt, alloc, &mut load.device, image);
}
