// Books from their first notice to its call. The expected values are worked out by hand.
ghost use Rattle.std.specs.Prelude.{◌≡◌, ◌<◌, ℕ, []};
ghost use Rattle.notice_book.specs.NoticeBooks.{entries_of};
ghost use Rattle.notice_book.specs.Told.{IsCallableAbove};

use crate::check::same;
use notice_book::{Called, InsertRefusal, Notice, NoticeBook, Notices, Persisted};
use std::alloc::{AllocError, Global};
use std::process::Abort;
use std::sync::Arc;
use std::sync::atomic::{AtomicU64, Ordering};

// A notice that answers the mark.
fn tells_mark<R: Abort>(rt: &R, alloc: Global) -> Notice
    ensures { (number : ℕ) → IsCallableAbove (λ told. Notice.pre result told) number }
{
    Box::new(alloc, |told: Persisted| told.mark).expect(rt, "memory")
}

// A notice that answers its number.
fn tells_number<R: Abort>(rt: &R, alloc: Global) -> Notice
    ensures { (number : ℕ) → IsCallableAbove (λ told. Notice.pre result told) number }
{
    Box::new(alloc, |told: Persisted| told.number).expect(rt, "memory")
}

// A notice that answers how far the mark is above its number, and may be called only below it.
fn tells_distance<R: Abort>(rt: &R, alloc: Global) -> Notice
    ensures { (number : ℕ) → IsCallableAbove (λ told. Notice.pre result told) number }
{
    let notice: Notice = Box::new(
        alloc,
        |told: Persisted| -> u64
            requires { told.number < told.mark }
        { told.mark - told.number },
    )
    .expect(rt, "memory");
    notice
}

// A notice that counts its call, and answers how many there were before.
fn counts<R: Abort>(rt: &R, alloc: Global, calls: &Arc<AtomicU64>) -> Notice
    ensures { (number : ℕ) → IsCallableAbove (λ told. Notice.pre result told) number }
{
    let counter = calls.clone().expect(rt, "memory");
    let notice: Notice = Box::new(alloc, move |_| counter.fetch_add(1, Ordering::SeqCst)).expect(
        rt, "memory",
    );
    notice
}

// A notice that was called, and its answer.
fn called(number: u64, answer: u64) -> Called {
    Called { number, answer }
}

// Two notices fill a book, a third one comes back, and the two are called.
fn fills<R: Abort>(
    rt: &R,
    alloc: Global,
    first: Notice,
    second: Notice,
    third: Notice,
) -> (NoticeBook, Notice)
    requires first { IsCallableAbove (λ told. Notice.pre first told) 0 }
    requires second { IsCallableAbove (λ told. Notice.pre second told) 1 }
    requires third { IsCallableAbove (λ told. Notice.pre third told) 2 }
    ensures empty { entries_of result.0 ≡ [] }
    ensures back { result.1 ≡ third }
{
    let mut book = NoticeBook::with_room(alloc, 2).expect(rt, "memory");
    assert!(*rt; book.is_empty());
    assert!(*rt; book.register(0, first).is_ok());
    assert!(*rt; book.register(1, second).is_ok());
    assert!(*rt; book.is_full());
    let Err(full) = book.register(2, third) else {
        panic!(*rt; "a third notice in a book for two");
    };
    let answers = book.deliver(alloc, 3).expect(rt, "memory");
    same(
        rt,
        answers.as_slice(),
        [called(0, 3), called(1, 1)].as_slice(),
    );
    (book, full.notice)
}

#[test]
fn a_full_book_hands_the_notice_back(rt: HostRuntime) {
    let alloc = rt.alloc();
    let (first, second) = (tells_mark(&rt, alloc), tells_number(&rt, alloc));
    let (mut book, back) = fills(&rt, alloc, first, second, tells_distance(&rt, alloc));
    same(&rt, book.register(2, back).is_ok(), true);
    same(&rt, book.len(), 1);
    answered(&rt, book.deliver(alloc, 5), &[called(2, 3)]);
}

// The notices that were called answered so.
fn answered<R: Abort>(rt: &R, answers: Result<Vec<Called>, AllocError>, wanted: &[Called]) {
    same(rt, answers.expect(rt, "memory").as_slice(), wanted);
}

// Each notice answers how many calls there were before its own.
#[test]
fn a_mark_calls_those_below_it(rt: HostRuntime) {
    let alloc = rt.alloc();
    let mut book = NoticeBook::with_room(alloc, 4).expect(&rt, "memory");
    let calls = Arc::new(alloc, AtomicU64::new(0)).expect(&rt, "memory");
    for number in [3, 0, 2, 1] {
        let notice = counts(&rt, alloc, &calls);
        same(&rt, book.insert(number, notice).is_ok(), true);
    }
    answered(&rt, book.deliver(alloc, 0), &[]);
    answered(
        &rt,
        book.deliver(alloc, 3),
        &[called(0, 0), called(1, 1), called(2, 2)],
    );
    answered(&rt, book.deliver(alloc, 3), &[]);
    same(&rt, calls.load(Ordering::SeqCst), 3);
    answered(&rt, book.deliver(alloc, 4), &[called(3, 3)]);
    same(&rt, calls.load(Ordering::SeqCst), 4);
}

// Of three notices the second has the number of the first, and the last finds no room.
fn inserts<R: Abort>(rt: &R, alloc: Global, first: Notice, second: Notice, third: Notice)
    requires first { IsCallableAbove (λ told. Notice.pre first told) 7 }
    requires second { IsCallableAbove (λ told. Notice.pre second told) 5 }
    requires again { IsCallableAbove (λ told. Notice.pre second told) 7 }
    requires third { IsCallableAbove (λ told. Notice.pre third told) 5 }
{
    let mut book = NoticeBook::with_room(alloc, 2).expect(rt, "memory");
    same(rt, book.insert_notice(7, first).is_ok(), true);
    let Err(InsertRefusal::Taken(back)) = book.insert(7, second) else {
        panic!(*rt; "two notices of one number");
    };
    same(rt, book.insert(5, back).is_ok(), true);
    let full = matches!(book.insert(5, third), Err(InsertRefusal::Full(_)));
    same(rt, full, true);
    answered(
        rt,
        book.deliver_below(alloc, 9),
        &[called(5, 5), called(7, 9)],
    );
}

#[test]
fn an_insert_is_refused_by_its_reason(rt: HostRuntime) {
    let alloc = rt.alloc();
    let (first, second) = (tells_mark(&rt, alloc), tells_number(&rt, alloc));
    inserts(&rt, alloc, first, second, tells_number(&rt, alloc));
}
