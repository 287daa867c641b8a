//! What no clause says: that calls succeed, and that conflicts, names and counts are the ones that are meant.

use bytes::Bytes;
use lsm_claim::{Claim, ClaimBook, ClaimError, Ending, Hull, JobId, Settled, Want, shares_level};
use lsm_key::{Items, KeyRangeRef};
use std::alloc::Global;
use std::process::Abort;
use std::test::Fail;

fn hull_of(rt: &impl Abort, lo: &'static str, hi: &'static str) -> Hull {
    let lo = Bytes::from_static(lo.as_bytes());
    let hi = Bytes::from_static(hi.as_bytes());
    Hull::new(lo, hi).expect(rt, "no hull")
}

/// A job of a level with these keys and two files. A claim can't be left behind by `?`, so running out of memory ends
/// the test.
fn want_of(rt: &impl Abort, alloc: Global, level: u8, lo: &'static str, hi: &'static str) -> Want {
    let files = [7, 9].to_vec(alloc).expect(rt, "no files");
    Want {
        level,
        files: Items::from_vec(files),
        hull: hull_of(rt, lo, hi),
    }
}

/// A claim of such a job.
fn claim_of(
    rt: &impl Abort,
    book: &mut ClaimBook,
    alloc: Global,
    level: u8,
    lo: &'static str,
    hi: &'static str,
) -> Claim {
    let want = want_of(rt, alloc, level, lo, hi);
    book.claim(want).expect(rt, "no claim")
}

/// Why such a job is not claimed, if it is not.
fn refusal_of(
    rt: &impl Abort,
    book: &mut ClaimBook,
    alloc: Global,
    level: u8,
    lo: &'static str,
    hi: &'static str,
) -> Option<ClaimError> {
    let want = want_of(rt, alloc, level, lo, hi);
    let claimed = book.claim(want);
    refusal(book, claimed)
}

/// Why there is no claim. One that there is goes back.
fn refusal(book: &mut ClaimBook, claimed: Result<Claim, ClaimError>) -> Option<ClaimError> {
    match claimed {
        Ok(claim) => {
            book.settle(claim, Ending::Returned);
            None
        }
        Err(why) => Some(why),
    }
}

fn id(epoch: u64, number: u64) -> JobId {
    JobId { epoch, number }
}

/// How many claims the book gave, and how many were settled in each way.
fn counts(book: &ClaimBook) -> (u64, u64, u64) {
    (book.made(), book.installed(), book.returned())
}

// Results are compared once the claims are settled.
#[test]
fn jobs_that_share_a_level_and_a_key_wait_for_each_other(rt: HostRuntime) {
    let alloc = rt.alloc();
    let mut book = ClaimBook::new(alloc, 1);
    let first = claim_of(&rt, &mut book, alloc, 0, "a", "c");
    let beside_one = refusal_of(&rt, &mut book, alloc, 1, "b", "d");
    let second = claim_of(&rt, &mut book, alloc, 2, "b", "d");
    let beside_two = refusal_of(&rt, &mut book, alloc, 1, "b", "d");
    let names = (first.id(), second.id());
    let first_settled = book.settle(first, Ending::Returned);
    let beside_second = refusal_of(&rt, &mut book, alloc, 1, "b", "d");
    let second_settled = book.settle(second, Ending::Installed);
    let met = Some(ClaimError::Overlaps(id(1, 1)));
    assert!(rt; (beside_one, beside_two) == (met, met));
    assert!(rt; beside_second == Some(ClaimError::Overlaps(id(1, 2))));
    assert!(rt; names == (id(1, 1), id(1, 2)));
    assert!(rt; (first_settled, second_settled) == (Settled::Live, Settled::Live));
}

#[test]
fn a_fifth_claim_is_refused(rt: HostRuntime) {
    let alloc = rt.alloc();
    let mut book = ClaimBook::new(alloc, 1);
    let first = claim_of(&rt, &mut book, alloc, 0, "a", "c");
    let second = claim_of(&rt, &mut book, alloc, 2, "b", "d");
    let third = claim_of(&rt, &mut book, alloc, 0, "d", "e");
    let fourth = claim_of(&rt, &mut book, alloc, 2, "e", "f");
    let fifth = refusal_of(&rt, &mut book, alloc, 5, "a", "z");
    let met = refusal_of(&rt, &mut book, alloc, 1, "b", "d");
    let live = book.live().len();
    let mut are_live = book.settle(third, Ending::Installed) == Settled::Live;
    are_live &= book.settle(first, Ending::Returned) == Settled::Live;
    are_live &= book.settle(fourth, Ending::Installed) == Settled::Live;
    are_live &= book.settle(second, Ending::Installed) == Settled::Live;
    let left = book.live().len();
    assert!(rt; fifth == Some(ClaimError::BookFull));
    assert!(rt; met == Some(ClaimError::Overlaps(id(1, 1))));
    assert!(rt; are_live && (live, left) == (4, 0));
    assert!(rt; counts(&book) == (4, 3, 1));
}

#[test]
fn a_claim_of_another_epoch_is_stale(rt: HostRuntime) {
    let alloc = rt.alloc();
    let mut old = ClaimBook::new(alloc, 1);
    let mut new = ClaimBook::new(alloc, 2);
    let held = claim_of(&rt, &mut old, alloc, 0, "a", "c");
    let live = claim_of(&rt, &mut new, alloc, 0, "a", "c");
    let names = (held.id(), live.id());
    let own = (old.holds(&held), new.holds(&live));
    let others = (old.holds(&live), new.holds(&held));
    let first = (new.settle(held, Ending::Installed), counts(&new));
    let second = (new.settle(live, Ending::Returned), counts(&new));
    assert!(rt; names == (id(1, 1), id(2, 1)));
    assert!(rt; (own, others) == ((true, true), (false, false)));
    assert!(rt; first == (Settled::Stale, (1, 0, 0)));
    assert!(rt; second == (Settled::Live, (1, 0, 1)));
    assert!(rt; (new.epoch(), old.live().len()) == (2, 1));
}

#[test]
fn a_claim_has_what_was_wanted(rt: HostRuntime) {
    let mut book = ClaimBook::new(rt.alloc(), 3);
    let claim = claim_of(&rt, &mut book, rt.alloc(), 4, "k", "p");
    let level = claim.level();
    let inputs_are_same = claim.inputs() == [7, 9].as_slice();
    let lo_is_same = claim.hull().lo.as_slice() == b"k".as_slice();
    let hi_is_same = claim.hull().hi.as_slice() == b"p".as_slice();
    let settled = book.settle(claim, Ending::Installed);
    assert!(rt; level == 4);
    assert!(rt; inputs_are_same && lo_is_same && hi_is_same);
    assert!(rt; settled == Settled::Live);
}

#[test]
fn hulls_meet_at_their_ends(rt: HostRuntime) {
    let hull = hull_of(&rt, "b", "d");
    for (lo, hi, want) in [
        ("a", "az", false),
        ("a", "b", true),
        ("c", "c", true),
        ("a", "z", true),
        ("d", "e", true),
        ("d\0", "e", false),
    ] {
        let keys = KeyRangeRef {
            lo: lo.as_bytes(),
            hi: hi.as_bytes(),
        };
        let found = hull.range().overlaps(keys);
        assert!(rt; found == want, "from {lo} to {hi}");
    }
}

#[test]
fn a_hull_has_a_key(rt: HostRuntime) {
    for (lo, hi, want) in [("a", "b", true), ("b", "b", true), ("b", "a", false)] {
        let lo = Bytes::from_static(lo.as_bytes());
        let hi = Bytes::from_static(hi.as_bytes());
        let found = Hull::new(lo, hi).is_some();
        assert!(rt; found == want);
    }
}

#[test]
fn a_job_uses_its_level_and_the_next(rt: HostRuntime) {
    for (a, b, want) in [
        (0, 0, true),
        (0, 1, true),
        (1, 0, true),
        (0, 2, false),
        (2, 0, false),
        (5, 6, true),
        (255, 255, true),
        (255, 0, false),
    ] {
        assert!(rt; shares_level(a, b) == want, "levels {a} and {b}");
    }
}

#[test]
fn refusals_have_texts(rt: HostRuntime) -> Result<(), Fail> {
    for (why, want) in [
        (
            ClaimError::Overlaps(id(3, 14)),
            "the live job 3.14 shares a level, and has a key in common",
        ),
        (ClaimError::BookFull, "four claims are live"),
        (
            ClaimError::NumbersExhausted,
            "the job numbers are exhausted",
        ),
        (ClaimError::OutOfMemory, "out of memory"),
    ] {
        let text = format!(in rt.alloc(); "{why}")?;
        assert_eq!(rt; text.as_str(), want);
    }
    Ok(())
}
