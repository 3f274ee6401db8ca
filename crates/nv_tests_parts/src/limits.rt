//! The last commit and the last epoch, and how many events a book keeps.

use crate::compare::same;
use nv_base::{CommitNo, Epoch, Fault, limits};
use nv_book::Book;
use nv_epoch::SnapList;
use nv_scenes::{Row, geometry};
use std::process::Abort;
use std::test::Fail;

/// A device whose world has one living snapshot at most.
const DEVICE: Row = [16, 2, 4, 4, 8, 1, 3];

/// A snapshot list in the last epoch makes no snapshot: worked out by hand.
#[test]
fn a_list_ends_at_the_last_epoch(rt: HostRuntime) -> Result<(), Fail> {
    let mut list = SnapList::new(rt.alloc(), 1, Epoch::new(limits::NUMBER))?;
    same(&rt, list.make(), Err(Fault::EpochLimit));
    same(
        &rt,
        (list.len(), list.epoch()),
        (0, Epoch::new(limits::NUMBER)),
    );
    Ok(())
}

/// A book makes the last commit and the last snapshot, and then none: worked out by hand.
#[test]
fn a_book_ends_at_the_last_commit_and_epoch(rt: HostRuntime) -> Result<(), Fail> {
    let last = limits::NUMBER - 1;
    let (epoch, commit) = (Epoch::new(last), CommitNo::new(last));
    let mut book = Book::starting_at(rt.alloc(), &geometry(DEVICE)?, epoch, commit)?;
    same(
        &rt,
        book.enter(0, 1)?,
        (epoch, CommitNo::new(limits::NUMBER)),
    );
    same(&rt, book.enter(0, 1), Err(Fault::CommitLimit));
    same(&rt, book.make_snapshot(), Ok(epoch));
    same(&rt, book.make_snapshot(), Err(Fault::EpochLimit));
    Ok(())
}

fn enter_all(rt: &impl Abort, book: &mut Book, commits: u64) {
    for _commit in 0..commits {
        book.enter(0, 0).expect(rt, "no memory is asked for");
    }
}

/// After so many commits and nothing else: the last commit of the base, and how many events are kept. By hand.
const LATEST: [(u64, u64, usize); 3] = [(256, 0, 256), (1, 1, 256), (43, 44, 256)];

/// Of 300 commits the latest 256 are kept, and the base has commit 44: worked out by hand.
#[test]
fn a_book_keeps_the_latest_events(rt: HostRuntime) -> Result<(), Fail> {
    let mut book = Book::new(rt.alloc(), &geometry(DEVICE)?)?;
    for (commits, base, kept) in LATEST {
        enter_all(&rt, &mut book, commits);
        same(&rt, book.base()?.commit(), CommitNo::new(base));
        same(&rt, book.history().len(), kept);
    }
    Ok(())
}
