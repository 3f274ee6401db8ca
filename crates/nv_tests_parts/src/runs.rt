//! How many runs are stored, and how many reads are counted.

use crate::compare::{same, same_for};
use nv_base::limits::FILE_PAGES;
use nv_base::{Epoch, Ino};
use nv_book::{Book, Record, Retired};
use nv_entry::Part;
use nv_findex::FileIndex;
use nv_log::ReadCount;
use nv_scenes::{geometry, id};
use std::process::Abort;
use std::test::Fail;

/// Writes of several runs: the first page, how many pages, the commit, its entry, and how many runs there are then.
const WRITES: [(u32, u32, u64, u32, usize); 4] = [
    (0, 3, 2, 0, 1),
    (1, 1, 3, 0, 3),
    (3, 1, 4, 0, 4),
    (4, 1, 4, 1, 5),
];

fn write(rt: &impl Abort, index: &mut FileIndex, first: u32, len: u32, commit: u64, place: u32) {
    assert!(rt; 0 < len && len <= FILE_PAGES && first <= FILE_PAGES - len);
    index.reserve_for(1).expect(rt, "memory for runs");
    index.set_run(first, len, id(commit, place));
}

/// Three writes make one, three and five runs, the last write being of two: worked out by hand.
#[test]
fn three_writes_make_one_three_and_five_runs(rt: HostRuntime) {
    let mut index = FileIndex::new(rt.alloc());
    for (first, len, commit, place, runs) in WRITES {
        write(&rt, &mut index, first, len, commit, place);
        same_for(&rt, &first, index.run_count(), runs);
    }
}

/// Four pages of one entry, a gap, and a page of another entry, each with its commit; and how many runs are left once it is
/// picked.
const KILLED: [(u64, u32, u64); 6] = [
    (1, 0, 3),
    (1, 1, 3),
    (1, 2, 3),
    (1, 3, 2),
    (1, 5, 1),
    (2, 6, 0),
];

fn killed(commit: u64, page: u32) -> Record {
    Record {
        ino: Ino::new(1),
        entry: id(commit, 0),
        part: Part::Page(page),
        birth: Epoch::new(1),
        death: Epoch::new(2),
    }
}

fn retire(rt: &impl Abort, book: &mut Book, record: Record) {
    assert!(rt; record.death <= book.epoch());
    assert!(rt; 0 < book.room());
    same(rt, book.retire(record), Retired::Kept);
}

/// Records of neighbouring pages are one run, and single ones are picked from it: worked out by hand.
#[test]
fn a_drain_within_a_run(rt: HostRuntime) -> Result<(), Fail> {
    let mut book = Book::new(rt.alloc(), &geometry([16, 2, 4, 4, 8, 4, 3])?)?;
    let made = book.make_snapshot()?;
    book.enter(0, 6)?;
    for (commit, page, _) in &KILLED {
        retire(&rt, &mut book, killed(*commit, *page));
    }
    book.drop_snapshot(made)?;
    same(&rt, (book.stored(), book.deferred_blocks()), (3, 6));
    for (commit, page, runs) in &KILLED {
        same_for(&rt, page, book.pick(), Some(killed(*commit, *page)));
        same_for(&rt, page, book.stored(), *runs);
    }
    Ok(())
}

/// Reads are counted up to the greatest number: no clause says what the count of reads is.
#[test]
fn reads_are_counted_up_to_the_greatest_number(rt: HostRuntime) {
    let reads = ReadCount::new();
    reads.raise(usize::MAX);
    reads.raise(1);
    same(&rt, reads.get(), u64::MAX);
}
