//! What may be sent to other threads.

use nv_alloc::{FreeList, Hand, InodePool};
use nv_base::Epoch;
use nv_book::Book;
use nv_epoch::SnapList;
use nv_findex::FileIndex;
use nv_journal::Journal;
use nv_log::Chain;
use nv_nindex::NameIndex;
use nv_scenes::{Row, crosses_threads, geometry};
use std::test::Fail;
use std::thread;

const DEVICE: Row = [16, 2, 4, 4, 8, 4, 3];

/// The free list of the first CPU, and a hand.
fn blocks_cross(list: FreeList, hand: Hand) {
    crosses_threads(&list);
    crosses_threads(&hand);
    list.dismantle();
    hand.dismantle();
}

/// Lists, hands, pools, chains, indexes, snapshot lists and journals are `Send` and `Sync`: no clause speaks of threads.
#[test]
fn parts_cross_threads(rt: HostRuntime) -> Result<(), Fail> {
    let device = geometry(DEVICE)?;
    assert!(rt; 0 < device.numbers.cpus);
    let list = FreeList::new(rt.alloc(), &device, 0)?;
    blocks_cross(list, Hand::new(rt.alloc(), &device));
    crosses_threads(&InodePool::new(rt.alloc(), &device)?);
    crosses_threads(&FileIndex::new(rt.alloc()));
    crosses_threads(&NameIndex::new(rt.alloc()));
    crosses_threads(&SnapList::new(rt.alloc(), 1, Epoch::new(1))?);
    crosses_threads(&Journal::new());
    let chain = Chain::new(rt.alloc(), 2);
    crosses_threads(&chain);
    chain.into_blocks().destroy_empty();
    Ok(())
}

/// A book is `Send`: another thread takes it. No clause speaks of threads.
#[test]
fn a_book_goes_through_a_thread(rt: HostRuntime) -> Result<(), Fail> {
    let book = Book::new(rt.alloc(), &geometry(DEVICE)?)?;
    let child = thread::spawn(&rt, move || book.stored())?;
    assert!(rt; child.join(&rt) == 0);
    Ok(())
}
