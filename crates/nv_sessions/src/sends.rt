//! Which values may go to another thread, and which may be seen by several: each of these functions is proved only where
//! its types allow it.

use crate::book::LockedBook;
use crate::cell::LockedCell;
use crate::list::LockedList;
use crate::names::{Blocks, Commits, Ledgers};
use crate::passes::Fresh;
use crate::seen_versions::SeenVersions;
use nv_alloc::{FreeList, Hand, InodePool};
use nv_book::Book;
use nv_cell::InodeCell;
use std::sync::{Mutex, RwLock};

fn is_send<T: Send>(_value: &T) {}

fn is_sync<T: Sync>(_value: &T) {}

/// Each part of a world may go to another thread.
fn parts_are_send(
    cell: &InodeCell,
    list: &FreeList,
    pool: &InodePool,
    book: &Book,
    hand: &Hand,
    ledgers: &Ledgers,
) {
    is_send(cell);
    is_send(list);
    is_send(pool);
    is_send(book);
    is_send(hand);
    is_send(ledgers);
}

/// What lies under a lock, and what a session has seen, may go to another thread.
fn locked_parts_are_send<C: Commits + Send, B: Blocks>(
    cell: &LockedCell<C, B>,
    list: &LockedList<B>,
    book: &LockedBook<C>,
    seen: &SeenVersions<C>,
) {
    is_send(cell);
    is_send(list);
    is_send(book);
    is_send(seen);
}

/// Several threads may see the locks and the freshness cell.
fn locks_are_sync<C: Commits + Send + Sync, B: Blocks>(
    cell: &RwLock<LockedCell<C, B>>,
    list: &Mutex<LockedList<B>>,
    book: &Mutex<LockedBook<C>>,
    fresh: &Fresh<C>,
) {
    is_sync(cell);
    is_sync(list);
    is_sync(book);
    is_sync(fresh);
}
