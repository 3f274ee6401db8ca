//! The commit lock, which a thread looks at for a while before it sleeps.

use crate::book::LockedBook;
use crate::locked_parts::LockedParts;
use crate::names::{Blocks, Commits};
use std::hint::spin_loop;
use std::sync::{MutexGuard, Wait};

/// How often a thread looks at the commit lock before it sleeps. A commit holds the lock for a few thousand instructions,
/// and to be put to sleep and woken costs more.
const LOOKS: u32 = 1000;

/// The book's guard. Costs at most so many looks before the thread waits.
pub(crate) fn lock_book<'a, C: Commits, B: Blocks, R: Wait>(
    rt: &R,
    service: &'a LockedParts<C, B>,
) -> MutexGuard<'a, LockedBook<C>> {
    let lock = service.book_lock();
    for _look in 0..LOOKS {
        if let Some(guard) = lock.try_lock() {
            return guard;
        }
        spin_loop();
    }
    lock.lock(rt)
}
