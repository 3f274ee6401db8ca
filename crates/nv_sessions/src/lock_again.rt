//! Parts that made no world go behind their locks again.

ghost use Rattle.std.specs.Prelude.{◌≡◌, ◌+◌, map};
ghost use Rattle.nv_sessions.specs.UnlockedParts.{AreAllSlots, list_told, rest_told, cell_told};
ghost use Rattle.nv_sessions.specs.Snapped.{AreSnapped};

use crate::book::LockedBook;
use crate::deferred_flag::{DeferredFlag, has_deferred};
use crate::locked_parts::LockedParts;
use crate::names::{Blocks, Commits};
use crate::unlocked::{lock_cells, lock_lists};
use crate::unlocked_parts::UnlockedParts;
use crossbeam_utils::CachePadded;
use nv_parts::Parts;
use std::sync::Mutex;

impl<C: Commits, B: Blocks> UnlockedParts<C, B> {
    /// Puts the parts behind their locks again. Takes no memory.
    pub fn lock_again(self, parts: Parts) -> LockedParts<C, B>
        requires cells { map rest_told self.cells.items ≡ map cell_told parts.cells }
        // All cells of a refused `close` go back in the order of their slots.
        requires slots { AreAllSlots self.cells.items }
        requires lists { self.lists.items ≡ map list_told parts.lists }
        requires commits { parts.book.state.commit ≡ C.commit + self.commits.total }
        requires snapshots { AreSnapped C.living C.epoch parts.book.state.snaps
            self.snap_book.total }
        requires geometry { parts.geometry ≡ self.geometry }
        ensures total { result.total ≡ self.total }
        ensures geometry { result.geometry ≡ self.geometry }
        ensures given { result.seating.given ≡ self.seating.given }
    {
        let UnlockedParts {
            alloc,
            geometry: _,
            mut cell_locks,
            cells: cell_rests,
            mut list_locks,
            lists: list_rests,
            commits,
            snap_book,
            fresh,
            seating,
            total,
        } = self;
        let (geometry, cells, lists, pool, book) = parts.into_fields();
        lock_cells(cells.into_vec(), cell_rests, &mut cell_locks);
        lock_lists(lists.into_vec(), list_rests, &mut list_locks);
        let flagged = has_deferred(&book);
        LockedParts {
            alloc,
            geometry,
            cells: cell_locks,
            lists: list_locks,
            pool: CachePadded::new(Mutex::new(pool)),
            book: CachePadded::new(Mutex::new(LockedBook {
                book,
                commits,
                snap_book,
                flagged,
            })),
            deferred_flag: CachePadded::new(DeferredFlag::new(flagged)),
            fresh,
            seating,
            total,
        }
    }
}
