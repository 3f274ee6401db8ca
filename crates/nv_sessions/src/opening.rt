//! The parts of a world go behind locks.

ghost use Rattle.std.specs.Prelude.{◌≡◌, ◌≤◌, [], length, vec_capacity, vec_len};
ghost use Rattle.nv_base.specs.declared.limits.TheConstants.{ACTORS};
ghost use Rattle.nv_sessions.specs.Names.{AreBlockNames, AreCommitNames, AreSnapshotNames};
ghost use Rattle.nv_sessions.specs.Opened.{versions_in};
ghost use Rattle.nv_sessions.specs.Opening.{blocks_in};

use crate::book::LockedBook;
use crate::deferred_flag::{DeferredFlag, has_deferred};
use crate::first_locks::{LockRoom, lock_first_cells, lock_first_lists};
use crate::locked_parts::LockedParts;
use crate::names::{Blocks, Commits, Ledgers, Opened};
use crate::seats::{Reserve, Seating, free_seats};
use crossbeam_utils::CachePadded;
use nv_parts::Parts;
use std::alloc::Global;
use std::sync::Mutex;

impl<C: Commits, B: Blocks> LockedParts<C, B> {
    /// Puts parts behind locks, in room that was made before, with a share of the blocks beside each list and cell and the
    /// owner of an inode beside its cell. The ledgers say what stands now: the number of the last commit, the epoch, how many
    /// snapshots live, and the version of each inode. The book goes behind its lock with the snapshots of the world.
    pub fn of_parts(
        alloc: Global,
        parts: Parts,
        ledgers: Ledgers,
        room: LockRoom<C, B>,
    ) -> LockedParts<C, B>
        requires commits { AreCommitNames ledgers C.name C.parts C.whole C.table }
        requires snapshots { AreSnapshotNames ledgers C.snap_name C.snap_parts }
        requires blocks { AreBlockNames ledgers B.name B.parts B.whole B.placed
            parts.geometry.numbers }
        requires stood { (C.commit ≡ parts.book.state.commit)
            × (C.epoch ≡ parts.book.state.snaps.epoch)
            × (C.living ≡ length parts.book.state.snaps.living)
            × (C.opened ≡ versions_in parts.cells) }
        requires slots { (length parts.cells ≡ parts.geometry.numbers.inodes)
            × (length parts.lists ≡ parts.geometry.numbers.cpus) }
        requires device { blocks_in parts ≡ parts.geometry.numbers.blocks }
        requires cells { (vec_len room.cells.locks ≡ 0)
            × (length parts.cells ≤ vec_capacity room.cells.locks) }
        requires lists { (room.lists.items ≡ []) × (length parts.lists ≤ vec_capacity room.lists) }
        requires seats { (room.seats.items ≡ []) × (ACTORS ≤ vec_capacity room.seats) }
        ensures blocks { result.total.amount ≡ blocks_in parts }
        ensures geometry { result.geometry ≡ parts.geometry }
        ensures seats { result.seating.given ≡ 0 }
    {
        let (geometry, cells, lists, pool, book) = parts.into_fields();
        let Opened {
            cut,
            fresh,
            mut maker,
            commits,
            all_commits: mut spare_commits,
            snap_book,
            all_snapped: mut spare_snapped,
            blocks: mut counts,
            all_blocks: mut spare_blocks,
        } = ledgers.open::<C, B>(&geometry);
        let LockRoom {
            cells: cell_locks,
            lists: list_locks,
            seats,
        } = room;
        let cells = lock_first_cells(
            &fresh,
            &mut maker,
            &mut counts,
            &mut spare_blocks,
            cells.into_vec(),
            cell_locks,
        );
        let lists = lock_first_lists(&mut counts, &mut spare_blocks, lists.into_vec(), list_locks);
        let free = free_seats(
            &fresh,
            &mut maker,
            &mut spare_commits,
            &mut spare_snapped,
            &mut spare_blocks,
            seats,
        );
        let reserve = Reserve {
            cut,
            notes: maker.seen(&fresh),
            commits: spare_commits,
            snapped: spare_snapped,
            blocks: spare_blocks,
        };
        let seating = Seating {
            free,
            given: 0,
            reserve: Mutex::new(reserve),
        };
        let flagged = has_deferred(&book);
        LockedParts {
            alloc,
            geometry,
            cells,
            lists,
            pool: CachePadded::new(Mutex::new(pool)),
            book: CachePadded::new(Mutex::new(LockedBook {
                book,
                commits,
                snap_book,
                flagged,
            })),
            deferred_flag: CachePadded::new(DeferredFlag::new(flagged)),
            fresh,
            seating,
            total: counts.close(),
        }
    }
}
