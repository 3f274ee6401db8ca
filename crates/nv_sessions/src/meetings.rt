//! What a session finds under a lock whose guard its thread holds.

ghost use Rattle.std.specs.Prelude.{◌≡◌, ◌+◌, ◌≤◌, slice_index};
ghost use Rattle.nv_sessions.specs.Locked.{version_at};

use crate::book::LockedBook;
use crate::cell::LockedCell;
use crate::locked_parts::LockedParts;
use crate::names::{Blocks, Commits};
use crate::session::Session;
use std::sync::Wait;

impl<C: Commits, B: Blocks> Session<C, B> {
    /// Nothing changes. Whoever holds this cell's guard and the session finds at least the version that the session has seen
    /// of the inode.
    pub fn meet_cell<R: Wait>(
        &mut self,
        rt: &R,
        service: &LockedParts<C, B>,
        cell: &mut LockedCell<C, B>,
    )
        ensures session { self.new ≡ self.old }
        ensures cell { cell.new ≡ cell.old }
        // Who holds a cell's guard and a session finds at least the version that it has seen.
        ensures met { version_at C.opened cell.old.ino (slice_index self.old.seen cell.old.ino)
            ≤ cell.old.version }
    {
        cell.check_seen(rt, &service.fresh, &mut self.seat.notes);
    }

    /// Nothing changes. Whoever holds the book's guard and the session finds at least the commits that stood at the opening
    /// and those of the session.
    pub fn meet_book(&mut self, book: &mut LockedBook<C>)
        ensures session { self.new ≡ self.old }
        ensures book { book.new ≡ book.old }
        // Who holds the book's guard and a session finds at least its commits.
        ensures met { C.commit + self.old.commits ≤ book.old.state.commit }
    {
        book.commits.audit(&mut self.seat.commits);
    }
}
