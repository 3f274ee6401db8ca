//! What is at rest between two calls: the book, and each cell beside it.

ghost use Rattle.std.specs.Prelude.{◌≡◌, ◌↔◌, ◌≤◌, All, IsTrue};
ghost use Rattle.nv_epoch.specs.declared.snapshot.Snapshot.{Snapshot};
ghost use Rattle.nv_audit.specs.AtRest.{AreAllClosed, HasNoneKilled, IsAtRest, IsUpTo};

use crate::are_no_later;
use nv_base::{CommitNo, Epoch};
use nv_book::Book;
use nv_cell::InodeCell;
use nv_epoch::SnapList;

/// Whether no snapshot is pinned and no journal is open. Costs one look at each.
pub fn is_at_rest(book: &Book) -> bool
    // A book passes exactly where no snapshot is pinned and no journal is open.
    ensures { IsTrue result ↔ IsAtRest book.now.state }
{
    is_unpinned(book.snaps()) && are_journals_closed(book)
}

/// Whether no part of a log is marked killed. Costs one pass over the marks.
pub fn has_none_killed(cell: &InodeCell) -> bool
    // A cell passes exactly where no part is marked killed.
    ensures { IsTrue result ↔ HasNoneKilled cell.now.state }
{
    !cell.has_killed()
}

/// Whether a cell has seen no more commits than this, and no entry of its log is of a later commit or epoch than these.
/// Costs one pass over the log.
pub fn is_up_to(commit: CommitNo, epoch: Epoch, cell: &InodeCell) -> bool
    // A cell passes exactly where neither its version nor an entry is later than a commit and an epoch.
    ensures { IsTrue result ↔ IsUpTo commit epoch cell.now.state }
{
    cell.version() <= commit.number() && are_no_later(commit, epoch, cell.log().log())
}

/// Whether no snapshot is pinned.
fn is_unpinned(snaps: &SnapList) -> bool
    ensures { IsTrue result ↔ All (λ (s : Snapshot). s.pins ≡ 0) snaps.now.living }
{
    snaps.snapshots().iter().all(|snapshot| snapshot.pins == 0)
}

/// Whether no journal is open.
fn are_journals_closed(book: &Book) -> bool
    ensures { IsTrue result ↔ AreAllClosed book.now.state.journals }
{
    for cpu in 0..book.cpus() {
        if book.journal(cpu).is_open() {
            return false;
        }
    }
    true
}
