//! The journal of a commit: it notes the tails of the cells that get entries.

ghost use Rattle.std.specs.Prelude.{◌≡◌, ◌<◌, ◌≤◌, [], length, slice_index_or};
ghost use Rattle.nv_book.specs.Book.{with_journal};
ghost use Rattle.nv_calls.specs.Cells.{AreCells};
ghost use Rattle.nv_calls.specs.Ready.{ArePlaced, old_tails};

use crate::{CellCommit, Cells};
use nv_book::Book;
use nv_journal::OldTail;
use smallvec::SmallVec;
use std::alloc::Global;

/// The tails of the cells that get entries, as they are before these are published.
fn tails_of<C: Cells>(alloc: Global, cells: &C, plans: &[CellCommit]) -> SmallVec<OldTail, 4>
    requires placed { ArePlaced (C.cells cells.now) plans.now }
    requires few { length plans.now ≤ 4 }
    ensures { result.items ≡ old_tails (C.cells cells.now) plans.now }
{
    let mut tails = SmallVec::new(alloc);
    for plan in plans {
        tails.push_reserved(OldTail {
            ino: cells.ino(plan.at),
            tail: cells.cell(plan.at).tail() as u64,
        });
    }
    tails
}

/// Opens a CPU's journal with the cells that get entries and their tails, and tells these. Takes no memory.
pub(crate) fn open_journal<C: Cells>(
    alloc: Global,
    book: &mut Book,
    cells: &C,
    plans: &[CellCommit],
    cpu: u64,
) -> SmallVec<OldTail, 4>
    requires cells { AreCells (C.cells cells.now) }
    requires placed { ArePlaced (C.cells cells.now) plans.now }
    requires two { 2 ≤ length plans.now }
    requires four { length plans.now ≤ 4 }
    requires cpu { cpu < length book.old.state.journals }
    requires closed { slice_index_or book.old.state.journals cpu [] ≡ [] }
    ensures book { book.new ≡ record book.old {
      state = with_journal cpu (old_tails (C.cells cells.now) plans.now) book.old.state;
    } }
    ensures noted { result.items ≡ old_tails (C.cells cells.now) plans.now }
{
    let tails = tails_of(alloc, cells, plans);
    book.open_journal(cpu, &tails);
    tails
}
