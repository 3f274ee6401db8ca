//! What a commit asks of the book and of its cells beside what is ready.

ghost use Rattle.std.specs.Prelude.{◌↔◌, IsTrue};
ghost use Rattle.nv_calls.specs.CanCommit.{IsClosed, TakesCommit, next_stamp};

use nv_base::limits;
use nv_book::Book;
use nv_cell::InodeCell;

/// Whether a cell takes the book's next commit: its entries are of earlier commits and of no later epoch than the
/// present one, and neither its version nor its generation is the last. Takes no memory.
pub fn takes_commit(book: &Book, cell: &InodeCell) -> bool
    // Whether a cell takes the book's next commit is told exactly.
    // A cell with an entry of a later epoch takes none.
    ensures { IsTrue result ↔ TakesCommit (next_stamp book.now.state) cell.now }
{
    let log = cell.log();
    if let Some(last) = log.last_id() {
        if last.commit > book.commit() {
            return false;
        }
    }
    if let Some(last) = log.last_epoch() {
        if last > book.epoch() {
            return false;
        }
    }
    cell.version() < limits::NUMBER && !cell.is_withheld()
}

/// Whether a CPU has a journal, and it is closed. Takes no memory.
pub fn is_closed(book: &Book, cpu: u64) -> bool
    // Whether a CPU has a journal that is closed is told exactly.
    ensures { IsTrue result ↔ IsClosed book.now.state cpu }
{
    cpu < book.cpus() && !book.journal(cpu).is_open()
}
