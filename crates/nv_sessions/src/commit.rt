//! A commit over parts whose guards are held.

ghost use Rattle.std.specs.Prelude.{◌≡◌, ◌+◌, ◌<◌, ◌≤◌, ◌↔◌, IfErr, IfOk, IsTrue, OnErr, OnOk, length};
ghost use Rattle.nv_base.specs.declared.limits.TheConstants.{NUMBER};
ghost use Rattle.nv_calls.specs.CanCommit.{IsClosed};
ghost use Rattle.nv_calls.specs.Committed.{hand_left, receipt_by};
ghost use Rattle.nv_calls.specs.Ready.{ArePlaced};
ghost use Rattle.nv_epoch.specs.SnapList.{ids};
ghost use Rattle.nv_sessions.specs.Committing.{CommitsCells, IsReadyOver, RefusesCommit, TakeNext, after_commit, next_commit};

use crate::book::LockedBook;
use crate::names::Commits;
use nv_alloc::Hand;
use nv_base::{Fault, MismatchPart, limits};
use nv_book::Book;
use nv_calls::{Cells, Ready, Receipt, commit_on, is_closed, takes_commit};
use std::sync::ledger::Share;

/// Commits what is ready over cells whose guards are held, as the book's next commit of a seat, with a CPU's journal. It
/// counts as one of the share's.
///
/// `CommitLimit` where the last number is given; `Mismatch` of `Records` where the CPU has no closed journal, and of
/// `Index` where a cell that gets entries does not take the commit; then `OutOfMemory`, where the book has less room than
/// the commit needs. With an error nothing has changed, and what was ready comes back. The cost is that of the commit.
pub(crate) fn commit_over<C: Commits, L: Cells>(
    book: &mut LockedBook<C>,
    lent: &mut L,
    ready: Ready,
    seat: u64,
    cpu: u64,
    mine: &mut Share<C>,
) -> Result<(Receipt, Hand), (Fault, Ready)>
    requires part { 0 < mine.old.parts }
    requires ready { IsReadyOver (L.cells lent.old) ready }
    // A commit over held cells is that of `commit_on`, by the book's next stamp.
    ensures cells { OnOk result
        (CommitsCells book.old.state ready (L.cells lent.old) (L.cells lent.new)) }
    ensures book { OnOk result
        (book.new.state ≡ after_commit seat (L.cells lent.old) ready book.old.state) }
    ensures receipt { IfOk result (λ done. done.0
        ≡ receipt_by (L.cells lent.old) (next_commit book.old.state ready)) }
    ensures hand { IfOk result (λ done. done.1 ≡ hand_left (ids book.old.state.snaps)
        (L.cells lent.old) (next_commit book.old.state ready)) }
    ensures journal { OnOk result (IsClosed book.old.state cpu) }
    ensures take { OnOk result (TakeNext book.old.state (L.cells lent.old) ready) }
    ensures counted { OnOk result (mine.new.amount ≡ mine.old.amount + 1) }
    ensures least { OnOk result (C.commit + mine.new.amount ≤ book.new.state.commit) }
    ensures parts { mine.new.parts ≡ mine.old.parts }
    ensures frame { L.frame lent.new ≡ L.frame lent.old }
    // It is refused by the limit, a journal, a cell that does not take it, or memory alone.
    ensures err { IfErr result (λ refused.
        RefusesCommit book.old (L.cells lent.old) ready cpu refused.0) }
    ensures ready { IfErr result (λ refused. refused.1 ≡ ready) }
    // A refused commit changes nothing, and what was ready comes back.
    ensures same { OnErr result ((L.cells lent.new ≡ L.cells lent.old) × (book.new ≡ book.old)
        × (mine.new.amount ≡ mine.old.amount)) }
{
    if let Err(fault) = test_commit(&book.book, lent, &ready, cpu) {
        return Err((fault, ready));
    }
    if let Err(fault) = book.enter(seat, ready.need(), mine) {
        return Err((fault, ready));
    }
    Ok(commit_on(&mut book.book, lent, ready, cpu))
}

/// Why a commit is refused before it is entered, if it is.
fn test_commit<L: Cells>(book: &Book, lent: &L, ready: &Ready, cpu: u64) -> Result<(), Fault>
    requires few { length (L.cells lent.now) ≤ 4 }
    requires placed { ArePlaced (L.cells lent.now) ready.now.plans }
    ensures number { OnOk result (book.now.state.commit < NUMBER) }
    ensures journal { OnOk result (IsClosed book.now.state cpu) }
    ensures take { OnOk result (TakeNext book.now.state (L.cells lent.now) ready.now) }
    ensures err { IfErr result (RefusesCommit book.now (L.cells lent.now) ready.now cpu) }
{
    if book.commit().number() == limits::NUMBER {
        return Err(Fault::CommitLimit);
    }
    if !is_closed(book, cpu) {
        return Err(Fault::Mismatch(MismatchPart::Records));
    }
    if !take_next(book, lent, ready) {
        return Err(Fault::Mismatch(MismatchPart::Index));
    }
    Ok(())
}

/// Whether each cell that gets entries takes the book's next commit.
fn take_next<L: Cells>(book: &Book, lent: &L, ready: &Ready) -> bool
    requires few { length (L.cells lent.now) ≤ 4 }
    requires placed { ArePlaced (L.cells lent.now) ready.now.plans }
    ensures { IsTrue result ↔ TakeNext book.now.state (L.cells lent.now) ready.now }
{
    for j in 0..ready.planned() {
        if !takes_commit(book, lent.cell(ready.place_of(j))) {
            return false;
        }
    }
    true
}
