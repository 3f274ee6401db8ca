//! One change over cells whose guards are held, from its check to its commit.

ghost use Rattle.std.specs.Prelude.{◌≡◌, ◌+◌, ◌-◌, ◌<◌, ◌≤◌, ◌^◌, false, IfErr, IfOk, OnErr, OnOk, length};
ghost use Rattle.nv_alloc.specs.Hand.{blocks_of};
ghost use Rattle.nv_calls.specs.Cells.{AreCells};
ghost use Rattle.nv_calls.specs.AllCalls.{is_nothing};
ghost use Rattle.nv_calls.specs.Updates.{blank_call};
ghost use Rattle.nv_sessions.specs.Asking.{IsNoShortage, turned_by, turned_end};
ghost use Rattle.nv_sessions.specs.Changing.{AreWhole, HasPassed, IsOfCall, IsReceiptOf, KeepVersions, MayBeRaised, RaisesPublished, blocks_in};
ghost use Rattle.nv_sessions.specs.Committing.{IsReadyOver};
ghost use Rattle.nv_sessions.specs.Refusing.{IsWant, LooksFor, MayEnd, failed_by, reads_failed};

use crate::checking::check_over;
use crate::commit::commit_over;
use crate::commit_lock::lock_book;
use crate::locked_parts::LockedParts;
use crate::names::{Blocks, Commits};
use crate::seat::Seat;
use crate::taking::take_all;
use nv_alloc::Hand;
use nv_base::Fault;
use nv_calls::{Cells, CheckEnd, LookupResult, Ready, Receipt, Source, Update, ready_filled};
use std::sync::Wait;
use std::sync::ledger::Share;

/// A call that changes nodes, with what its looks found, and the hand that it takes blocks into.
pub(crate) struct Change<'a> {
    pub(crate) looked: &'a LookupResult,
    pub(crate) update: Update,
    pub(crate) hand: Hand,
    ghost looks: { LooksFor update looked.now },
}

/// How a change ends that is not committed: it is refused; or a name leads elsewhere than its look found, and the call
/// is to look again; or it is answered, since it commits nothing.
#[derive(Debug, Drop)]
pub(crate) enum ChangeEnd {
    Refuses(Fault),
    BoundAnew(Update),
    Answers,
}

/// Makes a change over cells that are lent, with their blocks in the seat's share: it is checked, takes its blocks, is
/// made ready and filled from the source, and committed under the book's lock.
///
/// With the receipt the seat has one commit more, and the inode of each handle of the call is at its next version. Else
/// all versions are as they were. The seat's share is that of the cells' blocks and of the hand's, as before.
#[tactic(auto, using(crate::proofs::Nothing::answers_nothing))]
pub(crate) fn change_over<C: Commits, B: Blocks, L: Cells, S: Source, R: Wait>(
    rt: &R,
    service: &LockedParts<C, B>,
    seat: &mut Seat<C, B>,
    lent: &mut L,
    change: Change<'_>,
    source: &mut S,
) -> (Hand, Result<Receipt, ChangeEnd>)
    requires cells { AreCells (L.cells lent.old) }
    requires some { 0 < length (L.cells lent.old) }
    requires whole { AreWhole (L.cells lent.old) }
    requires commits_part { 0 < seat.old.commits.parts }
    requires blocks_part { 0 < seat.old.blocks.parts }
    // Cells and hand have as many blocks as the session's share says.
    requires blocks { seat.old.blocks.amount
        ≡ length (blocks_of change.hand) + blocks_in (L.cells lent.old) }
    requires failures { S.failed source.old < 2 ^ 64 - 1 }
    ensures cells { MayBeRaised (L.cells lent.old) (L.cells lent.new) }
    // It counts as one commit, and raises the inode of each handle that the call names or makes.
    ensures raised { IfOk result.1
        (RaisesPublished (L.cells lent.old) (L.cells lent.new) change.entry.update) }
    ensures number { seat.new.number ≡ seat.old.number }
    ensures notes { seat.new.notes ≡ seat.old.notes }
    ensures commits_part { seat.new.commits.parts ≡ seat.old.commits.parts }
    ensures blocks_part { seat.new.blocks.parts ≡ seat.old.blocks.parts }
    ensures blocks { seat.new.blocks.amount
        ≡ length (blocks_of result.0) + blocks_in (L.cells lent.new) }
    ensures counted { OnOk result.1 (seat.new.commits.amount ≡ seat.old.commits.amount + 1) }
    ensures least { IfOk result.1
        (λ receipt. C.commit + seat.new.commits.amount ≤ receipt.stamp.commit) }
    // A receipt is of the call, with a made handle exactly where it makes an inode.
    ensures call { IfOk result.1 (IsReceiptOf change.entry.update) }
    // A refused change raises no version and no share.
    ensures same { OnErr result.1 ((seat.new.commits.amount ≡ seat.old.commits.amount)
        × KeepVersions (L.cells lent.old) (L.cells lent.new)) }
    ensures some { OnOk result.1 (is_nothing (blank_call change.entry.update) ≡ false) }
    ensures overtaken { IfErr result.1 (IsOfCall change.entry.update) }
    // A read failed exactly where it is refused by `Read`, and then one did.
    ensures reads { S.failed source.new ≡ S.failed source.old + failed_by result.1 }
    ensures short { seat.new.asking.turn ≡ turned_end result.1 seat.old.asking.turn }
    ensures frame { L.frame lent.new ≡ L.frame lent.old }
{
    let Change {
        looked,
        update,
        hand,
    } = change;
    let wanted = match check_over(&service.geometry, lent, looked, &update, &hand) {
        Ok(wanted) => wanted,
        Err(CheckEnd::Refuses(fault)) => return (hand, Err(ChangeEnd::Refuses(fault))),
        Err(CheckEnd::BoundAnew) => return (hand, Err(ChangeEnd::BoundAnew(update))),
        Err(CheckEnd::Answers) => return (hand, Err(ChangeEnd::Answers)),
    };
    match make_change(rt, service, seat, lent, update, hand, wanted, source) {
        Ok((receipt, hand)) => (hand, Ok(receipt)),
        Err((fault, hand)) => (hand, Err(ChangeEnd::Refuses(fault))),
    }
}

/// Makes a change that passed its check and wants so many data blocks, over cells that are lent.
fn make_change<C: Commits, B: Blocks, L: Cells, S: Source, R: Wait>(
    rt: &R,
    service: &LockedParts<C, B>,
    seat: &mut Seat<C, B>,
    lent: &mut L,
    update: Update,
    mut hand: Hand,
    wanted: u64,
    source: &mut S,
) -> Result<(Receipt, Hand), (Fault, Hand)>
    requires cells { AreCells (L.cells lent.old) }
    requires some { 0 < length (L.cells lent.old) }
    requires whole { AreWhole (L.cells lent.old) }
    requires passed { HasPassed service.now.geometry.numbers.block (L.cells lent.old) hand
        update wanted }
    requires commits_part { 0 < seat.old.commits.parts }
    requires blocks_part { 0 < seat.old.blocks.parts }
    requires blocks { seat.old.blocks.amount
        ≡ length (blocks_of hand) + blocks_in (L.cells lent.old) }
    requires failures { S.failed source.old < 2 ^ 64 - 1 }
    ensures cells { MayBeRaised (L.cells lent.old) (L.cells lent.new) }
    ensures raised { IfOk result (λ done.
        RaisesPublished (L.cells lent.old) (L.cells lent.new) update done.0) }
    ensures number { seat.new.number ≡ seat.old.number }
    ensures notes { seat.new.notes ≡ seat.old.notes }
    ensures commits_part { seat.new.commits.parts ≡ seat.old.commits.parts }
    ensures blocks_part { seat.new.blocks.parts ≡ seat.old.blocks.parts }
    ensures blocks { IfOk result (λ done. seat.new.blocks.amount
        ≡ length (blocks_of done.1) + blocks_in (L.cells lent.new)) }
    ensures back { IfErr result (λ refused. seat.new.blocks.amount
        ≡ length (blocks_of refused.1) + blocks_in (L.cells lent.new)) }
    ensures counted { OnOk result (seat.new.commits.amount ≡ seat.old.commits.amount + 1) }
    ensures least { IfOk result
        (λ done. C.commit + seat.new.commits.amount ≤ done.0.stamp.commit) }
    ensures call { IfOk result (λ done. IsReceiptOf update done.0) }
    ensures same { OnErr result ((seat.new.commits.amount ≡ seat.old.commits.amount)
        × KeepVersions (L.cells lent.old) (L.cells lent.new)) }
    ensures err { IfErr result (λ refused. MayEnd update refused.0) }
    ensures reads { OnOk result (S.failed source.new ≡ S.failed source.old) }
    ensures failed_reads { IfErr result (λ refused.
        S.failed source.new ≡ S.failed source.old + reads_failed refused.0) }
    ensures enough { OnOk result (seat.new.asking.turn ≡ seat.old.asking.turn) }
    ensures short { IfErr result (λ refused.
        seat.new.asking.turn ≡ turned_by refused.0 seat.old.asking.turn) }
    ensures frame { L.frame lent.new ≡ L.frame lent.old }
{
    let taken = take_all(
        rt,
        service,
        seat.number,
        lent,
        &update,
        &mut hand,
        wanted,
        &mut seat.blocks,
        &mut seat.asking,
    );
    if let Err(fault) = taken {
        return Err((fault, hand));
    }
    match ready_filled(service.alloc, lent, update, hand, source) {
        Ok(ready) => commit_ready(rt, service, seat.number, lent, ready, &mut seat.commits),
        Err(refused) => Err(refused),
    }
}

/// Commits what is ready under the book's lock. With an error the hand comes back.
/// Only tested: the history names the session's seat.
fn commit_ready<C: Commits, B: Blocks, L: Cells, R: Wait>(
    rt: &R,
    service: &LockedParts<C, B>,
    number: u64,
    lent: &mut L,
    ready: Ready,
    mine: &mut Share<C>,
) -> Result<(Receipt, Hand), (Fault, Hand)>
    requires part { 0 < mine.old.parts }
    requires ready { IsReadyOver (L.cells lent.old) ready }
    requires whole { AreWhole (L.cells lent.old) }
    ensures cells { MayBeRaised (L.cells lent.old) (L.cells lent.new) }
    ensures raised { IfOk result (λ done.
        RaisesPublished (L.cells lent.old) (L.cells lent.new) ready.update done.0) }
    ensures blocks { IfOk result
        (λ done. length (blocks_of done.1) + blocks_in (L.cells lent.new)
        ≡ length (blocks_of ready.hand) + blocks_in (L.cells lent.old)) }
    ensures counted { OnOk result (mine.new.amount ≡ mine.old.amount + 1) }
    ensures least { IfOk result (λ done. C.commit + mine.new.amount ≤ done.0.stamp.commit) }
    ensures call { IfOk result (λ done. IsReceiptOf ready.update done.0) }
    ensures err { IfErr result (λ refused. IsWant refused.0) }
    ensures space { IfErr result (λ refused. IsNoShortage refused.0) }
    ensures parts { mine.new.parts ≡ mine.old.parts }
    ensures hand { IfErr result (λ refused. refused.1 ≡ ready.hand) }
    ensures same { OnErr result ((L.cells lent.new ≡ L.cells lent.old)
        × (mine.new.amount ≡ mine.old.amount)) }
    ensures frame { L.frame lent.new ≡ L.frame lent.old }
{
    let cpu = number % service.geometry.numbers.cpus;
    let mut book = lock_book(rt, service);
    let end = commit_over(&mut *book, lent, ready, number, cpu, mine);
    // What is refused or done is sorted without the lock.
    drop(book);
    match end {
        Ok(done) => Ok(done),
        Err((fault, ready)) => Err((fault, ready.into_hand())),
    }
}
