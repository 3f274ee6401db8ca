//! Deferred records are released.

ghost use Rattle.std.specs.Prelude.{◌≡◌, ◌-◌, ◌<◌, ◌≤◌, ◌↔◌, ℕ, Err, IfErr, IfOk, IsTrue, OnErr, OnOk, length, slice_get};
ghost use Rattle.std.specs.Option.{ForSome};
ghost use Rattle.nv_alloc.specs.Hand.{blocks_of};
ghost use Rattle.nv_base.specs.declared.geometry.GeometryNumbers.{GeometryNumbers};
ghost use Rattle.nv_machine.specs.World as machine;
ghost use Rattle.nv_machine.specs.World.{HandState, Running, empty_hand};
ghost use Rattle.nv_sessions.specs.Cleaning.{CanRelease};
ghost use Rattle.nv_sessions.specs.Draining.{CanReleasePicked, EndsPick, HasDrained, HasLooked, HasPicked, HasReleased, is_record};
ghost use Rattle.nv_sessions.specs.Locked.{IsThere};
ghost use Rattle.nv_sessions.specs.Refusing.{IsMisfit, IsMisfitOrWant};
ghost use Rattle.nv_sessions.specs.SessionRuns.{IsGivingRun, IsSessionRun};
ghost use Rattle.nv_sessions.specs.Sessions.{IsGivenBack, held_by};
ghost use Rattle.nv_sessions.specs.Underway.{HasCome};
ghost use Rattle.nv_steps.specs.Hands.{hand_of};
ghost use Rattle.nv_steps.specs.LastSteps.{once_drained};
ghost use Rattle.nv_steps.specs.OnBook.{IsBefore, drain_of, room_for};

use crate::cell::LockedCell;
use crate::clean::can_release;
use crate::ending::give_back;
use crate::giving_back::Giving;
use crate::guards::hold_at;
use crate::locked_parts::LockedParts;
use crate::names::{Blocks, Commits};
use nv_alloc::Hand;
use nv_base::{Fault, MismatchPart};
use nv_book::{Book, Record};
use nv_calls::Answer;
use nv_cell::InodeCell;
use nv_steps::Picked;
use std::sync::Wait;
use std::sync::ledger::Share;

/// Releases the first deferred records, one after another, at most so many, and answers how many. What a release takes into
/// the hand goes back before the next. `OutOfMemory` where room for a block was refused, before the first record.
///
/// `Mismatch` where a record can't be released, which then stays deferred, or where a list or the pool refuses what a record
/// sets free: also behind records that were released before.
pub(crate) fn drain_deferred<C: Commits, B: Blocks, R: Wait>(
    rt: &R,
    service: &LockedParts<C, B>,
    hand: &mut Hand,
    mine: &mut Share<B>,
    giving: &mut Giving,
    most: u64,
) -> Result<Answer, Fault>
    requires some { 0 < most }
    requires part { 0 < mine.old.parts }
    requires amount { mine.old.amount ≡ length (blocks_of hand.old) }
    requires empty { hand_of hand.old ≡ empty_hand }
    // A drain is a run of the machine's turns; or a test breaks it off, or its hand keeps some.
    ensures run { (actor : ℕ) (r : Running) → IsGivingRun service.now.geometry.numbers actor
        (once_drained 0 (most - 1) r) (held_by hand.new giving.new) result }
    ensures few { IfOk result (λ answer. (n : ℕ) × (n ≤ most) × (answer ≡ Answer.Count n)) }
    ensures err { IfErr result IsMisfitOrWant }
    ensures parts { mine.new.parts ≡ mine.old.parts }
    ensures amount { mine.new.amount ≡ length (blocks_of hand.new) }
    ensures back { IsGivenBack (held_by hand.new giving.new) }
{
    let mut released = 0;
    // A round in which another drain took the record counts nothing.
    for _round in rt.forever() {
        match drain_next(rt, service, hand, mine, giving, released)? {
            None => {}
            Some(Picked::First(_)) => {
                released += 1;
                if released == most {
                    return Ok(Answer::Count(released));
                }
            }
            Some(Picked::Ends(told)) => return told,
        }
    }
    unreachable!()
}

/// Releases the first deferred record for a drain that has released so many, and gives back what this sets free. Tells which it
/// was, or how the call ends; or nothing where another drain took the record before.
fn drain_next<C: Commits, B: Blocks, R: Wait>(
    rt: &R,
    service: &LockedParts<C, B>,
    hand: &mut Hand,
    mine: &mut Share<B>,
    giving: &mut Giving,
    released: u64,
) -> Result<Option<Picked>, Fault>
    requires part { 0 < mine.old.parts }
    requires amount { mine.old.amount ≡ length (blocks_of hand.old) }
    requires empty { hand_of hand.old ≡ empty_hand }
    // The unlock and the gives are turns behind the release.
    ensures run { (actor left : ℕ) (h0 : HandState) (r0 r : Running)
        → HasCome service.now.geometry.numbers actor h0 r0 empty_hand (once_drained released left r)
        → IfOk result (λ picked. ForSome picked
        (HasDrained service.now.geometry.numbers actor h0 r0 released left r)) }
    ensures refused { (actor left : ℕ) (r0 r : Running)
        → HasCome service.now.geometry.numbers actor empty_hand r0 empty_hand
        (once_drained released left r)
        → IfErr result (λ why. IsGivingRun service.now.geometry.numbers actor r0
        (held_by hand.new giving.new) (Err why)) }
    ensures ends { IfOk result (λ picked. ForSome picked (EndsPick released)) }
    ensures empty { OnOk result (hand_of hand.new ≡ empty_hand) }
    ensures err { IfErr result IsMisfit }
    ensures parts { mine.new.parts ≡ mine.old.parts }
    ensures amount { mine.new.amount ≡ length (blocks_of hand.new) }
    ensures back { IsGivenBack (held_by hand.new giving.new) }
{
    let first = match look_first(rt, service, hand, released) {
        Picked::First(first) => first,
        Picked::Ends(told) => return Ok(Some(Picked::Ends(told))),
    };
    let picked = release_first(rt, service, hand, mine, first, released)?;
    give_back(rt, service, hand, mine, giving)?;
    Ok(picked)
}

/// The first deferred record, which stays in the book. Where there is none, this is the call's last step. Where the flag tells
/// that there is none, no lock is taken, and the hand gets no room for a block.
fn look_first<C: Commits, B: Blocks, R: Wait>(
    rt: &R,
    service: &LockedParts<C, B>,
    hand: &mut Hand,
    released: u64,
) -> Picked
    requires empty { hand_of hand.old ≡ empty_hand }
    ensures run { (numbers : GeometryNumbers) (actor left : ℕ) (h0 : HandState) (r0 r : Running)
        → HasCome numbers actor h0 r0 empty_hand r
        → IsBefore (machine.Pick (drain_of released left)) r → HasLooked numbers actor h0 r0 result }
    ensures ends { EndsPick released result }
    ensures empty { hand_of hand.new ≡ empty_hand }
{
    if !service.deferred_flag.is_raised() {
        return Picked::Ends(Ok(Answer::Count(released)));
    }
    let mut book = service.book_lock().lock(rt);
    match first_of(book.part()) {
        Some(first) => Picked::First(first),
        None => book.pick(hand, released, &service.deferred_flag),
    }
}

/// The first deferred record of a book.
fn first_of(book: &Book) -> Option<Record>
    ensures { result ≡ slice_get book.now.state.deferred 0 }
{
    book.deferred().iter().next()
}

/// Releases a record under its inode's lock, if it is still the first, and tells it: its part goes out, and its block to the
/// hand. `Mismatch` where it can't be released; then it stays in the book.
fn release_first<C: Commits, B: Blocks, R: Wait>(
    rt: &R,
    service: &LockedParts<C, B>,
    hand: &mut Hand,
    mine: &mut Share<B>,
    first: Record,
    released: u64,
) -> Result<Option<Picked>, Fault>
    requires part { 0 < mine.old.parts }
    requires amount { mine.old.amount ≡ length (blocks_of hand.old) }
    requires empty { hand_of hand.old ≡ empty_hand }
    // The pick, the lock of the cell and the release are three turns.
    ensures run { (actor left : ℕ) (h0 : HandState) (r0 r : Running)
        → HasCome service.now.geometry.numbers actor h0 r0 empty_hand r
        → IsBefore (machine.Pick (drain_of released left)) r
        → IfOk result (λ picked. ForSome picked (HasReleased service.now.geometry.numbers actor
        h0 r0 (drain_of released left) r (hand_of hand.new))) }
    ensures refused { (actor left : ℕ) (h0 : HandState) (r0 r : Running)
        → HasCome service.now.geometry.numbers actor h0 r0 empty_hand r
        → IsBefore (machine.Pick (drain_of released left)) r
        → IfErr result (λ why. IsSessionRun service.now.geometry.numbers actor h0 r0 (Err why)
        empty_hand) }
    ensures ends { IfOk result (λ picked. ForSome picked (EndsPick released)) }
    ensures err { IfErr result IsMisfit }
    ensures back { IfErr result (λ why. hand_of hand.new ≡ empty_hand) }
    ensures parts { mine.new.parts ≡ mine.old.parts }
    ensures amount { mine.new.amount ≡ length (blocks_of hand.new) }
{
    let Some(lock) = service.inode_lock(first.ino) else {
        return Err(Fault::Mismatch(MismatchPart::Records));
    };
    let mut cell = hold_at(rt, lock, first.ino)?;
    release_held(rt, service, &mut *cell, first, hand, mine, released)
}

/// The same from a cell that is held.
fn release_held<C: Commits, B: Blocks, R: Wait>(
    rt: &R,
    service: &LockedParts<C, B>,
    cell: &mut LockedCell<C, B>,
    first: Record,
    hand: &mut Hand,
    mine: &mut Share<B>,
    released: u64,
) -> Result<Option<Picked>, Fault>
    requires there { IsThere cell.old }
    requires own { first.ino ≡ cell.old.ino }
    requires inside { first.ino < service.now.geometry.numbers.inodes }
    requires part { 0 < mine.old.parts }
    requires amount { mine.old.amount ≡ length (blocks_of hand.old) }
    requires empty { hand_of hand.old ≡ empty_hand }
    ensures run { (actor left : ℕ) (h0 : HandState) (r0 r : Running)
        → HasCome service.now.geometry.numbers actor h0 r0 empty_hand r
        → IsBefore (machine.Pick (drain_of released left)) r
        → IfOk result (λ picked. ForSome picked (HasReleased service.now.geometry.numbers actor
        h0 r0 (drain_of released left) r (hand_of hand.new))) }
    ensures refused { (actor left : ℕ) (h0 : HandState) (r0 r : Running)
        → HasCome service.now.geometry.numbers actor h0 r0 empty_hand r
        → IsBefore (machine.Pick (drain_of released left)) r
        → IfErr result (λ why. IsSessionRun service.now.geometry.numbers actor h0 r0 (Err why)
        empty_hand) }
    ensures ends { IfOk result (λ picked. ForSome picked (EndsPick released)) }
    // Where it can't be released, cell and hand stay.
    ensures same { OnErr result (cell.new ≡ cell.old) }
    ensures err { IfErr result IsMisfit }
    ensures parts { mine.new.parts ≡ mine.old.parts }
    ensures amount { mine.new.amount ≡ length (blocks_of hand.new) }
    ensures back { IfErr result (λ why. hand_of hand.new ≡ empty_hand) }
{
    let picked = pick_first(rt, service, cell.part(), &first, hand, released)?;
    if !is_record(&picked) {
        return Ok(picked);
    }
    cell.release(first, hand, mine);
    Ok(picked)
}

/// Whether a record was picked.
fn is_record(picked: &Option<Picked>) -> bool
    ensures { result ≡ is_record picked.now }
{
    matches!(picked, Some(Picked::First(_)))
}

/// Picks a record, if it is still the first deferred one, and tells it. `Mismatch` of `Records` where it can't be released from
/// its inode's cell.
fn pick_first<C: Commits, B: Blocks, R: Wait>(
    rt: &R,
    service: &LockedParts<C, B>,
    cell: &InodeCell,
    first: &Record,
    hand: &mut Hand,
    released: u64,
) -> Result<Option<Picked>, Fault>
    requires empty { hand_of hand.old ≡ empty_hand }
    ensures run { (numbers : GeometryNumbers) (actor left : ℕ) (h0 : HandState) (r0 r : Running)
        → HasCome numbers actor h0 r0 empty_hand r
        → IsBefore (machine.Pick (drain_of released left)) r
        → IfOk result (λ picked. ForSome picked
        (HasPicked numbers actor h0 r0 (drain_of released left) r)) }
    ensures can { IfOk result (λ picked. ForSome picked
        (CanReleasePicked cell.now.state first.now hand.new)) }
    ensures refused { (numbers : GeometryNumbers) (actor left : ℕ) (h0 : HandState)
        (r0 r : Running) → HasCome numbers actor h0 r0 empty_hand r
        → IsBefore (machine.Pick (drain_of released left)) r
        → IfErr result (λ why. IsSessionRun numbers actor h0 r0 (Err why) empty_hand) }
    ensures ends { IfOk result (λ picked. ForSome picked (EndsPick released)) }
    ensures err { IfErr result IsMisfit }
    ensures empty { hand_of hand.new ≡ empty_hand }
{
    let mut book = service.book_lock().lock(rt);
    if first_of(book.part()) != Some(*first) {
        return Ok(None);
    }
    if !releases(cell, first, hand, released) {
        return Err(Fault::Mismatch(MismatchPart::Records));
    }
    Ok(Some(book.pick(hand, released, &service.deferred_flag)))
}

/// Whether a record can be released from a cell, by a drain that has released so many.
fn releases(cell: &InodeCell, first: &Record, hand: &Hand, released: u64) -> bool
    ensures { IsTrue result ↔ (CanRelease cell.now.state first.now hand.now
        × (0 < room_for released hand.now.data.room)) }
{
    can_release(cell, first, hand) && has_room(hand, released)
}

/// Whether a hand has room for a block behind the pick of a drain that has released so many: the first pick makes some.
fn has_room(hand: &Hand, released: u64) -> bool
    ensures { IsTrue result ↔ (0 < room_for released hand.now.data.room) }
{
    released == 0 || hand.data.room() > 0
}
