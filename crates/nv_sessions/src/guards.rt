//! The guards of the inodes that a call locks.

ghost use Rattle.std.specs.Prelude.{◌≡◌, ◌+◌, ◌<◌, ◌≤◌, ◌-◌, ◌^◌, Err, IfErr, IfOk, OnErr, OnOk, length, vec_capacity, vec_len};
ghost use Rattle.std.specs.Sync.RwLock.{write_guard_value};
ghost use Rattle.nv_alloc.specs.Hand.{blocks_of};
ghost use Rattle.nv_base.specs.Refusals.{FailsEither, FailsOnly};
ghost use Rattle.nv_base.specs.declared.fault.Fault.TheVariants as fault;
ghost use Rattle.nv_base.specs.declared.fault.MismatchPart.TheVariants as part;
ghost use Rattle.nv_calls.specs.Cells.{AreCells};
ghost use Rattle.nv_sessions.specs.Asking.{turned_end};
ghost use Rattle.nv_sessions.specs.Changing.{AreWhole, IsDoneOver, MayBeRaised, blocks_in};
ghost use Rattle.nv_sessions.specs.Locked.{IsThere, LockedValue};
ghost use Rattle.nv_sessions.specs.Misfits.{IsMisplaced};
ghost use Rattle.nv_sessions.specs.Refusing.{failed_by};
ghost use Rattle.nv_sessions.specs.Rounds.{IsEndedBy};
ghost use Rattle.nv_sessions.specs.Sessions.{at_seat};
ghost use Rattle.nv_sessions.specs.Taken.{IsRoom, pairs, versions_of};

use crate::cell::LockedCell;
use crate::cell_list::CellList;
use crate::change::{Change, ChangeEnd, change_over};
use crate::held::PlaceGuards;
use crate::locked_parts::LockedParts;
use crate::names::{Blocks, Commits};
use crate::seat::Seat;
use nv_alloc::Hand;
use nv_base::{Fault, Ino, MismatchPart};
use nv_calls::{LockedSlots, Receipt, Source};
use std::sync::{RwLock, RwLockWriteGuard, Wait};

/// Locks the cell of an inode. `Stale` where the device has no such slot, and `Mismatch` of `Lists` where another inode's place
/// lies there, or an empty one.
pub(crate) fn hold<'a, C: Commits, B: Blocks, R: Wait>(
    rt: &R,
    service: &'a LockedParts<C, B>,
    ino: Ino,
) -> Result<RwLockWriteGuard<'a, LockedCell<C, B>>, Fault>
    ensures ok { IfOk result (λ guard. (write_guard_value guard).ino ≡ ino) }
    ensures there { IfOk result (λ guard. IsThere (write_guard_value guard)) }
    // The slot is one of the device's, and `Stale` comes only where it is none.
    ensures slot { OnOk result (ino < service.now.geometry.numbers.inodes) }
    ensures stale { IfErr result (λ why.
        why ≡ fault.Stale → service.now.geometry.numbers.inodes ≤ ino) }
    // A `Mismatch` comes only where the place that was found is not that of the inode with its cell.
    ensures misplaced { IfErr result (λ why. why ≡ fault.Mismatch part.Lists
        → (place : LockedValue) × IsMisplaced ino place) }
    ensures err { FailsEither fault.Stale (fault.Mismatch part.Lists) result }
{
    let Some(lock) = service.inode_lock(ino) else {
        return Err(Fault::Stale);
    };
    hold_at(rt, lock, ino)
}

/// Locks a cell that is to be that of an inode. `Mismatch` of `Lists` where the place is another's, or empty.
pub(crate) fn hold_at<'a, C: Commits, B: Blocks, R: Wait>(
    rt: &R,
    lock: &'a RwLock<LockedCell<C, B>>,
    ino: Ino,
) -> Result<RwLockWriteGuard<'a, LockedCell<C, B>>, Fault>
    ensures ok { IfOk result (λ guard. (write_guard_value guard).ino ≡ ino) }
    ensures there { IfOk result (λ guard. IsThere (write_guard_value guard)) }
    ensures misplaced { OnErr result ((place : LockedValue) × IsMisplaced ino place) }
    ensures err { FailsOnly (fault.Mismatch part.Lists) result }
{
    let cell = lock.write(rt);
    if !cell.has_cell_of(ino) {
        return Err(Fault::Mismatch(MismatchPart::Lists));
    }
    Ok(cell)
}

/// A change that is refused before its check.
fn refused(change: Change<'_>, fault: Fault) -> (Hand, Result<Receipt, ChangeEnd>)
    ensures hand { result.0 ≡ change.entry.hand }
    ensures end { result.1 ≡ Err (ChangeEnd.Refuses fault) }
{
    let Change {
        looked: _,
        update: _,
        hand,
    } = change;
    (hand, Err(ChangeEnd::Refuses(fault)))
}

/// Makes a change over the cells of these slots: it locks their places by rising number, takes the cells out, and puts them
/// back. `list` is room for them. A call without a slot names an inode that is not there: it is `Stale`.
pub(crate) fn change_slots<C: Commits, B: Blocks, S: Source, R: Wait>(
    rt: &R,
    service: &LockedParts<C, B>,
    seat: &mut Seat<C, B>,
    list: &mut CellList,
    slots: &LockedSlots,
    change: Change<'_>,
    source: &mut S,
) -> (Hand, Result<Receipt, ChangeEnd>)
    requires list { IsRoom list.old }
    requires parts { (0 < seat.old.commits.parts) × (0 < seat.old.blocks.parts) }
    requires blocks { seat.old.blocks.amount ≡ length (blocks_of change.hand) }
    requires failures { S.failed source.old < 2 ^ 64 - 1 }
    ensures list { IsRoom list.new }
    ensures commits_part { seat.new.commits.parts ≡ seat.old.commits.parts }
    ensures blocks_part { seat.new.blocks.parts ≡ seat.old.blocks.parts }
    // No place is left empty: what the seat's share has is in the hand.
    ensures blocks { seat.new.blocks.amount ≡ length (blocks_of result.0) }
    ensures ended { IsEndedBy C.commit
        (at_seat seat.old.number seat.old.commits.amount seat.old.notes)
        (at_seat seat.new.number seat.new.commits.amount seat.new.notes)
        change.entry.update result.1 }
    ensures reads { S.failed source.new ≡ S.failed source.old + failed_by result.1 }
    ensures short { seat.new.asking.turn ≡ turned_end result.1 seat.old.asking.turn }
{
    let slots = slots.as_slice();
    if slots.is_empty() {
        return refused(change, Fault::Stale);
    }
    let mut guards = PlaceGuards::none(service.alloc);
    let taken = guards.take_all(rt, service, &mut seat.notes, &mut seat.blocks, slots, list);
    let done = change_taken(rt, service, seat, list, taken, change, source);
    guards.put_all(rt, &service.fresh, &mut seat.notes, &mut seat.blocks, list);
    done
}

/// Makes a change over cells that were taken out of their places, or refuses it where not all could be.
fn change_taken<C: Commits, B: Blocks, S: Source, R: Wait>(
    rt: &R,
    service: &LockedParts<C, B>,
    seat: &mut Seat<C, B>,
    list: &mut CellList,
    taken: Result<(), Fault>,
    change: Change<'_>,
    source: &mut S,
) -> (Hand, Result<Receipt, ChangeEnd>)
    requires cells { AreCells (pairs list.old.cells.items) }
    requires some { OnOk taken (0 < vec_len list.old.cells) }
    requires whole { AreWhole (pairs list.old.cells.items) }
    requires err { FailsEither fault.Stale (fault.Mismatch part.Lists) taken }
    requires parts { (0 < seat.old.commits.parts) × (0 < seat.old.blocks.parts) }
    requires blocks { seat.old.blocks.amount
        ≡ length (blocks_of change.hand) + blocks_in (pairs list.old.cells.items) }
    requires failures { S.failed source.old < 2 ^ 64 - 1 }
    ensures cells { MayBeRaised (pairs list.old.cells.items) (pairs list.new.cells.items) }
    ensures versions { versions_of list.new.cells.items ≡ versions_of list.old.cells.items }
    ensures room { vec_capacity list.new.cells ≡ vec_capacity list.old.cells }
    ensures number { seat.new.number ≡ seat.old.number }
    ensures notes { seat.new.notes ≡ seat.old.notes }
    ensures commits_part { seat.new.commits.parts ≡ seat.old.commits.parts }
    ensures blocks_part { seat.new.blocks.parts ≡ seat.old.blocks.parts }
    ensures blocks { seat.new.blocks.amount
        ≡ length (blocks_of result.0) + blocks_in (pairs list.new.cells.items) }
    ensures done { IsDoneOver C.commit seat.old.commits.amount seat.new.commits.amount
        (pairs list.old.cells.items) (pairs list.new.cells.items) change.entry.update result.1 }
    ensures reads { S.failed source.new ≡ S.failed source.old + failed_by result.1 }
    ensures short { seat.new.asking.turn ≡ turned_end result.1 seat.old.asking.turn }
{
    match taken {
        Ok(()) => change_over(rt, service, seat, list, change, source),
        Err(fault) => refused(change, fault),
    }
}
