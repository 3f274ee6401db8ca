//! The cleaners of the log of one inode.

ghost use Rattle.std.specs.Prelude.{◌≡◌, ◌<◌, ◌↔◌, IfErr, IsTrue, OnErr, OnOk, length};
ghost use Rattle.nv_alloc.specs.Hand.{blocks_of};
ghost use Rattle.nv_machine.specs.World.{HandState, Running, empty_hand};
ghost use Rattle.nv_sessions.specs.Ending.{CanClean, IsEmptyHand, cleaner_of};
ghost use Rattle.nv_sessions.specs.Holding.{Holds, IsCleaned};
ghost use Rattle.nv_sessions.specs.Locked.{IsThere};
ghost use Rattle.nv_sessions.specs.Misfits.{IsUncleanable};
ghost use Rattle.nv_sessions.specs.Refusing.{MayRefuseSnapshotOrCleaner};
ghost use Rattle.nv_sessions.specs.RunCalls.{cleaning, planning};
ghost use Rattle.nv_steps.specs.Hands.{hand_of};
ghost use Rattle.nv_steps.specs.Runs.{Unseen};

use crate::cell::LockedCell;
use crate::fresh_pages::take_fresh;
use crate::guards::hold_at;
use crate::locked_parts::LockedParts;
use crate::names::{Blocks, Commits};
use nv_alloc::Hand;
use nv_base::{Fault, Geometry, Ino, MismatchPart};
use nv_cell::InodeCell;
use nv_clean::Cleaned;
use nv_steps::{Manner, Planned, plan_cleaning};
use std::sync::Wait;
use std::sync::ledger::Share;

/// Cleans the log of an inode under its lock, also of one that is gone and not yet erased. `number` is that of the seat,
/// whose CPU's list is asked first for pages. The hand gets the pages that the log loses.
///
/// `Stale` where the slot has no inode; `NoSpace` where each list was asked and they had too few pages together;
/// `OutOfMemory` where room was refused; `Mismatch` where the place, the cell or a list is not as a cleaner needs it.
pub(crate) fn clean_log<C: Commits, B: Blocks, R: Wait>(
    rt: &R,
    service: &LockedParts<C, B>,
    number: u64,
    hand: &mut Hand,
    mine: &mut Share<B>,
    manner: Manner,
    ino: Ino,
) -> Result<Cleaned, Fault>
    requires inside { ino < service.now.geometry.numbers.inodes }
    requires part { 0 < mine.old.parts }
    requires amount { mine.old.amount ≡ length (blocks_of hand.old) }
    requires empty { IsEmptyHand hand.old }
    // A cleaner is a run of the machine's turns up to its unlock, except where a test breaks it off.
    ensures run { IsCleaned service.now.geometry.numbers number empty_hand
        (cleaning service.now.geometry.numbers (cleaner_of manner ino)) result (hand_of hand.new) }
    ensures err { IfErr result (MayRefuseSnapshotOrCleaner (cleaner_of manner ino)) }
    ensures parts { mine.new.parts ≡ mine.old.parts }
    ensures amount { mine.new.amount ≡ length (blocks_of hand.new) }
{
    let Some(lock) = service.inode_lock(ino) else {
        unreachable!()
    };
    let mut cell = hold_at(rt, lock, ino)?;
    clean_held(rt, service, number, &mut *cell, hand, mine, manner)
}

/// Cleans the log of a cell that is held.
fn clean_held<C: Commits, B: Blocks, R: Wait>(
    rt: &R,
    service: &LockedParts<C, B>,
    number: u64,
    cell: &mut LockedCell<C, B>,
    hand: &mut Hand,
    mine: &mut Share<B>,
    manner: Manner,
) -> Result<Cleaned, Fault>
    requires there { IsThere cell.old }
    requires inside { cell.old.ino < service.now.geometry.numbers.inodes }
    requires part { 0 < mine.old.parts }
    requires amount { mine.old.amount ≡ length (blocks_of hand.old) }
    requires empty { IsEmptyHand hand.old }
    // A cleaner judges behind its lock, and changes the cell once.
    ensures run { (h0 : HandState) (r0 : Running)
        → Holds service.now.geometry.numbers number h0 r0 cell.old.ino Unseen (hand_of hand.old)
        (planning manner cell.old.ino)
        → IsCleaned service.now.geometry.numbers number h0 r0 result (hand_of hand.new) }
    // A refused one leaves the cell as it found it.
    ensures same { OnErr result (cell.new ≡ cell.old) }
    ensures err { IfErr result (MayRefuseSnapshotOrCleaner (cleaner_of manner cell.old.ino)) }
    ensures parts { mine.new.parts ≡ mine.old.parts }
    ensures amount { mine.new.amount ≡ length (blocks_of hand.new) }
{
    test_cell(&service.geometry, cell.part(), hand)?;
    let planned = plan_cleaning(service.alloc, cell.part(), hand, manner)?;
    match planned {
        Planned::Unlinks(walk) => Ok(cell.unlink(walk, hand, mine)),
        Planned::Compacts(walk) => {
            take_fresh(rt, service, number, walk.pages() as u64, hand, mine)?;
            Ok(cell.compact(walk, hand, mine))
        }
        Planned::Ends(cleaned) => Ok(cleaned),
    }
}

/// Whether a cell and a hand are as a cleaner needs them. `Mismatch` of `Lists` where one is for blocks of another size, of
/// `Index` where the cell has an entry past its tail, of `Records` where a part is killed and not yet retired. Costs a pass
/// over the marks.
fn test_cell(geometry: &Geometry, cell: &InodeCell, hand: &Hand) -> Result<(), Fault>
    ensures ok { OnOk result (CanClean geometry.now.numbers.block cell.now.state hand.now) }
    ensures misfit { IfErr result (λ why. (what : MismatchPart)
        × (why ≡ Fault.Mismatch what)
        × IsUncleanable geometry.now.numbers.block cell.now.state hand.now what) }
{
    if !are_sized(geometry, cell, hand) {
        return Err(Fault::Mismatch(MismatchPart::Lists));
    }
    if cell.tail() != cell.len() {
        return Err(Fault::Mismatch(MismatchPart::Index));
    }
    if cell.has_killed() {
        return Err(Fault::Mismatch(MismatchPart::Records));
    }
    Ok(())
}

/// Whether a cell and the log pages of a hand are for blocks of the device's size.
fn are_sized(geometry: &Geometry, cell: &InodeCell, hand: &Hand) -> bool
    ensures { IsTrue result ↔ ((cell.now.state.block ≡ geometry.now.numbers.block)
        × (hand.now.pages.size ≡ geometry.now.numbers.block)) }
{
    let block = geometry.numbers.block;
    cell.block_bytes() == block && hand.pages.block_bytes() as u64 == block
}
