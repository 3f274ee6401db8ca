//! The cleaning of a log is planned, under the lock of its slot.

ghost use Rattle.std.specs.Prelude.{◌≡◌, ◌≤◌, ℕ, IfOk, Some, false, is_ok, true};
ghost use Rattle.nv_base.specs.Memory.{out_of_memory};
ghost use Rattle.nv_base.specs.Refusals.{FailsOnly};
ghost use Rattle.nv_base.specs.declared.geometry.GeometryNumbers.{GeometryNumbers};
ghost use Rattle.nv_cell.specs.Cell.{CellState};
ghost use Rattle.nv_cell.specs.Readers.{has_inode};
ghost use Rattle.nv_clean.specs.Plans.{wanted_of};
ghost use Rattle.nv_machine.specs.Cleaning.{is_thorough};
ghost use Rattle.nv_machine.specs.World as machine;
ghost use Rattle.nv_machine.specs.World.{Running};
ghost use Rattle.nv_steps.specs.Hands.{hand_of};
ghost use Rattle.nv_steps.specs.OnCell.{IsHolding, over_cell};
ghost use Rattle.nv_steps.specs.Planning.{HasRoomFor, IsFoundIn, IsNoSmaller, manner_of, once_planned};
ghost use Rattle.nv_steps.specs.Turns.{IsMove};

use nv_alloc::{BlockQueue, Hand};
use nv_base::Fault;
use nv_cell::InodeCell;
use nv_clean::{Cleaned, Unlinkable, Wanted, prefers_thorough, unlinkable, wanted};
use std::alloc::Global;

/// How a cleaner cleans a log: by whole pages, entry by entry, or as the walk of the log finds to be better.
#[derive(Clone, Copy, Debug, PartialEq, Eq)]
pub enum Manner {
    Fast,
    Thorough,
    Auto,
}

/// What a cleaning is planned to do, by the walk of the log: pages go whole, or entries go one by one, or none goes, and the
/// call ends so.
#[derive(Debug, Drop)]
pub enum Planned {
    Unlinks(Unlinkable),
    Compacts(Wanted),
    Ends(Cleaned),
}

/// Walks the log of a slot, plans its cleaning, and makes room in the hand for the log pages that move. `Stale` where the slot
/// has no inode, `OutOfMemory` where room was refused.
pub fn plan_cleaning(
    alloc: Global,
    cell: &InodeCell,
    hand: &mut Hand,
    manner: Manner,
) -> Result<Planned, Fault>
    // A planning is one turn, which finds what a walk of the log finds, wherever the other parts are.
    // A slot without an inode is `Stale`, and that comes before want of memory.
    // An auto is thorough exactly where less than half of the entries stay.
    // A fast cleaner makes its step also where no log page goes.
    // Where all entries stay no log page is taken, and 0 and 0 is told.
    ensures turn { (numbers : GeometryNumbers) (actor ino : ℕ) (r : Running)
        → IsHolding ino (machine.PlanCleaning (manner_of manner) (Some ino)) r
        → IsMove numbers actor (over_cell ino r (hand_of hand.old) (is_ok result) cell.now.state)
        (hand_of hand.new) (once_planned ino result r) }
    // The plan is what a walk of the log finds.
    ensures found { IfOk result (IsFoundIn cell.now.state
        (is_thorough (manner_of manner) cell.now.state)) }
    // The hand has room for the log pages that move.
    ensures room { IfOk result (HasRoomFor hand.new.pages) }
    // Nothing else of the hand changes.
    ensures rest { hand.new ≡ record hand.old { pages = hand.new.pages } }
    ensures pages { IsNoSmaller hand.old.pages hand.new.pages }
{
    if !has_inode(cell) {
        return Err(Fault::Stale);
    }
    choose(alloc, cell, manner, &mut hand.pages)
}

/// Whether a slot has an inode: also one that is gone and not yet erased.
fn has_inode(cell: &InodeCell) -> bool
    ensures { result ≡ has_inode cell.now.state }
{
    // The chain is one, so that its tail is no further than its entries.
    cell.holds_together();
    cell.tail() > 0
}

/// Walks the log, and makes room for the pages that its cleaning moves.
fn choose(
    alloc: Global,
    cell: &InodeCell,
    manner: Manner,
    pages: &mut BlockQueue,
) -> Result<Planned, Fault>
    ensures found { IfOk result (IsFoundIn cell.now.state
        (is_thorough (manner_of manner) cell.now.state)) }
    ensures room { IfOk result (HasRoomFor pages.new) }
    ensures err { FailsOnly out_of_memory result }
    ensures rest { IsNoSmaller pages.old pages.new }
{
    match manner {
        Manner::Fast => by_pages(alloc, cell, pages),
        Manner::Thorough => by_entries(wanted(alloc, cell)?, pages),
        Manner::Auto => {
            let walk = wanted(alloc, cell)?;
            if prefers_thorough(&walk, cell.len()) {
                by_entries(walk, pages)
            } else {
                by_pages(alloc, cell, pages)
            }
        }
    }
}

/// Whole pages are to go: they need room in the hand.
fn by_pages(alloc: Global, cell: &InodeCell, pages: &mut BlockQueue) -> Result<Planned, Fault>
    ensures found { IfOk result (IsFoundIn cell.now.state false) }
    ensures room { IfOk result (HasRoomFor pages.new) }
    ensures err { FailsOnly out_of_memory result }
    ensures rest { IsNoSmaller pages.old pages.new }
{
    let walk = unlinkable(alloc, cell)?;
    pages.reserve(walk.pages())?;
    Ok(Planned::Unlinks(walk))
}

/// Entries are to move, unless all stay: the hand needs room for the pages that are taken for them.
fn by_entries(walk: Wanted, pages: &mut BlockQueue) -> Result<Planned, Fault>
    ensures found { (cell : CellState) → walk ≡ wanted_of cell
        → IfOk result (IsFoundIn cell true) }
    ensures room { IfOk result (HasRoomFor pages.new) }
    ensures err { FailsOnly out_of_memory result }
    ensures rest { IsNoSmaller pages.old pages.new }
{
    if walk.is_all() {
        return Ok(Planned::Ends(Cleaned {
            thorough: true,
            entries: 0,
            pages: 0,
        }));
    }
    pages.reserve(walk.pages() as u64)?;
    Ok(Planned::Compacts(walk))
}
