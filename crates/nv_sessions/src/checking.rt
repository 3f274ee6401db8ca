//! The check of a change over the cells that are lent to it.

ghost use Rattle.std.specs.Prelude.{◌≡◌, ◌<◌, ◌≤◌, ◌↔◌, ◌⊎◌, IfErr, IfOk, IsTrue, OnOk, Some, length};
ghost use Rattle.std.specs.List.{AllByRecursion};
ghost use Rattle.nv_base.specs.declared.limits.TheConstants.{BLOCK_BYTES};
ghost use Rattle.nv_calls.specs.Cells.{AreCells};
ghost use Rattle.nv_calls.specs.Checked.{ends_over};
ghost use Rattle.nv_calls.specs.Nodes.{nodes_in};
ghost use Rattle.nv_calls.specs.Prepared.{IsEmptySlot, IsStill, makes};
ghost use Rattle.nv_sessions.specs.Changing.{EndsCheck, FitsNumber, HasPassed, IsFreeHand, RefusesCells, directories_there, misnamed};

use nv_alloc::Hand;
use nv_base::{Fault, Geometry, Ino, MismatchPart};
use nv_calls::{Cells, CheckEnd, HeldNodes, LookupResult, Nodes, Update, ends_at_check};

/// How the check ends a change, or how many data blocks it takes where it goes on.
///
/// First what no type keeps of the parts: `Mismatch` of `Lists` where a cell or the hand is for blocks of another size,
/// the hand holds blocks, or its number is not that of an empty slot of a new inode; of `Index` where a cell has an entry
/// past its tail. Then the tests of the call; among them `Mismatch` of `Names` where a name leads to no inode. Takes no
/// memory.
pub(crate) fn check_over<L: Cells>(
    geometry: &Geometry,
    lent: &L,
    looked: &LookupResult,
    update: &Update,
    hand: &Hand,
) -> Result<u64, CheckEnd>
    requires cells { AreCells (L.cells lent.now) }
    ensures ok { IfOk result (λ wanted. HasPassed geometry.now.numbers.block (L.cells lent.now)
        hand.now update.now wanted) }
    ensures err { IfErr result (EndsCheck geometry.now.numbers.block (L.cells lent.now) looked.now
        update.now hand.now) }
{
    let block = geometry.numbers.block;
    test_cells(block, lent).map_err(CheckEnd::Refuses)?;
    if !is_free(block, hand) || !fits_number(lent, update, hand.ino()) {
        return Err(CheckEnd::Refuses(Fault::Mismatch(MismatchPart::Lists)));
    }
    let nodes = HeldNodes::new(lent);
    let there = are_directories_there(&nodes, update);
    match ends_at_check(block, &nodes, looked, update, hand.ino().is_some()) {
        Ok(wanted) => Ok(wanted),
        Err(end) => Err(named(there, end)),
    }
}

/// How the check ends a call whose directories are there: what is stale then is what a name leads to.
fn named(there: bool, end: CheckEnd) -> CheckEnd
    ensures { result ≡ misnamed there end }
{
    match end {
        CheckEnd::Refuses(Fault::Stale) if there => {
            CheckEnd::Refuses(Fault::Mismatch(MismatchPart::Names))
        }
        end => end,
    }
}

/// Whether the directories are there in which a call looks names up. No for a call that looks none up.
fn are_directories_there<N: Nodes>(nodes: &N, update: &Update) -> bool
    ensures { result ≡ directories_there (N.nodes_of nodes.now) update.now }
{
    match update {
        Update::Unlink { dir, .. } | Update::Rmdir { dir, .. } => nodes.kind(dir).is_some(),
        Update::Rename { from, to, .. } => {
            nodes.kind(from).is_some() && nodes.kind(to).is_some()
        }
        _ => false,
    }
}

/// Tests that the cells are for blocks of that size, and that none has an entry past its tail.
fn test_cells<L: Cells>(block: u64, lent: &L) -> Result<(), Fault>
    requires few { length (L.cells lent.now) ≤ 4 }
    ensures ok { OnOk result (AllByRecursion (λ c. IsStill block c.1.state) (L.cells lent.now)) }
    ensures err { IfErr result (RefusesCells block (L.cells lent.now)) }
{
    for k in 0..lent.count() {
        let cell = lent.cell(k);
        if cell.block_bytes() != block {
            return Err(Fault::Mismatch(MismatchPart::Lists));
        }
        if cell.tail() != cell.len() {
            return Err(Fault::Mismatch(MismatchPart::Index));
        }
    }
    Ok(())
}

/// Whether a hand is for blocks of that size and holds none.
fn is_free(block: u64, hand: &Hand) -> bool
    ensures { IsTrue result ↔ IsFreeHand block hand.now }
{
    hand.data.block_bytes() as u64 == block
        && hand.pages.block_bytes() as u64 == block
        && hand.len() == 0
}

/// Whether the number in a hand, if there is one, is that of an empty slot among the cells, for a call that makes an
/// inode.
fn fits_number<L: Cells>(lent: &L, update: &Update, number: Option<Ino>) -> bool
    requires few { length (L.cells lent.now) ≤ 4 }
    ensures { IsTrue result ↔ FitsNumber (L.cells lent.now) (makes update.now) number }
{
    let Some(ino) = number else {
        return true;
    };
    match update {
        Update::Create { .. } | Update::Mkdir { .. } => is_empty_slot(lent, ino),
        _ => false,
    }
}

/// Whether a number is that of an empty slot among the cells.
fn is_empty_slot<L: Cells>(lent: &L, ino: Ino) -> bool
    requires few { length (L.cells lent.now) ≤ 4 }
    ensures { IsTrue result ↔ IsEmptySlot (L.cells lent.now) ino }
{
    for k in 0..lent.count() {
        if lent.ino(k) == ino {
            let cell = lent.cell(k);
            cell.holds_together();
            return cell.tail() == 0;
        }
    }
    false
}
