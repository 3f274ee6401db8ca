//! A snapshot is pinned, shown inode by inode, and unpinned.

ghost use Rattle.std.specs.Prelude.{◌≡◌, ◌<◌, ◌≤◌, ◌⊎◌, ℕ, IfErr, OnErr, OnOk, false, vec_len};
ghost use Rattle.nv_base.specs.Memory.{out_of_memory};
ghost use Rattle.nv_base.specs.Refusals.{FailsEither, FailsOnly};
ghost use Rattle.nv_base.specs.declared.fault.Fault.TheVariants as fault;
ghost use Rattle.nv_base.specs.declared.fault.MismatchPart.TheVariants as part;
ghost use Rattle.nv_base.specs.declared.geometry.GeometryNumbers.{GeometryNumbers};
ghost use Rattle.nv_reader.specs.Showing.{is_over, visited};
ghost use Rattle.nv_sessions.specs.Refusing.{IsMisfitOrWant};
ghost use Rattle.nv_sessions.specs.ShowRuns.{AreAllVisits, FindsCell, FindsPin, FindsUnpin, IsMarked, SeesCell};

use crate::cell::LockedCell;
use crate::locked_parts::LockedParts;
use crate::names::{Blocks, Commits};
use crate::view_guards::share_at;
use nv_base::{Epoch, Fault, Handle, MismatchPart};
use nv_calls::Answer;
use nv_cell::InodeCell;
use nv_entry::Tree;
use nv_reader::{Showing, show_on};
use std::alloc::Global;
use std::sync::{RwLock, Wait};

/// Pins a snapshot: a show over the slots of the device begins. `NoSnapshot` where it doesn't live, and `Mismatch` of
/// `Records` where it takes no more pins.
pub(crate) fn pin<C: Commits, B: Blocks, R: Wait>(
    rt: &R,
    service: &LockedParts<C, B>,
    snapshot: Epoch,
) -> Result<Showing, Fault>
    ensures turn { FindsPin service.now.geometry.numbers snapshot result }
    ensures err { FailsEither fault.NoSnapshot (fault.Mismatch part.Records) result }
{
    let slots = service.geometry.numbers.inodes as usize;
    let mut book = service.book_lock().lock(rt);
    if !book.may_pin(snapshot) {
        return Err(Fault::Mismatch(MismatchPart::Records));
    }
    book.pin(service.alloc, snapshot, slots)
}

/// Takes the pin off a snapshot, and answers the nodes that were seen, or for what the show is refused. `Mismatch` of
/// `Records` where it has no pin.
pub(crate) fn unpin<C: Commits, B: Blocks, R: Wait>(
    rt: &R,
    service: &LockedParts<C, B>,
    snapshot: Epoch,
    shown: Result<Tree, Fault>,
) -> Result<Answer, Fault>
    ensures turn { FindsUnpin service.now.geometry.numbers snapshot shown result }
{
    let mut book = service.book_lock().lock(rt);
    if !book.is_pinned(snapshot) {
        return Err(Fault::Mismatch(MismatchPart::Records));
    }
    book.unpin(snapshot, shown)
}

/// The nodes that a show sees, visited inode by inode, each under its own lock alone. `Mismatch` of `Names` where a name leads
/// to no node, or to one that was met before, so that the visits end; `OutOfMemory` where room was refused.
pub(crate) fn show_tree<C: Commits, B: Blocks, R: Wait>(
    rt: &R,
    service: &LockedParts<C, B>,
    snapshot: Epoch,
    first: Showing,
) -> Result<Tree, Fault>
    ensures visits { AreAllVisits service.now.geometry.numbers snapshot first result }
    ensures err { IfErr result IsMisfitOrWant }
{
    let mut met = Vec::new(service.alloc);
    let mut showing = first;
    for _visit in rt.forever() {
        if showing.is_over() {
            return Ok(showing.into_seen());
        }
        showing = visit(rt, service, &mut met, snapshot, showing)?;
    }
    unreachable!()
}

/// Makes the next visit of a show, under the lock of its slot alone.
fn visit<C: Commits, B: Blocks, R: Wait>(
    rt: &R,
    service: &LockedParts<C, B>,
    met: &mut Vec<bool>,
    snapshot: Epoch,
    showing: Showing,
) -> Result<Showing, Fault>
    requires more { is_over showing ≡ false }
    requires room { (vec_len met.old ≡ 0) ⊎ (vec_len met.old ≡ service.now.geometry.numbers.inodes) }
    ensures cell { FindsCell service.now.geometry.numbers snapshot (IsMarked met.old.items) showing
        result }
    ensures room { OnOk result (vec_len met.new ≡ service.now.geometry.numbers.inodes) }
    // Its slot alone is marked.
    ensures marks { OnOk result ((ino : ℕ) → IsMarked met.new.items ino
        → (ino ≡ (visited showing.visits).ino) ⊎ IsMarked met.old.items ino) }
    ensures err { IfErr result IsMisfitOrWant }
{
    let handle = showing.visited();
    let lock = slot_lock(service, &handle)?;
    let place = share_at(rt, lock, handle.ino)?;
    let cell = place.part();
    note_once(service.alloc, met, service.cells.len(), &handle)?;
    see(service.alloc, cell, snapshot, showing)
}

/// The lock of the slot of a handle. `Mismatch` of `Names` where the device has no such slot.
fn slot_lock<'a, C: Commits, B: Blocks>(
    service: &'a LockedParts<C, B>,
    handle: &Handle,
) -> Result<&'a RwLock<LockedCell<C, B>>, Fault>
    ensures slot { OnOk result (handle.now.ino < service.now.geometry.numbers.inodes) }
    ensures none { OnErr result (service.now.geometry.numbers.inodes ≤ handle.now.ino) }
    ensures err { FailsOnly (fault.Mismatch part.Names) result }
{
    let Some(lock) = service.inode_lock(handle.ino) else {
        return Err(Fault::Mismatch(MismatchPart::Names));
    };
    Ok(lock)
}

/// Marks the slot of a handle, one of so many, as met. `Mismatch` of `Names` where it was met before; `OutOfMemory` where room
/// for the marks was refused.
fn note_once(alloc: Global, met: &mut Vec<bool>, slots: usize, handle: &Handle) -> Result<(), Fault>
    requires inside { handle.now.ino < slots }
    requires room { (vec_len met.old ≡ 0) ⊎ (vec_len met.old ≡ slots) }
    ensures room { OnOk result (vec_len met.new ≡ slots) }
    ensures marks { OnOk result ((ino : ℕ) → IsMarked met.new.items ino
        → (ino ≡ handle.now.ino) ⊎ IsMarked met.old.items ino) }
    ensures err { IfErr result (λ why. ((why ≡ fault.Mismatch part.Names)
        × IsMarked met.old.items handle.now.ino) ⊎ (why ≡ out_of_memory)) }
{
    make_marks(alloc, met, slots)?;
    let slot = handle.ino.number() as usize;
    if met[slot] {
        return Err(Fault::Mismatch(MismatchPart::Names));
    }
    met[slot] = true;
    Ok(())
}

/// Makes marks of so many slots, of which none is set, where there are none. `OutOfMemory` where room was refused.
fn make_marks(alloc: Global, met: &mut Vec<bool>, slots: usize) -> Result<(), Fault>
    requires room { (vec_len met.old ≡ 0) ⊎ (vec_len met.old ≡ slots) }
    ensures room { OnOk result (vec_len met.new ≡ slots) }
    ensures marks { OnOk result ((ino : ℕ) → IsMarked met.new.items ino
        → IsMarked met.old.items ino) }
    ensures err { FailsOnly out_of_memory result }
{
    if !met.is_empty() {
        return Ok(());
    }
    *met = vec![in alloc; false; slots]?;
    Ok(())
}

/// Sees the node of a cell in the next visit of a show. `Mismatch` of `Names` where the handle leads to no node.
fn see(alloc: Global, cell: &InodeCell, snapshot: Epoch, showing: Showing) -> Result<Showing, Fault>
    requires more { is_over showing ≡ false }
    ensures cell { (numbers : GeometryNumbers) → (visited showing.visits).ino < numbers.inodes
        → SeesCell numbers snapshot showing cell.now result }
    ensures err { IfErr result IsMisfitOrWant }
{
    let handle = showing.visited();
    if handle.generation != cell.generation() {
        return Err(Fault::Mismatch(MismatchPart::Names));
    }
    let Some(node) = show_on(alloc, cell, snapshot)? else {
        return Err(Fault::Mismatch(MismatchPart::Names));
    };
    showing.see(alloc, Some(node))
}
