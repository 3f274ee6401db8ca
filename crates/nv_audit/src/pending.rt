//! What is on its way: in hands, or deferred.

ghost use Rattle.std.specs.Prelude.{◌≡◌, ◌<◌, ◌==◌, ◌++◌, ℕ, [], ◌∷◌, IfOk, OnOk, if◌then◌else◌};
ghost use Rattle.nv_epoch.specs.SnapList.{ids};
ghost use Rattle.nv_audit.specs.Pending.{ArePendingOf, HaveMore, deferred_of, of_inode, parts_at, pending_of};

use crate::InodePart;
use nv_base::{BlockNo, Epoch, Ino};
use nv_book::{Book, Record, Records};
use nv_entry::PartId;
use std::alloc::{AllocError, Global};

/// What the hands of all calls have: the numbers of their blocks, and the parts that they have killed and not yet
/// retired, or picked and not yet released.
#[derive(Debug, Drop)]
pub struct InHands {
    pub blocks: Vec<BlockNo>,
    pub parts: Vec<InodePart>,
}

/// The parts of each of so many slots that are deferred or in hands: a list for each slot, or none at all where no part is
/// either. Costs the lengths of both lists, and, unless these are empty, memory for each slot and each of their parts.
pub(crate) fn pending_by_slot(
    alloc: Global,
    slots: usize,
    deferred: &[Record],
    in_hands: &[InodePart],
) -> Result<Vec<Vec<PartId>>, AllocError>
    ensures { IfOk result (λ lists. (slot : ℕ) → slot < slots
        → parts_at lists.items slot ≡ pending_of slot deferred.now in_hands.now) }
{
    if deferred.is_empty() && in_hands.is_empty() {
        return Ok(Vec::new(alloc));
    }
    let lists = all_pending(alloc, slots, deferred, in_hands)?;
    Ok(lists)
}

/// The pending parts of a slot, by these lists.
pub(crate) fn pending_at(lists: &[Vec<PartId>], slot: usize) -> &[PartId]
    ensures { result.now ≡ parts_at lists.now slot }
{
    match lists.get(slot) {
        Some(list) => list,
        None => &[],
    }
}

/// The parts of each of so many slots that are deferred or in hands, with a list for each slot.
pub(crate) fn all_pending(
    alloc: Global,
    slots: usize,
    deferred: &[Record],
    in_hands: &[InodePart],
) -> Result<Vec<Vec<PartId>>, AllocError>
    ensures { IfOk result (λ lists. ArePendingOf slots deferred.now in_hands.now lists.items) }
{
    let mut lists = none_pending(alloc, slots)?;
    put_deferred(&mut lists, deferred)?;
    put_in_hands(&mut lists, in_hands)?;
    Ok(lists)
}

/// An empty list for each of so many slots.
fn none_pending(alloc: Global, slots: usize) -> Result<Vec<Vec<PartId>>, AllocError>
    ensures { IfOk result (λ lists. ArePendingOf slots [] [] lists.items) }
{
    let mut lists = Vec::new(alloc);
    for _slot in 0..slots {
        lists.push(Vec::new(alloc))?;
    }
    Ok(lists)
}

/// Puts the part of each record to the list of its slot.
fn put_deferred(lists: &mut Vec<Vec<PartId>>, deferred: &[Record]) -> Result<(), AllocError>
    ensures { OnOk result (HaveMore (λ (ino : ℕ). deferred_of ino deferred.now)
        lists.old.items lists.new.items) }
{
    for gone in deferred {
        let part = PartId {
            entry: gone.entry,
            part: gone.part,
        };
        put_part(lists, gone.ino, part)?;
    }
    Ok(())
}

/// Puts each part to the list of its slot.
fn put_in_hands(lists: &mut Vec<Vec<PartId>>, parts: &[InodePart]) -> Result<(), AllocError>
    ensures { OnOk result (HaveMore (λ (ino : ℕ). of_inode ino parts.now)
        lists.old.items lists.new.items) }
{
    for part in parts {
        put_part(lists, part.ino, part.part)?;
    }
    Ok(())
}

/// Puts a part to the list of its slot, if there is one.
fn put_part(lists: &mut Vec<Vec<PartId>>, ino: Ino, part: PartId) -> Result<(), AllocError>
    ensures { OnOk result (HaveMore (λ (slot : ℕ). if ino == slot then part ∷ [] else [])
        lists.old.items lists.new.items) }
{
    let place = ino.number() as usize;
    if place >= lists.len() {
        return Ok(());
    }
    let list = &mut lists[place];
    list.push(part)?;
    Ok(())
}

/// The living snapshots.
pub fn living(alloc: Global, book: &Book) -> Result<Vec<Epoch>, AllocError>
    ensures { IfOk result (λ living. living.items ≡ ids book.now.state.snaps) }
{
    book.snaps().ids().collect(alloc)
}

/// Records one by one.
pub(crate) fn listed(alloc: Global, records: &Records) -> Result<Vec<Record>, AllocError>
    ensures { IfOk result (λ list. list.items ≡ records.now) }
{
    records.iter().collect(alloc)
}
