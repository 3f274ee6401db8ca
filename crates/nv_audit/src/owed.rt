//! The records that logs owe to the living snapshots.

ghost use Rattle.std.specs.Prelude.{◌≡◌, ◌++◌, ℕ, List, IfOk, OnOk, length};
ghost use Rattle.std.specs.Option.{option_to_list};
ghost use Rattle.nv_base.specs.Refusals.{FailsOnly};
ghost use Rattle.nv_base.specs.Memory.{out_of_memory};
ghost use Rattle.nv_entry.specs.Keys.{parts_of};
ghost use Rattle.nv_entry.specs.Log.{pairs_of};
ghost use Rattle.nv_entry.specs.declared.item.Entry.{Entry as EntryValue};
ghost use Rattle.nv_epoch.specs.SnapList.{ids};
ghost use Rattle.nv_audit.specs.Deaths.{deaths_of};
ghost use Rattle.nv_audit.specs.Owed.{died, owed_record, owed_records, owed_records_by, owed_records_from};
ghost use Rattle.nv_audit.specs.Records.{states_of};

use crate::InodePart;
use crate::deaths::deaths_of;
use crate::kept_parts::{death_at, pair_from};
use crate::parts::part_at;
use crate::pending::{pending_at, pending_by_slot};
use nv_base::{Epoch, Fault, Ino};
use nv_book::Record;
use nv_cell::InodeCell;
use nv_entry::{Entry, Pair, PartId};
use nv_epoch::SnapList;
use std::alloc::{AllocError, Global};

/// The records of the parts of all logs that living snapshots hold and that are neither current nor in hands. Costs one
/// pass over the parts in hands, and for each inode one over its log from the end, with a look-up for each entry, for
/// each part a look-up and one of snapshots, and for each part that is held a scan of those of that inode in hands; and
/// memory for each part of one log, for each part in hands and for each record.
pub(crate) fn owed_records(
    alloc: Global,
    snaps: &SnapList,
    cells: &[InodeCell],
    in_hands: &[InodePart],
) -> Result<Vec<Record>, Fault>
    ensures ok { IfOk result (λ owed. owed.items
        ≡ owed_records_from (ids snaps.now) in_hands.now 0 (states_of cells.now)) }
    ensures err { FailsOnly out_of_memory result }
{
    let pending = pending_by_slot(alloc, cells.len(), &[], in_hands)?;
    let mut owed = Vec::new(alloc);
    for place in 0..cells.len() {
        let ino = Ino::new(place as u64);
        let named = pending_at(&pending, place);
        push_owed_by(alloc, &mut owed, snaps, ino, &cells[place], named)?;
    }
    Ok(owed)
}

/// Puts those of one inode, of which these parts are in hands, to the end of a list.
fn push_owed_by(
    alloc: Global,
    owed: &mut Vec<Record>,
    snaps: &SnapList,
    ino: Ino,
    cell: &InodeCell,
    named: &[PartId],
) -> Result<(), Fault>
    ensures ok { OnOk result (owed.new.items ≡ owed.old.items
        ++ owed_records_by (ids snaps.now) named.now ino cell.now.state) }
    ensures err { FailsOnly out_of_memory result }
{
    // A log without an entry owes nothing.
    if cell.log().log().is_empty() {
        return Ok(());
    }
    let deaths = deaths_of(alloc, cell)?;
    push_owed(owed, snaps, ino, cell, &deaths, named)?;
    Ok(())
}

/// Puts the records that one inode owes to the end of a list, where the parts of its log died then, and these of
/// them are in hands.
fn push_owed(
    owed: &mut Vec<Record>,
    snaps: &SnapList,
    ino: Ino,
    cell: &InodeCell,
    deaths: &[Option<Epoch>],
    named: &[PartId],
) -> Result<(), AllocError>
    requires { deaths.now ≡ deaths_of cell.now.state }
    ensures { OnOk result (owed.new.items ≡ owed.old.items
        ++ owed_records_by (ids snaps.now) named.now ino cell.now.state) }
{
    let mut left = deaths;
    for entry in cell.log().log() {
        let (own, rest) = left.split_at(entry.item.part_count() as usize);
        push_owed_of(owed, snaps, ino, entry, own, named)?;
        left = rest;
    }
    Ok(())
}

/// Puts those of one entry to the end of a list.
fn push_owed_of(
    owed: &mut Vec<Record>,
    snaps: &SnapList,
    ino: Ino,
    entry: &Entry,
    deaths: &[Option<Epoch>],
    named: &[PartId],
) -> Result<(), AllocError>
    requires { length deaths.now ≡ length (parts_of entry.now.item) }
    ensures { OnOk result ((block : ℕ) (later : List EntryValue)
        → deaths.now ≡ died (pairs_of block entry.now later)
        → owed.new.items ≡ owed.old.items
        ++ owed_records (ids snaps.now) named.now ino (pairs_of block entry.now later)) }
{
    for place in 0..entry.item.part_count() {
        let id = PartId {
            entry: entry.id,
            part: part_at(&entry.item, place),
        };
        let pair = pair_from(&id, entry.epoch, death_at(deaths, place as usize));
        push_if_owed(owed, snaps, ino, &pair, named)?;
    }
    Ok(())
}

/// Puts the record that a pair is to have to the end of a list.
fn push_if_owed(
    owed: &mut Vec<Record>,
    snaps: &SnapList,
    ino: Ino,
    pair: &Pair,
    named: &[PartId],
) -> Result<(), AllocError>
    ensures { OnOk result (owed.new.items ≡ owed.old.items
        ++ option_to_list (owed_record (ids snaps.now) named.now ino pair.now)) }
{
    if let Some(record) = owed_record(snaps, ino, pair, named) {
        owed.push(record)?;
    }
    Ok(())
}

/// The record that a pair is to have: one where it died, a living snapshot holds it, and it is not in a hand.
fn owed_record(snaps: &SnapList, ino: Ino, pair: &Pair, named: &[PartId]) -> Option<Record>
    ensures { result ≡ owed_record (ids snaps.now) named.now ino pair.now }
{
    let death = pair.death?;
    let is_held = snaps.youngest_in(pair.birth, death).is_some();
    if is_held && !pair.is_named(named) {
        return Some(Record {
            ino,
            entry: pair.entry,
            part: pair.part,
            birth: pair.birth,
            death,
        });
    }
    None
}
