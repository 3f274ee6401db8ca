//! The records of what snapshots hold.

ghost use Rattle.std.specs.Prelude.{◌≡◌, ◌↔◌, ℕ, All, IfOk, IsTrue};
ghost use Rattle.nv_base.specs.Refusals.{FailsOnly};
ghost use Rattle.nv_base.specs.Memory.{out_of_memory};
ghost use Rattle.nv_audit.specs.PartLists.{HaveSameParts};
ghost use Rattle.nv_audit.specs.Records.{AreRecorded, recorded_in, states_of};

use crate::owed::owed_records;
use crate::part_list::have_same_parts;
use crate::pending::living;
use crate::slot_records::all_records;
use crate::{InHands, InodePart};
use nv_base::{Epoch, Fault};
use nv_book::{Book, Record};
use nv_cell::InodeCell;
use nv_entry::PartId;
use std::alloc::{AllocError, Global};

/// Whether for each living snapshot the recorded parts that it holds are those that the logs say: of the pairs that it
/// holds those that are neither current nor in a hand.
///
/// Where no snapshot lives it costs nothing. Else it costs one pass over the parts in hands, and for each inode one over its log from the end, with a look-up for each
/// entry, for each part a look-up and one of snapshots, and for each part that is held a scan of those of that inode in
/// hands; then for each snapshot a pass over all records and one over those that the logs say, and the number of the
/// parts that it holds, times a logarithm.
pub fn are_recorded(
    alloc: Global,
    cells: &[InodeCell],
    book: &Book,
    hands: &InHands,
) -> Result<bool, Fault>
    // Records are passed exactly where each living snapshot holds by them what it holds by the logs.
    // A snapshot is asked about also where it is the only one.
    // A pair that is current or in a hand is owed to no snapshot.
    // A part in a hand counts for its own inode alone.
    ensures ok { IfOk result (λ are. IsTrue are
        ↔ AreRecorded (states_of cells.now) book.now.state hands.now.parts.items) }
    ensures err { FailsOnly out_of_memory result }
{
    let snapshots = living(alloc, book)?;
    if snapshots.is_empty() {
        return Ok(true);
    }
    let recorded = all_records(alloc, book)?;
    let owed = owed_records(alloc, book.snaps(), cells, &hands.parts)?;
    let agree = are_held_alike(alloc, &snapshots, &recorded, &owed)?;
    Ok(agree)
}

/// Whether each of these snapshots holds the same parts by the ones of these records as by the others.
fn are_held_alike(
    alloc: Global,
    snapshots: &[Epoch],
    recorded: &[Record],
    owed: &[Record],
) -> Result<bool, AllocError>
    ensures { IfOk result (λ are. IsTrue are ↔ All (λ (s : ℕ). HaveSameParts
        (recorded_in s recorded.now) (recorded_in s owed.now)) snapshots.now) }
{
    for snapshot in snapshots {
        let one = parts_held(alloc, recorded, *snapshot)?;
        let other = parts_held(alloc, owed, *snapshot)?;
        let same = have_same_parts(one, other);
        if !same {
            return Ok(false);
        }
    }
    Ok(true)
}

/// The parts of those of the records that a snapshot holds.
fn parts_held(
    alloc: Global,
    records: &[Record],
    snapshot: Epoch,
) -> Result<Vec<InodePart>, AllocError>
    ensures { IfOk result (λ parts. parts.items ≡ recorded_in snapshot records.now) }
{
    let mut parts = Vec::new(alloc);
    for held in records {
        if held.is_held_by(snapshot) {
            parts.push(InodePart {
                ino: held.ino,
                part: PartId {
                    entry: held.entry,
                    part: held.part,
                },
            })?;
        }
    }
    Ok(parts)
}
