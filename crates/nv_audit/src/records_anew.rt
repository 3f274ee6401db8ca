//! The records that a mount makes anew of a log.

ghost use Rattle.std.specs.Prelude.{◌≡◌, ◌++◌, ℕ, List, OnOk, length};
ghost use Rattle.std.specs.Option.{option_to_list};
ghost use Rattle.nv_base.specs.Memory.{out_of_memory};
ghost use Rattle.nv_base.specs.Refusals.{FailsOnly};
ghost use Rattle.nv_entry.specs.Keys.{parts_of};
ghost use Rattle.nv_entry.specs.Log.{pairs_of};
ghost use Rattle.nv_entry.specs.declared.item.Entry.{Entry as EntryValue};
ghost use Rattle.nv_audit.specs.Deaths.{deaths_in};
ghost use Rattle.nv_audit.specs.Mounted.{log_records};
ghost use Rattle.nv_audit.specs.MountedLogs.{pair_record, pair_records};
ghost use Rattle.nv_audit.specs.Owed.{died};

use crate::deaths::deaths_in;
use crate::kept_parts::{death_at, pair_from};
use crate::logged::Logged;
use crate::mounted::is_held_from;
use crate::parts::part_at;
use nv_base::{Epoch, Fault, Ino};
use nv_book::Record;
use nv_entry::{Entry, Pair, PartId};
use std::alloc::{AllocError, Global};

/// Puts the records of a slot's log to the end of a list: of each part that is no longer current and that one of these
/// snapshots holds, in the order of the log. The only error is `OutOfMemory`.
///
/// Costs nothing where no snapshot lives, and else one pass over the log from its end with a look-up for each part, for
/// each part that is no longer current a scan of the snapshots up to one that holds it, and memory for each part.
pub fn push_records_anew(
    alloc: Global,
    records: &mut Vec<Record>,
    snapshots: &[Epoch],
    ino: Ino,
    logged: &Logged<'_>,
) -> Result<(), Fault>
    // The records that a mount makes of a log go to the end, in log order.
    ensures ok { OnOk result (records.new.items ≡ records.old.items
        ++ log_records logged.now.block snapshots.now ino logged.now.log) }
    // The only error is `OutOfMemory`.
    ensures err { FailsOnly out_of_memory result }
{
    if snapshots.is_empty() {
        return Ok(());
    }
    let deaths = deaths_in(alloc, logged)?;
    push_all(records, snapshots, ino, logged, &deaths)?;
    Ok(())
}

/// The same, where these are the deaths of the log's parts.
fn push_all(
    records: &mut Vec<Record>,
    snapshots: &[Epoch],
    ino: Ino,
    logged: &Logged<'_>,
    deaths: &[Option<Epoch>],
) -> Result<(), AllocError>
    requires { deaths.now ≡ deaths_in logged.now.block logged.now.log }
    ensures { OnOk result (records.new.items ≡ records.old.items
        ++ log_records logged.now.block snapshots.now ino logged.now.log) }
{
    let mut left = deaths;
    for entry in logged.log() {
        let (own, rest) = left.split_at(entry.item.part_count() as usize);
        push_entry(records, snapshots, ino, entry, own)?;
        left = rest;
    }
    Ok(())
}

/// Puts the records of an entry's parts, which died then, to the end.
fn push_entry(
    records: &mut Vec<Record>,
    snapshots: &[Epoch],
    ino: Ino,
    entry: &Entry,
    deaths: &[Option<Epoch>],
) -> Result<(), AllocError>
    requires { length deaths.now ≡ length (parts_of entry.now.item) }
    ensures { OnOk result ((block : ℕ) (later : List EntryValue)
        → deaths.now ≡ died (pairs_of block entry.now later)
        → records.new.items ≡ records.old.items
        ++ pair_records snapshots.now ino (pairs_of block entry.now later)) }
{
    for place in 0..entry.item.part_count() {
        let id = PartId {
            entry: entry.id,
            part: part_at(&entry.item, place),
        };
        let pair = pair_from(&id, entry.epoch, death_at(deaths, place as usize));
        push_if_recorded(records, snapshots, ino, &pair)?;
    }
    Ok(())
}

/// Puts the record of a pair to the end, if it is to have one.
fn push_if_recorded(
    records: &mut Vec<Record>,
    snapshots: &[Epoch],
    ino: Ino,
    pair: &Pair,
) -> Result<(), AllocError>
    ensures { OnOk result (records.new.items ≡ records.old.items
        ++ option_to_list (pair_record snapshots.now ino pair.now)) }
{
    if let Some(record) = record_of(snapshots, ino, pair) {
        records.push(record)?;
    }
    Ok(())
}

/// The record of a pair: one where it died, and one of the snapshots holds it.
fn record_of(snapshots: &[Epoch], ino: Ino, pair: &Pair) -> Option<Record>
    ensures { result ≡ pair_record snapshots.now ino pair.now }
{
    let death = pair.death?;
    if !is_held_from(snapshots, pair.birth, Some(death)) {
        return None;
    }
    Some(Record {
        ino,
        entry: pair.entry,
        part: pair.part,
        birth: pair.birth,
        death,
    })
}
