//! The parts of a log that are marked kept, beside their records.

ghost use Rattle.std.specs.Prelude.{◌≡◌, ◌↔◌, ℕ, ◌+◌, ◌<◌, ◌++◌, All, IfOk, IfSome, IsTrue, OnOk, Option, Some, false, length, map, slice_get, slice_index_or};
ghost use Rattle.std.specs.Option.{option_map};
ghost use Rattle.nv_base.specs.Refusals.{FailsOnly};
ghost use Rattle.nv_base.specs.Memory.{out_of_memory};
ghost use Rattle.nv_cell.specs.Cell.{log_of};
ghost use Rattle.nv_cell.specs.Named.{number_named, place_of_part};
ghost use Rattle.nv_cell.specs.Numbers.{part_base};
ghost use Rattle.nv_entry.specs.Covered.{part_count};
ghost use Rattle.nv_entry.specs.declared.item.Entry.{Entry as EntryValue};
ghost use Rattle.nv_epoch.specs.SnapList.{ids};
ghost use Rattle.nv_audit.specs.Deaths.{deaths_of};
ghost use Rattle.nv_audit.specs.Pending.{part_of};
ghost use Rattle.nv_audit.specs.KeptParts.{AreOnceRecorded, ArePartsOf, AreRecordsOf, IsRecordOf, TellsOf, is_marked_as_kept, is_left, pair_named, taken_from};

use crate::deaths::deaths_of;
use nv_base::limits::FILE_PAGES;
use nv_base::{Epoch, Fault};
use nv_book::Record;
use nv_cell::{InodeCell, Mark};
use nv_entry::{Item, Pair, Part, PartId};
use nv_epoch::SnapList;
use std::alloc::{AllocError, Global};

/// A part of a log: the place of its entry, and its own among the parts of the entry.
#[derive(Clone, Copy, Debug)]
struct FoundPart {
    entry: usize,
    place: u32,
}

/// The parts of a log by number: where those of each entry begin, and which are marked kept and have no record yet.
#[derive(Debug, Drop)]
pub(crate) struct KeptParts {
    firsts: Vec<usize>,
    left: Vec<bool>,
}

/// Whether these are the records of a cell: each is of a part of its log that is no longer current, with its birth and
/// the living snapshots that hold it, and each part that is marked kept has one, and no other part has any. Costs one
/// pass over the log from its end with a look-up for each part and for each entry, for each record a look-up of its entry
/// and two of snapshots, and memory for each part of the log.
pub fn are_records_of(
    alloc: Global,
    snaps: &SnapList,
    records: &[Record],
    cell: &InodeCell,
) -> Result<bool, Fault>
    // Records pass just where each tells of a part of the log its birth and its holders.
    // They pass just where besides each kept part has one of them, and no other part any.
    ensures ok { IfOk result (λ are. IsTrue are
        ↔ AreRecordsOf (ids snaps.now) cell.now.state records.now) }
    // The only error is `OutOfMemory`.
    ensures err { FailsOnly out_of_memory result }
{
    let parts = kept_parts(alloc, cell)?;
    let deaths = deaths_of(alloc, cell)?;
    if !are_of_parts(snaps, records, cell, &parts, &deaths) {
        return Ok(false);
    }
    Ok(are_once_recorded(records, cell, parts))
}

/// Whether each record is of a part of a log.
fn are_of_parts(
    snaps: &SnapList,
    records: &[Record],
    cell: &InodeCell,
    parts: &KeptParts,
    deaths: &[Option<Epoch>],
) -> bool
    requires parts { ArePartsOf cell.now.state parts.now }
    requires deaths { deaths.now ≡ deaths_of cell.now.state }
    ensures { IsTrue result ↔ All (IsRecordOf (ids snaps.now) cell.now.state) records.now }
{
    for record in records {
        if !is_record_of(snaps, record, cell, parts, deaths) {
            return false;
        }
    }
    true
}

fn is_record_of(
    snaps: &SnapList,
    record: &Record,
    cell: &InodeCell,
    parts: &KeptParts,
    deaths: &[Option<Epoch>],
) -> bool
    requires parts { ArePartsOf cell.now.state parts.now }
    requires deaths { deaths.now ≡ deaths_of cell.now.state }
    ensures { IsTrue result ↔ IsRecordOf (ids snaps.now) cell.now.state record.now }
{
    // The log is one, so that each part has a name of its own.
    cell.holds_together();
    match pair_named(cell, parts, deaths, part_of(record)) {
        Some(pair) => tells_of(snaps, record, &pair),
        None => false,
    }
}

fn part_of(record: &Record) -> PartId
    ensures { result ≡ part_of record.now }
{
    PartId {
        entry: record.entry,
        part: record.part,
    }
}

/// Whether a record tells of a pair that is no longer current its birth and its holders. The youngest holder tells them
/// all, since they are those from the birth to the death.
fn tells_of(snaps: &SnapList, record: &Record, pair: &Pair) -> bool
    ensures { IsTrue result ↔ TellsOf (ids snaps.now) record.now pair.now }
{
    snaps.rises();
    match pair.death {
        Some(death) => {
            record.birth == pair.birth
                && is_same(
                    snaps.youngest_in(record.birth, record.death),
                    snaps.youngest_in(record.birth, death),
                )
        }
        None => false,
    }
}

fn is_same(one: Option<Epoch>, other: Option<Epoch>) -> bool
    ensures { IsTrue result ↔ (one ≡ other) }
{
    one == other
}

/// The pair of a log that has a name.
fn pair_named(
    cell: &InodeCell,
    parts: &KeptParts,
    deaths: &[Option<Epoch>],
    id: PartId,
) -> Option<Pair>
    requires parts { ArePartsOf cell.now.state parts.now }
    requires deaths { deaths.now ≡ deaths_of cell.now.state }
    ensures { result ≡ pair_named cell.now.state id }
{
    let found = find_part(cell, id)?;
    let log = cell.log().log();
    let entry = &log[found.entry];
    let number = number_at(cell, parts, found);
    Some(pair_from(&id, entry.epoch, death_at(deaths, number)))
}

/// When the part of that number died.
pub(crate) fn death_at(deaths: &[Option<Epoch>], number: usize) -> Option<Epoch>
    requires { number < length deaths.now }
    ensures { (other : Option ℕ) → result ≡ slice_index_or deaths.now number other }
{
    deaths[number]
}

/// The pair of a part, from its birth to its death.
pub(crate) fn pair_from(id: &PartId, birth: Epoch, death: Option<Epoch>) -> Pair
    ensures { result ≡ record { entry = id.now.entry; part = id.now.part; birth = birth; death = death } }
{
    Pair {
        entry: id.entry,
        part: id.part,
        birth,
        death,
    }
}

/// A part of a log by its name.
fn find_part(cell: &InodeCell, id: PartId) -> Option<FoundPart>
    ensures number { option_map (λ f. part_base (log_of cell.now.state) f.entry + f.place) result
        ≡ number_named (log_of cell.now.state) id }
    ensures within { IfSome result (λ f. f.entry < length (log_of cell.now.state)) }
    ensures place { (e : EntryValue) → IfSome result (λ f.
        slice_get (log_of cell.now.state) f.entry ≡ Some e → f.place < part_count e) }
{
    let entry = cell.log().place_of(id.entry)?;
    let log = cell.log().log();
    if entry >= log.len() {
        return None;
    }
    match place_of(&log[entry].item, id.part) {
        Some(place) => Some(FoundPart { entry, place }),
        None => None,
    }
}

/// The place of a part among those of an entry with the item.
fn place_of(item: &Item, part: Part) -> Option<u32>
    ensures { result ≡ place_of_part item.now part }
{
    match (item, part) {
        (Item::Init { .. }, Part::Mode) => Some(1),
        (Item::Init { .. }, Part::Size) => Some(2),
        (Item::Init { .. }, Part::Kind)
        | (Item::Write { .. } | Item::SetSize { .. }, Part::Size)
        | (Item::SetMode { .. }, Part::Mode)
        | (Item::Bind { .. }, Part::Bound) => Some(0),
        (Item::Write { first, run, .. }, Part::Page(page)) => {
            let within = page >= *first && page - *first < run.len && page < FILE_PAGES;
            within.then(|| page - *first + 1)
        }
        _ => None,
    }
}

/// Whether each part that is marked kept has one of these records, and no other part has any. No part is taken away yet.
fn are_once_recorded(records: &[Record], cell: &InodeCell, mut parts: KeptParts) -> bool
    requires parts { ArePartsOf cell.now.state parts }
    requires left { parts.left.items ≡ map is_marked_as_kept cell.now.state.marks }
    ensures { IsTrue result ↔ AreOnceRecorded cell.now.state records.now }
{
    for record in records {
        let number = number_of(cell, &parts, part_of(record));
        if !take_away(&mut parts.left, number) {
            return false;
        }
    }
    are_none_left(&parts.left)
}

/// The number of a part of a log by its name.
pub(crate) fn number_of(cell: &InodeCell, parts: &KeptParts, id: PartId) -> Option<usize>
    requires { ArePartsOf cell.now.state parts.now }
    ensures number { result ≡ number_named (log_of cell.now.state) id }
    ensures within { IfSome result (λ n. n < length cell.now.state.marks) }
{
    let found = find_part(cell, id)?;
    Some(number_at(cell, parts, found))
}

/// The number of a part of a log by its place.
fn number_at(cell: &InodeCell, parts: &KeptParts, found: FoundPart) -> usize
    requires parts { ArePartsOf cell.now.state parts.now }
    requires entry { found.entry < length (log_of cell.now.state) }
    requires place { (e : EntryValue) → slice_get (log_of cell.now.state) found.entry ≡ Some e
        → found.place < part_count e }
    ensures number { result ≡ part_base (log_of cell.now.state) found.entry + found.place }
    ensures within { result < length cell.now.state.marks }
{
    // Each part has a mark, and so many there are.
    cell.holds_together();
    let _count = parts.left.len();
    parts.firsts[found.entry] + found.place as usize
}

/// Takes away what a part has on a list of those that are left, and says whether it was there. A number that no part
/// has takes nothing away.
fn take_away(left: &mut Vec<bool>, number: Option<usize>) -> bool
    requires { IfSome number (λ n. n < length left.old.items) }
    ensures there { result ≡ is_left number left.old.items }
    ensures left { left.new.items ≡ taken_from number left.old.items }
{
    let Some(number) = number else {
        return true;
    };
    let was_left = left[number];
    left[number] = false;
    was_left
}

/// The parts of a log before any record.
pub(crate) fn kept_parts(alloc: Global, cell: &InodeCell) -> Result<KeptParts, AllocError>
    ensures parts { IfOk result (ArePartsOf cell.now.state) }
    ensures left { IfOk result (λ parts. parts.left.items ≡ map is_marked_as_kept cell.now.state.marks) }
{
    // The chain is one, so that its tail is no further than its entries; and each part has a mark.
    cell.holds_together();
    let mut parts = KeptParts {
        firsts: Vec::new(alloc),
        left: Vec::new(alloc),
    };
    for entry in 0..cell.tail() {
        parts.firsts.push(parts.left.len())?;
        push_kept(&mut parts.left, cell.marks_of(entry))?;
    }
    Ok(parts)
}

/// Puts to the end of a list of each of these marks whether it is kept.
fn push_kept(left: &mut Vec<bool>, marks: &[Mark]) -> Result<(), AllocError>
    ensures { OnOk result (left.new.items ≡ left.old.items ++ map is_marked_as_kept marks.now) }
{
    for mark in marks {
        left.push(matches!(mark, Mark::Kept))?;
    }
    Ok(())
}

fn are_none_left(left: &[bool]) -> bool
    ensures { IsTrue result ↔ ((n : ℕ) → slice_index_or left.now n false ≡ false) }
{
    for kept in left {
        if *kept {
            return false;
        }
    }
    true
}
