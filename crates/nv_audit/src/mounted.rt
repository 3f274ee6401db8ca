//! The logs that a mount makes of an image, slot by slot.

ghost use Rattle.std.specs.Prelude.{◌≡◌, ◌<◌, ◌≤◌, ◌&&◌, All, IfOk, length, map, nat_le, slice_set, take};
ghost use Rattle.std.specs.List.{list_any};
ghost use Rattle.nv_base.specs.Refusals.{FailsOnly};
ghost use Rattle.nv_base.specs.Memory.{out_of_memory};
ghost use Rattle.nv_base.specs.declared.limits.TheConstants.{NUMBER};
ghost use Rattle.nv_entry.specs.Held.{is_before_death, is_held};
ghost use Rattle.nv_entry.specs.Log.{IsLog, pairs};
ghost use Rattle.nv_journal.specs.declared.old_tail.OldTail.{OldTail as OldTailValue};
ghost use Rattle.nv_audit.specs.Deaths.{deaths_in};
ghost use Rattle.nv_audit.specs.Faults.{AreEntriesGood, FitsGeometry};
ghost use Rattle.nv_audit.specs.Image.{SlotImageValue, slot_of};
ghost use Rattle.nv_audit.specs.Logged.{logged as logged_of};
ghost use Rattle.nv_audit.specs.Mounted.{cell_anew, is_over};
ghost use Rattle.nv_audit.specs.MountedLogs.{AreNoted, cut_tails, erased_logged, front_logged, is_held_from, mounted_logs};

use crate::deaths::deaths_in;
use crate::faults::{all_notes, are_journals_good};
use crate::log_shape::ends_with_gone;
use crate::logged::Logged;
use crate::{Image, SlotImage};
use nv_base::{Epoch, Fault, Gen, Geometry};
use nv_entry::Entry;
use nv_journal::OldTail;
use std::alloc::{AllocError, Global};

/// Where the log of each slot is cut: at the tail that an open journal has noted for it, else at its own, and there too
/// where a journal is bad. Costs a look at each slot and note, and memory for each.
pub(crate) fn cut_tails(alloc: Global, image: &Image) -> Result<Vec<usize>, Fault>
    ensures ok { IfOk result (λ tails. tails.items ≡ cut_tails image.now) }
    ensures err { FailsOnly out_of_memory result }
{
    let mut tails = own_tails(alloc, &image.slots)?;
    let good = are_journals_good(alloc, image)?;
    if !good {
        return Ok(tails);
    }
    let notes = all_notes(alloc, &image.journals)?;
    put_notes(&mut tails, &notes);
    Ok(tails)
}

/// The tails of all logs.
fn own_tails(alloc: Global, slots: &[SlotImage]) -> Result<Vec<usize>, AllocError>
    ensures { IfOk result (λ tails. tails.items
        ≡ map (λ (slot : SlotImageValue). slot.chain.tail) slots.now) }
{
    let mut tails = Vec::new(alloc);
    for slot in slots {
        tails.push(own_tail(slot))?;
    }
    Ok(tails)
}

fn own_tail(slot: &SlotImage) -> usize
    ensures { result ≡ slot.now.chain.tail }
{
    slot.chain.tail
}

/// Puts the tails that are noted.
pub fn put_notes(tails: &mut Vec<usize>, notes: &[OldTail])
    requires { All (λ (note : OldTailValue). note.ino < length tails.old.items) notes.now }
    ensures { AreNoted notes.now tails.old.items tails.new.items }
{
    // Of two notes of one inode the first is put last.
    for place in (0..notes.len()).rev() {
        put_note(tails, notes[place]);
    }
}

fn put_note(tails: &mut Vec<usize>, note: OldTail)
    requires { note.ino < length tails.old.items }
    ensures { tails.new.items ≡ slice_set tails.old.items note.ino note.tail }
{
    let slot = note.ino.number() as usize;
    tails[slot] = note.tail as usize;
}

/// The first entries of a slot's log.
pub(crate) fn front(slot: &SlotImage, tail: usize) -> &[Entry]
    ensures { result.now ≡ take tail slot.now.chain.entries }
{
    first_of(&slot.chain.entries, tail)
}

fn first_of(entries: &[Entry], tail: usize) -> &[Entry]
    ensures { result.now ≡ take tail entries.now }
{
    &entries[..tail.min(entries.len())]
}

/// The logs of the cells that a mount makes of an image whose logs are cut there. Costs what [`is_over`] does for each slot.
pub(crate) fn mounted_logs<'a>(
    alloc: Global,
    image: &'a Image,
    tails: &[usize],
) -> Result<Vec<Logged<'a>>, Fault>
    requires tails { tails.now ≡ cut_tails image.now }
    requires fits { FitsGeometry image.now }
    requires ordered { AreEntriesGood image.now }
    ensures ok { IfOk result (λ logs. logs.items ≡ mounted_logs image.now) }
    ensures err { FailsOnly out_of_memory result }
{
    let mut logs = Vec::new(alloc);
    for ino in 0..tails.len() {
        logs.push(mounted_log(alloc, image, ino, tails[ino])?)?;
    }
    Ok(logs)
}

/// That of one slot.
fn mounted_log<'a>(
    alloc: Global,
    image: &'a Image,
    ino: usize,
    tail: usize,
) -> Result<Logged<'a>, Fault>
    requires slot { ino < length image.now.slots }
    requires fits { FitsGeometry image.now }
    requires ordered { AreEntriesGood image.now }
    ensures ok { IfOk result (λ log. log
        ≡ logged_of (cell_anew image.now.numbers image.now.snapshots tail (slot_of image.now ino))) }
    ensures err { FailsOnly out_of_memory result }
{
    let slot = image.slot(ino);
    log_left(alloc, &image.geometry, &image.snapshots, slot, tail)
}

/// What is left of a slot's log that is cut there: none where its inode is gone for good.
fn log_left<'a>(
    alloc: Global,
    geometry: &Geometry,
    snapshots: &[Epoch],
    slot: &'a SlotImage,
    tail: usize,
) -> Result<Logged<'a>, Fault>
    requires fits { slot.now.generation ≤ NUMBER }
    requires ordered { IsLog slot.now.chain.entries }
    ensures ok { IfOk result (λ log. log
        ≡ logged_of (cell_anew geometry.now.numbers snapshots.now tail slot.now)) }
    ensures err { FailsOnly out_of_memory result }
{
    let block = geometry.numbers.block;
    let log = front_logged(block, slot, tail);
    let over = is_over(alloc, snapshots, &log)?;
    if over {
        return Ok(erased_logged(block, slot));
    }
    Ok(log)
}

/// The first entries of a slot's log, as a log.
fn front_logged(block: u64, slot: &SlotImage, tail: usize) -> Logged<'_>
    requires block { 0 < block }
    requires ordered { IsLog slot.now.chain.entries }
    ensures { result ≡ front_logged block tail slot.now }
{
    Logged::new(block, slot.generation, front(slot, tail))
}

/// The empty log of a slot's next generation.
fn erased_logged(block: u64, slot: &SlotImage) -> Logged<'_>
    requires block { 0 < block }
    requires fits { slot.now.generation ≤ NUMBER }
    ensures { result ≡ erased_logged block slot.now }
{
    let next = Gen::new(slot.generation.number() + 1);
    Logged::new(block, next, &[])
}

/// Whether an inode is gone and none of these snapshots holds anything of it. Costs nothing but a look at the last entry
/// where it is not gone, and else one pass over the log from its end with a look-up for each part, for each part a scan
/// of the snapshots up to one that holds it, and memory for each part.
pub fn is_over(alloc: Global, snapshots: &[Epoch], logged: &Logged<'_>) -> Result<bool, Fault>
    // Whether an inode is gone for good is told: its last item is a Gone, and no snapshot holds a part.
    ensures ok { IfOk result (λ is. is
        ≡ is_over snapshots.now logged.now.block logged.now.log) }
    ensures err { FailsOnly out_of_memory result }
{
    if !ends_with_gone(logged.log()) {
        return Ok(false);
    }
    let deaths = deaths_in(alloc, logged)?;
    Ok(!hold_any(snapshots, logged, &deaths))
}

/// Whether one of these snapshots holds a part of a log, where its parts died then.
pub(crate) fn hold_any(snapshots: &[Epoch], logged: &Logged<'_>, deaths: &[Option<Epoch>]) -> bool
    requires { deaths.now ≡ deaths_in logged.now.block logged.now.log }
    ensures { result ≡ list_any (is_held snapshots.now) (pairs logged.now.block logged.now.log) }
{
    let mut left = deaths;
    for entry in logged.log() {
        let (own, rest) = left.split_at(entry.item.part_count() as usize);
        if hold_any_of(snapshots, entry.epoch, own) {
            return true;
        }
        left = rest;
    }
    false
}

/// The same of the parts with that birth and these deaths.
fn hold_any_of(snapshots: &[Epoch], birth: Epoch, deaths: &[Option<Epoch>]) -> bool
    ensures { result ≡ list_any (is_held_from snapshots.now birth) deaths.now }
{
    deaths
        .iter()
        .any(|death| is_held_from(snapshots, birth, *death))
}

/// Whether one of these snapshots holds what was born and died then, if it died.
pub(crate) fn is_held_from(snapshots: &[Epoch], birth: Epoch, death: Option<Epoch>) -> bool
    ensures { result ≡ is_held_from snapshots.now birth death }
{
    snapshots
        .iter()
        .any(|snapshot| lives_at(birth, death, *snapshot))
}

fn lives_at(birth: Epoch, death: Option<Epoch>, snapshot: Epoch) -> bool
    ensures { result ≡ (nat_le birth snapshot && is_before_death snapshot death) }
{
    match death {
        None => birth <= snapshot,
        Some(death) => birth <= snapshot && snapshot < death,
    }
}
