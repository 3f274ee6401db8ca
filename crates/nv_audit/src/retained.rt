//! Which parts and which entries of a log are needed or pending.

ghost use Rattle.std.specs.List.{list_any};
ghost use Rattle.std.specs.Prelude.{◌≡◌, ◌++◌, ◌&&◌, ℕ, Bool, IfOk, OnOk, length, map, nat_le, nat_lt};
ghost use Rattle.nv_base.specs.Refusals.{FailsOnly};
ghost use Rattle.nv_base.specs.Memory.{out_of_memory};
ghost use Rattle.nv_cell.specs.Cell.{log_of};
ghost use Rattle.nv_entry.specs.Covered.{part_total};
ghost use Rattle.nv_entry.specs.Held.{retention_of};
ghost use Rattle.nv_audit.specs.Deaths.{deaths_in};
ghost use Rattle.nv_audit.specs.KeptParts.{ArePartsOf};
ghost use Rattle.nv_audit.specs.Retained.{is_needed_from, marked_entries, needed_by, retained_in, with_named};

use crate::deaths::deaths_in;
use crate::kept_parts::{KeptParts, kept_parts, number_of};
use crate::logged::Logged;
use nv_base::{Epoch, Fault};
use nv_cell::InodeCell;
use nv_entry::{Entry, PartId, Retention};
use std::alloc::{AllocError, Global};

/// Which parts of a cell's log are needed or pending, by number. Costs one pass over the log from its end with a look-up
/// for each part and for each entry, for each part that is no longer current a scan of the snapshots up to one that
/// holds it, for each pending part a look-up of its entry, and memory for each part of the log.
pub(crate) fn retained_parts(
    alloc: Global,
    retention: &Retention<'_>,
    cell: &InodeCell,
) -> Result<Vec<bool>, Fault>
    ensures ok { IfOk result (λ parts. parts.items
        ≡ retained_in (retention_of retention.now) cell.now.state) }
    ensures err { FailsOnly out_of_memory result }
{
    // The log is one, so that each part has a name of its own.
    cell.holds_together();
    let logged = Logged::of(cell);
    let deaths = deaths_in(alloc, &logged)?;
    let mut parts = needed_parts(alloc, retention.snapshots, &logged, &deaths)?;
    if retention.pending.is_empty() {
        return Ok(parts);
    }
    let numbers = kept_parts(alloc, cell)?;
    mark_named(&mut parts, cell, &numbers, retention.pending);
    Ok(parts)
}

/// Which parts of a log are current, or held by one of these snapshots, where its parts died then.
pub(crate) fn needed_parts(
    alloc: Global,
    snapshots: &[Epoch],
    logged: &Logged<'_>,
    deaths: &[Option<Epoch>],
) -> Result<Vec<bool>, AllocError>
    requires { deaths.now ≡ deaths_in logged.now.block logged.now.log }
    ensures { IfOk result (λ parts. parts.items
        ≡ needed_by snapshots.now logged.now.block logged.now.log) }
{
    let mut parts = Vec::with_capacity(alloc, deaths.len())?;
    let mut rest = deaths;
    for entry in logged.log() {
        let (own, later) = rest.split_at(entry.item.part_count() as usize);
        push_needed(&mut parts, snapshots, entry.epoch, own)?;
        rest = later;
    }
    Ok(parts)
}

/// Puts to the end of a list which of the parts with that birth and these deaths are needed.
fn push_needed(
    parts: &mut Vec<bool>,
    snapshots: &[Epoch],
    birth: Epoch,
    deaths: &[Option<Epoch>],
) -> Result<(), AllocError>
    ensures { OnOk result (parts.new.items
        ≡ parts.old.items ++ map (is_needed_from snapshots.now birth) deaths.now) }
{
    for death in deaths {
        parts.push(is_needed_from(snapshots, birth, *death))?;
    }
    Ok(())
}

/// Whether a part is current, or held by one of these snapshots.
fn is_needed_from(snapshots: &[Epoch], birth: Epoch, death: Option<Epoch>) -> bool
    ensures { result ≡ is_needed_from snapshots.now birth death }
{
    match death {
        None => true,
        Some(death) => has_between(snapshots, birth, death),
    }
}

/// Whether one of these snapshots is from the birth on, and before the death.
fn has_between(snapshots: &[Epoch], birth: Epoch, death: Epoch) -> bool
    ensures { result ≡ list_any (λ (s : ℕ). nat_le birth s && nat_lt s death) snapshots.now }
{
    snapshots
        .iter()
        .any(|snapshot| is_between(birth, *snapshot, death))
}

fn is_between(birth: Epoch, snapshot: Epoch, death: Epoch) -> bool
    ensures { result ≡ (nat_le birth snapshot && nat_lt snapshot death) }
{
    birth <= snapshot && snapshot < death
}

/// Marks the parts of these names too.
fn mark_named(parts: &mut Vec<bool>, cell: &InodeCell, numbers: &KeptParts, names: &[PartId])
    requires numbers { ArePartsOf cell.now.state numbers.now }
    requires parts { length parts.old.items ≡ length cell.now.state.marks }
    ensures { parts.new.items ≡ with_named (log_of cell.now.state) names.now parts.old.items }
{
    for id in names {
        if let Some(number) = number_of(cell, numbers, *id) {
            parts[number] = true;
        }
    }
}

/// For each entry of a log whether one of its parts is marked.
pub(crate) fn marked_entries(
    alloc: Global,
    log: &[Entry],
    parts: &[bool],
) -> Result<Vec<bool>, AllocError>
    requires { length parts.now ≡ part_total log.now }
    ensures { IfOk result (λ entries. entries.items ≡ marked_entries log.now parts.now) }
{
    let mut entries = Vec::new(alloc);
    let mut rest = parts;
    for entry in log {
        let (own, later) = rest.split_at(entry.item.part_count() as usize);
        entries.push(has_marked(own))?;
        rest = later;
    }
    Ok(entries)
}

fn has_marked(parts: &[bool]) -> bool
    ensures { result ≡ list_any (λ (marked : Bool). marked) parts.now }
{
    parts.iter().any(|marked| *marked)
}
