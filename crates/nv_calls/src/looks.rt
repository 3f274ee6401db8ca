//! A look at the names of a call in one directory, before anything is locked.

ghost use Rattle.std.specs.Prelude.{◌≡◌, ◌<◌, ℕ, Err, List, MatchResult, None, if◌then◌else◌, length};
ghost use Rattle.std.specs.Option.{option_map};
ghost use Rattle.nv_calls.specs.AllCalls.{look_refusal, looked};
ghost use Rattle.nv_calls.specs.Looks.{IsFirstLook, directories, handle_at, in_slot, look_tests, seen_at};
ghost use Rattle.nv_calls.specs.Nodes.{copies_by};
ghost use Rattle.nv_calls.specs.Plain.{same_handle};
ghost use Rattle.nv_calls.specs.Refusals.{found, look, passes};
ghost use Rattle.nv_calls.specs.Updates.{blank_call, call_of};
ghost use Rattle.nv_calls.specs.calls.Lookup.{lookup_refusal};

use crate::{LookupResult, Update, look_on};
use nv_base::{Fault, Handle, Ino};
use nv_cell::InodeCell;

/// In how many directories a call looks names up.
pub fn look_count(update: &Update) -> usize
    // In which directories a call looks names up is told, one look for each.
    ensures { (text : List ℕ) → result ≡ length (directories (call_of update.now text)) }
{
    match update {
        Update::Unlink { .. } | Update::Rmdir { .. } => 1,
        Update::Rename { from, to, .. } => if is_same(from, to) { 1 } else { 2 },
        _ => 0,
    }
}

/// The directory of a look.
pub fn directory(update: &Update, place: usize) -> Handle
    requires { place < length (directories (blank_call update.now)) }
    ensures { (text : List ℕ) → result ≡ handle_at (directories (call_of update.now text)) place }
{
    match update {
        Update::Unlink { dir, .. } | Update::Rmdir { dir, .. } => *dir,
        Update::Rename { from, to, .. } => if place == 0 { *from } else { *to },
        _ => unreachable!(),
    }
}

/// What the names of a look's directory lead to, by the cell of its slot, and what was found before. The first name may
/// be refused here. What is wrong with the second is told at the check. Where there is no such slot, the directory is
/// stale. Takes no memory.
pub fn look_at(
    ino: Ino,
    cell: Option<&InodeCell>,
    update: &Update,
    place: usize,
    before: &LookupResult,
) -> Result<LookupResult, Fault>
    requires { place < length (directories (blank_call update.now)) }
    // A look tells what the names of its directory lead to, by the cell of its slot.
    // The first name may be refused at its look, and no other.
    ensures { (bytes : ℕ → List ℕ) (text : List ℕ) → let c = call_of update.now text in
        let nodes = copies_by bytes (in_slot ino (option_map (λ cell. cell.now) cell.entry)) in
        MatchResult result
        (λ found. (look_tests place (look_refusal nodes c) ≡ passes)
        × (found ≡ seen_at (directories c) place (looked nodes c) before.now))
        (λ fault. look_tests place (look_refusal nodes c) ≡ Err fault) }
{
    match update {
        Update::Unlink { dir, name } | Update::Rmdir { dir, name } => {
            look_first(ino, cell, dir, name.as_slice(), None)
        }
        Update::Rename { from, old, to, new } => {
            if place > 0 {
                return Ok(LookupResult {
                    first: before.first,
                    second: found_by(ino, cell, to, new.as_slice()),
                });
            }
            let second = found_beside(ino, cell, from, to, new.as_slice());
            look_first(ino, cell, from, old.as_slice(), second)
        }
        _ => unreachable!(),
    }
}

/// What the first name of a call leads to, where it is bound, beside the second.
fn look_first(
    ino: Ino,
    cell: Option<&InodeCell>,
    dir: &Handle,
    name: &[u8],
    second: Option<Handle>,
) -> Result<LookupResult, Fault>
    ensures { (bytes : ℕ → List ℕ)
        → let nodes = copies_by bytes (in_slot ino (option_map (λ cell. cell.now) cell.entry)) in
        IsFirstLook (lookup_refusal nodes dir.now name.now) (found nodes dir.now name.now) second
        result }
{
    match look_up(ino, cell, dir, name) {
        Ok(Some(to)) => Ok(LookupResult {
            first: Some(to),
            second,
        }),
        Ok(None) => Err(Fault::Missing),
        Err(fault) => Err(fault),
    }
}

/// What the second name of a call leads to, where its directory is the first.
fn found_beside(
    ino: Ino,
    cell: Option<&InodeCell>,
    first: &Handle,
    dir: &Handle,
    name: &[u8],
) -> Option<Handle>
    ensures { (bytes : ℕ → List ℕ)
        → let nodes = copies_by bytes (in_slot ino (option_map (λ cell. cell.now) cell.entry)) in
        result ≡ if same_handle first.now dir.now then found nodes dir.now name.now else None }
{
    if is_same(first, dir) {
        found_by(ino, cell, dir, name)
    } else {
        None
    }
}

/// What a name leads to; nothing where there is no such name or the look is refused.
fn found_by(ino: Ino, cell: Option<&InodeCell>, dir: &Handle, name: &[u8]) -> Option<Handle>
    ensures { (bytes : ℕ → List ℕ) → result
        ≡ found (copies_by bytes (in_slot ino (option_map (λ cell. cell.now) cell.entry)))
        dir.now name.now }
{
    match look_up(ino, cell, dir, name) {
        Ok(to) => to,
        Err(_) => None,
    }
}

fn look_up(
    ino: Ino,
    cell: Option<&InodeCell>,
    dir: &Handle,
    name: &[u8],
) -> Result<Option<Handle>, Fault>
    ensures { (bytes : ℕ → List ℕ) → result
        ≡ look (copies_by bytes (in_slot ino (option_map (λ cell. cell.now) cell.entry)))
        dir.now name.now }
{
    match cell {
        Some(cell) => look_on(ino, cell, dir, name),
        None => Err(Fault::Stale),
    }
}

fn is_same(one: &Handle, other: &Handle) -> bool
    ensures { result ≡ same_handle one.now other.now }
{
    one.ino == other.ino && one.generation == other.generation
}
