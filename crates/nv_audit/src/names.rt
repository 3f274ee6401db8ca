//! The names of an inode.

ghost use Rattle.std.specs.Prelude.{◌≡◌, ◌↔◌, ◌<◌, ℕ, IfOk, IsTrue, List, None, OnOk, Some, if◌then◌else◌, length, slice_index_or};
ghost use Rattle.nv_base.specs.Memory.{out_of_memory};
ghost use Rattle.nv_base.specs.Names.{same_name};
ghost use Rattle.nv_base.specs.Refusals.{FailsOnly};
ghost use Rattle.nv_cell.specs.Index.{bindings_of};
ghost use Rattle.nv_nindex.specs.NameIndex.{HaveSameBindings};
ghost use Rattle.nv_audit.specs.Names.{AreIndexNames, AreLogNames, IsItemName, IsNameOf, TellsNames, bound_after, name_in};

use nv_base::Fault;
use nv_entry::{Entry, Item};
use nv_nindex::{Binding, NameIndex};
use std::alloc::{AllocError, Global};
use std::collections::HashMap;

/// Whether an index of names binds each name as the log does, to the same and by the same entry. `OutOfMemory` where
/// memory for the names of the log was refused.
///
/// Costs two passes over the log and one over the names of the index, with a look-up for each name.
pub fn are_names_of(alloc: Global, log: &[Entry], index: &NameIndex) -> Result<bool, Fault>
    // A name index passes just where it binds as the log does, by the same entry.
    // An unbound name is bound no more.
    // A gone directory binds no name.
    ensures ok { IfOk result (λ are. IsTrue are
        ↔ HaveSameBindings (bindings_of log.now) index.now.names) }
    // The only error is `OutOfMemory`.
    ensures err { FailsOnly out_of_memory result }
{
    let bound = bound_by(alloc, log)?;
    Ok(are_names_by(&bound, log, index))
}

/// Whether an index of names binds each name as the log does, by a table that tells what the log binds each name
/// to.
fn are_names_by(bound: &HashMap<&[u8], Binding>, log: &[Entry], index: &NameIndex) -> bool
    requires { TellsNames log.now bound.now.entries }
    ensures { IsTrue result ↔ HaveSameBindings (bindings_of log.now) index.now.names }
{
    are_log_names(log, bound, index) && are_index_names(bound, index)
}

/// What a log binds each name to, and by which entry: a table of the names that it leaves bound.
fn bound_by<'a>(alloc: Global, log: &'a [Entry]) -> Result<HashMap<&'a [u8], Binding>, AllocError>
    ensures { IfOk result (λ bound. TellsNames log.now bound.entries) }
{
    let mut bound = HashMap::new(alloc);
    for entry in log {
        put_entry(&mut bound, entry)?;
    }
    Ok(bound)
}

/// Puts what one more entry binds, and takes out what it unbinds.
fn put_entry<'a>(bound: &mut HashMap<&'a [u8], Binding>, entry: &'a Entry) -> Result<(), AllocError>
    ensures { OnOk result ((name : List ℕ) → name_in bound.new.entries name
        ≡ bound_after entry.now.id entry.now.item name (name_in bound.old.entries name)) }
{
    match &entry.item {
        Item::Bind { name, to } => {
            let binding = Binding {
                to: *to,
                entry: entry.id,
            };
            bind(bound, name.bytes(), binding)
        }
        Item::Unbind { name } => {
            unbind(bound, name.bytes());
            Ok(())
        }
        Item::Gone => {
            bound.clear();
            Ok(())
        }
        Item::Init { .. } | Item::Write { .. } | Item::SetSize { .. } | Item::SetMode { .. } => {
            Ok(())
        }
    }
}

/// Puts what a name is bound to.
fn bind<'a>(
    bound: &mut HashMap<&'a [u8], Binding>,
    name: &'a [u8],
    binding: Binding,
) -> Result<(), AllocError>
    ensures { OnOk result ((other : List ℕ) → name_in bound.new.entries other
        ≡ (if same_name name.now other then Some binding else name_in bound.old.entries other)) }
{
    // The borrow checker has no rule for handing on what `insert` is refused with, which with this room it never is.
    bound.try_reserve(1)?;
    let _ = bound.insert(name, binding);
    Ok(())
}

/// Takes a name out.
fn unbind(bound: &mut HashMap<&[u8], Binding>, name: &[u8])
    ensures { (other : List ℕ) → name_in bound.new.entries other
        ≡ (if same_name name.now other then None else name_in bound.old.entries other) }
{
    bound.remove(name);
}

/// Whether an index binds each name that one of these entries binds as the table tells.
fn are_log_names(entries: &[Entry], bound: &HashMap<&[u8], Binding>, index: &NameIndex) -> bool
    ensures { IsTrue result ↔ AreLogNames bound.now.entries index.now.names entries.now }
{
    for entry in entries {
        if !is_item_name(&entry.item, bound, index) {
            return false;
        }
    }
    true
}

/// Whether it does so for the name that the item binds, if it is such an item.
fn is_item_name(item: &Item, bound: &HashMap<&[u8], Binding>, index: &NameIndex) -> bool
    ensures { IsTrue result ↔ IsItemName bound.now.entries index.now.names item.now }
{
    match item {
        Item::Bind { name, .. } => is_name_of(bound, index, name.bytes()),
        _ => true,
    }
}

/// Whether it does so for each name that it has.
fn are_index_names(bound: &HashMap<&[u8], Binding>, index: &NameIndex) -> bool
    ensures { IsTrue result ↔ AreIndexNames bound.now.entries index.now.names index.now.names }
{
    for place in 0..index.len() {
        if !is_name_at(bound, index, place) {
            return false;
        }
    }
    true
}

/// Whether it does so for the name at a place.
fn is_name_at(bound: &HashMap<&[u8], Binding>, index: &NameIndex, place: usize) -> bool
    requires { place < length index.now.names }
    ensures { (default : List ℕ × Binding) → IsTrue result
        ↔ IsNameOf bound.now.entries index.now.names
        (slice_index_or index.now.names place default).0 }
{
    match index.at(place) {
        Some((name, _)) => is_name_of(bound, index, name),
        None => true,
    }
}

/// Whether an index binds one name as a table says that the log does.
fn is_name_of(bound: &HashMap<&[u8], Binding>, index: &NameIndex, name: &[u8]) -> bool
    ensures { IsTrue result ↔ IsNameOf bound.now.entries index.now.names name.now }
{
    is_same(index.get(name), bound.get(name).copied())
}

fn is_same(one: Option<Binding>, other: Option<Binding>) -> bool
    ensures { IsTrue result ↔ (one ≡ other) }
{
    match (one, other) {
        (None, None) => true,
        (Some(one), Some(other)) => is_one_binding(one, other),
        _ => false,
    }
}

fn is_one_binding(one: Binding, other: Binding) -> bool
    ensures { IsTrue result ↔ (one ≡ other) }
{
    one.to.ino == other.to.ino
        && one.to.generation == other.to.generation
        && one.entry.commit == other.entry.commit
        && one.entry.place == other.entry.place
}
