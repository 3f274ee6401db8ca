//! The tree of directories, from what names lead to.

ghost use Rattle.std.specs.Prelude.{◌≡◌, ◌↔◌, ◌<◌, ◌++◌, ◌∷◌, [], IfOk, IsTrue, length};
ghost use Rattle.nv_base.specs.Refusals.{FailsOnly};
ghost use Rattle.nv_base.specs.Memory.{out_of_memory};
ghost use Rattle.nv_audit.specs.Lists.{AreMarked};
ghost use Rattle.nv_audit.specs.Tree.{AreAllMarked, AreInDirectory, AreNew, HasRoot, IsNew, IsOnce, IsTree, is_directory, is_node, leads, names_of, slot_at};

use nv_base::{Fault, Gen, Handle, Ino, Kind};
use nv_entry::{BoundName, NameList};
use std::alloc::{AllocError, Global};

/// The node of a slot in use: its generation, its kind, and the names that it has as a directory.
#[derive(Debug, Drop)]
pub struct NamedNode {
    pub generation: Gen,
    pub kind: Kind,
    pub names: NameList,
}

/// Whether the nodes of all slots form a tree of directories: the root is one, and every other node is reached from it
/// by exactly one name; no name leads to the root or to no node, or stands in a file. A slot that is not in use has no
/// node. Costs one pass over slots and names, and takes a mark and a place in a list for each slot.
pub fn form_a_tree(alloc: Global, slots: &[Option<NamedNode>]) -> Result<bool, Fault>
    // Nodes pass just where the root is a directory and names reach the others.
    // Nodes of which one has two names, or the root has one, are not passed.
    // A name that leads to no node, or that stands in a file, is not passed.
    ensures ok { IfOk result (λ form. IsTrue form ↔ IsTree slots.now) }
    // The only error is `OutOfMemory`.
    ensures err { FailsOnly out_of_memory result }
{
    if !has_root(slots) {
        return Ok(false);
    }
    let mut marks = root_marked(alloc, slots.len())?;
    let mut reached = Vec::new(alloc);
    reached.push(0)?;
    let mut next = 0;
    while next < reached.len() {
        let dir = reached[next];
        if !reaches(slots, dir, &mut reached, &mut marks)? {
            return Ok(false);
        }
        next += 1;
    }
    Ok(are_all_marked(slots, &marks))
}

/// Whether the root is a directory.
fn has_root(slots: &[Option<NamedNode>]) -> bool
    ensures { IsTrue result ↔ HasRoot slots.now }
{
    let root = Handle {
        ino: Ino::new(0),
        generation: Gen::new(1),
    };
    is_node(slots, root) && is_directory(slots, 0)
}

/// Marks of so many slots, of which the root's alone is set.
fn root_marked(alloc: Global, slots: usize) -> Result<Vec<bool>, AllocError>
    requires { 0 < slots }
    ensures { IfOk result (λ marks. AreMarked slots (0 ∷ []) marks.items) }
{
    let mut marks = vec![in alloc; false; slots]?;
    marks[0] = true;
    Ok(marks)
}

/// Whether each name of a slot's node stands in a directory and leads to a node that is not yet among the reached,
/// which are marked. Where they do, these slots are put to the end and marked.
fn reaches(
    slots: &[Option<NamedNode>],
    dir: usize,
    reached: &mut Vec<usize>,
    marks: &mut Vec<bool>,
) -> Result<bool, AllocError>
    requires marked { AreMarked (length slots.now) reached.old.items marks.old.items }
    requires once { IsOnce reached.old.items }
    ensures exact { IfOk result (λ all. IsTrue all ↔ AreNew slots.now dir reached.old.items) }
    ensures put { IfOk result (λ all. IsTrue all
        → reached.new.items ≡ reached.old.items ++ leads slots.now dir) }
    ensures marked { IfOk result (λ all. IsTrue all
        → AreMarked (length slots.now) reached.new.items marks.new.items) }
{
    if !are_in_directory(slots, dir) {
        return Ok(false);
    }
    let names = names_at(slots, dir);
    for bound in names {
        if !is_new(slots, bound.to, marks) {
            return Ok(false);
        }
        let slot = bound.to.ino.number() as usize;
        marks[slot] = true;
        reached.push(slot)?;
    }
    Ok(true)
}

/// Whether a name that leads there leads to a node that is not yet marked.
fn is_new(slots: &[Option<NamedNode>], to: Handle, marks: &[bool]) -> bool
    requires { length marks.now ≡ length slots.now }
    ensures { IsTrue result ↔ IsNew slots.now marks.now to }
{
    let slot = to.ino.number() as usize;
    is_node(slots, to) && !marks[slot]
}

/// Whether there is a node under a handle.
fn is_node(slots: &[Option<NamedNode>], handle: Handle) -> bool
    ensures { result ≡ is_node slots.now handle }
{
    match slots.get(handle.ino.number() as usize) {
        Some(Some(node)) => node.generation == handle.generation,
        _ => false,
    }
}

/// Whether the node of a slot is a directory.
fn is_directory(slots: &[Option<NamedNode>], slot: usize) -> bool
    ensures { result ≡ is_directory (slot_at slots.now slot) }
{
    match slots.get(slot) {
        Some(Some(node)) => node.kind == Kind::Dir,
        _ => false,
    }
}

/// Whether a slot's node has no names, or is a directory.
fn are_in_directory(slots: &[Option<NamedNode>], slot: usize) -> bool
    ensures { IsTrue result ↔ AreInDirectory slots.now slot }
{
    is_directory(slots, slot) || names_at(slots, slot).is_empty()
}

/// The names of a slot's node.
fn names_at(slots: &[Option<NamedNode>], slot: usize) -> &[BoundName]
    ensures { result.now ≡ names_of (slot_at slots.now slot) }
{
    match slots.get(slot) {
        Some(Some(node)) => node.names.as_slice(),
        _ => &[],
    }
}

/// Whether each slot that has a node is marked.
fn are_all_marked(slots: &[Option<NamedNode>], marks: &[bool]) -> bool
    requires { length marks.now ≡ length slots.now }
    ensures { IsTrue result ↔ AreAllMarked slots.now marks.now }
{
    for slot in 0..slots.len() {
        if slots[slot].is_some() && !marks[slot] {
            return false;
        }
    }
    true
}
