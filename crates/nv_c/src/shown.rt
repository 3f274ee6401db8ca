//! The tree of a snapshot, or the one of now, is shown, and its nodes are told one by one.

ghost use Rattle.std.specs.Prelude.{◌≡◌, ◌<◌, ◌++◌, ◌∷◌, IfOk, None, OnOk};
ghost use Rattle.nv_base.specs.Memory.{out_of_memory};
ghost use Rattle.nv_base.specs.Refusals.{FailsOnly};
ghost use Rattle.nv_c.specs.Bytes.{TellsBytes, TellsNode, TellsPath, path_text};
ghost use Rattle.nv_c.specs.Worlds.{OnWorld, ShowsNow, ShowsSnapshot};

use crate::bytes::{put_bytes, put_bytes_from};
use crate::held::Held;
use crate::numbers::NovaNode;
use crate::slot::Nova;
use crate::status::{DONE, NO_PLACE, NO_WORLD, number_of};
use nv_base::{Epoch, Fault, Name};
use std::alloc::{AllocError, Global};

impl Held {
    fn show(&mut self, snapshot: u64, count: &mut usize) -> u32
        ensures told { ShowsSnapshot snapshot result count.new self.old self.new }
        ensures kept { 0 < result → count.new ≡ count.old }
    {
        match self.files.show(Epoch::new(snapshot)) {
            Ok(tree) => {
                *count = tree.len();
                self.shown = tree;
                DONE
            }
            Err(fault) => number_of(&fault),
        }
    }

    fn tree(&mut self, count: &mut usize) -> u32
        ensures told { ShowsNow result count.new self.old self.new }
        ensures kept { 0 < result → count.new ≡ count.old }
    {
        match self.files.world().tree() {
            Ok(tree) => {
                *count = tree.len();
                self.shown = tree;
                DONE
            }
            Err(fault) => number_of(&fault),
        }
    }

    fn tell_path(&self, place: usize, into: &mut [u8], len: &mut usize) -> u32
        ensures { TellsPath self.now.shown place result into.old into.new len.old len.new }
    {
        match self.shown.as_slice().get(place) {
            Some(there) => match text_of(self.alloc, there.path.as_slice()) {
                Ok(text) => put_bytes(text.as_slice(), into, len),
                Err(fault) => number_of(&fault),
            },
            None => NO_PLACE,
        }
    }

    fn tell_shown(&self, place: usize, out: &mut NovaNode) -> u32
        ensures { TellsNode self.now.shown place result out.old out.new }
    {
        match self.shown.as_slice().get(place) {
            Some(there) => {
                *out = NovaNode::of_copy(&there.node);
                DONE
            }
            None => NO_PLACE,
        }
    }

    fn tell_bytes(&self, place: usize, offset: u64, into: &mut [u8], count: &mut usize) -> u32
        ensures { TellsBytes self.now.shown place offset result
            into.old into.new count.old count.new }
    {
        match self.shown.as_slice().get(place) {
            Some(there) => {
                *count = put_bytes_from(there.node.bytes.as_slice(), offset, into);
                DONE
            }
            None => NO_PLACE,
        }
    }
}

/// The text of a path.
fn text_of(alloc: Global, names: &[Name]) -> Result<Vec<u8>, Fault>
    ensures ok { IfOk result (λ text. text.items ≡ path_text names.now) }
    ensures err { FailsOnly out_of_memory result }
{
    let mut text = Vec::new(alloc);
    if names.is_empty() {
        text.push(b'/')?;
        return Ok(text);
    }
    for name in names {
        push_name(&mut text, name.bytes())?;
    }
    Ok(text)
}

/// Adds a name behind a `/`.
fn push_name(text: &mut Vec<u8>, name: &[u8]) -> Result<(), AllocError>
    ensures { OnOk result (text.new.items ≡ text.old.items ++ 47 ∷ name.now) }
{
    text.push(b'/')?;
    text.extend_from_slice(name)
}

/// Reads the tree as it was when a snapshot was made, and tells how many nodes it has. They stay until the next tree is shown.
#[unsafe(no_mangle)]
pub extern "C" fn nova_show(alloc: Global, nova: &mut Nova, snapshot: u64, count: &mut usize) -> u32
    // The status tells what the world with numbers tells of a `show`, and how many nodes the tree has.
    ensures told { OnWorld nova.old.world.held nova.new.world.held result
        (ShowsSnapshot snapshot result count.new) }
    // A call that is refused leaves the count as it was.
    ensures kept { 0 < result → count.new ≡ count.old }
{
    let Some(mut held) = nova.take(alloc) else {
        return NO_WORLD;
    };
    let status = held.show(snapshot, count);
    nova.fill(held);
    status
}

/// Reads the tree as it is now, and tells how many nodes it has. They stay until the next tree is shown.
#[unsafe(no_mangle)]
pub extern "C" fn nova_tree(alloc: Global, nova: &mut Nova, count: &mut usize) -> u32
    // The tree is that of the settled logs, and memory alone is refused.
    ensures told { OnWorld nova.old.world.held nova.new.world.held result
        (ShowsNow result count.new) }
    // A call that is refused leaves the count as it was.
    ensures kept { 0 < result → count.new ≡ count.old }
{
    let Some(mut held) = nova.take(alloc) else {
        return NO_WORLD;
    };
    let status = held.tree(count);
    nova.fill(held);
    status
}

/// Tells the path of a node of the tree that was shown last, by its place from 0, and its length: the names from the root on,
/// each behind a `/`, and `/` for the root.
#[unsafe(no_mangle)]
pub extern "C" fn nova_shown_path(
    alloc: Global,
    nova: &mut Nova,
    place: usize,
    into: &mut [u8],
    len: &mut usize,
) -> u32
    // The path stands in front, or the buffer is too short, or the tree has fewer nodes, or memory is refused.
    ensures told { OnWorld nova.old.world.held nova.new.world.held result (λ old new. (new ≡ old)
        × TellsPath old.shown place result into.old into.new len.old len.new) }
    // Where there is no world, the places stay.
    ensures none { nova.old.world.held ≡ None → (into.new ≡ into.old) × (len.new ≡ len.old) }
{
    let Some(held) = nova.take(alloc) else {
        return NO_WORLD;
    };
    let status = held.tell_path(place, into, len);
    nova.fill(held);
    status
}

/// Tells a node of the tree that was shown last, by its place from 0. Takes no memory.
#[unsafe(no_mangle)]
pub extern "C" fn nova_shown_node(
    alloc: Global,
    nova: &mut Nova,
    place: usize,
    out: &mut NovaNode,
) -> u32
    // The node is told, or the tree has fewer.
    ensures told { OnWorld nova.old.world.held nova.new.world.held result (λ old new. (new ≡ old)
        × TellsNode old.shown place result out.old out.new) }
    // Where there is no world, the places stay.
    ensures none { nova.old.world.held ≡ None → out.new ≡ out.old }
{
    let Some(held) = nova.take(alloc) else {
        return NO_WORLD;
    };
    let status = held.tell_shown(place, out);
    nova.fill(held);
    status
}

/// Tells bytes of a node of the tree that was shown last, from an offset on: as many as there are, up to the length of `into`.
/// It tells how many they are. The rest of `into` stays. Takes no memory.
#[unsafe(no_mangle)]
pub extern "C" fn nova_shown_bytes(
    alloc: Global,
    nova: &mut Nova,
    place: usize,
    offset: u64,
    into: &mut [u8],
    count: &mut usize,
) -> u32
    // The bytes stand in front, or the tree has fewer nodes.
    ensures told { OnWorld nova.old.world.held nova.new.world.held result (λ old new. (new ≡ old)
        × TellsBytes old.shown place offset result into.old into.new count.old count.new) }
    // Where there is no world, the places stay.
    ensures none { nova.old.world.held ≡ None → (into.new ≡ into.old) × (count.new ≡ count.old) }
{
    let Some(held) = nova.take(alloc) else {
        return NO_WORLD;
    };
    let status = held.tell_bytes(place, offset, into, count);
    nova.fill(held);
    status
}
