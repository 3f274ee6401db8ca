//! A node of a snapshot, and what stands below it.

ghost use Rattle.std.specs.Prelude.{◌≡◌, Ok, option_copied};
ghost use Rattle.nv_mount_beside.specs.Memory.{IsOrNoMemory};
ghost use Rattle.nv_mounted.specs.Snapshots.{attributes_in, child_named, children, contents_in, is_hidden_at, is_of_snapshots, name_below};
ghost use Rattle.nv_mounted.specs.Snapshots.{named_children, node_at, number_in, plain, plain_result};

use crate::directories::listed_kind;
use crate::kept_tree::KeptTree;
use crate::listing::{Listing, Named};
use nv_base::Bytes;
use nv_entry::TreeNode;
use nv_fuse::{Attributes, Errno};
use nv_mount_answers::{Kept, Shape};
use nv_mount_beside::{FIRST, HIDDEN, Refusal, attributes, shape_in_snapshot};
use std::alloc::Global;

/// The number of the directory of snapshots, which no node has.
pub(crate) const SNAPSHOTS_NODE: u64 = 2;

/// How many nodes of one snapshot have a number, and how many snapshots.
pub(crate) const NODES: u64 = 4_294_967_296;

const SNAPSHOTS: u64 = 2_147_483_648;

/// Whether a number is of the directory of snapshots, or of a node of one.
pub(crate) fn is_of_snapshots(node: u64) -> bool
    // It is the number that no node has, or one of the upper half.
    ensures { result ≡ is_of_snapshots node }
{
    node == SNAPSHOTS_NODE || node >= FIRST
}

/// The number of a node of a snapshot.
pub(crate) fn number_in(snapshot: u64, at: usize) -> Result<u64, Refusal>
    // Each snapshot has its own numbers, one for each place in its tree.
    ensures { result ≡ number_in snapshot at }
{
    let at = at as u64;
    if snapshot >= SNAPSHOTS || at >= NODES {
        return Err(Refusal::Errno(Errno::InputOutput));
    }
    Ok(FIRST + snapshot * NODES + at)
}

/// A node of a snapshot.
#[derive(Clone, Copy, Debug)]
pub struct Found<'a> {
    /// The place of the snapshot among all.
    pub snapshot: u64,
    /// The node.
    pub node: &'a TreeNode,
    /// Its owner and times.
    pub kept: Kept,
    /// The place behind it in the tree.
    pub first: usize,
    /// The tree.
    pub tree: &'a [TreeNode],
}

/// The node at a place of a tree.
pub(crate) fn found_at(snapshot: u64, at: usize, all: &KeptTree) -> Result<Found<'_>, Refusal>
    // A place behind the tree's end has none.
    ensures { plain_result result ≡ node_at snapshot at all.now }
{
    let (tree, kept) = (all.tree.as_slice(), all.kept.as_slice());
    if at >= tree.len() || at >= kept.len() {
        return Err(Refusal::Errno(Errno::Stale));
    }
    Ok(Found {
        snapshot,
        node: &tree[at],
        kept: kept[at],
        first: at + 1,
        tree,
    })
}

/// Whether a name right below a directory at some depth is that of the hidden directory.
fn is_hidden_at(depth: usize, name: &[u8]) -> bool
    ensures { result ≡ is_hidden_at depth name.now }
{
    depth == 0 && name == HIDDEN
}

/// The name of a node right below a directory at some depth, where it is shown.
fn name_below(depth: usize, node: &TreeNode) -> Option<&[u8]>
    // The hidden directory of the root is not shown.
    ensures { option_copied result ≡ name_below depth node.now }
{
    let path = node.path.as_slice();
    if path.len() <= depth || path.len() - depth != 1 {
        return None;
    }
    let name = path[depth].bytes();
    if is_hidden_at(depth, name) {
        return None;
    }
    Some(name)
}

impl Found<'_> {
    /// The number of the node below it with a name.
    pub(crate) fn child(&self, name: &[u8]) -> Result<u64, Refusal>
        // A directory's nodes stand right behind it.
        ensures { result ≡ child_named (plain self.now) name.now }
    {
        let depth = self.node.path.len();
        for at in self.first..self.tree.len() {
            let node = &self.tree[at];
            if node.path.len() <= depth {
                return Err(Refusal::Errno(Errno::Missing));
            }
            if let Some(shown) = name_below(depth, node) {
                if shown == name {
                    return number_in(self.snapshot, at);
                }
            }
        }
        Err(Refusal::Errno(Errno::Missing))
    }

    /// The names below it.
    pub(crate) fn names(&self, alloc: Global) -> Result<Listing, Refusal>
        // They are told in order, with their numbers and kinds.
        ensures { IsOrNoMemory result
            (named_children self.now.snapshot (children (plain self.now))) }
    {
        let depth = self.node.path.len();
        let mut names = Vec::new(alloc);
        for at in self.first..self.tree.len() {
            let node = &self.tree[at];
            if node.path.len() <= depth {
                return Ok(Listing::from_vec(names));
            }
            if let Some(name) = name_below(depth, node) {
                names.push(Named {
                    node: number_in(self.snapshot, at)?,
                    kind: listed_kind(node.node.kind),
                    name: Bytes::from_vec(name.to_vec(alloc)?),
                })?;
            }
        }
        Ok(Listing::from_vec(names))
    }

    /// Bytes of it from an offset on.
    pub(crate) fn bytes(&self, alloc: Global, offset: u64, size: u32) -> Result<Bytes, Refusal>
        // As many as there are, and at most so many.
        ensures { IsOrNoMemory result (Ok (contents_in (plain self.now) offset size)) }
    {
        let bytes = self.node.node.bytes.as_slice();
        let start = offset.min(bytes.len() as u64) as usize;
        let rest = &bytes[start..];
        let count = (size as usize).min(rest.len());
        Ok(Bytes::from_vec(rest[..count].to_vec(alloc)?))
    }

    /// Its attributes.
    pub(crate) fn attributes(&self, number: u64) -> Result<Attributes, Refusal>
        // They are those that it had when the snapshot was made, without set-user-id and set-group-id.
        ensures { result ≡ attributes_in number (plain self.now) }
    {
        let node = &self.node.node;
        let shape = Shape {
            kind: node.kind,
            mode: node.mode,
            size: node.size,
        };
        attributes(number, shape_in_snapshot(shape), self.kept, false)
    }
}
