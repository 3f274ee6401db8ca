//! What is kept of the nodes of a snapshot: owners and times, as they stand when it is made.

ghost use Rattle.std.specs.Prelude.{◌≡◌};
ghost use Rattle.nv_mount_answers.specs.Nodes.{root};
ghost use Rattle.nv_mounted.specs.Dialogues.{IsHad, ask_each};
ghost use Rattle.nv_mounted.specs.KeptTrees.{ask_kept, ask_kept_tree, ask_path, ask_tree};

use crate::asks::{ask_handle, copy_of, lookup};
use crate::mount::root;
use crate::world::Core;
use nv_base::{Epoch, Handle, Items, Name};
use nv_calls::{Answer, Call, SnapshotOrCleanerCall};
use nv_entry::{Tree, TreeNode};
use nv_fuse::Errno;
use nv_mount_answers::Kept;
use nv_mount_beside::{Nodes, Refusal};
use std::alloc::Global;

/// A tree, and what was kept of each of its nodes, in the same order.
#[derive(Debug, Drop)]
pub struct KeptTree {
    pub tree: Tree,
    pub kept: Items<Kept>,
}

/// The tree of a snapshot, and what is kept of its nodes.
pub(crate) fn ask_kept_tree<C: Core>(
    core: &mut C,
    alloc: Global,
    nodes: &Nodes,
    epoch: Epoch,
) -> Result<KeptTree, Refusal>
    // One call tells the tree, and look-ups the nodes of its paths.
    ensures { IsHad C.Tells (ask_kept_tree nodes.now epoch) core.old result core.new }
{
    let tree = ask_tree(core, epoch)?;
    let kept = ask_all_kept(core, alloc, nodes, tree.as_slice())?;
    Ok(KeptTree { tree, kept })
}

/// The tree of a snapshot.
fn ask_tree<C: Core>(core: &mut C, epoch: Epoch) -> Result<Tree, Refusal>
    // One call tells it.
    ensures { IsHad C.Tells (ask_tree epoch) core.old result core.new }
{
    match core.call(Call::SnapshotOrCleaner(SnapshotOrCleanerCall::Show(epoch)))? {
        Answer::Tree(tree) => Ok(tree),
        _ => Err(Refusal::Errno(Errno::InputOutput)),
    }
}

/// What is kept of the nodes of a tree.
fn ask_all_kept<C: Core>(
    core: &mut C,
    alloc: Global,
    nodes: &Nodes,
    tree: &[TreeNode],
) -> Result<Items<Kept>, Refusal>
    // Each is asked for, in order.
    ensures { IsHad C.Tells (ask_each (ask_kept nodes.now) tree.now) core.old result core.new }
{
    let mut all = Vec::new(alloc);
    for node in tree {
        all.reserve(1)?;
        let kept = ask_kept(core, alloc, nodes, node)?;
        all.push(kept)?;
    }
    Ok(Items::from_vec(all))
}

/// What is kept of a node.
fn ask_kept<C: Core>(
    core: &mut C,
    alloc: Global,
    nodes: &Nodes,
    node: &TreeNode,
) -> Result<Kept, Refusal>
    // It is what stands beside the world of the node to which its path leads.
    ensures { IsHad C.Tells (ask_kept nodes.now node.now) core.old result core.new }
{
    let handle = ask_path(core, alloc, node.path.as_slice())?;
    Ok(nodes.at(&handle).kept)
}

/// The node to which a path leads.
fn ask_path<C: Core>(core: &mut C, alloc: Global, path: &[Name]) -> Result<Handle, Refusal>
    // Each of its names is looked up, from the root on.
    ensures { IsHad C.Tells (ask_path root path.now) core.old result core.new }
{
    let mut handle = root();
    for name in path {
        let looked = copy_of(alloc, name.bytes())?;
        handle = ask_handle(core, lookup(&handle, looked))?;
    }
    Ok(handle)
}
