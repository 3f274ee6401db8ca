//! The tree of a world, handed to a sink node by node while it is walked.

ghost use Rattle.std.specs.Prelude.{◌≡◌, ◌⊎◌, ◌-◌, ◌<◌, ◌^◌, Err, IsSome, List, MatchOption, OnOk};
ghost use Rattle.std.specs.Option.{option_to_list};
ghost use Rattle.nv_base.specs.declared.fault.Fault.TheVariants.{NoSnapshot};
ghost use Rattle.nv_entry.specs.declared.tree.TreeNode.{TreeNode};
ghost use Rattle.nv_epoch.specs.SnapList.{pins_of};
ghost use Rattle.nv_machine.specs.World as machine;
ghost use Rattle.nv_reader.specs.Walk.{given_for, next_handle, visits_after};
ghost use Rattle.nv_core.specs.Settled.{AreSettled, AreSettledAt, snapshot_tree, tree_at, tree_in, tree_of};
ghost use Rattle.nv_core.specs.Shown.{shared_of};
ghost use Rattle.nv_core.specs.Sinks.{Hands};
ghost use Rattle.nv_core.specs.Steps.{CanShow};
ghost use Rattle.nv_core.specs.Worlds.{Shows};

use crate::World;
use crate::shared::Shared;
use crate::sink::Sink;
use nv_base::{Epoch, Fault};
use nv_entry::NodeCopy;
use nv_reader::{Walk, root};
use std::alloc::Global;

impl World {
    /// Hands the nodes of [`tree`](World::tree) to a sink, one by one while they are walked: it holds the names that are
    /// still to be followed in each directory on the way, and one node.
    ///
    /// `OutOfMemory` where room was refused: the sink took a front of the nodes. `Write` where the sink failed, which ends
    /// it. Some nodes are handed on also where no machine's world is known: what no node changes of a sink is as it was. The
    /// time is that of the walk and of reading each node once.
    pub fn tree_to<S: Sink>(&self, sink: &mut S) -> Result<(), Fault>
        requires { S.failed sink.old < 2 ^ 64 - 1 }
        // A sink takes the nodes of `World::tree`, all of them.
        // A sink takes the nodes in order, each once.
        // A sink takes each node with its path.
        // Where memory is refused, the sink took a front of the nodes.
        // Where memory is refused, the sink did not fail.
        // Where the sink fails, `Write` is answered, and it took a front of the nodes.
        // `Write` is answered only where the sink failed.
        ensures nodes { (m : machine.World) → Shows self.now m
            → Hands result S.failed S.Takes S.Fails sink.old (tree_of m) sink.new }
        // Whatever the world shows, some nodes are handed on so.
        ensures some { (nodes : List TreeNode)
            × Hands result S.failed S.Takes S.Fails sink.old nodes sink.new }
    {
        self.shared.tree_to(self.alloc, sink)
    }

    /// Hands the nodes of [`snap_tree`](World::snap_tree) to a sink, as [`tree_to`](World::tree_to) does. `NoSnapshot`
    /// where the snapshot doesn't live, before all else.
    pub fn snap_tree_to<S: Sink>(&self, snapshot: Epoch, sink: &mut S) -> Result<(), Fault>
        requires { S.failed sink.old < 2 ^ 64 - 1 }
        // The same of the tree of a living snapshot.
        // `NoSnapshot` is answered exactly for one that does not live, first of all.
        ensures nodes { (m : machine.World) → Shows self.now m
            → MatchOption (pins_of m.shared.book.snaps snapshot)
            ((result ≡ Err NoSnapshot) × (sink.new ≡ sink.old))
            (λ _. Hands result S.failed S.Takes S.Fails sink.old (snapshot_tree m snapshot) sink.new) }
        ensures some { ((result ≡ Err NoSnapshot) × (sink.new ≡ sink.old)) ⊎ ((nodes : List TreeNode)
            × Hands result S.failed S.Takes S.Fails sink.old nodes sink.new) }
    {
        if !self.shared.book.snaps().has(snapshot) {
            return Err(Fault::NoSnapshot);
        }
        self.shared.tree_at_to(self.alloc, snapshot, sink)
    }
}

impl Shared {
    /// Hands the tree of these cells to a sink, from the root.
    fn tree_to<S: Sink>(&self, alloc: Global, sink: &mut S) -> Result<(), Fault>
        requires settled { AreSettled (shared_of self.now) }
        requires failures { S.failed sink.old < 2 ^ 64 - 1 }
        ensures { Hands result S.failed S.Takes S.Fails
            sink.old (tree_in (shared_of self.now)) sink.new }
    {
        let mut walk = Walk::new(alloc, root(), self.cells.len())?;
        while let Some(handle) = walk.wanted() {
            let node = self.settled_node(alloc, &handle)?;
            hand_on(&mut walk, node, sink)?;
        }
        Ok(())
    }

    /// Hands the tree of these cells at the end of an epoch to a sink, from the root.
    fn tree_at_to<S: Sink>(&self, alloc: Global, epoch: Epoch, sink: &mut S) -> Result<(), Fault>
        requires can { CanShow self.now epoch }
        requires settled { AreSettledAt epoch (shared_of self.now) }
        requires failures { S.failed sink.old < 2 ^ 64 - 1 }
        ensures { Hands result S.failed S.Takes S.Fails
            sink.old (tree_at epoch (shared_of self.now)) sink.new }
    {
        let mut walk = Walk::new(alloc, root(), self.cells.len())?;
        while let Some(handle) = walk.wanted() {
            let node = self.snapshot_node(alloc, &handle, epoch)?;
            hand_on(&mut walk, node, sink)?;
        }
        Ok(())
    }
}

/// Hands the node that a walk wants to a sink, and goes on with its names, or past a handle that leads to no node.
fn hand_on<S: Sink>(walk: &mut Walk, node: Option<NodeCopy>, sink: &mut S) -> Result<(), Fault>
    requires next { IsSome (next_handle walk.old) }
    requires failures { S.failed sink.old < 2 ^ 64 - 1 }
    ensures given { Hands result S.failed S.Takes S.Fails
        sink.old (option_to_list (given_for walk.old node)) sink.new }
    ensures left { OnOk result (walk.new ≡ visits_after walk.old node) }
{
    let Some(node) = node else {
        walk.pass();
        return Ok(());
    };
    let Ok(()) = sink.node(walk.path(), &node) else {
        return Err(Fault::Write);
    };
    walk.enter(node.names)
}
