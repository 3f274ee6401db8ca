//! The tree of a world: its nodes with their paths.

ghost use Rattle.std.specs.Prelude.{◌≡◌, ◌⊎◌, ℕ, IfErr, IfOk, IsSome, None};
ghost use Rattle.nv_base.specs.Refusals.{FailsOnly};
ghost use Rattle.nv_base.specs.declared.fault.Fault.TheVariants.{NoSnapshot};
ghost use Rattle.nv_base.specs.Memory.{out_of_memory};
ghost use Rattle.nv_calls.specs.Plain.{node_in};
ghost use Rattle.nv_epoch.specs.SnapList.{pins_of};
ghost use Rattle.nv_machine.specs.SnapshotOrCleaner.{copies_at};
ghost use Rattle.nv_machine.specs.World as machine;
ghost use Rattle.nv_core.specs.Settled.{AreSettled, AreSettledAt, noted_or, settled_copies, settled_nodes, settled_tail, snapshot_tree, tree_at, tree_in, tree_of};
ghost use Rattle.nv_core.specs.Shown.{shared_of};
ghost use Rattle.nv_core.specs.Steps.{CanShow};
ghost use Rattle.nv_core.specs.Worlds.{Shows};

use crate::World;
use crate::shared::Shared;
use nv_base::{Epoch, Fault, Handle, Ino};
use nv_entry::{NodeCopy, Tree};
use nv_reader::{Walk, copy_on, root, settled_on};
use std::alloc::Global;

impl World {
    /// The tree now, by the settled logs: the nodes that are reached from the root through names.
    pub fn tree(&self) -> Result<Tree, Fault>
        // The tree is that of the settled logs, parents before names.
        // A handle leads to its own generation; the only error is `OutOfMemory`.
        ensures ok { (m : machine.World) → Shows self.now m
            → IfOk result (λ tree. tree ≡ tree_of m) }
        ensures err { FailsOnly out_of_memory result }
    {
        self.shared.tree(self.alloc)
    }

    /// The tree of a living snapshot: the nodes at its epoch. `NoSnapshot` where it doesn't live, before `OutOfMemory`.
    /// The tree of a living snapshot is the one that stood at its making.
    pub fn snap_tree(&self, snapshot: Epoch) -> Result<Tree, Fault>
        // The tree of a living snapshot is that of its epoch by the settled logs.
        // The tree of a living snapshot stays so beside drops, shows and drains.
        ensures ok { (m : machine.World) → Shows self.now m → IfOk result (λ tree.
            (tree ≡ snapshot_tree m snapshot) × IsSome (pins_of m.shared.book.snaps snapshot)) }
        // `NoSnapshot` is answered exactly for one that does not live, and otherwise `OutOfMemory` alone.
        ensures err { (m : machine.World) → Shows self.now m → IfErr result (λ fault.
            ((fault ≡ NoSnapshot) × (pins_of m.shared.book.snaps snapshot ≡ None))
            ⊎ ((fault ≡ out_of_memory) × IsSome (pins_of m.shared.book.snaps snapshot))) }
    {
        if !self.shared.book.snaps().has(snapshot) {
            return Err(Fault::NoSnapshot);
        }
        self.shared.tree_at(self.alloc, snapshot)
    }
}

impl Shared {
    /// The tree of these cells, from the root.
    fn tree(&self, alloc: Global) -> Result<Tree, Fault>
        requires { AreSettled (shared_of self.now) }
        ensures ok { IfOk result (λ tree. tree ≡ tree_in (shared_of self.now)) }
        ensures err { FailsOnly out_of_memory result }
    {
        let mut walk = Walk::new(alloc, root(), self.cells.len())?;
        let mut nodes = Vec::new(alloc);
        while let Some(handle) = walk.wanted() {
            let node = self.settled_node(alloc, &handle)?;
            if let Some(given) = walk.hand_in(node)? {
                nodes.push(given)?;
            }
        }
        Ok(Tree::from_vec(nodes))
    }

    /// The tree of these cells at the end of an epoch, from the root.
    fn tree_at(&self, alloc: Global, epoch: Epoch) -> Result<Tree, Fault>
        requires can { CanShow self.now epoch }
        requires settled { AreSettledAt epoch (shared_of self.now) }
        ensures ok { IfOk result (λ tree. tree ≡ tree_at epoch (shared_of self.now)) }
        ensures err { FailsOnly out_of_memory result }
    {
        let mut walk = Walk::new(alloc, root(), self.cells.len())?;
        let mut shown = Vec::new(alloc);
        while let Some(handle) = walk.wanted() {
            let node = self.snapshot_node(alloc, &handle, epoch)?;
            if let Some(given) = walk.hand_in(node)? {
                shown.push(given)?;
            }
        }
        Ok(Tree::from_vec(shown))
    }

    /// The node under a handle in a living snapshot: at its epoch the settled logs have the nodes of the logs.
    pub(crate) fn snapshot_node(
        &self,
        alloc: Global,
        handle: &Handle,
        epoch: Epoch,
    ) -> Result<Option<NodeCopy>, Fault>
        requires can { CanShow self.now epoch }
        requires settled { AreSettledAt epoch (shared_of self.now) }
        ensures ok { IfOk result (λ node.
            node ≡ settled_copies (shared_of self.now) epoch handle.now) }
        ensures err { FailsOnly out_of_memory result }
    {
        self.node_at(alloc, handle, epoch)
    }

    /// The node under a handle at the end of an epoch; none where the handle is stale.
    pub(crate) fn node_at(
        &self,
        alloc: Global,
        handle: &Handle,
        epoch: Epoch,
    ) -> Result<Option<NodeCopy>, Fault>
        requires { CanShow self.now epoch }
        ensures ok { IfOk result (λ node. node ≡ copies_at (shared_of self.now) epoch handle.now) }
        ensures err { FailsOnly out_of_memory result }
    {
        copy_on(alloc, self.cell(handle.ino), handle, epoch)
    }

    /// The node under a handle by its settled log; none where the handle is stale.
    pub(crate) fn settled_node(
        &self,
        alloc: Global,
        handle: &Handle,
    ) -> Result<Option<NodeCopy>, Fault>
        requires { AreSettled (shared_of self.now) }
        ensures ok { IfOk result (λ node.
            node ≡ node_in (settled_nodes (shared_of self.now)) handle.now) }
        ensures err { FailsOnly out_of_memory result }
    {
        let place = handle.ino.number() as usize;
        if place >= self.cells.len() {
            return Ok(None);
        }
        let cell = &self.cells[place];
        if cell.generation() != handle.generation {
            return Ok(None);
        }
        settled_on(alloc, cell, self.noted_tail(handle.ino))
    }

    /// The tail that an open journal has noted for an inode.
    fn noted_tail(&self, ino: Ino) -> Option<usize>
        ensures { (tail : ℕ) → noted_or result tail
            ≡ settled_tail self.now.book.state.journals ino tail }
    {
        for cpu in 0..self.book.cpus() {
            if let Some(tail) = self.book.journal(cpu).tail_of(ino) {
                return Some(tail as usize);
            }
        }
        None
    }
}
