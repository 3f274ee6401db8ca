//! That worlds are consistent: laws, each the contract of a function that does nothing.

ghost use Rattle.nv_base.specs.declared.geometry.GeometryNumbers.{GeometryNumbers};
ghost use Rattle.nv_core.specs.Consistent.{IsConsistentAfter, IsConsistentWorld};
ghost use Rattle.nv_core.specs.Worlds.{EventRun};
ghost use Rattle.nv_machine.specs.Starts.{IsStart};

use crate::World;

/// Whatever events come from any start on, each inode's counts, the records that living snapshots hold, each free
/// list and the pool of inode numbers are what one scan of all logs and of the snapshots gives, with what hands have
/// and what is deferred named apart: an idle actor has nothing, and deferred are the records that no living snapshot
/// holds. The settled logs give the nodes and the tree of the plain world, in which each call makes its change at its
/// commit point; and each living snapshot reads as the tree that stood when it was made. An inode's index and names are
/// at all times those of one scan of its log ([`nv_cell::InodeCell`]).
pub fn worlds_are_consistent()
    // The counts of each inode are those of one scan of all logs, of the snapshot list and of the hands.
    // The records that living snapshots hold, and each free list, are those of that scan.
    // A free list is that scan's number by number: none twice, none of another range.
    // The pool of inode numbers is that of that scan.
    // An idle actor has nothing.
    // Deferred are the records that no living snapshot holds.
    // The settled logs give the plain world's nodes and tree.
    // Each living snapshot reads as the copy taken at its making, node by node and as a tree.
    ensures { (g : GeometryNumbers) (run : EventRun) → IsStart g run.start run.records
        → IsConsistentAfter g run }
{}

impl World {
    /// A law: some events lead from some start to what this one shows, and after them it is as
    /// [`worlds_are_consistent`] says.
    pub fn consistent(&self)
        ensures { IsConsistentWorld self.now }
    {
        let _ = &self.shared;
    }
}
