//! A show that goes on: a walk, the visits that are left to it, and the nodes that it has seen.

ghost use Rattle.std.specs.Prelude.{◌≡◌, ℕ, IfOk, List, false, option_map};
ghost use Rattle.std.specs.Option.{ForSome};
ghost use Rattle.nv_base.specs.Refusals.{FailsOnly};
ghost use Rattle.nv_base.specs.Memory.{out_of_memory};
ghost use Rattle.nv_reader.specs.Nodes.{IsWhole, copy_in};
ghost use Rattle.nv_reader.specs.Showing.{is_over, new_showing, seen_on, visited, visits_from};

use crate::show::copy_on;
use crate::walk::{Walk, root};
use nv_base::{Epoch, Fault, Handle, limits};
use nv_cell::InodeCell;
use nv_entry::{NodeCopy, Tree, TreeNode};
use std::alloc::Global;
use std::marker::Model;

/// A show that goes on: how many visits it may make yet, its walk, and the nodes that it has seen. Contracts see the
/// visits that are still to be made in place of the walk.
///
/// The first visit makes the walk, at most so many nodes deep: a new show takes no memory.
#[derive(Drop)]
pub struct Showing {
    left: u64,
    depth: usize,
    walk: Option<Walk>,
    seen: Vec<TreeNode>,
}

impl Model for Showing {
    ghost use Rattle.nv_reader.specs.Showing.{Showing, visits_from};

    ghost Value = { Showing };

    ghost view = { λ s. record {
      left = s.left;
      visits = visits_from s.depth s.walk;
      seen = s.seen.items;
    } };
}

impl Showing {
    /// Before the first visit, which is that of the root, of a tree at most `depth` nodes deep. Takes no memory.
    /// A new show takes no memory.
    pub fn new(alloc: Global, depth: usize) -> Showing
        // A show begins at the root.
        ensures { result ≡ new_showing depth }
    {
        Showing {
            left: limits::INODES,
            depth,
            walk: None,
            seen: Vec::new(alloc),
        }
    }

    /// Whether all visits are made.
    pub fn is_over(&self) -> bool
        // A show goes on to the end of its walk.
        ensures { result ≡ is_over self.now }
    {
        self.left == 0
            || match &self.walk {
                Some(walk) => walk.wanted().is_none(),
                None => self.depth == 0,
            }
    }

    /// The handle of the next visit.
    pub fn visited(&self) -> Handle
        // A show visits the handle that its walk wants next.
        ensures { result ≡ visited self.now.visits }
    {
        match &self.walk {
            Some(walk) => walk.wanted().unwrap_or(root()),
            None => root(),
        }
    }

    /// Makes the next visit, by the cell of its slot: what stands there at the end of the epoch is seen, and what its
    /// names lead to comes next. `OutOfMemory` where room was refused, and then the show is gone.
    ///
    /// Costs as much as [`show_on`](crate::show_on).
    pub fn visit(
        self,
        alloc: Global,
        cell: Option<&InodeCell>,
        epoch: Epoch,
    ) -> Result<Showing, Fault>
        requires { is_over self ≡ false }
        // The node of a visit is seen with its path, and what its names lead to comes next.
        // A visit is counted, so that there are no more than there can be inodes.
        // A visit reads the node under its handle at the epoch by the one cell that it is lent.
        ensures ok { (bytes : ℕ → List ℕ)
            → ForSome cell.entry (λ cell. IsWhole bytes epoch cell.now.state)
            → IfOk result (λ after. after ≡ seen_on (copy_in bytes
            (option_map (λ cell. cell.now.state) cell.entry) epoch (visited self.visits)) self) }
        // The only error is `OutOfMemory`.
        ensures err { FailsOnly out_of_memory result }
    {
        let node = copy_on(alloc, cell, &self.visited(), epoch)?;
        self.see(alloc, node)
    }

    /// The node of the next visit is seen, and what its names lead to comes next. `OutOfMemory` where room was refused.
    pub fn see(self, alloc: Global, node: Option<NodeCopy>) -> Result<Showing, Fault>
        requires { is_over self ≡ false }
        ensures ok { IfOk result (λ after. after ≡ seen_on node self) }
        ensures err { FailsOnly out_of_memory result }
    {
        let Showing {
            left,
            depth,
            walk,
            mut seen,
        } = self;
        let mut walk = begun(alloc, depth, walk)?;
        if let Some(given) = walk.hand_in(node)? {
            seen.push(given)?;
        }
        Ok(Showing {
            left: left - 1,
            depth,
            walk: Some(walk),
            seen,
        })
    }

    /// The nodes that it has seen: once all visits are made, the tree.
    pub fn into_seen(self) -> Tree
        // A show gives out the nodes that it has seen.
        ensures { result ≡ self.seen }
    {
        Tree::from_vec(self.seen)
    }
}

/// The walk, which is made where there is none yet.
fn begun(alloc: Global, depth: usize, walk: Option<Walk>) -> Result<Walk, Fault>
    ensures ok { IfOk result (λ begun. begun ≡ visits_from depth walk) }
    ensures err { FailsOnly out_of_memory result }
{
    match walk {
        Some(walk) => Ok(walk),
        None => Walk::new(alloc, root(), depth),
    }
}
