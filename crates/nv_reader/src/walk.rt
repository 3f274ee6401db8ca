//! The walk of a tree, one node at a time.

ghost use Rattle.std.specs.Prelude.{◌≡◌, IfOk, IsSome, None, OnOk, Option, Some};
ghost use Rattle.nv_base.specs.Refusals.{FailsOnly, KeepsOnErr};
ghost use Rattle.nv_base.specs.declared.numbers.Handle.{Handle};
ghost use Rattle.nv_entry.specs.Tree as tree;
ghost use Rattle.nv_entry.specs.declared.node.NodeCopy.{NodeCopy};
ghost use Rattle.nv_reader.specs.Walk.{GivesNext, given_for, next_handle, root_visit, visits_after, visits_below, wanted_node};
ghost use Rattle.nv_reader.specs.Ways.{first_path};
ghost use Rattle.nv_base.specs.Memory.{out_of_memory};

use crate::way::{Way, names_copied, path_copied};
use nv_base::{Fault, Gen, Handle, Ino, Name};
use nv_entry::{NameList, NodeCopy, TreeNode};
use std::alloc::{AllocError, Global};
use std::marker::Model;

/// The handle of the root directory, in every world.
pub fn root() -> Handle
    // The handle of the root is told, the same in every world.
    ensures { result ≡ tree.root }
{
    Handle {
        ino: Ino::new(0),
        generation: Gen::new(1),
    }
}

/// A walk through a tree: a parent before its names, and these in their order. Contracts see the visits that are still
/// to be made.
///
/// It keeps the path of the next visit and the names that are still to be followed in each directory on
/// the way, and no node.
///
/// Where the directories form no tree, the visits may grow exponentially with the depth: who cannot tell that they do
/// has to find that out first.
#[derive(Drop)]
pub struct Walk {
    alloc: Global,
    depth: usize,
    next: Option<Handle>,
    way: Way,
}

impl Model for Walk {
    ghost use Rattle.std.specs.Prelude.{List};
    ghost use Rattle.nv_reader.specs.Walk.{Visit};

    ghost Value = { List Visit };

    ghost use Rattle.std.specs.Prelude.{◌≡◌, ◌<◌, IsSome, None, [], length};
    ghost use Rattle.nv_reader.specs.Ways.{IsWay, visits_of};

    ghost view = { λ w. visits_of w.depth w.next w.way.path.items w.way.left.items };

    // There are as many names on the way as directories with names left; the way is empty once nothing is wanted.
    // A node that is wanted is no deeper than the tree may be.
    ghost invariant = { λ w. IsWay w.depth w.next w.way.path.items w.way.left.items };
}

impl Walk {
    /// A walk from a root on, at most `depth` nodes deep. `OutOfMemory` where room for it was refused.
    pub fn new(alloc: Global, root: Handle, depth: usize) -> Result<Walk, Fault>
        // A walk begins at its root; the only error is `OutOfMemory`.
        ensures ok { IfOk result (λ walk. walk ≡ root_visit depth root) }
        ensures err { FailsOnly out_of_memory result }
    {
        // Room for one level: entering a root that has no directories below it takes no more.
        Ok(Walk {
            alloc,
            depth,
            next: if depth > 0 { Some(root) } else { None },
            way: Way {
                path: Vec::with_capacity(alloc, 1)?,
                left: Vec::with_capacity(alloc, 1)?,
            },
        })
    }

    /// The handle whose node is wanted next; none once all is visited.
    pub fn wanted(&self) -> Option<Handle>
        // A walk wants the handle of its next visit, and none once all are made.
        ensures { result ≡ next_handle self.now }
    {
        self.next
    }

    /// The names on the way from the root to the node that is wanted next; none for the root, and once all is visited.
    pub fn path(&self) -> &[Name]
        // A walk lends the path of its next visit.
        ensures { result.now ≡ first_path self.now }
    {
        &self.way.path
    }

    /// Goes on from the node that is wanted with its names, if the tree may be that deep. `OutOfMemory` where room was
    /// refused: the walk stands where it stood.
    pub fn enter(&mut self, names: NameList) -> Result<(), Fault>
        requires { IsSome (next_handle self.old) }
        // A walk goes on from a node with its names, in order.
        // A name leads to its handle.
        // A walk goes no deeper once the depth is used up.
        ensures ok { OnOk result (self.new ≡ visits_below self.old names) }
        // In any world, the next visit's node is the next of the tree that is to come.
        // One visit less is left each time, so that a walk ends.
        ensures next { (nodes : Handle → Option NodeCopy) (node : NodeCopy)
            → wanted_node nodes self.old ≡ Some node → node.names ≡ names
            → OnOk result (GivesNext nodes self.old (given_for self.old (Some node)) self.new) }
        // A refused growth leaves the visits as they were.
        ensures err { FailsOnly out_of_memory result }
        ensures same { KeepsOnErr result self.old self.new }
    {
        self.descend(names)?;
        Ok(())
    }

    /// Goes past the handle that is wanted, which leads to no node.
    pub fn pass(&mut self)
        requires { IsSome (next_handle self.old) }
        // A walk goes on past a name that leads to no node.
        ensures visits { self.new ≡ visits_after self.old None }
        ensures next { (nodes : Handle → Option NodeCopy) → wanted_node nodes self.old ≡ None
            → GivesNext nodes self.old None self.new }
    {
        self.next = self.way.next();
    }

    /// Takes the node that was wanted, and gives it out with a copy of its path; none where the
    /// handle leads to no node.
    pub fn hand_in(&mut self, node: Option<NodeCopy>) -> Result<Option<TreeNode>, Fault>
        requires { IsSome (next_handle self.old) }
        // The node that is handed in goes out with its path.
        // Nothing goes out for a name that leads to no node.
        ensures given { IfOk result (λ given. given ≡ given_for self.old node) }
        ensures left { OnOk result (self.new ≡ visits_after self.old node) }
        ensures next { (nodes : Handle → Option NodeCopy) → node ≡ wanted_node nodes self.old →
            IfOk result (λ given. GivesNext nodes self.old given self.new) }
        ensures err { FailsOnly out_of_memory result }
        ensures same { KeepsOnErr result self.old self.new }
    {
        let Some(node) = node else {
            self.pass();
            return Ok(None);
        };
        let path = path_copied(self.alloc, self.path())?;
        let names = names_copied(self.alloc, node.names.as_slice())?;
        self.enter(names)?;
        Ok(Some(TreeNode { path, node }))
    }

    /// Goes to the first name of a directory, if the tree may be that deep.
    fn descend(&mut self, names: NameList) -> Result<(), AllocError>
        requires { IsSome (next_handle self.old) }
        ensures ok { OnOk result (self.new ≡ visits_below self.old names) }
        ensures same { KeepsOnErr result self.old self.new }
    {
        if self.way.path.len() + 1 == self.depth {
            self.pass();
            return Ok(());
        }
        let mut names = names.into_vec();
        names.reverse();
        let Some(first) = names.pop() else {
            self.pass();
            return Ok(());
        };
        self.way.path.reserve(1)?;
        self.way.left.reserve(1)?;
        self.way.path.push_reserved(first.name);
        self.way.left.push_reserved(NameList::from_vec(names));
        self.next = Some(first.to);
        Ok(())
    }
}
