//! What a world has no place for.

ghost use Rattle.std.specs.Prelude.{◌≡◌};
ghost use Rattle.nv_mounted.specs.NewMounts.{new_side};
ghost use Rattle.nv_mounted.specs.Side.{at_node, put_node, touched};

use crate::directories::Directories;
use crate::snapshots::Snapshots;
use crate::world::Room;
use nv_base::{Handle, Ino};
use nv_mount_answers::Time;
use nv_mount_beside::{Beside, Nodes};
use std::alloc::Global;

/// The room that was told last, and in which second.
#[derive(Clone, Copy, Debug, PartialEq, Eq, Drop)]
pub struct Told {
    pub second: u64,
    pub room: Room,
}

/// What a world has no place for. It ends with the mount.
#[derive(Drop)]
pub struct Side {
    /// The directory of files that are open and have no name.
    pub hidden: Handle,
    /// What stands beside the world of each node.
    pub nodes: Nodes,
    /// The directories that are open.
    pub directories: Directories,
    /// The snapshots that have a name.
    pub snapshots: Snapshots,
    /// The room that was told last.
    pub told: Option<Told>,
    /// The inode whose log is to be cleaned next.
    pub due: Option<Ino>,
}

impl Side {
    /// What a new mount has beside its world.
    pub(crate) fn new(alloc: Global, hidden: Handle, nodes: Nodes) -> Side
        // No directory is open, no snapshot has a name, and nothing was told or is to be cleaned.
        ensures { result ≡ new_side hidden nodes }
    {
        Side {
            hidden,
            nodes,
            directories: Directories::new(alloc),
            snapshots: Snapshots::new(alloc),
            told: None,
            due: None,
        }
    }

    /// What stands beside a node.
    pub(crate) fn at(&self, handle: &Handle) -> Beside
        // It is what the table of nodes has.
        ensures { result ≡ at_node self.now handle.now }
    {
        self.nodes.at(handle)
    }

    /// From now on this stands beside a node.
    pub(crate) fn put(&mut self, handle: &Handle, beside: Beside)
        // Only what stands beside this node changes.
        ensures { self.new ≡ put_node handle.now beside self.old }
    {
        self.nodes.set(handle, beside);
    }

    /// A node has changed: its times are those of now, and after many changes its log is cleaned.
    pub(crate) fn touch(&mut self, now: Time, handle: &Handle)
        // Its times are set, and at the 512th change its log is to be cleaned.
        ensures { self.new ≡ touched now handle.now self.old }
    {
        let beside = self.nodes.at(handle).changed(now);
        self.nodes.set(handle, beside);
        if beside.is_due() {
            self.due = Some(handle.ino);
        }
    }
}
