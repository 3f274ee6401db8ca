//! A world, and how it is let go.

ghost use Rattle.std.specs.Prelude.{◌≡◌, length};
ghost use Rattle.nv_core.specs.Stops.{HasImageRoom};
ghost use Rattle.nv_core.specs.Worlds.{IsWorld, WorldState};

use crate::image_room::ImageRoom;
use crate::reservation::Reservation;
use crate::running::Running;
use crate::shared::Shared;
use nv_base::Geometry;
use std::alloc::Global;
use std::marker::Model;

/// What is an actor's own: what it holds, and the call that it runs.
pub(crate) struct Actor {
    pub(crate) reserved: Reservation,
    pub(crate) running: Option<Running>,
}

/// A world: what actors share, and the actors.
/// Only tested: a world is `Send`.
pub struct World {
    pub(crate) alloc: Global,
    pub(crate) shared: Shared,
    pub(crate) actors: Vec<Actor>,
    // For the image of the world, once it stops.
    pub(crate) room: ImageRoom,
}

impl Model for World {
    ghost Value = { WorldState };

    ghost view = { λ w. record { shared = w.shared; actors = w.actors.items } };

    // It shows a world of the machine of steps, to which events lead from a start of its geometry.
    // Its geometry is within its limits.
    // An actor without a call has its hand alone: nothing that is ready, and no commit.
    // Each hand is of blocks of the device's size, and a call is of a kind that has its next step.
    // From `check` on, the cells of a call pass the check; its hand has what it took, and room for what it takes.
    // A call that is ready is so over its cells, and a commit is on its way over them.
    // A `show` call that goes on has a node to visit.
    // A `drain` call releases no more than it may; behind its first `pick` its hand has room for a block.
    ghost invariant = { λ w. IsWorld (record { shared = w.shared; actors = w.actors.items })
        × HasImageRoom w.shared.geometry.numbers w.room };
}

impl Drop for World {
    /// Each block that the world owns ends here.
    fn drop(self) {
        self.into_shared().dismantle();
    }
}

impl World {
    /// The numbers that the world was made for.
    pub fn geometry(&self) -> &Geometry
        // A world tells the numbers that it was made for.
        ensures { result.now ≡ self.now.shared.geometry }
    {
        &self.shared.geometry
    }

    /// How many inode slots there are.
    pub fn inodes(&self) -> u64
        // It tells how many inode slots it has, and how many CPUs, each with a free list.
        ensures { result ≡ length self.now.shared.cells.items }
    {
        self.shared.inodes()
    }

    /// How many CPUs there are, each with a free list.
    pub fn cpus(&self) -> u64
        ensures { result ≡ length self.now.shared.lists.items }
    {
        self.shared.lists.len() as u64
    }

    /// What actors share. What each has of its own ends here.
    pub(crate) fn into_shared(self) -> Shared
        ensures { result ≡ self.shared }
    {
        let (shared, room) = self.into_stopped();
        room.dismantle();
        shared
    }

    /// The same, with room for the image of the world.
    pub(crate) fn into_stopped(self) -> (Shared, ImageRoom)
        ensures shared { result.0 ≡ self.shared }
        ensures room { HasImageRoom self.shared.geometry.numbers result.1 }
    {
        let World {
            alloc: _,
            shared,
            actors,
            room,
        } = self;
        dismantle(actors);
        (shared, room)
    }
}

/// Takes all actors apart with what they hold.
pub(crate) fn dismantle(mut actors: Vec<Actor>) {
    while let Some(actor) = actors.pop() {
        let Actor {
            reserved,
            running: _,
        } = actor;
        reserved.dismantle();
    }
    actors.destroy_empty();
}
