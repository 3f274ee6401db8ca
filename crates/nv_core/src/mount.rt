//! A world that is mounted from an image.

ghost use Rattle.std.specs.Prelude.{◌≡◌, ◌⊎◌, IfErr, IfOk, OnOk};
ghost use Rattle.nv_audit.specs.Faults.{IsFaultless};
ghost use Rattle.nv_base.specs.Memory.{out_of_memory};
ghost use Rattle.nv_restart.specs.Mounted.{mounted};
ghost use Rattle.nv_core.specs.Stops.{IsBadImage};
ghost use Rattle.nv_core.specs.Worlds.{Shows};

use crate::World;
use crate::beside::Beside;
use nv_audit::{Image, judge};
use nv_base::{Fault, Items};
use nv_mount::{MountedParts, mount_parts};
use nv_parts::Parts;
use std::alloc::Global;

impl World {
    /// Makes the world that goes on from an image, which may come from anywhere: no lock is held, no actor has a call, no
    /// snapshot is pinned and nothing is deferred. Free lists, pool, indexes, counts and records are made anew.
    ///
    /// `BadImage` with the first fault that the image has. `OutOfMemory` where room was refused. Then the very image comes
    /// back. The image of a world that stopped never has a fault: [`World::stop`].
    ///
    /// It costs what [`nv_audit::judge`] does, a pass over all logs with a look-up for each part, and a logarithm for each
    /// block.
    pub fn mount(alloc: Global, image: Image) -> Result<World, (Fault, Image)>
        // The world shows the world that a mount makes of the image.
        ensures ok { IfOk result (λ world. Shows world (mounted image)) }
        // `BadImage` tells the first fault of an image that has one.
        ensures faultless { OnOk result (IsFaultless image) }
        ensures geometry { IfOk result (λ world. world.shared.geometry.numbers ≡ image.numbers) }
        ensures err { IfErr result (λ refused.
            (refused.0 ≡ out_of_memory) ⊎ IsBadImage image refused.0) }
        // An image without a fault is refused for want of memory alone.
        ensures passes { IsFaultless image → IfErr result (λ refused. refused.0 ≡ out_of_memory) }
        // An image that is refused comes back as it was.
        ensures same { IfErr result (λ refused. refused.1 ≡ image) }
    {
        match judge(alloc, &image) {
            Ok(None) => World::mount_faultless(alloc, image),
            Ok(Some(fault)) => Err((Fault::BadImage(fault), image)),
            Err(fault) => Err((fault, image)),
        }
    }

    /// The same of an image without a fault.
    fn mount_faultless(alloc: Global, image: Image) -> Result<World, (Fault, Image)>
        requires { IsFaultless image }
        ensures ok { IfOk result (λ world. Shows world (mounted image)) }
        ensures err { IfErr result (λ refused. refused.0 ≡ out_of_memory) }
        ensures same { IfErr result (λ refused. refused.1 ≡ image) }
    {
        let beside = match Beside::new(alloc, &image.geometry, image.slots.len()) {
            Ok(beside) => beside,
            Err(fault) => return Err((fault, image)),
        };
        match mount_parts(alloc, image) {
            Ok(made) => Ok(World::at_rest(alloc, parts_of(made), beside)),
            Err(refused) => {
                beside.dismantle();
                Err(refused)
            }
        }
    }
}

/// The parts that were made.
fn parts_of(made: MountedParts) -> Parts
    ensures geometry { result.geometry ≡ made.geometry }
    ensures cells { result.cells ≡ made.cells.items }
    ensures lists { result.lists ≡ made.lists.items }
    ensures pool { result.pool ≡ made.pool }
    ensures book { result.book ≡ made.book }
{
    let MountedParts {
        geometry,
        cells,
        lists,
        pool,
        book,
    } = made;
    Parts {
        geometry,
        cells: Items::from_vec(cells),
        lists: Items::from_vec(lists),
        pool,
        book,
    }
}
