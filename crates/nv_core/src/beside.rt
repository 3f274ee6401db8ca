//! What a world at rest has beside its parts.

ghost use Rattle.std.specs.Prelude.{◌≡◌, [], IfOk};
ghost use Rattle.nv_base.specs.Memory.{out_of_memory};
ghost use Rattle.nv_base.specs.Refusals.{FailsOnly};
ghost use Rattle.nv_core.specs.Stops.{IsBeside};

use crate::format::idle_actors;
use crate::image_room::ImageRoom;
use crate::world::{Actor, dismantle};
use nv_base::{Fault, Geometry};
use std::alloc::Global;

/// The locks of all slots, which nobody holds, actors without calls, and room for the image.
pub(crate) struct Beside {
    pub(crate) owners: Vec<Option<u64>>,
    pub(crate) actors: Vec<Actor>,
    pub(crate) room: ImageRoom,
}

impl Beside {
    /// That of so many slots. The only error is `OutOfMemory`.
    pub(crate) fn new(alloc: Global, geometry: &Geometry, slots: usize) -> Result<Beside, Fault>
        ensures ok { IfOk result (IsBeside geometry.now.numbers slots) }
        ensures err { FailsOnly out_of_memory result }
    {
        let owners = vec![in alloc; None; slots]?;
        let actors = idle_actors(alloc, geometry)?;
        match ImageRoom::new(alloc, geometry) {
            Ok(room) => Ok(Beside {
                owners,
                actors,
                room,
            }),
            Err(fault) => {
                dismantle(actors);
                Err(fault)
            }
        }
    }

    /// Lets it go.
    pub(crate) fn dismantle(self)
        requires { self.room.slots.items ≡ [] }
    {
        let Beside {
            owners: _,
            actors,
            room,
        } = self;
        dismantle(actors);
        room.dismantle();
    }
}
