//! Room for the image of a world.

ghost use Rattle.std.specs.Prelude.{◌≡◌, [], IfOk};
ghost use Rattle.nv_base.specs.Memory.{out_of_memory};
ghost use Rattle.nv_base.specs.Refusals.{FailsOnly};
ghost use Rattle.nv_core.specs.Stops.{HasImageRoom};

use nv_audit::SlotImage;
use nv_base::{Epoch, Fault, Geometry};
use std::alloc::Global;

/// The lists of a world's image, which are empty until it stops: so a stop takes no memory.
pub(crate) struct ImageRoom {
    pub(crate) slots: Vec<SlotImage>,
    pub(crate) snapshots: Vec<Epoch>,
}

impl ImageRoom {
    /// The room that a device asks for. The only error is `OutOfMemory`.
    pub(crate) fn new(alloc: Global, geometry: &Geometry) -> Result<ImageRoom, Fault>
        ensures ok { IfOk result (HasImageRoom geometry.now.numbers) }
        ensures err { FailsOnly out_of_memory result }
    {
        let snapshots = Vec::with_capacity(alloc, geometry.numbers.snaps as usize)?;
        let slots = Vec::with_capacity(alloc, geometry.numbers.inodes as usize)?;
        Ok(ImageRoom { slots, snapshots })
    }

    /// Lets the room go.
    pub(crate) fn dismantle(self)
        requires { self.slots.items ≡ [] }
    {
        let ImageRoom {
            slots,
            snapshots: _,
        } = self;
        slots.destroy_empty();
    }
}
