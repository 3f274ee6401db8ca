//! What stands behind a place of C: the files of a world, and what was listed and shown of them last.

ghost use Rattle.std.specs.Prelude.{◌≡◌, [], IfOk, IsOk, ◌↔◌};
ghost use Rattle.nv_base.specs.Limits.{IsWithinLimits};
ghost use Rattle.nv_base.specs.Refusals.{FailsEither};
ghost use Rattle.nv_base.specs.Memory.{out_of_memory};
ghost use Rattle.nv_files.specs.Stands.{Stands};
ghost use Rattle.nv_serial.specs.Serial.{new_serial};
ghost use Rattle.nv_c.specs.Numbers.{geometry_in};
ghost use Rattle.nv_c.specs.Worlds.{IsMadeAs};

use crate::numbers::NovaGeometry;
use nv_base::{Fault, Geometry};
use nv_entry::{NameList, Tree};
use nv_files::Files;
use std::alloc::Global;

/// The files of a world, and what was listed and shown of them last.
#[derive(Drop)]
pub struct Held {
    pub alloc: Global,
    pub files: Files,
    pub listed: NameList,
    pub shown: Tree,
}

impl Held {
    /// A new world, of which nothing was listed or shown.
    pub(crate) fn new(alloc: Global, geometry: &NovaGeometry) -> Result<Box<Held>, Fault>
        ensures { IsMadeAs (geometry_in geometry.now) result }
    {
        let geometry = Geometry::checked(geometry.numbers())?;
        let files = Files::format(alloc, geometry)?;
        let held = Held {
            alloc,
            files,
            listed: NameList::empty(alloc),
            shown: Tree::empty(alloc),
        };
        Ok(Box::new(alloc, held)?)
    }
}
