//! Parts by their places.

ghost use Rattle.std.specs.Prelude.{◌≡◌, ◌<◌, length, slice_index_or};
ghost use Rattle.nv_entry.specs.Keys.{parts_of};
ghost use Rattle.nv_entry.specs.declared.part.Part.{Part as PartValue};

use nv_entry::{Item, Part};

/// The part of an item at a place.
pub(crate) fn part_at(item: &Item, place: u32) -> Part
    requires { place < length (parts_of item.now) }
    ensures { (other : PartValue) → result ≡ slice_index_or (parts_of item.now) place other }
{
    item.part_at(place).unwrap()
}
