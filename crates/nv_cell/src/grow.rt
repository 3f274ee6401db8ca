//! Growth of the lists that go along with a log.

ghost use Rattle.std.specs.Prelude.{◌+◌, ◌≤◌, IsOk, OnOk, vec_capacity, vec_len};
ghost use Rattle.nv_cell.specs.Room.{HasGrown};

use std::alloc::AllocError;

/// For how many more entries a list of them grows at least. Most files have few, and a list that grows again doubles.
pub const LEAST_ENTRIES: usize = 4;

/// For how many more parts a list of them grows at least: a write has two or more.
pub const LEAST_PARTS: usize = 8;

/// Makes room for so many more items. Where it is missing the list grows by so many at least, so that it grows seldom.
pub fn grow<T>(list: &mut Vec<T>, count: usize, least: usize) -> Result<(), AllocError>
    ensures grown { HasGrown list.old list.new }
    ensures ok { OnOk result (vec_len list.new + count ≤ vec_capacity list.new) }
    ensures enough { vec_len list.old + count ≤ vec_capacity list.old → IsOk result }
{
    if count <= list.capacity() - list.len() {
        return Ok(());
    }
    list.reserve(count.max(least))
}
