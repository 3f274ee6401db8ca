//! The free lists of all CPUs: blocks out of the lists of their homes, and home again.

ghost use Rattle.std.specs.Prelude.{◌≡◌, ◌<◌, false, length, map};
ghost use Rattle.nv_alloc.specs.Block.{block_by, numbers_of};
ghost use Rattle.nv_alloc.specs.FreeList.{AreListsOf, free_blocks, with_home, without};
ghost use Rattle.nv_alloc.specs.Numbers.{has};

use crate::{Block, FreeList};
use nv_base::{BlockNo, Geometry};

/// Takes the block of a number out of the list of its home, where it is free. The time is the same at any number of
/// blocks, and no memory is taken.
pub fn take_from_home(
    lists: &mut Vec<FreeList>,
    geometry: &Geometry,
    number: BlockNo,
) -> Option<Block>
    requires { AreListsOf geometry.now.numbers lists.old.items }
    // A free block is taken by its number; else none.
    // A number past the device is in no list; each list stays that of its CPU.
    ensures block { result ≡ block_by (free_blocks lists.old.items) number }
    ensures lists { lists.new.items ≡ map (without number) lists.old.items }
    ensures still { AreListsOf geometry.now.numbers lists.new.items }
{
    if number.number() >= geometry.numbers.blocks {
        return None;
    }
    let home = geometry.home_of(number) as usize;
    let list = &mut lists[home];
    list.remove(number)
}

/// Gives a block that no list has to the list of its home. The time is the same, and no memory is taken.
pub fn give_home(lists: &mut Vec<FreeList>, geometry: &Geometry, block: Block)
    // A block goes into the list of its home, in its place.
    requires lists { AreListsOf geometry.now.numbers lists.old.items }
    // Callers give a block of the device that no list has.
    requires device { block.number < geometry.now.numbers.blocks }
    requires absent { has (numbers_of (free_blocks lists.old.items)) block.number ≡ false }
    requires sized { length block.bytes ≡ geometry.now.numbers.block }
    ensures lists { lists.new.items ≡ map (with_home block) lists.old.items }
    ensures still { AreListsOf geometry.now.numbers lists.new.items }
{
    let home = geometry.home_of(block.number()) as usize;
    let list = &mut lists[home];
    list.put(block);
}
