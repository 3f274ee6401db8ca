//! Blocks on their way home.

ghost use Rattle.std.specs.Prelude.{◌≡◌, ◌+◌, [], length, option_to_list};
ghost use Rattle.std.specs.List.{flat_map};
ghost use Rattle.nv_mount.specs.Build.{AreGivenHome, CanAllGoHome};

use nv_alloc::{Block, BlockQueue, FreeList, give_home};
use nv_base::Geometry;

/// Gives the blocks of all places home.
pub(crate) fn give_places(
    geometry: &Geometry,
    lists: &mut Vec<FreeList>,
    mut places: Vec<Option<Block>>,
)
    requires { CanAllGoHome geometry.now.numbers (flat_map option_to_list places.items)
        lists.old.items }
    ensures { AreGivenHome geometry.now.numbers (flat_map option_to_list places.items)
        lists.old.items lists.new.items }
{
    while let Some(place) = places.pop() {
        give_place(geometry, lists, place);
    }
    places.destroy_empty();
}

/// Gives the block of a place home, if it has one.
fn give_place(geometry: &Geometry, lists: &mut Vec<FreeList>, place: Option<Block>)
    requires { CanAllGoHome geometry.now.numbers (option_to_list place) lists.old.items }
    ensures { AreGivenHome geometry.now.numbers (option_to_list place) lists.old.items
        lists.new.items }
{
    if let Some(block) = place {
        give_home(lists, geometry, block);
    }
}

/// Gives all these blocks home.
pub fn give_all(geometry: &Geometry, lists: &mut Vec<FreeList>, mut blocks: Vec<Block>)
    requires { CanAllGoHome geometry.now.numbers blocks.items lists.old.items }
    ensures { AreGivenHome geometry.now.numbers blocks.items lists.old.items
        lists.new.items }
{
    while let Some(block) = blocks.pop() {
        give_home(lists, geometry, block);
    }
    blocks.destroy_empty();
}

/// Gives all blocks of a queue home.
pub fn give_queue(geometry: &Geometry, lists: &mut Vec<FreeList>, blocks: &mut BlockQueue)
    requires { CanAllGoHome geometry.now.numbers blocks.old.blocks lists.old.items }
    ensures given { AreGivenHome geometry.now.numbers blocks.old.blocks lists.old.items
        lists.new.items }
    ensures none { blocks.new ≡ record blocks.old {
      blocks = [];
      room = blocks.old.room + length blocks.old.blocks;
    } }
{
    while let Some(block) = blocks.take_next() {
        give_home(lists, geometry, block);
    }
}

/// Takes all lists apart with their blocks.
pub fn dismantle_lists(mut lists: Vec<FreeList>) {
    while let Some(list) = lists.pop() {
        list.dismantle();
    }
    lists.destroy_empty();
}
