//! A world that stops: what stands of it.

ghost use Rattle.std.specs.Prelude.{◌≡◌, ◌+◌, ◌≤◌, ◌++◌, [], length, map, take, vec_capacity, vec_len};
ghost use Rattle.nv_audit.specs.Faults.{IsFaultless};
ghost use Rattle.nv_audit.specs.Records.{states_of};
ghost use Rattle.nv_epoch.specs.SnapList.{ids};
ghost use Rattle.nv_machine.specs.World as machine;
ghost use Rattle.nv_restart.specs.Restarted.{image_of, slot_image};
ghost use Rattle.nv_mount.specs.View.{IsSeen};
ghost use Rattle.nv_core.specs.Restarts.{image_by, view_of};
ghost use Rattle.nv_core.specs.Stops.{FitsRoom, HasImageRoom, world_of};
ghost use Rattle.nv_core.specs.Worlds.{Shows};

use crate::World;
use crate::image_room::ImageRoom;
use crate::shared::Shared;
use nv_alloc::Block;
use nv_audit::{Image, SlotImage};
use nv_base::Epoch;
use nv_cell::InodeCell;
use nv_epoch::SnapList;
use nv_mount::{close_slot, dismantle_lists};
use std::collections::VecDeque;

impl World {
    /// Stops the world, wherever its calls stand, and gives what stands of it: each slot's generation, its log as it
    /// stands and the blocks of its published parts, the journals, the numbers of the living snapshots, the epoch and the
    /// number of the last commit. What is in hands, locks, pins, records and the deferred list are gone. The image has no
    /// fault, so that [`World::mount`] takes it.
    ///
    /// It takes no memory. The time is that of the blocks, entries and parts.
    pub fn stop(self) -> Image
        // A stop gives the image of the world, without memory.
        ensures image { (m : machine.World) → Shows self m → result ≡ image_of m }
        // The image has no fault.
        ensures faultless { IsFaultless result }
    {
        self.stands();
        let (shared, room) = self.into_stopped();
        shared.into_image(room)
    }

    /// A law: the image of this world has no fault, the lists of its image have room for it, and its cells show it.
    pub(crate) fn stands(&self)
        ensures faultless { IsFaultless (image_of (world_of self.now.shared)) }
        ensures fits { FitsRoom self.now.shared }
        ensures seen { IsSeen (image_by self.now.shared) (view_of self.now.shared) }
    {
        let _ = &self.shared;
    }
}

impl Shared {
    /// The image of what is shared, in these lists.
    fn into_image(self, room: ImageRoom) -> Image
        requires room { HasImageRoom self.geometry.numbers room }
        requires fits { FitsRoom self }
        ensures { result ≡ image_of (world_of self) }
    {
        let Shared {
            geometry,
            lists,
            pool: _,
            cells,
            owners: _,
            book,
            holder: _,
        } = self;
        let ImageRoom {
            mut slots,
            mut snapshots,
        } = room;
        dismantle_lists(lists);
        put_slots(cells, &mut slots);
        put_ids(book.snaps(), &mut snapshots);
        let epoch = book.epoch();
        let commit = book.commit();
        Image {
            geometry,
            slots,
            journals: book.into_journals(),
            snapshots,
            epoch,
            commit,
        }
    }
}

/// Puts the slots of all cells behind those that are there.
fn put_slots(cells: Vec<InodeCell>, slots: &mut Vec<SlotImage>)
    requires { vec_len slots.old + length cells.items ≤ vec_capacity slots.old }
    ensures { slots.new.items ≡ slots.old.items ++ map slot_image (states_of cells.items) }
{
    let mut cells = VecDeque::from_vec(cells);
    while let Some(cell) = cells.pop_front() {
        slots.push_reserved(slot_of(cell));
    }
    cells.destroy_empty();
}

/// The slot of a cell, without the blocks of parts that are not published.
fn slot_of(cell: InodeCell) -> SlotImage
    ensures { result ≡ slot_image cell.state }
{
    cell.holds_together();
    let published = cell.published_slots();
    let mut bare = cell.into_bare();
    cut_places(&mut bare.blocks, published);
    close_slot(bare)
}

/// Lets the blocks go that stand behind the first places.
fn cut_places(places: &mut Vec<Option<Block>>, count: usize)
    ensures { places.new.items ≡ take count places.old.items }
{
    while places.len() > count {
        match places.pop() {
            Some(Some(block)) => {
                let _ = block.into_bytes();
            }
            Some(None) | None => {}
        }
    }
}

/// Puts the numbers of the living snapshots behind those that are there.
fn put_ids(snaps: &SnapList, snapshots: &mut Vec<Epoch>)
    requires { vec_len snapshots.old + length (ids snaps.now) ≤ vec_capacity snapshots.old }
    ensures { snapshots.new.items ≡ snapshots.old.items ++ ids snaps.now }
{
    for snapshot in snaps.snapshots() {
        snapshots.push_reserved(snapshot.number);
    }
}
