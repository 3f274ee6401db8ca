//! The machine stops, and goes on from what stands.

ghost use Rattle.std.specs.Prelude.{◌≡◌, ℕ, List, IfOk, None, length, map, option_to_list, replicate, take};
ghost use Rattle.std.specs.List.{flat_map};
ghost use Rattle.nv_alloc.specs.Block.{zeroed};
ghost use Rattle.nv_alloc.specs.Hand.{blocks_of};
ghost use Rattle.nv_audit.specs.Image.{ImageValue};
ghost use Rattle.nv_base.specs.Memory.{out_of_memory};
ghost use Rattle.nv_base.specs.Refusals.{FailsOnly};
ghost use Rattle.nv_machine.specs.World as machine;
ghost use Rattle.nv_mount.specs.Build.{AreGivenHome, CanAllGoHome};
ghost use Rattle.nv_mount.specs.Mount.{IsBuilt};
ghost use Rattle.nv_mount.specs.View.{ViewValue, slot_in};
ghost use Rattle.nv_restart.specs.Mounted.{mounted};
ghost use Rattle.nv_core.specs.Formats.{idle_actor};
ghost use Rattle.nv_core.specs.Restarts.{CanLeave, CanPutAll, HasLeft, IsPlanned, IsRebuilt, blocks_past, cleared, held, image_by, shown_cell, view_of};
ghost use Rattle.nv_core.specs.Rooms.{hand_held};
ghost use Rattle.nv_core.specs.Worlds.{IsStep, Shows};

use crate::reservation::Reservation;
use crate::shared::Shared;
use crate::world::{Actor, World};
use crate::{Event, Reply};
use nv_alloc::{Block, FreeList, Hand, give_home};
use nv_audit::living;
use nv_base::{Fault, Geometry};
use nv_cell::{BareCell, InodeCell};
use nv_mount::{Plan, SlotView, View, give_all, give_queue};
use std::alloc::{AllocError, Global};
use std::collections::VecDeque;
use std::mem;

impl World {
    /// The machine stops, wherever its calls stand, and goes on from what stands: [`Event::Stop`]. Each call that is past
    /// its commit point is wholly there then, and no other has left anything. No actor has a call, no lock is held, no
    /// snapshot is pinned and nothing is deferred.
    ///
    /// `Stopped`; or refused by `OutOfMemory`, where nothing has changed. It costs what [`World::mount`] does, without
    /// the judge.
    pub fn restart(&mut self) -> Reply
        // The stop of an event leads to what a mount makes of the image.
        // Where memory is refused nothing has changed.
        ensures { (m : machine.World) → Shows self.old m → IsStep m Event.Stop result self.new }
    {
        match self.plan_restart() {
            Ok(plan) => {
                self.rebuild(plan);
                Reply::Stopped
            }
            Err(fault) => Reply::Refused(fault),
        }
    }

    /// All that the stop takes memory for.
    fn plan_restart(&self) -> Result<Plan, Fault>
        ensures ok { IfOk result (IsPlanned self.now.shared) }
        ensures err { FailsOnly out_of_memory result }
    {
        self.stands();
        let shared = &self.shared;
        let book = &shared.book;
        let snapshots = living(self.alloc, book)?;
        let slots = seen_of(self.alloc, &shared.cells)?;
        let view = View {
            geometry: &shared.geometry,
            slots: slots.as_slice(),
            journals: book.journals(),
            snapshots: snapshots.as_slice(),
            epoch: book.epoch(),
            commit: book.commit(),
        };
        Plan::new(self.alloc, &view)
    }

    /// Goes on with the parts of a plan. Takes no memory.
    fn rebuild(&mut self, plan: Plan)
        requires { IsPlanned self.old.shared plan }
        ensures { Shows self.new (mounted (image_by self.old.shared)) }
    {
        let World {
            alloc,
            shared,
            actors,
            ..
        } = self;
        empty_hands(*alloc, &shared.geometry, actors, &mut shared.lists);
        shared.rebuild(*alloc, plan);
    }
}

impl Shared {
    /// The parts of a plan come in the place of those that are there, where all hands are empty.
    fn rebuild(&mut self, alloc: Global, plan: Plan)
        requires can { CanPutAll (image_by self.old) (view_of self.old) self.old.cells.items plan
            (map cleared self.old.lists.items) }
        requires wide { length self.old.owners.items ≡ self.old.geometry.numbers.inodes }
        ensures { IsRebuilt self.old self.new }
    {
        let mut plan = plan;
        clear_lists(&mut self.lists);
        let cells = mem::replace(&mut self.cells, Vec::new(alloc));
        put_cells(&self.geometry, cells, &mut plan, &mut self.lists);
        let (cells, pool, book) = plan.finish();
        mem::replace(&mut self.cells, cells).destroy_empty();
        self.pool = pool;
        self.book = book;
        free_owners(&mut self.owners);
        self.holder = None;
    }
}

/// Nobody holds a lock any more.
fn free_owners(owners: &mut Vec<Option<u64>>)
    ensures { owners.new.items ≡ replicate (length owners.old.items) None }
{
    for ino in 0..owners.len() {
        owners[ino] = None;
    }
}

/// What a plan reads of cells.
fn seen_of(alloc: Global, cells: &[InodeCell]) -> Result<Vec<SlotView<'_>>, AllocError>
    ensures { IfOk result (λ slots. slots.items ≡ map shown_cell cells.now) }
{
    let mut slots = Vec::with_capacity(alloc, cells.len())?;
    for cell in cells {
        slots.push_reserved(SlotView {
            generation: cell.generation(),
            chain: cell.log(),
        });
    }
    Ok(slots)
}

/// Ends the calls of all actors, and gives what they have in their hands home.
fn empty_hands(
    alloc: Global,
    geometry: &Geometry,
    actors: &mut Vec<Actor>,
    lists: &mut Vec<FreeList>,
)
    requires { CanAllGoHome geometry.now.numbers (flat_map held actors.old.items)
        lists.old.items }
    ensures idle { actors.new.items
        ≡ replicate (length actors.old.items) (idle_actor geometry.now.numbers) }
    ensures given { AreGivenHome geometry.now.numbers (flat_map held actors.old.items)
        lists.old.items lists.new.items }
{
    for k in 0..actors.len() {
        let hand = actors[k].stop(alloc, geometry);
        give_hand(geometry, lists, hand);
    }
}

impl Actor {
    /// Ends the actor's call, if it has one, and hands out what is in its hand.
    fn stop(&mut self, alloc: Global, geometry: &Geometry) -> Hand
        ensures hand { result ≡ hand_held self.old.reserved }
        ensures idle { self.new ≡ idle_actor geometry.now.numbers }
    {
        self.running = None;
        let empty = Reservation::Hand(Hand::new(alloc, geometry));
        mem::replace(&mut self.reserved, empty).into_hand()
    }
}

/// Gives the blocks of a hand home.
fn give_hand(geometry: &Geometry, lists: &mut Vec<FreeList>, hand: Hand)
    requires { CanAllGoHome geometry.now.numbers (blocks_of hand) lists.old.items }
    ensures { AreGivenHome geometry.now.numbers (blocks_of hand) lists.old.items
        lists.new.items }
{
    let mut hand = hand;
    give_queue(geometry, lists, &mut hand.data);
    give_queue(geometry, lists, &mut hand.pages);
    give_all(geometry, lists, hand.chain.take());
    hand.dismantle();
}

/// Writes 0 to all bytes of all free blocks.
fn clear_lists(lists: &mut Vec<FreeList>)
    ensures { lists.new.items ≡ map cleared lists.old.items }
{
    for cpu in 0..lists.len() {
        lists[cpu].clear();
    }
}

/// Makes the cells of a plan of what is left of the cells that are there.
fn put_cells(geometry: &Geometry, cells: Vec<InodeCell>, plan: &mut Plan, lists: &mut Vec<FreeList>)
    requires { (image : ImageValue) × (view : ViewValue)
        × (geometry.now.numbers ≡ image.numbers)
        × CanPutAll image view cells.items plan.old lists.old.items }
    ensures { (image : ImageValue) (view : ViewValue) → geometry.now.numbers ≡ image.numbers
        → CanPutAll image view cells.items plan.old lists.old.items
        → IsBuilt image plan.new lists.new.items }
{
    let mut cells = VecDeque::from_vec(cells);
    while let Some(cell) = cells.pop_front() {
        let bare = left_of(geometry, cell, lists);
        plan.put(bare, lists);
    }
    cells.destroy_empty();
}

/// What is left of a cell. The blocks of its parts that are not published go home, with 0 in all bytes.
fn left_of(geometry: &Geometry, cell: InodeCell, lists: &mut Vec<FreeList>) -> BareCell
    requires { (image : ImageValue) × (ino : ℕ) × (owed : List ℕ)
        × (geometry.now.numbers ≡ image.numbers)
        × CanLeave image ino owed cell.state lists.old.items }
    ensures { (image : ImageValue) (view : ViewValue) (ino : ℕ) (owed : List ℕ)
        → geometry.now.numbers ≡ image.numbers
        → CanLeave image ino owed cell.state lists.old.items
        → slot_in view ino ≡ shown_cell cell
        → HasLeft image view ino owed result lists.new.items }
{
    cell.holds_together();
    let published = cell.published_slots();
    let mut bare = cell.into_bare();
    give_past(geometry, lists, &mut bare.blocks, published);
    bare
}

/// Gives the blocks home that stand behind the first places, with 0 in all bytes.
fn give_past(
    geometry: &Geometry,
    lists: &mut Vec<FreeList>,
    places: &mut Vec<Option<Block>>,
    count: usize,
)
    requires { CanAllGoHome geometry.now.numbers (map zeroed (blocks_past count places.old.items))
        lists.old.items }
    ensures places { places.new.items ≡ take count places.old.items }
    ensures given { AreGivenHome geometry.now.numbers
        (map zeroed (blocks_past count places.old.items)) lists.old.items lists.new.items }
{
    while places.len() > count {
        let Some(place) = places.pop() else {
            unreachable!()
        };
        give_cleared(geometry, lists, place);
    }
}

/// Gives the block of a place home, if it has one, with 0 in all bytes.
fn give_cleared(geometry: &Geometry, lists: &mut Vec<FreeList>, place: Option<Block>)
    requires { CanAllGoHome geometry.now.numbers (map zeroed (option_to_list place))
        lists.old.items }
    ensures { AreGivenHome geometry.now.numbers (map zeroed (option_to_list place))
        lists.old.items lists.new.items }
{
    if let Some(block) = place {
        let mut block = block;
        block.clear();
        give_home(lists, geometry, block);
    }
}
