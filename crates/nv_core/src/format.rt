//! A world that was just made.

ghost use Rattle.std.specs.Prelude.{◌≡◌, ◌∷◌, ◌<◌, [], IfOk, OnOk, length, map, replicate};
ghost use Rattle.std.specs.List.{range_with_len};
ghost use Rattle.nv_base.specs.Refusals.{FailsOnly};
ghost use Rattle.nv_base.specs.Memory.{out_of_memory};
ghost use Rattle.nv_machine.specs.Format.{formatted, full_list};
ghost use Rattle.nv_core.specs.Formats.{idle_actor, new_cell, rootless};
ghost use Rattle.nv_core.specs.Shown.{shared_of};
ghost use Rattle.nv_core.specs.Stops.{HasImageRoom};
ghost use Rattle.nv_core.specs.Worlds.{Shows};

use crate::World;
use crate::image_room::ImageRoom;
use crate::reservation::Reservation;
use crate::shared::Shared;
use crate::world::{Actor, dismantle};
use nv_alloc::{Block, BlockQueue, FreeList, Hand, InodePool};
use nv_base::{Epoch, Fault, Gen, Geometry, Kind, Mode};
use nv_book::Book;
use nv_cell::InodeCell;
use std::alloc::Global;

impl World {
    /// An empty world: the root alone, a directory of mode 493 (octal 755). The only error is `OutOfMemory`.
    pub fn format(alloc: Global, geometry: Geometry) -> Result<World, Fault>
        // A new world is the machine's new one.
        // A new world has the root alone, a directory of mode 493.
        // The root's log page is the lowest block, and no lock is held in a new world.
        ensures ok { IfOk result (λ world. Shows world (formatted geometry.numbers)) }
        // A new world has the geometry that was asked for; the only error is `OutOfMemory`.
        ensures geometry { IfOk result (λ world. world.shared.geometry ≡ geometry) }
        ensures err { FailsOnly out_of_memory result }
    {
        let pool = InodePool::new(alloc, &geometry)?;
        let book = Book::new(alloc, &geometry)?;
        let owners = vec![in alloc; None; geometry.numbers.inodes as usize]?;
        let mut shared = Shared {
            geometry,
            lists: Vec::new(alloc),
            pool,
            cells: Vec::new(alloc),
            owners,
            book,
            holder: None,
        };
        let mut actors = Vec::new(alloc);
        match add_all(alloc, &mut shared, &mut actors) {
            Ok(room) => Ok(World {
                alloc,
                shared,
                actors,
                room,
            }),
            Err(fault) => {
                shared.dismantle();
                dismantle(actors);
                Err(fault)
            }
        }
    }
}

/// Puts lists, cells and actors where there are none, and the root, and makes room for the image of the world.
fn add_all(alloc: Global, shared: &mut Shared, actors: &mut Vec<Actor>) -> Result<ImageRoom, Fault>
    requires lists { shared.old.lists.items ≡ [] }
    requires pool { shared.old.pool ≡ (rootless shared.old.geometry.numbers).pool }
    requires cells { shared.old.cells.items ≡ [] }
    requires owners { shared.old.owners.items ≡ (rootless shared.old.geometry.numbers).owners }
    requires book { shared.old.book.state ≡ (rootless shared.old.geometry.numbers).book }
    requires holder { shared.old.holder ≡ None }
    requires actors { actors.old.items ≡ [] }
    ensures shared { OnOk result
        (shared_of shared.new ≡ (formatted shared.old.geometry.numbers).shared) }
    ensures actors { OnOk result (actors.new.items
        ≡ replicate shared.old.geometry.numbers.actors (idle_actor shared.old.geometry.numbers)) }
    ensures room { IfOk result (HasImageRoom shared.old.geometry.numbers) }
    ensures geometry { shared.new.geometry ≡ shared.old.geometry }
    ensures err { FailsOnly out_of_memory result }
{
    let geometry = shared.geometry;
    add_parts(alloc, shared, actors)?;
    ImageRoom::new(alloc, &geometry)
}

/// Puts lists, cells and actors where there are none, and the root.
fn add_parts(alloc: Global, shared: &mut Shared, actors: &mut Vec<Actor>) -> Result<(), Fault>
    requires lists { shared.old.lists.items ≡ [] }
    requires pool { shared.old.pool ≡ (rootless shared.old.geometry.numbers).pool }
    requires cells { shared.old.cells.items ≡ [] }
    requires owners { shared.old.owners.items ≡ (rootless shared.old.geometry.numbers).owners }
    requires book { shared.old.book.state ≡ (rootless shared.old.geometry.numbers).book }
    requires holder { shared.old.holder ≡ None }
    requires actors { actors.old.items ≡ [] }
    ensures shared { OnOk result
        (shared_of shared.new ≡ (formatted shared.old.geometry.numbers).shared) }
    ensures actors { OnOk result (actors.new.items
        ≡ replicate shared.old.geometry.numbers.actors (idle_actor shared.old.geometry.numbers)) }
    ensures geometry { shared.new.geometry ≡ shared.old.geometry }
    ensures err { FailsOnly out_of_memory result }
{
    let geometry = shared.geometry;
    add_lists(alloc, &geometry, &mut shared.lists)?;
    add_cells(alloc, &geometry, &mut shared.cells)?;
    add_actors(alloc, &geometry, actors)?;
    make_root(alloc, shared)
}

/// The free list of each CPU.
fn add_lists(alloc: Global, geometry: &Geometry, lists: &mut Vec<FreeList>) -> Result<(), Fault>
    requires { lists.old.items ≡ [] }
    ensures ok { OnOk result (lists.new.items
        ≡ map (full_list geometry.now.numbers) (range_with_len 0 geometry.now.numbers.cpus)) }
    ensures err { FailsOnly out_of_memory result }
{
    let cpus = geometry.numbers.cpus;
    lists.reserve(cpus as usize)?;
    for cpu in 0..cpus {
        let list = FreeList::new(alloc, geometry, cpu)?;
        lists.push_reserved(list);
    }
    Ok(())
}

/// An empty cell for each slot.
fn add_cells(alloc: Global, geometry: &Geometry, cells: &mut Vec<InodeCell>) -> Result<(), Fault>
    requires { cells.old.items ≡ [] }
    ensures ok { OnOk result (cells.new.items
        ≡ replicate geometry.now.numbers.inodes (new_cell geometry.now.numbers)) }
    ensures err { FailsOnly out_of_memory result }
{
    let numbers = geometry.numbers;
    cells.reserve(numbers.inodes as usize)?;
    for _slot in 0..numbers.inodes {
        let page = numbers.page as usize;
        cells.push_reserved(InodeCell::new(alloc, numbers.block, page, Gen::new(1), 0));
    }
    Ok(())
}

/// The actors of a device, which have no calls. The only error is `OutOfMemory`.
pub(crate) fn idle_actors(alloc: Global, geometry: &Geometry) -> Result<Vec<Actor>, Fault>
    ensures ok { IfOk result (λ actors. actors.items
        ≡ replicate geometry.now.numbers.actors (idle_actor geometry.now.numbers)) }
    ensures err { FailsOnly out_of_memory result }
{
    let mut actors = Vec::new(alloc);
    match add_actors(alloc, geometry, &mut actors) {
        Ok(()) => Ok(actors),
        Err(fault) => {
            dismantle(actors);
            Err(fault)
        }
    }
}

/// The actors, which have no calls.
fn add_actors(alloc: Global, geometry: &Geometry, actors: &mut Vec<Actor>) -> Result<(), Fault>
    requires { actors.old.items ≡ [] }
    ensures ok { OnOk result (actors.new.items
        ≡ replicate geometry.now.numbers.actors (idle_actor geometry.now.numbers)) }
    ensures err { FailsOnly out_of_memory result }
{
    let count = geometry.numbers.actors;
    actors.reserve(count as usize)?;
    for _actor in 0..count {
        let reserved = Reservation::Hand(Hand::new(alloc, geometry));
        let running = None;
        actors.push_reserved(Actor { reserved, running });
    }
    Ok(())
}

/// The root: the lowest number, with the lowest block as its log page.
fn make_root(alloc: Global, shared: &mut Shared) -> Result<(), Fault>
    requires { shared_of shared.old ≡ rootless shared.old.geometry.numbers }
    ensures ok { OnOk result
        (shared_of shared.new ≡ (formatted shared.old.geometry.numbers).shared) }
    ensures geometry { shared.new.geometry ≡ shared.old.geometry }
    ensures err { FailsOnly out_of_memory result }
{
    let page = first_block(alloc, &mut shared.lists[0])?;
    let _number = shared.pool.take();
    let mode = Mode::checked(493).unwrap();
    match shared.cells[0].found(Kind::Dir, mode, Epoch::new(1), page) {
        Ok(()) => Ok(()),
        Err((fault, page)) => {
            let _ = page.into_bytes();
            Err(fault)
        }
    }
}

/// Takes the lowest block of a list that has some.
fn first_block(alloc: Global, list: &mut FreeList) -> Result<Block, Fault>
    requires { 0 < length list.old.blocks }
    ensures ok { IfOk result (λ block. list.old.blocks ≡ block ∷ list.new.blocks) }
    ensures rest { list.new ≡ record list.old { blocks = list.new.blocks } }
    ensures sized { IfOk result (λ block. length block.bytes ≡ list.old.size) }
    ensures err { FailsOnly out_of_memory result }
{
    let mut queue = BlockQueue::new(alloc, list.block_bytes());
    if let Err(fault) = queue.reserve(1) {
        queue.dismantle();
        return Err(fault);
    }
    let _taken = list.take(1, &mut queue);
    let block = queue.take_next();
    queue.dismantle();
    match block {
        Some(block) => Ok(block),
        None => unreachable!(),
    }
}
