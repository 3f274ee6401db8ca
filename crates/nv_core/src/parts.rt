//! How a world comes apart, and how parts become one.

ghost use Rattle.std.specs.Prelude.{◌≡◌, ◌⊎◌, List, IfErr, IfOk, None, OnOk, length};
ghost use Rattle.std.specs.List.{list_any};
ghost use Rattle.nv_audit.specs.AtRest.{IsOneBook};
ghost use Rattle.nv_base.specs.Memory.{out_of_memory};
ghost use Rattle.nv_base.specs.declared.fault.Fault.TheVariants.{ActorBusy};
ghost use Rattle.nv_book.specs.declared.record.Record.{Record as RecordValue};
ghost use Rattle.nv_machine.specs.Starts.{IsStart};
ghost use Rattle.nv_machine.specs.World as machine;
ghost use Rattle.nv_restart.specs.Stops.{MayStop};
ghost use Rattle.nv_core.specs.AtRest.{AreJudged, IsBusy, IsMismatchOf, at_rest, has_call, parts_of};
ghost use Rattle.nv_core.specs.Stops.{IsBeside};
ghost use Rattle.nv_core.specs.Worlds.{Shows};

use crate::World;
use crate::beside::Beside;
use crate::shared::Shared;
use crate::world::Actor;
use nv_audit::rest_differs;
use nv_base::{Fault, Geometry, Items};
use nv_book::Book;
use nv_parts::Parts;
use std::alloc::Global;

impl World {
    /// Takes the world apart, where no actor has a call: they are the parts of a world at rest, and [`World::from_parts`]
    /// finds none that differs. Else the world comes back by `ActorBusy`, as it was. Takes no memory.
    pub fn into_parts(self) -> Result<Parts, (Fault, World)>
        // Where no actor has a call, the parts are the very cells, lists, pool and book of the world.
        ensures ok { IfOk result (λ parts. parts ≡ parts_of self.shared) }
        // Such a world was at rest: no lock held, every hand empty.
        // `ActorBusy` exactly where an actor has a call.
        ensures rest { (m : machine.World) → Shows self m
            → IfOk result (λ parts. m ≡ at_rest parts) }
        ensures judged { IfOk result (λ parts. AreJudged parts) }
        ensures err { (m : machine.World) → Shows self m
            → IfErr result (λ refused. (refused.0 ≡ ActorBusy) × IsBusy m) }
        // A world that is refused comes back as it was.
        ensures same { IfErr result (λ refused. refused.1 ≡ self) }
    {
        if has_call(&self.actors) {
            return Err((Fault::ActorBusy, self));
        }
        let parts = self.into_shared().into_parts();
        book_holds_together(&parts.book);
        Ok(parts)
    }
}

impl Shared {
    /// The parts, without their locks.
    fn into_parts(self) -> Parts
        ensures { result ≡ parts_of self }
    {
        let Shared {
            geometry,
            lists,
            pool,
            cells,
            owners: _,
            book,
            holder: _,
        } = self;
        Parts {
            geometry,
            cells: Items::from_vec(cells),
            lists: Items::from_vec(lists),
            pool,
            book,
        }
    }

    /// What actors share, of these parts, where nobody holds the commit lock.
    fn of_parts(parts: Parts, owners: Vec<Option<u64>>) -> Shared
        ensures parts { parts_of result ≡ parts }
        ensures owners { result.owners ≡ owners }
        ensures holder { result.holder ≡ None }
    {
        let (geometry, cells, lists, pool, book) = parts.into_fields();
        Shared {
            geometry,
            lists: lists.into_vec(),
            pool,
            cells: cells.into_vec(),
            owners,
            book,
            holder: None,
        }
    }
}

impl World {
    /// Makes a world of these parts, in which no actor has a call.
    ///
    /// `Mismatch` with the first part that differs from those of a world at rest: inode by inode the index, the names and
    /// the counts, then the names of all directories, the records and the lists. `OutOfMemory` where room was refused, that
    /// of the actors before anything is judged. Parts at rest, as [`World::into_parts`] gives them, never differ. The very
    /// parts come back. It costs what [`nv_audit::rest_differs`] does.
    pub fn from_parts(alloc: Global, parts: Parts) -> Result<World, (Fault, Parts)>
        // What comes of parts is a world at rest with these parts, so each law holds of it from there on.
        // A world of parts goes on as the one that it was.
        ensures ok { IfOk result (λ world. Shows world (at_rest parts)) }
        ensures parts { IfOk result (λ world. parts_of world.shared ≡ parts) }
        // Only parts that are at rest become a world.
        ensures judged { OnOk result (AreJudged parts) }
        // `Mismatch` names the first part that differs; else memory was refused.
        ensures err { IfErr result (λ refused.
            (refused.0 ≡ out_of_memory) ⊎ IsMismatchOf parts refused.0) }
        ensures passes { AreJudged parts → IfErr result (λ refused. refused.0 ≡ out_of_memory) }
        // Parts that are refused come back as they were.
        ensures same { IfErr result (λ refused. refused.1 ≡ parts) }
    {
        let beside = match Beside::new(alloc, &parts.geometry, parts.cells.len()) {
            Ok(beside) => beside,
            Err(fault) => return Err((fault, parts)),
        };
        match judge(alloc, &parts) {
            Ok(()) => Ok(World::at_rest(alloc, parts, beside)),
            Err(fault) => {
                beside.dismantle();
                Err((fault, parts))
            }
        }
    }

    /// The world at rest of parts where a run may start and the machine may stop, with nobody's locks and actors without
    /// calls.
    pub(crate) fn at_rest(alloc: Global, parts: Parts, beside: Beside) -> World
        requires start { (records : List RecordValue)
            × IsStart parts.geometry.numbers (at_rest parts) records }
        requires may { MayStop parts.geometry.numbers.block (at_rest parts).shared }
        requires beside { IsBeside parts.geometry.numbers (length parts.cells) beside }
        ensures shows { Shows result (at_rest parts) }
        ensures parts { parts_of result.shared ≡ parts }
    {
        let Beside {
            owners,
            actors,
            room,
        } = beside;
        let shared = Shared::of_parts(parts, owners);
        World {
            alloc,
            shared,
            actors,
            room,
        }
    }
}

/// Whether these are the parts of a world at rest.
fn judge(alloc: Global, parts: &Parts) -> Result<(), Fault>
    ensures ok { OnOk result (AreJudged parts.now) }
    ensures err { IfErr result (λ fault.
        (fault ≡ out_of_memory) ⊎ IsMismatchOf parts.now fault) }
{
    let differs = rest_differs(
        alloc,
        &parts.geometry,
        parts.cells.as_slice(),
        parts.lists.as_slice(),
        &parts.pool,
        &parts.book,
    )?;
    match differs {
        Some(part) => Err(Fault::Mismatch(part)),
        None => Ok(()),
    }
}

/// What holds of each book.
fn book_holds_together(book: &Book)
    ensures { IsOneBook book.now.state }
{
    book.snaps().rises();
    book.keeps_its_limit();
}

/// Whether one of these actors has a call.
fn has_call(actors: &[Actor]) -> bool
    ensures { result ≡ list_any has_call actors.now }
{
    actors.iter().any(|actor| actor.running.is_some())
}
