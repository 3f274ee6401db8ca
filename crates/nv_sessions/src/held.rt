//! The places of a call's cells: locked by rising number, and given back.

ghost use Rattle.std.specs.Prelude.{◌≡◌, ◌≢◌, ◌+◌, ◌++◌, ◌∷◌, ◌<◌, ◌≤◌, ℕ, List, [], OnErr, OnOk, Option, length, slice_index, take, vec_capacity, vec_len};
ghost use Rattle.std.specs.List.{AllByRecursion, AllPairs};
ghost use Rattle.std.specs.Sync.RwLock.{write_guard_value};
ghost use Rattle.core.specs.declared.rw.RwLockWriteGuard.{RwLockWriteGuard as Guard};
ghost use Rattle.nv_base.specs.Refusals.{FailsEither};
ghost use Rattle.nv_base.specs.declared.fault.Fault.TheVariants as fault;
ghost use Rattle.nv_base.specs.declared.fault.MismatchPart.TheVariants as part;
ghost use Rattle.nv_cell.specs.Cell.{block_total};
ghost use Rattle.nv_sessions.specs.Changing.{blocks_in};
ghost use Rattle.nv_sessions.specs.Locked.{IsThere, LockedValue, version_at};
ghost use Rattle.nv_sessions.specs.Taken.{ArePlaces, GoesBack, IsNext, IsRoom, IsStill, IsTaken, empty_place, inos_of, pairs, taken_at};
ghost use Rattle.nv_sessions.specs.declared.cell_list.TakenCell.{TakenCell};

use crate::cell::LockedCell;
use crate::cell_list::{CellList, TakenCell};
use crate::guards::hold;
use crate::locked_parts::LockedParts;
use crate::names::{Blocks, Commits};
use crate::passes::Fresh;
use crate::seen_versions::SeenVersions;
use nv_base::{Fault, Ino};
use smallvec::SmallVec;
use std::alloc::Global;
use std::sync::ledger::Share;
use std::sync::{RwLockWriteGuard, Wait};

/// The guards of places whose cells a call has: nobody gets their locks meanwhile.
#[derive(Drop)]
pub(crate) struct PlaceGuards<'a, C: Commits, B: Blocks> {
    guards: SmallVec<Option<RwLockWriteGuard<'a, LockedCell<C, B>>>, 4>,
    // There is room for the guards of a call.
    ghost wide: { 4 ≤ guards.capacity },
}

impl<'a, C: Commits, B: Blocks> PlaceGuards<'a, C, B> {
    /// None. Takes no memory.
    pub(crate) fn none(alloc: Global) -> PlaceGuards<'a, C, B>
        ensures { ArePlaces result.guards.items [] }
    {
        PlaceGuards {
            guards: SmallVec::new(alloc),
        }
    }

    /// Locks the places of these inodes, which rise, and takes their cells out, up to the first that can't be. Their blocks
    /// come to the share.
    ///
    /// `Stale` where there is no such slot, and `Mismatch` of `Lists` where another inode's place lies there, or an empty one.
    pub(crate) fn take_all<R: Wait>(
        &mut self,
        rt: &R,
        service: &'a LockedParts<C, B>,
        notes: &mut SeenVersions<C>,
        mine: &mut Share<B>,
        slots: &[Ino],
        list: &mut CellList,
    ) -> Result<(), Fault>
        requires few { length slots.now ≤ 4 }
        requires none { ArePlaces self.old.guards.items [] }
        requires list { IsRoom list.old }
        requires part { 0 < mine.old.parts }
        // Each guard is that of the place of the cell at its place in the list.
        ensures places { ArePlaces self.new.guards.items list.new.cells.items }
        // Places are locked in the order of the slots, which is by rising number.
        ensures inos { inos_of list.new.cells.items ≡ take (vec_len list.new.cells) slots.now }
        ensures all { OnOk result (vec_len list.new.cells ≡ length slots.now) }
        ensures some { vec_len list.new.cells ≤ length slots.now }
        ensures taken { AllByRecursion (IsTaken C.opened notes.old) list.new.cells.items }
        ensures notes { notes.new ≡ notes.old }
        ensures parts { mine.new.parts ≡ mine.old.parts }
        ensures amount { mine.new.amount
            ≡ mine.old.amount + blocks_in (pairs list.new.cells.items) }
        ensures room { vec_capacity list.new.cells ≡ vec_capacity list.old.cells }
        ensures err { FailsEither fault.Stale (fault.Mismatch part.Lists) result }
    {
        for slot in slots {
            match self.take_next(rt, service, notes, mine, *slot, list) {
                Ok(()) => {}
                Err(fault) => return Err(fault),
            }
        }
        Ok(())
    }

    /// Locks one place more, and takes its cell out.
    fn take_next<R: Wait>(
        &mut self,
        rt: &R,
        service: &'a LockedParts<C, B>,
        notes: &mut SeenVersions<C>,
        mine: &mut Share<B>,
        ino: Ino,
        list: &mut CellList,
    ) -> Result<(), Fault>
        requires few { vec_len list.old.cells < 4 }
        requires room { 4 ≤ vec_capacity list.old.cells }
        requires places { ArePlaces self.old.guards.items list.old.cells.items }
        requires part { 0 < mine.old.parts }
        ensures places { ArePlaces self.new.guards.items list.new.cells.items }
        ensures taken { OnOk result ((t : TakenCell)
            × (list.new.cells.items ≡ list.old.cells.items ++ t ∷ []) × (t.ino ≡ ino)
            × IsTaken C.opened notes.old t
            × (mine.new.amount ≡ mine.old.amount + block_total t.cell.state)) }
        ensures same { OnErr result ((list.new ≡ list.old) × (mine.new.amount ≡ mine.old.amount)) }
        ensures notes { notes.new ≡ notes.old }
        ensures parts { mine.new.parts ≡ mine.old.parts }
        ensures room { vec_capacity list.new.cells ≡ vec_capacity list.old.cells }
        ensures err { FailsEither fault.Stale (fault.Mismatch part.Lists) result }
    {
        match hold(rt, service, ino) {
            Ok(guard) => {
                let (guard, taken) = take_out(rt, &service.fresh, notes, mine, guard);
                self.add(guard, taken, list);
                Ok(())
            }
            Err(fault) => Err(fault),
        }
    }

    /// Keeps a cell that is out of its place, with the guard of that.
    fn add(
        &mut self,
        guard: RwLockWriteGuard<'a, LockedCell<C, B>>,
        taken: TakenCell,
        list: &mut CellList,
    )
        requires place { write_guard_value guard ≡ empty_place taken }
        requires few { vec_len list.old.cells < 4 }
        requires room { 4 ≤ vec_capacity list.old.cells }
        requires places { ArePlaces self.old.guards.items list.old.cells.items }
        ensures places { ArePlaces self.new.guards.items list.new.cells.items }
        ensures cells { list.new.cells.items ≡ list.old.cells.items ++ taken ∷ [] }
        ensures room { vec_capacity list.new.cells ≡ vec_capacity list.old.cells }
    {
        list.push(taken);
        self.guards.push_reserved(Some(guard));
    }

    /// The last guard, if there is one.
    fn pop(&mut self) -> Option<RwLockWriteGuard<'a, LockedCell<C, B>>>
        ensures { (front : List (Option (Guard LockedValue))) (last : Option (Guard LockedValue))
            → self.old.guards.items ≡ front ++ last ∷ []
            → (self.new.guards.items ≡ front) × (result ≡ last) }
    {
        self.guards.pop()?
    }

    /// Puts all cells back into their places, the last one first, and unlocks these. Where a commit raised a version, the
    /// pass follows it, and the notes have then seen it.
    pub(crate) fn put_all<R: Wait>(
        &mut self,
        rt: &R,
        fresh: &Fresh<C>,
        notes: &mut SeenVersions<C>,
        mine: &mut Share<B>,
        list: &mut CellList,
    )
        requires places { ArePlaces self.old.guards.items list.old.cells.items }
        requires rising { AllPairs (λ a b. a < b) (inos_of list.old.cells.items) }
        requires back { (k : ℕ) → k < vec_len list.old.cells
            → GoesBack C.opened notes.old (taken_at list.old.cells.items k) }
        requires part { 0 < mine.old.parts }
        requires enough { blocks_in (pairs list.old.cells.items) ≤ mine.old.amount }
        ensures none { list.new.cells.items ≡ [] }
        ensures room { vec_capacity list.new.cells ≡ vec_capacity list.old.cells }
        ensures parts { mine.new.parts ≡ mine.old.parts }
        ensures amount { mine.new.amount + blocks_in (pairs list.old.cells.items)
            ≡ mine.old.amount }
        // A session has seen a higher version of each inode that its commit raised, and nothing else.
        ensures higher { (k : ℕ) → k < vec_len list.old.cells
            → IsNext (taken_at list.old.cells.items k)
            → slice_index notes.old (taken_at list.old.cells.items k).ino
            < slice_index notes.new (taken_at list.old.cells.items k).ino }
        ensures still { ((k : ℕ) → k < vec_len list.old.cells
            → IsStill (taken_at list.old.cells.items k)) → notes.new ≡ notes.old }
        ensures kept { (i : ℕ) → slice_index notes.old i ≤ slice_index notes.new i }
    {
        match list.pop() {
            None => {}
            Some(taken) => {
                let Some(guard) = self.pop() else {
                    unreachable!()
                };
                put_back(rt, fresh, notes, mine, guard, taken);
                self.put_all(rt, fresh, notes, mine, list);
            }
        }
    }
}

/// Takes the cell out of a place that is locked, with the share of its blocks.
fn take_out<'a, C: Commits, B: Blocks, R: Wait>(
    rt: &R,
    fresh: &Fresh<C>,
    notes: &mut SeenVersions<C>,
    mine: &mut Share<B>,
    mut guard: RwLockWriteGuard<'a, LockedCell<C, B>>,
) -> (RwLockWriteGuard<'a, LockedCell<C, B>>, TakenCell)
    requires there { IsThere (write_guard_value guard) }
    requires part { 0 < mine.old.parts }
    ensures place { write_guard_value result.0 ≡ empty_place result.1 }
    ensures ino { result.1.ino ≡ (write_guard_value guard.entry).ino }
    ensures taken { IsTaken C.opened notes.old result.1 }
    ensures notes { notes.new ≡ notes.old }
    ensures parts { mine.new.parts ≡ mine.old.parts }
    ensures amount { mine.new.amount ≡ mine.old.amount + block_total result.1.cell.state }
{
    guard.check_seen(rt, fresh, notes);
    let ino = guard.ino();
    let cell = guard.take(mine);
    let before = cell.version();
    (guard, TakenCell { ino, before, cell })
}

/// Puts a cell back into its place, and unlocks it. Where a commit raised the version, the pass follows it, and the notes
/// have then seen it.
fn put_back<C: Commits, B: Blocks, R: Wait>(
    rt: &R,
    fresh: &Fresh<C>,
    notes: &mut SeenVersions<C>,
    mine: &mut Share<B>,
    mut guard: RwLockWriteGuard<'_, LockedCell<C, B>>,
    taken: TakenCell,
)
    requires place { write_guard_value guard ≡ empty_place taken }
    requires back { GoesBack C.opened notes.old taken }
    requires part { 0 < mine.old.parts }
    requires enough { block_total taken.cell.state ≤ mine.old.amount }
    ensures parts { mine.new.parts ≡ mine.old.parts }
    ensures amount { mine.new.amount + block_total taken.cell.state ≡ mine.old.amount }
    ensures higher { IsNext taken
        → slice_index notes.old taken.ino < slice_index notes.new taken.ino }
    ensures still { IsStill taken → notes.new ≡ notes.old }
    ensures elsewhere { (i : ℕ) → i ≢ taken.ino
        → slice_index notes.new i ≡ slice_index notes.old i }
    ensures kept { (i : ℕ) → slice_index notes.old i ≤ slice_index notes.new i }
{
    let TakenCell {
        ino: _,
        before,
        cell,
    } = taken;
    let version = cell.version();
    if version == before {
        guard.put(cell, mine);
        return;
    }
    guard.raise(rt, fresh, version);
    guard.put(cell, mine);
    guard.note_seen(fresh, notes);
}
