//! A whole world against one scan of all its logs.

ghost use Rattle.std.specs.Prelude.{◌≡◌, ◌<◌, ◌≤◌, ◌++◌, ℕ, List, IfOk, OnOk, length, map, slice_index_or};
ghost use Rattle.std.specs.List.{flat_map};
ghost use Rattle.std.specs.VecDeque.Iter.{deque_iter_rest};
ghost use Rattle.nv_alloc.specs.Block.{numbers_of};
ghost use Rattle.nv_base.specs.Refusals.{FailsOnly};
ghost use Rattle.nv_base.specs.Memory.{out_of_memory};
ghost use Rattle.nv_audit.specs.Records.{inode_part};
ghost use Rattle.nv_machine.specs.Numbers.{held_in};
ghost use Rattle.nv_machine.specs.Reads.{slot_at};
ghost use Rattle.nv_machine.specs.World as machine;
ghost use Rattle.nv_core.specs.Audited.{HasPlans, blocks_by, device_of, killed_by_plans, killed_part, parts_by, picked_by};
ghost use Rattle.nv_core.specs.Consistent.{IsConsistentWorld};
ghost use Rattle.nv_core.specs.Rooms.{hand_held};
ghost use Rattle.nv_core.specs.Shown.{hand_of, slots_in};
ghost use Rattle.nv_core.specs.Worlds.{Shows};

use crate::World;
use crate::next::{Next, SnapshotOrCleanerStep};
use crate::reservation::Reservation;
use crate::world::Actor;
use nv_alloc::{Block, Hand};
use nv_audit::{Audited, InHands, InodePart};
use nv_base::{BlockNo, Fault, Ino};
use nv_book::Record;
use nv_calls::{Commit, LockedSlots};
use nv_cell::KilledPart;
use nv_entry::PartId;
use std::alloc::{AllocError, Global};
use std::collections::vec_deque;

impl World {
    /// Judges the world as it stands: each part against one scan of all logs, of the snapshots and of the hands. What it
    /// gives tells which device was judged, and that is this world's. No world differs, whatever events came: it can only
    /// want memory. And whatever it answers, the world is consistent ([`World::consistent`]). It costs what
    /// [`nv_audit::audit`] does.
    pub fn audit(&self) -> Result<Audited<'_>, Fault>
        // THE HEADLINE. Some events lead from a start of the machine to what this one shows, whatever came.
        // Which events is not told; `worlds_are_consistent` says the same of those that a caller follows from
        // `format`.
        // After these events everything holds that `worlds_are_consistent` says.
        // Its own body can't break that; the world's invariant refuses a step that does.
        // A commit that is stamped at its start breaks the world's invariant.
        // A retire that records before a birth breaks the world's invariant.
        ensures world { IsConsistentWorld self.now }
        // What it gives is this world as a judged device: no other, and not without a look.
        ensures judged { (m : machine.World) → Shows self.now m
            → IfOk result (λ audited. audited ≡ device_of m.numbers m) }
        // An audit finds nothing that differs: the only error is `OutOfMemory`.
        // An audit has all that hands have.
        // An audit judges by the logs, and not by what it judges.
        ensures answer { FailsOnly out_of_memory result }
    {
        self.consistent();
        self.judge()
    }

    /// What the audit finds.
    fn judge(&self) -> Result<Audited<'_>, Fault>
        ensures judged { (m : machine.World) → Shows self.now m
            → IfOk result (λ audited. audited ≡ device_of m.numbers m) }
        ensures answer { FailsOnly out_of_memory result }
    {
        let blocks = blocks_in_hands(self.alloc, &self.actors)?;
        let parts = parts_in_hands(self.alloc, &self.actors)?;
        let hands = InHands { blocks, parts };
        let shared = &self.shared;
        let book = &shared.book;
        nv_audit::audit(
            self.alloc,
            &shared.geometry,
            &shared.cells,
            &shared.lists,
            book,
            hands,
        )
    }
}

/// The numbers of the blocks in all hands.
fn blocks_in_hands(alloc: Global, actors: &[Actor]) -> Result<Vec<BlockNo>, AllocError>
    ensures { IfOk result (λ blocks. blocks.items ≡ flat_map blocks_by actors.now) }
{
    let mut blocks = Vec::new(alloc);
    for actor in actors {
        push_blocks(&mut blocks, hand_of(&actor.reserved))?;
    }
    Ok(blocks)
}

/// The hand, whoever has it.
pub(crate) fn hand_of(reserved: &Reservation) -> &Hand
    ensures { result.now ≡ hand_held reserved.now }
{
    match reserved {
        Reservation::Hand(hand) => hand,
        Reservation::Ready(ready) => ready.hand(),
        Reservation::Commit(commit) => commit.hand(),
    }
}

/// Puts the numbers of a hand's blocks to the end.
fn push_blocks(numbers: &mut Vec<BlockNo>, hand: &Hand) -> Result<(), AllocError>
    ensures { OnOk result (numbers.new.items
        ≡ numbers.old.items ++ held_in (hand_of hand.now)) }
{
    push_numbers(numbers, hand.data.iter())?;
    push_numbers(numbers, hand.pages.iter())?;
    push_numbers(numbers, hand.chain.iter())
}

/// Puts the numbers of blocks to the end.
fn push_numbers(
    numbers: &mut Vec<BlockNo>,
    blocks: vec_deque::Iter<'_, Block>,
) -> Result<(), AllocError>
    ensures { OnOk result (numbers.new.items
        ≡ numbers.old.items ++ numbers_of (deque_iter_rest blocks.entry)) }
{
    for block in blocks {
        numbers.push(block.number())?;
    }
    Ok(())
}

/// The parts in all hands: those that are killed and not yet retired, and those of records that drains have picked and
/// not yet released.
fn parts_in_hands(alloc: Global, actors: &[Actor]) -> Result<Vec<InodePart>, AllocError>
    requires { (k : ℕ) (d : Actor) → k < length actors.now
        → HasPlans (slice_index_or actors.now k d).reserved }
    ensures { IfOk result (λ parts. parts.items ≡ flat_map parts_by actors.now) }
{
    let mut parts = Vec::new(alloc);
    for actor in actors {
        push_parts(&mut parts, actor)?;
    }
    Ok(parts)
}

/// Puts those of one actor to the end.
fn push_parts(parts: &mut Vec<InodePart>, actor: &Actor) -> Result<(), AllocError>
    requires { HasPlans actor.now.reserved }
    ensures { OnOk result (parts.new.items ≡ parts.old.items ++ parts_by actor.now) }
{
    match (&actor.reserved, &actor.running) {
        (Reservation::Hand(_), Some(running)) => push_picked(parts, &running.next),
        (Reservation::Commit(commit), Some(running)) => push_killed(parts, &running.slots, commit),
        _ => Ok(()),
    }
}

/// Puts the part of a record that a drain has picked to the end.
fn push_picked(parts: &mut Vec<InodePart>, next: &Next) -> Result<(), AllocError>
    ensures { OnOk result (parts.new.items ≡ parts.old.items ++ picked_by next.now) }
{
    match next {
        Next::SnapshotOrCleaner(
            SnapshotOrCleanerStep::LockPicked(_, picked)
            | SnapshotOrCleanerStep::Release(_, picked),
        ) => {
            parts.push(part_of(picked))?;
            Ok(())
        }
        _ => Ok(()),
    }
}

/// The part of a record.
fn part_of(picked: &Record) -> InodePart
    ensures { result ≡ inode_part picked.now }
{
    InodePart {
        ino: picked.ino,
        part: PartId {
            entry: picked.entry,
            part: picked.part,
        },
    }
}

/// Puts the parts that the publishes of a commit have killed to the end, of those inodes that aren't retired yet.
fn push_killed(
    parts: &mut Vec<InodePart>,
    slots: &LockedSlots,
    commit: &Commit,
) -> Result<(), AllocError>
    requires { commit.now.published ≤ length commit.now.plans }
    ensures { OnOk result (parts.new.items ≡ parts.old.items
        ++ killed_by_plans (slots_in slots.now) commit.now) }
{
    for j in commit.retired()..commit.published() {
        let ino = slot_at(slots, commit.place_of(j));
        push_killed_of(parts, ino, commit.killed_of(j))?;
    }
    Ok(())
}

/// The slot of a plan's cell, by its place among the slots of the call.
fn slot_at(slots: &LockedSlots, place: usize) -> Ino
    ensures { result ≡ slot_at (slots_in slots.now) place }
{
    match slots.as_slice().get(place) {
        Some(ino) => *ino,
        None => Ino::new(0),
    }
}

/// Puts the killed parts of one inode to the end.
fn push_killed_of(
    parts: &mut Vec<InodePart>,
    ino: Ino,
    killed: &[KilledPart],
) -> Result<(), AllocError>
    ensures { OnOk result (parts.new.items
        ≡ parts.old.items ++ map (killed_part ino) killed.now) }
{
    for dead in killed {
        parts.push(InodePart {
            ino,
            part: dead.part,
        })?;
    }
    Ok(())
}
