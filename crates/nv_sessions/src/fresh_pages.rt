//! Log pages for a cleaner, from the free lists.

ghost use Rattle.std.specs.Prelude.{◌≡◌, ◌+◌, ◌-◌, ◌<◌, ◌≤◌, ◌++◌, ℕ, IfOk, OnErr, OnOk, length, min, take};
ghost use Rattle.nv_alloc.specs.FreeList.{FreeBlocks, IsHomeList};
ghost use Rattle.nv_alloc.specs.Hand.{blocks_of};
ghost use Rattle.nv_base.specs.Refusals.{FailsEither, FailsOnly, IsRefusedBy};
ghost use Rattle.nv_base.specs.declared.fault.Fault.TheVariants as fault;
ghost use Rattle.nv_base.specs.declared.fault.MismatchPart.TheVariants as part;
ghost use Rattle.nv_cell.specs.Cell.{CellState};
ghost use Rattle.nv_machine.specs.Kinds.{asked_list};
ghost use Rattle.nv_machine.specs.World.{HandState, Running};
ghost use Rattle.nv_sessions.specs.Holding.{Holds, IsToldFresh, once_asked, once_fresh, wanting};
ghost use Rattle.nv_sessions.specs.SessionRuns.{IsBrokenOff};
ghost use Rattle.nv_steps.specs.Hands.{hand_of};
ghost use Rattle.nv_steps.specs.OnList.{IsTaking, IsTold, Taking, on_list, once_refused, taking_on, with_taken};
ghost use Rattle.nv_steps.specs.Runs.{Known};

use crate::list::LockedList;
use crate::locked_parts::LockedParts;
use crate::names::{Blocks, Commits};
use nv_alloc::{BlockQueue, Hand};
use nv_base::{Fault, Geometry, MismatchPart};
use nv_steps::Taken;
use std::sync::Wait;
use std::sync::ledger::Share;

impl<B: Blocks> LockedList<B> {
    /// Takes blocks for a step of a call, as [`take`](nv_steps::take) does, where this is the list of the CPU. As much moves
    /// from the list's share to `mine`. `Mismatch` of `Lists` where it is another list.
    pub(crate) fn take_asked(
        &mut self,
        geometry: &Geometry,
        cpu: u64,
        queue: &mut BlockQueue,
        wanted: u64,
        asked: u64,
        mine: &mut Share<B>,
    ) -> Result<Taken, Fault>
        requires cpu { cpu < geometry.now.numbers.cpus }
        requires asked { asked < geometry.now.numbers.cpus }
        requires room { wanted ≤ queue.old.room }
        requires size { queue.old.size ≡ geometry.now.numbers.block }
        requires part { 0 < mine.old.parts }
        // It is one turn of the machine, wherever the other parts are.
        ensures turn { (taking : Taking) (actor : ℕ) (h : HandState) (r : Running)
            → cpu ≡ asked_list geometry.now.numbers.cpus actor asked
            → r ≡ taking_on taking asked wanted r
            → IfOk result (λ taken. IsTaking taking asked geometry.now.numbers actor
            (on_list r h cpu self.old self.new) taken
            (with_taken taking (take wanted self.old.blocks) h)) }
        // Only the CPU's own list is taken from.
        ensures home { OnOk result (IsHomeList geometry.now.numbers cpu self.old) }
        ensures told { IfOk result (IsTold wanted (length self.old.blocks) asked
            geometry.now.numbers.cpus) }
        ensures queue { OnOk result (queue.new ≡ record queue.old {
          blocks = queue.old.blocks ++ take wanted self.old.blocks;
          room = queue.old.room - min wanted (length self.old.blocks);
        }) }
        ensures parts { mine.new.parts ≡ mine.old.parts }
        ensures amount { mine.new.amount + length queue.old.blocks
            ≡ mine.old.amount + length queue.new.blocks }
        ensures mislaid { OnErr result (¬ IsHomeList geometry.now.numbers cpu self.old) }
        ensures err { FailsOnly (fault.Mismatch part.Lists) result }
        ensures same { OnErr result (queue.new ≡ queue.old) }
    {
        if !self.list.made_for(geometry, cpu) {
            return Err(Fault::Mismatch(MismatchPart::Lists));
        }
        let before = self.list.len();
        let taken = nv_steps::take(&mut self.list, queue, wanted, asked, geometry.numbers.cpus);
        self.blocks.transfer(mine, before - self.list.len());
        Ok(taken)
    }
}

/// Takes so many log pages for a cleaner: from that of the seat's CPU on, round, each list is asked once, and locked for its
/// own part alone. `NoSpace` where each list was asked and they had too few together; `Mismatch` of `Lists` where one is not
/// the list of its CPU. What was taken until then is in the hand.
pub(crate) fn take_fresh<C: Commits, B: Blocks, R: Wait>(
    rt: &R,
    service: &LockedParts<C, B>,
    number: u64,
    wanted: u64,
    hand: &mut Hand,
    mine: &mut Share<B>,
) -> Result<(), Fault>
    requires room { wanted ≤ hand.old.pages.room }
    requires size { hand.old.pages.size ≡ service.now.geometry.numbers.block }
    requires part { 0 < mine.old.parts }
    requires amount { mine.old.amount ≡ length (blocks_of hand.old) }
    // Takings are turns of the machine, up to the one that has all.
    ensures taken { (h0 : HandState) (r0 r : Running) (ino : ℕ) (known : Known CellState)
        → Holds service.now.geometry.numbers number h0 r0 ino known (hand_of hand.old)
        (wanting ino 0 wanted r)
        → OnOk result (Holds service.now.geometry.numbers number h0 r0 ino known (hand_of hand.new)
        (once_fresh ino r)) }
    // A cleaner is refused for want of space by the turn that has asked the last list.
    ensures short { (h0 : HandState) (r0 r : Running) (ino : ℕ) (known : Known CellState)
        → Holds service.now.geometry.numbers number h0 r0 ino known (hand_of hand.old)
        (wanting ino 0 wanted r) → IsRefusedBy result fault.NoSpace
        → Holds service.now.geometry.numbers number h0 r0 ino known (hand_of hand.new)
        (once_refused fault.NoSpace r) }
    // It is broken off where a list is not that of the CPU which is asked.
    ensures broken { (h0 : HandState) (r0 r : Running) (ino : ℕ) (known : Known CellState)
        → Holds service.now.geometry.numbers number h0 r0 ino known (hand_of hand.old)
        (wanting ino 0 wanted r) → IsRefusedBy result (fault.Mismatch part.Lists)
        → IsBrokenOff service.now.geometry.numbers number h0 r0 part.Lists }
    ensures pages { OnOk result (length hand.new.pages.blocks
        ≡ length hand.old.pages.blocks + wanted) }
    ensures size { hand.new.pages.size ≡ hand.old.pages.size }
    ensures rest { hand.new ≡ record hand.old { pages = hand.new.pages } }
    ensures err { FailsEither fault.NoSpace (fault.Mismatch part.Lists) result }
    ensures parts { mine.new.parts ≡ mine.old.parts }
    ensures amount { mine.new.amount ≡ length (blocks_of hand.new) }
{
    let mut left = wanted;
    for asked in 0..service.geometry.numbers.cpus {
        match take_here(rt, service, number, asked, left, hand, mine)? {
            Taken::All => return Ok(()),
            Taken::Lacks(lacking) => left = lacking,
            Taken::TooFew => return Err(Fault::NoSpace),
        }
    }
    unreachable!()
}

/// Takes log pages from the list that is asked behind so many others, at most so many.
fn take_here<C: Commits, B: Blocks, R: Wait>(
    rt: &R,
    service: &LockedParts<C, B>,
    number: u64,
    asked: u64,
    wanted: u64,
    hand: &mut Hand,
    mine: &mut Share<B>,
) -> Result<Taken, Fault>
    requires more { asked < service.now.geometry.numbers.cpus }
    requires room { wanted ≤ hand.old.pages.room }
    requires size { hand.old.pages.size ≡ service.now.geometry.numbers.block }
    requires part { 0 < mine.old.parts }
    requires amount { mine.old.amount ≡ length (blocks_of hand.old) }
    ensures turn { (h0 : HandState) (r0 r : Running) (ino : ℕ) (known : Known CellState)
        → Holds service.now.geometry.numbers number h0 r0 ino known (hand_of hand.old)
        (wanting ino asked wanted r)
        → IfOk result (λ taken. Holds service.now.geometry.numbers number h0 r0 ino known
        (hand_of hand.new) (once_asked ino asked taken r)) }
    ensures told { IfOk result (IsToldFresh wanted asked service.now.geometry.numbers.cpus
        hand.old.pages hand.new.pages) }
    ensures mislaid { OnErr result ((list : FreeBlocks) × (¬ IsHomeList
        service.now.geometry.numbers (asked_list service.now.geometry.numbers.cpus number asked)
        list)) }
    ensures size { hand.new.pages.size ≡ hand.old.pages.size }
    ensures rest { hand.new ≡ record hand.old { pages = hand.new.pages } }
    ensures err { FailsOnly (fault.Mismatch part.Lists) result }
    ensures parts { mine.new.parts ≡ mine.old.parts }
    ensures amount { mine.new.amount ≡ length (blocks_of hand.new) }
{
    let geometry = &service.geometry;
    let cpus = geometry.numbers.cpus;
    let cpu = (number % cpus + asked) % cpus;
    let Some(lock) = service.list_lock(cpu) else {
        unreachable!()
    };
    let mut list = lock.lock(rt);
    list.take_asked(geometry, cpu, &mut hand.pages, wanted, asked, mine)
}
