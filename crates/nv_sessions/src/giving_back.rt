//! Whether what a hand gives back was taken.

ghost use Rattle.std.specs.Prelude.{◌≡◌, ◌+◌, ◌++◌, ◌<◌, ◌↔◌, ◌||◌, ℕ, IfOk, IsOk, IsTrue, None, OnErr, OnOk, Some, false, is_err, length, min, true};
ghost use Rattle.std.specs.Option.{ForSome};
ghost use Rattle.nv_alloc.specs.Giving.{after_giving, not_taken};
ghost use Rattle.nv_alloc.specs.FreeList.{IsHomeList};
ghost use Rattle.nv_alloc.specs.Hand.{blocks_of};
ghost use Rattle.nv_alloc.specs.Queue.{after_home};
ghost use Rattle.nv_base.specs.Refusals.{FailsOnly};
ghost use Rattle.nv_base.specs.declared.fault.Fault.TheVariants as fault;
ghost use Rattle.nv_base.specs.declared.fault.MismatchPart.TheVariants as part;
ghost use Rattle.nv_base.specs.declared.geometry.GeometryNumbers.{GeometryNumbers};
ghost use Rattle.nv_machine.specs.Hands.{AreGiven};
ghost use Rattle.nv_machine.specs.World as machine;
ghost use Rattle.nv_machine.specs.World.{Running};
ghost use Rattle.nv_sessions.specs.Ending.{left_over, pool_with, takes};
ghost use Rattle.nv_sessions.specs.Underway.{IsFirstHome};
ghost use Rattle.nv_steps.specs.Hands.{hand_of};
ghost use Rattle.nv_steps.specs.LastSteps.{IsLast};
ghost use Rattle.nv_steps.specs.OnList.{HasNumber, IsGive, home_left, on_list};
ghost use Rattle.nv_steps.specs.OnPool.{on_pool};

use crate::list::LockedList;
use crate::names::Blocks;
use nv_alloc::{Hand, InodePool};
use nv_base::{Fault, Geometry, Ino, MismatchPart};
use nv_steps::{LeftInHand, return_number};
use std::sync::ledger::Share;

/// Whether something of a hand was refused since its last giving back began: by a list or the pool that was asked for it, or
/// since it is at home in none. No other module reaches the field, and nobody can copy it: so whoever keeps something in
/// a hand has asked for it to be taken.
/// Only a list that was asked counts as one that refuses.
#[derive(Drop)]
pub(crate) struct Giving {
    refused: bool,
}

impl Giving {
    /// Of a hand that has given nothing back yet.
    pub(crate) fn new() -> Giving
        ensures { result.refused ≡ false }
    {
        Giving { refused: false }
    }

    /// A hand begins to give back: nothing was refused.
    pub(crate) fn begin(&mut self)
        ensures { self.new.refused ≡ false }
    {
        self.refused = false;
    }

    /// What is left in a hand is refused.
    fn refuse(&mut self) -> Fault
        ensures refused { self.new.refused ≡ true }
        ensures fault { result ≡ fault.Mismatch part.Lists }
    {
        self.refused = true;
        Fault::Mismatch(MismatchPart::Lists)
    }

    /// Gives the list of a CPU, whose guard is held, the blocks of a hand that are at home there, and says what is left.
    /// `Mismatch` of `Lists` where it is not the CPU's list, or refuses one of them.
    pub(crate) fn give_blocks<B: Blocks>(
        &mut self,
        geometry: &Geometry,
        cpu: u64,
        list: &mut LockedList<B>,
        hand: &mut Hand,
        mine: &mut Share<B>,
    ) -> Result<LeftInHand, Fault>
        requires cpu { cpu < geometry.now.numbers.cpus }
        requires part { 0 < mine.old.parts }
        requires amount { mine.old.amount ≡ length (blocks_of hand.old) }
        // The CPU's list takes the blocks that are at home there, absent and of its length.
        ensures data { OnOk result (hand.new.data ≡ after_home list.old hand.old.data) }
        ensures pages { OnOk result (hand.new.pages
            ≡ after_home (after_giving list.old hand.old.data.blocks) hand.old.pages) }
        ensures chain { OnOk result (hand.new.chain
            ≡ not_taken (after_giving list.old (hand.old.data.blocks ++ hand.old.pages.blocks))
            hand.old.chain) }
        ensures given { OnOk result (list.new ≡ after_giving list.old (blocks_of hand.old)) }
        ensures ino { hand.new.ino ≡ hand.old.ino }
        ensures parts { mine.new.parts ≡ mine.old.parts }
        ensures amount { mine.new.amount ≡ length (blocks_of hand.new) }
        // It is one turn of the machine, wherever the other parts are.
        ensures turn { (actor : ℕ) (r : Running) → r.next ≡ machine.Give cpu
            → IfOk result (λ left. IsGive geometry.now.numbers actor
            (on_list r (hand_of hand.old) cpu list.old list.new) left (hand_of hand.new)) }
        ensures home { IfOk result (λ left. IsFirstHome geometry.now.numbers
            (blocks_of hand.new) (home_left left)) }
        ensures later { IfOk result (λ left. ForSome (home_left left) (λ home. cpu < home)) }
        ensures number { IfOk result (λ left. HasNumber left hand.new.ino) }
        // It is refused exactly where a block is left that is at home there, or the list is not the CPU's.
        ensures ok { IsOk result ↔ (IsHomeList geometry.now.numbers cpu list.old
            × AreGiven geometry.now.numbers (cpu + 1) (blocks_of hand.new)) }
        // Then the hand keeps some.
        ensures kept { OnErr result (0 < length (blocks_of hand.old)
            → 0 < length (blocks_of hand.new)) }
        ensures err { FailsOnly (fault.Mismatch part.Lists) result }
        ensures refused { self.new.refused ≡ (self.old.refused || is_err result) }
    {
        if !list.part().made_for(geometry, cpu) {
            return Err(self.refuse());
        }
        let left = list.give_blocks(geometry, hand, mine);
        if !is_later(left, cpu) {
            return Err(self.refuse());
        }
        Ok(left)
    }

    /// Whether no block is left in a hand that is at home on none of so many lists. `Mismatch` of `Lists` where one is: it stays
    /// there.
    pub(crate) fn find_homeless(
        &mut self,
        geometry: &Geometry,
        lists: usize,
        hand: &Hand,
    ) -> Result<(), Fault>
        // A block that has no home is not taken back.
        requires { AreGiven geometry.now.numbers (min lists geometry.now.numbers.cpus)
            (blocks_of hand.now) }
        ensures ok { IsOk result ↔ (length (blocks_of hand.now) ≡ 0) }
        ensures err { FailsOnly (fault.Mismatch part.Lists) result }
        ensures refused { self.new.refused ≡ (self.old.refused || is_err result) }
    {
        let _ = geometry;
        let _ = lists;
        if hand.len() > 0 {
            return Err(self.refuse());
        }
        Ok(())
    }

    /// Gives the pool the number in a hand. `Mismatch` of `Lists` where it does not take it: then both stay as they are.
    pub(crate) fn put_back(
        &mut self,
        pool: &mut InodePool,
        hand: &mut Hand,
        ino: Ino,
    ) -> Result<(), Fault>
        requires own { hand.old.ino ≡ Some ino }
        // The number in a hand goes to the pool, where that takes it.
        ensures pool { pool.new ≡ pool_with pool.old hand.old.ino }
        ensures hand { hand.new ≡ record hand.old { ino = left_over pool.old hand.old.ino } }
        // It is one turn of the machine, wherever the other parts are.
        ensures turn { (numbers : GeometryNumbers) (actor : ℕ) (r : Running)
            → r.next ≡ machine.ReturnNumber → OnOk result (IsLast numbers actor
            (on_pool r (hand_of hand.old) pool.old pool.new) r.ending (hand_of hand.new)) }
        ensures ok { IsOk result ↔ (hand.new.ino ≡ None) }
        ensures err { FailsOnly (fault.Mismatch part.Lists) result }
        ensures refused { self.new.refused ≡ (self.old.refused || is_err result) }
    {
        if !takes_number(pool, ino) {
            return Err(self.refuse());
        }
        return_number(pool, hand);
        Ok(())
    }
}

/// Whether all that is left in a hand is at home behind a CPU.
fn is_later(left: LeftInHand, cpu: u64) -> bool
    ensures { IsTrue result ↔ ForSome (home_left left) (λ home. cpu < home) }
{
    match left {
        LeftInHand::Blocks(home) => home > cpu,
        _ => true,
    }
}

/// Whether a pool takes a number: it is that of a slot, and not free already.
fn takes_number(pool: &InodePool, ino: Ino) -> bool
    ensures { result ≡ takes pool.now ino }
{
    pool.is_inode(ino) && !pool.has(ino)
}
