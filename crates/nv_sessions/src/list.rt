//! A free list under its lock.

ghost use Rattle.std.specs.Prelude.{◌≡◌, ◌+◌, ◌-◌, ◌<◌, ◌≤◌, ◌++◌, ℕ, min, length, take, drop};
ghost use Rattle.std.specs.Option.{ForSome};
ghost use Rattle.nv_alloc.specs.Giving.{after_giving, not_taken};
ghost use Rattle.nv_alloc.specs.Hand.{blocks_of};
ghost use Rattle.nv_alloc.specs.Queue.{after_home};
ghost use Rattle.nv_base.specs.declared.geometry.GeometryNumbers.{GeometryNumbers};
ghost use Rattle.nv_machine.specs.Hands.{AreGiven};
ghost use Rattle.nv_machine.specs.World as machine;
ghost use Rattle.nv_machine.specs.World.{Running};
ghost use Rattle.nv_sessions.specs.Underway.{IsFirstHome};
ghost use Rattle.nv_steps.specs.Hands.{hand_of};
ghost use Rattle.nv_steps.specs.OnList.{HasNumber, HaveSameHomes, IsGive, home_left, on_list};

use crate::names::Blocks;
use nv_alloc::{BlockQueue, FreeList, Hand};
use nv_base::Geometry;
use nv_steps::{LeftInHand, left_in_hand};
use std::marker::Model;
use std::sync::ledger::Share;

/// The free blocks of one CPU, with the share of them. It owns blocks, so it is no `Drop`.
pub struct LockedList<B: Blocks> {
    pub(crate) list: FreeList,
    pub(crate) blocks: Share<B>,
}

impl<B: Blocks> Model for LockedList<B> {
    ghost use Rattle.std.specs.Prelude.{◌≡◌, length};
    ghost use Rattle.nv_alloc.specs.FreeList.{FreeBlocks};

    ghost Value = { FreeBlocks };

    ghost view = { λ l. l.list };

    // Its share has one part and as many blocks as the list.
    ghost invariant = { λ l. (l.blocks.parts ≡ 1) × (l.blocks.amount ≡ length l.list.blocks) };
}

impl<B: Blocks> LockedList<B> {
    /// The list.
    pub fn part(&self) -> &FreeList
        ensures { result.now ≡ self.now }
    {
        &self.list
    }

    /// Moves the blocks of the `n` lowest numbers, or all where there are fewer, to the end of a queue in rising order,
    /// and says how many they are, as [`FreeList::take`] does. As much moves from the list's share to `mine`.
    pub(crate) fn take(&mut self, n: u64, queue: &mut BlockQueue, mine: &mut Share<B>) -> u64
        requires room { n ≤ queue.old.room }
        requires size { queue.old.size ≡ self.old.size }
        requires part { 0 < mine.old.parts }
        ensures taken { result ≡ min n (length self.old.blocks) }
        // Blocks leave a list as by `FreeList::take`, and its share with them.
        ensures list { self.new ≡ record self.old { blocks = drop n self.old.blocks } }
        ensures queue { queue.new ≡ record queue.old {
          blocks = queue.old.blocks ++ take n self.old.blocks;
          room = queue.old.room - result;
        } }
        ensures parts { mine.new.parts ≡ mine.old.parts }
        ensures amount { mine.new.amount ≡ mine.old.amount + result }
    {
        let taken = self.list.take(n, queue);
        self.blocks.transfer(mine, taken);
        taken
    }

    /// Takes those blocks of a hand that are at home here, as [`Hand::give_blocks`] gives them, and says what is left in it. As
    /// much moves from `mine`, which is the share of the hand, to the list's share.
    pub(crate) fn give_blocks(
        &mut self,
        geometry: &Geometry,
        hand: &mut Hand,
        mine: &mut Share<B>,
    ) -> LeftInHand
        requires part { 0 < mine.old.parts }
        // Blocks come home as by `Hand::give_blocks`, and their share with them.
        requires amount { mine.old.amount ≡ length (blocks_of hand.old) }
        // It is one turn of the machine where all that is left is at home on later CPUs, wherever the other parts are.
        ensures turn { (numbers : GeometryNumbers) (actor cpu : ℕ) (r : Running)
            → HaveSameHomes numbers geometry.now.numbers → r.next ≡ machine.Give cpu
            → AreGiven numbers (cpu + 1) (blocks_of hand.new)
            → IsGive numbers actor (on_list r (hand_of hand.old) cpu self.old self.new) result
            (hand_of hand.new) }
        ensures home { IsFirstHome geometry.now.numbers (blocks_of hand.new) (home_left result) }
        ensures later { (cpu : ℕ) → AreGiven geometry.now.numbers cpu (blocks_of hand.new)
            → ForSome (home_left result) (λ home. cpu ≤ home) }
        ensures number { HasNumber result hand.new.ino }
        ensures data { hand.new.data ≡ after_home self.old hand.old.data }
        ensures pages { hand.new.pages
            ≡ after_home (after_giving self.old hand.old.data.blocks) hand.old.pages }
        ensures chain { hand.new.chain
            ≡ not_taken (after_giving self.old (hand.old.data.blocks ++ hand.old.pages.blocks))
            hand.old.chain }
        ensures given { self.new ≡ after_giving self.old (blocks_of hand.old) }
        ensures ino { hand.new.ino ≡ hand.old.ino }
        ensures parts { mine.new.parts ≡ mine.old.parts }
        ensures amount { mine.new.amount ≡ length (blocks_of hand.new) }
    {
        let before = hand.len();
        hand.give_blocks(&mut self.list);
        let given = before - hand.len();
        mine.transfer(&mut self.blocks, given);
        left_in_hand(hand, geometry)
    }

    /// Takes the list apart with all its blocks: for the owner of a whole device that is let go.
    pub(crate) fn dismantle(self) {
        let LockedList { list, blocks: _ } = self;
        list.dismantle();
    }
}
