//! Blocks are taken from a free list, or go home to it.

ghost use Rattle.std.specs.Prelude.{◌≡◌, ℕ, ◌+◌, ◌-◌, ◌<◌, ◌≤◌, ◌^◌, ◌++◌, drop, length, min, take};
ghost use Rattle.nv_alloc.specs.Giving.{after_giving, not_taken};
ghost use Rattle.nv_alloc.specs.Hand.{blocks_of};
ghost use Rattle.nv_alloc.specs.Queue.{after_home};
ghost use Rattle.nv_base.specs.declared.geometry.GeometryNumbers.{GeometryNumbers};
ghost use Rattle.nv_machine.specs.Hands.{AreGiven};
ghost use Rattle.nv_machine.specs.Kinds.{asked_list};
ghost use Rattle.nv_machine.specs.Reads.{home_from};
ghost use Rattle.nv_machine.specs.World as machine;
ghost use Rattle.nv_machine.specs.World.{HandState, Running};
ghost use Rattle.nv_steps.specs.Hands.{hand_of};
ghost use Rattle.nv_steps.specs.OnList.{HasNumber, HaveSameHomes, IsGive, IsTaking, IsTold, Taking, home_left, on_list, taking_on, with_taken};
ghost use Rattle.nv_steps.specs.Parts.{IsOf};

use nv_alloc::{BlockQueue, FreeList, Hand};
use nv_base::Geometry;

/// How far a taking has come: all that was wanted is in the hand; so many blocks are wanted yet, and the next list is
/// asked for them; or each list was asked, and they had too few.
#[derive(Clone, Copy, Debug, PartialEq, Eq)]
pub enum Taken {
    All,
    Lacks(u64),
    TooFew,
}

/// What is left in a hand once nothing is locked: blocks, with the first CPU that is home of one; else a number; or
/// nothing.
#[derive(Clone, Copy, Debug, PartialEq, Eq)]
pub enum LeftInHand {
    Blocks(u64),
    Number,
    Nothing,
}

/// Takes the lowest blocks of a list to the end of a queue of the hand, at most so many. Of so many lists, so many were
/// asked before. Costs the blocks taken.
pub fn take(
    list: &mut FreeList,
    queue: &mut BlockQueue,
    wanted: u64,
    asked: u64,
    lists: u64,
) -> Taken
    requires room { wanted ≤ queue.old.room }
    requires size { queue.old.size ≡ list.old.size }
    requires small { asked < 2 ^ 64 - 1 }
    // A taking is one turn, of whichever kind it is, wherever the other parts are.
    // It takes the lowest blocks of a list, and is refused only where each list was asked.
    ensures turn { (taking : Taking) (numbers : GeometryNumbers) (actor : ℕ) (h : HandState)
        (r : Running) → numbers.cpus ≡ lists → r ≡ taking_on taking asked wanted r
        → IsTaking taking asked numbers actor
        (on_list r h (asked_list lists actor asked) list.old list.new) result
        (with_taken taking (take wanted list.old.blocks) h) }
    // The list is without its first ones.
    ensures list { list.new ≡ record list.old { blocks = drop wanted list.old.blocks } }
    // The queue has them behind its own, and room for as many fewer.
    ensures queue { queue.new ≡ record queue.old {
      blocks = queue.old.blocks ++ take wanted list.old.blocks;
      room = queue.old.room - min wanted (length list.old.blocks);
    } }
    // It is told how many are wanted yet.
    ensures told { IsTold wanted (length list.old.blocks) asked lists result }
{
    let left = wanted - list.take(wanted, queue);
    if left == 0 {
        return Taken::All;
    }
    if asked + 1 < lists {
        return Taken::Lacks(left);
    }
    Taken::TooFew
}

/// Gives a list all blocks in the hand that are at home there, and says what is left. Costs the blocks in the hand.
pub fn give(list: &mut FreeList, hand: &mut Hand, geometry: &Geometry) -> LeftInHand
    // A give is one turn, wherever the other parts are: a list takes what is at home there.
    // It is so where all that is left is at home on later CPUs: a world knows that, and a service can test it.
    ensures turn { (numbers : GeometryNumbers) (actor cpu : ℕ) (r : Running)
        → HaveSameHomes numbers geometry.now.numbers → r.next ≡ machine.Give cpu
        → AreGiven numbers (cpu + 1) (blocks_of hand.new)
        → IsGive numbers actor (on_list r (hand_of hand.old) cpu list.old list.new) result
        (hand_of hand.new) }
    // The list has what it took of the hand, and the hand has the rest.
    ensures list { list.new ≡ after_giving list.old (blocks_of hand.old) }
    ensures data { hand.new.data ≡ after_home list.old hand.old.data }
    ensures pages { hand.new.pages
        ≡ after_home (after_giving list.old hand.old.data.blocks) hand.old.pages }
    ensures chain { hand.new.chain
        ≡ not_taken (after_giving list.old (hand.old.data.blocks ++ hand.old.pages.blocks))
        hand.old.chain }
    // The inode number stays.
    ensures ino { hand.new.ino ≡ hand.old.ino }
    // A number is told behind all blocks, if there is one.
    ensures number { HasNumber result hand.new.ino }
{
    hand.give_blocks(list);
    left_in_hand(hand, geometry)
}

/// What is left in a hand. Costs the blocks in it.
#[inline(always)]
pub fn left_in_hand(hand: &Hand, geometry: &Geometry) -> LeftInHand
    // The home that is told is the first of all that some block in the hand has.
    ensures home { (numbers : GeometryNumbers) (from : ℕ) (s : machine.Shared)
        → HaveSameHomes numbers geometry.now.numbers → IsOf numbers s
        → AreGiven numbers from (blocks_of hand.now)
        → home_from from 0 s.lists (blocks_of hand.now) ≡ home_left result }
    // A number is told behind all blocks, if there is one.
    ensures number { HasNumber result hand.now.ino }
{
    if let Some(cpu) = hand.first_home_cpu(geometry) {
        return LeftInHand::Blocks(cpu);
    }
    match hand.ino() {
        Some(_) => LeftInHand::Number,
        None => LeftInHand::Nothing,
    }
}
