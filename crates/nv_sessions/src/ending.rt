//! What a call has taken and not placed goes back.

ghost use Rattle.std.specs.Prelude.{◌≡◌, ◌⊎◌, ◌<◌, ◌||◌, ℕ, None, OnErr, OnOk, is_err, is_some, length, true};
ghost use Rattle.nv_alloc.specs.Hand.{blocks_of};
ghost use Rattle.nv_base.specs.Refusals.{FailsOnly};
ghost use Rattle.nv_base.specs.declared.fault.Fault.TheVariants.{Mismatch};
ghost use Rattle.nv_base.specs.declared.fault.MismatchPart.TheVariants.{Lists};
ghost use Rattle.nv_machine.specs.World.{HandState, Running};
ghost use Rattle.nv_sessions.specs.Ending.{IsEmptyHand};
ghost use Rattle.nv_sessions.specs.SessionRuns.{KeepsSome};
ghost use Rattle.nv_sessions.specs.Sessions.{IsGivenBack, held_by};
ghost use Rattle.nv_sessions.specs.Underway.{GivesBack, UnlocksNext, number_left};
ghost use Rattle.nv_steps.specs.Hands.{hand_of};

use crate::giving_back::Giving;
use crate::locked_parts::LockedParts;
use crate::names::{Blocks, Commits};
use nv_alloc::Hand;
use nv_base::Fault;
use nv_steps::{LeftInHand, left_in_hand};
use std::sync::Wait;
use std::sync::ledger::Share;

/// What a hand still holds of an earlier call goes back. `Mismatch` of `Lists` where it holds something then too.
pub(crate) fn empty_hand<C: Commits, B: Blocks, R: Wait>(
    rt: &R,
    service: &LockedParts<C, B>,
    hand: &mut Hand,
    mine: &mut Share<B>,
    giving: &mut Giving,
) -> Result<(), Fault>
    requires part { 0 < mine.old.parts }
    requires amount { mine.old.amount ≡ length (blocks_of hand.old) }
    ensures ok { OnOk result (IsEmptyHand hand.new) }
    ensures kept { OnErr result (KeepsSome (held_by hand.new giving.new)) }
    ensures err { FailsOnly (Mismatch Lists) result }
    ensures parts { mine.new.parts ≡ mine.old.parts }
    ensures amount { mine.new.amount ≡ length (blocks_of hand.new) }
    ensures back { IsGivenBack (held_by hand.new giving.new) }
{
    if hand.is_empty() {
        return Ok(());
    }
    give_back(rt, service, hand, mine, giving)
}

/// Gives the blocks of a hand home, each CPU's to its list, and then the number in the hand to the pool. What no list and
/// no pool takes stays in the hand: `Mismatch` of `Lists`. `mine` is the share of the hand's blocks. Its caller holds no lock:
/// each list is locked for its own blocks alone, and then the pool. A list that refuses a block ends the giving of blocks.
///
/// A call that has unlocked its slot ends so, or goes on.
pub(crate) fn give_back<C: Commits, B: Blocks, R: Wait>(
    rt: &R,
    service: &LockedParts<C, B>,
    hand: &mut Hand,
    mine: &mut Share<B>,
    giving: &mut Giving,
) -> Result<(), Fault>
    requires part { 0 < mine.old.parts }
    requires amount { mine.old.amount ≡ length (blocks_of hand.old) }
    // The unlock of a call, its gives and the return of its number are turns of the machine, up to its last step.
    ensures run { (actor : ℕ) (h0 : HandState) (r0 r : Running)
        → UnlocksNext service.now.geometry.numbers actor h0 r0 (hand_of hand.old) r
        → OnOk result (GivesBack service.now.geometry.numbers actor h0 r0 LeftInHand.Nothing
        (hand_of hand.new) r) }
    ensures ok { OnOk result (IsEmptyHand hand.new) }
    ensures kept { OnErr result (KeepsSome (held_by hand.new giving.new)) }
    ensures err { FailsOnly (Mismatch Lists) result }
    ensures parts { mine.new.parts ≡ mine.old.parts }
    ensures amount { mine.new.amount ≡ length (blocks_of hand.new) }
    // Nothing stays in the hand, except where a list or the pool has refused some of it.
    ensures back { IsGivenBack (held_by hand.new giving.new) }
{
    giving.begin();
    let blocks = give_blocks(rt, service, hand, mine, giving);
    let number = give_number(rt, service, hand, giving);
    blocks?;
    number
}

/// Gives the blocks of a hand home, by rising CPU. `Mismatch` of `Lists` where one stays there.
fn give_blocks<C: Commits, B: Blocks, R: Wait>(
    rt: &R,
    service: &LockedParts<C, B>,
    hand: &mut Hand,
    mine: &mut Share<B>,
    giving: &mut Giving,
) -> Result<(), Fault>
    requires part { 0 < mine.old.parts }
    requires amount { mine.old.amount ≡ length (blocks_of hand.old) }
    ensures run { (actor : ℕ) (h0 : HandState) (r0 r : Running)
        → UnlocksNext service.now.geometry.numbers actor h0 r0 (hand_of hand.old) r
        → OnOk result (GivesBack service.now.geometry.numbers actor h0 r0
        (number_left hand.new.ino) (hand_of hand.new) r) }
    ensures ok { OnOk result (length (blocks_of hand.new) ≡ 0) }
    ensures kept { OnErr result (0 < length (blocks_of hand.new)) }
    ensures err { FailsOnly (Mismatch Lists) result }
    ensures parts { mine.new.parts ≡ mine.old.parts }
    ensures amount { mine.new.amount ≡ length (blocks_of hand.new) }
    ensures refused { giving.new.refused ≡ (giving.old.refused || is_err result) }
{
    let geometry = &service.geometry;
    let mut left = left_in_hand(hand, geometry);
    for _list in 0..service.lists.len() {
        let LeftInHand::Blocks(cpu) = left else {
            break;
        };
        let Some(lock) = service.list_lock(cpu) else {
            break;
        };
        let mut list = lock.lock(rt);
        left = giving.give_blocks(geometry, cpu, &mut *list, hand, mine)?;
    }
    giving.find_homeless(geometry, service.lists.len(), hand)
}

/// Gives the number in a hand back to the pool, where it is that of a slot and not free already: else `Mismatch` of `Lists`. No
/// other number is in the hand afterwards.
fn give_number<C: Commits, B: Blocks, R: Wait>(
    rt: &R,
    service: &LockedParts<C, B>,
    hand: &mut Hand,
    giving: &mut Giving,
) -> Result<(), Fault>
    ensures run { (actor : ℕ) (h0 : HandState) (r0 r : Running)
        → GivesBack service.now.geometry.numbers actor h0 r0 (number_left hand.old.ino)
        (hand_of hand.old) r
        → OnOk result (GivesBack service.now.geometry.numbers actor h0 r0 LeftInHand.Nothing
        (hand_of hand.new) r) }
    ensures ok { OnOk result (hand.new.ino ≡ None) }
    ensures kept { OnErr result (is_some hand.new.ino ≡ true) }
    ensures err { FailsOnly (Mismatch Lists) result }
    ensures number { (hand.new ≡ hand.old) ⊎ (hand.new ≡ record hand.old { ino = None }) }
    ensures refused { giving.new.refused ≡ (giving.old.refused || is_err result) }
{
    let Some(ino) = hand.ino() else {
        return Ok(());
    };
    let mut pool = service.pool.lock(rt);
    giving.put_back(&mut pool, hand, ino)
}
