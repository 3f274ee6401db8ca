//! How a call goes on, and how it ends.

ghost use Rattle.std.specs.Prelude.{◌≡◌, ◌≢◌};
ghost use Rattle.nv_machine.specs.Kinds.{again_turn, blocks_in, drained_turn, end_turn, last_turn, over_turn, refuse, rest_turn, result_by};
ghost use Rattle.nv_machine.specs.Reads.{home_from};
ghost use Rattle.nv_machine.specs.World as machine;
ghost use Rattle.nv_steps.specs.OnList.{HasNumber, home_left};
ghost use Rattle.nv_steps.specs.OnCell.{once_ending};
ghost use Rattle.nv_core.specs.Parts.{AreHome, IsOfDevice};
ghost use Rattle.nv_core.specs.Rooms.{CanDrain, CanEnd, HasRooms, HasRoomsAfter, IsHandOf, IsNoDrain};
ghost use Rattle.nv_core.specs.Shown.{ShownCall, ending_of, hand_of, shared_of, shown, slots_in, turn_of};
ghost use Rattle.nv_core.specs.GhostCalls.{KeepsRequest, OwesAt};

use crate::next::{Draining, Ending, Next, SnapshotOrCleanerStep};
use crate::reservation::Reservation;
use crate::running::Running;
use crate::shared::Shared;
use crate::turn::Turn;
use nv_alloc::Hand;
use nv_base::Fault;
use nv_calls::{Answer, LockedSlots};
use nv_clean::Cleaned;
use nv_steps::{LeftInHand, left_in_hand};

/// What the call is answered at its last step.
pub(crate) fn result_of(running: &Running) -> Result<Answer, Fault>
    ensures { (told : ShownCall) → OwesAt running.now.ending running.now told
        → result ≡ result_by (ending_of running.now.ending) (shown told running.now) }
{
    match running.ending {
        Ending::Answers => Ok(running.owed.answer(running.made)),
        Ending::Refuses(fault) => Err(fault),
        Ending::BoundAnew => Err(Fault::Contended),
        Ending::Drains(draining) => Ok(Answer::Count(draining.released)),
        Ending::Cleans(cleaned) => Ok(answer_of(cleaned)),
    }
}

/// What a cleaner is answered.
fn answer_of(cleaned: Cleaned) -> Answer
    ensures { result ≡ Answer.Cleaned cleaned.thorough cleaned.entries cleaned.pages }
{
    Answer::Cleaned {
        thorough: cleaned.thorough,
        entries: cleaned.entries,
        pages: cleaned.pages,
    }
}

/// Blocks go home, CPU by CPU, and then a number goes back. Where nothing is left, the step replies.
pub(crate) fn give_back(shared: &Shared, hand: &Hand, running: &mut Running) -> Turn
    requires home { AreHome shared.now }
    requires device { IsOfDevice shared.now.geometry.numbers hand.now }
    requires call { CanEnd running.old running.old.ending }
    requires sized { IsHandOf shared.now.geometry.numbers hand.now }
    requires drains { CanDrain running.old.ending running.old.request hand.now }
    // A hand gives back its blocks to every list that is home of one.
    ensures turn { (told : ShownCall) → OwesAt running.old.ending running.old told
        → let s = shared_of shared.now in let h = hand_of hand.now in
        rest_turn (home_from 0 0 s.lists (blocks_in h)) h.ino s h (shown told running.old)
        ≡ turn_of result running.new.answer s h (shown told running.new) }
    ensures request { KeepsRequest running.old running.new }
    ensures slots { IsNoDrain running.old.ending → running.new.slots ≡ running.old.slots }
    ensures goes { result ≢ Turn.Waits }
    ensures rooms { HasRoomsAfter result shared.now (Reservation.Hand hand.now) running.new }
{
    give_left(left_in_hand(hand, &shared.geometry), running)
}

/// What is left in the hand goes back: blocks, and then a number. Where nothing is, the step replies.
#[inline(always)]
pub(crate) fn give_left(left: LeftInHand, running: &mut Running) -> Turn
    ensures turn { (told : ShownCall) (s : machine.Shared) (h : machine.HandState)
        → OwesAt running.old.ending running.old told → HasNumber left h.ino
        → rest_turn (home_left left) h.ino s h (shown told running.old)
        ≡ turn_of result running.new.answer s h (shown told running.new) }
    ensures request { KeepsRequest running.old running.new }
    ensures slots { IsNoDrain running.old.ending → running.new.slots ≡ running.old.slots }
    ensures goes { result ≢ Turn.Waits }
    ensures rooms { (s : Shared) (hand : Hand) → CanEnd running.old running.old.ending
        → IsHandOf s.geometry.numbers hand → CanDrain running.old.ending running.old.request hand
        → HasRoomsAfter result s (Reservation.Hand hand) running.new }
{
    match left {
        LeftInHand::Blocks(cpu) => {
            running.next = Next::Give(cpu);
            Turn::Moves
        }
        LeftInHand::Number => {
            running.next = Next::ReturnNumber;
            Turn::Moves
        }
        LeftInHand::Nothing => last(running),
    }
}

/// Nothing is locked, and nothing in the hand: the step replies, or a drain goes on.
#[inline(always)]
pub(crate) fn last(running: &mut Running) -> Turn
    ensures turn { (told : ShownCall) (s : machine.Shared) (h : machine.HandState)
        → OwesAt running.old.ending running.old told
        → last_turn (ending_of running.old.ending) s h (shown told running.old)
        ≡ turn_of result running.new.answer s h (shown told running.new) }
    ensures request { KeepsRequest running.old running.new }
    ensures slots { IsNoDrain running.old.ending → running.new.slots ≡ running.old.slots }
    ensures goes { result ≢ Turn.Waits }
    ensures rooms { (s : Shared) (hand : Hand) → CanEnd running.old running.old.ending
        → IsHandOf s.geometry.numbers hand → CanDrain running.old.ending running.old.request hand
        → HasRoomsAfter result s (Reservation.Hand hand) running.new }
{
    match running.ending {
        Ending::Drains(draining) => drained(draining, running),
        Ending::Answers | Ending::Refuses(_) | Ending::BoundAnew | Ending::Cleans(_) => {
            running.answer = result_of(running);
            Turn::Ends
        }
    }
}

/// A drain picks the next record, if it may release more.
fn drained(draining: Draining, running: &mut Running) -> Turn
    // A drain goes on to its next record, up to its number.
    // A drain is answered how many records it has released.
    ensures turn { (told : ShownCall) (s : machine.Shared) (h : machine.HandState)
        → drained_turn draining.left draining.released s h (shown told running.old)
        ≡ turn_of result running.new.answer s h (shown told running.new) }
    ensures request { KeepsRequest running.old running.new }
    ensures goes { result ≢ Turn.Waits }
    ensures rooms { (s : Shared) (hand : Hand) → IsHandOf s.geometry.numbers hand
        → CanDrain (Ending.Drains draining) running.old.request hand
        → HasRoomsAfter result s (Reservation.Hand hand) running.new }
{
    if draining.left == 0 {
        running.answer = Ok(Answer::Count(draining.released));
        return Turn::Ends;
    }
    let next = Draining {
        released: draining.released,
        left: draining.left - 1,
    };
    running.ending = Ending::Answers;
    running.slots = LockedSlots::none();
    running.next = Next::SnapshotOrCleaner(SnapshotOrCleanerStep::Pick(next));
    Turn::Moves
}

/// Nothing is locked: the next round of looks comes, if there is one, or what is in the hand goes back.
#[inline(always)]
pub(crate) fn end_unlocked(shared: &Shared, hand: &Hand, running: &mut Running) -> Turn
    requires home { AreHome shared.now }
    requires device { IsOfDevice shared.now.geometry.numbers hand.now }
    requires call { CanEnd running.old running.old.ending }
    requires sized { IsHandOf shared.now.geometry.numbers hand.now }
    requires drains { CanDrain running.old.ending running.old.request hand.now }
    // Old log pages go home before a cleaner is answered.
    ensures turn { (told : ShownCall) → OwesAt running.old.ending running.old told
        → let s = shared_of shared.now in let h = hand_of hand.now in
        over_turn (ending_of running.old.ending) s h (shown told running.old)
        ≡ turn_of result running.new.answer s h (shown told running.new) }
    ensures request { KeepsRequest running.old running.new }
    ensures slots { IsNoDrain running.old.ending → running.new.slots ≡ running.old.slots }
    ensures goes { result ≢ Turn.Waits }
    ensures rooms { HasRoomsAfter result shared.now (Reservation.Hand hand.now) running.new }
{
    match running.ending {
        Ending::Answers | Ending::Refuses(_) | Ending::Drains(_) | Ending::Cleans(_) => {
            give_back(shared, hand, running)
        }
        Ending::BoundAnew => again(running),
    }
}

/// The next round of looks, if there is one.
fn again(running: &mut Running) -> Turn
    // A call whose name was bound anew between its look and its check looks again.
    // A call that looks again does so from its first name on.
    // A call is contended after the eighth such check, and not before.
    ensures turn { (told : ShownCall) (s : machine.Shared) (h : machine.HandState)
        → again_turn running.old.rounds s h (shown told running.old)
        ≡ turn_of result running.new.answer s h (shown told running.new) }
    ensures request { KeepsRequest running.old running.new }
    ensures slots { IsNoDrain running.old.ending → running.new.slots ≡ running.old.slots }
    ensures goes { result ≢ Turn.Waits }
    ensures rooms { (s : Shared) (h : Hand) → CanEnd running.old Ending.BoundAnew
        → IsHandOf s.geometry.numbers h → HasRoomsAfter result s (Reservation.Hand h) running.new }
{
    if running.rounds == 0 {
        running.answer = Err(Fault::Contended);
        return Turn::Ends;
    }
    running.rounds -= 1;
    running.ending = Ending::Answers;
    running.next = Next::Look(0);
    Turn::Moves
}

/// The call turns to its last steps, of which the first is to unlock what it has locked.
pub(crate) fn end(shared: &Shared, hand: &Hand, running: &mut Running, ending: Ending) -> Turn
    requires home { AreHome shared.now }
    requires device { IsOfDevice shared.now.geometry.numbers hand.now }
    requires call { CanEnd running.old ending }
    requires sized { IsHandOf shared.now.geometry.numbers hand.now }
    requires drains { CanDrain ending running.old.request hand.now }
    ensures turn { (told : ShownCall) → OwesAt ending running.old told
        → let s = shared_of shared.now in let h = hand_of hand.now in
        end_turn (slots_in running.old.slots) (ending_of ending) s h (shown told running.old)
        ≡ turn_of result running.new.answer s h (shown told running.new) }
    ensures request { KeepsRequest running.old running.new }
    ensures slots { IsNoDrain ending → running.new.slots ≡ running.old.slots }
    ensures goes { result ≢ Turn.Waits }
    ensures rooms { HasRoomsAfter result shared.now (Reservation.Hand hand.now) running.new }
{
    if running.slots.len() > 0 {
        unlock_first(running, ending);
        return Turn::Moves;
    }
    running.ending = ending;
    end_unlocked(shared, hand, running)
}

/// A call that holds something turns to its last steps: it unlocks next.
#[inline(always)]
pub(crate) fn unlock_first(running: &mut Running, ending: Ending)
    ensures ends { (told : ShownCall) → shown told running.new
        ≡ once_ending (ending_of ending) (shown told running.old) }
    ensures request { KeepsRequest running.old running.new }
    ensures slots { running.new.slots ≡ running.old.slots }
    ensures rooms { (s : Shared) (hand : Hand) → CanEnd running.old ending
        → IsHandOf s.geometry.numbers hand → CanDrain ending running.old.request hand
        → HasRooms s (Reservation.Hand hand) running.new }
{
    running.ending = ending;
    running.next = Next::Unlock(0);
}

/// The call is refused, and turns to its last steps.
pub(crate) fn refuse(shared: &Shared, hand: &Hand, running: &mut Running, fault: Fault) -> Turn
    requires home { AreHome shared.now }
    requires device { IsOfDevice shared.now.geometry.numbers hand.now }
    requires call { CanEnd running.old (Ending.Refuses fault) }
    requires sized { IsHandOf shared.now.geometry.numbers hand.now }
    // A refused call gives up its locks.
    ensures turn { (told : ShownCall) → let s = shared_of shared.now in let h = hand_of hand.now in
        refuse fault s h (shown told running.old)
        ≡ turn_of result running.new.answer s h (shown told running.new) }
    ensures request { KeepsRequest running.old running.new }
    ensures slots { running.new.slots ≡ running.old.slots }
    ensures goes { result ≢ Turn.Waits }
    ensures rooms { HasRoomsAfter result shared.now (Reservation.Hand hand.now) running.new }
{
    end(shared, hand, running, Ending::Refuses(fault))
}
