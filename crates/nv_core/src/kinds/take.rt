//! Blocks are taken from a list.

ghost use Rattle.std.specs.Prelude.{◌≡◌, ◌≢◌, ◌+◌, ◌-◌, ◌%◌, ◌<◌, ◌≤◌, ◌^◌, length, take};
ghost use Rattle.nv_machine.specs.Kinds.{asked_list, take_blocks_turn, take_log_pages_turn, wants_pages};
ghost use Rattle.nv_machine.specs.Reads.{pages_wanted, plan_by};
ghost use Rattle.nv_base.specs.declared.geometry.GeometryNumbers.{GeometryNumbers};
ghost use Rattle.nv_base.specs.Limits.{IsWithinLimits};
ghost use Rattle.nv_calls.specs.declared.log_pages.TheConstants.{MORE_PAGES};
ghost use Rattle.nv_core.specs.Parts.{AreHome, IsOfDevice};
ghost use Rattle.nv_core.specs.Rooms.{CanCountPages, CanWantPages, FitsCall, HasRooms, HasRoomsAfter, IsHandOf, pages_to_take};
ghost use Rattle.nv_core.specs.Shown.{ShownCall, hand_of, shared_of, shown, slots_in, turn_of};
ghost use Rattle.nv_machine.specs.World as machine;
ghost use Rattle.nv_machine.specs.World.{HandState, list_at};
ghost use Rattle.nv_steps.specs.OnList.{IsTaking, IsTold, Taking, on_list, taking_on, with_taken};
ghost use Rattle.nv_core.specs.Takings.{IsTaken};
ghost use Rattle.nv_core.specs.GhostCalls.{IsChangeWith, IsShownCallOf, KeepsRequest};

use crate::ending::refuse;
use crate::lent::pages_in;
use crate::next::Next;
use crate::reservation::Reservation;
use crate::running::Running;
use crate::shared::Shared;
use crate::turn::Turn;
use nv_alloc::{BlockQueue, Hand};
use nv_base::Fault;
use nv_steps::Taken;

/// The call wants log pages. A taking of nothing has no step.
#[inline(always)]
pub(crate) fn want_pages(shared: &mut Shared, hand: &Hand, running: &mut Running) -> Turn
    requires limits { IsWithinLimits shared.old.geometry.numbers }
    requires home { AreHome shared.old }
    requires device { IsOfDevice shared.old.geometry.numbers hand.now }
    requires sizes { IsHandOf shared.old.geometry.numbers hand.now }
    requires call { FitsCall running.old }
    requires can { CanWantPages shared.old hand.now running.old }
    ensures shared { shared.new ≡ shared.old }
    ensures turn { (told : ShownCall) → IsShownCallOf running.old told → let s = shared_of shared.old in
        let h = hand_of hand.now in let r = shown told running.old in
        wants_pages (pages_wanted s r.slots (plan_by shared.old.geometry.numbers.block s h r)) s h r
        ≡ turn_of result running.new.answer s h (shown told running.new) }
    ensures request { KeepsRequest running.old running.new }
    ensures goes { result ≡ Turn.Moves }
    ensures rooms { HasRoomsAfter result shared.new (Reservation.Hand hand.now) running.new }
{
    running.wanted = pages_by(shared, hand, running);
    if running.wanted == 0 {
        running.next = Next::Ready;
        return Turn::Moves;
    }
    running.next = Next::TakeLogPages(0);
    Turn::Moves
}

/// How many log pages the call wants.
fn pages_by(shared: &mut Shared, hand: &Hand, running: &Running) -> u64
    requires limits { IsWithinLimits shared.old.geometry.numbers }
    requires device { IsOfDevice shared.old.geometry.numbers hand.now }
    requires sizes { IsHandOf shared.old.geometry.numbers hand.now }
    requires can { CanCountPages shared.old hand.now running.now }
    ensures same { shared.new ≡ shared.old }
    ensures wanted { let slots = slots_in running.now.slots in IsChangeWith
        (λ u. result ≡ pages_to_take shared.old slots hand.now u) running.now.request }
    ensures few { result ≤ length hand.now.data.blocks + MORE_PAGES }
{
    pages_in(&mut shared.cells, &running.slots, running.update(), hand)
}

/// Takes data blocks from one list, its lowest.
pub(crate) fn take_blocks(
    shared: &mut Shared,
    hand: &mut Hand,
    running: &mut Running,
    actor: u64,
    asked: u64,
) -> Turn
    requires limits { IsWithinLimits shared.old.geometry.numbers }
    requires home { AreHome shared.old }
    requires device { IsOfDevice shared.old.geometry.numbers hand.old }
    requires rooms { HasRooms shared.old (Reservation.Hand hand.old) running.old }
    requires wide { length shared.old.owners.items ≡ length shared.old.cells.items }
    requires next { running.old.next ≡ Next.TakeBlocks asked }
    requires small { actor + asked < 2 ^ 64 - 1 }
    // A taking refuses its call only after the last list.
    ensures turn { (told : ShownCall) → IsShownCallOf running.old told → let s = shared_of shared.old in
        take_blocks_turn (asked_list (length s.lists) actor asked) asked
        shared.old.geometry.numbers.block s (hand_of hand.old) (shown told running.old)
        ≡ turn_of result running.new.answer (shared_of shared.new) (hand_of hand.new)
        (shown told running.new) }
    ensures request { KeepsRequest running.old running.new }
    ensures goes { result ≢ Turn.Waits }
    ensures rooms { HasRoomsAfter result shared.new (Reservation.Hand hand.new) running.new }
    ensures rest { shared.new ≡ record shared.old { lists = shared.new.lists } }
    ensures count { length shared.new.lists.items ≡ length shared.old.lists.items }
{
    match take_next(shared, &mut hand.data, running.wanted, actor, asked) {
        Taken::All => want_pages(shared, hand, running),
        Taken::Lacks(left) => {
            running.wanted = left;
            running.next = Next::TakeBlocks(asked + 1);
            Turn::Moves
        }
        Taken::TooFew => refuse(shared, hand, running, Fault::NoSpace),
    }
}

/// Takes log pages from one list, its lowest blocks.
pub(crate) fn take_log_pages(
    shared: &mut Shared,
    hand: &mut Hand,
    running: &mut Running,
    actor: u64,
    asked: u64,
) -> Turn
    requires limits { IsWithinLimits shared.old.geometry.numbers }
    requires home { AreHome shared.old }
    requires device { IsOfDevice shared.old.geometry.numbers hand.old }
    requires rooms { HasRooms shared.old (Reservation.Hand hand.old) running.old }
    requires wide { length shared.old.owners.items ≡ length shared.old.cells.items }
    requires next { running.old.next ≡ Next.TakeLogPages asked }
    requires small { actor + asked < 2 ^ 64 - 1 }
    ensures turn { (told : ShownCall) → let s = shared_of shared.old in
        take_log_pages_turn (asked_list (length s.lists) actor asked) asked s (hand_of hand.old)
        (shown told running.old)
        ≡ turn_of result running.new.answer (shared_of shared.new) (hand_of hand.new)
        (shown told running.new) }
    ensures request { KeepsRequest running.old running.new }
    ensures goes { result ≢ Turn.Waits }
    ensures rooms { HasRoomsAfter result shared.new (Reservation.Hand hand.new) running.new }
    ensures rest { shared.new ≡ record shared.old { lists = shared.new.lists } }
    ensures count { length shared.new.lists.items ≡ length shared.old.lists.items }
{
    match take_next(shared, &mut hand.pages, running.wanted, actor, asked) {
        Taken::All => {
            running.wanted = 0;
            running.next = Next::Ready;
            Turn::Moves
        }
        Taken::Lacks(left) => {
            running.wanted = left;
            running.next = Next::TakeLogPages(asked + 1);
            Turn::Moves
        }
        Taken::TooFew => refuse(shared, hand, running, Fault::NoSpace),
    }
}

/// Takes the lowest blocks of the list that is asked next, at most so many: the actor's own is the first, and they are
/// asked round and round.
pub(crate) fn take_next(
    shared: &mut Shared,
    queue: &mut BlockQueue,
    wanted: u64,
    actor: u64,
    asked: u64,
) -> Taken
    requires limits { IsWithinLimits shared.old.geometry.numbers }
    requires home { AreHome shared.old }
    requires room { wanted ≤ queue.old.room }
    requires size { queue.old.size ≡ shared.old.geometry.numbers.block }
    requires small { actor + asked < 2 ^ 64 - 1 }
    ensures turn { (taking : Taking) (numbers : GeometryNumbers) (h : HandState) (r : machine.Running)
        → let cpu = (actor + asked) % length shared.old.lists.items in
        let list = list_at (shared_of shared.old) cpu in
        numbers.cpus ≡ length shared.old.lists.items → r ≡ taking_on taking asked wanted r
        → IsTaking taking asked numbers actor
        (on_list r h cpu list (list_at (shared_of shared.new) cpu)) result
        (with_taken taking (take wanted list.blocks) h) }
    ensures taken { let cpu = (actor + asked) % length shared.old.lists.items in
        IsTaken shared.old.geometry.numbers.blocks wanted cpu (list_at (shared_of shared.old) cpu)
        shared.old.lists.items shared.new.lists.items queue.old queue.new }
    ensures told { let cpu = (actor + asked) % length shared.old.lists.items in
        IsTold wanted (length (list_at (shared_of shared.old) cpu).blocks) asked
        (length shared.old.lists.items) result }
    ensures rest { shared.new ≡ record shared.old { lists = shared.new.lists } }
{
    let lists = shared.lists.len() as u64;
    let cpu = shared.cpu_of(actor + asked) as usize;
    let list = &mut shared.lists[cpu];
    // What a list has free is at home there.
    list.rises();
    nv_steps::take(list, queue, wanted, asked, lists)
}
