//! The check of a call over the cells that it holds.

ghost use Rattle.std.specs.Prelude.{◌≢◌, ◌≡◌, ◌<◌, ◌≤◌, ◌^◌, IfOk, OnErr, OnOk, [], length, option_map, true};
ghost use Rattle.std.specs.Option.{ForSome};
ghost use Rattle.std.specs.Result.{result_err};
ghost use Rattle.nv_alloc.specs.Hand.{blocks_of};
ghost use Rattle.nv_base.specs.Limits.{IsWithinLimits};
ghost use Rattle.nv_base.specs.Refusals.{FailsOnly};
ghost use Rattle.nv_base.specs.Memory.{out_of_memory};
ghost use Rattle.nv_base.specs.declared.limits.TheConstants.{BLOCK_BYTES};
ghost use Rattle.nv_calls.specs.AllCalls.{blocks_wanted};
ghost use Rattle.nv_calls.specs.Nodes.{nodes_in};
ghost use Rattle.nv_calls.specs.SlotCells.{lent_cells};
ghost use Rattle.nv_calls.specs.Updates.{blocks_taken};
ghost use Rattle.nv_machine.specs.Kinds.{check_turn, wants_blocks};
ghost use Rattle.nv_machine.specs.Reads.{copies, has_last_page};
ghost use Rattle.nv_machine.specs.Step.{ending_at, made_in, with_made};
ghost use Rattle.nv_core.specs.Nodes.{ends_over, wanted_over};
ghost use Rattle.nv_core.specs.Parts.{AreHome, AreSlots, HaveSlots, IsOfDevice};
ghost use Rattle.nv_core.specs.Rooms.{FitsCall, HasRoomFor, HasRoomsAfter, IsHandOf, WantsBlocks, pages_to_take};
ghost use Rattle.nv_core.specs.Shown.{ShownCall, ending_of, hand_of, shared_of, shown, slots_in, turn_of};
ghost use Rattle.nv_core.specs.Steps.{CanBeChecked};
ghost use Rattle.nv_core.specs.GhostCalls.{IsChangeWith, IsEither, IsShownCallOf, KeepsRequest, is_change};

use crate::ending::{end, refuse};
use crate::kinds::take::want_pages;
use crate::lent::room_in;
use crate::next::{Ending, Next};
use crate::reservation::Reservation;
use crate::running::Running;
use crate::shared::Shared;
use crate::turn::Turn;
use nv_alloc::Hand;
use nv_base::Fault;
use nv_calls::{
    CheckEnd, HeldNodes, LockedSlots, LookupResult, Nodes, SlotCells, Update, ends_at_check,
};
use nv_cell::InodeCell;

/// Tests the call, and settles how many blocks it takes. The hand gets room for them: where it takes none, nothing grows.
pub(crate) fn check(shared: &mut Shared, hand: &mut Hand, running: &mut Running) -> Turn
    requires change { is_change running.old.request ≡ true }
    requires limits { IsWithinLimits shared.old.geometry.numbers }
    requires home { AreHome shared.old }
    requires device { IsOfDevice shared.old.geometry.numbers hand.old }
    requires sized { IsHandOf shared.old.geometry.numbers hand.old }
    requires call { FitsCall running.old }
    requires can { CanBeChecked shared.old hand.old running.old }
    ensures turn { (told : ShownCall) → IsShownCallOf running.old told
        → let block = shared.old.geometry.numbers.block in let s = shared_of shared.old in
        let h = hand_of hand.old in let r = shown told running.old in
        IsEither (λ granted. check_turn (ending_at block s h r) granted
        (blocks_wanted block (copies s) (has_last_page block s r.call) r.call) block s h
        (with_made s h r))
        (turn_of result running.new.answer (shared_of shared.new) (hand_of hand.new)
        (shown told running.new)) }
    ensures request { KeepsRequest running.old running.new }
    ensures goes { result ≢ Turn.Waits }
    ensures rest { shared.new ≡ shared.old }
    ensures rooms { HasRoomsAfter result shared.new (Reservation.Hand hand.new) running.new }
{
    note_made(shared, hand, running);
    let wanted = match test(shared, running, hand.ino().is_some()) {
        Ok(wanted) => wanted,
        Err(ending) => return end(shared, hand, running, ending),
    };
    if let Err(fault) = make_room(shared, hand, running, wanted) {
        return refuse(shared, hand, running, fault);
    }
    want_blocks(shared, hand, running, wanted)
}

/// A new inode is to have the handle of the number in the hand.
fn note_made(shared: &Shared, hand: &Hand, running: &mut Running)
    requires { ForSome hand.now.ino (λ ino. ino < length shared.now.cells.items) }
    ensures { running.new ≡ record running.old {
      made = made_in (shared_of shared.now) hand.now.ino running.old.made;
    } }
{
    if let Some(ino) = hand.ino() {
        running.made = shared.handle_of(ino);
    }
}

/// How many data blocks the call takes, or how the check ends it.
fn test(shared: &mut Shared, running: &Running, has_number: bool) -> Result<u64, Ending>
    requires slots { AreSlots shared.old (slots_in running.now.slots) }
    requires some_bytes { 0 < shared.old.geometry.numbers.block }
    requires few_bytes { shared.old.geometry.numbers.block ≤ BLOCK_BYTES }
    requires change { is_change running.now.request ≡ true }
    ensures same { shared.new ≡ shared.old }
    ensures ends { let lent = lent_cells (slots_in running.now.slots) shared.old.cells.items in
        let block = shared.old.geometry.numbers.block in
        IsChangeWith (λ u. option_map ending_of (result_err result)
        ≡ ends_over block (nodes_in lent) running.now.looked has_number u) running.now.request }
    ensures wanted { let lent = lent_cells (slots_in running.now.slots) shared.old.cells.items in
        let block = shared.old.geometry.numbers.block in
        IsChangeWith (λ u. IfOk result (λ n. n ≡ wanted_over block lent u)) running.now.request }
{
    let block = shared.block();
    let update = running.update();
    test_in(
        block,
        &mut shared.cells,
        &running.slots,
        &running.looked,
        update,
        has_number,
    )
}

/// How many data blocks the call takes, or how the check ends it, over the cells of the call's slots.
fn test_in(
    block: u64,
    cells: &mut [InodeCell],
    slots: &LockedSlots,
    before: &LookupResult,
    update: &Update,
    has_number: bool,
) -> Result<u64, Ending>
    requires slots { HaveSlots cells.old (slots_in slots.now) }
    requires some_bytes { 0 < block }
    requires few_bytes { block ≤ BLOCK_BYTES }
    ensures same { cells.new ≡ cells.old }
    ensures ends { let lent = lent_cells (slots_in slots.now) cells.old in
        option_map ending_of (result_err result)
        ≡ ends_over block (nodes_in lent) before.now has_number update.now }
    ensures wanted { IfOk result (λ n. n
        ≡ wanted_over block (lent_cells (slots_in slots.now) cells.old) update.now) }
{
    let slots = slots.as_slice();
    let lent = SlotCells { cells, slots };
    test_over(block, &HeldNodes::new(&lent), before, update, has_number)
}

/// How many data blocks the call takes, or how the check ends it, over nodes.
fn test_over<N: Nodes>(
    block: u64,
    nodes: &N,
    before: &LookupResult,
    update: &Update,
    has_number: bool,
) -> Result<u64, Ending>
    requires some_bytes { 0 < block }
    requires few_bytes { block ≤ BLOCK_BYTES }
    ensures ends { option_map ending_of (result_err result)
        ≡ ends_over block (N.nodes_of nodes.now) before.now has_number update.now }
    ensures wanted { IfOk result (λ n. n
        ≡ blocks_taken block (N.nodes_of nodes.now) (N.has_page nodes.now) update.now) }
{
    match ends_at_check(block, nodes, before, update, has_number) {
        Ok(wanted) => Ok(wanted),
        Err(CheckEnd::Refuses(fault)) => Err(Ending::Refuses(fault)),
        Err(CheckEnd::BoundAnew) => Err(Ending::BoundAnew),
        Err(CheckEnd::Answers) => Err(Ending::Answers),
    }
}

/// Makes room in the hand for so many data blocks, and for the log pages that the call takes after them.
fn make_room(
    shared: &mut Shared,
    hand: &mut Hand,
    running: &Running,
    wanted: u64,
) -> Result<(), Fault>
    requires limits { IsWithinLimits shared.old.geometry.numbers }
    requires device { IsOfDevice shared.old.geometry.numbers hand.old }
    requires sized { IsHandOf shared.old.geometry.numbers hand.old }
    requires empty { blocks_of hand.old ≡ [] }
    requires few { wanted < 2 ^ 32 }
    requires can { WantsBlocks wanted shared.old hand.old running.now }
    ensures same { shared.new ≡ shared.old }
    ensures hand { hand.new ≡ record hand.old {
      «data» = record hand.old.data { room = hand.new.data.room };
      pages = record hand.old.pages { room = hand.new.pages.room };
    } }
    ensures ok { OnOk result (HasRoomFor wanted shared.old hand.new running.now) }
    ensures some { let slots = slots_in running.now.slots in OnErr result (wanted ≡ 0
        → IsChangeWith (λ u. 0 < pages_to_take shared.old slots hand.old u) running.now.request) }
    ensures err { FailsOnly out_of_memory result }
{
    let update = running.update();
    room_in(&mut shared.cells, &running.slots, update, hand, wanted)
}

/// The call wants data blocks, and log pages after them. A taking of nothing has no step.
fn want_blocks(shared: &mut Shared, hand: &Hand, running: &mut Running, wanted: u64) -> Turn
    requires limits { IsWithinLimits shared.old.geometry.numbers }
    requires home { AreHome shared.old }
    requires device { IsOfDevice shared.old.geometry.numbers hand.now }
    requires sized { IsHandOf shared.old.geometry.numbers hand.now }
    requires call { FitsCall running.old }
    requires empty { blocks_of hand.now ≡ [] }
    requires room { HasRoomFor wanted shared.old hand.now running.old }
    requires can { WantsBlocks wanted shared.old hand.now running.old }
    ensures turn { (told : ShownCall) → IsShownCallOf running.old told
        → let s = shared_of shared.old in let h = hand_of hand.now in
        wants_blocks wanted shared.old.geometry.numbers.block s h (shown told running.old)
        ≡ turn_of result running.new.answer s h (shown told running.new) }
    ensures request { KeepsRequest running.old running.new }
    ensures goes { result ≢ Turn.Waits }
    ensures same { shared.new ≡ shared.old }
    ensures rooms { HasRoomsAfter result shared.new (Reservation.Hand hand.now) running.new }
{
    running.wanted = wanted;
    if wanted == 0 {
        return want_pages(shared, hand, running);
    }
    running.next = Next::TakeBlocks(0);
    Turn::Moves
}
