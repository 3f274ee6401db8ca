//! Blocks for a change, from the free lists.

ghost use Rattle.std.specs.Prelude.{◌≡◌, ◌+◌, ◌<◌, ◌≤◌, IfErr, IfOk, OnErr, OnOk, length};
ghost use Rattle.nv_base.specs.Refusals.{FailsEither, FailsOnly};
ghost use Rattle.nv_base.specs.declared.fault.Fault.TheVariants as fault;
ghost use Rattle.nv_base.specs.declared.fault.MismatchPart.TheVariants as part;
ghost use Rattle.nv_calls.specs.Cells.{AreCells};
ghost use Rattle.nv_calls.specs.Prepared.{CanReady, HasLogPages};
ghost use Rattle.nv_sessions.specs.Asking.{turned_in};
ghost use Rattle.nv_sessions.specs.Changing.{HasPassed, HasTaken};
ghost use Rattle.nv_sessions.specs.Refusing.{IsWant};
ghost use Rattle.nv_alloc.specs.Hand.{blocks_of};

use crate::asking::Asking;
use crate::locked_parts::LockedParts;
use crate::names::{Blocks, Commits};
use nv_alloc::{BlockQueue, Hand};
use nv_base::{Fault, MismatchPart};
use nv_calls::{Cells, Update, make_room, pages_wanted};
use std::sync::Wait;
use std::sync::ledger::Share;

/// Takes what a change needs that passed its check: room in the hand, so many data blocks, and then the log pages that
/// its plan wants. The blocks come from the lists in turn, the seat's own first, and their number is counted in the share.
///
/// `OutOfMemory` where a growth was refused; `NoSpace` where each list was asked and they had too few together; `Mismatch`
/// of `Lists` where one is not the list of its CPU. What was taken until then is in the hand. Costs the blocks taken, and
/// the waits.
pub(crate) fn take_all<C: Commits, B: Blocks, L: Cells, R: Wait>(
    rt: &R,
    service: &LockedParts<C, B>,
    number: u64,
    lent: &L,
    update: &Update,
    hand: &mut Hand,
    wanted: u64,
    mine: &mut Share<B>,
    asking: &mut Asking,
) -> Result<(), Fault>
    requires some { 0 < length (L.cells lent.now) }
    requires cells { AreCells (L.cells lent.now) }
    requires passed { HasPassed service.now.geometry.numbers.block (L.cells lent.now) hand.old
        update.now wanted }
    requires part { 0 < mine.old.parts }
    ensures err { IfErr result IsWant }
    ensures can { OnOk result (CanReady (L.cells lent.now) hand.new update.now) }
    ensures pages { OnOk result (HasLogPages (L.cells lent.now) hand.new update.now) }
    ensures parts { mine.new.parts ≡ mine.old.parts }
    ensures amount { mine.new.amount + length (blocks_of hand.old)
        ≡ mine.old.amount + length (blocks_of hand.new) }
    ensures short { asking.new.turn ≡ turned_in result asking.old.turn }
{
    make_room(lent, update, hand, wanted)?;
    take_blocks(rt, service, number, wanted, &mut hand.data, mine, asking)?;
    let pages = pages_wanted(lent, update, hand);
    take_blocks(rt, service, number, pages, &mut hand.pages, mine, asking)
}

/// Takes so many blocks from the lists, from that of the seat's CPU on, round, each locked for its own part alone.
/// `NoSpace` comes only where each list was asked.
pub(crate) fn take_blocks<C: Commits, B: Blocks, R: Wait>(
    rt: &R,
    service: &LockedParts<C, B>,
    number: u64,
    wanted: u64,
    queue: &mut BlockQueue,
    mine: &mut Share<B>,
    asking: &mut Asking,
) -> Result<(), Fault>
    requires room { wanted ≤ queue.old.room }
    requires size { queue.old.size ≡ service.now.geometry.numbers.block }
    requires part { 0 < mine.old.parts }
    ensures taken { OnOk result (HasTaken wanted queue.old queue.new) }
    ensures parts { mine.new.parts ≡ mine.old.parts }
    ensures amount { mine.new.amount + length queue.old.blocks
        ≡ mine.old.amount + length queue.new.blocks }
    ensures err { FailsEither fault.NoSpace (fault.Mismatch part.Lists) result }
    // A taking ends by `NoSpace` only where it fell short.
    ensures short { asking.new.turn ≡ turned_in result asking.old.turn }
{
    let mut left = wanted;
    asking.begin(&service.geometry, number);
    for _ in 0..service.geometry.numbers.cpus {
        if left == 0 {
            return Ok(());
        }
        left -= take_here(rt, service, left, queue, mine, asking)?;
    }
    if left > 0 {
        asking.fall_short(&service.geometry);
        return Err(Fault::NoSpace);
    }
    Ok(())
}

/// Takes the lowest blocks of the list of the CPU that is next, at most so many, and says how many.
fn take_here<C: Commits, B: Blocks, R: Wait>(
    rt: &R,
    service: &LockedParts<C, B>,
    wanted: u64,
    queue: &mut BlockQueue,
    mine: &mut Share<B>,
    asking: &mut Asking,
) -> Result<u64, Fault>
    requires first { asking.old.first < service.now.geometry.numbers.cpus }
    requires more { asking.old.asked < service.now.geometry.numbers.cpus }
    requires room { wanted ≤ queue.old.room }
    requires size { queue.old.size ≡ service.now.geometry.numbers.block }
    requires part { 0 < mine.old.parts }
    ensures few { IfOk result (λ n. n ≤ wanted) }
    ensures taken { IfOk result (λ n. HasTaken n queue.old queue.new) }
    ensures parts { mine.new.parts ≡ mine.old.parts }
    ensures amount { mine.new.amount + length queue.old.blocks
        ≡ mine.old.amount + length queue.new.blocks }
    ensures asked { OnOk result (asking.new.asked ≡ asking.old.asked + 1) }
    ensures first { asking.new.first ≡ asking.old.first }
    ensures turn { asking.new.turn ≡ asking.old.turn }
    ensures err { FailsOnly (fault.Mismatch part.Lists) result }
    ensures same { OnErr result (queue.new ≡ queue.old) }
{
    let cpu = asking.next_cpu(&service.geometry);
    let Some(lock) = service.list_lock(cpu) else {
        return Err(Fault::Mismatch(MismatchPart::Lists));
    };
    let mut list = lock.lock(rt);
    asking.take_from(&service.geometry, cpu, &mut *list, wanted, queue, mine)
}
