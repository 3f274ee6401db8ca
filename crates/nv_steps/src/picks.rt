//! A deferred record is picked.

ghost use Rattle.std.specs.Prelude.{◌≡◌, ℕ, OnOk, true};
ghost use Rattle.nv_base.specs.Memory.{out_of_memory};
ghost use Rattle.nv_base.specs.Refusals.{FailsOnlyWhere, KeepsOnErr};
ghost use Rattle.nv_base.specs.declared.geometry.GeometryNumbers.{GeometryNumbers};
ghost use Rattle.nv_machine.specs.World as machine;
ghost use Rattle.nv_machine.specs.World.{HandState, Running, empty_hand};
ghost use Rattle.nv_steps.specs.Hands.{hand_of};
ghost use Rattle.nv_steps.specs.OnBook.{IsBefore, IsPickTurn, drain_of, on_book, room_behind, room_for, was_granted};

use nv_alloc::Hand;
use nv_base::Fault;
use nv_book::{Book, Record};
use nv_calls::Answer;

/// What a pick comes to: the first deferred record, or the end of its call.
#[derive(Debug, Drop)]
pub enum Picked {
    First(Record),
    Ends(Result<Answer, Fault>),
}

/// Picks the first deferred record for a drain that has released so many. Where there is none, this is the call's last step.
/// The first pick of a call makes room for a block before. `OutOfMemory` there alone.
pub fn pick(book: &mut Book, hand: &mut Hand, released: u64) -> Picked
    requires empty { hand_of hand.old ≡ empty_hand }
    // A drain makes room at its first pick, before it changes anything.
    // A drain picks the first deferred record, and ends with its releases counted where there is none.
    ensures turn { (numbers : GeometryNumbers) (actor left : ℕ) (r : Running)
        → IsBefore (machine.Pick (drain_of released left)) r
        → IsPickTurn numbers actor
        (on_book r (hand_of hand.old) (was_granted result) book.old.state book.new.state)
        (drain_of released left) result (hand_of hand.new) }
    // The room for records stays.
    ensures room { book.new.room ≡ book.old.room }
    // A first pick leaves room for a block, and nothing else of the hand changes.
    ensures hand { hand.new ≡ record hand.old {
      «data» = record hand.old.data {
        room = room_behind released (was_granted result) hand.old.data.room;
      };
    } }
{
    match make_room(hand, released) {
        Ok(()) => take_first(book, released),
        Err(fault) => Picked::Ends(Err(fault)),
    }
}

/// Makes room in the hand for a block, before the first pick.
fn make_room(hand: &mut Hand, released: u64) -> Result<(), Fault>
    ensures ok { OnOk result (hand.new ≡ record hand.old {
      «data» = record hand.old.data { room = room_for released hand.old.data.room };
    }) }
    ensures err { FailsOnlyWhere out_of_memory (released ≡ 0) result }
    ensures same { KeepsOnErr result hand.old hand.new }
{
    if released == 0 {
        return hand.data.reserve(1);
    }
    Ok(())
}

/// Takes the first deferred record out, or ends the call where there is none.
fn take_first(book: &mut Book, released: u64) -> Picked
    ensures granted { was_granted result ≡ true }
    ensures turn { (numbers : GeometryNumbers) (actor left : ℕ) (h : HandState) (r : Running)
        → IsBefore (machine.Pick (drain_of released left)) r
        → IsPickTurn numbers actor (on_book r h true book.old.state book.new.state)
        (drain_of released left) result h }
    // The room for records stays.
    ensures room { book.new.room ≡ book.old.room }
{
    match book.pick() {
        Some(first) => Picked::First(first),
        None => Picked::Ends(Ok(Answer::Count(released))),
    }
}
