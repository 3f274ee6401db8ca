//! A snapshot gets a pin before its nodes are shown, and loses it behind them.

ghost use Rattle.std.specs.Prelude.{◌≡◌, ◌<◌, ℕ, Bool, List};
ghost use Rattle.std.specs.Option.{ForSome, IsSomeAnd};
ghost use Rattle.nv_base.specs.declared.geometry.GeometryNumbers.{GeometryNumbers};
ghost use Rattle.nv_base.specs.declared.limits.TheConstants.{PINS};
ghost use Rattle.nv_entry.specs.declared.tree.TreeNode.{TreeNode};
ghost use Rattle.nv_epoch.specs.SnapList.{pins_of};
ghost use Rattle.nv_machine.specs.SnapshotOrCleaner.{shown_by};
ghost use Rattle.nv_machine.specs.World as machine;
ghost use Rattle.nv_machine.specs.World.{HandState, Running, empty_hand};
ghost use Rattle.nv_steps.specs.OnBook.{IsBefore, IsTurnTo, answer_of_show, on_book, once_pinned};
ghost use Rattle.nv_steps.specs.Turns.{IsEnd};

use nv_base::{Epoch, Fault};
use nv_book::Book;
use nv_calls::Answer;
use nv_entry::Tree;
use nv_reader::Showing;
use std::alloc::Global;

/// Pins a snapshot, if it lives: a show over so many inodes begins. `NoSnapshot`. Takes no memory.
pub fn pin(alloc: Global, book: &mut Book, snapshot: Epoch, inodes: usize) -> Result<Showing, Fault>
    requires pins { ForSome (pins_of book.old.state.snaps snapshot) (λ pins. pins < PINS) }
    // A show pins its snapshot first, or is refused where it does not live, wherever the other parts are.
    ensures turn { (numbers : GeometryNumbers) (actor : ℕ) (granted : Bool) (r : Running)
        → numbers.inodes ≡ inodes → IsBefore (machine.Pin snapshot) r
        → IsTurnTo numbers actor (on_book r empty_hand granted book.old.state book.new.state)
        (once_pinned snapshot r) result empty_hand }
    // The room for records stays.
    ensures room { book.new.room ≡ book.old.room }
{
    match book.pin(snapshot) {
        Ok(()) => Ok(Showing::new(alloc, inodes)),
        Err(fault) => Err(fault),
    }
}

/// Takes the pin off, and answers the nodes that were seen, or for what the show is refused. This is the call's last step.
pub fn unpin(book: &mut Book, snapshot: Epoch, shown: Result<Tree, Fault>) -> Result<Answer, Fault>
    requires pins { IsSomeAnd (pins_of book.old.state.snaps snapshot) (λ pins. 0 < pins) }
    // A show takes its pin off in its last step, also where memory was refused, wherever the other parts are.
    // A show is answered the nodes that it has seen.
    ensures turn { (numbers : GeometryNumbers) (actor : ℕ) (granted : Bool) (h : HandState)
        (r : Running) (seen : List TreeNode)
        → r.next ≡ machine.SnapshotOrCleaner (machine.Unpin snapshot seen)
        → shown_by r.ending seen ≡ answer_of_show shown
        → IsEnd numbers actor (on_book r h granted book.old.state book.new.state) result h }
    // The room for records stays.
    ensures room { book.new.room ≡ book.old.room }
{
    book.unpin(snapshot);
    match shown {
        Ok(tree) => Ok(Answer::Tree(tree)),
        Err(fault) => Err(fault),
    }
}
