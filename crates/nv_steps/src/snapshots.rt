//! A snapshot is made or dropped.

ghost use Rattle.std.specs.Prelude.{◌≡◌, ◌+◌, ◌<◌, ◌↔◌, ℕ, Bool, IfOk, IsOk, None, OnOk, Some, length};
ghost use Rattle.std.specs.Option.{IsSomeAnd};
ghost use Rattle.nv_base.specs.Refusals.{IsRefusedBy, KeepsOnErr};
ghost use Rattle.nv_base.specs.declared.fault.Fault.TheVariants as fault;
ghost use Rattle.nv_base.specs.declared.geometry.GeometryNumbers.{GeometryNumbers};
ghost use Rattle.nv_base.specs.declared.limits.TheConstants.{NUMBER};
ghost use Rattle.nv_book.specs.Book.{after_drop_snapshot, after_make_snapshot};
ghost use Rattle.nv_book.specs.Manifests.{gain_of};
ghost use Rattle.nv_book.specs.Records.{block_count};
ghost use Rattle.nv_book.specs.Store.{nodes_wanted};
ghost use Rattle.nv_epoch.specs.Holders.{next_older};
ghost use Rattle.nv_epoch.specs.SnapList.{ids, pins_of};
ghost use Rattle.nv_machine.specs.World as machine;
ghost use Rattle.nv_machine.specs.World.{Running, empty_hand};
ghost use Rattle.nv_steps.specs.OnBook.{IsBefore, on_book};
ghost use Rattle.nv_steps.specs.Turns.{IsEnd};

use nv_base::{Epoch, Fault};
use nv_book::Book;
use nv_calls::Answer;

/// Makes a snapshot of the current epoch, which is its call's only step. `EpochLimit`, `TooManySnapshots`.
pub fn make_snapshot(book: &mut Book) -> Result<Answer, Fault>
    // A making is one turn, which is answered or refused as the machine says, wherever the other parts are.
    // A making changes the book alone, and needs the commit lock free.
    ensures turn { (numbers : GeometryNumbers) (actor : ℕ) (granted : Bool) (r : Running)
        → IsBefore machine.Make r
        → IsEnd numbers actor (on_book r empty_hand granted book.old.state book.new.state)
        result empty_hand }
    // It is made, and refused, where the book makes and refuses it.
    ensures made { IsOk result ↔ ((book.old.state.snaps.epoch < NUMBER)
        × (length book.old.state.snaps.living < book.old.state.snaps.most)) }
    ensures epoch_limit { IsRefusedBy result fault.EpochLimit
        ↔ (book.old.state.snaps.epoch ≡ NUMBER) }
    ensures too_many { IsRefusedBy result fault.TooManySnapshots
        ↔ ((book.old.state.snaps.epoch < NUMBER)
        × (length book.old.state.snaps.living ≡ book.old.state.snaps.most)) }
    ensures answer { IfOk result (λ a. a ≡ Answer.Snapshot book.old.state.snaps.epoch) }
    ensures ok { OnOk result (book.new ≡ record {
      state = after_make_snapshot book.old.state;
      room = nodes_wanted book.old.state.manifests book.old.room;
    }) }
    ensures same { KeepsOnErr result book.old book.new }
{
    // Neither the epoch nor the number of snapshots is over its limit.
    book.snaps().rises();
    match book.make_snapshot() {
        Ok(snapshot) => Ok(Answer::Snapshot(snapshot)),
        Err(fault) => Err(fault),
    }
}

/// Drops a snapshot that has no pin, which is its call's only step. `NoSnapshot`, `Pinned`.
pub fn drop_snapshot(book: &mut Book, snapshot: Epoch) -> Result<Answer, Fault>
    // A drop is one turn, which is answered or refused as the machine says, wherever the other parts are.
    // A drop defers what no living snapshot holds, and nothing else.
    ensures turn { (numbers : GeometryNumbers) (actor : ℕ) (granted : Bool) (r : Running)
        → IsBefore (machine.Drop snapshot) r
        → IsEnd numbers actor (on_book r empty_hand granted book.old.state book.new.state)
        result empty_hand }
    // It is dropped, and refused, where the book drops and refuses it.
    ensures dropped { IsOk result ↔ (pins_of book.old.state.snaps snapshot ≡ Some 0) }
    ensures no_snapshot { IsRefusedBy result fault.NoSnapshot
        ↔ (pins_of book.old.state.snaps snapshot ≡ None) }
    ensures pinned { IsRefusedBy result fault.Pinned
        ↔ IsSomeAnd (pins_of book.old.state.snaps snapshot) (λ pins. 0 < pins) }
    ensures answer { IfOk result (λ a. a ≡ Answer.Nothing) }
    ensures ok { OnOk result (book.new
        ≡ record book.old { state = after_drop_snapshot snapshot book.old.state }) }
    ensures gain { OnOk result (block_count book.new.state.deferred
        ≡ block_count book.old.state.deferred
        + gain_of snapshot (next_older (ids book.old.state.snaps) snapshot)
        book.old.state.manifests) }
    ensures same { KeepsOnErr result book.old book.new }
{
    match book.drop_snapshot(snapshot) {
        Ok(()) => Ok(Answer::Nothing),
        Err(fault) => Err(fault),
    }
}
