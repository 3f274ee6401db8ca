//! A snapshot is pinned, shown inode by inode, and unpinned.

ghost use Rattle.std.specs.Prelude.{◌≡◌, ◌≢◌, ◌<◌, [], None, false, length};
ghost use Rattle.std.specs.Option.{ForSome, IsSomeAnd};
ghost use Rattle.nv_base.specs.Refusals.{FailsOnly};
ghost use Rattle.nv_base.specs.Memory.{out_of_memory};
ghost use Rattle.nv_base.specs.declared.limits.TheConstants.{PINS};
ghost use Rattle.nv_epoch.specs.SnapList.{pins_of};
ghost use Rattle.nv_machine.specs.SnapshotOrCleaner.{copies_at, pin_turn, show_turn, showing_on, shown_by, unpin_turn, visited};
ghost use Rattle.nv_machine.specs.World as machine;
ghost use Rattle.nv_machine.specs.World.{HandState, empty_hand, owner_at};
ghost use Rattle.nv_reader.specs.Showing.{is_over};
ghost use Rattle.nv_steps.specs.OnBook.{answer_of_show};
ghost use Rattle.nv_steps.specs.Reading.{once_shown};
ghost use Rattle.nv_core.specs.Parts.{AreHome};
ghost use Rattle.nv_core.specs.Rooms.{HasRooms, HasRoomsAfter, HasStepRoom, IsShow, IsUnpin};
ghost use Rattle.nv_core.specs.Shown.{ShownCall, ending_of, seen_in, shared_of, showing_in, shown, slots_in, snapshot_in, step_on, turn_of};
ghost use Rattle.nv_core.specs.Steps.{CanShow};
ghost use Rattle.nv_core.specs.GhostCalls.{IsEither, KeepsRequest};

use crate::next::{Ending, Next, SnapshotOrCleanerStep};
use crate::reservation::Reservation;
use crate::running::Running;
use crate::shared::Shared;
use crate::turn::Turn;
use nv_alloc::Hand;
use nv_base::{Epoch, Fault};
use nv_entry::Tree;
use nv_reader::Showing;
use std::alloc::Global;
use std::mem;

/// Pins a snapshot, if it lives. Takes no memory.
pub(crate) fn pin(alloc: Global, shared: &mut Shared, running: &mut Running, snapshot: u64) -> Turn
    requires next { running.old.next ≡ Next.SnapshotOrCleaner (SnapshotOrCleanerStep.Pin snapshot) }
    requires slots { slots_in running.old.slots ≡ [] }
    requires pins { ForSome (pins_of shared.old.book.state.snaps snapshot) (λ pins. pins < PINS) }
    // A show pins its snapshot first.
    ensures turn { (told : ShownCall) → let s = shared_of shared.old in
        pin_turn snapshot (pins_of s.book.snaps snapshot) s empty_hand (shown told running.old)
        ≡ turn_of result running.new.answer (shared_of shared.new) empty_hand
        (shown told running.new) }
    ensures request { KeepsRequest running.old running.new }
    ensures goes { result ≢ Turn.Waits }
    ensures rooms { (hand : Hand) → HasRooms shared.old (Reservation.Hand hand) running.old
        → HasRoomsAfter result shared.new (Reservation.Hand hand) running.new }
    ensures rest { shared.new ≡ record shared.old { book = shared.new.book } }
{
    let inodes = shared.cells.len();
    match nv_steps::pin(alloc, &mut shared.book, Epoch::new(snapshot), inodes) {
        Ok(showing) => {
            running.next = Next::SnapshotOrCleaner(showing_on(snapshot, showing));
            Turn::Moves
        }
        Err(fault) => {
            running.answer = Err(fault);
            Turn::Ends
        }
    }
}

/// The next visit, or the end where there is none.
fn showing_on(snapshot: u64, showing: Showing) -> SnapshotOrCleanerStep
    ensures step { step_on result ≡ showing_on snapshot showing }
    ensures room { (shared : Shared) (hand : Hand) → HasStepRoom result shared hand }
{
    if showing.is_over() {
        return SnapshotOrCleanerStep::Unpin(snapshot, showing.into_seen());
    }
    SnapshotOrCleanerStep::Show(snapshot, showing)
}

/// Visits one inode at the epoch of a snapshot, or waits for its lock. Where memory is refused, the pin is to go.
pub(crate) fn show(alloc: Global, shared: &Shared, running: &mut Running) -> Turn
    requires home { AreHome shared.now }
    requires wide { length shared.now.owners.items ≡ length shared.now.cells.items }
    requires next { IsShow running.old.next }
    requires can { CanShow shared.now (snapshot_in running.old.next) }
    requires more { is_over (showing_in running.old.next) ≡ false }
    // A show reads one inode a step at the snapshot's epoch.
    // A show goes on in the order of the walk, to its end.
    // A show whose memory was refused says so in its last step.
    ensures turn { (told : ShownCall) (h : HandState) → let s = shared_of shared.now in
        let snapshot = snapshot_in running.old.next in let to = showing_in running.old.next in
        IsEither (λ granted. show_turn (owner_at s (visited to.visits).ino) granted
        (copies_at s snapshot (visited to.visits)) snapshot to s h (shown told running.old))
        (turn_of result running.new.answer s h (shown told running.new)) }
    // A show waits where the inode that it visits is locked.
    ensures waits { result ≡ Turn.Waits → running.new ≡ running.old }
    ensures request { KeepsRequest running.old running.new }
    ensures rooms { (hand : Hand) → HasRooms shared.now (Reservation.Hand hand) running.old
        → HasRoomsAfter result shared.now (Reservation.Hand hand) running.new }
{
    let Next::SnapshotOrCleaner(SnapshotOrCleanerStep::Show(_, showing)) = &running.next else {
        unreachable!()
    };
    if shared.is_locked(showing.visited().ino) {
        return Turn::Waits;
    }
    let Next::SnapshotOrCleaner(SnapshotOrCleanerStep::Show(snapshot, showing)) = mem::replace(
        &mut running.next,
        Next::Visit,
    ) else {
        unreachable!()
    };
    match see(alloc, shared, snapshot, showing) {
        Ok(showing) => running.next = Next::SnapshotOrCleaner(showing_on(snapshot, showing)),
        Err(fault) => {
            running.ending = Ending::Refuses(fault);
            running.next = Next::SnapshotOrCleaner(SnapshotOrCleanerStep::Unpin(
                snapshot,
                Tree::empty(alloc),
            ));
        }
    }
    Turn::Moves
}

/// Makes the next visit of a show.
fn see(alloc: Global, shared: &Shared, snapshot: u64, showing: Showing) -> Result<Showing, Fault>
    requires home { AreHome shared.now }
    requires wide { length shared.now.owners.items ≡ length shared.now.cells.items }
    requires can { CanShow shared.now snapshot }
    requires more { is_over showing ≡ false }
    requires free { owner_at (shared_of shared.now) (visited showing.visits).ino ≡ None }
    ensures turn { (h : HandState) (r : machine.Running) → let s = shared_of shared.now in
        IsEither (λ granted. show_turn (owner_at s (visited showing.visits).ino) granted
        (copies_at s snapshot (visited showing.visits)) snapshot showing s h r)
        (machine.Moves s h (once_shown snapshot result r)) }
    ensures err { FailsOnly out_of_memory result }
{
    let cell = shared.cell(showing.visited().ino);
    nv_steps::show(alloc, cell, Epoch::new(snapshot), showing)
}

/// Takes the pin off, and answers the nodes that were seen. This is the call's last step.
pub(crate) fn unpin(shared: &mut Shared, running: &mut Running) -> Turn
    requires next { IsUnpin running.old.next }
    requires pins { IsSomeAnd (pins_of shared.old.book.state.snaps (snapshot_in running.old.next))
        (λ pins. 0 < pins) }
    // A show takes its pin off in its last step, also where memory was refused.
    // A show is answered the nodes that it has seen.
    ensures turn { (told : ShownCall) (h : HandState) → unpin_turn (snapshot_in running.old.next)
        (seen_in running.old.next) (shared_of shared.old) h (shown told running.old)
        ≡ turn_of result running.new.answer (shared_of shared.new) h (shown told running.new) }
    ensures ends { (result ≢ Turn.Moves) × (result ≢ Turn.Waits) }
    ensures request { KeepsRequest running.old running.new }
    ensures rest { shared.new ≡ record shared.old { book = shared.new.book } }
{
    let Next::SnapshotOrCleaner(SnapshotOrCleanerStep::Unpin(snapshot, seen)) = mem::replace(
        &mut running.next,
        Next::Visit,
    ) else {
        unreachable!()
    };
    let shown = shown_at_end(&running.ending, seen);
    running.answer = nv_steps::unpin(&mut shared.book, Epoch::new(snapshot), shown);
    Turn::Ends
}

/// What a show is answered: what it has seen, or for what it is refused.
fn shown_at_end(ending: &Ending, seen: Tree) -> Result<Tree, Fault>
    ensures { shown_by (ending_of ending.now) seen ≡ answer_of_show result }
{
    match ending {
        Ending::Refuses(fault) => Err(*fault),
        _ => Ok(seen),
    }
}
