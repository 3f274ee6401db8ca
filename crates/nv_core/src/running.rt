//! A call that runs.

ghost use Rattle.std.specs.Prelude.{◌≡◌, ◌<◌, ◌+◌, ℕ, List, None, false, length, true};
ghost use Rattle.nv_machine.specs.Sequence.{begun, beginning, first_clean, first_step, locking, looking, new_draining, nothing_looked, slots_on};
ghost use Rattle.nv_base.specs.declared.limits.TheConstants.{DRAIN};
ghost use Rattle.nv_machine.specs.World as machine;
ghost use Rattle.nv_core.specs.Rooms.{FitsCall, FitsNext, HasNextRoom, HasRooms, HasStepRoom, IsHandOf, takes};
ghost use Rattle.nv_core.specs.Shown.{ShownCall, draining_of, manner_of, next_of, shared_of, shown, slots_in, step_on};
ghost use Rattle.nv_calls.specs.Updates.{call_of};
ghost use Rattle.nv_core.specs.GhostCalls.{IsAtStart, IsChangeBy, IsRequestOf, IsShownCallOf, is_change, looking_at, starting};

use crate::next::{Draining, Ending, Next, SnapshotOrCleanerStep, ToClean};
use crate::request::{PendingAnswer, Request, request_of};
use crate::reservation::Reservation;
use crate::shared::Shared;
use crate::turn::Turn;
use nv_alloc::Hand;
use nv_base::{Fault, Gen, Handle, Ino, limits};
use nv_calls::{
    Answer, Call, LockedSlots, LookupResult, SnapshotOrCleanerCall, Update, look_count, slots_of,
};
use nv_steps::Manner;
use std::alloc::Global;

/// How many more rounds of looks a call may make after its first.
const ROUNDS: u64 = 7;

/// A call that runs. With its hold it shows a running call of the machine, except its text and its plan, which the
/// code uses up on the way. What holds of it between two steps is of all actors at once, and stands in `IsWorld`.
#[derive(Drop)]
pub(crate) struct Running {
    pub(crate) request: Request,
    pub(crate) owed: PendingAnswer,
    pub(crate) next: Next,
    pub(crate) ending: Ending,
    /// What its looks found.
    pub(crate) looked: LookupResult,
    /// How many more rounds of looks it may make.
    pub(crate) rounds: u64,
    /// The slots that it locks.
    pub(crate) slots: LockedSlots,
    /// The handle of its new inode, where it makes one.
    pub(crate) made: Handle,
    /// How many blocks of a taking it still wants.
    pub(crate) wanted: u64,
    /// What it is answered, once its last step is made.
    pub(crate) answer: Result<Answer, Fault>,
}

/// The step for a place in the loop of locks, or what comes behind the last.
pub(crate) fn locking(place: usize, slots: &LockedSlots) -> Next
    ensures next { next_of result ≡ locking place (slots_in slots.now) }
    ensures before { (request : Request) → is_change request ≡ true → FitsNext result request }
    ensures none { takes result ≡ false }
    ensures room { (how : Ending) (request : Request) (shared : Shared) (hand : Hand)
        → HasNextRoom result how request shared hand }
{
    if place < slots.len() {
        return Next::Lock(place);
    }
    Next::Check
}

/// The step for a place in the loop of looks, or what comes behind the last: the loop of locks.
pub(crate) fn looking(place: usize, update: &Update, slots: &LockedSlots) -> Next
    ensures next { (text : List ℕ) → next_of result
        ≡ looking_at place (slots_in slots.now) (call_of update.now text) }
    ensures before { (request : Request) (u : Update) → IsChangeBy request u → u ≡ update.now
        → FitsNext result request }
    ensures none { takes result ≡ false }
    ensures room { (how : Ending) (request : Request) (shared : Shared) (hand : Hand)
        → HasNextRoom result how request shared hand }
{
    if place < look_count(update) {
        return Next::Look(place);
    }
    locking(0, slots)
}

/// The first step of a call, and the slots that it locks as far as they are known.
fn first_step(inodes: u64, request: &Request, looked: &LookupResult) -> (Next, LockedSlots)
    requires request { IsAtStart request.now }
    requires looked { looked.now ≡ nothing_looked }
    ensures first { (s : machine.Shared) (owed : PendingAnswer) (c : Call) → length s.cells ≡ inodes
        → IsRequestOf request.now owed c → let first = begun (beginning c) s c in
        (next_of result.0 ≡ first.next) × (slots_in result.1 ≡ first.slots) }
    ensures before { FitsNext result.0 request.now }
    ensures none { takes result.0 ≡ false }
    ensures room { (how : Ending) (request : Request) (shared : Shared) (hand : Hand)
        → HasNextRoom result.0 how request shared hand }
{
    let none = LockedSlots::none();
    match request {
        Request::Change(update, _) => first_of_change(inodes, update, looked),
        Request::SnapshotOrCleaner(call) => {
            let (step, slots) = first_of_snapshot_or_cleaner(inodes, call);
            (Next::SnapshotOrCleaner(step), slots)
        }
        Request::Visit(_) | Request::Taken => (Next::Visit, none),
    }
}

/// The first step of a call on snapshots or of a cleaner, and the slot that it locks, if any.
fn first_of_snapshot_or_cleaner(
    inodes: u64,
    call: &SnapshotOrCleanerCall,
) -> (SnapshotOrCleanerStep, LockedSlots)
    ensures step { step_on result.0 ≡ first_step inodes call.now }
    ensures slots { slots_in result.1 ≡ slots_on (first_step inodes call.now) }
    ensures room { (shared : Shared) (hand : Hand) → HasStepRoom result.0 shared hand }
{
    let step = match call {
        SnapshotOrCleanerCall::Snap => SnapshotOrCleanerStep::Make,
        SnapshotOrCleanerCall::Drop(snapshot) => SnapshotOrCleanerStep::Drop(snapshot.number()),
        SnapshotOrCleanerCall::Show(snapshot) => SnapshotOrCleanerStep::Pin(snapshot.number()),
        SnapshotOrCleanerCall::Drain(number) => SnapshotOrCleanerStep::Pick(new_draining(*number)),
        SnapshotOrCleanerCall::Fast(ino) => return first_clean(inodes, Manner::Fast, *ino),
        SnapshotOrCleanerCall::Thorough(ino) => return first_clean(inodes, Manner::Thorough, *ino),
        SnapshotOrCleanerCall::Auto(ino) => return first_clean(inodes, Manner::Auto, *ino),
    };
    (step, LockedSlots::none())
}

/// A cleaner locks the slot of its number, if there are that many. A number without a slot is judged at once.
fn first_clean(inodes: u64, manner: Manner, ino: Ino) -> (SnapshotOrCleanerStep, LockedSlots)
    ensures step { step_on result.0 ≡ first_clean inodes (manner_of manner) ino }
    ensures slots { slots_in result.1 ≡ slots_on (first_clean inodes (manner_of manner) ino) }
    ensures room { (shared : Shared) (hand : Hand) → HasStepRoom result.0 shared hand }
{
    if ino.number() < inodes {
        let log = ToClean { manner, ino };
        return (
            SnapshotOrCleanerStep::LockCleaned(log),
            LockedSlots::one(ino),
        );
    }
    (
        SnapshotOrCleanerStep::PlanCleaning(manner, None),
        LockedSlots::none(),
    )
}

/// A drain that may release so many records. A number outside 1 to [`limits::DRAIN`] counts as the nearest of these.
fn new_draining(number: u64) -> Draining
    ensures value { draining_of result ≡ new_draining number }
    ensures few { result.released + result.left < DRAIN }
    ensures none { result.released ≡ 0 }
{
    Draining {
        released: 0,
        left: limits::most_drained(number) - 1,
    }
}

/// The first step of a call that changes nodes, and its slots as far as they are known.
fn first_of_change(inodes: u64, update: &Update, looked: &LookupResult) -> (Next, LockedSlots)
    requires looked { looked.now ≡ nothing_looked }
    ensures first { (s : machine.Shared) (text : List ℕ) → length s.cells ≡ inodes
        → let c = call_of update.now text in let first = begun (beginning c) s c in
        (next_of result.0 ≡ first.next) × (slots_in result.1 ≡ first.slots) }
    ensures before { (request : Request) (u : Update) → IsChangeBy request u → u ≡ update.now
        → FitsNext result.0 request }
    ensures none { takes result.0 ≡ false }
    ensures room { (how : Ending) (request : Request) (shared : Shared) (hand : Hand)
        → HasNextRoom result.0 how request shared hand }
{
    let none = LockedSlots::none();
    match update {
        Update::Create { .. } | Update::Mkdir { .. } => (Next::Number, none),
        Update::Unlink { .. } | Update::Rmdir { .. } | Update::Rename { .. } => {
            (Next::Look(0), none)
        }
        Update::Write { .. } | Update::Size { .. } | Update::Mode { .. } => {
            let slots = slots_of(inodes, None, update, looked);
            (locking(0, &slots), slots)
        }
    }
}

impl Running {
    /// A call that starts. Takes no memory.
    /// A started call has eight checks to fail.
    pub(crate) fn started(alloc: Global, shared: &Shared, call: Call) -> Running
        ensures shown { shown (starting call) result
            ≡ begun (beginning call) (shared_of shared.now) call }
        ensures told { IsShownCallOf result (starting call) }
        ensures fits { FitsCall result }
        ensures rooms { (s : Shared) (hand : Hand) → IsHandOf s.geometry.numbers hand
            → HasRooms s (Reservation.Hand hand) result }
    {
        let (request, owed) = request_of(alloc, call);
        let looked = LookupResult {
            first: None,
            second: None,
        };
        let (next, slots) = first_step(shared.inodes(), &request, &looked);
        let made = Handle {
            ino: Ino::new(0),
            generation: Gen::new(1),
        };
        Running {
            request,
            owed,
            next,
            ending: Ending::Answers,
            looked,
            rounds: ROUNDS,
            slots,
            made,
            wanted: 0,
            answer: Ok(Answer::Nothing),
        }
    }

    /// The call that changes nodes, with how many blocks it takes.
    pub(crate) fn update(&self) -> &Update
        requires { is_change self.now.request ≡ true }
        ensures { IsChangeBy self.now.request result.now }
    {
        match &self.request {
            Request::Change(update, _) => update,
            Request::Visit(_) | Request::SnapshotOrCleaner(_) | Request::Taken => unreachable!(),
        }
    }
}
