//! The step that an actor's call makes next, told before it is made.

ghost use Rattle.std.specs.Prelude.{◌≡◌, ◌<◌, ◌+◌, ◌^◌, ℕ, List, None, Some, length};
ghost use Rattle.nv_calls.specs.Locked.{handles};
ghost use Rattle.nv_calls.specs.Ready.{plan_at};
ghost use Rattle.nv_calls.specs.declared.call.Call.{Call};
ghost use Rattle.nv_machine.specs.PlainRun.{plain_change};
ghost use Rattle.nv_machine.specs.Reads.{slot_at};
ghost use Rattle.nv_machine.specs.Sequence.{directories, nothing_looked};
ghost use Rattle.nv_machine.specs.Step.{handle_at};
ghost use Rattle.nv_machine.specs.StepRows.{name_of, name_on};
ghost use Rattle.nv_machine.specs.World as machine;
ghost use Rattle.nv_machine.specs.World.{actor_at, owner_at};
ghost use Rattle.nv_core.specs.GhostCalls.{IsCommitOf, IsLookAt, IsRequestOf, IsShownCallOf, IsVisitOf};
ghost use Rattle.nv_core.specs.NextSteps.{IsNext, IsOf, TellsStep, holder_for, holder_on, name_in, number_at};
ghost use Rattle.nv_core.specs.Rooms.{HasActorRooms, HasRooms};
ghost use Rattle.nv_core.specs.Shown.{ShownCall, commit_next, next_of, shared_of, shown, shown_commit, slots_in, step_on};
ghost use Rattle.nv_core.specs.Steps.{CanStep};
ghost use Rattle.nv_core.specs.Turns.{CanGo};
ghost use Rattle.nv_core.specs.Worlds.{Shows, ShowsCall};

use crate::next::{FreshPages, Next, SnapshotOrCleanerStep};
use crate::request::{PendingAnswer, Request, visited};
use crate::reservation::Reservation;
use crate::running::Running;
use crate::shared::Shared;
use crate::world::{Actor, World};
use nv_alloc::Hand;
use nv_base::{CommitNo, Ino};
use nv_calls::{Commit, CommitStep, directory};

/// A step of a call by name, with its inode slot, its CPU or its directory.
#[derive(Clone, Copy, Debug, PartialEq, Eq)]
pub enum StepName {
    Number,
    /// The names of a directory are looked up.
    Look(Ino),
    Lock(Ino),
    Check,
    /// Data blocks are taken from the list of a CPU.
    TakeBlocks(u64),
    TakeLogPages(u64),
    Ready,
    Enter,
    Append(Ino),
    /// The journal of a CPU is opened.
    Open(u64),
    Publish(Ino),
    Close(u64),
    Retire(Ino),
    Leave,
    Unlock(Ino),
    /// Blocks go home to the list of a CPU.
    Give(u64),
    ReturnNumber,
    Visit(Ino),
    Make,
    Drop,
    Pin,
    Show(Ino),
    Unpin,
    Pick,
    LockPicked(Ino),
    Release(Ino),
    LockCleaned(Ino),
    PlanCleaning,
    Fresh(u64),
    Unlink(Ino),
    Compact(Ino),
}

/// The step that comes next.
#[derive(Clone, Copy, Debug, PartialEq, Eq)]
pub struct NextStep {
    pub name: StepName,
    /// The number of the commit, where the step is its commit point.
    pub commits: Option<CommitNo>,
    /// The actor that holds the lock which the step needs, where another one does.
    pub waits_for: Option<u64>,
}

impl World {
    /// The step that an actor's call makes next: what [`World::go`] does, if it is called now. `None` where there is no
    /// such actor, or where it runs no call.
    ///
    /// Takes no memory; the time is constant.
    pub fn next_step(&self, actor: u64) -> Option<NextStep>
        // The step is told by the machine's name, with its commit's number at its commit point alone, and
        // with the holder of the lock that it waits for; nothing is told where no call runs.
        ensures { (m : machine.World) → Shows self.now m
            → IsNext m actor (actor_at m actor).running result }
    {
        match self.actors.get(actor as usize) {
            Some(state) => next_of(&self.shared, state, actor),
            None => None,
        }
    }
}

/// The next step of an actor that is there.
fn next_of(shared: &Shared, state: &Actor, actor: u64) -> Option<NextStep>
    requires can { CanGo shared.now state.now.reserved state.now.running actor }
    requires rooms { HasActorRooms shared.now state.now.reserved state.now.running }
    ensures none { state.now.running ≡ None → result ≡ None }
    ensures some { (running : Running) (r : machine.Running) → state.now.running ≡ Some running
        → ShowsCall state.now.reserved running r
        → IsOf (TellsStep (shared_of shared.now) (length shared.now.lists.items) actor r) result }
{
    match &state.running {
        Some(running) => Some(next_by(shared, &state.reserved, running, actor)),
        None => None,
    }
}

/// The next step of a call.
fn next_by(shared: &Shared, reserved: &Reservation, running: &Running, actor: u64) -> NextStep
    requires can { CanStep shared.now reserved.now running.now actor }
    requires rooms { HasRooms shared.now reserved.now running.now }
    ensures { (r : machine.Running) → ShowsCall reserved.now running.now r
        → TellsStep (shared_of shared.now) (length shared.now.lists.items) actor r result }
{
    match reserved {
        Reservation::Hand(hand) => alone(shared, hand, running, actor),
        Reservation::Ready(_ready) => uncommitted(StepName::Enter, shared.holder),
        Reservation::Commit(commit) => NextStep {
            name: name_in(shared, running, commit, actor),
            commits: committed(commit),
            waits_for: None,
        },
    }
}

/// A step that is no commit point.
fn uncommitted(name: StepName, waits_for: Option<u64>) -> NextStep
    ensures { result ≡ record { name = name; commits = None; waits_for = waits_for } }
{
    NextStep {
        name,
        commits: None,
        waits_for,
    }
}

/// A step that needs the lock of a slot.
fn on_slot(shared: &Shared, name: StepName, ino: Ino) -> NextStep
    ensures { result ≡ record {
      name = name;
      commits = None;
      waits_for = owner_at (shared_of shared.now) ino;
    } }
{
    uncommitted(name, owner_of(shared, ino))
}

/// The actor that holds the lock of a slot. A slot that is not there has none.
fn owner_of(shared: &Shared, ino: Ino) -> Option<u64>
    ensures { result ≡ owner_at (shared_of shared.now) ino }
{
    match shared.owners.get(ino.number() as usize) {
        Some(owner) => *owner,
        None => None,
    }
}

// ---- while the hand is with the actor alone

/// The next step of a call whose hand is with the actor alone.
fn alone(shared: &Shared, _hand: &Hand, running: &Running, actor: u64) -> NextStep
    requires can { CanStep shared.now (Reservation.Hand _hand.now) running.now actor }
    requires rooms { HasRooms shared.now (Reservation.Hand _hand.now) running.now }
    ensures name { (told : ShownCall) → IsShownCallOf running.now told → name_in result.name
        ≡ name_of (next_of running.now.next) (length shared.now.lists.items) actor
        (shown told running.now) }
    ensures waits { (told : ShownCall) → IsShownCallOf running.now told → result.waits_for
        ≡ holder_for (shared_of shared.now) (shown told running.now) (next_of running.now.next) }
    ensures commits { result.commits ≡ None }
{
    match &running.next {
        Next::Number => uncommitted(StepName::Number, None),
        Next::Look(place) => {
            let ino = looked_in(running, *place);
            on_slot(shared, StepName::Look(ino), ino)
        }
        Next::Lock(place) => {
            let ino = running.slots.at(*place);
            on_slot(shared, StepName::Lock(ino), ino)
        }
        Next::Check => uncommitted(StepName::Check, None),
        Next::TakeBlocks(asked) => {
            uncommitted(StepName::TakeBlocks(shared.cpu_of(actor + *asked)), None)
        }
        Next::TakeLogPages(asked) => {
            uncommitted(StepName::TakeLogPages(shared.cpu_of(actor + *asked)), None)
        }
        Next::Ready => uncommitted(StepName::Ready, None),
        Next::Unlock(place) => uncommitted(StepName::Unlock(running.slots.at(*place)), None),
        Next::Give(cpu) => uncommitted(StepName::Give(*cpu), None),
        Next::ReturnNumber => uncommitted(StepName::ReturnNumber, None),
        Next::Visit => {
            let ino = visited_by(&running.request);
            on_slot(shared, StepName::Visit(ino), ino)
        }
        Next::SnapshotOrCleaner(step) => snapshot_or_cleaner(shared, step, actor),
    }
}

/// The directory of a look.
fn looked_in(running: &Running, place: usize) -> Ino
    requires { IsLookAt place running.now.request }
    ensures { (told : ShownCall) → IsShownCallOf running.now told
        → result ≡ (handle_at (directories told.call) place).ino }
{
    directory(running.update(), place).ino
}

/// The inode that a visit reads.
fn visited_by(request: &Request) -> Ino
    requires { IsVisitOf request.now }
    ensures { (owed : PendingAnswer) (c : Call) → IsRequestOf request.now owed c
        → result ≡ (handle_at (handles nothing_looked c) 0).ino }
{
    let Request::Visit(call) = request else {
        unreachable!()
    };
    visited(call).ino
}

/// The next step of a call on snapshots, or of a cleaner.
fn snapshot_or_cleaner(shared: &Shared, step: &SnapshotOrCleanerStep, actor: u64) -> NextStep
    requires lists { 0 < length shared.now.lists.items }
    requires fresh { (fresh : FreshPages) → step.now ≡ SnapshotOrCleanerStep.Fresh fresh
        → actor + fresh.asked < 2 ^ 64 }
    ensures name { name_in result.name
        ≡ name_on (step_on step.now) (length shared.now.lists.items) actor }
    ensures waits { result.waits_for ≡ holder_on (shared_of shared.now) (step_on step.now) }
    ensures commits { result.commits ≡ None }
{
    match step {
        SnapshotOrCleanerStep::Make => uncommitted(StepName::Make, shared.holder),
        SnapshotOrCleanerStep::Drop(_) => uncommitted(StepName::Drop, shared.holder),
        SnapshotOrCleanerStep::Pin(_) => uncommitted(StepName::Pin, shared.holder),
        SnapshotOrCleanerStep::Show(_, showing) => {
            let ino = showing.visited().ino;
            on_slot(shared, StepName::Show(ino), ino)
        }
        SnapshotOrCleanerStep::Unpin(..) => uncommitted(StepName::Unpin, shared.holder),
        SnapshotOrCleanerStep::Pick(_) => uncommitted(StepName::Pick, shared.holder),
        SnapshotOrCleanerStep::LockPicked(_, picked) => {
            on_slot(shared, StepName::LockPicked(picked.ino), picked.ino)
        }
        SnapshotOrCleanerStep::Release(_, picked) => uncommitted(
            StepName::Release(picked.ino),
            None,
        ),
        SnapshotOrCleanerStep::LockCleaned(log) => {
            on_slot(shared, StepName::LockCleaned(log.ino), log.ino)
        }
        SnapshotOrCleanerStep::PlanCleaning(..) => uncommitted(StepName::PlanCleaning, None),
        SnapshotOrCleanerStep::Fresh(fresh) => {
            uncommitted(StepName::Fresh(shared.cpu_of(actor + fresh.asked)), None)
        }
        SnapshotOrCleanerStep::Unlink(plan) => uncommitted(StepName::Unlink(plan.ino), None),
        SnapshotOrCleanerStep::Compact(plan) => uncommitted(StepName::Compact(plan.ino), None),
    }
}

// ---- in a commit

/// The name of the next step of a commit.
fn name_in(shared: &Shared, running: &Running, commit: &Commit, actor: u64) -> StepName
    requires can { CanStep shared.now (Reservation.Commit commit.now) running.now actor }
    requires rooms { HasRooms shared.now (Reservation.Commit commit.now) running.now }
    ensures { (told : ShownCall) → IsCommitOf (slots_in running.now.slots) commit.now told
        → name_in result ≡ name_of (commit_next commit.now) (length shared.now.lists.items) actor
        (shown_commit commit.now told running.now) }
{
    match commit.step() {
        CommitStep::Append => StepName::Append(written(running, commit, commit.appended())),
        CommitStep::Open => StepName::Open(shared.cpu_of(actor)),
        CommitStep::Publish => StepName::Publish(written(running, commit, commit.published())),
        CommitStep::Close => StepName::Close(shared.cpu_of(actor)),
        CommitStep::Retire => StepName::Retire(written(running, commit, commit.retired())),
        CommitStep::Leave => StepName::Leave,
    }
}

/// The slot of an inode that gets entries.
fn written(running: &Running, commit: &Commit, j: usize) -> Ino
    requires planned { j < length commit.now.plans }
    requires place { (plan_at commit.now.plans j).at < length (slots_in running.now.slots) }
    ensures { result ≡ slot_at (slots_in running.now.slots) (plan_at commit.now.plans j).at }
{
    running.slots.at(commit.place_of(j))
}

/// The number of a commit whose next step is its commit point: the publish of one inode alone, or else the close.
fn committed(commit: &Commit) -> Option<CommitNo>
    ensures { (slots : List ℕ) (t : machine.Turn) → length slots ≡ length commit.now.plans
        → result ≡ number_at (plain_change (commit_next commit.now) slots t)
        commit.now.stamp.commit }
{
    match commit.step() {
        CommitStep::Publish => {
            if commit.planned() > 1 {
                return None;
            }
            Some(commit.stamp().commit)
        }
        CommitStep::Close => Some(commit.stamp().commit),
        _ => None,
    }
}
