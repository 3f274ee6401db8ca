//! The steps of a world.

ghost use Rattle.std.specs.Prelude.{None, Some, ◌≡◌, ◌≢◌, IfErr, IfOk, OnErr, [], vec_capacity};
ghost use Rattle.nv_base.specs.declared.fault.Fault.TheVariants.{ActorBusy, ActorIdle, NoActor};
ghost use Rattle.nv_base.specs.Memory.{out_of_memory};
ghost use Rattle.nv_machine.specs.World as machine;
ghost use Rattle.nv_machine.specs.Step as machine_step;
ghost use Rattle.nv_calls.specs.Progress.{step_of};
ghost use Rattle.nv_core.specs.Rooms.{HasActorRooms, HasRooms, HasRoomsAfter};
ghost use Rattle.nv_machine.specs.Sequence.{beginning, begun};
ghost use Rattle.nv_core.specs.Shown.{shared_of};
ghost use Rattle.nv_core.specs.Steps.{CanStep, IsHandover};
ghost use Rattle.nv_core.specs.Turns.{CanGo, HasTurned, IsTurn, LeavesOthers};
ghost use Rattle.nv_core.specs.Worlds.{IsRun, IsStep, Shows, ShowsCall, ShowsRunning, reply_of, told_by};
ghost use Rattle.nv_restart.specs.Happenings.{Replied};

use crate::kinds::append::append;
use crate::kinds::check::check;
use crate::kinds::close::close;
use crate::kinds::enter::enter;
use crate::kinds::give::give;
use crate::kinds::leave::leave;
use crate::kinds::lock::lock;
use crate::kinds::look::look;
use crate::kinds::number::number;
use crate::kinds::open::open;
use crate::kinds::publish::publish;
use crate::kinds::ready::ready;
use crate::kinds::retire::retire;
use crate::kinds::return_number::return_number;
use crate::kinds::snapshot_or_cleaner::maintain;
use crate::kinds::take::{take_blocks, take_log_pages};
use crate::kinds::unlock::unlock;
use crate::kinds::visit::visit;
use crate::next::Next;
use crate::reservation::Reservation;
use crate::running::Running;
use crate::shared::Shared;
use crate::turn::{Turn, ended};
use crate::world::{Actor, World};
use crate::{Event, Reply};
use nv_alloc::Hand;
use nv_base::Fault;
use nv_calls::{Answer, Call, Commit, CommitStep};
use std::alloc::{AllocError, Global};
use std::mem;

impl World {
    /// One event. A `Go` makes one step of the actor's call. A `Stop` is the end of all calls, and takes memory: a `Start`
    /// and most steps take none.
    /// Only tested: each growth is refused in turn by `tools/refused-growths`.
    /// Only tested: memory is granted where there is some; the clause lets each step that grows say that it was
    /// refused.
    pub fn step(&mut self, event: Event) -> Reply
        // An event is replied to as the machine's step function replies.
        // A step is one of the actor that its event names.
        // The reply is the machine's both where memory was granted and where it was refused.
        // The world afterwards shows the machine's after that step.
        ensures { (m : machine.World) → Shows self.old m → IsStep m event result self.new }
    {
        match event {
            Event::Start(actor, call) => self.start(actor, call),
            Event::Go(actor) => self.go(actor),
            Event::Stop => self.restart(),
        }
    }

    /// Several events, one after another, each as `step` makes it. The replies stand in the order of the events.
    ///
    /// Room for the replies is made before the first event. Want of it hands the events back, and nothing has changed.
    pub fn run(&mut self, events: Vec<Event>) -> Result<Vec<Reply>, (Fault, Vec<Event>)>
        // Several events are as many steps with as many replies, in order.
        ensures ok { (m : machine.World) → Shows self.old m
            → IfOk result (λ replies. IsRun m events.items replies.items self.new) }
        // Want of memory hands the events back and changes nothing.
        ensures err { IfErr result (λ refused. (refused.0 ≡ out_of_memory)
            × (refused.1.items ≡ events.items)) }
        ensures same { OnErr result (self.new ≡ self.old) }
    {
        let mut replies = match self.no_replies(events.len()) {
            Ok(replies) => replies,
            Err(error) => return Err((error.into(), events)),
        };
        for event in events {
            replies.push_reserved(self.step(event));
        }
        Ok(replies)
    }

    /// No replies, with room for so many.
    fn no_replies(&self, room: usize) -> Result<Vec<Reply>, AllocError>
        ensures empty { IfOk result (λ replies. replies.items ≡ []) }
        ensures room { IfOk result (λ replies. vec_capacity replies ≡ room) }
    {
        Vec::with_capacity(self.alloc, room)
    }

    /// An actor starts a call: [`Event::Start`]. It is refused where the actor has a call already.
    pub fn start(&mut self, actor: u64, call: Call) -> Reply
        // `start` and `go` are `step` for an event's two kinds.
        // A start gives an actor without a call that call, before its first step.
        // An actor with a call is refused as busy.
        // A number that no actor has is refused by `NoActor`.
        ensures { (m : machine.World) → Shows self.old m
            → IsStep m (Event.Start actor call) result self.new }
    {
        let Some(state) = self.actors.get_mut(actor as usize) else {
            return refuse_no_actor(call);
        };
        begin(self.alloc, &self.shared, state, call)
    }

    /// An actor's call goes on by one step: [`Event::Go`].
    pub fn go(&mut self, actor: u64) -> Reply
        // It is `step` for an actor's `Go`.
        ensures step { (m : machine.World) → Shows self.old m
            → IsStep m (Event.Go actor) result self.new }
        // It never replies that the machine stopped.
        ensures replied { told_by result ≡ Replied (reply_of result) }
    {
        self.go_on(actor, 0)
    }

    /// One step of an actor's call. A reply that says that the call moved stays where it did, so that a step which moves
    /// hands no reply on.
    pub(crate) fn step_once(&mut self, actor: u64, reply: &mut Reply)
        requires { reply.old ≡ Reply.Moved }
        ensures step { (m : machine.World) → Shows self.old m
            → IsStep m (Event.Go actor) reply.new self.new }
        ensures replied { told_by reply.new ≡ Replied (reply_of reply.new) }
    {
        match self.actors.get_mut(actor as usize) {
            Some(state) => make_step(self.alloc, &mut self.shared, state, actor, reply),
            None => *reply = Reply::Refused(Fault::NoActor),
        }
    }
}

/// There is no actor for the call.
fn refuse_no_actor(_call: Call) -> Reply
    ensures { result ≡ Reply.Refused NoActor }
{
    Reply::Refused(Fault::NoActor)
}

/// An actor without a call starts one.
fn begin(alloc: Global, shared: &Shared, state: &mut Actor, call: Call) -> Reply
    requires rooms { HasActorRooms shared.now state.old.reserved state.old.running }
    ensures busy { (running : Running) → state.old.running ≡ Some running
        → (result ≡ Reply.Refused ActorBusy) × (state.new ≡ state.old) }
    ensures starts { state.old.running ≡ None → (result ≡ Reply.Started)
        × (state.new.reserved ≡ state.old.reserved)
        × ShowsRunning state.new.reserved state.new.running
        (Some (begun (beginning call) (shared_of shared.now) call)) }
    ensures rooms { HasActorRooms shared.now state.new.reserved state.new.running }
{
    if state.running.is_some() {
        return Reply::Refused(Fault::ActorBusy);
    }
    state.running = Some(Running::started(alloc, shared, call));
    Reply::Started
}

/// The call of an actor goes on by one step.
fn make_step(alloc: Global, shared: &mut Shared, state: &mut Actor, actor: u64, reply: &mut Reply)
    requires moved { reply.old ≡ Reply.Moved }
    requires can { CanGo shared.old state.old.reserved state.old.running actor }
    requires rooms { HasActorRooms shared.old state.old.reserved state.old.running }
    ensures idle { state.old.running ≡ None → (reply.new ≡ Reply.Refused ActorIdle)
        × (shared.new ≡ shared.old) × (state.new ≡ state.old) }
    ensures turns { (running : Running) (r : machine.Running) → state.old.running ≡ Some running
        → ShowsCall state.old.reserved running r
        → HasTurned actor shared.old state.old.reserved running r reply.new shared.new state.new }
    ensures rooms { HasActorRooms shared.new state.new.reserved state.new.running }
    ensures rest { (running : Running) (r : machine.Running) → state.old.running ≡ Some running
        → ShowsCall state.old.reserved running r → LeavesOthers actor r shared.old shared.new }
{
    let Actor { reserved, running } = state;
    let Some(call) = running else {
        *reply = Reply::Refused(Fault::ActorIdle);
        return;
    };
    match turn(alloc, shared, reserved, call, actor) {
        Turn::Moves => {}
        Turn::Waits => *reply = Reply::Waits,
        Turn::Ends => {
            *reply = ended(mem::replace(&mut call.answer, Ok(Answer::Nothing)));
            forget(running);
        }
    }
}

/// No call runs any more.
fn forget(running: &mut Option<Running>)
    ensures { running.new ≡ None }
{
    *running = None;
}

/// The step of a call that comes next.
fn turn(
    alloc: Global,
    shared: &mut Shared,
    reserved: &mut Reservation,
    running: &mut Running,
    actor: u64,
) -> Turn
    requires can { CanStep shared.old reserved.old running.old actor }
    requires rooms { HasRooms shared.old reserved.old running.old }
    // A `Go` makes the one step of its actor's call that comes next.
    ensures turn { (r : machine.Running) → ShowsCall reserved.old running.old r
        → IsTurn actor shared.old reserved.old r result shared.new reserved.new running.new }
    // A step that waits leaves what is shared, the hand and the call exactly as they were.
    ensures waits { result ≡ Turn.Waits
        → (shared.new ≡ shared.old) × (reserved.new ≡ reserved.old) × (running.new ≡ running.old) }
    ensures rooms { HasRoomsAfter result shared.new reserved.new running.new }
    // A step leaves to the other actors the cells of all inode slots that its own call does not hold.
    // A step leaves the book to another actor that commits.
    ensures rest { (r : machine.Running) → ShowsCall reserved.old running.old r
        → LeavesOthers actor r shared.old shared.new }
{
    match reserved {
        Reservation::Hand(hand) => match running.next {
            Next::Ready => handover_step(alloc, shared, reserved, running, actor),
            _ => hand_step(alloc, shared, hand, running, actor),
        },
        Reservation::Ready(_) => handover_step(alloc, shared, reserved, running, actor),
        Reservation::Commit(commit) => {
            if commit.step() == CommitStep::Leave {
                return handover_step(alloc, shared, reserved, running, actor);
            }
            commit_step(shared, running, commit, actor);
            Turn::Moves
        }
    }
}

/// A step of a call whose hand is with the actor alone.
#[inline(always)]
fn hand_step(
    alloc: Global,
    shared: &mut Shared,
    hand: &mut Hand,
    running: &mut Running,
    actor: u64,
) -> Turn
    requires apart { running.old.next ≢ Next.Ready }
    requires can { CanStep shared.old (Reservation.Hand hand.old) running.old actor }
    requires rooms { HasRooms shared.old (Reservation.Hand hand.old) running.old }
    ensures turn { (r : machine.Running) → ShowsCall (Reservation.Hand hand.old) running.old r
        → IsTurn actor shared.old (Reservation.Hand hand.old) r result shared.new (Reservation.Hand hand.new)
        running.new }
    ensures waits { result ≡ Turn.Waits
        → (shared.new ≡ shared.old) × ((Reservation.Hand hand.new) ≡ (Reservation.Hand hand.old))
        × (running.new ≡ running.old) }
    ensures rooms { HasRoomsAfter result shared.new (Reservation.Hand hand.new) running.new }
    ensures rest { (r : machine.Running) → ShowsCall (Reservation.Hand hand.old) running.old r
        → LeavesOthers actor r shared.old shared.new }
{
    match running.next {
        Next::Number => number(shared, hand, running),
        Next::Look(place) => look(shared, hand, running, place),
        Next::Lock(place) => lock(shared, running, actor, place),
        Next::Check => check(shared, hand, running),
        Next::TakeBlocks(asked) => take_blocks(shared, hand, running, actor, asked),
        Next::TakeLogPages(asked) => take_log_pages(shared, hand, running, actor, asked),
        Next::Ready => unreachable!(),
        Next::Unlock(place) => unlock(shared, hand, running, place),
        Next::Give(cpu) => give(shared, hand, running, cpu),
        Next::ReturnNumber => return_number(shared, hand, running),
        Next::Visit => visit(shared, running),
        Next::SnapshotOrCleaner(_) => maintain(alloc, shared, hand, running, actor),
    }
}

/// A step that passes the hand on: it is made ready, it enters, or it leaves.
#[inline(always)]
fn handover_step(
    alloc: Global,
    shared: &mut Shared,
    reserved: &mut Reservation,
    running: &mut Running,
    actor: u64,
) -> Turn
    requires passes { IsHandover reserved.old running.old }
    requires can { CanStep shared.old reserved.old running.old actor }
    requires rooms { HasRooms shared.old reserved.old running.old }
    ensures turn { (r : machine.Running) → ShowsCall reserved.old running.old r
        → IsTurn actor shared.old reserved.old r result shared.new reserved.new running.new }
    ensures waits { result ≡ Turn.Waits
        → (shared.new ≡ shared.old) × (reserved.new ≡ reserved.old) × (running.new ≡ running.old) }
    ensures rooms { HasRoomsAfter result shared.new reserved.new running.new }
    ensures rest { (r : machine.Running) → ShowsCall reserved.old running.old r
        → LeavesOthers actor r shared.old shared.new }
{
    match reserved {
        Reservation::Hand(_hand) => ready(alloc, shared, reserved, running),
        Reservation::Ready(_held) => enter(shared, reserved, running, actor),
        Reservation::Commit(_commit) => leave(shared, reserved, running),
    }
}

/// A step of a commit that is not over.
fn commit_step(shared: &mut Shared, running: &Running, commit: &mut Commit, actor: u64)
    requires going { step_of commit.old ≢ CommitStep.Leave }
    requires can { CanStep shared.old (Reservation.Commit commit.old) running.now actor }
    requires rooms { HasRooms shared.old (Reservation.Commit commit.old) running.now }
    ensures turn { (r : machine.Running) → ShowsCall (Reservation.Commit commit.old) running.now r
        → IsTurn actor shared.old (Reservation.Commit commit.old) r Turn.Moves shared.new
        (Reservation.Commit commit.new) running.now }
    ensures rooms { HasRoomsAfter Turn.Moves shared.new (Reservation.Commit commit.new) running.now }
    ensures rest { (r : machine.Running) → ShowsCall (Reservation.Commit commit.old) running.now r
        → LeavesOthers actor r shared.old shared.new }
{
    let cpu = shared.cpu_of(actor);
    match commit.step() {
        CommitStep::Append => append(shared, running, commit),
        CommitStep::Open => open(shared, running, commit, cpu),
        CommitStep::Publish => publish(shared, running, commit),
        CommitStep::Close => close(shared, running, commit, cpu),
        CommitStep::Retire => retire(shared, running, commit),
        CommitStep::Leave => unreachable!(),
    }
}
