//! Events that are told: a line for each start and each step.

ghost use Rattle.std.specs.Prelude.{◌≡◌, ◌++◌, ◌+◌, IfOk, OnOk, Some, option_map};
ghost use Rattle.nv_core.specs.CallNames.{call_name};
ghost use Rattle.nv_core.specs.NextSteps.{name_in};
ghost use Rattle.nv_core.specs.Worlds.{IsStep, Leads, Shows, reply_of, told_by};
ghost use Rattle.nv_core.specs.declared.event.Event.{Event};
ghost use Rattle.nv_machine.specs.World as machine;
ghost use Rattle.nv_machine.specs.World.{actor_at};
ghost use Rattle.nv_restart.specs.Happenings.{Replied};
ghost use Rattle.nv_script.specs.Trace.{CallsTraced, GoesTraced, RunsTraced, awaited_member, event_head, left_members, made_members, object_head, replied_members, start_line, start_lines, step_by, step_head, step_object, step_text};
ghost use Rattle.nv_trace.specs.Traced.{Adds, IsTracedStep, lent_named};

use crate::json_world::{push_hand_of, push_lent};
use crate::traced_words::{push_optional, push_replied, reply_word, step_place, step_word};
use nv_base::CommitNo;
use nv_core::{Call, CallName, MOST_STEPS, NextStep, Reply, StepName, World};
use nv_script::text::push_labelled;
use nv_script::{Trace, call_text};
use std::alloc::AllocError;

/// Adds what the line of an event begins with.
fn push_event_head(
    out: &mut Vec<u8>,
    number: u64,
    actor: u64,
    call: CallName,
) -> Result<(), AllocError>
    ensures { OnOk result (out.new.items ≡ out.old.items ++ event_head number actor call) }
{
    push_labelled(out, b"  ", number)?;
    push_labelled(out, b" ", actor)?;
    out.push(b' ')?;
    out.extend_from_slice(call_text(call))?;
    Ok(out.push(b' ')?)
}

/// Adds what the object of an event begins with.
fn push_object_head(
    out: &mut Vec<u8>,
    number: u64,
    actor: u64,
    call: CallName,
) -> Result<(), AllocError>
    ensures { OnOk result (out.new.items ≡ out.old.items ++ object_head number actor call) }
{
    push_labelled(out, b"{\"line\":", number)?;
    push_labelled(out, b",\"actor\":", actor)?;
    out.extend_from_slice(b",\"call\":\"")?;
    out.extend_from_slice(call_text(call))?;
    out.extend_from_slice(b"\",\"step\":\"")
}

/// Adds the line of a start, where the call was started.
fn push_start(
    out: &mut Vec<u8>,
    trace: Trace,
    number: u64,
    actor: u64,
    call: CallName,
    reply: &Reply,
) -> Result<(), AllocError>
    ensures { OnOk result (out.new.items
        ≡ out.old.items ++ start_lines trace number actor call (reply_of reply.now)) }
{
    match reply {
        Reply::Started => push_start_line(out, trace, number, actor, call),
        _ => Ok(()),
    }
}

/// Adds the line of a start.
fn push_start_line(
    out: &mut Vec<u8>,
    trace: Trace,
    number: u64,
    actor: u64,
    call: CallName,
) -> Result<(), AllocError>
    ensures { OnOk result (out.new.items
        ≡ out.old.items ++ start_line trace number actor call) }
{
    match trace {
        Trace::Off => Ok(()),
        Trace::Text => {
            push_event_head(out, number, actor, call)?;
            out.extend_from_slice(b"start\n")
        }
        Trace::Json => {
            push_object_head(out, number, actor, call)?;
            out.extend_from_slice(b"start\",\"reply\":\"started\"}\n")
        }
    }
}

/// Adds the line of a step, of which this was told before it was made, and which left this world.
fn push_step(
    out: &mut Vec<u8>,
    trace: Trace,
    number: u64,
    actor: u64,
    call: CallName,
    next: &NextStep,
    reply: &Reply,
    world: &World,
) -> Result<(), AllocError>
    ensures { OnOk result ((m : machine.World) → Shows world.now m → out.new.items ≡ out.old.items
        ++ step_by trace number actor call (name_in next.now.name) (reply_of reply.now)
        next.now.waits_for next.now.commits (lent_named (name_in next.now.name)) m) }
{
    match trace {
        Trace::Off => Ok(()),
        Trace::Text => push_step_text(out, number, actor, call, next, reply),
        Trace::Json => push_step_object(out, number, actor, call, next, reply, world),
    }
}

/// Adds the line of a step, as an object.
fn push_step_object(
    out: &mut Vec<u8>,
    number: u64,
    actor: u64,
    call: CallName,
    next: &NextStep,
    reply: &Reply,
    world: &World,
) -> Result<(), AllocError>
    ensures { OnOk result ((m : machine.World) → Shows world.now m → out.new.items ≡ out.old.items
        ++ step_object number actor call (name_in next.now.name) (reply_of reply.now)
        next.now.waits_for next.now.commits (lent_named (name_in next.now.name)) m) }
{
    push_step_head(out, number, actor, call, next)?;
    push_replied_members(out, reply, next)?;
    push_left(out, reply, actor, next.name, world)?;
    out.extend_from_slice(b"}\n")
}

/// Adds what the object of a step begins with.
fn push_step_head(
    out: &mut Vec<u8>,
    number: u64,
    actor: u64,
    call: CallName,
    next: &NextStep,
) -> Result<(), AllocError>
    ensures { OnOk result (out.new.items
        ≡ out.old.items ++ step_head number actor call (name_in next.now.name)) }
{
    push_object_head(out, number, actor, call)?;
    out.extend_from_slice(step_word(next.name))?;
    out.push(b'"')?;
    push_optional(out, b",\"at\":", step_place(next.name))
}

/// Adds the reply to a step, and what was told of it before: whom it waits for, and its commit.
fn push_replied_members(out: &mut Vec<u8>, reply: &Reply, next: &NextStep) -> Result<(), AllocError>
    ensures { OnOk result (out.new.items ≡ out.old.items
        ++ replied_members (reply_of reply.now) next.now.waits_for next.now.commits) }
{
    out.extend_from_slice(b",\"reply\":\"")?;
    out.extend_from_slice(reply_word(reply))?;
    out.push(b'"')?;
    push_awaited(out, reply, next.waits_for)?;
    push_optional(out, b",\"commit\":", number_of(next.commits))
}

/// Adds the actor that a step waits for, where it waits.
fn push_awaited(out: &mut Vec<u8>, reply: &Reply, holder: Option<u64>) -> Result<(), AllocError>
    ensures { OnOk result (out.new.items
        ≡ out.old.items ++ awaited_member (reply_of reply.now) holder) }
{
    match reply {
        Reply::Waits | Reply::Stopped => push_optional(out, b",\"for\":", holder),
        Reply::Started | Reply::Moved | Reply::Done(_) | Reply::Refused(_) => Ok(()),
    }
}

/// Adds what a step has left, where it was made.
fn push_left(
    out: &mut Vec<u8>,
    reply: &Reply,
    actor: u64,
    name: StepName,
    world: &World,
) -> Result<(), AllocError>
    ensures { OnOk result ((m : machine.World) → Shows world.now m → out.new.items ≡ out.old.items
        ++ left_members (reply_of reply.now) actor (lent_named (name_in name)) m) }
{
    match reply {
        Reply::Started | Reply::Waits | Reply::Stopped => Ok(()),
        Reply::Moved | Reply::Done(_) | Reply::Refused(_) => push_made(out, actor, name, world),
    }
}

/// Adds its actor's hand, and the parts that a step with this name is lent.
fn push_made(out: &mut Vec<u8>, actor: u64, name: StepName, world: &World) -> Result<(), AllocError>
    ensures { OnOk result ((m : machine.World) → Shows world.now m → out.new.items
        ≡ out.old.items ++ made_members actor (lent_named (name_in name)) m) }
{
    out.extend_from_slice(b",\"hand\":")?;
    push_hand_of(out, world, actor)?;
    out.extend_from_slice(b",\"lent\":")?;
    push_lent(out, world, name)
}

/// Adds the line of a step, as words.
fn push_step_text(
    out: &mut Vec<u8>,
    number: u64,
    actor: u64,
    call: CallName,
    next: &NextStep,
    reply: &Reply,
) -> Result<(), AllocError>
    ensures { OnOk result (out.new.items ≡ out.old.items
        ++ step_text number actor call (name_in next.now.name) (reply_of reply.now)
        next.now.waits_for next.now.commits) }
{
    push_event_head(out, number, actor, call)?;
    out.extend_from_slice(step_word(next.name))?;
    push_optional(out, b" ", step_place(next.name))?;
    out.push(b' ')?;
    push_replied(out, reply, next.waits_for)?;
    push_optional(out, b" commit ", number_of(next.commits))?;
    Ok(out.push(b'\n')?)
}

/// The number of a commit, where there is one.
fn number_of(commit: Option<CommitNo>) -> Option<u64>
    ensures { result ≡ commit }
{
    match commit {
        Some(commit) => Some(commit.number()),
        None => None,
    }
}

/// Starts a call of an actor, and adds the line of that event.
pub(crate) fn start(
    world: &mut World,
    trace: Trace,
    number: u64,
    actor: u64,
    call: Call,
    out: &mut Vec<u8>,
) -> Result<Reply, AllocError>
    ensures step { IfOk result (λ reply. (m : machine.World) → Shows world.old m
        → IsStep m (Event.Start actor call) reply world.new) }
    ensures event { IfOk result (λ reply. out.new.items
        ≡ out.old.items ++ start_lines trace number actor (call_name call) (reply_of reply)) }
{
    let name = CallName::of(&call);
    let reply = world.start(actor, call);
    push_start(out, trace, number, actor, name, &reply)?;
    Ok(reply)
}

/// Makes one step of an actor's call, and adds the line of that event. An event of an actor that runs no call has none.
fn step(
    world: &mut World,
    trace: Trace,
    number: u64,
    actor: u64,
    out: &mut Vec<u8>,
) -> Result<Reply, AllocError>
    ensures step { IfOk result (λ reply. (m : machine.World) → Shows world.old m
        → IsTracedStep trace number m actor reply out.old.items out.new.items world.new) }
    ensures replied { IfOk result (λ reply. told_by reply ≡ Replied (reply_of reply)) }
{
    match world.running_call(actor) {
        Some(call) => step_of(world, trace, number, actor, call, out),
        None => Ok(world.go(actor)),
    }
}

/// Makes one step of the call that an actor runs, and adds its line. The world is asked before the step what it will be.
fn step_of(
    world: &mut World,
    trace: Trace,
    number: u64,
    actor: u64,
    call: CallName,
    out: &mut Vec<u8>,
) -> Result<Reply, AllocError>
    requires { (m : machine.World) → Shows world.old m
        → Some call ≡ option_map (λ r. call_name r.call) (actor_at m actor).running }
    ensures step { IfOk result (λ reply. (m : machine.World) → Shows world.old m
        → IsTracedStep trace number m actor reply out.old.items out.new.items world.new) }
    ensures replied { IfOk result (λ reply. told_by reply ≡ Replied (reply_of reply)) }
{
    let Some(next) = world.next_step(actor) else {
        return Ok(world.go(actor));
    };
    let reply = world.go(actor);
    push_step(out, trace, number, actor, call, &next, &reply, world)?;
    Ok(reply)
}

/// Makes one step of an actor's call and `more` at most, up to the first reply that it did not move, and adds the lines of their
/// events.
pub(crate) fn go_on(
    world: &mut World,
    trace: Trace,
    number: u64,
    actor: u64,
    more: u64,
    out: &mut Vec<u8>,
) -> Result<Reply, AllocError>
    // Each event that is made has its line, and the last step has one too.
    ensures goes { IfOk result (λ reply. Leads (λ m n. Adds out.old.items out.new.items (λ events.
        GoesTraced trace number (more + 1) m actor events (reply_of reply) n)) world.old world.new) }
    ensures replied { IfOk result (λ reply. told_by reply ≡ Replied (reply_of reply)) }
{
    let mut left = more;
    loop {
        let reply = step(world, trace, number, actor, out)?;
        match reply {
            Reply::Moved => {}
            reply => return Ok(reply),
        }
        if left == 0 {
            return Ok(Reply::Moved);
        }
        left -= 1;
    }
}

/// Makes the steps of an actor's call up to its end, and adds the lines of their events.
pub(crate) fn finish(
    world: &mut World,
    trace: Trace,
    number: u64,
    actor: u64,
    out: &mut Vec<u8>,
) -> Result<Reply, AllocError>
    ensures runs { IfOk result (λ reply. Leads (λ m n. Adds out.old.items out.new.items (λ events.
        RunsTraced trace number m actor events (reply_of reply) n)) world.old world.new) }
    ensures replied { IfOk result (λ reply. told_by reply ≡ Replied (reply_of reply)) }
{
    // No call has so many steps.
    world.calls_end();
    go_on(world, trace, number, actor, MOST_STEPS - 1, out)
}

/// Makes a whole call of an actor, and adds the lines of its events: its start, and its steps up to its end.
pub(crate) fn call(
    world: &mut World,
    trace: Trace,
    number: u64,
    actor: u64,
    call: Call,
    out: &mut Vec<u8>,
) -> Result<Reply, AllocError>
    ensures calls { IfOk result (λ reply. Leads (λ m n. Adds out.old.items out.new.items (λ events.
        CallsTraced trace number m actor call events (reply_of reply) n)) world.old world.new) }
    ensures replied { IfOk result (λ reply. (m : machine.World) → Shows world.old m
        → told_by reply ≡ Replied (reply_of reply)) }
{
    let reply = start(world, trace, number, actor, call, out)?;
    match reply {
        Reply::Started => finish(world, trace, number, actor, out),
        refused => Ok(refused),
    }
}
