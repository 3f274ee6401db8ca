//! What lines do to a world, and what they write as JSON.

ghost use Rattle.std.specs.Prelude.{◌≡◌, ◌<◌, ◌+◌, ◌-◌, ◌^◌, ◌++◌, [], None, OnOk, true};
ghost use Rattle.nv_base.specs.Limits.{first_bad_field};
ghost use Rattle.nv_core.specs.Worlds.{Leads, Shows, told_by};
ghost use Rattle.nv_machine.specs.World as machine;
ghost use Rattle.nv_script.specs.declared.trace.Trace.TheVariants as trace;
ghost use Rattle.nv_script.specs.Grammar.{is_skipped};
ghost use Rattle.nv_script.specs.Json.{answer_lines};
ghost use Rattle.nv_script.specs.Play.{ActsBy, nodes_at, reports_of};
ghost use Rattle.nv_script.specs.Results.{IsTree, LineIs, ListsText, MakesTold, failed_in_line};
ghost use Rattle.nv_script.specs.Texts.{told_line};
ghost use Rattle.nv_script.specs.Trace.{ActsTracedBy, RestartsTold};
ghost use Rattle.nv_trace.specs.Traced.{is_report};
ghost use Rattle.nv_restart.specs.Restarted.{restarted};

use crate::act::answer;
use crate::events;
use crate::json::push_answer_lines;
use crate::json_world::push_world_line;
use nv_base::{Epoch, Fault, GeometryNumbers};
use nv_core::{Reply, Tree, World};
use nv_script::act::{audit, format, tell};
use nv_script::command::{Command, is_skipped, read_command, read_format};
use nv_script::fault::LineFault;
use nv_script::outbox::Outbox;
use nv_script::text::{push_nodes, push_refused, push_reply};
use nv_script::word::words;
use nv_script::{CountedWrite, Telling, Trace};
use std::alloc::{AllocError, Global};

/// Plays one line, which has no line end, as [`nv_script::act::play_line`] does, and tells it as JSON. All that it writes is in `out`
/// then, except for the head.
pub(crate) fn play_line<W: CountedWrite>(
    alloc: Global,
    world: &mut Option<World>,
    line: &[u8],
    telling: Telling<'_>,
    out: &mut Vec<u8>,
    outbox: &mut Outbox,
    writer: &mut W,
) -> Result<(), LineFault>
    requires skipped { is_skipped line.now ≡ true → telling.head.now ≡ [] }
    requires failures { W.failed writer.old < 2 ^ 64 - 1 }
    ensures line { LineIs trace.Json telling.entry.number telling.entry.head.now result
        (record { written = W.contents writer.old; gathered = outbox.old })
        (record { written = W.contents writer.new; gathered = outbox.new })
        world.old line.now out.new.items world.new }
    ensures failed { W.failed writer.new ≡ W.failed writer.old + failed_in_line result }
    ensures same_writer { W.place writer.new ≡ W.place writer.old }
{
    out.clear();
    if is_skipped(line) {
        return Ok(());
    }
    let words = words(alloc, line)?;
    let head = telling.head;
    match world {
        None => {
            let numbers = read_format(words.as_slice())?;
            format_told(alloc, world, telling.number, &numbers, out)?;
            outbox.add(writer, head)?;
            Ok(())
        }
        Some(world) => {
            let command = read_command(alloc, words.as_slice())?;
            act(alloc, world, telling.number, command, out)?;
            outbox.add(writer, head)?;
            Ok(())
        }
    }
}

/// Makes the world, and adds it and the answer. Where that is refused there is still none.
fn format_told(
    alloc: Global,
    world: &mut Option<World>,
    number: u64,
    numbers: &GeometryNumbers,
    out: &mut Vec<u8>,
) -> Result<(), AllocError>
    requires none { world.old ≡ None }
    requires empty { out.old.items ≡ [] }
    ensures { OnOk result (MakesTold trace.Json number (first_bad_field numbers.now) numbers.now
        out.new.items world.new) }
{
    let mut answer = Vec::new(alloc);
    format(alloc, world, numbers, &mut answer)?;
    match world {
        Some(made) => {
            push_world_line(out, number, made)?;
            push_answer_lines(out, number, answer.as_slice())
        }
        None => push_answer_lines(out, number, answer.as_slice()),
    }
}

/// Acts on a command, and adds its events and each line of its answer.
fn act(
    alloc: Global,
    world: &mut World,
    number: u64,
    command: Command,
    out: &mut Vec<u8>,
) -> Result<(), AllocError>
    requires empty { out.old.items ≡ [] }
    ensures { OnOk result (Leads (λ m n. ActsTracedBy (reports_of m) trace.Json number m command
        out.new.items n) world.old world.new) }
{
    let form = Trace::Json;
    match command {
        Command::Start(actor, call) => answer(
            events::start(world, form, number, actor, call, out),
            form,
            alloc,
            number,
            out,
        ),
        Command::Go(actor, more) => answer(
            events::go_on(world, form, number, actor, more, out),
            form,
            alloc,
            number,
            out,
        ),
        Command::Run(actor) => answer(
            events::finish(world, form, number, actor, out),
            form,
            alloc,
            number,
            out,
        ),
        Command::Do(actor, call) => answer(
            events::call(world, form, number, actor, call, out),
            form,
            alloc,
            number,
            out,
        ),
        Command::Stop => restart(alloc, world, number, out),
        report => push_report(alloc, world, number, report, out),
    }
}

/// Adds each line of a reply.
pub(crate) fn push_reply_lines(
    out: &mut Vec<u8>,
    alloc: Global,
    number: u64,
    reply: &Reply,
) -> Result<(), AllocError>
    ensures { OnOk result (out.new.items
        ≡ out.old.items ++ answer_lines number (told_line (told_by reply.now))) }
{
    let mut text = Vec::new(alloc);
    push_reply(&mut text, reply)?;
    push_answer_lines(out, number, text.as_slice())
}

/// Stops the machine, which goes on from what stands, and adds the world that goes on.
fn restart(
    alloc: Global,
    world: &mut World,
    number: u64,
    out: &mut Vec<u8>,
) -> Result<(), AllocError>
    requires { out.old.items ≡ [] }
    ensures { OnOk result (Leads (λ m n. RestartsTold trace.Json number (restarted m) m
        out.new.items n)
        world.old world.new) }
{
    let reply = world.restart();
    match reply {
        Reply::Stopped => {
            push_world_line(out, number, world)?;
            push_reply_lines(out, alloc, number, &Reply::Stopped)
        }
        refused => push_reply_lines(out, alloc, number, &refused),
    }
}

/// Adds each line of a report.
fn push_report(
    alloc: Global,
    world: &mut World,
    number: u64,
    command: Command,
    out: &mut Vec<u8>,
) -> Result<(), AllocError>
    requires report { is_report command ≡ true }
    requires empty { out.old.items ≡ [] }
    ensures { OnOk result (Leads (λ m n. ActsTracedBy (reports_of m) trace.Json number m command
        out.new.items n) world.old world.new) }
{
    let mut text = Vec::new(alloc);
    report(world, command, &mut text)?;
    push_answer_lines(out, number, text.as_slice())
}

/// Adds a report as it is told elsewhere.
fn report(world: &mut World, command: Command, out: &mut Vec<u8>) -> Result<(), AllocError>
    requires report { is_report command ≡ true }
    requires empty { out.old.items ≡ [] }
    ensures { OnOk result
        (Leads (λ m n. ActsBy (reports_of m) m command out.new.items n) world.old world.new) }
{
    match command {
        Command::Audit => {
            audit(world, out)?;
            Ok(())
        }
        Command::Tree => push_tree(world, None, out),
        Command::SnapTree(s) => push_tree(world, Some(Epoch::new(s)), out),
        other => tell(world, other, out),
    }
}

/// Adds a tree, of the one now or of a snapshot.
fn push_tree(world: &World, snapshot: Option<Epoch>, out: &mut Vec<u8>) -> Result<(), AllocError>
    requires { out.old.items ≡ [] }
    ensures { OnOk result ((m : machine.World) → Shows world.now m
        → ListsText (nodes_at m snapshot) out.new.items) }
{
    match tree_of(world, snapshot) {
        Ok(tree) => {
            push_nodes(out, tree.as_slice())?;
            out.extend_from_slice(b"end\n")
        }
        Err(fault) => push_refused(out, &fault),
    }
}

/// A tree, the one now or that of a snapshot.
fn tree_of(world: &World, snapshot: Option<Epoch>) -> Result<Tree, Fault>
    ensures { (m : machine.World) → Shows world.now m → IsTree (nodes_at m snapshot) result }
{
    match snapshot {
        None => world.tree(),
        Some(snapshot) => world.snap_tree(snapshot),
    }
}
