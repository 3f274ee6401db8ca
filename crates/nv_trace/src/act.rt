//! What commands do whose events are told, and the answers behind these.

ghost use Rattle.std.specs.Prelude.{◌≡◌, ◌≢◌, ◌++◌, [], MatchResult, OnOk, false};
ghost use Rattle.nv_core.specs.Worlds.{Leads, told_by};
ghost use Rattle.nv_script.specs.declared.command.Command.TheVariants.{Audit};
ghost use Rattle.nv_script.specs.declared.trace.Trace.TheVariants as trace;
ghost use Rattle.nv_script.specs.Play.{is_list, reports_of};
ghost use Rattle.nv_script.specs.Texts.{told_line};
ghost use Rattle.nv_script.specs.Trace.{ActsTracedBy, answer_by};

use crate::events;
use crate::json_act::push_reply_lines;
use nv_core::{Reply, World};
use nv_script::Trace;
use nv_script::act::tell;
use nv_script::command::Command;
use nv_script::text::push_reply;
use std::alloc::{AllocError, Global};

/// Acts on a command that lists no tree and asks for no audit, and tells its events before the answer.
pub(crate) fn tell_traced(
    world: &mut World,
    number: u64,
    command: Command,
    out: &mut Vec<u8>,
) -> Result<(), AllocError>
    requires other { is_list command ≡ false }
    requires no_audit { command ≢ Audit }
    requires empty { out.old.items ≡ [] }
    ensures { OnOk result (Leads (λ m n. ActsTracedBy (reports_of m) trace.Text number m command
        out.new.items n) world.old world.new) }
{
    let form = Trace::Text;
    let alloc = world.alloc();
    match command {
        Command::Start(actor, call) => answer(
            events::start(world, form, number, actor, call, out),
            form,
            alloc,
            number,
            out,
        ),
        Command::Go(actor, more) => answer(
            events::go_on(world, form, number, actor, more, out),
            form,
            alloc,
            number,
            out,
        ),
        Command::Run(actor) => answer(
            events::finish(world, form, number, actor, out),
            form,
            alloc,
            number,
            out,
        ),
        Command::Do(actor, call) => answer(
            events::call(world, form, number, actor, call, out),
            form,
            alloc,
            number,
            out,
        ),
        _ => tell(world, command, out),
    }
}

/// Adds a reply behind its events, as this form tells it, where memory was granted to these.
pub(crate) fn answer(
    reply: Result<Reply, AllocError>,
    form: Trace,
    alloc: Global,
    number: u64,
    out: &mut Vec<u8>,
) -> Result<(), AllocError>
    ensures { OnOk result (MatchResult reply (λ told. out.new.items
        ≡ out.old.items ++ answer_by form number (told_line (told_by told))) (λ _. ⊥)) }
{
    match reply {
        Ok(reply) => push_reply_by(out, form, alloc, number, &reply),
        Err(error) => Err(error),
    }
}

/// Adds a reply as this form tells it.
fn push_reply_by(
    out: &mut Vec<u8>,
    form: Trace,
    alloc: Global,
    number: u64,
    reply: &Reply,
) -> Result<(), AllocError>
    ensures { OnOk result (out.new.items
        ≡ out.old.items ++ answer_by form number (told_line (told_by reply.now))) }
{
    match form {
        Trace::Off | Trace::Text => push_reply(out, reply),
        Trace::Json => push_reply_lines(out, alloc, number, reply),
    }
}
