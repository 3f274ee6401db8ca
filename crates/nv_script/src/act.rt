//! What lines do to a world, and what they write.

ghost use Rattle.std.specs.Prelude.{◌≡◌, ◌≢◌, ◌<◌, ◌+◌, ◌-◌, ◌^◌, [], None, IfOk, OnOk, false, true};
ghost use Rattle.nv_script.specs.Grammar.{is_skipped, texts};
ghost use Rattle.nv_base.specs.Limits.{first_bad_field};
ghost use Rattle.nv_script.specs.declared.command.Command.TheVariants.{Audit};
ghost use Rattle.nv_script.specs.declared.trace.Trace.TheVariants as trace;
ghost use Rattle.nv_script.specs.Play.{ActsBy, is_list, reports_of};
ghost use Rattle.nv_script.specs.Results.{AsksAudit, IsNewWorld, LineIs, MakesWorld, TellsAudit, failed_in_line};
ghost use Rattle.nv_script.specs.Trace.{ActsToldBy};
ghost use Rattle.nv_core.specs.Worlds.{Leads};
ghost use Rattle.nv_script.specs.Words.{words_of};

use crate::asked::Asked;
use crate::command::{Command, is_skipped, read_command, read_format};
use crate::counted::CountedWrite;
use crate::echo::Telling;
use crate::fault::LineFault;
use crate::outbox::Outbox;
use crate::teller::CommandTeller;
use crate::text::{
    push_lists, push_log, push_refused, push_reply, push_snaps, push_space, push_told,
};
use crate::trees::write_tree_behind;
use crate::word::{find_few, words};
use arrayvec::ArrayVec;
use nv_base::{Epoch, Fault, Geometry, GeometryNumbers, Ino};
use nv_core::World;
use std::alloc::{AllocError, Global};

/// Plays one line, which has no line end, and tells it in any form except JSON. A line that is skipped has nothing before its answers.
///
/// What it is answered is in `out` then, in place of what that held, except for the lines of a tree's nodes. These are sent before,
/// and so is the head. What stands for an audit is handed on.
pub fn play_line<T: CommandTeller, W: CountedWrite>(
    teller: &T,
    alloc: Global,
    world: &mut Option<World>,
    line: &[u8],
    telling: Telling<'_>,
    out: &mut Vec<u8>,
    outbox: &mut Outbox,
    writer: &mut W,
) -> Result<Option<Asked>, LineFault>
    requires form { T.form ≢ trace.Json }
    requires skipped { is_skipped line.now ≡ true → telling.head.now ≡ [] }
    requires failures { W.failed writer.old < 2 ^ 64 - 1 }
    ensures line { LineIs T.form telling.entry.number telling.entry.head.now result
        (record { written = W.contents writer.old; gathered = outbox.old })
        (record { written = W.contents writer.new; gathered = outbox.new })
        world.old line.now out.new.items world.new }
    // It hands on what stands for an audit, so that no line `audit` is told around it.
    ensures asked { IfOk result (λ asked.
        AsksAudit world.old line.now → TellsAudit asked out.new.items) }
    ensures failed { W.failed writer.new ≡ W.failed writer.old + failed_in_line result }
    ensures same_writer { W.place writer.new ≡ W.place writer.old }
{
    out.clear();
    if is_skipped(line) {
        return Ok(None);
    }
    let mut few = ArrayVec::new();
    if find_few(line, &mut few) {
        let words = few.as_slice();
        return play_words(
            teller, alloc, world, line, words, telling, out, outbox, writer,
        );
    }
    let many = words(alloc, line)?;
    play_words(
        teller,
        alloc,
        world,
        line,
        many.as_slice(),
        telling,
        out,
        outbox,
        writer,
    )
}

/// Plays one line by its words, as [`play_line`] does.
fn play_words<T: CommandTeller, W: CountedWrite>(
    teller: &T,
    alloc: Global,
    world: &mut Option<World>,
    line: &[u8],
    words: &[&[u8]],
    telling: Telling<'_>,
    out: &mut Vec<u8>,
    outbox: &mut Outbox,
    writer: &mut W,
) -> Result<Option<Asked>, LineFault>
    requires form { T.form ≢ trace.Json }
    requires command { is_skipped line.now ≡ false }
    requires words { texts words.now ≡ words_of line.now }
    requires empty { out.old.items ≡ [] }
    requires failures { W.failed writer.old < 2 ^ 64 - 1 }
    ensures line { LineIs T.form telling.entry.number telling.entry.head.now result
        (record { written = W.contents writer.old; gathered = outbox.old })
        (record { written = W.contents writer.new; gathered = outbox.new })
        world.old line.now out.new.items world.new }
    ensures asked { IfOk result (λ asked.
        AsksAudit world.old line.now → TellsAudit asked out.new.items) }
    ensures failed { W.failed writer.new ≡ W.failed writer.old + failed_in_line result }
    ensures same_writer { W.place writer.new ≡ W.place writer.old }
{
    let head = telling.head;
    match world {
        None => {
            let numbers = read_format(words)?;
            format(alloc, world, &numbers, out)?;
            outbox.add(writer, head)?;
            Ok(None)
        }
        Some(world) => {
            let command = read_command(alloc, words)?;
            match command {
                Command::Tree => {
                    write_tree_behind(head, world, None, out, outbox, writer)?;
                    Ok(None)
                }
                Command::SnapTree(s) => {
                    write_tree_behind(head, world, Some(Epoch::new(s)), out, outbox, writer)?;
                    Ok(None)
                }
                _ => {
                    let asked = act(teller, world, telling.number, command, out)?;
                    outbox.add(writer, head)?;
                    Ok(asked)
                }
            }
        }
    }
}

/// Makes the world. Where that is refused there is still none.
pub fn format(
    alloc: Global,
    world: &mut Option<World>,
    numbers: &GeometryNumbers,
    out: &mut Vec<u8>,
) -> Result<(), AllocError>
    requires none { world.old ≡ None }
    requires empty { out.old.items ≡ [] }
    ensures { OnOk result
        (MakesWorld (first_bad_field numbers.now) numbers.now out.new.items world.new) }
{
    match new_world(alloc, numbers) {
        Ok(made) => {
            *world = Some(made);
            out.extend_from_slice(b"formatted\n")
        }
        Err(fault) => push_refused(out, &fault),
    }
}

/// An empty world of these numbers.
fn new_world(alloc: Global, numbers: &GeometryNumbers) -> Result<World, Fault>
    ensures { IsNewWorld (first_bad_field numbers.now) numbers.now result }
{
    let geometry = Geometry::checked(*numbers)?;
    World::format(alloc, geometry)
}

/// Acts on a command that lists no tree. What stands for an audit is handed on.
fn act<T: CommandTeller>(
    teller: &T,
    world: &mut World,
    number: u64,
    command: Command,
    out: &mut Vec<u8>,
) -> Result<Option<Asked>, AllocError>
    requires form { T.form ≢ trace.Json }
    requires other { is_list command ≡ false }
    requires empty { out.old.items ≡ [] }
    ensures acts { OnOk result
        (Leads (λ m n. ActsToldBy (reports_of m) T.form number m command
        out.new.items n) world.old world.new) }
    // A line `audit` says that nothing differs only with what stands for an audit.
    ensures asked { IfOk result (λ asked. command ≡ Audit → TellsAudit asked out.new.items) }
{
    if let Command::Audit = command {
        return audit(world, out);
    }
    teller.tell(world, number, command, out)?;
    Ok(None)
}

/// Adds what an audit of the world tells. That nothing differs it says only with what stands for an audit.
pub fn audit(world: &World, out: &mut Vec<u8>) -> Result<Option<Asked>, AllocError>
    requires { out.old.items ≡ [] }
    ensures { IfOk result (λ asked. TellsAudit asked out.new.items) }
{
    match world.audit() {
        Ok(audited) => {
            out.extend_from_slice(b"audit ok\n")?;
            Ok(Some(Asked::by(&audited)))
        }
        Err(fault) => {
            push_refused(out, &fault)?;
            Ok(None)
        }
    }
}

/// Acts on a command that lists no tree and asks for no audit.
pub fn tell(world: &mut World, command: Command, out: &mut Vec<u8>) -> Result<(), AllocError>
    requires other { is_list command ≡ false }
    requires no_audit { command ≢ Audit }
    requires empty { out.old.items ≡ [] }
    ensures { OnOk result
        (Leads (λ m n. ActsBy (reports_of m) m command out.new.items n) world.old world.new) }
{
    match command {
        Command::Start(actor, call) => push_reply(out, &world.start(actor, call)),
        Command::Go(actor, more) => push_reply(out, &world.go_on(actor, more)),
        Command::Run(actor) => push_told(out, &world.finish(actor)),
        Command::Do(actor, call) => push_told(out, &world.call(actor, call)),
        Command::Stop => push_reply(out, &world.restart()),
        Command::Tree | Command::SnapTree(_) | Command::Audit => unreachable!(),
        Command::Snaps => match world.snaps() {
            Ok(snaps) => push_snaps(out, &snaps),
            Err(fault) => push_refused(out, &fault),
        },
        Command::Space => push_space(out, &world.space()),
        Command::Lists => match world.lists() {
            Ok(lists) => push_lists(out, lists.as_slice()),
            Err(fault) => push_refused(out, &fault),
        },
        Command::Log(ino) => match world.log(Ino::new(ino)) {
            Ok(log) => push_log(out, ino, &log),
            Err(fault) => push_refused(out, &fault),
        },
    }
}
