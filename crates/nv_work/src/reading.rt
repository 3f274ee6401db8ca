//! The lines of a script that threads play.

ghost use Rattle.std.specs.Prelude.{◌≡◌, ◌≢◌, ◌+◌, ◌-◌, ◌^◌, ◌<◌, ◌≤◌, ℕ, [], List, None, Ok, Option, Some, false, map, vec_len, IfOk, IsOk, IsSome};
ghost use Rattle.std.specs.Io.KnownBytes.{prepend_known};
ghost use Rattle.std.specs.List.{concat};
ghost use Rattle.nv_core.specs.Worlds.{HasRun, ShowsAny};
ghost use Rattle.nv_machine.specs.World as machine;
ghost use Rattle.nv_script.specs.Grammar.{command_of, is_skipped};
ghost use Rattle.nv_script.specs.Lines.{WritesFront};
ghost use Rattle.nv_script.specs.Play.{failed_reads, failed_writes};
ghost use Rattle.nv_script.specs.Results.{HoldsNone};
ghost use Rattle.nv_script.specs.declared.command.Command.TheVariants.{Stop};
ghost use Rattle.nv_work.specs.Taken.{ReadsForked};
ghost use Rattle.nv_work.specs.Work.{Fork, Works};
ghost use Rattle.nv_work.specs.Working.{AddsText, AtFork, FrontIs, FrontLineIs, ReportIs, TellsAll, failed_in_front};
ghost use Rattle.nv_script.specs.Words.{words_of};

use crate::forked::{ForkedLines, is_fork};
use crate::gate::Gate;
use crate::serving::play_in_threads;
use nv_base::{Fault, ScriptFaultKind};
use nv_script::fault::LineFault;
use nv_script::player::{MAX_LINES, Player, ending_of};
use nv_script::{CountedRead, CountedWrite};
use std::alloc::Global;
use std::sync::Wait;
use std::thread::Threads;

/// Plays all lines, those behind `fork` in threads. The end of their text may still be gathered, except where a read or a
/// write failed.
pub(crate) fn work_lines<R: CountedRead, W: CountedWrite, G: Gate + Sync, T: Threads + Wait + Sync>(
    rt: &T,
    alloc: Global,
    player: &mut Player,
    reader: &mut R,
    writer: &mut W,
    threads: u64,
    cleaners: u64,
    gate: &G,
) -> Result<(), Fault>
    requires threads { (1 ≤ threads) × (threads ≤ 32) }
    requires cleaners { cleaners ≤ 32 }
    requires ahead { player.old.feed ≡ [] }
    requires gathered { player.old.outbox ≡ [] }
    requires world { player.old.world ≡ None }
    requires reads { R.failed reader.old < 2 ^ 64 - 1 }
    requires writes { W.failed writer.old < 2 ^ 64 - 1 }
    ensures script { Works threads result (R.remaining reader.old) (R.remaining reader.new)
        (λ text. WritesFront (W.contents writer.old) (W.contents writer.new)
        text player.new.outbox) }
    ensures unheld { HoldsNone result player.new.outbox }
    ensures reads { R.failed reader.new ≡ R.failed reader.old + failed_reads result }
    ensures writes { W.failed writer.new ≡ W.failed writer.old + failed_writes result }
    ensures same_reader { R.place reader.new ≡ R.place reader.old }
    ensures same_writer { W.place writer.new ≡ W.place writer.old }
{
    let fork = play_to_fork(alloc, player, reader, writer)?;
    let lines = read_forked(alloc, player, fork, threads, reader, writer)?;
    let Some(world) = player.world.take() else {
        unreachable!()
    };
    let (world, texts) = play_in_threads(rt, alloc, world, lines, cleaners, gate)?;
    player.world = Some(world);
    tell(alloc, player, texts, writer)
}

/// Plays the lines before `fork`, and tells the number of that line. There is a world then.
fn play_to_fork<R: CountedRead, W: CountedWrite>(
    alloc: Global,
    player: &mut Player,
    reader: &mut R,
    writer: &mut W,
) -> Result<u64, Fault>
    requires ahead { player.old.feed ≡ [] }
    requires gathered { player.old.outbox ≡ [] }
    requires world { player.old.world ≡ None }
    requires reads { R.failed reader.old < 2 ^ 64 - 1 }
    requires writes { W.failed writer.old < 2 ^ 64 - 1 }
    ensures front { FrontIs result (R.remaining reader.old) (R.remaining reader.new)
        (prepend_known player.new.feed (R.remaining reader.new)) (W.contents writer.old)
        (W.contents writer.new) player.new.outbox player.new.world }
    ensures number { IfOk result (λ number. number ≤ MAX_LINES) }
    ensures reads { R.failed reader.new ≡ R.failed reader.old + failed_reads result }
    ensures writes { W.failed writer.new ≡ W.failed writer.old + failed_writes result }
    ensures same_reader { R.place reader.new ≡ R.place reader.old }
    ensures same_writer { W.place writer.new ≡ W.place writer.old }
{
    for number in 1..=MAX_LINES + 1 {
        if !player.take(number, reader, writer)? {
            return Err(Fault::ScriptFault(ScriptFaultKind::Order, number - 1));
        }
        match play_or_fork(alloc, player, writer) {
            Ok(true) => return Ok(number),
            Ok(false) => {}
            Err(fault) => return Err(ending_of(number, fault)),
        }
    }
    // The turn past the last line always returns.
    unreachable!()
}

/// Plays the line that was taken last, except where it is `fork`, and tells whether it is.
fn play_or_fork<W: CountedWrite>(
    alloc: Global,
    player: &mut Player,
    writer: &mut W,
) -> Result<bool, LineFault>
    requires { W.failed writer.old < 2 ^ 64 - 1 }
    ensures line { FrontLineIs result
        (record { written = W.contents writer.old; gathered = player.old.outbox })
        (record { written = W.contents writer.new; gathered = player.new.outbox })
        player.old.world player.old.line.items player.new.world }
    ensures feed { player.new.feed ≡ player.old.feed }
    ensures failed { W.failed writer.new ≡ W.failed writer.old + failed_in_front result }
    ensures same_writer { W.place writer.new ≡ W.place writer.old }
{
    if is_fork(alloc, player.line.as_slice(), player.world.is_some())? {
        return Ok(true);
    }
    match player.play_taken(alloc, writer) {
        Ok(()) => Ok(false),
        Err(fault) => Err(fault),
    }
}

/// Reads the lines behind `fork`, which is the line with this number.
fn read_forked<R: CountedRead, W: CountedWrite>(
    alloc: Global,
    player: &mut Player,
    fork: u64,
    threads: u64,
    reader: &mut R,
    writer: &mut W,
) -> Result<ForkedLines, Fault>
    requires threads { 1 ≤ threads }
    requires number { fork ≤ MAX_LINES }
    requires reads { R.failed reader.old < 2 ^ 64 - 1 }
    requires writes { W.failed writer.old < 2 ^ 64 - 1 }
    ensures read { (input old : Option (List ℕ)) (f : Fork)
        → AtFork input (prepend_known player.old.feed (R.remaining reader.old)) old
        (W.contents writer.old) player.old.outbox (fork + 1) f
        → (f.behind ≡ []) → ShowsAny player.old.world (Some f.world)
        → ReadsForked threads result input (R.remaining reader.new) old (W.contents writer.new)
        player.new.outbox player.new.world }
    ensures count { IfOk result (λ lines. vec_len lines.threads ≡ threads) }
    ensures reads { R.failed reader.new ≡ R.failed reader.old + failed_reads result }
    ensures writes { W.failed writer.new ≡ W.failed writer.old + failed_writes result }
    ensures same_reader { R.place reader.new ≡ R.place reader.old }
    ensures same_writer { W.place writer.new ≡ W.place writer.old }
{
    let mut lines = ForkedLines::new(alloc, threads)?;
    for number in fork + 1..=MAX_LINES + 1 {
        if !player.take(number, reader, writer)? {
            return Ok(lines);
        }
        match lines.read(alloc, player.line.as_slice()) {
            Ok(()) => {}
            Err(fault) => return Err(ending_of(number, fault)),
        }
    }
    // The turn past the last line always returns.
    unreachable!()
}

/// Gathers the texts of threads, and then the reports on the world.
fn tell<W: CountedWrite>(
    alloc: Global,
    player: &mut Player,
    texts: Vec<Vec<u8>>,
    writer: &mut W,
) -> Result<(), Fault>
    requires world { IsSome player.old.world }
    requires writes { W.failed writer.old < 2 ^ 64 - 1 }
    ensures told { TellsAll result (map (λ text. text.items) texts.items) player.old.world
        (record { written = W.contents writer.old; gathered = player.old.outbox })
        (record { written = W.contents writer.new; gathered = player.new.outbox }) }
    ensures writes { W.failed writer.new ≡ W.failed writer.old + failed_writes result }
    ensures same_writer { W.place writer.new ≡ W.place writer.old }
{
    add_texts(player, texts, writer)?;
    let Some(world) = &player.world else {
        unreachable!()
    };
    // Events lead to what it shows.
    world.consistent();
    report(alloc, player, b"tree", writer)?;
    report(alloc, player, b"snaps", writer)?;
    report(alloc, player, b"audit", writer)
}

/// Gathers the texts of threads, one after another.
fn add_texts<W: CountedWrite>(
    player: &mut Player,
    texts: Vec<Vec<u8>>,
    writer: &mut W,
) -> Result<(), Fault>
    requires writes { W.failed writer.old < 2 ^ 64 - 1 }
    ensures told { AddsText result
        (record { written = W.contents writer.old; gathered = player.old.outbox })
        (record { written = W.contents writer.new; gathered = player.new.outbox })
        (concat (map (λ text. text.items) texts.items)) }
    ensures world { player.new.world ≡ player.old.world }
    ensures writes { W.failed writer.new ≡ W.failed writer.old + failed_writes result }
    ensures same_writer { W.place writer.new ≡ W.place writer.old }
{
    for text in texts.iter() {
        let Ok(()) = player.outbox.add(writer, text.as_slice()) else {
            return Err(Fault::Write);
        };
    }
    Ok(())
}

/// Gathers what a line that asks for a report is answered.
fn report<W: CountedWrite>(
    alloc: Global,
    player: &mut Player,
    line: &[u8],
    writer: &mut W,
) -> Result<(), Fault>
    requires line { (is_skipped line.now ≡ false) × IsOk (command_of (words_of line.now)) }
    requires goes_on { command_of (words_of line.now) ≢ Ok Stop }
    requires writes { W.failed writer.old < 2 ^ 64 - 1 }
    ensures told { (m : machine.World) → ShowsAny player.old.world (Some m) → HasRun m
        → ReportIs result line.now m
        (record { written = W.contents writer.old; gathered = player.old.outbox })
        (record { written = W.contents writer.new; gathered = player.new.outbox })
        player.new.world }
    ensures writes { W.failed writer.new ≡ W.failed writer.old + failed_writes result }
    ensures same_writer { W.place writer.new ≡ W.place writer.old }
{
    match player.play_line(alloc, line, writer) {
        Ok(()) => Ok(()),
        Err(fault) => Err(ending_of(0, fault)),
    }
}
