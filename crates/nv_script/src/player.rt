//! A script while it is played.

ghost use Rattle.std.specs.Prelude.{◌≡◌, ℕ, ◌+◌, ◌-◌, ◌^◌, ◌<◌, ◌≤◌, ◌⊎◌, List, [], Option, IfOk, OnErr, OnOk, MatchResult, None, true};
ghost use Rattle.std.specs.List.{Contains};
ghost use Rattle.std.specs.Io.KnownBytes.{Appends, prepend_known};
ghost use Rattle.std.specs.Vec.{vec_capacity};
ghost use Rattle.nv_machine.specs.World as machine;
ghost use Rattle.nv_core.specs.Worlds.{ShowsAny};
ghost use Rattle.nv_script.specs.Grammar.{is_skipped};
ghost use Rattle.nv_script.specs.Sound.{AnswersSound, HasShown};
ghost use Rattle.nv_script.specs.Lines.{WritesFront, WritesSome};
ghost use Rattle.nv_script.specs.Play.{Ends, failed_reads, failed_writes};
ghost use Rattle.nv_script.specs.Results.{AnswersBehind, AnswersLine, AtLineBy, HoldsNone, TakesLine, TurnIs, ending_of, failed_in_line, is_line};
ghost use Rattle.nv_script.specs.Trace.{head_by, player_by};

use crate::answers::Answers;
use crate::counted::{CountedRead, CountedWrite, WriteFailed};
use crate::echo::{Echo, Telling, make_head};
use crate::fault::LineFault;
use crate::feed::{Feed, LineResult, MAX_LINE_BYTES};
use crate::look::look_at;
use crate::outbox::Outbox;
use crate::teller::LineTeller;
use nv_base::{Fault, ScriptFaultKind};
use nv_core::World;
use std::alloc::{AllocError, Global};

/// The most lines of a script.
pub const MAX_LINES: u64 = 1_048_576;

/// The room for a line's text that is made at first. A longer text makes more.
const TEXT_BYTES: usize = 4096;

/// A script while it is played: what is read ahead, the line that was taken last, what stands before its answers and these, what
/// is to be written, and the world.
#[derive(Drop)]
pub struct Player {
    pub feed: Feed,
    pub line: Vec<u8>,
    head: Vec<u8>,
    text: Vec<u8>,
    pub outbox: Outbox,
    pub world: Option<World>,
    // There is room for a line of 4,096 bytes.
    ghost room: { 4096 ≤ vec_capacity line },
}

impl Player {
    /// Nothing is read ahead, and no world is made.
    pub fn new(alloc: Global) -> Result<Player, AllocError>
        ensures ahead { IfOk result (λ player. player.feed ≡ []) }
        ensures gathered { IfOk result (λ player. player.outbox ≡ []) }
        ensures world { IfOk result (λ player. player.world ≡ None) }
    {
        Ok(Player {
            feed: Feed::new(alloc)?,
            line: Vec::with_capacity(alloc, MAX_LINE_BYTES)?,
            head: Vec::new(alloc),
            text: Vec::with_capacity(alloc, TEXT_BYTES)?,
            outbox: Outbox::new(alloc)?,
            world: None,
        })
    }

    /// Plays a script, and tells it in the form of the teller. All of its text is written then, except where a write fails.
    pub fn play<T: LineTeller, R: CountedRead, W: CountedWrite>(
        &mut self,
        teller: &T,
        alloc: Global,
        echo: Echo,
        reader: &mut R,
        writer: &mut W,
    ) -> Result<(), Fault>
        requires ahead { self.old.feed ≡ [] }
        requires gathered { self.old.outbox ≡ [] }
        requires world { self.old.world ≡ None }
        requires reads { R.failed reader.old < 2 ^ 64 - 1 }
        requires writes { W.failed writer.old < 2 ^ 64 - 1 }
        ensures script { Ends (player_by T.form (head_by T.form echo)) result
            (R.remaining reader.old) (R.remaining reader.new)
            (λ text. Appends (W.contents writer.old) (W.contents writer.new) text) }
        ensures reads { R.failed reader.new ≡ R.failed reader.old + failed_reads result }
        ensures writes { W.failed writer.new ≡ W.failed writer.old + failed_writes result }
        ensures same_reader { R.place reader.new ≡ R.place reader.old }
        ensures same_writer { W.place writer.new ≡ W.place writer.old }
    {
        let outcome = self.play_lines(teller, alloc, echo, reader, writer);
        self.outbox.end(writer, outcome)
    }

    /// Plays all lines. Of their text, the last may still be gathered, except where a read or a write failed.
    fn play_lines<T: LineTeller, R: CountedRead, W: CountedWrite>(
        &mut self,
        teller: &T,
        alloc: Global,
        echo: Echo,
        reader: &mut R,
        writer: &mut W,
    ) -> Result<(), Fault>
        requires ahead { self.old.feed ≡ [] }
        requires gathered { self.old.outbox ≡ [] }
        requires world { self.old.world ≡ None }
        requires reads { R.failed reader.old < 2 ^ 64 - 1 }
        requires writes { W.failed writer.old < 2 ^ 64 - 1 }
        ensures script { Ends (player_by T.form (head_by T.form echo)) result
            (R.remaining reader.old) (R.remaining reader.new) (λ text. WritesFront (W.contents writer.old) (W.contents writer.new)
            text self.new.outbox) }
        ensures unheld { HoldsNone result self.new.outbox }
        ensures reads { R.failed reader.new ≡ R.failed reader.old + failed_reads result }
        ensures writes { W.failed writer.new ≡ W.failed writer.old + failed_writes result }
        ensures same_reader { R.place reader.new ≡ R.place reader.old }
        ensures same_writer { W.place writer.new ≡ W.place writer.old }
    {
        for number in 1..=MAX_LINES + 1 {
            if !self.turn(teller, alloc, echo, number, reader, writer)? {
                return Ok(());
            }
        }
        // The turn past the last line always returns.
        unreachable!()
    }

    /// Plays the line of this number, and says whether there is one.
    fn turn<T: LineTeller, R: CountedRead, W: CountedWrite>(
        &mut self,
        teller: &T,
        alloc: Global,
        echo: Echo,
        number: u64,
        reader: &mut R,
        writer: &mut W,
    ) -> Result<bool, Fault>
        requires number { number ≤ MAX_LINES + 1 }
        requires reads { R.failed reader.old < 2 ^ 64 - 1 }
        requires writes { W.failed writer.old < 2 ^ 64 - 1 }
        ensures turn { (input old : Option (List ℕ)) (m : Option machine.World)
            → ShowsAny self.old.world m
            → AtLineBy T.form (head_by T.form echo) input (prepend_known self.old.feed (R.remaining reader.old))
            old (W.contents writer.old) self.old.outbox number m
            → TurnIs T.form (head_by T.form echo) result input (R.remaining reader.new)
            (prepend_known self.new.feed (R.remaining reader.new))
            old (W.contents writer.new) self.new.outbox number self.new.world }
        ensures reads { R.failed reader.new ≡ R.failed reader.old + failed_reads result }
        ensures writes { W.failed writer.new ≡ W.failed writer.old + failed_writes result }
        ensures same_reader { R.place reader.new ≡ R.place reader.old }
        ensures same_writer { W.place writer.new ≡ W.place writer.old }
    {
        if !self.take(number, reader, writer)? {
            return Ok(false);
        }
        match self.play_told(teller, alloc, echo, number, writer) {
            Ok(()) => Ok(true),
            Err(fault) => Err(ending_of(number, fault)),
        }
    }

    /// Takes the line of this number, and says whether there is one. What is gathered is written before, where the reader is
    /// to be asked for bytes.
    pub fn take<R: CountedRead, W: CountedWrite>(
        &mut self,
        number: u64,
        reader: &mut R,
        writer: &mut W,
    ) -> Result<bool, Fault>
        requires reads { R.failed reader.old < 2 ^ 64 - 1 }
        requires writes { W.failed writer.old < 2 ^ 64 - 1 }
        ensures taken { TakesLine result number
            (prepend_known self.old.feed (R.remaining reader.old)) (R.remaining reader.new)
            self.new.feed self.new.line.items
            (record { written = W.contents writer.old; gathered = self.old.outbox })
            (record { written = W.contents writer.new; gathered = self.new.outbox }) }
        ensures world { self.new.world ≡ self.old.world }
        ensures reads { R.failed reader.new ≡ R.failed reader.old + failed_reads result }
        ensures writes { W.failed writer.new ≡ W.failed writer.old + failed_writes result }
        ensures same_reader { R.place reader.new ≡ R.place reader.old }
        ensures same_writer { W.place writer.new ≡ W.place writer.old }
    {
        reader.before_line(number, self.world.as_ref());
        let Ok(()) = write_before_read(&self.feed, &mut self.outbox, writer) else {
            return Err(Fault::Write);
        };
        let Ok(taken) = self.feed.next_line(reader, &mut self.line) else {
            return Err(Fault::Read);
        };
        is_line(number, taken)
    }

    /// Plays the line that was taken last, which has this number, and gathers its text.
    fn play_told<T: LineTeller, W: CountedWrite>(
        &mut self,
        teller: &T,
        alloc: Global,
        echo: Echo,
        number: u64,
        writer: &mut W,
    ) -> Result<(), LineFault>
        requires { W.failed writer.old < 2 ^ 64 - 1 }
        ensures line { AnswersBehind T.form number (head_by T.form echo number self.old.line.items) result
            (record { written = W.contents writer.old; gathered = self.old.outbox })
            (record { written = W.contents writer.new; gathered = self.new.outbox })
            self.old.world self.old.line.items self.new.world }
        ensures failed { W.failed writer.new ≡ W.failed writer.old + failed_in_line result }
        ensures same_writer { W.place writer.new ≡ W.place writer.old }
        ensures feed { self.new.feed ≡ self.old.feed }
    {
        let Player {
            line,
            head,
            text,
            outbox,
            world,
            ..
        } = self;
        make_head(teller, echo, number, line.as_slice(), head)?;
        let telling = Telling {
            number,
            head: head.as_slice(),
        };
        answer_line(
            teller,
            alloc,
            world,
            line.as_slice(),
            telling,
            text,
            outbox,
            writer,
        )
    }

    /// Plays the line that was taken last, and gathers its text.
    pub fn play_taken<W: CountedWrite>(
        &mut self,
        alloc: Global,
        writer: &mut W,
    ) -> Result<(), LineFault>
        requires { W.failed writer.old < 2 ^ 64 - 1 }
        ensures line { AnswersLine result
            (record { written = W.contents writer.old; gathered = self.old.outbox })
            (record { written = W.contents writer.new; gathered = self.new.outbox })
            self.old.world self.old.line.items self.new.world }
        ensures failed { W.failed writer.new ≡ W.failed writer.old + failed_in_line result }
        ensures same_writer { W.place writer.new ≡ W.place writer.old }
        ensures feed { self.new.feed ≡ self.old.feed }
    {
        let Player {
            line,
            text,
            outbox,
            world,
            ..
        } = self;
        let telling = Telling::answers();
        answer_line(
            &Answers,
            alloc,
            world,
            line.as_slice(),
            telling,
            text,
            outbox,
            writer,
        )
    }

    /// Plays the line that was taken last, and gathers its text, where it has no fault. Else its fault is told, and nothing has changed.
    pub fn play_sound<W: CountedWrite>(
        &mut self,
        alloc: Global,
        writer: &mut W,
    ) -> Result<Option<ScriptFaultKind>, LineFault>
        requires { W.failed writer.old < 2 ^ 64 - 1 }
        // A line with a fault is told with its kind: nothing is written, and the world stays.
        // A line without a fault is played and answered as in any script.
        // It ends by no fault of a line.
        ensures line { AnswersSound result
            (record { written = W.contents writer.old; gathered = self.old.outbox })
            (record { written = W.contents writer.new; gathered = self.new.outbox })
            self.old.world self.old.line.items self.new.world }
        ensures failed { W.failed writer.new ≡ W.failed writer.old + failed_in_line result }
        ensures same_writer { W.place writer.new ≡ W.place writer.old }
        ensures feed { self.new.feed ≡ self.old.feed }
    {
        shows_some(&self.world);
        match look_at(alloc, self.world.is_some(), self.line.as_slice()) {
            Ok(()) => {
                self.play_taken(alloc, writer)?;
                Ok(None)
            }
            Err(fault) => match fault {
                LineFault::Faulty(kind) => Ok(Some(kind)),
                _ => Err(fault),
            },
        }
    }

    /// Plays a line that was not taken, and gathers its text.
    pub fn play_line<W: CountedWrite>(
        &mut self,
        alloc: Global,
        line: &[u8],
        writer: &mut W,
    ) -> Result<(), LineFault>
        requires { W.failed writer.old < 2 ^ 64 - 1 }
        ensures line { AnswersLine result
            (record { written = W.contents writer.old; gathered = self.old.outbox })
            (record { written = W.contents writer.new; gathered = self.new.outbox })
            self.old.world line.now self.new.world }
        ensures failed { W.failed writer.new ≡ W.failed writer.old + failed_in_line result }
        ensures same_writer { W.place writer.new ≡ W.place writer.old }
    {
        let Player {
            text,
            outbox,
            world,
            ..
        } = self;
        let telling = Telling::answers();
        answer_line(&Answers, alloc, world, line, telling, text, outbox, writer)
    }
}

/// Plays a line, and gathers what stands before its answers, which a line that is skipped has none of, and its answers, for which
/// there is room in `text`.
fn answer_line<T: LineTeller, W: CountedWrite>(
    teller: &T,
    alloc: Global,
    world: &mut Option<World>,
    line: &[u8],
    telling: Telling<'_>,
    text: &mut Vec<u8>,
    outbox: &mut Outbox,
    writer: &mut W,
) -> Result<(), LineFault>
    requires skipped { is_skipped line.now ≡ true → telling.head.now ≡ [] }
    requires failures { W.failed writer.old < 2 ^ 64 - 1 }
    ensures line { AnswersBehind T.form telling.entry.number telling.entry.head.now result
        (record { written = W.contents writer.old; gathered = outbox.old })
        (record { written = W.contents writer.new; gathered = outbox.new })
        world.old line.now world.new }
    ensures failed { W.failed writer.new ≡ W.failed writer.old + failed_in_line result }
    ensures same_writer { W.place writer.new ≡ W.place writer.old }
{
    teller.play_line(alloc, world, line, telling, text, outbox, writer)?;
    let Ok(()) = outbox.add(writer, text.as_slice()) else {
        return Err(LineFault::Write);
    };
    Ok(())
}

/// Events lead to what a world shows, where there is one.
fn shows_some(world: &Option<World>)
    ensures { HasShown world.now }
{
    match world {
        Some(world) => world.consistent(),
        None => {}
    }
}

/// Writes what is gathered, where the reader is to be asked for the next line: nothing is held back then.
fn write_before_read<W: CountedWrite>(
    feed: &Feed,
    outbox: &mut Outbox,
    writer: &mut W,
) -> Result<(), WriteFailed>
    requires { W.failed writer.old < 2 ^ 64 - 1 }
    // Without a line end read ahead, nothing stays gathered when the next line is asked for.
    ensures unheld { OnOk result (Contains feed.now 10 ⊎ (outbox.new ≡ [])) }
    ensures sent { MatchResult result
        (λ _. WritesFront (W.contents writer.old) (W.contents writer.new) outbox.old outbox.new)
        (λ _. WritesSome (W.contents writer.old) (W.contents writer.new) outbox.old
        × (outbox.new ≡ [])) }
    ensures ok { OnOk result (W.failed writer.new ≡ W.failed writer.old) }
    ensures err { OnErr result (W.failed writer.new ≡ W.failed writer.old + 1) }
    ensures same_writer { W.place writer.new ≡ W.place writer.old }
{
    if feed.has_line() {
        return Ok(());
    }
    outbox.flush(writer)
}

/// Whether what was taken is a line to play. It is none at the end of the bytes; else it ends the script by a fault.
fn is_line(number: u64, taken: LineResult) -> Result<bool, Fault>
    ensures { result ≡ is_line number taken }
{
    match taken {
        LineResult::End => Ok(false),
        _ if number > MAX_LINES => Err(Fault::ScriptFault(ScriptFaultKind::Lines, number)),
        LineResult::Line => Ok(true),
        LineResult::Long => Err(Fault::ScriptFault(ScriptFaultKind::Long, number)),
        LineResult::Unended => Err(Fault::ScriptFault(ScriptFaultKind::Unended, number)),
    }
}

/// How a line's fault ends the script.
pub fn ending_of(number: u64, fault: LineFault) -> Fault
    ensures { result ≡ ending_of number fault }
{
    match fault {
        LineFault::OutOfMemory(witness) => Fault::OutOfMemory(witness),
        LineFault::Write => Fault::Write,
        LineFault::Faulty(kind) => Fault::ScriptFault(kind, number),
    }
}
