//! Scripts that are typed at a terminal: a line with a fault is told and not played, and the next one is asked for.

use crate::told::{STANDARD_INPUT, Told};
use nv_base::Fault;
use nv_hints::{By, Recent, Tally, TallyWriter, help_of, help_text, hint_line};
use nv_script::player::{MAX_LINES, Player, ending_of};
use nv_script::{ReadCounter, fault_line};
use std::alloc::{AllocError, Global};
use std::io::{Read, Write};
use std::mem;

/// What asks for the next line.
const PROMPT: &str = "novacore> ";

/// What is told first.
const WELCOME: &str =
    "'help' shows all commands, 'help write' the words of one, and Ctrl-D ends.\n";

const NO_SUCH: &str = "there is no command and no call of this name: 'help' shows all\n";

/// A session: where it is told on standard error, and what was typed last. The refusals among its answers are counted beside it,
/// since a writer that counts borrows what it counts in.
struct Session<'a, T> {
    rt: &'a T,
    alloc: Global,
    recent: Recent,
}

/// Plays the lines that are typed, as they come. A line with a fault changes nothing. The end of the lines ends it well. A read or
/// a write that fails, memory that is refused, and a line without its end end it by a fault.
/// Only tested: a line with a fault is told, and the next one is asked for.
/// Only tested: help is shown.
pub(crate) fn converse<T: Eprint, R: Read, W: Write>(
    rt: &T,
    alloc: Global,
    summary: bool,
    reader: &mut R,
    writer: &mut W,
) -> Told {
    let mut session = Session {
        rt,
        alloc,
        recent: Recent::new(alloc),
    };
    let mut tally = Tally::new(alloc, summary);
    let ended = session.play(reader, writer, &mut tally);
    let Session {
        rt: _,
        alloc: _,
        recent,
    } = session;
    Told::of(alloc, STANDARD_INPUT, By::Play, ended, &recent, &tally)
}

impl<'a, T: Eprint> Session<'a, T> {
    /// Plays all lines. The world is not taken apart behind them.
    fn play<R: Read, W: Write>(
        &mut self,
        reader: &mut R,
        writer: &mut W,
        tally: &mut Tally,
    ) -> Result<(), Fault> {
        let mut player = Player::new(self.alloc)?;
        say(self.rt, WELCOME);
        let ended = self.play_lines(&mut player, reader, writer, tally);
        mem::forget(player);
        ended
    }

    fn play_lines<R: Read, W: Write>(
        &mut self,
        player: &mut Player,
        reader: &mut R,
        writer: &mut W,
        tally: &mut Tally,
    ) -> Result<(), Fault> {
        for number in 1..=MAX_LINES + 1 {
            say(self.rt, PROMPT);
            if !self.turn(player, number, reader, writer, tally)? {
                return Ok(());
            }
        }
        Ok(())
    }

    /// Takes the line of this number and answers it, and says whether there is one.
    fn turn<R: Read, W: Write>(
        &mut self,
        player: &mut Player,
        number: u64,
        reader: &mut R,
        writer: &mut W,
        tally: &mut Tally,
    ) -> Result<bool, Fault> {
        if !self.take(player, number, reader, writer, tally)? {
            return Ok(false);
        }
        self.answer(player, number, writer, tally)?;
        end_answers(self.alloc, player, writer, tally)?;
        self.recent.add(self.alloc, b"\n");
        Ok(true)
    }

    /// Takes the line of this number, and says whether there is one.
    fn take<R: Read, W: Write>(
        &mut self,
        player: &mut Player,
        number: u64,
        reader: &mut R,
        writer: &mut W,
        tally: &mut Tally,
    ) -> Result<bool, Fault> {
        let mut reader = ReadCounter::new(reader);
        let mut writer = TallyWriter::new(self.alloc, writer, tally);
        let taken = player.take(number, &mut reader, &mut writer);
        self.recent.add(self.alloc, player.line.as_slice());
        if !matches!(taken, Ok(true)) {
            // No line end was typed.
            say(self.rt, "\n");
        }
        taken
    }

    /// Answers the line that was taken last: with help, with its fault, or as the player does.
    fn answer<W: Write>(
        &mut self,
        player: &mut Player,
        number: u64,
        writer: &mut W,
        tally: &mut Tally,
    ) -> Result<(), Fault> {
        if help(self.rt, self.alloc, player.line.as_slice())? {
            return Ok(());
        }
        let mut writer = TallyWriter::new(self.alloc, writer, tally);
        match player.play_sound(self.alloc, &mut writer) {
            Ok(None) => Ok(()),
            Ok(Some(kind)) => {
                let fault = Fault::ScriptFault(kind, number);
                tell(self.rt, self.alloc, &fault, &self.recent)?;
                Ok(())
            }
            Err(fault) => Err(ending_of(number, fault)),
        }
    }
}

/// Writes the answers that are gathered.
fn end_answers<W: Write>(
    alloc: Global,
    player: &mut Player,
    writer: &mut W,
    tally: &mut Tally,
) -> Result<(), Fault> {
    let mut writer = TallyWriter::new(alloc, writer, tally);
    player.outbox.end(&mut writer, Ok(()))?;
    Ok(())
}

/// Tells of the fault of the line that was typed last.
fn tell<T: Eprint>(
    rt: &T,
    alloc: Global,
    fault: &Fault,
    recent: &Recent,
) -> Result<(), AllocError> {
    say(rt, fault_line(alloc, fault)?.as_str());
    if let Some(line) = hint_line(alloc, STANDARD_INPUT, By::Play, fault, recent)? {
        say(rt, line.as_str());
    }
    Ok(())
}

/// Shows help where a line asks for it, and says whether it does.
fn help<T: Eprint>(rt: &T, alloc: Global, line: &[u8]) -> Result<bool, AllocError> {
    if line == b"help".as_slice() {
        say(rt, help_text(alloc)?.as_str());
        return Ok(true);
    }
    let Some(name) = line.strip_prefix(b"help ") else {
        return Ok(false);
    };
    match help_of(alloc, name)? {
        Some(text) => say(rt, text.as_str()),
        None => say(rt, NO_SUCH),
    }
    Ok(true)
}

/// Says something on standard error. Where that can't be written, it is not said.
fn say<T: Eprint>(rt: &T, text: &str) {
    let _said = rt.eprint(text);
}
