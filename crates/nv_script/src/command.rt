//! What a line is, by its words: a `format`, or a command on a made world. A new command is a variant of
//! `CommandWord` with its name and its words, and an arm of `read`, each beside the definition of the same name; it
//! is acted on in `act`.

ghost use Rattle.std.specs.Prelude.{◌≡◌, ◌≤◌, IfOk, OnOk, true};
ghost use Rattle.nv_script.specs.Grammar.{Reads, are_counted, called_count, command_of, command_with, format_of, goes_in, head_of, is_skipped, none_empty, optional_count, own_fields, plain_word, texts, word_count};
ghost use Rattle.nv_script.specs.Results.{Counts};

use crate::call::CallWord;
use crate::fault::LineFault;
use crate::field::{Field, number_at};
use crate::format::{FORMAT_WORDS, read_numbers};
use crate::word::{positive, word_at};
use nv_base::{GeometryNumbers, ScriptFaultKind};
use nv_core::Call;
use std::alloc::Global;

/// The most steps of one line.
pub(crate) const MOST_GOES: u64 = 1_048_576;

/// A command on a made world.
#[derive(Drop)]
pub enum Command {
    /// An actor starts a call.
    Start(u64, Call),
    /// An actor's call goes on, and so often more at most.
    Go(u64, u64),
    /// An actor's call goes on as far as it can.
    Run(u64),
    /// An actor makes a call.
    Do(u64, Call),
    /// The machine stops, and goes on from what stands.
    Stop,
    /// The tree now.
    Tree,
    /// The tree of a snapshot.
    SnapTree(u64),
    /// The living snapshots.
    Snaps,
    /// Where the blocks are.
    Space,
    /// The free lists.
    Lists,
    /// The log of a slot.
    Log(u64),
    /// Whether each part is that of one scan of all logs.
    Audit,
}

/// A command by its name, with the call that it names.
#[derive(Clone, Copy, Drop)]
pub(crate) enum CommandWord {
    Start(CallWord),
    Go,
    Run,
    Do(CallWord),
    Stop,
    Tree,
    SnapTree,
    Snaps,
    Space,
    Lists,
    Log,
    Audit,
}

/// What a line is by its first words.
#[derive(Clone, Copy, Drop)]
pub(crate) enum Head {
    /// Makes the world.
    Format,
    Command(CommandWord),
}

/// Whether a line is empty or a comment.
pub fn is_skipped(line: &[u8]) -> bool
    ensures { result ≡ is_skipped line.now }
{
    line.is_empty() || line[0] == b'#'
}

/// The numbers of a `format`, which alone is due while no world is made.
pub fn read_format(words: &[&[u8]]) -> Result<GeometryNumbers, ScriptFaultKind>
    ensures { result ≡ format_of (texts words.now) }
{
    match Head::named(words)? {
        Head::Format => {
            check_count(words, FORMAT_WORDS, 0)?;
            read_numbers(words)
        }
        Head::Command(_) => Err(ScriptFaultKind::Order),
    }
}

/// The command of some words, where a world is made.
pub fn read_command(alloc: Global, words: &[&[u8]]) -> Result<Command, LineFault>
    ensures { Reads result (command_of (texts words.now)) }
{
    match Head::named(words)? {
        Head::Format => Err(LineFault::Faulty(ScriptFaultKind::Order)),
        Head::Command(command) => {
            check_count(words, command.word_count(), command.optional_count())?;
            command.read(alloc, words)
        }
    }
}

/// Whether there are so many words, of which some may be left out, and each has a byte.
fn check_count(words: &[&[u8]], most: usize, optional: usize) -> Result<(), ScriptFaultKind>
    requires { optional ≤ most }
    ensures { Counts result (are_counted most optional (texts words.now)) }
{
    if words.len() < most - optional || words.len() > most || !none_empty(words) {
        return Err(ScriptFaultKind::Count);
    }
    Ok(())
}

/// Whether each word has a byte.
fn none_empty(words: &[&[u8]]) -> bool
    ensures { result ≡ none_empty (texts words.now) }
{
    for word in words {
        if word.is_empty() {
            return false;
        }
    }
    true
}

impl Head {
    /// What the first words name.
    #[inline(always)]
    fn named(words: &[&[u8]]) -> Result<Head, ScriptFaultKind>
        ensures { result ≡ head_of (texts words.now) }
    {
        let name = word_at(words, 0);
        if name == b"format".as_slice() {
            return Ok(Head::Format);
        }
        if name == b"start".as_slice() {
            return Ok(Head::Command(CommandWord::Start(CallWord::third(words)?)));
        }
        if name == b"do".as_slice() {
            return Ok(Head::Command(CommandWord::Do(CallWord::third(words)?)));
        }
        let word = CommandWord::plain(name).ok_or(ScriptFaultKind::Word)?;
        Ok(Head::Command(word))
    }
}

impl CommandWord {
    /// The command of this name, which names no call.
    fn plain(name: &[u8]) -> Option<CommandWord>
        ensures { result ≡ plain_word name.now }
    {
        if name == b"go".as_slice() {
            return Some(CommandWord::Go);
        }
        if name == b"run".as_slice() {
            return Some(CommandWord::Run);
        }
        if name == b"stop".as_slice() {
            return Some(CommandWord::Stop);
        }
        if name == b"tree".as_slice() {
            return Some(CommandWord::Tree);
        }
        if name == b"stree".as_slice() {
            return Some(CommandWord::SnapTree);
        }
        if name == b"snaps".as_slice() {
            return Some(CommandWord::Snaps);
        }
        if name == b"space".as_slice() {
            return Some(CommandWord::Space);
        }
        if name == b"lists".as_slice() {
            return Some(CommandWord::Lists);
        }
        if name == b"log".as_slice() {
            return Some(CommandWord::Log);
        }
        if name == b"audit".as_slice() {
            return Some(CommandWord::Audit);
        }
        None
    }

    /// The words after the command's name, before those of its call.
    fn own_fields(self) -> &'static [Field]
        ensures { result.now ≡ own_fields self }
    {
        match self {
            CommandWord::Start(_) | CommandWord::Do(_) => &[Field::Number],
            CommandWord::Run | CommandWord::SnapTree | CommandWord::Log => &[Field::Number],
            CommandWord::Go => &[Field::Number, Field::Number],
            CommandWord::Stop
            | CommandWord::Tree
            | CommandWord::Snaps
            | CommandWord::Space
            | CommandWord::Lists
            | CommandWord::Audit => &[],
        }
    }

    /// How many of them may be left out.
    fn optional_count(self) -> usize
        ensures value { result ≡ optional_count self }
        ensures few { result ≤ word_count self }
    {
        match self {
            CommandWord::Go => 1,
            _ => 0,
        }
    }

    /// How many words the name of a call and its own words are.
    fn called_count(self) -> usize
        ensures { result ≡ called_count self }
    {
        match self {
            CommandWord::Start(call) | CommandWord::Do(call) => 1 + call.row().fields.len(),
            _ => 0,
        }
    }

    /// How many words a line of this command has at most.
    fn word_count(self) -> usize
        ensures { result ≡ word_count self }
    {
        1 + self.own_fields().len() + self.called_count()
    }

    /// The command with all words of its line, read from left to right.
    fn read(self, alloc: Global, words: &[&[u8]]) -> Result<Command, LineFault>
        ensures { Reads result (command_with self (texts words.now)) }
    {
        match self {
            CommandWord::Start(call) => Ok(Command::Start(
                number_at(words, 1)?,
                call.read(alloc, words)?,
            )),
            CommandWord::Do(call) => Ok(Command::Do(
                number_at(words, 1)?,
                call.read(alloc, words)?,
            )),
            CommandWord::Go => Ok(Command::Go(number_at(words, 1)?, goes_in(words)? - 1)),
            CommandWord::Run => Ok(Command::Run(number_at(words, 1)?)),
            CommandWord::Stop => Ok(Command::Stop),
            CommandWord::Tree => Ok(Command::Tree),
            CommandWord::SnapTree => Ok(Command::SnapTree(number_at(words, 1)?)),
            CommandWord::Snaps => Ok(Command::Snaps),
            CommandWord::Space => Ok(Command::Space),
            CommandWord::Lists => Ok(Command::Lists),
            CommandWord::Log => Ok(Command::Log(number_at(words, 1)?)),
            CommandWord::Audit => Ok(Command::Audit),
        }
    }
}

/// How often a `go` goes: once where it does not say so.
fn goes_in(words: &[&[u8]]) -> Result<u64, ScriptFaultKind>
    ensures value { result ≡ goes_in (texts words.now) }
    ensures some { IfOk result (λ count. 1 ≤ count) }
{
    if words.len() <= 2 {
        return Ok(1);
    }
    positive(MOST_GOES, word_at(words, 2)).ok_or(ScriptFaultKind::Number)
}
