//! What is wrong with a faulty line, and what to write in its place.

use crate::flaw::{Flaw, flaw_of};
use crate::form::{LineForm, named, names, names_call, push_format, push_name};
use crate::nearest::nearest;
use crate::shown::push_quoted;
use crate::table::{Form, Kind, calls, commands};
use crate::unread::first_unread;
use nv_base::ScriptFaultKind;
use nv_script::word::{word_at, words};
use std::alloc::{AllocError, Global};

/// What plays a script.
#[derive(Clone, Copy, Debug, PartialEq, Eq, Drop)]
pub enum By {
    /// `novacore play`.
    Play,
    /// `novacore work`.
    Work,
}

/// The most bytes of a word that are shown.
const MOST_OF_WORD: usize = 40;

/// Adds what is wrong with a line that ended its script by a fault of this kind. `all_read` tells whether the script had no
/// more bytes.
pub(crate) fn push_hint(
    alloc: Global,
    out: &mut String,
    by: By,
    kind: ScriptFaultKind,
    line: &[u8],
    all_read: bool,
) -> Result<(), AllocError> {
    match kind {
        ScriptFaultKind::Lines => out.push_str("a script has at most 1048576 lines"),
        ScriptFaultKind::Long => out.push_str(
            "a line has at most 4096 bytes; several 'write' calls write a long text part by part",
        ),
        ScriptFaultKind::Unended => {
            out.push_str("the last line has no line end: write one behind it")
        }
        ScriptFaultKind::Order if by == By::Work && all_read => {
            out.push_str("the script has no line 'fork', behind which the threads' calls stand")
        }
        _ => match flaw_of(line) {
            Some(flaw) => push_flaw(out, flaw),
            None => push_words_hint(alloc, out, by, kind, words(alloc, line)?.as_slice()),
        },
    }
}

/// Adds what is wrong with the bytes of a line.
fn push_flaw(out: &mut String, flaw: Flaw) -> Result<(), AllocError> {
    match flaw {
        Flaw::Mark => {
            out.push_str(
                "a byte order mark stands before the line: save the script as UTF-8 without one",
            )
        }
        Flaw::Return => out.push_str(
            "the line ends in a carriage return, and a script's lines end in LF alone: tr -d '\\r' takes it out",
        ),
        Flaw::Indented => out.push_str("the line is indented, and a command begins its line"),
        Flaw::Blank => out.push_str(
            "the line ends in a blank, and no byte stands behind the last word",
        ),
        Flaw::Tab => out.push_str(
            "a tab stands in the line, and words stand between single spaces",
        ),
        Flaw::Foreign(byte) => write!(
            out,
            "the byte 0x{byte:02x} is not visible; in a text it is written %{byte:02x}"
        ),
    }
}

/// Adds what is wrong with the words of a line.
fn push_words_hint(
    alloc: Global,
    out: &mut String,
    by: By,
    kind: ScriptFaultKind,
    words: &[&[u8]],
) -> Result<(), AllocError> {
    match kind {
        ScriptFaultKind::Order => push_order(out, words),
        ScriptFaultKind::Word => push_unknown(alloc, out, by, words),
        ScriptFaultKind::Count => push_count(out, words),
        _ => push_unread(alloc, out, words),
    }
}

/// Adds why a command may not stand there.
fn push_order(out: &mut String, words: &[&[u8]]) -> Result<(), AllocError> {
    if word_at(words, 0) == b"format".as_slice() {
        return out.push_str("the file system is made already, and a script makes one");
    }
    out.push_str("no file system is made yet: '")?;
    push_format(out)?;
    out.push_str("' comes first")
}

/// Adds why a word names no command or no call.
fn push_unknown(
    alloc: Global,
    out: &mut String,
    by: By,
    words: &[&[u8]],
) -> Result<(), AllocError> {
    let first = word_at(words, 0);
    if first == b"fork".as_slice() {
        return out.push_str(match by {
            By::Play => "threads are played by 'novacore work'",
            By::Work => "a script has one 'fork'",
        });
    }
    if LineForm::of(words).is_some() {
        return out.push_str("behind 'fork' stand 'do' lines and comments alone");
    }
    if names_call(first) {
        return push_unknown_call(alloc, out, word_at(words, 2));
    }
    push_unknown_command(alloc, out, first)
}

/// Adds which call was meant by a word.
fn push_unknown_call(alloc: Global, out: &mut String, word: &[u8]) -> Result<(), AllocError> {
    if word.is_empty() {
        return out.push_str(TWO_SPACES);
    }
    push_quoted(out, word, MOST_OF_WORD)?;
    if named(commands(), word).is_some() {
        return out.push_str(" is a command and no call: it begins its line");
    }
    out.push_str(" is no call; ")?;
    push_meant(alloc, out, word, calls())
}

/// Adds which command was meant by a word.
fn push_unknown_command(alloc: Global, out: &mut String, word: &[u8]) -> Result<(), AllocError> {
    push_quoted(out, word, MOST_OF_WORD)?;
    if named(calls(), word).is_some() {
        return out.push_str(" is a call, which stands behind 'do ACTOR'");
    }
    out.push_str(" is no command; ")?;
    if nearest(alloc, word, names(alloc, commands())?.as_slice())?.is_none()
        && let Some(call) = nearest(alloc, word, names(alloc, calls())?.as_slice())?
    {
        out.push_str("the nearest call is 'do ACTOR ")?;
        push_name(out, call)?;
        return out.push('\'');
    }
    push_meant(alloc, out, word, commands())
}

/// Adds the name that is nearest to a word, or all names where none is near.
fn push_meant(
    alloc: Global,
    out: &mut String,
    word: &[u8],
    forms: &'static [Form],
) -> Result<(), AllocError> {
    if let Some(name) = nearest(alloc, word, names(alloc, forms)?.as_slice())? {
        out.push_str("the nearest is '")?;
        push_name(out, name)?;
        return out.push('\'');
    }
    out.push_str("there are")?;
    for form in forms {
        out.push(' ')?;
        push_name(out, form.name)?;
    }
    Ok(())
}

const TWO_SPACES: &str = "two spaces stand in a row, and words stand between single ones";

/// Adds how many words are too many, or lack.
fn push_count(out: &mut String, words: &[&[u8]]) -> Result<(), AllocError> {
    if words.iter().any(|word| word.is_empty()) {
        return out.push_str(TWO_SPACES);
    }
    if word_at(words, 0) == b"fork".as_slice() {
        return out.push_str("'fork' stands alone in its line");
    }
    let Some(form) = LineForm::of(words) else {
        return out.push_str("a call is lacking: the form is 'do ACTOR CALL ..'");
    };
    let most = form.word_count();
    if words.len() > most {
        push_words(out, words.len() - most)?;
        out.push_str(" more than '")?;
        form.push(out)?;
        return out.push_str("' has; a space in a text is %20");
    }
    let least = most.saturating_sub(form.command.optional);
    push_words(out, least.saturating_sub(words.len()))?;
    out.push_str(" fewer than '")?;
    form.push(out)?;
    out.push_str("' has")
}

/// Adds so many words.
fn push_words(out: &mut String, count: usize) -> Result<(), AllocError> {
    if count == 1 {
        return out.push_str("1 word");
    }
    write!(out, "{count} words")
}

/// Adds which word can't be read, and what is awaited in its place.
fn push_unread(alloc: Global, out: &mut String, words: &[&[u8]]) -> Result<(), AllocError> {
    let Some(form) = LineForm::of(words) else {
        return Ok(());
    };
    let Some(unread) = first_unread(alloc, &form, words)? else {
        return Ok(());
    };
    let name = unread.part.name;
    push_quoted(out, unread.word, MOST_OF_WORD)?;
    let Some(awaited) = awaited(unread.part.kind) else {
        write!(out, " stands where '{name}' is awaited: '")?;
        push_format(out)?;
        return out.push('\'');
    };
    write!(out, " is no {name}: {awaited}")
}

/// What a word of this kind is, except where it is a setting.
pub(crate) fn awaited(kind: Kind) -> Option<&'static str> {
    match kind {
        Kind::Handle => Some("a handle is an inode number, '.' and a generation, as 1.1"),
        Kind::Number => Some("a number is 1 to 20 decimal digits, below 2 to the power of 64"),
        Kind::Mode => Some("a mode is decimal and at most 4095, and octal 644 is 420"),
        Kind::Records => Some("it is a decimal number from 1 to 1048576"),
        Kind::Text => Some(
            "a text has visible bytes, and '%' with two hexadecimal digits stands for any other",
        ),
        Kind::Setting(_) => None,
    }
}
