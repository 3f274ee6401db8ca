//! The words of a line, read by their places.

ghost use Rattle.std.specs.Prelude.{◌≡◌};
ghost use Rattle.nv_script.specs.Grammar.{Reads, setting_at, setting_of, texts, value_at};

use crate::fault::LineFault;
use crate::word::{handle, mode, number, positive, text, word_at};
use nv_base::{Bytes, Handle, Mode, ScriptFaultKind, limits};
use std::alloc::Global;

/// What a word of a line is read as.
#[derive(Clone, Copy, Drop)]
pub(crate) enum Field {
    Handle,
    Number,
    Mode,
    /// How many records a drain is to release at most.
    Records,
    /// A name, or the bytes of a write.
    Text,
}

pub(crate) fn handle_at(words: &[&[u8]], place: usize) -> Result<Handle, ScriptFaultKind>
    ensures { result ≡ value_at Field.Handle (texts words.now) place }
{
    handle(word_at(words, place)).ok_or(ScriptFaultKind::Number)
}

pub(crate) fn number_at(words: &[&[u8]], place: usize) -> Result<u64, ScriptFaultKind>
    ensures { result ≡ value_at Field.Number (texts words.now) place }
{
    number(word_at(words, place)).ok_or(ScriptFaultKind::Number)
}

pub(crate) fn mode_at(words: &[&[u8]], place: usize) -> Result<Mode, ScriptFaultKind>
    ensures { result ≡ value_at Field.Mode (texts words.now) place }
{
    mode(word_at(words, place)).ok_or(ScriptFaultKind::Number)
}

pub(crate) fn records_at(words: &[&[u8]], place: usize) -> Result<u64, ScriptFaultKind>
    ensures { result ≡ value_at Field.Records (texts words.now) place }
{
    positive(limits::DRAIN, word_at(words, place)).ok_or(ScriptFaultKind::Number)
}

#[inline(always)]
pub(crate) fn text_at(alloc: Global, words: &[&[u8]], place: usize) -> Result<Bytes, LineFault>
    ensures { Reads result (value_at Field.Text (texts words.now) place) }
{
    match text(alloc, word_at(words, place))? {
        Some(text) => Ok(text),
        None => Err(LineFault::Faulty(ScriptFaultKind::Text)),
    }
}

pub(crate) fn setting_at(words: &[&[u8]], place: usize, name: &[u8]) -> Result<u64, ScriptFaultKind>
    ensures { result ≡ setting_at (texts words.now) place name.now }
{
    setting_of(name, word_at(words, place)).ok_or(ScriptFaultKind::Number)
}

/// The number that stands behind a name, which comes with its `=`.
fn setting_of(name: &[u8], word: &[u8]) -> Option<u64>
    ensures { result ≡ setting_of name.now word.now }
{
    number(word.strip_prefix(name)?)
}
