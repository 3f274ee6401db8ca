//! The word of a line that can't be read.

use crate::form::LineForm;
use crate::table::{Kind, Part};
use nv_base::limits;
use nv_script::word::{handle, mode, number, positive, text};
use std::alloc::{AllocError, Global};

/// A word that can't be read, and what stands there in the form of its line.
#[derive(Clone, Copy, Drop)]
pub(crate) struct Unread<'a> {
    pub(crate) word: &'a [u8],
    pub(crate) part: Part,
}

/// The first word of a line that can't be read, from left to right.
pub(crate) fn first_unread<'a>(
    alloc: Global,
    form: &LineForm,
    words: &[&'a [u8]],
) -> Result<Option<Unread<'a>>, AllocError> {
    let own = unread_from(alloc, form.command.parts, words, 1)?;
    match form.call {
        Some(call) if own.is_none() => unread_from(alloc, call.parts, words, 3),
        _ => Ok(own),
    }
}

/// The first word from a place on that can't be read as its part says.
fn unread_from<'a>(
    alloc: Global,
    parts: &'static [Part],
    words: &[&'a [u8]],
    place: usize,
) -> Result<Option<Unread<'a>>, AllocError> {
    let rest = &words[place.min(words.len())..];
    for (part, word) in parts.iter().zip(rest) {
        if !is_read(alloc, part.kind, word)? {
            return Ok(Some(Unread { word, part: *part }));
        }
    }
    Ok(None)
}

/// Whether a word can be read so.
fn is_read(alloc: Global, kind: Kind, word: &[u8]) -> Result<bool, AllocError> {
    Ok(match kind {
        Kind::Handle => handle(word).is_some(),
        Kind::Number => number(word).is_some(),
        Kind::Mode => mode(word).is_some(),
        Kind::Records => positive(limits::DRAIN, word).is_some(),
        Kind::Text => text(alloc, word)?.is_some(),
        Kind::Setting(name) => match word.strip_prefix(name) {
            Some(digits) => number(digits).is_some(),
            None => false,
        },
    })
}
