//! The bytes of a call's text.

ghost use Rattle.std.specs.Prelude.{◌≡◌, ◌+◌, length, map, slice_index_or};
ghost use Rattle.std.specs.List.{range_with_len};

use nv_calls::{Source, SourceFault};

/// A text in memory, as the source of a write. It never fails. Past its end it has zeros.
#[derive(Drop)]
pub struct Text<'a> {
    /// The bytes.
    pub bytes: &'a [u8],
}

impl Source for Text<'_> {
    ghost byte_at = { λ text place. slice_index_or text.bytes.now place 0 };

    ghost failed = { λ _. 0 };

    ghost State = { Unit {0} };

    ghost state = { λ _. tt };

    ghost asked = { λ state _. state };

    fn fill(&mut self, at: u64, part: &mut [u8]) -> Result<(), SourceFault> {
        copy(self.bytes, at, part);
        Ok(())
    }

    fn failures(&self) -> u64 {
        0
    }
}

/// Copies the bytes from a place on, and zeros where there are no more.
fn copy(text: &[u8], at: u64, part: &mut [u8])
    ensures { part.new
        ≡ map (λ i. slice_index_or text.now i 0) (range_with_len at (length part.old)) }
{
    let count = text.len() as u64;
    if count < at || count - at < part.len() as u64 {
        copy_slowly(text, at, part);
        return;
    }
    let from = at as usize;
    let to = from + part.len();
    part.copy_from_slice(&text[from..to]);
}

/// Copies the bytes from a place on, one by one, and zeros past the end.
fn copy_slowly(text: &[u8], at: u64, part: &mut [u8])
    ensures { part.new
        ≡ map (λ i. slice_index_or text.now i 0) (range_with_len at (length part.old)) }
{
    for i in 0..part.len() {
        part[i] = byte_behind(text, at, i);
    }
}

/// The byte so many places behind another, 0 past the end.
fn byte_behind(text: &[u8], at: u64, i: usize) -> u8
    ensures { result ≡ slice_index_or text.now (at + i) 0 }
{
    let Some(place) = at.checked_add(i as u64) else {
        return 0;
    };
    match text.get(place as usize) {
        Some(byte) => *byte,
        None => 0,
    }
}
