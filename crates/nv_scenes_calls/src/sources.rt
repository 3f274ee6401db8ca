//! Sources of texts: one that counts how often it is asked and may fail, and one that waits for a word.

ghost use Rattle.std.specs.Prelude.{◌≡◌, ◌+◌, IsTrue, length, map, slice_index_or};
ghost use Rattle.std.specs.List.{range_with_len};

use nv_calls::{Source, SourceFault};
use std::sync::atomic::{AtomicBool, Ordering};
use std::thread;

/// A text that counts how often it is asked. It fails at one of these calls, and where it is asked for what it hasn't.
#[derive(Drop)]
pub struct CountedText<'a> {
    pub text: &'a [u8],
    pub calls: u64,
    pub fails_at: Option<u64>,
    pub failures: u64,
}

impl<'a> CountedText<'a> {
    pub fn new(text: &'a [u8], fails_at: Option<u64>) -> CountedText<'a>
        ensures { result.failures ≡ 0 }
    {
        CountedText {
            text,
            calls: 0,
            fails_at,
            failures: 0,
        }
    }
}

impl Source for CountedText<'_> {
    ghost use Rattle.std.specs.Prelude.{ℕ, slice_index_or};

    ghost byte_at = { λ source at. slice_index_or source.text.now at 0 };

    ghost failed = { λ source. source.failures };

    ghost State = { ℕ };

    ghost state = { λ source. 0 };

    ghost asked = { λ state ask. state };

    fn fill(&mut self, at: u64, part: &mut [u8]) -> Result<(), SourceFault> {
        let call = self.calls;
        self.calls = call.wrapping_add(1);
        if self.fails_at == Some(call) || !copied(self.text, at, part) {
            self.failures += 1;
            return Err(SourceFault);
        }
        Ok(())
    }

    fn failures(&self) -> u64 {
        self.failures
    }
}

/// How often one thread looks whether another has done something.
pub const TURNS: u64 = 1_000_000;

/// Waits for a word of another thread, and tells whether it came before the turns were used up.
pub fn came(word: &AtomicBool) -> bool {
    for _ in 0..TURNS {
        if word.load(Ordering::SeqCst) {
            return true;
        }
        thread::yield_now();
    }
    false
}

/// A text that says when it is asked, and then waits for a word before it hands out any part. Where the word does not
/// come it fails.
#[derive(Drop)]
pub struct WaitingText<'a> {
    text: &'a [u8],
    asked: &'a AtomicBool,
    word: &'a AtomicBool,
    failures: u64,
}

impl<'a> WaitingText<'a> {
    pub fn new(text: &'a [u8], asked: &'a AtomicBool, word: &'a AtomicBool) -> WaitingText<'a>
        ensures { result.failures ≡ 0 }
    {
        WaitingText {
            text,
            asked,
            word,
            failures: 0,
        }
    }
}

impl Source for WaitingText<'_> {
    ghost use Rattle.std.specs.Prelude.{ℕ, slice_index_or};

    ghost byte_at = { λ source at. slice_index_or source.text.now at 0 };

    ghost failed = { λ source. source.failures };

    ghost State = { Unit {0} };

    ghost state = { λ source. tt };

    ghost asked = { λ state ask. state };

    fn fill(&mut self, at: u64, part: &mut [u8]) -> Result<(), SourceFault> {
        self.asked.store(true, Ordering::SeqCst);
        if !came(self.word) || !copied(self.text, at, part) {
            self.failures += 1;
            return Err(SourceFault);
        }
        Ok(())
    }

    fn failures(&self) -> u64 {
        self.failures
    }
}

/// Copies the bytes from a place on, if there are so many.
fn copied(text: &[u8], at: u64, part: &mut [u8]) -> bool
    ensures { IsTrue result → part.new
        ≡ map (λ i. slice_index_or text.now i 0) (range_with_len at (length part.old)) }
{
    let count = text.len() as u64;
    if count < at || count - at < part.len() as u64 {
        return false;
    }
    let from = at as usize;
    let to = from + part.len();
    part.copy_from_slice(&text[from..to]);
    true
}
