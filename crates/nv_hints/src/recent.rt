//! The bytes of a script that were read last, from the beginning of a line on.

ghost use Rattle.std.specs.Prelude.{◌≡◌, ◌++◌, ◌≤◌, IfOk, IfSome, List, ℕ, drop, false, length, true};
ghost use Rattle.nv_hints.specs.Recent.{ends_in};

use nv_script::feed::{before_end, past_last_end};
use std::alloc::{AllocError, Global};
use std::marker::Model;

/// The byte that ends a line.
const LINE_END: u8 = b'\n';

/// The most bytes whose ends are counted together: a byte has room for their number.
const SPAN: usize = 224;

/// The bytes that were read last, from the beginning of a line on, and how many lines stand before them.
#[derive(Drop)]
pub struct Recent {
    kept: Vec<u8>,
    before: u64,
    all_read: bool,
    lost: bool,
}

impl Model for Recent {
    ghost use Rattle.nv_hints.specs.Recent.{Window};

    ghost Value = { Window };

    ghost view = { λ recent. record {
      before = recent.before;
      kept = recent.kept.items;
      lost = recent.lost;
      all_read = recent.all_read;
    } };
}

impl Recent {
    ghost use Rattle.std.specs.Prelude.{[]};
    ghost use Rattle.nv_hints.specs.Recent.{IsLineOf, Keeps};

    /// Nothing is read.
    pub fn new(alloc: Global) -> Recent
        // Nothing is kept at first.
        ensures kept { Keeps [] result }
        ensures lost { result.lost ≡ false }
        ensures all_read { result.all_read ≡ false }
    {
        Recent {
            kept: Vec::new(alloc),
            before: 0,
            all_read: false,
            lost: false,
        }
    }

    /// Keeps the bytes of one more read, and lets go the whole lines of those before. Where memory is refused for them, no
    /// line is told from then on.
    pub fn add(&mut self, alloc: Global, bytes: &[u8])
        // What is kept is the end of all bytes that were read.
        ensures kept { (all : List ℕ) → Keeps all self.old → self.new.lost ≡ false
            → Keeps (all ++ bytes.now) self.new }
        ensures all_read { self.new.all_read ≡ self.old.all_read }
    {
        let whole = past_last_end(self.kept.as_slice());
        let lines = count_ends(&self.kept.as_slice()[..whole]) as u64;
        let (Some(before), Ok(kept)) = (
            self.before.checked_add(lines),
            self.joined(alloc, whole, bytes),
        ) else {
            self.kept.clear();
            self.lost = true;
            return;
        };
        self.before = before;
        self.kept = kept;
    }

    /// What is kept from a place on, and these bytes behind it.
    fn joined(&self, alloc: Global, place: usize, bytes: &[u8]) -> Result<Vec<u8>, AllocError>
        requires { place ≤ length self.now.kept }
        ensures { IfOk result (λ kept. kept.items ≡ drop place self.now.kept ++ bytes.now) }
    {
        let mut kept = Vec::from_slice(alloc, &self.kept.as_slice()[place..])?;
        kept.extend_from_slice(bytes)?;
        Ok(kept)
    }

    /// Notes that the script has no more bytes.
    pub fn end(&mut self)
        // That the script has no more bytes is noted and told.
        ensures { self.new ≡ record self.old { all_read = true } }
    {
        self.all_read = true;
    }

    /// Whether the script has no more bytes.
    pub fn is_all_read(&self) -> bool
        ensures { result ≡ self.now.all_read }
    {
        self.all_read
    }

    /// The line of this number, counted from 1, without its end: as far as it was read, if its beginning is kept.
    /// Only tested: a line is told wherever its beginning is kept and memory was there.
    pub fn line(&self, number: u64) -> Option<&[u8]>
        // The line of a number is that line of all bytes that were read.
        ensures line { IfSome result (λ line. (all : List ℕ) → Keeps all self.now
            → IsLineOf all number line.now) }
        // No line is told once memory was refused for one.
        ensures lost { self.now.lost ≡ true → result ≡ None }
    {
        if self.lost || number <= self.before {
            return None;
        }
        let mut rest = self.kept.as_slice();
        for _passed in self.before + 1..number {
            let end = before_end(rest);
            if end == rest.len() {
                return None;
            }
            let (_line, behind) = rest.split_at(end + 1);
            rest = behind;
        }
        if rest.is_empty() {
            return None;
        }
        Some(&rest[..before_end(rest)])
    }
}

/// How many lines end in some bytes.
fn count_ends(bytes: &[u8]) -> usize
    ensures { result ≡ ends_in bytes.now }
{
    let mut count = 0;
    let mut rest = bytes;
    while !rest.is_empty() {
        let (span, behind) = rest.split_at(SPAN.min(rest.len()));
        count += usize::from(ends_in_span(span));
        rest = behind;
    }
    count
}

/// How many lines end in a span. Its bytes are looked at without a branch, so that many are counted at once.
fn ends_in_span(span: &[u8]) -> u8
    requires { length span.now ≤ SPAN }
    ensures { result ≡ ends_in span.now }
{
    let mut count = 0;
    for byte in span {
        count += u8::from(*byte == LINE_END);
    }
    count
}
