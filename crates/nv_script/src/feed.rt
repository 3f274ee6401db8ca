//! The lines of a reader, taken one at a time through a chunk of fixed size.
ghost use Rattle.std.specs.List.{Contains};
ghost use Rattle.std.specs.Prelude.{◌≡◌, ◌≢◌, IsTrue, ℕ, ◌+◌, ◌-◌, ◌^◌, ◌≤◌, ◌<◌, [], ◌∷◌, ◌++◌, length, take, slice_index, IfOk, IsErr, IsOk, MatchResult, MatchOption, MatchBool, OnErr, OnOk};
ghost use Rattle.std.specs.Vec.{vec_capacity};
ghost use Rattle.std.specs.Io.KnownBytes.{prepend_known, Consumes, Keeps, IsAtEnd};
ghost use Rattle.nv_script.specs.Lines.{EndsLine, HasNoEnd};

use crate::counted::{CountedRead, ReadFailed};
use memchr::{memchr, memrchr};
use std::alloc::{AllocError, Global};
use std::marker::Model;

/// The most bytes of a line, without its end.
pub const MAX_LINE_BYTES: usize = 4096;

/// The byte that ends a line.
const LINE_END: u8 = b'\n';

/// The most bytes that are read ahead.
const CHUNK_BYTES: usize = 65_536;

/// How a line was taken.
#[derive(Clone, Copy, Debug, PartialEq, Eq, Drop)]
pub enum LineResult {
    /// A line and its end.
    Line,
    /// Nothing: the reader has no more bytes.
    End,
    /// The last bytes, which have no line end.
    Unended,
    /// The first bytes of a line that is too long.
    Long,
}

/// Bytes that were read ahead: those of `chunk` from `at` up to `end`. The last line end among them stands
/// before `lines_end`, which is 0 where none was read.
#[derive(Drop)]
pub struct Feed {
    chunk: Vec<u8>,
    at: usize,
    end: usize,
    lines_end: usize,
}

impl Model for Feed {
    ghost use Rattle.std.specs.Prelude.{◌≡◌, ℕ, ◌+◌, List, ◌≤◌, ◌<◌, take, drop, length};
    ghost use Rattle.nv_script.specs.Lines.{EndsLine};

    ghost Value = { List ℕ };

    ghost view = { λ feed. drop feed.at (take feed.end feed.chunk.items) };

    // The bytes read ahead lie within the chunk, which has at least one byte; the last line end that is noted is
    // one.
    ghost invariant = { λ feed. (feed.at ≤ feed.end) × (feed.end ≤ length feed.chunk.items)
        × (0 < length feed.chunk.items)
        × EndsLine (take feed.end feed.chunk.items) feed.lines_end };
}

impl Feed {
    ghost use Rattle.nv_script.specs.Lines.{IsLine, LineResultIs};

    /// A feed with no bytes read ahead.
    pub fn new(alloc: Global) -> Result<Feed, AllocError>
        // A new feed has nothing read ahead.
        ensures { IfOk result (λ ahead. ahead ≡ []) }
    {
        let chunk = vec![in alloc; 0u8; CHUNK_BYTES]?;
        Ok(Feed {
            chunk,
            at: 0,
            end: 0,
            lines_end: 0,
        })
    }

    /// Whether the end of the next line is read ahead: to take that line needs no read then.
    pub fn has_line(&self) -> bool
        // Whether a line end is read ahead is told, never falsely.
        ensures { IsTrue result → Contains self.now LINE_END }
    {
        self.at < self.lines_end
    }

    /// Takes the next line into `line`, in place of what it held. Where its end is read ahead, no read fails.
    ///
    /// After a failed read `line` has the bytes that were taken until then, and no byte is read ahead.
    pub fn next_line<R: CountedRead>(
        &mut self,
        reader: &mut R,
        line: &mut Vec<u8>,
    ) -> Result<LineResult, ReadFailed>
        requires room { MAX_LINE_BYTES ≤ vec_capacity line.old }
        requires failures { R.failed reader.old < 2 ^ 64 - 1 }
        ensures room { MAX_LINE_BYTES ≤ vec_capacity line.new }
        // A line is taken with its end.
        ensures line { IsLine line.new.items }
        // A line is told as the last where it has no end, and as none at the end.
        // A line is told as too long after 4,097 bytes.
        // A failed read leaves what was taken of it.
        ensures taken { let old = prepend_known self.old (R.remaining reader.old) in
            let new = prepend_known self.new (R.remaining reader.new) in
            MatchResult result
            (λ taken. LineResultIs taken old new line.new.items)
            (λ _. Consumes old new line.new.items) }
        ensures ahead { IsErr result → self.new ≡ [] }
        // No read fails where the end of the line is read ahead.
        ensures there { Contains self.old LINE_END → IsOk result }
        // It fails exactly where one more read failed.
        ensures ok { OnOk result (R.failed reader.new ≡ R.failed reader.old) }
        ensures err { OnErr result (R.failed reader.new ≡ R.failed reader.old + 1) }
        ensures same { R.place reader.new ≡ R.place reader.old }
    {
        line.clear();
        while self.fill(reader)? {
            if let Some(byte) = self.take_front(line) {
                return Ok(if byte == LINE_END {
                    LineResult::Line
                } else {
                    LineResult::Long
                });
            }
        }
        Ok(if line.is_empty() {
            LineResult::End
        } else {
            LineResult::Unended
        })
    }

    /// Reads ahead where no byte is read ahead, and says whether one is then: none is at the reader's end.
    fn fill<R: CountedRead>(&mut self, reader: &mut R) -> Result<bool, ReadFailed>
        requires { R.failed reader.old < 2 ^ 64 - 1 }
        ensures kept { Keeps (prepend_known self.old (R.remaining reader.old))
            (prepend_known self.new (R.remaining reader.new)) }
        ensures filled { IfOk result (λ filled. MatchBool filled
            (0 < length self.new)
            (IsAtEnd (prepend_known self.new (R.remaining reader.new)))) }
        ensures ahead { IsErr result → self.new ≡ [] }
        ensures there { 0 < length self.old → IsOk result × (self.new ≡ self.old) }
        ensures ok { OnOk result (R.failed reader.new ≡ R.failed reader.old) }
        ensures err { OnErr result (R.failed reader.new ≡ R.failed reader.old + 1) }
        ensures same { R.place reader.new ≡ R.place reader.old }
    {
        if self.at < self.end {
            return Ok(true);
        }
        self.at = 0;
        self.end = 0;
        self.lines_end = 0;
        let Ok(count) = reader.read(self.chunk.as_mut_slice()) else {
            return Err(ReadFailed);
        };
        self.end = count;
        self.lines_end = past_last_end(&self.chunk[..count]);
        Ok(count > 0)
    }

    /// Takes bytes that are read ahead into `line`, and then the byte that ends it or has no room in it.
    ///
    /// The result is that byte, or `None` where all bytes went into `line`.
    fn take_front(&mut self, line: &mut Vec<u8>) -> Option<u8>
        requires room { MAX_LINE_BYTES ≤ vec_capacity line.old }
        requires line { IsLine line.old.items }
        ensures room { MAX_LINE_BYTES ≤ vec_capacity line.new }
        ensures line { IsLine line.new.items }
        ensures taken { MatchOption result
            ((line.new.items ≡ line.old.items ++ self.old) × (self.new ≡ []))
            (λ byte. line.old.items ++ self.old ≡ (line.new.items ++ byte ∷ []) ++ self.new) }
        ensures full { MatchOption result
            (Unit {0})
            (λ byte. byte ≢ LINE_END → length line.new.items ≡ MAX_LINE_BYTES) }
    {
        self.at += Self::push_front(&self.chunk[self.at..self.end], line);
        if self.at == self.end {
            return None;
        }
        let byte = self.chunk[self.at];
        self.at += 1;
        Some(byte)
    }

    /// Pushes the bytes before the first line end, as far as `line` has room, and returns how many these are.
    fn push_front(bytes: &[u8], line: &mut Vec<u8>) -> usize
        requires room { MAX_LINE_BYTES ≤ vec_capacity line.old }
        requires line { IsLine line.old.items }
        ensures room { MAX_LINE_BYTES ≤ vec_capacity line.new }
        ensures line { IsLine line.new.items }
        ensures within { result ≤ length bytes.now }
        ensures pushed { line.new.items ≡ line.old.items ++ take result bytes.now }
        ensures stopped { result < length bytes.now → slice_index bytes.now result ≢ LINE_END
            → length line.new.items ≡ MAX_LINE_BYTES }
    {
        let room = bytes.len().min(MAX_LINE_BYTES - line.len());
        let count = before_end(&bytes[..room]);
        let Ok(()) = line.extend_from_slice(&bytes[..count]) else {
            // There is room for the longest line.
            unreachable!()
        };
        count
    }
}

/// How many bytes stand before the first line end.
pub fn before_end(bytes: &[u8]) -> usize
    // Before the first line end of some bytes none stands.
    ensures within { result ≤ length bytes.now }
    ensures clean { HasNoEnd (take result bytes.now) }
    ensures end { result < length bytes.now → slice_index bytes.now result ≡ LINE_END }
{
    memchr(LINE_END, bytes).unwrap_or(bytes.len())
}

/// The place behind the last line end of some bytes, or 0 where there is none.
pub fn past_last_end(bytes: &[u8]) -> usize
    // A place that is told to stand behind a line end does.
    ensures { EndsLine bytes.now result }
{
    match memrchr(LINE_END, bytes) {
        Some(last) => last + 1,
        None => 0,
    }
}
