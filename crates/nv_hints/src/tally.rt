//! How many lines of a script had each refusal.

ghost use Rattle.std.specs.Prelude.{◌≡◌};

use crate::form::push_name;
use memchr::memchr;
use nv_script::{CountedWrite, WriteFailed};
use std::alloc::{AllocError, Global};
use std::io::Write;

/// The byte that ends a line.
const LINE_END: u8 = b'\n';

/// The most bytes of a line that are kept. No refusal has more.
const MOST_OF_LINE: usize = 128;

/// How many lines had a refusal.
#[derive(Drop)]
struct Row {
    refusal: Vec<u8>,
    lines: u64,
}

/// The refusals among lines of answers, in the order in which each came first, and the front of the line that is not at its end.
#[derive(Drop)]
pub struct Tally {
    counts: bool,
    rows: Vec<Row>,
    line: Vec<u8>,
    lost: bool,
}

impl Tally {
    /// No line is counted so far, and none ever where `counts` does not ask for it.
    pub fn new(alloc: Global, counts: bool) -> Tally {
        Tally {
            counts,
            rows: Vec::new(alloc),
            line: Vec::new(alloc),
            lost: false,
        }
    }

    /// Counts the lines that end in these bytes. Where memory is refused, the count is given up.
    pub fn add(&mut self, alloc: Global, bytes: &[u8]) {
        if self.counts && self.try_add(alloc, bytes).is_err() {
            self.lost = true;
        }
    }

    fn try_add(&mut self, alloc: Global, bytes: &[u8]) -> Result<(), AllocError> {
        let mut rest = bytes;
        while let Some(end) = memchr(LINE_END, rest) {
            self.keep(&rest[..end])?;
            self.count_line(alloc)?;
            rest = &rest[end + 1..];
        }
        self.keep(rest)
    }

    /// Keeps what there is room for of a line.
    fn keep(&mut self, part: &[u8]) -> Result<(), AllocError> {
        let room = MOST_OF_LINE.saturating_sub(self.line.len());
        self.line.extend_from_slice(&part[..room.min(part.len())])
    }

    /// Counts the line that is kept, if it tells of a refusal.
    fn count_line(&mut self, alloc: Global) -> Result<(), AllocError> {
        if let Some(refusal) = refusal_of(self.line.as_slice()) {
            count_refusal(alloc, &mut self.rows, refusal)?;
        }
        self.line.clear();
        Ok(())
    }

    /// How many lines had a refusal.
    fn all(&self) -> u64 {
        let mut lines = 0u64;
        for row in &self.rows {
            lines = lines.saturating_add(row.lines);
        }
        lines
    }
}

/// Counts one more line with a refusal.
fn count_refusal(alloc: Global, rows: &mut Vec<Row>, refusal: &[u8]) -> Result<(), AllocError> {
    for row in rows.iter_mut() {
        if row.refusal.as_slice() == refusal {
            row.lines = row.lines.saturating_add(1);
            return Ok(());
        }
    }
    let refusal = Vec::from_slice(alloc, refusal)?;
    rows.push(Row { refusal, lines: 1 })?;
    Ok(())
}

/// The refusal of which a line of answers tells, also behind the number of a thread.
fn refusal_of(line: &[u8]) -> Option<&[u8]> {
    let refusal = behind_thread(line).strip_prefix(b"refused ")?;
    if refusal.first() != Some(&b'E') {
        return None;
    }
    Some(refusal)
}

/// An answer without the number of its thread.
fn behind_thread(line: &[u8]) -> &[u8] {
    let digits = line.iter().take_while(|byte| byte.is_ascii_digit()).count();
    match line[digits..].strip_prefix(b": ") {
        Some(answer) if digits > 0 => answer,
        _ => line,
    }
}

/// Adds how many lines had each refusal, in the order in which each came first, and what the want of blocks means. Where none are
/// counted, it adds nothing.
/// Only tested: the text of a summary.
pub fn push_summary(out: &mut String, tally: &Tally) -> Result<(), AllocError> {
    if !tally.counts {
        return Ok(());
    }
    if tally.lost {
        return out.push_str("refused lines: not counted, since memory was refused\n");
    }
    let all = tally.all();
    write!(out, "refused lines: {all}\n")?;
    let mut no_space = false;
    for row in &tally.rows {
        let lines = row.lines;
        write!(out, "{lines} ")?;
        push_name(out, row.refusal.as_slice())?;
        out.push('\n')?;
        no_space |= row.refusal.as_slice() == b"E13 NoSpace".as_slice();
    }
    if no_space {
        out.push_str(NO_SPACE)?;
    }
    Ok(())
}

/// What is wanted where a call is refused for want of blocks.
const NO_SPACE: &str = "\
E13 NoSpace: fewer blocks were free than the call wanted. A write wants one for each block of the file that it touches. A log
without room wants as many as it has pages, and 8 at once from 8 pages on. 'space' tells the free blocks, and 'log INO' the pages
of a log. 'auto INO' gives log pages back, and 'drain COUNT' what no snapshot holds any more.
";

/// A writer that counts its failures, and the refusals among what it writes where its tally counts them.
/// Only tested: it writes what it is given, and counts the refusals in it.
#[derive(Drop)]
pub struct TallyWriter<'a, W> {
    writer: &'a mut W,
    failures: u64,
    alloc: Global,
    tally: &'a mut Tally,
}

impl<'a, W: Write> TallyWriter<'a, W> {
    /// No write has failed. What is written goes to the `tally`.
    pub fn new(alloc: Global, writer: &'a mut W, tally: &'a mut Tally) -> TallyWriter<'a, W>
        ensures same { result.writer.ghost_name ≡ writer.entry.ghost_name }
        ensures writer { result.writer.now ≡ writer.old }
        ensures failures { result.failures ≡ 0 }
    {
        TallyWriter {
            writer,
            failures: 0,
            alloc,
            tally,
        }
    }
}

impl<'a, W: Write> CountedWrite for TallyWriter<'a, W> {
    ghost contents = { λ counted. W.contents counted.writer.now };

    ghost failed = { λ counted. counted.failures };

    ghost place = { λ counted. counted.writer.ghost_name };

    fn write(&mut self, bytes: &[u8]) -> Result<usize, WriteFailed> {
        match self.writer.write(bytes) {
            Ok(count) if count > 0 || bytes.is_empty() => {
                self.tally.add(self.alloc, &bytes[..count]);
                Ok(count)
            }
            _ => {
                self.failures += 1;
                Err(WriteFailed)
            }
        }
    }

    fn failures(&self) -> u64 {
        self.failures
    }
}
