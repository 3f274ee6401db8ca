//! What a world reports while a row is played.

use crate::compare::same_text;
use crate::playing::Playing;
use std::alloc::Global;
use std::process::Abort;
use std::test::Fail;

/// What no call on its way is seen in: trees, logs, and whether each part is that of one scan.
const SEEN: &[&[u8]] = &[
    b"tree", b"stree 1", b"stree 2", b"stree 3", b"stree 4", b"stree 5", b"stree 6", b"log 0",
    b"log 1", b"log 2", b"log 3", b"log 4", b"log 5", b"log 6", b"log 7", b"audit",
];

const SNAPS: &[&[u8]] = &[b"snaps"];

const SPACE: &[&[u8]] = &[b"space"];

const LISTS: &[&[u8]] = &[b"lists"];

/// What a world reports. Nothing where there is none.
#[derive(Debug, Drop)]
pub struct Reports {
    seen: Vec<u8>,
    /// A show on its way has a pin.
    snaps: Vec<u8>,
    /// A call on its way has blocks in its hand.
    space: Vec<u8>,
    lists: Vec<u8>,
}

impl Reports {
    pub fn of(alloc: Global, playing: &mut Playing) -> Result<Reports, Fail> {
        Ok(Reports {
            seen: playing.answers(alloc, SEEN)?,
            snaps: playing.answers(alloc, SNAPS)?,
            space: playing.answers(alloc, SPACE)?,
            lists: playing.answers(alloc, LISTS)?,
        })
    }

    /// Whether an audit finds nothing.
    pub fn are_sound(&self) -> bool {
        self.seen.is_empty() || self.seen.ends_with(b"\naudit ok\n")
    }

    /// Whether no call has anything: no hand has a block, and no snapshot a pin.
    pub fn are_at_rest(&self) -> bool {
        let has_pin = self
            .snaps
            .split(|byte| *byte == b'\n')
            .any(|line| is_pinned(line));
        !has_pin && (self.space.is_empty() || self.space.ends_with(b" hand 0\n"))
    }

    /// Whether all reports are the same.
    pub fn is_same(&self, other: &Reports) -> bool {
        self.seen.as_slice() == other.seen.as_slice()
            && self.snaps.as_slice() == other.snaps.as_slice()
            && self.space.as_slice() == other.space.as_slice()
            && self.lists.as_slice() == other.lists.as_slice()
    }

    /// Compares all reports.
    pub fn are(&self, rt: &impl Abort, row: Option<&str>, want: &Reports) {
        same_text(rt, &row, self.seen.as_slice(), want.seen.as_slice());
        same_text(rt, &row, self.snaps.as_slice(), want.snaps.as_slice());
        same_text(rt, &row, self.space.as_slice(), want.space.as_slice());
        same_text(rt, &row, self.lists.as_slice(), want.lists.as_slice());
    }

    /// Compares what no call on its way is seen in.
    pub fn are_seen_as(
        &self,
        rt: &impl Abort,
        alloc: Global,
        row: Option<&str>,
        want: &Reports,
    ) -> Result<(), Fail> {
        same_text(rt, &row, self.seen.as_slice(), want.seen.as_slice());
        let found = without_pins(alloc, self.snaps.as_slice())?;
        let want = without_pins(alloc, want.snaps.as_slice())?;
        same_text(rt, &row, found.as_slice(), want.as_slice());
        Ok(())
    }
}

/// Whether a line of `snaps` tells of a pin.
fn is_pinned(line: &[u8]) -> bool {
    line.starts_with(b"snap ") && !line.ends_with(b" pins 0")
}

/// The lines of `snaps`, those of snapshots without their last word, which is the number of pins.
fn without_pins(alloc: Global, snaps: &[u8]) -> Result<Vec<u8>, Fail> {
    let mut all = Vec::new(alloc);
    for line in snaps.split(|byte| *byte == b'\n') {
        let end = if line.starts_with(b"snap ") {
            line.iter().rposition(|byte| *byte == b' ')
        } else {
            None
        };
        let front = line.split_at(end.unwrap_or(line.len()).min(line.len())).0;
        all.extend_from_slice(front)?;
        all.push(b'\n')?;
    }
    Ok(all)
}
