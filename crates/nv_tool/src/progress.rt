//! A line that tells how far the script of a file has come, for someone who waits at a terminal.

use nv_core::World;
use std::cell::Cell;
use std::fs;
use std::io::Read;
use std::rt::Files;
use std::time::{Clock, Duration, Instant};

/// Nothing is told of a script that takes less.
const FIRST_MILLIS: u64 = 1000;

/// The least time between two tellings.
const BETWEEN_MILLIS: u64 = 250;

/// Takes away what was told.
const AWAY: &str = "\r\x1b[K";

/// The bytes of a file that are read at once where its lines are counted.
const PIECE_BYTES: usize = 4096;

/// How far a script has come, and when that is told next, if it is told at all.
/// Only tested: what is told, from the first second on and at most four times a second.
#[derive(Drop)]
pub(crate) struct Progress<'a, T> {
    rt: &'a T,
    lines: Option<u64>,
    begun: Option<Instant>,
    next: Cell<Option<Instant>>,
    shown: Cell<bool>,
    beside_answers: bool,
}

impl<'a, T: Clock + Eprint> Progress<'a, T> {
    /// Nothing is told.
    pub(crate) fn silent(rt: &'a T) -> Progress<'a, T> {
        Progress {
            rt,
            lines: None,
            begun: None,
            next: Cell::new(None),
            shown: Cell::new(false),
            beside_answers: false,
        }
    }

    /// A script of so many lines begins, if their number is known. Nothing is told where there is no clock. `beside_answers` says
    /// that answers go to the same terminal.
    pub(crate) fn begin(rt: &'a T, lines: Option<u64>, beside_answers: bool) -> Progress<'a, T> {
        let Ok(begun) = Instant::now(rt) else {
            return Progress::silent(rt);
        };
        Progress {
            rt,
            lines,
            begun: Some(begun),
            next: Cell::new(begun.checked_add(Duration::from_millis(FIRST_MILLIS))),
            shown: Cell::new(false),
            beside_answers,
        }
    }

    /// Tells how far the script has come before the line of this number, where it is time to.
    pub(crate) fn before_line(&self, number: u64, world: Option<&World>) {
        let (Some(begun), Some(next)) = (self.begun, self.next.get()) else {
            return;
        };
        let Ok(now) = Instant::now(self.rt) else {
            return;
        };
        if now < next {
            return;
        }
        self.tell(
            number.saturating_sub(1),
            commits_of(world),
            now.duration_since(begun),
        );
        if let Ok(told) = Instant::now(self.rt) {
            self.next
                .set(told.checked_add(Duration::from_millis(BETWEEN_MILLIS)));
        }
    }

    /// Tells how many lines and commits were made in a time.
    fn tell(&self, done: u64, commits: u64, time: Duration) {
        let each = per_second(done, time);
        let _told = match self.lines {
            Some(lines) => eprint!(self.rt;
                "{AWAY}{done} of {lines} lines, {each} a second, {commits} commits"
            ),
            None => eprint!(self.rt; "{AWAY}{done} lines, {each} a second, {commits} commits"),
        };
        self.shown.set(true);
    }

    /// Makes room for answers that go to the same terminal.
    pub(crate) fn before_answers(&self) {
        if self.beside_answers {
            self.take_away();
        }
    }

    /// Takes away what was told, if that is shown.
    pub(crate) fn take_away(&self) {
        if self.shown.get() {
            let _gone = self.rt.eprint(AWAY);
            self.shown.set(false);
        }
    }
}

/// How many lines a second so many are in a time.
fn per_second(lines: u64, time: Duration) -> u64 {
    let seconds = time.as_secs().saturating_mul(1000);
    let millis = seconds.saturating_add(u64::from(time.subsec_millis()));
    lines.saturating_mul(1000) / millis.max(1)
}

/// How many commits were made. It goes over all records, and tells of none where it gets no memory.
fn commits_of(world: Option<&World>) -> u64 {
    let Some(world) = world else {
        return 0;
    };
    match world.snaps() {
        Ok(snaps) => snaps.commit.number(),
        Err(_) => 0,
    }
}

/// How many lines a file has. It is not read where it can't be read again, as a pipe.
pub(crate) fn lines_of<R: Files>(files: &R, path: &str) -> Option<u64> {
    if !fs::metadata(files, path).ok()?.is_file() {
        return None;
    }
    let mut file = fs::open(files, path).ok()?;
    let mut piece = [0u8; PIECE_BYTES];
    let mut lines = 0u64;
    for _ in 0..u64::MAX {
        let count = file.read(&mut piece).ok()?;
        if count == 0 {
            break;
        }
        lines = lines.saturating_add(ends_in(&piece[..count]));
    }
    Some(lines)
}

/// How many lines end in some bytes.
fn ends_in(bytes: &[u8]) -> u64 {
    bytes.iter().filter(|byte| **byte == b'\n').count() as u64
}
