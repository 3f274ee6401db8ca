//! Cleaners beside threads are seen by the calls that they make room for.

use crate::compare::{holds_for, same_for};
use crate::played::played;
use nv_work::Gate;
use std::alloc::{AllocError, Global};
use std::thread;

/// How often the mode of the file is set.
const CALLS: u64 = 64;

/// How many of these calls the file's log has room for where nothing cleans it. The log begins with one page of four entries,
/// of which the file's creation fills one, and grows to two, four and eight pages. Then it is full: for eight pages more the
/// device of 16 has too few, since one is the root's.
const ROOM: u64 = 31;

/// How often a thread lets others run before each call past that room.
const TURNS: u64 = 10_000;

/// Lets others run before each call that finds the log full, if nothing cleans it.
struct Yielding;

impl Gate for Yielding {
    fn before(&self, _thread: u64, line: u64) {
        if line >= ROOM {
            for _ in 0..TURNS {
                thread::yield_now();
            }
        }
    }

    fn after(&self, _thread: u64, _line: u64) {}
}

/// A file, and behind `fork` the calls that set its mode.
fn script(alloc: Global) -> Result<String, AllocError> {
    let mut out = String::new(alloc);
    out.push_str("format blocks=16 cpus=2 block=4 page=4 inodes=8 snaps=4 actors=3\n")?;
    out.push_str("do 0 create 0.1 a 420\nfork\n")?;
    for mode in 0..CALLS {
        write!(out, "do 0 mode 1.1 {mode}\n")?;
    }
    Ok(out)
}

/// How many lines of a text are this one.
fn count_of(text: &[u8], wanted: &[u8]) -> u64 {
    text.split(|byte| *byte == b'\n')
        .filter(|line| *line == wanted)
        .count() as u64
}

/// How many calls of a thread are done beside so many cleaners: all that have room, where nothing is cleaned, and else more.
const CROWDS: [(u64, bool); 3] = [(0, false), (1, true), (4, true)];

/// Cleaners beside threads make room for their calls: no clause says when a cleaner runs.
#[test]
fn cleaners_make_room(rt: HostRuntime) -> Result<(), AllocError> {
    let script = script(rt.alloc())?;
    for (cleaners, makes_room) in CROWDS {
        let (outcome, text) = played(&rt, rt.alloc(), script.as_bytes(), 1, cleaners, &Yielding);
        same_for(&rt, &cleaners, outcome, Ok(()));
        let done = count_of(text.as_slice(), b"0: done");
        let refused = count_of(text.as_slice(), b"0: refused E13 NoSpace");
        same_for(&rt, &cleaners, done.saturating_add(refused), CALLS);
        same_for(&rt, &cleaners, done > ROOM, makes_room);
        holds_for(&rt, &done, done >= ROOM);
    }
    Ok(())
}
