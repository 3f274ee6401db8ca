//! A text that fails at one of its parts: the write is refused, and nothing has changed.

use crate::calls::told;
use crate::compare::{holds_for, same_for};
use crate::reports::report_alike;
use crate::runner::{Work, seated, serve};
use crate::words::call;
use crate::worlds::{SMALL, prepared, told_at_last};
use Words::{Create, Mode, Read, Write};
use nv_base::Fault;
use nv_refuser::Tally;
use nv_scenes::handle;
use nv_scenes_calls::sources::CountedText;
use nv_scenes_calls::words::{At, Want, Words, is_wanted};
use nv_service::{Blocks, Commits, Service, Session};
use std::alloc::Global;
use std::process::Abort;
use std::sync::Wait;
use std::thread::Threads;

const ROOT: At = (0, 1);

const ONE: At = (1, 1);

/// A write whose text fails: the calls before it, its offset and its text, what the file has before and after it, and how often
/// the text is asked for its parts at least, once for each page.
#[derive(Clone, Copy, Drop)]
struct Row {
    before: &'static [Words],
    offset: u64,
    text: &'static [u8],
    old: &'static [u8],
    new: &'static [u8],
    least: u64,
}

const ROWS: &[Row] = &[
    // over all pages, of the first and the last of which bytes stay
    Row {
        before: &[Create(ROOT, b"a"), Write(ONE, 0, b"abcdefghijkl")],
        offset: 1,
        text: b"ABCDEFGHIJ",
        old: b"abcdefghijkl",
        new: b"aABCDEFGHIJl",
        least: 3,
    },
    // behind a hole
    Row {
        before: &[Create(ROOT, b"a")],
        offset: 6,
        text: b"ABCDEF",
        old: b"",
        new: b"\0\0\0\0\0\0ABCDEF",
        least: 2,
    },
    // with a log page
    Row {
        before: &[
            Create(ROOT, b"a"),
            Write(ONE, 0, b"abcd"),
            Mode(ONE, 1),
            Mode(ONE, 2),
        ],
        offset: 0,
        text: b"ABCD",
        old: b"abcd",
        new: b"ABCD",
        least: 1,
    },
];

/// A write whose text fails when it was asked so often, and whether it was refused.
#[derive(Drop)]
struct Failing {
    row: Row,
    calls: u64,
    refused: bool,
}

impl Failing {
    /// Whether the write is refused. Else it is whole.
    fn is_refused<C: Commits, B: Blocks, R: Wait + Abort>(
        &self,
        rt: &R,
        service: &Service<C, B>,
        session: &mut Session<C, B>,
    ) -> bool {
        let Row { offset, text, .. } = self.row;
        let mut source = CountedText::new(text, Some(self.calls));
        let count = text.len() as u64;
        match session.write(rt, service, handle(1), offset, count, &mut source) {
            Ok(seen) => {
                let is_whole = is_wanted(&Ok(seen.answer()), &Want::Count(count));
                holds_for(rt, &self.calls, is_whole);
                false
            }
            Err(fault) => {
                same_for(rt, &self.calls, fault, Fault::Read);
                true
            }
        }
    }
}

impl Work for Failing {
    fn work<C: Commits + Send + Sync, B: Blocks + Send + Sync, R: Threads + Wait + Abort + Sync>(
        &mut self,
        rt: &R,
        alloc: Global,
        service: Service<C, B>,
    ) -> (Service<C, B>, Vec<Session<C, B>>) {
        let mut service = service;
        let mut sessions = seated(rt, alloc, &mut service, 1);
        for session in sessions.iter_mut() {
            self.refused = self.is_refused(rt, &service, session);
            let want = if self.refused {
                self.row.old
            } else {
                self.row.new
            };
            let found = told(rt, &service, session, call(rt, alloc, &Read(ONE, 0, 99)));
            holds_for(rt, &self.calls, is_wanted(&found, &Want::Bytes(want)));
        }
        (service, sessions)
    }
}

/// The text of a row fails when it was asked once, twice and so on, until it is asked no more and the write is made.
fn fails_at_each_call<R: Threads + Wait + Abort + Sync>(
    rt: &R,
    alloc: Global,
    row: Row,
    tally: &mut Tally,
) {
    let before = prepared(rt, alloc, SMALL, row.before);
    let mut after = prepared(rt, alloc, SMALL, row.before);
    let _told = told_at_last(rt, alloc, &mut after, &Write(ONE, row.offset, row.text));
    let mut world = prepared(rt, alloc, SMALL, row.before);
    for calls in 0..u64::MAX {
        let mut work = Failing {
            row,
            calls,
            refused: false,
        };
        world = serve(rt, alloc, world, &mut work);
        tally.runs = tally.runs.saturating_add(1);
        if !work.refused {
            report_alike(rt, alloc, &world, &after);
            holds_for(rt, &calls, row.least <= calls);
            return;
        }
        tally.refused = tally.refused.saturating_add(1);
        report_alike(rt, alloc, &world, &before);
    }
}

/// A text that fails at its k-th part, for each k, refuses the write and changes no file: no clause says so.
#[test]
fn a_failing_text_changes_nothing(rt: HostRuntime) {
    let mut tally = Tally::new();
    for row in ROWS {
        fails_at_each_call(&rt, rt.alloc(), *row, &mut tally);
    }
    tally.tell(&rt, "texts of sessions that fail");
}
