//! Calls of one session in turn, beside the same calls on a twin world.

use crate::calls::told;
use crate::compare::{holds_for, same_shown};
use crate::reports::report_alike;
use crate::runner::{Work, seated, serve};
use crate::words::call;
use crate::worlds::{prepared, told_alone};
use nv_core::World;
use nv_scenes::Row;
use nv_scenes_calls::words::{Want, Words, is_wanted};
use nv_service::{Blocks, Commits, Service, Session};
use std::alloc::Global;
use std::process::Abort;
use std::sync::Wait;
use std::thread::Threads;

/// A call, and what it is answered.
pub type Line = (Words, Want);

/// Lines of one session, and a world in which the same calls are made.
#[derive(Drop)]
struct InTurn<'a> {
    lines: &'a [Line],
    twin: World,
}

impl Work for InTurn<'_> {
    fn work<C: Commits + Send + Sync, B: Blocks + Send + Sync, R: Threads + Wait + Abort + Sync>(
        &mut self,
        rt: &R,
        alloc: Global,
        service: Service<C, B>,
    ) -> (Service<C, B>, Vec<Session<C, B>>) {
        let mut service = service;
        let mut sessions = seated(rt, alloc, &mut service, 1);
        for session in sessions.iter_mut() {
            make_all(rt, alloc, &service, session, self.lines, &mut self.twin);
        }
        (service, sessions)
    }
}

/// A session makes the calls of lines, each answered as the line wants and as a twin world answers it.
fn make_all<C: Commits, B: Blocks, R: Wait + Abort>(
    rt: &R,
    alloc: Global,
    service: &Service<C, B>,
    session: &mut Session<C, B>,
    lines: &[Line],
    twin: &mut World,
) {
    for i in 0..lines.len() {
        let (words, want) = &lines[i];
        let found = told(rt, service, session, call(rt, alloc, words));
        let other = told_alone(rt, alloc, twin, words);
        same_shown(rt, alloc, &i, &found, &other);
        holds_for(rt, &i, is_wanted(&found, want));
    }
}

/// One session makes the calls of lines, on a world in which others were made before. They are answered as the lines
/// want, and as a twin world answers them; and afterwards both report the same.
pub fn are_as_alone<R: Threads + Wait + Abort + Sync>(
    rt: &R,
    alloc: Global,
    row: Row,
    before: &[Words],
    lines: &[Line],
) {
    let mut work = InTurn {
        lines,
        twin: prepared(rt, alloc, row, before),
    };
    let world = serve(rt, alloc, prepared(rt, alloc, row, before), &mut work);
    report_alike(rt, alloc, &world, &work.twin);
}
