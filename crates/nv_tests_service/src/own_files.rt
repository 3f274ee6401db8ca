//! Two sessions in threads, each on a file of its own: each reads its own write back.

use crate::compare::{holds_for, same_for};
use crate::reports::have_same_trees;
use crate::threads::{Acts, serve_in_threads};
use crate::words::call;
use crate::worlds::{prepared, told_at_last};
use Words::{Create, Read, Write};
use nv_core::World;
use nv_scenes::Row;
use nv_scenes_calls::words::{At, Want, Words, is_wanted};
use nv_service::{Blocks, Commits, Service, Session};
use std::alloc::Global;
use std::process::Abort;
use std::sync::Wait;

/// Room for the logs of both files, of which nothing is cleaned away.
const ROOMY: Row = [256, 2, 4, 4, 8, 4, 2];

const ROOT: At = (0, 1);

const MADE: &[Words] = &[Create(ROOT, b"a"), Create(ROOT, b"b")];

/// A file, and the texts of two pages that are written into it in turn.
type Own = (At, [&'static [u8]; 2]);

/// What the first session writes, and the second.
const FIRST: Own = ((1, 1), [b"aaaaaa", b"AAAAAA"]);

const SECOND: Own = ((2, 1), [b"bbbbbb", b"BBBBBB"]);

/// How often each session writes and reads.
const ROUNDS: u64 = 40;

fn text_of(own: &Own, round: u64) -> &'static [u8] {
    let (_, [even, odd]) = own;
    if round % 2 == 0 { even } else { odd }
}

/// A session writes a file that no other session writes, and reads each time what it wrote. Its commits have rising
/// numbers, and the file is at the next version each time.
fn rewrites<C: Commits, B: Blocks, R: Wait + Abort>(
    rt: &R,
    alloc: Global,
    service: &Service<C, B>,
    session: &mut Session<C, B>,
    own: &Own,
) {
    let file = own.0;
    let mut last = 0;
    for round in 0..ROUNDS {
        let text = text_of(own, round);
        let write = call(rt, alloc, &Write(file, 0, text));
        let written = session.call(rt, service, write).expect(rt, "a write");
        holds_for(rt, &round, last < written.at());
        last = written.at();
        holds_for(
            rt,
            &round,
            is_wanted(&Ok(written.answer()), &Want::Count(6)),
        );
        let read = call(rt, alloc, &Read(file, 0, 9));
        let found = session.call(rt, service, read).expect(rt, "a read");
        // the file was made at version 1
        same_for(rt, &round, found.at(), round + 2);
        holds_for(
            rt,
            &round,
            is_wanted(&Ok(found.answer()), &Want::Bytes(text)),
        );
    }
}

#[derive(Drop)]
struct OwnFiles;

impl Acts for OwnFiles {
    fn act<C: Commits, B: Blocks, R: Wait + Abort>(
        &self,
        rt: &R,
        alloc: Global,
        service: &Service<C, B>,
        session: &mut Session<C, B>,
        place: usize,
    ) {
        let own = if place == 0 { &FIRST } else { &SECOND };
        rewrites(rt, alloc, service, session, own);
    }
}

/// The same writes, one after another.
fn write_alone(rt: &impl Abort, alloc: Global, world: &mut World) {
    for round in 0..ROUNDS {
        for own in [FIRST, SECOND] {
            let told = told_at_last(rt, alloc, world, &Write(own.0, 0, text_of(&own, round)));
            holds_for(rt, &round, told.is_ok());
        }
    }
}

/// Two sessions in threads read their own writes back: that calls run beside each other no clause says.
#[test]
fn reads_its_own_write(rt: HostRuntime) {
    let world = prepared(&rt, rt.alloc(), ROOMY, MADE);
    let world = serve_in_threads(&rt, rt.alloc(), world, 2, &OwnFiles);
    let mut twin = prepared(&rt, rt.alloc(), ROOMY, MADE);
    write_alone(&rt, rt.alloc(), &mut twin);
    have_same_trees(&rt, rt.alloc(), &world, &twin);
}
