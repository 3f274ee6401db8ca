//! A write whose text does not come yet keeps no call waiting that leaves its file alone.

use crate::calls::told;
use crate::compare::{holds_for, same};
use crate::reports::have_same_trees;
use crate::threads::{Acts, serve_in_threads};
use crate::turns::Line;
use crate::words::call;
use crate::worlds::{SMALL, prepared};
use Words::{Create, List, Mkdir, Read, Write};
use nv_base::Fault;
use nv_calls::Answer;
use nv_scenes::handle;
use nv_scenes_calls::sources::{WaitingText, came};
use nv_scenes_calls::words::{At, Want, Words, is_wanted};
use nv_service::{Blocks, Commits, Service, Session};
use std::alloc::Global;
use std::process::Abort;
use std::sync::Wait;
use std::sync::atomic::{AtomicBool, Ordering};

const ROOT: At = (0, 1);

const ONE: At = (1, 1);

const TWO: At = (2, 1);

const MADE: &[Words] = &[Create(ROOT, b"a"), Create(ROOT, b"b")];

/// The calls of the other session, on the other file and on the root.
const BESIDE: &[Line] = &[
    (Write(TWO, 0, b"bbbb"), Want::Count(4)),
    (Read(TWO, 0, 9), Want::Bytes(b"bbbb")),
    (Mkdir(ROOT, b"d"), Want::Made((3, 1))),
    (List(ROOT), Want::Names(&[(b"a", 1), (b"b", 2), (b"d", 3)])),
];

/// That the text was asked for, and that the other calls were answered.
#[derive(Drop)]
struct Beside {
    asked: AtomicBool,
    answered: AtomicBool,
}

impl Beside {
    /// Writes a text that comes once the other calls were answered.
    fn writes_late<C: Commits, B: Blocks, R: Wait + Abort>(
        &self,
        rt: &R,
        service: &Service<C, B>,
        session: &mut Session<C, B>,
    ) {
        let mut source = WaitingText::new(b"aaaa", &self.asked, &self.answered);
        let seen = session.write(rt, service, handle(1), 0, 4, &mut source);
        let told: Result<Answer, Fault> = match seen {
            Ok(seen) => Ok(seen.answer()),
            Err(fault) => Err(fault),
        };
        holds_for(rt, &"late", is_wanted(&told, &Want::Count(4)));
    }

    /// Makes the other calls, once the text was asked for.
    fn goes_on<C: Commits, B: Blocks, R: Wait + Abort>(
        &self,
        rt: &R,
        alloc: Global,
        service: &Service<C, B>,
        session: &mut Session<C, B>,
    ) {
        same(rt, came(&self.asked), true);
        for (words, want) in BESIDE {
            let told = told(rt, service, session, call(rt, alloc, words));
            holds_for(rt, &want, is_wanted(&told, want));
        }
        self.answered.store(true, Ordering::SeqCst);
    }
}

impl Acts for Beside {
    fn act<C: Commits, B: Blocks, R: Wait + Abort>(
        &self,
        rt: &R,
        alloc: Global,
        service: &Service<C, B>,
        session: &mut Session<C, B>,
        place: usize,
    ) {
        if place == 0 {
            self.writes_late(rt, service, session);
        } else {
            self.goes_on(rt, alloc, service, session);
        }
    }
}

/// The same calls, one after another.
const ALONE: &[Words] = &[
    Create(ROOT, b"a"),
    Create(ROOT, b"b"),
    Write(TWO, 0, b"bbbb"),
    Mkdir(ROOT, b"d"),
    Write(ONE, 0, b"aaaa"),
];

/// A write whose text does not come yet keeps no other file waiting: no clause says that two calls run at once.
#[test]
fn two_calls_at_once(rt: HostRuntime) {
    let work = Beside {
        asked: AtomicBool::new(false),
        answered: AtomicBool::new(false),
    };
    let world = prepared(&rt, rt.alloc(), SMALL, MADE);
    let world = serve_in_threads(&rt, rt.alloc(), world, 2, &work);
    let twin = prepared(&rt, rt.alloc(), SMALL, ALONE);
    have_same_trees(&rt, rt.alloc(), &world, &twin);
}
