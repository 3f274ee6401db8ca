//! Each call made by a session in which each growth is refused in turn, from the opening of the service to its close. Where that is
//! a growth of the call's own, it is refused, no lock is held, and the same call has its answer when it is made again, by the same
//! session or by another one. Afterwards the world reports what a twin does in which the call was made once. A call takes memory
//! where one of its steps in a world does. `tools/refused-growths` loads what refuses. Without it each call is made once.

use crate::calls::told;
use crate::compare::holds_for;
use crate::reports::{have_same_trees, report_alike};
use crate::runner::{Work, seated, serve};
use crate::words::call;
use crate::worlds::{prepared, told_at_last};
use nv_base::Ino;
use nv_core::World;
use nv_refuser::{Tally, refuse};
use nv_scenes::wants_memory;
use nv_scenes_calls::growths::{NAMES, ROOMY, Row};
use nv_scenes_calls::words::{Want, Words, is_wanted};
use nv_service::{Blocks, Commits, Service, Session};
use std::alloc::Global;
use std::io::Print;
use std::process::Abort;
use std::sync::Wait;
use std::thread::Threads;

/// Which session makes a call again that was refused.
#[derive(Clone, Copy, Debug, PartialEq, Eq)]
enum Again {
    Same,
    Other,
}

/// A call, its answer, who makes it again, how often it was refused memory, and whether it is made.
#[derive(Drop)]
struct Refused {
    name: &'static str,
    words: Words,
    want: Want,
    again: Again,
    refusals: u64,
    is_made: bool,
}

/// Wants no lock of a service to be held.
fn none_is_held<C: Commits, B: Blocks>(rt: &impl Abort, service: &Service<C, B>) {
    for ino in 0..ROOMY[4] {
        let lock = service.inode_lock(Ino::new(ino)).expect(rt, "a cell");
        holds_for(rt, &("cell", ino), lock.try_write().is_some());
    }
    for cpu in 0..ROOMY[1] {
        let lock = service.list_lock(cpu).expect(rt, "a list");
        holds_for(rt, &("list", cpu), lock.try_lock().is_some());
    }
    holds_for(rt, &"book", service.book_lock().try_lock().is_some());
}

impl Refused {
    /// Makes the call, if it isn't made. Where it is refused memory, it is left to the next session, or made once more.
    fn make<C: Commits, B: Blocks, R: Wait + Abort>(
        &mut self,
        rt: &R,
        alloc: Global,
        service: &Service<C, B>,
        session: &mut Session<C, B>,
    ) {
        if self.is_made {
            return;
        }
        let found = told(rt, service, session, call(rt, alloc, &self.words));
        self.is_made = is_wanted(&found, &self.want);
        if self.is_made {
            return;
        }
        let is_refused = matches!(found, Err(fault) if wants_memory(fault));
        holds_for(rt, &self.name, is_refused);
        self.refusals = self.refusals.saturating_add(1);
        none_is_held(rt, service);
        if self.again == Again::Same {
            let again = told(rt, service, session, call(rt, alloc, &self.words));
            self.is_made = is_wanted(&again, &self.want);
            holds_for(rt, &self.name, self.is_made);
        }
    }
}

impl Work for Refused {
    fn work<C: Commits + Send + Sync, B: Blocks + Send + Sync, R: Threads + Wait + Abort + Sync>(
        &mut self,
        rt: &R,
        alloc: Global,
        service: Service<C, B>,
    ) -> (Service<C, B>, Vec<Session<C, B>>) {
        let mut service = service;
        let mut sessions = seated(rt, alloc, &mut service, 2);
        for session in sessions.iter_mut() {
            self.make(rt, alloc, &service, session);
        }
        holds_for(rt, &self.name, self.is_made);
        (service, sessions)
    }
}

/// Makes the call of a row by a session, and tells how often it was refused memory. Afterwards the world reports what
/// one does in which the call was made once. Another session takes blocks of other lists.
fn makes<R: Threads + Wait + Abort + Sync>(rt: &R, alloc: Global, row: &Row, again: Again) -> u64 {
    let (name, before, words, want, growths) = row;
    let mut work = Refused {
        name: *name,
        words: *words,
        want: *want,
        again,
        refusals: 0,
        is_made: false,
    };
    let world = serve(rt, alloc, prepared(rt, alloc, ROOMY, before), &mut work);
    let mut twin = prepared(rt, alloc, ROOMY, before);
    let told = told_at_last(rt, alloc, &mut twin, words);
    holds_for(rt, name, is_wanted(&told, want));
    are_alike(rt, alloc, &world, &twin, again);
    holds_for(rt, name, !growths.is_empty() || work.refusals == 0);
    work.refusals
}

fn are_alike(rt: &impl Abort, alloc: Global, world: &World, twin: &World, again: Again) {
    match again {
        Again::Same => report_alike(rt, alloc, world, twin),
        Again::Other => have_same_trees(rt, alloc, world, twin),
    }
}

/// Makes the call of a row with each growth refused in turn, and tells how often the call was refused.
fn sweeps<R: Threads + Wait + Abort + Sync>(
    rt: &R,
    alloc: Global,
    row: &Row,
    again: Again,
    tally: &mut Tally,
) -> u64 {
    let mut refusals = 0u64;
    for growth in 1..u64::MAX {
        refuse(alloc, growth);
        let refused = makes(rt, alloc, row, again);
        refusals = refusals.saturating_add(refused);
        if !tally.ended(alloc) {
            break;
        }
    }
    refusals
}

/// Sweeps the calls of rows, each of which is refused where one of its steps takes memory and growths are refused at all.
fn make_all<R: Threads + Wait + Abort + Print + Sync>(
    rt: &R,
    alloc: Global,
    name: &str,
    rows: &[Row],
) {
    let mut tally = Tally::new();
    for row in rows {
        for again in [Again::Same, Again::Other] {
            let runs = tally.runs;
            let refusals = sweeps(rt, alloc, row, again, &mut tally);
            let is_swept = tally.runs.saturating_sub(runs) > 1;
            holds_for(rt, &row.0, !is_swept || row.4.is_empty() || refusals > 0);
        }
    }
    tally.tell(rt, name);
}

/// Each growth of a session's calls on names is refused in turn: it holds no lock, and the call is made again.
#[test]
fn names_with_one_refused_growth(rt: HostRuntime) {
    make_all(&rt, rt.alloc(), "sessions, names", NAMES);
}
