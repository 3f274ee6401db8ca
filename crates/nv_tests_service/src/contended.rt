//! A call that is overtaken in each of its rounds: another session binds one of its names anew, between the look and the
//! check.
//!
//! Nothing is left to chance. A session locks the inodes of a call by rising number, so it stands where one is held, and
//! that it holds a lower one tells that its looks are behind it. So a third session leads both by holding inodes.

use crate::calls::told;
use crate::compare::{holds_for, same};
use crate::reports::have_same_trees;
use crate::threads::{Acts, serve_in_threads};
use crate::words::call;
use crate::worlds::{prepared, told_alone};
use Words::{Create, Mkdir, Rename};
use nv_base::{Fault, Ino};
use nv_scenes::Row;
use nv_scenes_calls::sources::{TURNS, came};
use nv_scenes_calls::words::{At, Want, Words, is_wanted};
use nv_service::{Blocks, Commits, LockedCell, Service, Session};
use std::alloc::Global;
use std::process::Abort;
use std::sync::atomic::{AtomicBool, AtomicU64, Ordering};
use std::sync::{RwLockWriteGuard, Wait};
use std::thread;

/// Room for ten files and three directories.
const ROOMY: Row = [64, 2, 4, 16, 16, 4, 3];

const ROOT: At = (0, 1);

const SPARE: At = (11, 1);

const LEFT: At = (12, 1);

const RIGHT: At = (13, 1);

/// Ten files, whose numbers are below those of the directories. Two go where the call names them, and eight are spare.
const MADE: &[Words] = &[
    Create(ROOT, b"1"),
    Create(ROOT, b"2"),
    Create(ROOT, b"3"),
    Create(ROOT, b"4"),
    Create(ROOT, b"5"),
    Create(ROOT, b"6"),
    Create(ROOT, b"7"),
    Create(ROOT, b"8"),
    Create(ROOT, b"new"),
    Create(ROOT, b"old"),
    Mkdir(ROOT, b"spare"),
    Mkdir(ROOT, b"left"),
    Mkdir(ROOT, b"right"),
    Rename(ROOT, b"1", SPARE, b"1"),
    Rename(ROOT, b"2", SPARE, b"2"),
    Rename(ROOT, b"3", SPARE, b"3"),
    Rename(ROOT, b"4", SPARE, b"4"),
    Rename(ROOT, b"5", SPARE, b"5"),
    Rename(ROOT, b"6", SPARE, b"6"),
    Rename(ROOT, b"7", SPARE, b"7"),
    Rename(ROOT, b"8", SPARE, b"8"),
    Rename(ROOT, b"new", RIGHT, b"new"),
    Rename(ROOT, b"old", LEFT, b"old"),
];

/// The call that is overtaken.
const CALL: Words = Rename(LEFT, b"old", RIGHT, b"new");

/// The file that the call finds first.
const FIRST: u64 = 9;

/// A move of a spare file over one of the call's names: the file that moves, the one that the other name leads to, and
/// the one that goes, by rising number; and the directory of the other name.
type Move = (Words, u64, u64, u64, u64);

/// A move for each round. The file that moved is the lower one of the next round.
const MOVES: [Move; 8] = [
    (Rename(SPARE, b"8", LEFT, b"old"), 8, 9, 10, 13),
    (Rename(SPARE, b"7", RIGHT, b"new"), 7, 8, 9, 12),
    (Rename(SPARE, b"6", LEFT, b"old"), 6, 7, 8, 13),
    (Rename(SPARE, b"5", RIGHT, b"new"), 5, 6, 7, 12),
    (Rename(SPARE, b"4", LEFT, b"old"), 4, 5, 6, 13),
    (Rename(SPARE, b"3", RIGHT, b"new"), 3, 4, 5, 12),
    (Rename(SPARE, b"2", LEFT, b"old"), 2, 3, 4, 13),
    (Rename(SPARE, b"1", RIGHT, b"new"), 1, 2, 3, 12),
];

/// Locks the cell of an inode.
fn held<'a, C: Commits, B: Blocks, R: Wait + Abort>(
    rt: &R,
    service: &'a Service<C, B>,
    ino: u64,
) -> RwLockWriteGuard<'a, LockedCell<C, B>> {
    service
        .inode_lock(Ino::new(ino))
        .expect(rt, "a slot")
        .write(rt)
}

/// Asserts that another comes to hold a cell before the turns are used up.
fn is_taken<C: Commits, B: Blocks>(rt: &impl Abort, service: &Service<C, B>, ino: u64) {
    let lock = service.inode_lock(Ino::new(ino)).expect(rt, "a slot");
    for _turn in 0..TURNS {
        if lock.try_write().is_none() {
            return;
        }
        thread::yield_now();
    }
    panic!(rt; "nobody takes {ino}");
}

/// How many rounds of the call are overtaken, what it is answered, that it may begin, and how many moves were asked for.
#[derive(Drop)]
struct Overtaking {
    rounds: usize,
    want: Want,
    begun: AtomicBool,
    asked: AtomicU64,
}

impl Overtaking {
    /// Makes the call, and once more where it is contended.
    fn calls<C: Commits, B: Blocks, R: Wait + Abort>(
        &self,
        rt: &R,
        alloc: Global,
        service: &Service<C, B>,
        session: &mut Session<C, B>,
    ) {
        holds_for(rt, &"begun", came(&self.begun));
        let first = told(rt, service, session, call(rt, alloc, &CALL));
        holds_for(rt, &self.want, is_wanted(&first, &self.want));
        if first.is_err() {
            let again = told(rt, service, session, call(rt, alloc, &CALL));
            same(rt, again.err(), None);
        }
    }

    /// Asserts that the move of a round is asked for before the turns are used up.
    fn is_asked(&self, rt: &impl Abort, round: u64) {
        for _turn in 0..TURNS {
            if self.asked.load(Ordering::SeqCst) > round {
                return;
            }
            thread::yield_now();
        }
        panic!(rt; "round {round} does not come");
    }

    /// Makes each move once it is asked for.
    fn moves<C: Commits, B: Blocks, R: Wait + Abort>(
        &self,
        rt: &R,
        alloc: Global,
        service: &Service<C, B>,
        session: &mut Session<C, B>,
    ) {
        for (round, (words, ..)) in MOVES.iter().take(self.rounds).enumerate() {
            self.is_asked(rt, round as u64);
            let told = told(rt, service, session, call(rt, alloc, words));
            same(rt, told.err(), None);
        }
    }

    /// Leads the other two, round by round.
    fn leads<C: Commits, B: Blocks, R: Wait + Abort>(&self, rt: &R, service: &Service<C, B>) {
        let mut lower = held(rt, service, FIRST);
        self.begun.store(true, Ordering::SeqCst);
        for it in MOVES.iter().take(self.rounds) {
            lower = self.overtakes(rt, service, it, lower);
        }
        drop(lower);
    }

    /// Lets the move of a round be made between the look and the check of the call, which can't take the lower one of its
    /// files before. Gives back that of the next round.
    fn overtakes<'a, C: Commits, B: Blocks, R: Wait + Abort>(
        &self,
        rt: &R,
        service: &'a Service<C, B>,
        (_, new, low, high, other): &Move,
        lower: RwLockWriteGuard<'a, LockedCell<C, B>>,
    ) -> RwLockWriteGuard<'a, LockedCell<C, B>> {
        // The round before is over.
        let higher = held(rt, service, *high);
        self.asked.fetch_add(1, Ordering::SeqCst);
        // The move has looked, and waits for the higher one. Then it waits for its own directory.
        is_taken(rt, service, *new);
        let spare = held(rt, service, SPARE.0);
        drop(higher);
        is_taken(rt, service, *high);
        // The call has looked, and waits for the higher one. Then it waits for the other directory.
        drop(lower);
        is_taken(rt, service, *low);
        let gate = held(rt, service, *other);
        // The move is made.
        drop(spare);
        let next = held(rt, service, *new);
        drop(gate);
        next
    }
}

impl Acts for Overtaking {
    fn act<C: Commits, B: Blocks, R: Wait + Abort>(
        &self,
        rt: &R,
        alloc: Global,
        service: &Service<C, B>,
        session: &mut Session<C, B>,
        place: usize,
    ) {
        match place {
            0 => self.calls(rt, alloc, service, session),
            1 => self.moves(rt, alloc, service, session),
            _ => self.leads(rt, service),
        }
    }
}

/// How many rounds are overtaken, and what the call is answered.
const ROUNDS: [(usize, Want); 2] = [(7, Want::Nothing), (8, Want::Refused(Fault::Contended))];

/// A call that is overtaken eight times is contended, and one seven times is not: no clause says so of a session.
#[test]
fn eight_overtaken_rounds(rt: HostRuntime) {
    for (rounds, want) in ROUNDS {
        let acts = Overtaking {
            rounds,
            want,
            begun: AtomicBool::new(false),
            asked: AtomicU64::new(0),
        };
        let world = prepared(&rt, rt.alloc(), ROOMY, MADE);
        let world = serve_in_threads(&rt, rt.alloc(), world, 3, &acts);
        let mut twin = prepared(&rt, rt.alloc(), ROOMY, MADE);
        for (words, ..) in MOVES.iter().take(rounds) {
            same(
                &rt,
                told_alone(&rt, rt.alloc(), &mut twin, words).err(),
                None,
            );
        }
        same(
            &rt,
            told_alone(&rt, rt.alloc(), &mut twin, &CALL).err(),
            None,
        );
        have_same_trees(&rt, rt.alloc(), &world, &twin);
    }
}
