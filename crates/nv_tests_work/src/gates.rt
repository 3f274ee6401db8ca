//! A gate that holds one thread until another was answered: both play.

use crate::compare::{holds_for, same_for};
use crate::played::played;
use crate::writers::{IN_THREADS, TWO_WRITERS};
use nv_scenes_calls::sources::came;
use nv_work::Gate;
use std::sync::atomic::{AtomicBool, Ordering};

/// Holds a thread before its first line until the first line of another was answered.
#[derive(Drop)]
struct Holding {
    thread: u64,
    answered: AtomicBool,
    gave_up: AtomicBool,
}

impl Gate for Holding {
    fn before(&self, thread: u64, line: u64) {
        if thread == self.thread && line == 0 && !came(&self.answered) {
            self.gave_up.store(true, Ordering::SeqCst);
        }
    }

    fn after(&self, thread: u64, line: u64) {
        if thread != self.thread && line == 0 {
            self.answered.store(true, Ordering::SeqCst);
        }
    }
}

/// Either thread is answered while the other is held: no clause says that threads make their calls beside each other.
#[test]
fn both_threads_play(rt: HostRuntime) {
    for thread in 0..2 {
        let gate = Holding {
            thread,
            answered: AtomicBool::new(false),
            gave_up: AtomicBool::new(false),
        };
        let (outcome, text) = played(&rt, rt.alloc(), TWO_WRITERS, 2, 1, &gate);
        same_for(&rt, &thread, outcome, Ok(()));
        holds_for(&rt, &thread, text.as_slice() == IN_THREADS);
        holds_for(&rt, &thread, !gate.gave_up.load(Ordering::SeqCst));
    }
}
