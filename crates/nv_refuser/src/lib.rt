//! Growths that are refused in turn, for tests. A test has one refused, runs, and asks whether that growth was met: once for each
//! number from 1 on, until a run meets none.
//!
//! Who refuses is `tools/refuser.c`, which is loaded before the library of C. A test speaks to it by requests for more bytes than
//! there can be. Without it they are refused as any such request is, and no other is: then a test runs once.
#![tactic(auto)]

use std::alloc::Global;
use std::io::Print;

/// More bytes than any memory has. That many and some more ask for the growth of that number to be refused.
const REFUSE: usize = 1 << 62;

/// The same, and for all growths behind it.
const REFUSE_REST: usize = 5 << 60;

/// Asks whether it was. Without a refuser the answer is no.
const WAS_REFUSED: usize = 3 << 61;

/// The greatest number of a growth.
const MOST: u64 = 1 << 32;

fn is_granted(alloc: Global, bytes: usize) -> bool {
    let room: Result<Vec<u8>, _> = Vec::with_capacity(alloc, bytes);
    room.is_ok()
}

/// Has the growth of this number refused, counted from 1 and from now on.
pub fn refuse(alloc: Global, growth: u64) {
    let number = growth.min(MOST) as usize;
    let _granted = is_granted(alloc, REFUSE + number);
}

/// Has that growth refused, and each one behind it.
pub fn refuse_rest(alloc: Global, growth: u64) {
    let number = growth.min(MOST) as usize;
    let _granted = is_granted(alloc, REFUSE_REST + number);
}

/// How many runs there were, and in how many a growth was refused.
#[derive(Clone, Copy, Debug, Drop)]
pub struct Tally {
    pub runs: u64,
    pub refused: u64,
}

impl Tally {
    /// Of no run.
    pub fn new() -> Tally {
        Tally {
            runs: 0,
            refused: 0,
        }
    }

    /// Counts a run that is over, and tells whether its growth was refused. None is refused from now on.
    pub fn ended(&mut self, alloc: Global) -> bool {
        let is_refused = is_granted(alloc, WAS_REFUSED);
        self.runs = self.runs.saturating_add(1);
        if is_refused {
            self.refused = self.refused.saturating_add(1);
        }
        is_refused
    }

    /// Prints both numbers.
    pub fn tell<R: Print>(&self, rt: &R, name: &str) {
        let _ = println!(rt;
            "swept {name}: {} runs, {} refused",
            self.runs, self.refused
        );
    }
}
