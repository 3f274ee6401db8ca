//! Where the parts of an entry begin and end.

ghost use Rattle.std.specs.Prelude.{◌≡◌, ◌+◌, ◌-◌, ◌*◌, ◌<◌, ◌≤◌, ◌^◌, ◌++◌, ◌∷◌, [], true, IsOk, OnOk, length, vec_capacity, vec_len};
ghost use Rattle.nv_cell.specs.PartEnds.{IsEvenRun};
ghost use Rattle.nv_cell.specs.Room.{HasGrown};
ghost use Rattle.nv_cell.specs.Runs.{AreRuns, IsInRun, end_at, start_at};

use crate::PartEnds;
use crate::grow::{LEAST_ENTRIES, grow};
use crate::marks::{run_of, start_of};
use crate::part_ends::EvenRun;
use std::alloc::{AllocError, Global};

impl EvenRun {
    /// The run of no entries.
    fn empty() -> EvenRun
        ensures { result ≡ record { from = 0; start = 0; parts = 0 } }
    {
        EvenRun {
            from: 0,
            start: 0,
            parts: 0,
        }
    }

    /// Where the parts of an entry begin that is not before the run.
    fn start_of(self, entry: usize) -> usize
        requires from { self.from ≤ entry }
        requires small { self.start + (entry - self.from) * self.parts < 2 ^ 64 }
        ensures { result ≡ self.start + (entry - self.from) * self.parts }
    {
        self.start + (entry - self.from) * self.parts
    }

    /// The run with one entry more, whose parts have these bounds.
    #[tactic(auto, using(crate::proofs::PartEnds::goes_on, crate::proofs::PartEnds::begins_behind))]
    fn with(self, ends: &[usize], start: usize, end: usize) -> EvenRun
        requires even { IsEvenRun self ends.now }
        requires start { start ≡ start_at ends.now (length ends.now) }
        ensures { IsEvenRun result (ends.now ++ end ∷ []) }
    {
        if end >= start && end - start == self.parts {
            return self;
        }
        EvenRun {
            from: ends.len() + 1,
            start: end,
            parts: end.saturating_sub(start),
        }
    }
}

impl PartEnds {
    /// No entry.
    pub fn new(alloc: Global) -> PartEnds
        ensures { result.items ≡ [] }
    {
        PartEnds {
            ends: Vec::new(alloc),
            even: EvenRun::empty(),
        }
    }

    /// Where the parts of an entry begin, by the entry's place in the log.
    pub fn start(&self, entry: usize) -> usize
        ensures { result ≡ start_at self.now.items entry }
    {
        if self.even.from <= entry && entry <= self.ends.len() {
            return self.even.start_of(entry);
        }
        start_of(&self.ends, entry)
    }

    /// Where the parts of an entry end.
    pub fn end(&self, entry: usize) -> usize
        requires { entry < length self.now.items }
        ensures { result ≡ end_at self.now.items entry }
    {
        self.ends[entry]
    }

    /// Whether a part is one of an entry.
    fn is_of(&self, entry: usize, part: usize) -> bool
        ensures { result ≡ true → IsInRun self.now.items part entry }
    {
        entry < self.ends.len() && self.start(entry) <= part && part < self.start(entry + 1)
    }

    /// The entry that a part is of: the guessed one, or else found in the time of the logarithm of the entries.
    pub fn entry_of(&self, guess: usize, part: usize) -> usize
        requires { AreRuns self.now.items (part + 1) }
        ensures { IsInRun self.now.items part result }
    {
        if self.is_of(guess, part) {
            return guess;
        }
        run_of(&self.ends, guess, part)
    }

    /// Makes room for so many entries more.
    pub fn reserve(&mut self, entries: usize) -> Result<(), AllocError>
        ensures grown { HasGrown self.old self.new }
        ensures ok { OnOk result (vec_len self.new + entries ≤ vec_capacity self.new) }
        ensures enough { vec_len self.old + entries ≤ vec_capacity self.old → IsOk result }
    {
        grow(&mut self.ends, entries, LEAST_ENTRIES)
    }

    /// Adds an entry, by where its parts end. Grows nothing.
    pub fn push_reserved(&mut self, end: usize)
        requires { vec_len self.old < vec_capacity self.old }
        ensures items { self.new.items ≡ self.old.items ++ end ∷ [] }
        ensures capacity { vec_capacity self.new ≡ vec_capacity self.old }
    {
        let start = self.start(self.ends.len());
        self.even = self.even.with(&self.ends, start, end);
        self.ends.push_reserved(end);
    }

    /// Leaves no entry.
    pub fn clear(&mut self)
        ensures items { self.new.items ≡ [] }
        ensures capacity { vec_capacity self.new ≡ vec_capacity self.old }
    {
        self.ends.clear();
        self.even = EvenRun::empty();
    }
}
