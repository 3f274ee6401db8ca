//! Records that are kept as one.

ghost use Rattle.std.specs.Prelude.{◌≡◌, ◌<◌, List, ◌∷◌, ◌++◌};
ghost use Rattle.nv_book.specs.Runs.{IsRun, AreLeft, AreRuns, last_of, joins, pages_of, records_left, records_of, rest_of, run_records};
ghost use Rattle.nv_book.specs.declared.run.RecordRun.{RecordRun};

use crate::Record;
use nv_entry::Part;

/// A record, and how many more follow it, each of the next page.
#[derive(Clone, Copy, Debug)]
pub struct RecordRun {
    pub first: Record,
    pub more: u32,
}

impl RecordRun {
    /// The last record of the run.
    fn last(&self) -> Record
        requires { IsRun self.now }
        ensures { result ≡ last_of self.now }
    {
        let part = match self.first.part {
            Part::Page(page) => Part::Page(page + self.more),
            part => part,
        };
        Record { part, ..self.first }
    }

    /// Whether the run `next` goes on where this one ends.
    pub fn joins(&self, next: &RecordRun) -> bool
        requires { IsRun self.now }
        ensures { result ≡ joins self.now next.now }
    {
        self.last().goes_on(&next.first)
    }

    /// Cuts the first record off.
    pub fn cut(&mut self)
        requires run { IsRun self.old }
        requires more { 0 < self.old.more }
        ensures { self.new ≡ rest_of self.old }
    {
        if let Part::Page(page) = self.first.part {
            self.first.part = Part::Page(page + 1);
        }
        self.more -= 1;
    }

    /// The run without its first record, if more follow it.
    pub fn rest(self) -> Option<RecordRun>
        requires { IsRun self }
        ensures records { (runs : List RecordRun) →
            run_records self ++ records_of runs ≡ self.first ∷ records_left result runs }
        ensures left { (runs : List RecordRun) → AreRuns runs → AreLeft result runs }
    {
        if self.more == 0 {
            return None;
        }
        let mut rest = self;
        rest.cut();
        Some(rest)
    }

    /// How many blocks the run has.
    pub fn pages(&self) -> u64
        ensures { result ≡ pages_of self.now }
    {
        if !self.first.is_page() {
            return 0;
        }
        u64::from(self.more) + 1
    }
}
