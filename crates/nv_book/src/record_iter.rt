//! The records of a list, one by one.

ghost use Rattle.std.specs.Prelude.{◌≡◌};
ghost use Rattle.std.specs.Iterator.{YieldsFirst, item_count};
ghost use Rattle.nv_book.specs.Runs.{AreRuns, records_of};

use crate::Record;
use crate::run::RecordRun;
use std::collections::linked_list::Iter;
use std::marker::Model;

/// The records of a list, in order. Contracts see the list of those that are left.
#[derive(Drop)]
pub struct RecordIter<'a> {
    // What is left of a run whose first record was given.
    begun: Option<RecordRun>,
    runs: Iter<'a, RecordRun>,
}

impl<'a> Model for RecordIter<'a> {
    ghost use Rattle.std.specs.Prelude.{List};
    ghost use Rattle.nv_book.specs.declared.record.Record.{Record};
    ghost use Rattle.nv_book.specs.Runs.{AreLeft, records_left};

    ghost Value = { List Record };

    ghost view = { λ r. records_left r.begun r.runs };

    ghost invariant = { λ r. AreLeft r.begun r.runs };
}

impl<'a> RecordIter<'a> {
    pub(crate) fn new(runs: Iter<'a, RecordRun>) -> RecordIter<'a>
        requires { AreRuns runs }
        ensures { result ≡ records_of runs.entry }
    {
        RecordIter { begun: None, runs }
    }
}

impl Iterator for RecordIter<'_> {
    type Item = Record;

    ghost next_gives = { YieldsFirst (λ left. left) };

    ghost remaining = { item_count (λ left. left) };

    fn next(&mut self) -> Option<Record> {
        if let Some(run) = self.begun {
            self.begun = run.rest();
            return Some(run.first);
        }
        let run = *self.runs.next()?;
        self.begun = run.rest();
        Some(run.first)
    }
}
