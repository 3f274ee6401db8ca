//! A list of records, kept as runs.

ghost use Rattle.std.specs.Prelude.{◌≡◌, ℕ, ◌+◌, ◌<◌, ◌≤◌, ◌^◌, [], ◌∷◌, ◌++◌, drop, filter, length, slice_get};
ghost use Rattle.nv_epoch.specs.Holders.{IsRising};
ghost use Rattle.nv_book.specs.HeldSpans.{AddsSpan, HasRoom};
ghost use Rattle.nv_book.specs.Manifests.{snapshots};
ghost use Rattle.nv_book.specs.Records.{block_count, is_held_by, let_go, moved_down, run_count_of};

use crate::held_spans::HeldSpans;
use crate::manifest::Manifest;
use crate::record_iter::RecordIter;
use crate::run::RecordRun;
use crate::spare_nodes::SpareNodes;
use crate::{Record, runs};
use nv_base::Epoch;
use std::alloc::Global;
use std::collections::LinkedList;
use std::marker::Model;

/// A list of records. Neighbours that go on are stored as one run.
#[derive(Debug, Drop)]
pub struct Records {
    runs: LinkedList<RecordRun>,
}

impl Model for Records {
    ghost use Rattle.std.specs.Prelude.{List};
    ghost use Rattle.nv_book.specs.declared.record.Record.{Record};
    ghost use Rattle.nv_book.specs.Runs.{AreRuns, records_of};

    ghost Value = { List Record };

    ghost view = { λ l. records_of l.runs };

    // Its record runs are runs, and no two neighbours are one; so in what a `RecordIter` has left.
    ghost invariant = { λ l. AreRuns l.runs };
}

impl Records {
    /// No records, and no memory.
    pub(crate) fn new(alloc: Global) -> Records
        ensures { result ≡ [] }
    {
        Records {
            runs: LinkedList::new(alloc),
        }
    }

    /// How many runs the records are stored as.
    #[tactic(auto, using(crate::proofs::Putting::count_laws))]
    pub fn stored(&self) -> usize
        ensures { result ≡ run_count_of self.now }
    {
        self.runs.len()
    }

    /// Puts a record to the end. It takes no memory, and a spare node where the record doesn't go on the last.
    #[tactic(auto, using(crate::proofs::Putting::count_laws))]
    pub(crate) fn push(&mut self, last: Record, spare: &mut SpareNodes)
        requires spare { 0 < spare.old }
        requires fits { run_count_of self.old + spare.old < 2 ^ 63 }
        ensures records { self.new ≡ self.old ++ last ∷ [] }
        ensures room { spare.new + run_count_of self.new ≡ spare.old + run_count_of self.old }
        ensures one { spare.old ≤ spare.new + 1 }
    {
        let run = RecordRun {
            first: last,
            more: 0,
        };
        runs::add(&mut self.runs, &mut spare.nodes, run);
    }

    /// Takes the first record out, in constant time.
    #[tactic(auto, using(crate::proofs::Putting::count_laws))]
    pub(crate) fn pick(&mut self) -> Option<Record>
        ensures first { result ≡ slice_get self.old 0 }
        ensures rest { self.new ≡ drop 1 self.old }
        ensures runs { run_count_of self.new ≤ run_count_of self.old }
    {
        runs::pick(&mut self.runs)
    }

    /// The records one by one, in order.
    pub fn iter(&self) -> RecordIter<'_>
        // The records of a manifest and of the deferred list are read one by one, in order.
        ensures { result ≡ self.now }
    {
        RecordIter::new(self.runs.iter())
    }

    /// How many blocks the records have. It takes time by the runs.
    pub fn blocks(&self) -> u64
        requires { length self.now < 2 ^ 63 }
        ensures { result ≡ block_count self.now }
    {
        self.blocks_not_born_by(&None)
    }

    /// How many blocks of the records the snapshot `s` holds. It takes time by the runs.
    pub fn held(&self, s: Epoch) -> u64
        requires { length self.now < 2 ^ 63 }
        ensures { result ≡ block_count (filter (is_held_by s) self.now) }
    {
        runs::held(&self.runs, s)
    }

    /// Adds the records of the manifest at a place to the spans over all. It takes time by the runs, with a look-up among
    /// the manifests for each that [`HeldSpans::add`] looks up.
    pub(crate) fn span(&self, manifests: &[Manifest], place: usize, spans: &mut HeldSpans)
        requires rising { IsRising (snapshots manifests.now) }
        requires room { HasRoom spans.old (length manifests.now) (length self.now) }
        ensures room { (more : ℕ) → HasRoom spans.old (length manifests.now) (length self.now + more)
            → HasRoom spans.new (length manifests.now) more }
        ensures held { AddsSpan (snapshots manifests.now)
            (λ s. block_count (filter (is_held_by s) self.now)) spans.old spans.new }
    {
        runs::span(&self.runs, manifests, place, spans);
    }

    /// How many blocks of the records were not born by the snapshot `older`. It takes time by the runs.
    pub fn blocks_not_born_by(&self, older: &Option<Epoch>) -> u64
        requires { length self.now < 2 ^ 63 }
        ensures { result ≡ block_count (let_go older.now self.now) }
    {
        runs::blocks_not_born_by(&self.runs, older)
    }

    /// Moves the records in order: those born by the snapshot `older` to the end of `kept`, all others to the end of
    /// `deferred`. It takes no memory, and time by this list's runs alone.
    #[tactic(auto, using(crate::proofs::Putting::count_laws))]
    pub(crate) fn split_by_birth(
        self,
        older: &Option<Epoch>,
        kept: &mut Records,
        deferred: &mut Records,
    )
        requires fits { run_count_of self + run_count_of kept.old
            + run_count_of deferred.old < 2 ^ 63 }
        ensures kept { kept.new ≡ kept.old ++ moved_down older.now self }
        ensures deferred { deferred.new ≡ deferred.old ++ let_go older.now self }
        ensures runs { run_count_of kept.new + run_count_of deferred.new ≤
            run_count_of self + run_count_of kept.old + run_count_of deferred.old }
    {
        runs::split_by_birth(self.runs, older, &mut kept.runs, &mut deferred.runs);
    }
}
