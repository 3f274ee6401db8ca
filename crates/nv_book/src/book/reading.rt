//! What a book tells: its lists, counts and history. Nothing here changes a book.

ghost use Rattle.std.specs.Prelude.{◌≡◌, ◌+◌, ◌<◌, ◌≤◌, ◌↔◌, [], length, map, slice_index_or, IfOk, IsTrue};
ghost use Rattle.nv_base.specs.declared.limits.TheConstants.{NUMBER};
ghost use Rattle.nv_base.specs.Refusals.{FailsOnly};
ghost use Rattle.nv_base.specs.Memory.{out_of_memory};
ghost use Rattle.nv_epoch.specs.SnapList.{ids};
ghost use Rattle.nv_book.specs.Book.{IsBookOf};
ghost use Rattle.nv_book.specs.History.{IsLegal, now_of, state_now};
ghost use Rattle.nv_book.specs.Manifests.{AreDead, AreFiled, held_of, run_total};
ghost use Rattle.nv_book.specs.Records.{block_count, run_count_of};

use super::Book;
use crate::Base;
use crate::history::History;
use crate::manifest::Manifest;
use crate::records::Records;
use nv_base::{CommitNo, Epoch, Fault, Geometry};
use nv_epoch::SnapList;
use nv_journal::Journal;
use std::alloc::Global;

impl Book {
    /// The CPU's journal.
    pub fn journal(&self, cpu: u64) -> &Journal
        requires { cpu < length self.now.state.journals }
        ensures { result.now ≡ slice_index_or self.now.state.journals cpu [] }
    {
        &self.journals[cpu as usize]
    }

    /// How many CPUs there are, each with a journal.
    pub fn cpus(&self) -> u64
        // For how many CPUs a book is, is told.
        ensures { result ≡ length self.now.state.journals }
    {
        self.journals.len() as u64
    }

    /// Whether the book has a journal for each CPU of the geometry, and room for as many snapshots.
    pub fn made_for(&self, geometry: &Geometry) -> bool
        // Whether a book has the numbers of a device is told.
        ensures { IsTrue result ↔ IsBookOf geometry.now.numbers self.now.state }
    {
        self.cpus() == geometry.numbers.cpus && self.snaps.most() == geometry.numbers.snaps
    }

    /// How many blocks of recorded parts the living snapshot `s` holds; of any other number, how many of those in
    /// manifests were born by then and died later. It takes time by all runs.
    pub fn held(&self, s: Epoch) -> u64
        // What a snapshot holds is the blocks of recorded parts with birth <= s < death.
        ensures { result ≡ held_of s self.now.state.manifests }
    {
        self.store.held(s)
    }

    /// How many blocks of recorded parts each living snapshot holds, oldest first: what [`Book::held`] tells of each, by
    /// one pass for all of them. It takes time by all runs, with two look-ups among the snapshots for each, and memory by
    /// the snapshots.
    ///
    /// The only error is `OutOfMemory`.
    pub fn held_by_each(&self, alloc: Global) -> Result<Vec<u64>, Fault>
        // What each living snapshot holds is told for all at once.
        // A record counts for the snapshots from its birth on and before its death.
        ensures ok { let now = self.now.state in
            IfOk result (λ held. held.items
            ≡ map (λ s. held_of s now.manifests) (ids now.snaps)) }
        ensures err { FailsOnly out_of_memory result }
    {
        self.snaps.rises();
        self.store.held_by_each(alloc)
    }

    /// How many blocks the deferred records have. It takes time by their runs.
    pub fn deferred_blocks(&self) -> u64
        // The deferred blocks are counted.
        ensures value { result ≡ block_count self.now.state.deferred }
        ensures few { result ≤ NUMBER }
    {
        self.store.deferred_blocks()
    }

    /// How many runs the records are stored as. It takes time by the snapshots.
    pub fn stored(&self) -> u64
        // Records that go on are stored as one record run.
        // Records that do not go on are stored as record runs of their own.
        ensures { result ≡ run_total self.now.state.manifests + run_count_of self.now.state.deferred }
    {
        self.store.stored()
    }

    /// The living snapshots.
    pub fn snaps(&self) -> &SnapList
        ensures snaps { result.now ≡ self.now.state.snaps }
        // Each record stands with its youngest living holder, or is deferred if it has none.
        ensures filed { let now = self.now.state in
            AreFiled (ids now.snaps) now.manifests now.deferred }
        // Each record died by now.
        ensures dead { let now = self.now.state in
            AreDead now.snaps.epoch now.manifests now.deferred }
    {
        &self.snaps
    }

    /// The manifests of the living snapshots, oldest first.
    pub fn manifests(&self) -> &[Manifest]
        ensures manifests { result.now ≡ self.now.state.manifests }
        ensures filed { let now = self.now.state in
            AreFiled (ids now.snaps) now.manifests now.deferred }
        ensures dead { let now = self.now.state in
            AreDead now.snaps.epoch now.manifests now.deferred }
    {
        self.store.manifests()
    }

    /// The deferred list.
    pub fn deferred(&self) -> &Records
        ensures deferred { result.now ≡ self.now.state.deferred }
        ensures filed { let now = self.now.state in
            AreFiled (ids now.snaps) now.manifests now.deferred }
        ensures dead { let now = self.now.state in
            AreDead now.snaps.epoch now.manifests now.deferred }
    {
        self.store.deferred()
    }

    /// The latest events, after [`Book::base`].
    pub fn history(&self) -> &History
        ensures history { result.now ≡ self.now.state.history.latest }
        // The history is legal.
        ensures legal { let now = self.now.state in
            IsLegal now.snaps.most now.history.base now.history.latest }
        // The history leads to the epoch, the commit number and the living snapshots.
        ensures replayed { now_of self.now.state.history ≡
            state_now self.now.state.snaps self.now.state.commit }
    {
        &self.history
    }

    /// What the events before the latest led to. It takes time by the events that are kept, and for each making and
    /// drop among them by the number of snapshots.
    ///
    /// The only error is `OutOfMemory`.
    pub fn base(&self) -> Result<Base, Fault>
        // A base stands for the events before the latest.
        // The latest events are undone in order, from the last on.
        ensures ok { IfOk result (λ base. base ≡ self.now.state.history.base) }
        ensures err { FailsOnly out_of_memory result }
    {
        let now = Base::now(self.alloc, &self.snaps, self.commit)?;
        self.history.base(now)
    }

    /// The current epoch.
    pub fn epoch(&self) -> Epoch
        ensures { result ≡ self.now.state.snaps.epoch }
    {
        self.snaps.epoch()
    }

    /// The number of the last commit.
    pub fn commit(&self) -> CommitNo
        ensures value { result ≡ self.now.state.commit }
        ensures fits { result ≤ NUMBER }
    {
        self.commit
    }

    /// What holds of each book: the number of its last commit is none above the limit. Costs nothing.
    pub fn keeps_its_limit(&self)
        // The number of the last commit is none above the limit.
        ensures { self.now.state.commit ≤ NUMBER }
    {
        let _commit = self.commit();
    }

    /// How many records may be retired without memory.
    pub fn room(&self) -> u64
        ensures { result ≡ self.now.room }
    {
        self.store.room()
    }
}
