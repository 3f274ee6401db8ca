//! The value behind the commit lock.

ghost use Rattle.std.specs.Prelude.{◌≡◌, ◌+◌, ◌<◌, ◌≤◌, ◌↔◌, ◌++◌, ℕ, List, [], All, length, replicate, slice_get, slice_index_or, IfOk, IsOk, IsSome, OnOk, Some, None};
ghost use Rattle.std.specs.List.{AllByRecursion};
ghost use Rattle.std.specs.Option.{ForSome, IsSomeAnd};
ghost use Rattle.smallvec.specs.SmallVec.{small_vec_len};
ghost use Rattle.nv_base.specs.declared.limits.TheConstants.{NUMBER, PINS};
ghost use Rattle.nv_base.specs.Refusals.{FailsEither, FailsOnly, IsRefusedBy, KeepsOnErr};
ghost use Rattle.nv_epoch.specs.Holders.{IsRising, next_older};
ghost use Rattle.nv_epoch.specs.SnapList.{ids, pins_of};
ghost use Rattle.nv_journal.specs.Journal.{AreDistinct};
ghost use Rattle.nv_book.specs.Book.{BookValue, book_told, empty_book, after_enter, after_pick, after_retire, after_retiring, retired_as, room_after, after_drop_snapshot, after_make_snapshot, after_pin_snapshot, after_unpin_snapshot, with_journal};
ghost use Rattle.nv_book.specs.History.{state_now};
ghost use Rattle.nv_book.specs.Manifests.{gain_of};
ghost use Rattle.nv_book.specs.Records.{block_count, holder_of};
ghost use Rattle.nv_book.specs.Store.{nodes_wanted};
ghost use Rattle.nv_base.specs.Memory.{out_of_memory};
ghost use Rattle.nv_base.specs.declared.geometry.GeometryNumbers.{GeometryNumbers};
ghost use Rattle.nv_book.specs.declared.record.Record.{Record};

mod reading;
mod stopping;

use crate::history::History;
use crate::record_store::RecordStore;
use crate::{Event, Record, Retired};
use nv_base::{CommitNo, Epoch, Fault, Geometry, limits};
use nv_epoch::{SnapList, laws};
use nv_journal::{Journal, OldTail};
use smallvec::SmallVec;
use std::alloc::Global;
use std::marker::Model;

/// The living snapshots with their manifests, the deferred list, the number of the last commit, the CPUs' journals and
/// the history.
///
/// Contracts see its state, and apart from it the room that [`Book::enter`] made for records.
/// Only tested: a book is `Send`.
#[derive(Debug, Drop)]
pub struct Book {
    alloc: Global,
    snaps: SnapList,
    commit: CommitNo,
    store: RecordStore,
    journals: Vec<Journal>,
    history: History,
}

impl Model for Book {
    ghost use Rattle.nv_book.specs.Book.{BookValue, IsBook};
    ghost use Rattle.nv_book.specs.History.{state_now, told};

    ghost Value = { BookValue };

    ghost view = { λ b. record {
      state = record {
        snaps = b.snaps;
        commit = b.commit;
        manifests = b.store.manifests;
        deferred = b.store.deferred;
        journals = b.journals.items;
        history = told (state_now b.snaps b.commit) b.history;
      };
      room = b.store.room;
    } };

    // Each record stands with its youngest living holder, or is deferred if it has none, and died by now.
    // The latest events are legal after a base whose snapshots rise and lie below its epoch.
    // They lead to the epoch, the commit number and the living snapshots of now; the commit number is at most 2^62.
    // There are places for as many manifests as snapshots are allowed.
    ghost invariant = { λ b. IsBook b.snaps b.commit b.store b.history };
}

/// A closed journal for each CPU.
fn closed_journals(alloc: Global, cpus: u64) -> Result<Vec<Journal>, Fault>
    ensures ok { IfOk result (λ journals. journals.items ≡ replicate cpus []) }
    ensures err { FailsOnly out_of_memory result }
{
    let mut journals = Vec::with_capacity(alloc, cpus as usize)?;
    for _cpu in 0..cpus {
        journals.push(Journal::new())?;
    }
    Ok(journals)
}

impl Book {
    /// The book of a new world: epoch 1, commit 0, nothing else.
    ///
    /// The only error is `OutOfMemory`.
    pub fn new(alloc: Global, geometry: &Geometry) -> Result<Book, Fault>
        // A new book has epoch 1, commit 0, and no snapshots, records or notes.
        ensures ok { IfOk result (λ book. book ≡
            record { state = empty_book geometry.now.numbers 1 0; room = 0 }) }
        ensures err { FailsOnly out_of_memory result }
    {
        Book::starting_at(alloc, geometry, Epoch::new(1), CommitNo::new(0))
    }

    /// A book without snapshots and records in this epoch, after this commit.
    ///
    /// The only error is `OutOfMemory`.
    pub fn starting_at(
        alloc: Global,
        geometry: &Geometry,
        epoch: Epoch,
        commit: CommitNo,
    ) -> Result<Book, Fault>
        requires some_epoch { 1 ≤ epoch }
        requires epoch_fits { epoch ≤ NUMBER }
        requires commit_fits { commit ≤ NUMBER }
        // A book that is told so begins at another epoch and commit.
        ensures ok { IfOk result (λ book. book ≡
            record { state = empty_book geometry.now.numbers epoch commit; room = 0 }) }
        ensures err { FailsOnly out_of_memory result }
    {
        let snaps = geometry.numbers.snaps;
        Ok(Book {
            alloc,
            snaps: SnapList::new(alloc, snaps, epoch)?,
            commit,
            store: RecordStore::new(alloc, snaps)?,
            journals: closed_journals(alloc, geometry.numbers.cpus)?,
            history: History::new(alloc)?,
        })
    }

    /// A book with these living snapshots, oldest first and without pins, in this epoch and after this commit, without
    /// records and with room for `need` of them. Its history begins there. It costs what it makes room for.
    ///
    /// The only error is `OutOfMemory`. More than 2^62 records, which no device has parts for, count as want of memory.
    pub fn rebuild(
        alloc: Global,
        geometry: &Geometry,
        living: &[Epoch],
        epoch: Epoch,
        commit: CommitNo,
        need: u64,
    ) -> Result<Book, Fault>
        requires rising { IsRising living.now }
        requires below_epoch { All (λ s. s < epoch) living.now }
        requires fits { length living.now ≤ geometry.now.numbers.snaps }
        requires some_epoch { 1 ≤ epoch }
        requires epoch_fits { epoch ≤ NUMBER }
        requires commit_fits { commit ≤ NUMBER }
        // A book anew has its snapshots, epoch and commit, and its history begins there.
        // A book anew has room for the records asked for; the only error is `OutOfMemory`.
        ensures ok { IfOk result (λ book. book ≡ record {
          state = book_told geometry.now.numbers living.now epoch commit [];
          room = need;
        }) }
        ensures err { FailsOnly out_of_memory result }
    {
        let snaps = geometry.numbers.snaps;
        Ok(Book {
            alloc,
            snaps: SnapList::rebuild(alloc, snaps, living, epoch)?,
            commit,
            store: RecordStore::rebuild(alloc, snaps, living, need)?,
            journals: closed_journals(alloc, geometry.numbers.cpus)?,
            history: History::new(alloc)?,
        })
    }

    /// Fixes the number and epoch of the seat's commit, with room for `need` records: as many as the commit kills
    /// parts, those that turn out free included.
    ///
    /// `CommitLimit` where the last number is 2^62, before `OutOfMemory`, which comes only where a snapshot lives and the
    /// room that there was is less than `need`. More than 2^62 records in all, which no device has parts for, count as want
    /// of memory. It costs what it makes room for, however many records and snapshots there are, and constant time where no
    /// snapshot lives.
    #[inline(always)]
    pub fn enter(&mut self, seat: u64, need: u64) -> Result<(Epoch, CommitNo), Fault>
        // A commit gets the next number and is noted.
        // A commit that was entered has room for the records asked for, whatever manifests they go to.
        ensures ok { OnOk result (self.new ≡
            record { state = after_enter seat self.old.state; room = need }) }
        // A commit gets the current epoch.
        ensures epoch { IfOk result (λ fixed. fixed.0 ≡ self.old.state.snaps.epoch) }
        ensures number { IfOk result (λ fixed. fixed.1 ≡ self.new.state.commit) }
        // A commit at the last number is refused by `CommitLimit`, before want of memory.
        ensures limit { IsRefusedBy result Fault.CommitLimit ↔ (self.old.state.commit ≡ NUMBER) }
        // Want of memory comes only where there was less room than is asked for.
        ensures enough { self.old.state.commit < NUMBER → need ≤ self.old.room → IsOk result }
        // Where no snapshot lives, no record can be kept, and a commit wants no memory.
        ensures none_lives { self.old.state.commit < NUMBER → self.old.state.snaps.living ≡ []
            → IsOk result }
        ensures err { FailsEither Fault.CommitLimit out_of_memory result }
        // A refusal changes nothing, the room neither.
        ensures same { KeepsOnErr result self.old self.new }
    {
        if self.commit.number() == limits::NUMBER {
            return Err(Fault::CommitLimit);
        }
        self.store.reserve(need)?;
        let number = self.commit.next();
        let epoch = self.snaps.epoch();
        self.history.note(Event::Committed {
            seat,
            number,
            epoch,
        });
        self.commit = number;
        Ok((epoch, number))
    }

    /// Puts the record of a killed part to the end of the manifest of its youngest living holder, and answers whether
    /// it has one. It takes no memory, and costs the logarithm of the number of snapshots.
    #[inline(always)]
    pub fn retire(&mut self, killed: Record) -> Retired
        requires dead { killed.death ≤ self.old.state.snaps.epoch }
        // As many records as were asked for are retired without memory.
        requires room { 0 < self.old.room }
        // A retired record is free exactly where it has no holder.
        ensures answer { result ≡ retired_as (holder_of (ids self.old.state.snaps) killed) }
        // A retired record goes to the manifest of its youngest living holder.
        // A retired record stands at the end of its manifest, not among the deferred ones.
        ensures state { self.new.state ≡ after_retire killed self.old.state }
        ensures room { self.new.room ≡ room_after result self.old.room }
    {
        laws::holders_are_told_by_the_list();
        laws::pins_stay_with_their_snapshot();
        self.snaps.rises();
        let Some(s) = self.snaps.youngest_in(killed.birth, killed.death) else {
            return Retired::Free;
        };
        let Some(place) = self.snaps.place(s) else {
            unreachable!();
        };
        self.store.put(place, s, killed);
        Retired::Kept
    }

    /// Retires records one after another, as [`Book::retire`] does. Where the book was told by a list of records, it is
    /// told by that list with these behind it.
    /// It takes as much room at most as there are records, and no memory.
    pub fn retire_all(&mut self, records: &[Record])
        requires dead { AllByRecursion (λ r. r.death ≤ self.old.state.snaps.epoch) records.now }
        requires room { length records.now ≤ self.old.room }
        // Records retired in order tell the book, behind those before.
        ensures state { self.new.state ≡ after_retiring records.now self.old.state }
        ensures told { (numbers : GeometryNumbers) (living : List ℕ) (epoch commit : ℕ)
            (rs : List Record) → self.old.state ≡ book_told numbers living epoch commit rs
            → self.new.state ≡ book_told numbers living epoch commit (rs ++ records.now) }
        ensures room { self.old.room ≤ self.new.room + length records.now }
    {
        for killed in records {
            let _retired = self.retire(*killed);
        }
    }

    /// Makes a snapshot of the current epoch, which is its number, and begins the next epoch. It takes no memory, and
    /// constant time. Of the room for records, what has memory behind it stays: all where a snapshot lived, else none.
    ///
    /// `EpochLimit` where the epoch is 2^62, before `TooManySnapshots`.
    /// A making and a drop take no memory.
    pub fn make_snapshot(&mut self) -> Result<Epoch, Fault>
        ensures made { IsOk result ↔
            ((self.old.state.snaps.epoch < NUMBER) ×
            (length self.old.state.snaps.living < self.old.state.snaps.most)) }
        // The last epoch is refused first, then too many snapshots; a refusal changes nothing.
        ensures epoch_limit { IsRefusedBy result Fault.EpochLimit ↔
            (self.old.state.snaps.epoch ≡ NUMBER) }
        ensures too_many { IsRefusedBy result Fault.TooManySnapshots ↔
            ((self.old.state.snaps.epoch < NUMBER) ×
            (length self.old.state.snaps.living ≡ self.old.state.snaps.most)) }
        // Making a snapshot begins the next epoch.
        ensures number { IfOk result (λ s. s ≡ self.old.state.snaps.epoch) }
        // A making adds an empty manifest of the epoch that it ends.
        ensures ok { OnOk result (self.new ≡ record {
          state = after_make_snapshot self.old.state;
          room = nodes_wanted self.old.state.manifests self.old.room;
        }) }
        ensures same { KeepsOnErr result self.old self.new }
    {
        crate::laws::making_files();
        let s = self.snaps.make()?;
        self.store.make(self.alloc, s);
        self.history.note(Event::Made(s));
        Ok(s)
    }

    /// Drops the snapshot `s`: in order, its records move to the end of the next older snapshot's manifest where they
    /// were born by then, and to the end of the deferred list where they were not. It takes no memory, and time by the
    /// runs of the manifest of `s`, a look-up, and two moves: of what stands behind `s` in the list of snapshots and in
    /// that of manifests, at most [`limits::SNAPS`] places each. It goes over no other snapshot.
    ///
    /// `NoSnapshot` where it doesn't live, before `Pinned`.
    /// Records born by the next older snapshot move to the end of its manifest.
    /// All records that were not born by it move to the end of the deferred list.
    pub fn drop_snapshot(&mut self, s: Epoch) -> Result<(), Fault>
        // A dropped snapshot no longer lives.
        ensures dropped { IsOk result ↔ (pins_of self.old.state.snaps s ≡ Some 0) }
        // A missing snapshot is refused first, then a pinned one; a refusal changes nothing.
        ensures no_snapshot { IsRefusedBy result Fault.NoSnapshot ↔
            (pins_of self.old.state.snaps s ≡ None) }
        ensures pinned { IsRefusedBy result Fault.Pinned ↔
            IsSomeAnd (pins_of self.old.state.snaps s) (λ pins. 0 < pins) }
        // Records that a drop moves keep their order.
        // A drop is noted in the history.
        ensures ok { OnOk result (self.new ≡
            record self.old { state = after_drop_snapshot s self.old.state }) }
        // A drop defers as many blocks as `gain` told before.
        ensures gain { OnOk result (block_count self.new.state.deferred ≡
            block_count self.old.state.deferred
            + gain_of s (next_older (ids self.old.state.snaps) s) self.old.state.manifests) }
        ensures same { KeepsOnErr result self.old self.new }
    {
        laws::pins_stay_with_their_snapshot();
        crate::laws::dropping_files();
        self.snaps.rises();
        let older = self.snaps.older(s);
        let place = self.snaps.place(s);
        self.snaps.remove(s)?;
        let Some(place) = place else {
            unreachable!();
        };
        self.store.drop_at(self.alloc, place, s, &older);
        self.history.note(Event::Dropped(s));
        Ok(())
    }

    /// Adds a pin to the snapshot `s`, or answers `NoSnapshot` where it doesn't live. [`SnapList::can_pin`] tests
    /// whether one more is allowed.
    pub fn pin(&mut self, s: Epoch) -> Result<(), Fault>
        requires { ForSome (pins_of self.old.state.snaps s) (λ pins. pins < PINS) }
        // A pin is one of the snapshot list, and nothing else changes.
        ensures pinned { IsOk result ↔ IsSome (pins_of self.old.state.snaps s) }
        ensures err { FailsOnly Fault.NoSnapshot result }
        ensures ok { OnOk result (self.new ≡
            record self.old { state = after_pin_snapshot s self.old.state }) }
        ensures same { KeepsOnErr result self.old self.new }
    {
        self.snaps.pin(s)
    }

    /// Takes a pin from the snapshot `s`.
    pub fn unpin(&mut self, s: Epoch)
        requires { IsSomeAnd (pins_of self.old.state.snaps s) (λ pins. 0 < pins) }
        // Taking a pin off is that of the snapshot list, and nothing else changes.
        ensures { self.new ≡ record self.old { state = after_unpin_snapshot s self.old.state } }
    {
        self.snaps.unpin(s);
    }

    /// Takes the first deferred record out, if there is one, in constant time.
    pub fn pick(&mut self) -> Option<Record>
        // A pick takes the first deferred record alone.
        // A pick takes no record only where there is none.
        ensures first { result ≡ slice_get self.old.state.deferred 0 }
        ensures rest { self.new ≡ record self.old { state = after_pick self.old.state } }
    {
        self.store.pick()
    }

    /// How many blocks a drop of the snapshot `s` puts on the deferred list. It takes time by the runs of its manifest.
    pub fn gain(&self, s: Epoch) -> u64
        // The gain of a snapshot is how many blocks dropping it defers.
        ensures { result ≡
            gain_of s (next_older (ids self.now.state.snaps) s) self.now.state.manifests }
    {
        laws::pins_stay_with_their_snapshot();
        self.snaps.rises();
        let older = self.snaps.older(s);
        let Some(place) = self.snaps.place(s) else {
            return 0;
        };
        self.store.gain_at(place, s, &older)
    }

    /// Opens the CPU's journal with these inodes and old tails.
    pub fn open_journal(&mut self, cpu: u64, tails: &SmallVec<OldTail, 4>)
        requires cpu { cpu < length self.old.state.journals }
        requires closed { slice_index_or self.old.state.journals cpu [] ≡ [] }
        requires two { 2 ≤ small_vec_len tails.now }
        requires four { small_vec_len tails.now ≤ 4 }
        requires distinct { AreDistinct tails.now.items }
        // The journal of a CPU is opened, and no other.
        ensures { self.new ≡
            record self.old { state = with_journal cpu tails.now.items self.old.state } }
    {
        let journal = &mut self.journals[cpu as usize];
        journal.open(tails);
    }

    /// Closes the CPU's journal.
    pub fn close_journal(&mut self, cpu: u64)
        requires { cpu < length self.old.state.journals }
        // The journal of a CPU is closed, and no other.
        ensures { self.new ≡ record self.old { state = with_journal cpu [] self.old.state } }
    {
        let journal = &mut self.journals[cpu as usize];
        journal.close();
    }
}
