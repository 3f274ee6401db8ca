//! The records that a book has, by manifests, and the room for more.

ghost use Rattle.std.specs.Prelude.{◌≡◌, ◌+◌, ◌-◌, ◌<◌, ◌≤◌, [], ◌∷◌, ◌++◌, drop, length, map, slice_get, slice_index, IfErr, IfOk, IsOk, OnErr, OnOk, Some, None};
ghost use Rattle.nv_base.specs.declared.limits.TheConstants.{NUMBER};
ghost use Rattle.nv_base.specs.Refusals.{FailsOnly};
ghost use Rattle.nv_epoch.specs.Holders.{IsRising};
ghost use Rattle.nv_book.specs.Listed.{manifest_of};
ghost use Rattle.nv_book.specs.Manifests.{snapshots, records_at, put_to, after_drop, after_make, run_total, held_of, gain_of};
ghost use Rattle.nv_book.specs.Records.{block_count, run_count_of, let_go};
ghost use Rattle.nv_book.specs.Store.{Store, nodes_wanted};
ghost use Rattle.nv_base.specs.Memory.{out_of_memory};

use crate::Record;
use crate::held_spans::HeldSpans;
use crate::manifest::{self, Manifest};
use crate::records::Records;
use crate::spare_nodes::SpareNodes;
use nv_base::{Epoch, Fault, NoMemory, limits};
use std::alloc::Global;
use std::marker::Model;

/// The manifests of the living snapshots, oldest first, and the deferred list. One reserve of nodes serves them all, so
/// that a record takes no memory whatever list it goes to.
#[derive(Debug, Drop)]
pub struct RecordStore {
    manifests: Vec<Manifest>,
    most: u64,
    deferred: Records,
    spare: SpareNodes,
    // How many records there are.
    count: u64,
    // How many records may be put without memory.
    room: u64,
}

impl Model for RecordStore {
    ghost use Rattle.std.specs.Prelude.{vec_capacity};
    ghost use Rattle.nv_book.specs.Store.{Store, IsStore};

    ghost Value = { Store };

    ghost view = { λ s. record {
      manifests = s.manifests.items;
      most = s.most;
      deferred = s.deferred;
      room = s.room;
    } };

    // Its records are counted; with those that want a node they are at most 2^62.
    // Where a snapshot lives there is a spare node for each record that there is room for; all nodes are at most 2^62;
    // there is room for the most manifests.
    ghost invariant = { λ s. IsStore (record {
      manifests = s.manifests.items;
      most = s.most;
      deferred = s.deferred;
      room = s.room;
    })
        s.count s.spare (vec_capacity s.manifests) };
}

impl RecordStore {
    /// No records, and places for so many manifests.
    ///
    /// The only error is `OutOfMemory`.
    pub fn new(alloc: Global, most: u64) -> Result<RecordStore, Fault>
        ensures ok { IfOk result (λ store. store ≡
            record { manifests = []; most = most; deferred = []; room = 0 }) }
        ensures err { FailsOnly out_of_memory result }
    {
        Ok(RecordStore {
            manifests: Vec::with_capacity(alloc, most as usize)?,
            most,
            deferred: Records::new(alloc),
            spare: SpareNodes::new(alloc),
            count: 0,
            room: 0,
        })
    }

    /// An empty manifest for each of these snapshots, oldest first, with places for so many in all, and room for `need`
    /// records.
    ///
    /// The only error is `OutOfMemory`.
    pub fn rebuild(
        alloc: Global,
        most: u64,
        living: &[Epoch],
        need: u64,
    ) -> Result<RecordStore, Fault>
        requires { length living.now ≤ most }
        ensures ok { IfOk result (λ store. store ≡ record {
          manifests = map (λ s. manifest_of s []) living.now;
          most = most;
          deferred = [];
          room = need;
        }) }
        ensures err { FailsOnly out_of_memory result }
    {
        let mut store = RecordStore::new(alloc, most)?;
        for s in living {
            store.make(alloc, *s);
        }
        store.reserve(need)?;
        Ok(store)
    }

    /// How many spare nodes so much room wants.
    fn nodes_wanted(&self, room: u64) -> u64
        ensures { result ≡ nodes_wanted self.now.manifests room }
    {
        if self.manifests.is_empty() {
            return 0;
        }
        room
    }

    /// Makes room for so many records: one spare node for each where a snapshot lives, and none where none does.
    ///
    /// The only error is `OutOfMemory`, and none where there is that room already or no snapshot lives. More than 2^62
    /// records in all count as want of memory.
    pub fn reserve(&mut self, need: u64) -> Result<(), Fault>
        ensures ok { OnOk result (self.new ≡ record self.old { room = need }) }
        ensures err { FailsOnly out_of_memory result }
        ensures enough { need ≤ self.old.room → IsOk result }
        ensures none_lives { self.old.manifests ≡ [] → IsOk result }
        ensures same { OnErr result (self.new ≡ self.old) }
    {
        let nodes = self.nodes_wanted(need);
        if nodes == 0 {
            self.room = need;
            return Ok(());
        }
        if nodes > limits::NUMBER - self.count {
            return Err(NoMemory::for_as_many(self.count.saturating_add(nodes)).into());
        }
        self.spare.reserve(nodes)?;
        self.room = need;
        Ok(())
    }

    /// Puts a record to the end of the manifest of the snapshot `s`, which stands at `place`.
    pub fn put(&mut self, place: usize, s: Epoch, killed: Record)
        requires rising { IsRising (snapshots self.old.manifests) }
        requires within { place < length self.old.manifests }
        requires at { slice_index (snapshots self.old.manifests) place ≡ s }
        requires room { 0 < self.old.room }
        ensures { self.new ≡ record self.old {
          manifests = put_to (Some s) (killed ∷ []) self.old.manifests;
          room = self.old.room - 1;
        } }
    {
        manifest::retire_to(&mut self.manifests, place, s, killed, &mut self.spare);
        self.count += 1;
        self.room -= 1;
    }

    /// Adds an empty manifest for the snapshot `s`, the youngest. Of the room that there was, what has spare nodes stays.
    pub fn make(&mut self, alloc: Global, s: Epoch)
        requires { length self.old.manifests < self.old.most }
        ensures { self.new ≡ record self.old {
          manifests = after_make s self.old.manifests;
          room = nodes_wanted self.old.manifests self.old.room;
        } }
    {
        self.room = self.nodes_wanted(self.room);
        self.manifests.push_reserved(Manifest {
            snapshot: s,
            records: Records::new(alloc),
        });
    }

    /// Removes the manifest of the snapshot `s`, which stands at `place`, where the next older snapshot is `older`. It
    /// takes no memory, and time by the runs of that manifest and a move of the manifests behind it.
    pub fn drop_at(&mut self, alloc: Global, place: usize, s: Epoch, older: &Option<Epoch>)
        requires rising { IsRising (snapshots self.old.manifests) }
        requires within { place < length self.old.manifests }
        requires at { slice_index (snapshots self.old.manifests) place ≡ s }
        requires oldest { place ≡ 0 → older.now ≡ None }
        requires older { 0 < place → older.now ≡
            Some (slice_index (snapshots self.old.manifests) (place - 1)) }
        ensures { self.new ≡ record self.old {
          manifests = after_drop s older.now self.old.manifests;
          deferred = self.old.deferred ++ let_go older.now (records_at s self.old.manifests);
        } }
    {
        manifest::drop_at(
            alloc,
            &mut self.manifests,
            place,
            s,
            older,
            &mut self.deferred,
        );
    }

    /// Takes the first deferred record out, in constant time.
    pub fn pick(&mut self) -> Option<Record>
        ensures first { result ≡ slice_get self.old.deferred 0 }
        ensures rest { self.new ≡ record self.old { deferred = drop 1 self.old.deferred } }
    {
        let first = self.deferred.pick()?;
        self.count -= 1;
        Some(first)
    }

    /// How many runs the records are stored as. It takes time by the manifests.
    pub fn stored(&self) -> u64
        ensures { result ≡ run_total self.now.manifests + run_count_of self.now.deferred }
    {
        let mut count = self.deferred.stored() as u64;
        for m in &self.manifests {
            count += m.records.stored() as u64;
        }
        count
    }

    /// How many blocks of recorded parts the snapshot `s` holds. It takes time by the runs of the manifests.
    pub fn held(&self, s: Epoch) -> u64
        ensures { result ≡ held_of s self.now.manifests }
    {
        let mut count = 0;
        for m in &self.manifests {
            count += m.records.held(s);
        }
        count
    }

    /// How many blocks of recorded parts each snapshot holds, oldest first. It takes time by the runs of the manifests,
    /// with a look-up among these for each run of blocks that two snapshots hold.
    ///
    /// The only error is `OutOfMemory`.
    pub fn held_by_each(&self, alloc: Global) -> Result<Vec<u64>, Fault>
        requires { IsRising (snapshots self.now.manifests) }
        ensures ok { IfOk result (λ held. held.items
            ≡ map (λ s. held_of s self.now.manifests) (snapshots self.now.manifests)) }
        ensures err { FailsOnly out_of_memory result }
    {
        let manifests = self.manifests.as_slice();
        let mut spans = HeldSpans::new(alloc, manifests.len())?;
        for place in 0..manifests.len() {
            manifests[place].records.span(manifests, place, &mut spans);
        }
        spans.held(alloc, manifests)
    }

    /// How many blocks a drop of the snapshot `s`, whose manifest stands at `place`, defers, where the next older
    /// snapshot is `older`. It takes time by the runs of that manifest.
    pub fn gain_at(&self, place: usize, s: Epoch, older: &Option<Epoch>) -> u64
        requires rising { IsRising (snapshots self.now.manifests) }
        requires within { place < length self.now.manifests }
        requires at { slice_index (snapshots self.now.manifests) place ≡ s }
        ensures { result ≡ gain_of s older.now self.now.manifests }
    {
        // The contract alone speaks of the number.
        let _number = s;
        self.manifests[place].records.blocks_not_born_by(older)
    }

    /// How many blocks the deferred records have. It takes time by their runs.
    pub fn deferred_blocks(&self) -> u64
        ensures value { result ≡ block_count self.now.deferred }
        ensures few { result ≤ NUMBER }
    {
        self.deferred.blocks()
    }

    /// How many records may be put without memory.
    pub fn room(&self) -> u64
        ensures { result ≡ self.now.room }
    {
        self.room
    }

    /// The manifests, oldest first.
    pub fn manifests(&self) -> &[Manifest]
        ensures { result.now ≡ self.now.manifests }
    {
        self.manifests.as_slice()
    }

    /// The deferred list.
    pub fn deferred(&self) -> &Records
        ensures { result.now ≡ self.now.deferred }
    {
        &self.deferred
    }
}
