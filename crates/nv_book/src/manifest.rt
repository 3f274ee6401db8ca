//! The manifests of the living snapshots, oldest first.

ghost use Rattle.std.specs.Prelude.{◌≡◌, ℕ, ◌+◌, ◌-◌, ◌<◌, ◌≤◌, ◌^◌, [], ◌∷◌, ◌++◌, length, slice_index, slice_set, vec_capacity, Some, None};
ghost use Rattle.nv_epoch.specs.Holders.{IsRising, next_older};
ghost use Rattle.nv_book.specs.Manifests.{snapshots, records_at, put_to, after_drop, record_count, run_total};
ghost use Rattle.nv_book.specs.Records.{run_count_of, let_go};

use crate::Record;
use crate::records::Records;
use crate::spare_nodes::SpareNodes;
use nv_base::Epoch;
use nv_epoch::laws;
use std::alloc::Global;

/// A snapshot, and the records of the parts that it holds and no younger living one does.
#[derive(Debug, Drop)]
pub struct Manifest {
    pub snapshot: Epoch,
    pub records: Records,
}

/// Puts a record to the end of the manifest of the snapshot `s`, which stands at `place`.
pub fn retire_to(
    manifests: &mut Vec<Manifest>,
    place: usize,
    s: Epoch,
    last: Record,
    spare: &mut SpareNodes,
)
    requires rising { IsRising (snapshots manifests.old.items) }
    requires within { place < length manifests.old.items }
    requires at { slice_index (snapshots manifests.old.items) place ≡ s }
    requires spare { 0 < spare.old }
    requires fits { run_total manifests.old.items + spare.old < 2 ^ 63 }
    ensures manifests { manifests.new.items ≡ put_to (Some s) (last ∷ []) manifests.old.items }
    ensures room { spare.new + run_total manifests.new.items ≡
        spare.old + run_total manifests.old.items }
    ensures one { spare.old ≤ spare.new + 1 }
    ensures count { record_count manifests.new.items ≡ record_count manifests.old.items + 1 }
    ensures places { vec_capacity manifests.new ≡ vec_capacity manifests.old }
{
    // The contract alone speaks of the number.
    let _number = s;
    let manifest = &mut manifests[place];
    manifest.records.push(last, spare);
}

/// Removes the manifest of the snapshot `s`, which stands at `place`: its records move in order to the one before,
/// which is that of the next older snapshot, where they were born by then, and else to the end of `deferred`.
pub fn drop_at(
    alloc: Global,
    manifests: &mut Vec<Manifest>,
    place: usize,
    s: Epoch,
    older: &Option<Epoch>,
    deferred: &mut Records,
)
    requires rising { IsRising (snapshots manifests.old.items) }
    requires within { place < length manifests.old.items }
    requires at { slice_index (snapshots manifests.old.items) place ≡ s }
    requires oldest { place ≡ 0 → older.now ≡ None }
    requires older { 0 < place → older.now ≡
        Some (slice_index (snapshots manifests.old.items) (place - 1)) }
    requires fits { run_total manifests.old.items + run_count_of deferred.old < 2 ^ 63 }
    ensures manifests { manifests.new.items ≡ after_drop s older.now manifests.old.items }
    ensures deferred { deferred.new ≡
        deferred.old ++ let_go older.now (records_at s manifests.old.items) }
    ensures room { run_total manifests.new.items + run_count_of deferred.new ≤
        run_total manifests.old.items + run_count_of deferred.old }
    ensures count { record_count manifests.new.items + length deferred.new ≡
        record_count manifests.old.items + length deferred.old }
    ensures places { vec_capacity manifests.new ≡ vec_capacity manifests.old }
{
    // The contract alone speaks of the number.
    let _number = s;
    laws::removal_moves_holders_down();
    let Manifest { records, .. } = manifests.remove(place);
    if place == 0 {
        let mut nobody = Records::new(alloc);
        records.split_by_birth(older, &mut nobody, deferred);
        return;
    }
    let next = &mut manifests[place - 1];
    records.split_by_birth(older, &mut next.records, deferred);
}
