//! Laws of manifests: how a record that is retired, a snapshot that is made and one that is dropped leave each
//! record with its youngest living holder, and in which order. Each is a function that does nothing, whose
//! contract is the law.
//!
//! A list `living` has the numbers of the living snapshots.

ghost use Rattle.std.specs.Prelude.{◌≡◌, ℕ, ◌+◌, ◌<◌, ◌≤◌, List, [], ◌∷◌, ◌++◌, All, Contains, Some, drop, is_none, slice_get};
ghost use Rattle.std.specs.List.{AllByRecursion, find};
ghost use Rattle.nv_epoch.specs.Holders.{IsRising, next_older, without};
ghost use Rattle.nv_book.specs.declared.history.TheConstants.{LATEST};
ghost use Rattle.nv_book.specs.declared.manifest.Manifest.{Manifest};
ghost use Rattle.nv_book.specs.declared.record.Record.{Record};
ghost use Rattle.nv_book.specs.Records.{block_count, holder_of, let_go};
ghost use Rattle.nv_book.specs.Listed.{IsRecordList, all_records, with_moved, with_retired, without_first};
ghost use Rattle.nv_book.specs.Manifests.{AreFiled, AreDead, put_to, records_at, after_drop, after_make, gain_of};

use nv_epoch::laws;

/// A book tells the latest 256 events.
pub fn histories_have_256_events()
    // The constant `LATEST` is 256.
    ensures { LATEST ≡ 256 }
{}

/// A record that is put to the manifest of its youngest holder is filed.
pub fn retiring_files()
    // Retiring leaves each record with its youngest living holder.
    ensures kept { (living : List ℕ) (manifests : List Manifest) (deferred : List Record) (s : ℕ)
        (r : Record) →
        AreFiled living manifests deferred → holder_of living r ≡ Some s →
        AreFiled living (put_to (Some s) (r ∷ []) manifests) deferred }
{}

/// Making a snapshot adds an empty manifest, and every record stays where it is.
pub fn making_files()
    // Making a snapshot leaves each record with its youngest living holder.
    ensures made { (living : List ℕ) (epoch : ℕ) (manifests : List Manifest)
        (deferred : List Record) →
        AreDead epoch manifests deferred → AreFiled living manifests deferred →
        AreFiled (living ++ epoch ∷ []) (after_make epoch manifests) deferred }
{
    laws::making_keeps_holders();
}

/// A drop moves the records of its manifest to the end of the next older snapshot's where they were born by then, and
/// defers the others. The gain is how many blocks it defers.
pub fn dropping_files()
    // A drop leaves each record with its youngest living holder, and defers what `gain` told.
    ensures dropped { (living : List ℕ) (s : ℕ) (manifests : List Manifest)
        (deferred : List Record) →
        IsRising living → AreFiled living manifests deferred →
        AreFiled (without s living) (after_drop s (next_older living s) manifests)
        (deferred ++ let_go (next_older living s) (records_at s manifests)) }
    ensures gain { (s : ℕ) (living : List ℕ) (manifests : List Manifest) (deferred : List Record) →
        block_count (deferred ++ let_go (next_older living s) (records_at s manifests)) ≡
        block_count deferred + gain_of s (next_older living s) manifests }
{
    laws::removal_moves_holders_down();
}

/// Whatever is filed is told by one list of records: the manifests' records, oldest snapshot first, and the deferred
/// ones after them.
pub fn filed_records_are_listed()
    // Whatever is filed has such a list.
    ensures { (living : List ℕ) (manifests : List Manifest) (deferred : List Record) →
        IsRising living → AreFiled living manifests deferred →
        IsRecordList living manifests deferred (all_records manifests ++ deferred) }
{}

/// The manifests and the deferred list are told by one list of records: a retired record that has a holder
/// goes to its end, a drop moves the records of its snapshot there in order, and a pick takes out the first
/// without a living holder.
/// Only tested: the slow book of the tests is such a list.
pub fn one_list_tells_all()
    // The manifests and the deferred list are told by one list of records, in its order.
    ensures begins { IsRecordList [] [] [] [] }
    // That list tells the book after a retire, a making, a drop and a pick.
    ensures retired { (living : List ℕ) (manifests : List Manifest) (deferred rs : List Record)
        (r : Record) →
        IsRecordList living manifests deferred rs →
        IsRecordList living (put_to (holder_of living r) (r ∷ []) manifests) deferred
        (with_retired living r rs) }
    ensures made { (living : List ℕ) (epoch : ℕ) (manifests : List Manifest)
        (deferred rs : List Record) →
        IsRising living → All (λ s. s < epoch) living → AreDead epoch manifests deferred →
        IsRecordList living manifests deferred rs →
        IsRecordList (living ++ epoch ∷ []) (after_make epoch manifests) deferred rs }
    ensures dropped { (living : List ℕ) (s : ℕ) (manifests : List Manifest)
        (deferred rs : List Record) →
        IsRising living → Contains living s → IsRecordList living manifests deferred rs →
        IsRecordList (without s living) (after_drop s (next_older living s) manifests)
        (deferred ++ let_go (next_older living s) (records_at s manifests))
        (with_moved s living rs) }
    ensures picked { (living : List ℕ) (manifests : List Manifest) (deferred rs : List Record) →
        IsRecordList living manifests deferred rs →
        (slice_get deferred 0 ≡ find (λ r. is_none (holder_of living r)) rs)
        × IsRecordList living manifests (drop 1 deferred) (without_first living rs) }
{
    laws::holders_are_told_by_the_list();
    laws::making_keeps_holders();
    laws::removal_moves_holders_down();
}
