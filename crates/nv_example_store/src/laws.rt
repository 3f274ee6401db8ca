//! What a caller makes of the contracts of a store. Each law is the contract of a function that does nothing.

ghost use Rattle.std.specs.Prelude.{◌≡◌, ℕ, List, None, Some, false};
ghost use Rattle.nv_base.specs.Names.{same_name};
ghost use Rattle.nv_example_store.specs.Values.{Entry, IsBackedUp, StoreValue, entries_at, put_in, removed_in, value_of};

/// What was put is got, until the key is put again or removed.
pub fn what_was_put_is_got()
    // A key has the value that was put last under it.
    ensures put { (store : StoreValue) (key value : List ℕ)
        → value_of key (put_in key value store).entries ≡ Some value }
    // Every other key has the value that it had.
    ensures others { (store : StoreValue) (key other value : List ℕ) → same_name key other ≡ false
        → value_of other (put_in key value store).entries ≡ value_of other store.entries }
    // A key that was removed has no value.
    ensures removed { (store : StoreValue) (key : List ℕ)
        → value_of key (removed_in key store).entries ≡ None }
    // Every other key has the value that it had.
    ensures left { (store : StoreValue) (key other : List ℕ) → same_name key other ≡ false
        → value_of other (removed_in key store).entries ≡ value_of other store.entries }
{}

/// A backup has the entries that stood when it was made, whatever is put and removed later.
pub fn a_backup_has_what_stood()
    // A backup has the entries of its making.
    ensures made { (snapshot : ℕ) (old new : StoreValue) → IsBackedUp snapshot old new
        → entries_at snapshot new.backups ≡ Some old.entries }
    // An older backup has the entries that it had.
    ensures older { (snapshot other : ℕ) (old new : StoreValue) (entries : List Entry)
        → IsBackedUp snapshot old new → entries_at other old.backups ≡ Some entries
        → entries_at other new.backups ≡ Some entries }
{}
