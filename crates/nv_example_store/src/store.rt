//! The store.

ghost use Rattle.std.specs.Prelude.{◌≡◌, ◌≤◌, [], None, true, IfErr, IfOk, OnOk};
ghost use Rattle.nv_base.specs.Memory.{out_of_memory};
ghost use Rattle.nv_base.specs.Refusals.{FailsOnly, FailsOnlyWhere, KeepsOnErr};
ghost use Rattle.nv_files.specs.Stands.{Stands};
ghost use Rattle.nv_serial.specs.Serial.{new_serial};
ghost use Rattle.nv_effects.specs.Causes.{IsSnapCause};
ghost use Rattle.nv_example_store.specs.Faults.{IsBackupFault, IsKeyFault, IsPutCause, IsRemoveCause, IsTidyCause};
ghost use Rattle.nv_example_store.specs.Keys.{may_be_key};
ghost use Rattle.nv_example_store.specs.Stored.{IsCausedIn, Steps, store_in};
ghost use Rattle.nv_example_store.specs.Tidied.{IsTidied};
ghost use Rattle.nv_example_store.specs.Values.{IsBackedUp, IsBackupValue, entries_at, forgotten_in, has_value, keys_of, put_in, removed_in, value_of};

use crate::steps::{self, may_be_key};
use nv_base::Items;
use nv_files::{Bytes, Epoch, Fault, Files, Geometry, Name};
use std::alloc::Global;
use std::marker::Model;

/// A store of keys and values, with backups. Contracts see the files that hold it, and in them its entries and those of each
/// backup.
///
/// A key is a lawful name, except `new value`. Other bytes are refused `BadName`.
#[derive(Drop)]
pub struct Store {
    alloc: Global,
    files: Files,
}

impl Model for Store {
    ghost use Rattle.nv_core.specs.Worlds.{WorldState};
    ghost use Rattle.nv_example_store.specs.Stored.{IsStore};

    ghost Value = { WorldState };

    ghost view = { λ s. s.files };

    // Its files hold a store.
    ghost invariant = { λ s. IsStore s.files };
}

impl Store {
    /// An empty store without backups. The only error is `OutOfMemory`.
    pub fn new(alloc: Global, geometry: Geometry) -> Result<Store, Fault>
        // A world with the root alone has no room for a file.
        requires { 2 ≤ geometry.numbers.inodes }
        // A new store has no entry and no backup.
        ensures ok { IfOk result (λ store. store_in store ≡ record { entries = []; backups = [] }) }
        // Its world is the new one of these numbers.
        ensures numbers { IfOk result (λ store. Stands store (new_serial geometry.numbers)) }
        // The only error is `OutOfMemory`.
        ensures err { FailsOnly out_of_memory result }
    {
        let files = Files::format(alloc, geometry)?;
        Ok(Store { alloc, files })
    }

    /// Puts a value under a key.
    pub fn put(&mut self, key: &[u8], value: &[u8]) -> Result<(), Fault>
        // The key has the value then, and all else stays.
        ensures ok { OnOk result (store_in self.new ≡ put_in key.now value.now (store_in self.old)) }
        // Only a key gets a value.
        ensures key { OnOk result (may_be_key key.now ≡ true) }
        // A put is refused `BadName` where the bytes are no key. A key is refused where the value is too long, where one of
        // the three calls of a put is short of an inode number, of blocks or of a commit number, or for want of memory.
        ensures err { IfErr result
            (IsKeyFault (IsCausedIn (IsPutCause key.now value.now) self.old) key.now) }
        // A put that is refused leaves the store as it was.
        ensures same { KeepsOnErr result (store_in self.old) (store_in self.new) }
    {
        if !may_be_key(key) {
            return Err(Fault::BadName);
        }
        steps::put(&mut self.files, key, value)
    }

    /// Takes a key out.
    pub fn remove(&mut self, key: &[u8]) -> Result<(), Fault>
        // The key has no value then, and all else stays.
        ensures ok { OnOk result (store_in self.new ≡ removed_in key.now (store_in self.old)) }
        // Only a key that has a value is removed.
        ensures key { OnOk result (has_value key.now (store_in self.old).entries ≡ true) }
        // A removal is refused `BadName` where the bytes are no key, and `Missing` where the key has no value. Else its call is
        // short of blocks or of a commit number, or memory is refused.
        ensures err { IfErr result
            (IsKeyFault (IsCausedIn (IsRemoveCause key.now) self.old) key.now) }
        // A removal that is refused leaves the store as it was.
        ensures same { KeepsOnErr result (store_in self.old) (store_in self.new) }
    {
        if !may_be_key(key) {
            return Err(Fault::BadName);
        }
        steps::remove(&mut self.files, key)
    }

    /// The value of a key, if it has one.
    pub fn get(&mut self, key: &[u8]) -> Result<Option<Bytes>, Fault>
        // The value is the one that was put last under the key, and none where the key has none.
        ensures ok { IfOk result (λ found. found ≡ value_of key.now (store_in self.old).entries) }
        // Only a key is looked up.
        ensures key { OnOk result (may_be_key key.now ≡ true) }
        // Else the bytes are no key, or memory is refused.
        ensures err { IfErr result (IsKeyFault (λ why. why ≡ out_of_memory) key.now) }
        // The store stays.
        ensures same { store_in self.new ≡ store_in self.old }
    {
        if !may_be_key(key) {
            return Err(Fault::BadName);
        }
        steps::get(self.alloc, &mut self.files, key)
    }

    /// The keys, in the order in which they were put last.
    pub fn keys(&mut self) -> Result<Items<Name>, Fault>
        // The keys are exactly those that have a value, in the order in which they were put last.
        ensures ok { IfOk result (λ keys. keys ≡ keys_of (store_in self.old).entries) }
        // The only error is `OutOfMemory`.
        ensures err { FailsOnly out_of_memory result }
        // The store stays.
        ensures same { store_in self.new ≡ store_in self.old }
    {
        steps::keys(self.alloc, &mut self.files)
    }

    /// Makes a backup of all entries, and tells its number, which is new. Takes no memory.
    pub fn backup(&mut self) -> Result<Epoch, Fault>
        // The newest backup has the entries of now, and a number that no other backup has.
        ensures ok { IfOk result (λ backup. IsBackedUp backup (store_in self.old) (store_in self.new)) }
        // It is refused at the last epoch, and else where as many backups live as may.
        ensures err { IfErr result (IsCausedIn IsSnapCause self.old) }
        // A backup that is refused leaves the store as it was.
        ensures same { KeepsOnErr result (store_in self.old) (store_in self.new) }
    {
        steps::backup(&mut self.files)
    }

    /// Lets a backup go. What it alone held waits for a [`Store::tidy`]. Takes no memory.
    pub fn forget(&mut self, backup: Epoch) -> Result<(), Fault>
        // The backup is gone, and all else stays.
        ensures ok { OnOk result (store_in self.new ≡ forgotten_in backup (store_in self.old)) }
        // It is refused `NoSnapshot` alone, where there is no such backup.
        ensures err { FailsOnlyWhere Fault.NoSnapshot (entries_at backup (store_in self.old).backups ≡ None) result }
        // A refusal leaves the store as it was.
        ensures same { KeepsOnErr result (store_in self.old) (store_in self.new) }
    {
        steps::forget(&mut self.files, backup)
    }

    /// The value that a key had at a backup, if it had one.
    pub fn get_at(&mut self, backup: Epoch, key: &[u8]) -> Result<Option<Bytes>, Fault>
        // The value is that of the entries of the backup.
        ensures ok { IfOk result (IsBackupValue (store_in self.old).backups backup key.now) }
        // Only a key is looked up.
        ensures key { OnOk result (may_be_key key.now ≡ true) }
        // Else the bytes are no key, there is no such backup, or memory is refused.
        ensures err { IfErr result
            (IsKeyFault (IsBackupFault backup (store_in self.old).backups) key.now) }
        // The store stays.
        ensures same { store_in self.new ≡ store_in self.old }
    {
        if !may_be_key(key) {
            return Err(Fault::BadName);
        }
        steps::get_at(self.alloc, &mut self.files, backup, key)
    }

    /// Gives back the blocks that no entry and no backup needs any more.
    pub fn tidy(&mut self) -> Result<(), Fault>
        // The store stays, also where it is refused.
        ensures same { store_in self.new ≡ store_in self.old }
        // Where fewer records wait than a drain may release, none waits then, and the blocks in use are those that the
        // entries and the backups need.
        ensures ok { OnOk result (Steps IsTidied self.old self.new) }
        // It is refused `NoSpace` where too few blocks are free for what stays of the log of the root, or for want of memory.
        ensures err { IfErr result (IsCausedIn IsTidyCause self.old) }
    {
        steps::tidy(&mut self.files)
    }
}
