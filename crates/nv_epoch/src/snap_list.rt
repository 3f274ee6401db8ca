//! The list of the living snapshots.

ghost use Rattle.std.specs.Prelude.{◌≡◌, ◌≢◌, ℕ, ◌+◌, ◌-◌, ◌<◌, ◌≤◌, ◌==◌, ◌↔◌, [], All, length, map, slice_index, IsTrue, IsOk, IsSome, IfOk, IfErr, OnOk, OnErr, IfSome, IfNone, Some, None, Contains};
ghost use Rattle.std.specs.Option.{ForSome, IsSomeAnd};
ghost use Rattle.nv_base.specs.declared.limits.TheConstants.{NUMBER, PINS};
ghost use Rattle.nv_epoch.specs.Holders.{IsRising, youngest_holder, next_older, without};
ghost use Rattle.nv_epoch.specs.SnapList.{Snapshots, ids, pins_of, IsSound, after_making, after_removal, after_pin, after_unpin, unpinned};
ghost use Rattle.nv_base.specs.Memory.{out_of_memory};
ghost use Rattle.nv_base.specs.Refusals.{FailsOnly};

use crate::search::{place_of, youngest_below};
use crate::{Ids, Snapshot};
use nv_base::{Epoch, Fault, limits};
use std::alloc::Global;
use std::marker::Model;

/// The living snapshots with their pins, and the current epoch.
///
/// Room for all snapshots is made by `new` or `rebuild`; nothing after it takes memory. A snapshot is found by halving: where a
/// call costs one look-up, that is the logarithm of the number of snapshots.
/// Only tested: a snapshot list is `Send` and `Sync`.
#[derive(Debug, Drop)]
pub struct SnapList {
    living: Vec<Snapshot>,
    epoch: Epoch,
    most: u64,
}

impl Model for SnapList {
    ghost use Rattle.std.specs.Prelude.{◌≤◌, vec_capacity};
    ghost use Rattle.nv_epoch.specs.SnapList.{Snapshots, IsSound};

    ghost Value = { Snapshots };

    ghost view = { λ list.
        record { living = list.living.items; epoch = list.epoch; most = list.most } };

    // The numbers of snapshots rise and lie below the epoch, which is 1 to 2^62.
    // There are at most as many snapshots as there is room for, with at most 64 pins each.
    ghost invariant = { λ list. IsSound
        (record { living = list.living.items; epoch = list.epoch; most = list.most })
        × (list.most ≤ vec_capacity list.living) };
}

impl SnapList {
    /// A list without snapshots, with room for `snaps`. The epoch is `first_epoch`: 1 in a new world.
    ///
    /// Costs the memory of `snaps` snapshots. The only error is `OutOfMemory`.
    pub fn new(alloc: Global, snaps: u64, first_epoch: Epoch) -> Result<SnapList, Fault>
        requires some_epoch { 1 ≤ first_epoch }
        requires epoch_fits { first_epoch ≤ NUMBER }
        // A new list has no snapshot, and room for as many as are allowed.
        ensures ok { IfOk result
            (λ list. list ≡ record { living = []; epoch = first_epoch; most = snaps }) }
        // The only error is `OutOfMemory`.
        ensures err { IfErr result (λ fault. fault ≡ out_of_memory) }
    {
        Ok(SnapList {
            living: Vec::with_capacity(alloc, snaps as usize)?,
            epoch: first_epoch,
            most: snaps,
        })
    }

    /// The list of the snapshots with these numbers, oldest first and without pins, in this epoch, with room for
    /// `snaps` snapshots.
    ///
    /// Costs the memory of `snaps` snapshots and one write for each number. The only error is `OutOfMemory`.
    pub fn rebuild(
        alloc: Global,
        snaps: u64,
        numbers: &[Epoch],
        epoch: Epoch,
    ) -> Result<SnapList, Fault>
        // The only error is `OutOfMemory`; callers give rising numbers below the epoch.
        requires rising { IsRising numbers.now }
        requires below_epoch { All (λ s. s < epoch) numbers.now }
        requires fits { length numbers.now ≤ snaps }
        requires some_epoch { 1 ≤ epoch }
        requires epoch_fits { epoch ≤ NUMBER }
        // A list anew has the snapshots of exactly its numbers, none of them pinned, and the epoch.
        ensures ok { IfOk result (λ list. list
            ≡ record { living = map unpinned numbers.now; epoch = epoch; most = snaps }) }
        ensures err { FailsOnly out_of_memory result }
    {
        let mut living = Vec::with_capacity(alloc, snaps as usize)?;
        for number in numbers {
            living.push_reserved(Snapshot {
                number: *number,
                pins: 0,
            });
        }
        Ok(SnapList {
            living,
            epoch,
            most: snaps,
        })
    }

    /// Makes a snapshot of the current epoch, which is its number, and begins the next epoch.
    ///
    /// Costs one write. `EpochLimit` where the epoch is 2^62, before `TooManySnapshots` where there is no room.
    pub fn make(&mut self) -> Result<Epoch, Fault>
        // The last epoch is refused first, then too many snapshots.
        ensures made { IsOk result ↔ ((self.old.epoch < NUMBER) × (length self.old.living < self.old.most)) }
        ensures epoch_limit { (result ≡ Err Fault.EpochLimit) ↔ (self.old.epoch ≡ NUMBER) }
        ensures too_many { (result ≡ Err Fault.TooManySnapshots) ↔
            ((self.old.epoch < NUMBER) × (length self.old.living ≡ self.old.most)) }

        // Making a snapshot of the current epoch begins the next one.
        ensures number { IfOk result (λ s. s ≡ self.old.epoch) }
        ensures ok { OnOk result (self.new ≡ after_making self.old) }
        // A refusal changes nothing.
        ensures err { OnErr result (self.new ≡ self.old) }
    {
        if self.epoch.number() == limits::NUMBER {
            return Err(Fault::EpochLimit);
        }
        if self.room() == 0 {
            return Err(Fault::TooManySnapshots);
        }
        let number = self.epoch;
        self.living.push_reserved(Snapshot { number, pins: 0 });
        self.epoch = number.next();
        Ok(number)
    }

    /// Removes the snapshot `s`.
    ///
    /// Costs one look-up and a move of the younger snapshots. `NoSnapshot` where it doesn't live, before `Pinned`
    /// where it has pins.
    pub fn remove(&mut self, s: Epoch) -> Result<(), Fault>
        // A pinned snapshot is refused by `Pinned`, and any other is removed.
        ensures removed { IsOk result ↔ (pins_of self.old s ≡ Some 0) }
        // A missing snapshot is refused by `NoSnapshot`.
        ensures no_snapshot { (result ≡ Err Fault.NoSnapshot) ↔ (pins_of self.old s ≡ None) }
        ensures pinned { (result ≡ Err Fault.Pinned) ↔ IsSomeAnd (pins_of self.old s) (λ pins. 0 < pins) }

        ensures ok { OnOk result (self.new ≡ after_removal self.old s) }
        ensures numbers { OnOk result (ids self.new ≡ without s (ids self.old)) }
        // A refusal changes nothing.
        ensures err { OnErr result (self.new ≡ self.old) }
    {
        let Some(place) = place_of(&self.living, s) else {
            return Err(Fault::NoSnapshot);
        };
        if self.living[place].pins > 0 {
            return Err(Fault::Pinned);
        }
        let _removed = self.living.remove(place);
        Ok(())
    }

    /// Adds a pin to the snapshot `s`, or answers `NoSnapshot` where it doesn't live. [`SnapList::can_pin`]
    /// tests whether one more is allowed. Costs one look-up.
    pub fn pin(&mut self, s: Epoch) -> Result<(), Fault>
        // Callers ask for a pin only where the snapshot can take one more.
        requires { ForSome (pins_of self.old s) (λ pins. pins < PINS) }
        // Pinning adds one pin to a living snapshot, and `NoSnapshot` refuses a missing one.
        ensures pinned { IsOk result ↔ IsSome (pins_of self.old s) }
        ensures no_snapshot { IfErr result (λ fault. fault ≡ Fault.NoSnapshot) }

        ensures ok { OnOk result (self.new ≡ after_pin self.old s) }
        ensures numbers { ids self.new ≡ ids self.old }
        ensures err { OnErr result (self.new ≡ self.old) }
    {
        match place_of(&self.living, s) {
            Some(place) => {
                self.living[place].pins += 1;
                Ok(())
            }
            None => Err(Fault::NoSnapshot),
        }
    }

    /// Takes a pin from the snapshot `s`. Costs one look-up.
    pub fn unpin(&mut self, s: Epoch)
        requires { IsSomeAnd (pins_of self.old s) (λ pins. 0 < pins) }
        // Unpinning takes one pin off its snapshot.
        ensures unpinned { self.new ≡ after_unpin self.old s }
        ensures numbers { ids self.new ≡ ids self.old }
    {
        let Some(place) = place_of(&self.living, s) else {
            unreachable!();
        };
        self.living[place].pins -= 1;
    }

    /// The youngest living snapshot that holds what lived from `birth` to `death`: the greatest `s` with
    /// `birth <= s < death`. Costs one look-up.
    pub fn youngest_in(&self, birth: Epoch, death: Epoch) -> Option<Epoch>
        // The youngest holder of what was born and died at two epochs is told.
        ensures { result ≡ youngest_holder (ids self.now) birth death }
    {
        let youngest = youngest_below(&self.living, death)?;
        if youngest < birth {
            return None;
        }
        Some(youngest)
    }

    /// The youngest living snapshot below `s`. Costs one look-up.
    pub fn older(&self, s: Epoch) -> Option<Epoch>
        // The next older snapshot is told.
        ensures { result ≡ next_older (ids self.now) s }
    {
        youngest_below(&self.living, s)
    }

    /// The place of the snapshot `s` among the living ones, oldest first and counted from 0, if it lives. The
    /// snapshot at the place before it is the next older one. Costs one look-up.
    pub fn place(&self, s: Epoch) -> Option<usize>
        // The place of a snapshot is told, or none where it does not live.
        ensures in_range { IfSome result (λ place. place < length (ids self.now)) }
        ensures found { IfSome result (λ place. slice_index (ids self.now) place ≡ s) }
        // The next older snapshot stands at the place before.
        ensures oldest { IfSome result (λ place. place ≡ 0 → next_older (ids self.now) s ≡ None) }
        ensures older { IfSome result (λ place. 0 < place →
            next_older (ids self.now) s ≡ Some (slice_index (ids self.now) (place - 1))) }
        ensures absent { IfNone result (pins_of self.now s ≡ None) }
    {
        place_of(&self.living, s)
    }

    /// Whether the snapshot `s` lives. Costs one look-up.
    pub fn has(&self, s: Epoch) -> bool
        ensures lives { IsTrue result ↔ Contains (ids self.now) s }
        ensures pins { IsTrue result ↔ IsSome (pins_of self.now s) }
    {
        self.pins(s).is_some()
    }

    /// The pins of the snapshot `s`, if it lives. Costs one look-up.
    pub fn pins(&self, s: Epoch) -> Option<u32>
        // How many pins a snapshot has is told, never more than `PINS`.
        ensures value { result ≡ pins_of self.now s }
        ensures most { IfSome result (λ pins. pins ≤ PINS) }
    {
        let place = place_of(&self.living, s)?;
        Some(self.living[place].pins)
    }

    /// Whether the snapshot `s` lives and has fewer than [`limits::PINS`] pins. Costs one look-up.
    pub fn can_pin(&self, s: Epoch) -> bool
        // A living snapshot may take one more pin exactly where it has fewer than `PINS`.
        ensures { IsTrue result ↔ IsSomeAnd (pins_of self.now s) (λ pins. pins < PINS) }
    {
        self.pins(s).is_some_and(|pins| pins < limits::PINS)
    }

    /// The numbers of the living snapshots, oldest first. Costs one read each.
    pub fn ids(&self) -> Ids<'_>
        // Readers tell the living snapshots.
        ensures { result ≡ ids self.now }
    {
        Ids::new(&self.living)
    }

    /// The living snapshots, oldest first. Costs one read.
    pub fn snapshots(&self) -> &[Snapshot]
        ensures all { result.now ≡ self.now.living }
        ensures sound { IsSound self.now }
    {
        self.living.as_slice()
    }

    /// The current epoch, which the next snapshot will close. Costs one read.
    pub fn epoch(&self) -> Epoch
        ensures value { result ≡ self.now.epoch }
        ensures sound { IsSound self.now }
    {
        self.epoch
    }

    /// What holds of each list: the numbers of the living snapshots rise, none is of the current epoch or a later one, and
    /// no more live than may. Costs nothing.
    pub fn rises(&self)
        // What holds of each list of snapshots is told.
        ensures { IsSound self.now }
    {
        let _epoch = self.epoch();
    }

    /// How many snapshots live. Costs one read.
    pub fn len(&self) -> u64
        ensures value { result ≡ length self.now.living }
        ensures fits { result ≤ self.now.most }
    {
        self.living.len() as u64
    }

    /// Whether no snapshot lives. Costs one read.
    pub fn is_empty(&self) -> bool
        ensures { IsTrue result ↔ (self.now.living ≡ []) }
    {
        self.living.is_empty()
    }

    /// How many snapshots may live at most. Costs one read.
    pub fn most(&self) -> u64
        ensures { result ≡ self.now.most }
    {
        self.most
    }

    /// How many more snapshots may live. Costs one read.
    pub fn room(&self) -> u64
        // Readers tell the epoch, the number of snapshots, the room for more and the most.
        ensures { result + length self.now.living ≡ self.now.most }
    {
        self.most - self.len()
    }
}
