//! What the events before those that a history keeps led to.

ghost use Rattle.std.specs.Prelude.{◌≡◌, ◌<◌, ◌≤◌, length, IfOk, OnOk};
ghost use Rattle.std.specs.List.{insert};
ghost use Rattle.nv_base.specs.Refusals.{FailsOnly};
ghost use Rattle.nv_book.specs.History.{before, put_back, state_now};
ghost use Rattle.nv_epoch.specs.Holders.{without};
ghost use Rattle.nv_base.specs.Memory.{out_of_memory};

use crate::Event;
use nv_base::{CommitNo, Epoch, Fault};
use nv_epoch::SnapList;
use std::alloc::Global;
use std::marker::Model;

/// An epoch, the number of the last commit, and the snapshots that lived then.
#[derive(Debug, Drop)]
pub struct Base {
    epoch: Epoch,
    commit: CommitNo,
    // Oldest first.
    living: Vec<Epoch>,
}

impl Model for Base {
    ghost use Rattle.nv_book.specs.History.{State};

    ghost Value = { State };

    ghost view = { λ b. record { epoch = b.epoch; commit = b.commit; living = b.living.items } };
}

/// Removes a snapshot.
fn remove(living: &mut Vec<Epoch>, s: Epoch)
    ensures { living.new.items ≡ without s living.old.items }
{
    living.retain(|t| *t != s);
}

/// The place before the first snapshot that is not below `s`.
fn place_for(living: &[Epoch], s: Epoch) -> usize
    ensures within { result ≤ length living.now }
    ensures place { insert living.now result s ≡ put_back s living.now }
{
    let mut place = 0;
    while place < living.len() && living[place] < s {
        place += 1;
    }
    place
}

impl Base {
    /// What all events together led to.
    pub(crate) fn now(alloc: Global, snaps: &SnapList, commit: CommitNo) -> Result<Base, Fault>
        ensures ok { IfOk result (λ base. base ≡ state_now snaps.now commit) }
        ensures err { FailsOnly out_of_memory result }
    {
        Ok(Base {
            epoch: snaps.epoch(),
            commit,
            living: snaps.ids().collect(alloc)?,
        })
    }

    /// Goes back to before the event.
    pub(crate) fn undo(&mut self, event: Event) -> Result<(), Fault>
        ensures ok { OnOk result (self.new ≡ before self.old event) }
        ensures err { FailsOnly out_of_memory result }
    {
        match event {
            Event::Committed { number, .. } => {
                self.commit = CommitNo::new(number.number().saturating_sub(1));
            }
            Event::Made(s) => {
                self.epoch = s;
                remove(&mut self.living, s);
            }
            Event::Dropped(s) => {
                let place = place_for(&self.living, s);
                self.living.insert(place, s)?;
            }
        }
        Ok(())
    }

    /// The epoch.
    pub fn epoch(&self) -> Epoch
        // The base tells its epoch, its commit number and its living snapshots.
        ensures { result ≡ self.now.epoch }
    {
        self.epoch
    }

    /// The number of the last commit.
    pub fn commit(&self) -> CommitNo
        ensures { result ≡ self.now.commit }
    {
        self.commit
    }

    /// The living snapshots, oldest first.
    pub fn living(&self) -> &[Epoch]
        ensures { result.now ≡ self.now.living }
    {
        self.living.as_slice()
    }
}
