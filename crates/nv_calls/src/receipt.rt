//! What a commit tells of itself.

ghost use Rattle.std.specs.Prelude.{◌≡◌, ◌≤◌, None, length};
ghost use Rattle.nv_calls.specs.Commit.{receipt_of};

use crate::{Commit, Stamp, Update};
use nv_alloc::Hand;
use nv_base::{CommitNo, Epoch, Handle};
use nv_journal::OldTail;
use smallvec::SmallVec;
use std::marker::Model;

/// That a call was committed, with the number and the epoch of its commit. Only [`crate::commit_on`] makes one, and it
/// can't be copied.
/// A receipt can't be copied, and nothing else makes one, by its private fields.
#[derive(Debug, Drop)]
pub struct Receipt {
    update: Update,
    stamp: Stamp,
    made: Option<Handle>,
    noted: SmallVec<OldTail, 4>,
}

impl Model for Receipt {
    ghost use Rattle.nv_calls.specs.Commit.{ReceiptValue};

    ghost Value = { ReceiptValue };

    ghost view = { λ r. record {
      update = r.update;
      stamp = r.stamp;
      made = r.made;
      noted = r.noted.items;
    } };
}

impl Receipt {
    /// The call.
    pub fn update(&self) -> &Update
        // A receipt has the call, the number and epoch of its commit, and the handle made.
        ensures { result.now ≡ self.now.update }
    {
        &self.update
    }

    /// The number of the commit.
    pub fn commit(&self) -> CommitNo
        ensures { result ≡ self.now.stamp.commit }
    {
        self.stamp.commit
    }

    /// The epoch of its entries.
    pub fn epoch(&self) -> Epoch
        ensures { result ≡ self.now.stamp.epoch }
    {
        self.stamp.epoch
    }

    /// The handle of the inode that the call made, if it made one.
    pub fn made(&self) -> Option<Handle>
        ensures { result ≡ self.now.made }
    {
        self.made
    }

    /// The inodes that got entries, with the old tails that the journal noted before they were published: none where
    /// that was one inode, which needs no journal.
    pub fn noted(&self) -> &[OldTail]
        // A receipt has the old tails that the journal noted of all its cells, where they are two or more.
        ensures { result.now ≡ self.now.noted }
    {
        self.noted.as_slice()
    }
}

impl Commit {
    /// The receipt of a commit whose steps are all done, and what the hand still holds. The steps know no more of
    /// the cells than each asks, so it is not for the public: who goes step by step could lend each step other
    /// cells. Takes no memory.
    pub(crate) fn finish(self) -> (Receipt, Hand)
        requires retired { self.retired ≡ length self.plans }
        requires closed { self.journal ≡ None }
        requires noted { 2 ≤ length self.plans → length self.noted ≡ length self.plans }
        ensures receipt { result.0 ≡ receipt_of self }
        ensures hand { result.1 ≡ self.hand }
    {
        let Commit {
            alloc: _,
            update,
            made,
            plans: _,
            hand,
            stamp,
            place: _,
            appended: _,
            published: _,
            retired: _,
            journal: _,
            noted,
        } = self;
        (
            Receipt {
                update,
                stamp,
                made,
                noted,
            },
            hand,
        )
    }
}
