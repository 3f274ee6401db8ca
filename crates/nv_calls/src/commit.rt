//! A commit on its way.

ghost use Rattle.std.specs.Prelude.{◌≡◌, ◌<◌, ◌⊎◌, [], None, length, slice_set};
ghost use Rattle.nv_calls.specs.Commit.{begun, stamp_of};
ghost use Rattle.nv_calls.specs.Ready.{plan_at};

use crate::{CellCommit, Ready, Stamp, Update};
use nv_alloc::Hand;
use nv_base::Handle;
use nv_book::Book;
use nv_cell::KilledPart;
use nv_entry::Item;
use nv_journal::OldTail;
use smallvec::SmallVec;
use std::alloc::Global;
use std::marker::Model;
use std::mem;

/// A call whose commit was entered, with how far its steps have come. Each step goes on with the next of its cells, by
/// rising number, and all make one commit, of one number and epoch. It is no `Drop`, since it owns blocks.
pub struct Commit {
    pub(crate) alloc: Global,
    pub(crate) update: Update,
    pub(crate) made: Option<Handle>,
    // By rising place of the cells.
    pub(crate) plans: Vec<CellCommit>,
    pub(crate) hand: Hand,
    pub(crate) stamp: Stamp,
    // How many entries are appended.
    pub(crate) place: u32,
    // Of how many cells the entries are appended, of how many they are published, and of how many what they killed is
    // retired.
    pub(crate) appended: usize,
    pub(crate) published: usize,
    pub(crate) retired: usize,
    // The CPU whose journal it has open, and what it noted there, which stays when that is closed.
    pub(crate) journal: Option<u64>,
    pub(crate) noted: SmallVec<OldTail, 4>,
}

impl Model for Commit {
    ghost use Rattle.nv_calls.specs.Commit.{CommitValue};

    ghost Value = { CommitValue };

    ghost view = { λ c. record {
      update = c.update;
      made = c.made;
      plans = c.plans.items;
      hand = c.hand;
      stamp = c.stamp;
      place = c.place;
      appended = c.appended;
      published = c.published;
      retired = c.retired;
      journal = c.journal;
      noted = c.noted.items;
    } };
}

impl Commit {
    /// Begins the book's latest commit with what is ready: it has that commit's number, and the present epoch. Takes no
    /// memory.
    pub fn begin(ready: Ready, book: &Book) -> Commit
        // A commit begins with what is ready.
        // A commit has the number and epoch of the book's latest commit, which all its entries get.
        ensures { result ≡ begun (stamp_of book.now.state) ready }
    {
        let commit = book.commit();
        let epoch = book.snaps().epoch();
        ready.begin(Stamp { commit, epoch })
    }

    /// What its steps left in the hand of a commit that is made step by step, or given up before anything is published:
    /// what was appended by then stays past the tails, with its blocks. Takes no memory.
    pub fn into_hand(self) -> Hand
        // Callers give a commit up only where nothing is published or all is retired, with no journal open.
        requires nothing_killed { (self.published ≡ 0) ⊎ (self.retired ≡ length self.plans) }
        requires closed { self.journal ≡ None }
        // A commit that is given up gives back what is left of its hand.
        ensures { result ≡ self.hand }
    {
        self.abandon()
    }

    /// The hand alone, wherever the commit stands: for a machine that stops. Takes no memory.
    #[inline(always)]
    pub fn abandon(self) -> Hand
        ensures { result ≡ self.hand }
    {
        let Commit {
            alloc: _,
            update: _,
            made: _,
            plans: _,
            hand,
            stamp: _,
            place: _,
            appended: _,
            published: _,
            retired: _,
            journal: _,
            noted: _,
        } = self;
        hand
    }

    /// Takes the commit apart with all that its hand holds: for the owner of a whole device that is let go. The blocks
    /// that its cells took from the hand are theirs.
    /// Only tested: with a whole device that is let go, a commit is taken apart; its blocks are let go.
    pub fn dismantle(self) {
        self.abandon().dismantle();
    }

    /// How many cells get entries.
    pub fn planned(&self) -> usize
        ensures { result ≡ length self.now.plans }
    {
        self.plans.len()
    }

    /// Number and epoch of all its entries.
    pub fn stamp(&self) -> &Stamp
        ensures { result.now ≡ self.now.stamp }
    {
        &self.stamp
    }

    /// The place of a planned cell among the call's cells.
    pub fn place_of(&self, j: usize) -> usize
        requires { j < length self.now.plans }
        ensures { result ≡ (plan_at self.now.plans j).at }
    {
        self.plans[j].at
    }

    /// Takes the items of a plan out.
    pub(crate) fn take_items(&mut self, j: usize) -> Vec<Item>
        requires { j < length self.old.plans }
        ensures items { result.items ≡ (plan_at self.old.plans j).items }
        ensures rest { self.new ≡ record self.old {
          plans = slice_set self.old.plans j (record (plan_at self.old.plans j) { items = [] });
        } }
    {
        let plan = &mut self.plans[j];
        mem::replace(&mut plan.items, Vec::new(self.alloc))
    }

    /// Keeps the parts that the publish of a plan's entries killed.
    pub(crate) fn keep_killed(&mut self, j: usize, killed: Vec<KilledPart>)
        requires { j < length self.old.plans }
        ensures { self.new ≡ record self.old {
          plans = slice_set self.old.plans j
              (record (plan_at self.old.plans j) { killed = killed.items });
        } }
    {
        let plan = &mut self.plans[j];
        plan.killed = killed;
    }

    /// Takes these parts out.
    pub(crate) fn take_killed(&mut self, j: usize) -> Vec<KilledPart>
        requires { j < length self.old.plans }
        ensures killed { result.items ≡ (plan_at self.old.plans j).killed }
        ensures rest { self.new ≡ record self.old {
          plans = slice_set self.old.plans j (record (plan_at self.old.plans j) { killed = [] });
        } }
    {
        let plan = &mut self.plans[j];
        mem::replace(&mut plan.killed, Vec::new(self.alloc))
    }
}
