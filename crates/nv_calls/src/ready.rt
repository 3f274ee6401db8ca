//! A call that is ready to be committed.

ghost use Rattle.std.specs.Prelude.{◌≡◌, ◌<◌, length, []};
ghost use Rattle.nv_calls.specs.Commit.{begun};
ghost use Rattle.nv_calls.specs.Ready.{plan_at};

use crate::{Commit, Stamp, Update};
use nv_alloc::Hand;
use nv_base::Handle;
use nv_cell::KilledPart;
use nv_entry::Item;
use smallvec::SmallVec;
use std::alloc::Global;
use std::marker::Model;

/// What a call appends to the log of one of its cells, and the parts that the publish of it killed.
#[derive(Debug, Drop)]
pub struct CellCommit {
    // The place of the cell among the call's cells.
    pub(crate) at: usize,
    pub(crate) items: Vec<Item>,
    pub(crate) killed: Vec<KilledPart>,
}

impl Model for CellCommit {
    ghost use Rattle.nv_calls.specs.Ready.{CellCommitValue};

    ghost Value = { CellCommitValue };

    ghost view = { λ p. record { at = p.at; items = p.items.items; killed = p.killed.items } };
}

/// A call that is ready to be committed: every growth is made, and it holds all blocks that it needs. It is no `Drop`,
/// since it owns these blocks: a commit hands out what is left of them, or [`Ready::into_hand`] all.
pub struct Ready {
    pub(crate) alloc: Global,
    pub(crate) update: Update,
    pub(crate) made: Option<Handle>,
    // By rising place of the cells.
    pub(crate) plans: Vec<CellCommit>,
    pub(crate) hand: Hand,
    pub(crate) need: u64,
}

impl Model for Ready {
    ghost use Rattle.nv_calls.specs.Ready.{ReadyValue};

    ghost Value = { ReadyValue };

    ghost view = { λ r. record {
      update = r.update;
      made = r.made;
      plans = r.plans.items;
      hand = r.hand;
      need = r.need;
    } };
}

impl CellCommit {
    pub(crate) fn new(alloc: Global, at: usize, items: Vec<Item>) -> CellCommit
        ensures { result ≡ record { at = at; items = items.items; killed = [] } }
    {
        let killed = Vec::new(alloc);
        CellCommit { at, items, killed }
    }
}

impl Ready {
    pub(crate) fn new(
        alloc: Global,
        update: Update,
        made: Option<Handle>,
        plans: Vec<CellCommit>,
        hand: Hand,
        need: u64,
    ) -> Ready
        ensures update { result.update ≡ update }
        ensures made { result.made ≡ made }
        ensures plans { result.plans ≡ plans.items }
        ensures hand { result.hand ≡ hand }
        ensures need { result.need ≡ need }
    {
        Ready {
            alloc,
            update,
            made,
            plans,
            hand,
            need,
        }
    }

    /// The hand of a call that is given up before its commit. Takes no memory.
    pub fn into_hand(self) -> Hand
        // A call that is given up before its commit gives its hand back.
        ensures { result ≡ self.hand }
    {
        let Ready {
            alloc: _,
            update: _,
            made: _,
            plans: _,
            hand,
            need: _,
        } = self;
        hand
    }

    /// Takes the call apart with all that its hand holds: for the owner of a whole device that is let go.
    /// Only tested: with a whole device that is let go, a ready call is taken apart; its blocks are let go.
    pub fn dismantle(self) {
        self.into_hand().dismantle();
    }

    /// The call.
    pub fn update(&self) -> &Update
        ensures { result.now ≡ self.now.update }
    {
        &self.update
    }

    /// How many cells get entries.
    pub fn planned(&self) -> usize
        ensures { result ≡ length self.now.plans }
    {
        self.plans.len()
    }

    /// The place of a cell that gets entries among the call's cells.
    pub fn place_of(&self, j: usize) -> usize
        requires { j < length self.now.plans }
        // The place of a planned cell is told.
        ensures { result ≡ (plan_at self.now.plans j).at }
    {
        self.plans[j].at
    }

    /// For how many records the commit needs room in the book, as [`nv_book::Book::enter`] is told: one for each part
    /// that it may kill.
    pub fn need(&self) -> u64
        // For how many records a commit needs room is told before it: the most parts that its entries kill.
        ensures { result ≡ self.now.need }
    {
        self.need
    }

    /// Begins the commit that has this number and epoch. Takes no memory.
    pub(crate) fn begin(self, stamp: Stamp) -> Commit
        ensures { result ≡ begun stamp self }
    {
        let Ready {
            alloc,
            update,
            made,
            plans,
            hand,
            need: _,
        } = self;
        Commit {
            alloc,
            update,
            made,
            plans,
            hand,
            stamp,
            place: 0,
            appended: 0,
            published: 0,
            retired: 0,
            journal: None,
            noted: SmallVec::new(alloc),
        }
    }
}
