//! A session: a seat at the service, with its hand.

ghost use Rattle.std.specs.Prelude.{◌≡◌};
ghost use Rattle.nv_sessions.specs.Sessions.{IsGivenBack};

use crate::cell_list::CellList;
use crate::names::{Blocks, Commits, SnapLedger};
use crate::seat::Seat;
use nv_alloc::Hand;
use std::alloc::Global;
use std::marker::Model;
use std::sync::ledger::Share;

/// A session makes calls on the service, one after another, from any thread. It keeps the blocks and the inode number that
/// no list and no pool took back: as long as there are any, a call that needs blocks is refused.
pub struct Session<C: Commits, B: Blocks> {
    pub(crate) alloc: Global,
    pub(crate) seat: Seat<C, B>,
    pub(crate) snapped: Share<SnapLedger<C>>,
    pub(crate) hand: Hand,
    /// Room for the cells of a call, made once.
    pub(crate) list: CellList,
}

impl<C: Commits, B: Blocks> Model for Session<C, B> {
    ghost use Rattle.std.specs.Prelude.{◌≡◌, length};
    ghost use Rattle.nv_alloc.specs.Hand.{blocks_of};
    ghost use Rattle.nv_sessions.specs.Sessions.{IsGivenBack, SessionValue, held_by};
    ghost use Rattle.nv_sessions.specs.Taken.{IsRoom};

    ghost Value = { SessionValue };

    ghost view = { λ s. record {
      number = s.seat.number;
      commits = s.seat.commits.amount;
      snapped = s.snapped.amount;
      seen = s.seat.notes;
      held = held_by s.hand s.seat.giving;
    } };

    // It has one part of each ledger, as many blocks as its hand, and room for the cells of a call. Nothing is in the hand,
    // except where a list or the pool has refused some of it.
    ghost invariant = { λ s. (s.seat.commits.parts ≡ 1)
        × (s.seat.blocks.parts ≡ 1)
        × (s.snapped.parts ≡ 1)
        × (s.seat.blocks.amount ≡ length (blocks_of s.hand))
        × IsGivenBack (held_by s.hand s.seat.giving)
        × IsRoom s.list };
}

impl<C: Commits, B: Blocks> Session<C, B> {
    /// What holds of each session: its hand is empty, except where a list or the pool refused what is left. Costs nothing.
    pub(crate) fn keeps_only_what_was_refused(&self)
        ensures { IsGivenBack self.now.held }
    {
        let _ = &self.hand;
    }

    /// The seat, and the share of makings and drops of snapshots. What the hand holds ends here.
    pub(crate) fn into_seat(self) -> (Seat<C, B>, Share<SnapLedger<C>>)
        ensures parts { (result.0.commits.parts ≡ 1) × (result.0.blocks.parts ≡ 1) }
        ensures commits { result.0.commits.amount ≡ self.commits }
        ensures snapped { (result.1.parts ≡ 1) × (result.1.amount ≡ self.snapped) }
        ensures seen { result.0.notes ≡ self.seen }
    {
        let Session {
            alloc: _,
            seat,
            snapped,
            hand,
            list: _,
        } = self;
        hand.dismantle();
        (seat, snapped)
    }
}

impl<C: Commits, B: Blocks> Drop for Session<C, B> {
    /// What the hand holds ends here.
    fn drop(self) {
        let Session {
            alloc: _,
            seat: _,
            snapped: _,
            hand,
            list: _,
        } = self;
        hand.dismantle();
    }
}
