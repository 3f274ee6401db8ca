//! Shares and notes that come back.

ghost use Rattle.std.specs.Prelude.{◌≡◌, ℕ, ◌+◌, ◌≤◌, All, slice_index, sum_by, vec_len};
ghost use Rattle.nv_sessions.specs.UnlockedParts.{IsKnown};

use crate::names::{Blocks, Commits, SnapLedger};
use crate::passes::{Fresh, Notes};
use crate::seat::Seat;
use crate::seats::FreeSeat;
use crate::session::Session;
use crate::unlocked_parts::{BesideCell, BesideList};
use std::sync::ledger::Share;
use std::sync::{Mutex, Wait};

/// Takes all sessions in: their commits, their makings and drops of snapshots, the blocks of their hands, and what they
/// have seen.
pub(crate) fn gather_sessions<C: Commits, B: Blocks>(
    fresh: &Fresh<C>,
    sessions: Vec<Session<C, B>>,
    commits: &mut Share<C>,
    snapped: &mut Share<SnapLedger<C>>,
    blocks: &mut Share<B>,
    notes: &mut Notes<C>,
)
    ensures parts { commits.new.parts ≡ commits.old.parts + vec_len sessions }
    ensures amount { commits.new.amount
        ≡ commits.old.amount + sum_by (λ s. s.commits) sessions.items }
    ensures snap_parts { snapped.new.parts ≡ snapped.old.parts + vec_len sessions }
    ensures snap_amount { snapped.new.amount
        ≡ snapped.old.amount + sum_by (λ s. s.snapped) sessions.items }
    ensures block_parts { blocks.new.parts ≡ blocks.old.parts + vec_len sessions }
    ensures block_amount { blocks.old.amount ≤ blocks.new.amount }
    ensures before { (i : ℕ) → slice_index notes.old i ≤ slice_index notes.new i }
    ensures seen { All (λ s. (i : ℕ) → slice_index s.seen i ≤ slice_index notes.new i)
        sessions.items }
{
    for session in sessions {
        let (seat, counted) = session.into_seat();
        let Seat {
            number: _,
            commits: made,
            blocks: held,
            notes: seen,
            asking: _,
            giving: _,
        } = seat;
        commits.merge(made);
        snapped.merge(counted);
        blocks.merge(held);
        notes.join(fresh, seen.into_notes());
    }
}

/// Takes in the parts of the seats that no session had.
pub(crate) fn gather_seats<C: Commits, B: Blocks>(
    seats: Vec<Mutex<FreeSeat<C, B>>>,
    commits: &mut Share<C>,
    snapped: &mut Share<SnapLedger<C>>,
    blocks: &mut Share<B>,
)
    ensures parts { commits.new.parts ≡ commits.old.parts + vec_len seats }
    ensures amount { commits.new.amount ≡ commits.old.amount }
    ensures snap_parts { snapped.new.parts ≡ snapped.old.parts + vec_len seats }
    ensures snap_amount { snapped.new.amount ≡ snapped.old.amount }
    ensures block_parts { blocks.new.parts ≡ blocks.old.parts + vec_len seats }
    ensures block_amount { blocks.new.amount ≡ blocks.old.amount }
{
    for seat in seats {
        let FreeSeat {
            commits: none,
            snapped: no_snapshot,
            blocks: held,
            notes: _,
        } = seat.into_inner();
        commits.merge(none);
        snapped.merge(no_snapshot);
        blocks.merge(held);
    }
}

/// Takes in what lay beside the cells. Nobody who told these notes has seen more than the cells have.
pub(crate) fn gather_cells<C: Commits, B: Blocks, R: Wait>(
    rt: &R,
    fresh: &Fresh<C>,
    notes: &mut Notes<C>,
    rests: Vec<BesideCell<C, B>>,
    blocks: &mut Share<B>,
)
    ensures parts { blocks.new.parts ≡ blocks.old.parts + vec_len rests }
    ensures amount { blocks.new.amount ≡ blocks.old.amount + sum_by (λ r. r.blocks) rests.items }
    ensures notes { notes.new ≡ notes.old }
    ensures met { All (IsKnown C.opened notes.old) rests.items }
{
    for rest in rests {
        let BesideCell {
            slot: _,
            ino: _,
            blocks: held,
            mut owner,
        } = rest;
        owner.check_seen(rt, fresh, notes);
        blocks.merge(held);
    }
}

/// Takes in what lay beside the lists.
pub(crate) fn gather_lists<B: Blocks>(rests: Vec<BesideList<B>>, blocks: &mut Share<B>)
    ensures parts { blocks.new.parts ≡ blocks.old.parts + vec_len rests }
    ensures amount { blocks.new.amount ≡ blocks.old.amount + sum_by (λ r. r) rests.items }
{
    for rest in rests {
        let BesideList { blocks: held } = rest;
        blocks.merge(held);
    }
}
