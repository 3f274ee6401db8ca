//! What a world reports of its snapshots.

ghost use Rattle.std.specs.Prelude.{◌≡◌, IfOk};
ghost use Rattle.nv_base.specs.Refusals.{FailsOnly};
ghost use Rattle.nv_base.specs.Memory.{out_of_memory};
ghost use Rattle.nv_machine.specs.World as machine;
ghost use Rattle.nv_core.specs.Reports.{snap_counts, snaps_of};
ghost use Rattle.nv_core.specs.Worlds.{Shows};

use crate::World;
use nv_base::{CommitNo, Epoch, Fault, Items};
use nv_book::Book;
use nv_epoch::Snapshot;
use std::alloc::Global;

/// A living snapshot: the blocks that it holds and that are no longer current, those that a drop puts on the deferred
/// list, and its pins.
#[derive(Clone, Copy, Debug, PartialEq, Eq)]
pub struct SnapCounts {
    pub snapshot: Epoch,
    pub held: u64,
    pub gain: u64,
    pub pins: u32,
}

/// The current epoch, the last commit, and the living snapshots, oldest first.
#[derive(Debug, Drop)]
pub struct Snaps {
    pub epoch: Epoch,
    pub commit: CommitNo,
    pub living: Items<SnapCounts>,
}

impl World {
    /// The snapshots. It goes over all runs of records twice, with two look-ups among the snapshots for each run, and
    /// makes a few for each snapshot.
    pub fn snaps(&self) -> Result<Snaps, Fault>
        // The current epoch, the last commit and the living snapshots, oldest first, are told.
        // The blocks that each snapshot holds, those that a drop would defer, and its pins are told.
        ensures ok { (m : machine.World) → Shows self.now m
            → IfOk result (λ snaps. snaps ≡ snaps_of m.shared.book) }
        // The only error is `OutOfMemory`.
        ensures err { FailsOnly out_of_memory result }
    {
        snaps_in(self.alloc, &self.shared.book)
    }
}

/// The snapshots of a book.
fn snaps_in(alloc: Global, book: &Book) -> Result<Snaps, Fault>
    ensures ok { IfOk result (λ snaps. snaps ≡ snaps_of book.now.state) }
    ensures err { FailsOnly out_of_memory result }
{
    let snapshots = book.snaps().snapshots();
    let held = book.held_by_each(alloc)?;
    let mut living = Vec::with_capacity(alloc, snapshots.len())?;
    for place in 0..snapshots.len() {
        living.push(counts_of(book, &snapshots[place], held[place]))?;
    }
    Ok(Snaps {
        epoch: book.epoch(),
        commit: book.commit(),
        living: Items::from_vec(living),
    })
}

/// One of them in numbers, with the blocks that it holds.
fn counts_of(book: &Book, snapshot: &Snapshot, held: u64) -> SnapCounts
    ensures { result ≡ record (snap_counts book.now.state snapshot.now) { held = held } }
{
    SnapCounts {
        snapshot: snapshot.number,
        held,
        gain: book.gain(snapshot.number),
        pins: snapshot.pins,
    }
}
