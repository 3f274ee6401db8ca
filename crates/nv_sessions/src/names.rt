//! What a service is generic over, and what names it.
//!
//! Two types stand for the ledgers of a service: one for those of commits and of snapshots, the other for that of blocks.
//! Shares are counted by them alone, so that those of one service never meet those of another.

ghost use Rattle.std.specs.Prelude.{◌≡◌, IfOk};
ghost use Rattle.nv_base.specs.Memory.{out_of_memory};
ghost use Rattle.nv_base.specs.Refusals.{FailsOnly};
ghost use Rattle.nv_sessions.specs.Names.{AreBlockNames, AreCommitNames, AreSnapshotNames, block_parts, commit_parts};

use crate::fresh::{FreshCell, FreshPass};
use crate::passes::{Fresh, Maker};
use nv_base::{Fault, Geometry, limits};
use std::alloc::Global;
use std::marker::{Brand, Model, PhantomData};
use std::sync::ledger;
use std::sync::ledger::{Blank, Ledger, Share};

/// The ledger of commits, and what stood when the service was opened.
pub trait Commits: Ledger {
    ghost use Rattle.std.specs.Prelude.{ℕ, List};
    ghost use Rattle.atomic_table.specs.Seated.{TableId};

    // Into how many parts the ledger is cut: `parts`, which no type with a share of the ledger may name.
    ghost whole: { ℕ };

    // The number of the last commit.
    ghost commit: { ℕ };

    // The epoch.
    ghost epoch: { ℕ };

    // How many snapshots lived.
    ghost living: { ℕ };

    // The version of each inode.
    ghost opened: { List ℕ };

    // The table of the freshness cell.
    ghost table: { TableId };

    // The ledger of makings and drops of snapshots, and into how many parts it is cut.
    ghost snap_name: { ℕ };

    ghost snap_parts: { ℕ };
}

impl Commits for Brand {
    ghost use Rattle.std.specs.Prelude.{[]};
    ghost use Rattle.nv_sessions.specs.Fresh.{no_table};

    ghost whole = { 0 };

    ghost commit = { 0 };

    ghost epoch = { 0 };

    ghost living = { 0 };

    ghost opened = { [] };

    ghost table = { no_table };

    ghost snap_name = { 0 };

    ghost snap_parts = { 0 };
}

/// The ledger of makings and drops of snapshots, beside that of commits.
pub struct SnapLedger<C: Commits> {
    of: PhantomData<C>,
}

impl<C: Commits> Ledger for SnapLedger<C> {
    ghost name = { C.snap_name };

    ghost parts = { C.snap_parts };
}

/// The ledger of blocks, in which each free list, each cell and each session has a share.
pub trait Blocks: Ledger {
    ghost use Rattle.std.specs.Prelude.{ℕ};

    // Into how many parts the ledger is cut: `parts`, which no type with a share of the ledger may name.
    ghost whole: { ℕ };

    // How many of these the cells and free lists have, one each.
    ghost placed: { ℕ };
}

impl Blocks for Brand {
    ghost whole = { 0 };

    ghost placed = { 0 };
}

/// The ledgers and the freshness cell of a service that is to be opened, which no types stand for yet.
#[derive(Drop)]
pub struct Ledgers {
    commits: Blank,
    snapshots: Blank,
    blocks: Blank,
    cell: FreshCell,
    pass: FreshPass,
}

impl Model for Ledgers {
    ghost use Rattle.std.specs.Prelude.{◌≡◌};
    ghost use Rattle.crossbeam_utils.specs.Seq.{cell_view};
    ghost use Rattle.nv_sessions.specs.Fresh.{maker};
    ghost use Rattle.nv_sessions.specs.Names.{LedgersValue, commit_parts};

    ghost Value = { LedgersValue };

    ghost view = { λ n. record {
      commits = record { name = n.commits.name; parts = n.commits.parts };
      snapshots = record { name = n.snapshots.name; parts = n.snapshots.parts };
      blocks = record { name = n.blocks.name; parts = n.blocks.parts };
      table = n.cell.table.shared.table_id;
    } };

    ghost invariant = { λ n. (n.pass.table_id ≡ n.cell.table.shared.table_id)
        × (cell_view n.pass ≡ maker 0)
        × (n.commits.parts ≡ commit_parts)
        × (n.snapshots.parts ≡ commit_parts) };
}

/// That the ledger of commits is cut into `whole` parts. A type with a share of the ledger may not say so: it has none.
#[derive(Drop)]
pub(crate) struct Cut<C: Commits> {
    of: PhantomData<C>,
    ghost all_parts: { C.whole ≡ C.parts },
}

/// What the names of a service open: the freshness cell with the pass that makes all others, and each ledger as a book
/// that counts and one share with all its parts.
pub(crate) struct Opened<C: Commits, B: Blocks> {
    pub(crate) cut: Cut<C>,
    pub(crate) fresh: Fresh<C>,
    pub(crate) maker: Maker<C>,
    pub(crate) commits: ledger::Book<C>,
    pub(crate) all_commits: Share<C>,
    pub(crate) snap_book: ledger::Book<SnapLedger<C>>,
    pub(crate) all_snapped: Share<SnapLedger<C>>,
    pub(crate) blocks: ledger::Book<B>,
    pub(crate) all_blocks: Share<B>,
}

impl Ledgers {
    /// Names for a service over a device with this geometry. The ledgers of commits and of snapshots have a part for each
    /// seat, the ledger of blocks one for each inode slot, each CPU and each seat, and all have one part more.
    ///
    /// The only error is `OutOfMemory`.
    pub fn new(alloc: Global, geometry: &Geometry) -> Result<Ledgers, Fault>
        // The ledger of blocks has a part for each inode slot, each CPU and each seat, and one more.
        ensures blocks { IfOk result (λ names. names.blocks.parts
            ≡ block_parts geometry.now.numbers) }
        ensures err { FailsOnly out_of_memory result }
    {
        let numbers = geometry.numbers;
        let seats = limits::ACTORS + 1;
        let (cell, pass) = FreshCell::ruled(alloc, [0])?;
        Ok(Ledgers {
            commits: Blank::new(seats),
            snapshots: Blank::new(seats),
            blocks: Blank::new(numbers.inodes + numbers.cpus + seats),
            cell,
            pass,
        })
    }

    /// Opens all ledgers, which count nothing yet, and hands out the first pass of the freshness cell. From here on the
    /// types stand for them.
    pub(crate) fn open<C: Commits, B: Blocks>(self, geometry: &Geometry) -> Opened<C, B>
        requires commits { AreCommitNames self C.name C.parts C.whole C.table }
        requires snapshots { AreSnapshotNames self C.snap_name C.snap_parts }
        requires blocks { AreBlockNames self B.name B.parts B.whole B.placed geometry.now.numbers }
        ensures maker { result.maker ≡ 0 }
        ensures commits { (result.commits.total ≡ 0) × (result.all_commits.amount ≡ 0) }
        ensures seats { (C.whole ≡ commit_parts) × (result.all_commits.parts ≡ commit_parts) }
        ensures snapshots { (result.snap_book.total ≡ 0) × (result.all_snapped.amount ≡ 0) }
        ensures snap_seats { (C.snap_parts ≡ commit_parts)
            × (result.all_snapped.parts ≡ commit_parts) }
        ensures blocks { (result.blocks.total ≡ 0) × (result.all_blocks.amount ≡ 0) }
        ensures parts { result.all_blocks.parts ≡ block_parts geometry.now.numbers }
    {
        let Ledgers {
            commits,
            snapshots,
            blocks,
            cell,
            pass,
        } = self;
        let (fresh, maker) = Fresh::named(cell, pass);
        let (commits, all_commits) = commits.open::<C>();
        let (snap_book, all_snapped) = snapshots.open::<SnapLedger<C>>();
        let (blocks, all_blocks) = blocks.open::<B>();
        Opened {
            cut: Cut { of: PhantomData },
            fresh,
            maker,
            commits,
            all_commits,
            snap_book,
            all_snapped,
            blocks,
            all_blocks,
        }
    }
}
