//! The logs of slots, with what trees, histories and deaths ask beside them.

ghost use Rattle.std.specs.Prelude.{◌≡◌, ◌<◌, IfOk, map};
ghost use Rattle.nv_entry.specs.Log.{IsLog};
ghost use Rattle.nv_log.specs.Chain.{place_of_id};
ghost use Rattle.nv_audit.specs.Logged.{logged};
ghost use Rattle.nv_audit.specs.Records.{states_of};

use nv_base::{EntryId, Gen};
use nv_cell::InodeCell;
use nv_entry::Entry;
use std::alloc::{AllocError, Global};
use std::marker::Model;

/// A log with the size of blocks and the generation of its inode: what a cell and a slot of an image have alike. Ids rise
/// along it, and epochs never fall.
#[derive(Drop)]
pub struct Logged<'a> {
    // Bytes of a block.
    block: u64,
    generation: Gen,
    log: &'a [Entry],
}

impl<'a> Model for Logged<'a> {
    ghost use Rattle.std.specs.Prelude.{◌<◌};
    ghost use Rattle.nv_entry.specs.Log.{IsLog};
    ghost use Rattle.nv_audit.specs.Logged.{LoggedValue};

    ghost Value = { LoggedValue };

    ghost view = { λ l. record { block = l.block; generation = l.generation; log = l.log.now } };

    // A block has at least one byte.
    // Ids rise and epochs never fall along its log.
    ghost invariant = { λ l. (0 < l.block) × IsLog l.log.now };
}

impl<'a> Logged<'a> {
    /// A log of blocks with so many bytes.
    pub fn new(block: u64, generation: Gen, log: &'a [Entry]) -> Logged<'a>
        requires block { 0 < block }
        requires rising { IsLog log.now }
        ensures { result ≡ record { block = block; generation = generation; log = log.now } }
    {
        Logged {
            block,
            generation,
            log,
        }
    }

    /// That of a cell.
    pub fn of(cell: &'a InodeCell) -> Logged<'a>
        ensures { result ≡ logged cell.now.state }
    {
        cell.holds_together();
        Logged::new(cell.block_bytes(), cell.generation(), cell.log().log())
    }

    /// How many bytes a block has.
    pub fn block_bytes(&self) -> u64
        ensures value { result ≡ self.now.block }
        ensures some { 0 < result }
    {
        self.block
    }

    /// The generation of the inode.
    pub fn generation(&self) -> Gen
        ensures { result ≡ self.now.generation }
    {
        self.generation
    }

    /// The entries.
    pub fn log(&self) -> &'a [Entry]
        ensures value { result.now ≡ self.now.log }
        ensures rising { IsLog result.now }
    {
        self.log
    }

    /// The place of the entry of that id. The time grows with the logarithm of the entries.
    pub fn place_of(&self, id: EntryId) -> Option<usize>
        ensures { result ≡ place_of_id self.now.log id }
    {
        self.log.binary_search_by(|entry| entry.id.cmp(&id)).ok()
    }
}

/// Those of cells.
pub(crate) fn logs_of(alloc: Global, cells: &[InodeCell]) -> Result<Vec<Logged<'_>>, AllocError>
    ensures { IfOk result (λ logs. logs.items ≡ map logged (states_of cells.now)) }
{
    let mut logs = Vec::new(alloc);
    for cell in cells {
        logs.push(Logged::of(cell))?;
    }
    Ok(logs)
}
