//! The inode that a device begins with.

ghost use Rattle.std.specs.Prelude.{◌≡◌, ◌<◌, ◌^◌, IfErr, OnOk, length};
ghost use Rattle.nv_base.specs.Memory.{out_of_memory};
ghost use Rattle.nv_log.specs.Chain.{empty_chain};
ghost use Rattle.nv_cell.specs.Append.{first_entry, founded};

use crate::InodeCell;
use nv_alloc::{Block, BlockQueue};
use nv_base::{CommitNo, EntryId, Epoch, Fault, Kind, Mode};
use nv_entry::{Entry, Item};

impl InodeCell {
    /// Makes an empty slot the inode that a device begins with: the page is the first of its log, with one published
    /// entry, of commit 0. No commit made it, so that the version stays.
    ///
    /// `OutOfMemory`, with the page, where a growth was refused: then nothing has changed but room.
    pub fn found(
        &mut self,
        kind: Kind,
        mode: Mode,
        epoch: Epoch,
        page: Block,
    ) -> Result<(), (Fault, Block)>
        requires empty { self.old.state.chain ≡ empty_chain self.old.state.chain.page }
        requires version { self.old.state.version < 2 ^ 62 }
        requires sized { length page.bytes ≡ self.old.state.block }
        // The inode that a device begins with has one published entry, of commit 0.
        // The version of the inode that a device begins with stays.
        ensures ok { OnOk result
            (self.new.state ≡ founded (first_entry kind mode epoch) page self.old.state) }
        // Where memory is refused to it, its log page comes back.
        ensures err { IfErr result (λ refused. (refused.0 ≡ out_of_memory) × (refused.1 ≡ page)
            × (self.new.state ≡ self.old.state)) }
    {
        if let Err(fault) = self.ready(&[Item::Init { kind, mode }]) {
            return Err((fault, page));
        }
        self.holds_together();
        self.add_page(page);
        let mut none = BlockQueue::new(self.alloc, self.block as usize);
        self.append(first_entry(kind, mode, epoch), &mut none);
        none.dismantle();
        let _killed = self.publish();
        self.version -= 1;
        Ok(())
    }
}

/// The first entry of its log.
fn first_entry(kind: Kind, mode: Mode, epoch: Epoch) -> Entry
    ensures { result ≡ first_entry kind mode epoch }
{
    Entry {
        id: EntryId {
            commit: CommitNo::new(0),
            place: 0,
        },
        epoch,
        item: Item::Init { kind, mode },
    }
}
