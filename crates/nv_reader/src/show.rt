//! The node that an inode is or was, by its cell.

ghost use Rattle.std.specs.Prelude.{◌≡◌, ◌≤◌, ℕ, IfOk, List, Option, option_map};
ghost use Rattle.std.specs.Option.{ForSome};
ghost use Rattle.nv_base.specs.Refusals.{FailsOnly};
ghost use Rattle.nv_cell.specs.Cell.{log_of};
ghost use Rattle.nv_cell.specs.Pages.{AreBytesOf};
ghost use Rattle.nv_entry.specs.Log.{up_to};
ghost use Rattle.nv_entry.specs.Node.{node_at, node_now};
ghost use Rattle.nv_reader.specs.Cells.{NoneOut, own_node, part_bytes, settled};
ghost use Rattle.nv_reader.specs.Nodes.{IsWhole, copy_in};
ghost use Rattle.nv_base.specs.Memory.{out_of_memory};

use crate::bytes::PartBlocks;
use crate::epochs::entries_to;
use crate::node::node_by;
use nv_base::{Epoch, Fault, Handle};
use nv_cell::InodeCell;
use nv_entry::{NodeCopy, PartId};
use std::alloc::Global;

impl PartBlocks for InodeCell {
    ghost bytes_of = { λ cell id. part_bytes cell.state id };

    fn bytes(&self, part: PartId) -> Option<&[u8]> {
        Some(self.block_of(part)?.bytes())
    }
}

/// The node at the end of an epoch; a page whose part is out shows zeros. None where the inode has no kind there.
/// `OutOfMemory` where room for it was refused.
///
/// Costs what it hands out, and three passes over the log's entries up to the epoch, however many pages they write: in
/// all in the order of these entries and the file's pages together, times the logarithm of the pages. The block of each
/// page is looked up, which grows with the logarithm of the log.
/// Only tested: the greatest file, of 65,536 file pages, is shown whole.
/// Only tested: the cost of showing a node ([gate.md](gate.md)).
pub fn show_on(alloc: Global, cell: &InodeCell, epoch: Epoch) -> Result<Option<NodeCopy>, Fault>
    // At an epoch a cell shows the node of its log there, by its own blocks.
    // A shown node has the pages and names of the epoch.
    // A shown node's pages end with its size.
    // Each page of a shown node has its last writer.
    // All pages of a block run have their last writer.
    ensures own { IfOk result (λ node. node
        ≡ own_node cell.now.state (up_to epoch (log_of cell.now.state))) }
    // Where no part that holds one of its pages is out, a shown node is that by the bytes of blocks.
    // No node is shown where the inode has no kind.
    ensures node { (bytes : ℕ → List ℕ) → AreBytesOf cell.now.state bytes
        → NoneOut cell.now.state (up_to epoch (log_of cell.now.state))
        → IfOk result (λ node. node
        ≡ node_at bytes cell.now.state.block epoch (log_of cell.now.state)) }
    // The only error is `OutOfMemory`.
    ensures err { FailsOnly out_of_memory result }
{
    // What a cell keeps of its log and its blocks.
    cell.holds_together();
    let log = entries_to(cell.log().log(), epoch);
    Ok(node_by(alloc, cell.block_bytes(), log, cell)?)
}

/// The node under a handle at the end of an epoch, by the cell of its slot, as [`show_on`] gives it. None where there is
/// no such slot, or the slot is of another generation. `OutOfMemory` where room for it was refused.
pub fn copy_on(
    alloc: Global,
    cell: Option<&InodeCell>,
    handle: &Handle,
    epoch: Epoch,
) -> Result<Option<NodeCopy>, Fault>
    // The node under a handle at an epoch is that of its inode slot's cell, in that generation only.
    // Where there is no such inode slot there is no node; the only error is `OutOfMemory`.
    ensures ok { (bytes : ℕ → List ℕ)
        → ForSome cell.entry (λ cell. IsWhole bytes epoch cell.now.state)
        → IfOk result (λ node. node
        ≡ copy_in bytes (option_map (λ cell. cell.now.state) cell.entry) epoch handle.now) }
    ensures err { FailsOnly out_of_memory result }
{
    match cell {
        Some(cell) if handle.generation == cell.generation() => show_on(alloc, cell, epoch),
        _ => Ok(None),
    }
}

/// The node now by the settled log: up to the tail that an open journal has noted, in entries, and else up to the log's
/// own, where the cell's index gives it. A page of the noted log whose part is out shows zeros; without a noted tail no
/// page's part is out. None where the inode has no kind there. `OutOfMemory` where room for it was refused.
///
/// Without a noted tail it costs what it hands out, with a look-up for each run of pages, and no pass over the log;
/// with one, as much as [`show_on`].
/// Only tested: where no tail is noted, no more entries are read than there are pages.
pub fn settled_on(
    alloc: Global,
    cell: &InodeCell,
    noted: Option<usize>,
) -> Result<Option<NodeCopy>, Fault>
    requires { ForSome noted (λ tail. tail ≤ cell.now.state.chain.tail) }
    // The settled log's node is that of the entries up to a noted tail.
    // The settled log's node is that of the whole log where no tail is noted.
    ensures own { IfOk result (λ node. node
        ≡ own_node cell.now.state (settled noted cell.now.state)) }
    ensures node { (bytes : ℕ → List ℕ) → AreBytesOf cell.now.state bytes
        → ForSome noted (λ tail. NoneOut cell.now.state (settled noted cell.now.state))
        → IfOk result (λ node. node
        ≡ node_now bytes cell.now.state.block (settled noted cell.now.state)) }
    // The wrong bodies of `show_on` break `settled_on` too; the only error is `OutOfMemory`.
    ensures err { FailsOnly out_of_memory result }
{
    let Some(tail) = noted else {
        return node_by_index(cell);
    };
    // What a cell keeps of its log and its blocks.
    cell.holds_together();
    let log = &cell.log().entries()[..tail];
    Ok(node_by(alloc, cell.block_bytes(), log, cell)?)
}

/// The node now by the cell's index.
fn node_by_index(cell: &InodeCell) -> Result<Option<NodeCopy>, Fault>
    ensures own { IfOk result (λ node. node
        ≡ own_node cell.now.state (log_of cell.now.state)) }
    ensures node { (bytes : ℕ → List ℕ) → AreBytesOf cell.now.state bytes
        → IfOk result (λ node. node ≡ node_now bytes cell.now.state.block (log_of cell.now.state)) }
    ensures err { FailsOnly out_of_memory result }
{
    // What a cell keeps of its log.
    cell.holds_together();
    let Some(stat) = cell.stat() else {
        return Ok(None);
    };
    Ok(Some(NodeCopy {
        kind: stat.kind,
        mode: stat.mode,
        size: stat.size,
        bytes: cell.read(0, stat.size)?,
        names: cell.list()?,
    }))
}
