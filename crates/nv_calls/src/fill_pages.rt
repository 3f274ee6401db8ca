//! The fresh blocks of a call, filled before its commit.

ghost use Rattle.std.specs.Prelude.{◌≡◌, ◌+◌, ◌-◌, ◌*◌, ◌/◌, ◌%◌, ◌<◌, ◌≤◌, ◌^◌, ℕ, List, [], ◌∷◌, IfErr, OnErr, OnOk, fold, length, map};
ghost use Rattle.std.specs.List.{AllByRecursion, range_with_len};
ghost use Rattle.std.specs.Option.{ForSome, option_copied};
ghost use Rattle.nv_alloc.specs.QueueLends.{with_bytes_at};
ghost use Rattle.nv_base.specs.declared.fault.Fault.TheVariants.{Read};
ghost use Rattle.nv_base.specs.declared.limits.TheConstants.{BLOCK_BYTES, FILE_PAGES};
ghost use Rattle.nv_entry.specs.Sound.{IsSound};
ghost use Rattle.nv_cell.specs.Pages.{slot_bytes};
ghost use Rattle.nv_calls.specs.Filling.{text_part};
ghost use Rattle.nv_calls.specs.FillPages.{CanFill, HasOtherBytes, ask_for, asks_by, asks_of, block_for, cut_page, filled, filled_by, fresh_pages, page_in, page_with, sourced, with_blocks};
ghost use Rattle.nv_calls.specs.Nodes.{HaveBytes, nodes_in, slots_by};

use crate::filling::{cut_block, fill_block};
use crate::{Cells, HeldNodes, Ready, Source, SourceFault, Update};
use nv_alloc::{Block, BlockQueue};
use nv_base::{Fault, Handle};

/// The block that the cell of a file has for a page.
fn block_for<'a, C: Cells>(
    nodes: &'a HeldNodes<'_, C>,
    file: &Handle,
    page: u64,
) -> Option<&'a Block>
    requires { page < FILE_PAGES }
    ensures block { option_copied result ≡ block_for (C.cells nodes.now.cells.now) file.now page }
    ensures sized { (size : ℕ)
        → AllByRecursion (λ c. c.1.state.block ≡ size) (C.cells nodes.now.cells.now)
        → ForSome (option_copied result) (λ b. length b.bytes ≡ size) }
{
    let cell = nodes.cell_of(file.ino)?;
    cell.page_now(page as u32)
}

/// What holds of the cells of a call: each page of a file has the bytes of a block. Costs no look-up.
fn pages_have_their_size<C: Cells>(nodes: &HeldNodes<'_, C>, file: &Handle)
    ensures { (page size : ℕ)
        → AllByRecursion (λ c. c.1.state.block ≡ size) (C.cells nodes.now.cells.now)
        → length (page_in (C.cells nodes.now.cells.now) size file.now page) ≡ size }
{
    if let Some(cell) = nodes.cell_of(file.ino) {
        cell.holds_together();
    }
}

/// The block that the cell of a file has for a page of which a text of `count` bytes from `offset` on leaves any. A page
/// that the text covers is not looked up.
fn page_before<'a, C: Cells>(
    nodes: &'a HeldNodes<'_, C>,
    file: &Handle,
    block: u64,
    page: u64,
    offset: u64,
    count: u64,
) -> Option<&'a Block>
    requires within { page < FILE_PAGES }
    requires few_bytes { block ≤ BLOCK_BYTES }
    requires end { offset + count < 2 ^ 64 }
    requires sizes { AllByRecursion (λ c. c.1.state.block ≡ block) (C.cells nodes.now.cells.now) }
    requires page { length (page_in (C.cells nodes.now.cells.now) block file.now page) ≡ block }
    ensures page { (text : List ℕ) → length text ≡ count
        → page_with block offset text page (slot_bytes block (option_copied result))
        ≡ page_with block offset text page
        (page_in (C.cells nodes.now.cells.now) block file.now page) }
    ensures sized { ForSome (option_copied result) (λ b. length b.bytes ≡ block) }
{
    let start = page * block;
    if offset <= start && start + block <= offset + count {
        return None;
    }
    block_for(nodes, file, page)
}

/// Fills the block at a place with an old page, and with the part that lies in this page of a text from `offset` on.
/// The source is asked once.
#[inline(always)]
fn fill_part<S: Source>(
    queue: &mut BlockQueue,
    place: usize,
    old: Option<&Block>,
    page: u64,
    offset: u64,
    count: u64,
    source: &mut S,
) -> Result<(), SourceFault>
    requires there { place < length queue.old.blocks }
    requires begins { page * queue.old.size < offset + count }
    requires reached { offset < page * queue.old.size + queue.old.size }
    requires end { offset + count < 2 ^ 64 }
    requires old { ForSome (option_copied old) (λ b. length b.bytes ≡ queue.old.size) }
    requires failures { S.failed source.old < 2 ^ 64 - 1 }
    ensures block { OnOk result (queue.new ≡ record queue.old {
      blocks = with_bytes_at queue.old.blocks place (page_with queue.old.size offset
          (text_part (S.byte_at source.old) 0 count) page
          (slot_bytes queue.old.size (option_copied old.entry)));
    }) }
    ensures rest { (bytes : List ℕ) × (queue.new ≡ record queue.old {
      blocks = with_bytes_at queue.old.blocks place bytes;
    }) }
    ensures text { S.byte_at source.new ≡ S.byte_at source.old }
    ensures asked { S.state source.new
        ≡ S.asked (S.state source.old) (ask_for queue.old.size offset count page) }
    ensures ok { OnOk result (S.failed source.new ≡ S.failed source.old) }
    ensures err { OnErr result (S.failed source.new ≡ S.failed source.old + 1) }
{
    let block = queue.block_bytes() as u64;
    let start = page * block;
    let at = start.saturating_sub(offset);
    let from = offset.saturating_sub(start);
    let to = from + (block - from).min(count - at);
    fill_block(queue, place, old, from as usize, to as usize, source, at)
}

/// Fills each block of a queue with a page of a file, from the one on in which `offset` lies, and with the part of a
/// text from there on that lies in it. The source is asked once for each page, and only pages that it does not fill whole
/// are looked up.
fn fill_pages<C: Cells, S: Source>(
    queue: &mut BlockQueue,
    nodes: &HeldNodes<'_, C>,
    file: &Handle,
    offset: u64,
    count: u64,
    source: &mut S,
) -> Result<(), SourceFault>
    requires some_bytes { 0 < queue.old.size }
    requires few_bytes { queue.old.size ≤ BLOCK_BYTES }
    requires sizes { AllByRecursion (λ c. c.1.state.block ≡ queue.old.size)
        (C.cells nodes.now.cells.now) }
    requires begin { (place : ℕ) → place < length queue.old.blocks
        → (offset / queue.old.size + place) * queue.old.size < offset + count }
    requires fits { 0 < length queue.old.blocks → offset + count ≤ FILE_PAGES * queue.old.size }
    requires failures { S.failed source.old < 2 ^ 64 - 1 }
    ensures pages { OnOk result (queue.new ≡ record queue.old {
      blocks = filled
          (map (λ page. page_with queue.old.size offset
          (text_part (S.byte_at source.old) 0 count) page
          (page_in (C.cells nodes.now.cells.now) queue.old.size file.now page))
          (range_with_len (offset / queue.old.size) (length queue.old.blocks)))
          queue.old.blocks;
    }) }
    ensures rest { HasOtherBytes queue.old queue.new }
    ensures text { S.byte_at source.new ≡ S.byte_at source.old }
    ensures asked { OnOk result (S.state source.new ≡ fold S.asked (S.state source.old)
        (asks_of queue.old.size offset count (length queue.old.blocks))) }
    ensures asked_err { OnErr result ((pages : ℕ) × (pages ≤ length queue.old.blocks)
        × (S.state source.new ≡ fold S.asked (S.state source.old)
        (asks_of queue.old.size offset count pages))) }
    ensures ok { OnOk result (S.failed source.new ≡ S.failed source.old) }
    ensures err { OnErr result (S.failed source.new ≡ S.failed source.old + 1) }
{
    pages_have_their_size(nodes, file);
    let block = queue.block_bytes() as u64;
    let first = offset / block;
    for place in 0..queue.len() {
        let page = first + place;
        let old = page_before(nodes, file, block, page, offset, count);
        fill_part(queue, place as usize, old, page, offset, count, source)?;
    }
    Ok(())
}

/// Fills the block of a page that is cut, where the queue has one.
fn fill_cut<C: Cells>(queue: &mut BlockQueue, nodes: &HeldNodes<'_, C>, file: &Handle, size: u64)
    requires some_bytes { 0 < queue.old.size }
    requires sizes { AllByRecursion (λ c. c.1.state.block ≡ queue.old.size)
        (C.cells nodes.now.cells.now) }
    requires fits { 0 < length queue.old.blocks → size / queue.old.size < FILE_PAGES }
    ensures { queue.new ≡ record queue.old {
      blocks = filled (cut_page queue.old.size (size % queue.old.size)
          (page_in (C.cells nodes.now.cells.now) queue.old.size file.now
          (size / queue.old.size)) ∷ [])
          queue.old.blocks;
    } }
{
    if queue.is_empty() {
        return;
    }
    let block = queue.block_bytes() as u64;
    let old = block_for(nodes, file, size / block);
    cut_block(queue, 0, old, (size % block) as usize);
}

/// Fills the blocks of a call: those of a write with the source's bytes.
fn fill_blocks<C: Cells, S: Source>(
    queue: &mut BlockQueue,
    nodes: &HeldNodes<'_, C>,
    update: &Update,
    source: &mut S,
) -> Result<(), SourceFault>
    requires can { CanFill (C.cells nodes.now.cells.now) update.now queue.old }
    requires failures { S.failed source.old < 2 ^ 64 - 1 }
    ensures pages { OnOk result (queue.new ≡ record queue.old {
      blocks = filled_by (C.cells nodes.now.cells.now) (S.byte_at source.old) update.now queue.old;
    }) }
    ensures fresh { (bytes : ℕ → List ℕ)
        → HaveBytes bytes queue.old.size (C.cells nodes.now.cells.now)
        → ((ino : ℕ) → IsSound bytes queue.old.size
        (slots_by (C.cells nodes.now.cells.now) ino).log)
        → OnOk result (queue.new.blocks
        ≡ filled (fresh_pages queue.old.size (nodes_in (C.cells nodes.now.cells.now))
        (sourced (S.byte_at source.old) update.now)) queue.old.blocks) }
    ensures rest { HasOtherBytes queue.old queue.new }
    ensures text { S.byte_at source.new ≡ S.byte_at source.old }
    ensures asked { OnOk result (S.state source.new ≡ fold S.asked (S.state source.old)
        (asks_by queue.old.size update.now (length queue.old.blocks))) }
    ensures asked_err { OnErr result ((pages : ℕ) × (pages ≤ length queue.old.blocks)
        × (S.state source.new ≡ fold S.asked (S.state source.old)
        (asks_by queue.old.size update.now pages))) }
    ensures ok { OnOk result (S.failed source.new ≡ S.failed source.old) }
    ensures err { OnErr result (S.failed source.new ≡ S.failed source.old + 1) }
{
    match update {
        Update::Write {
            file,
            offset,
            count,
        } => fill_pages(queue, nodes, file, *offset, *count, source),
        Update::Size { file, size } => {
            fill_cut(queue, nodes, file, *size);
            Ok(())
        }
        _ => Ok(()),
    }
}

/// Fills the fresh blocks of a call that is ready: each with the bytes of its page before, with those of a source in
/// their places, and of a page that is cut with zeros from the size on. Where the logs of the cells are sound, these
/// are the pages of the file after the call. A write asks the source once for each page that it touches, for the part
/// of the text that lies there, in rising order; no other call asks it.
///
/// `Read` where the source failed, which is asked no more then. Whatever comes of it, nothing but the bytes of the
/// call's own blocks has changed, so that it can be given up. Takes no memory, and costs the bytes of these blocks
/// and a look-up for each that the text does not fill whole.
pub fn fill<C: Cells, S: Source>(ready: &mut Ready, cells: &C, source: &mut S) -> Result<(), Fault>
    requires can { CanFill (C.cells cells.now) ready.old.update ready.old.hand.data }
    requires failures { S.failed source.old < 2 ^ 64 - 1 }
    // The fresh blocks of a call are filled, one for each page.
    // A page has the cell's bytes, or zeros, and the source's in their places.
    // A page that is cut has zeros from the size on.
    ensures pages { OnOk result (ready.new.hand.data.blocks ≡ filled_by (C.cells cells.now)
        (S.byte_at source.old) ready.old.update ready.old.hand.data) }
    // Where the logs of the cells are sound, these are the pages of the file after the call.
    ensures fresh { (bytes : ℕ → List ℕ)
        → HaveBytes bytes ready.old.hand.data.size (C.cells cells.now)
        → ((ino : ℕ) → IsSound bytes ready.old.hand.data.size
        (slots_by (C.cells cells.now) ino).log)
        → OnOk result (ready.new.hand.data.blocks
        ≡ filled (fresh_pages ready.old.hand.data.size (nodes_in (C.cells cells.now))
        (sourced (S.byte_at source.old) ready.old.update)) ready.old.hand.data.blocks) }
    // After such a failure nothing has changed except bytes of the call's own blocks.
    ensures rest { HasOtherBytes ready.old.hand.data ready.new.hand.data }
    ensures ready { ready.new ≡ with_blocks ready.new.hand.data ready.old }
    // Where the source fails, filling is refused by `Read`, and that one failure is counted.
    ensures read { IfErr result (λ fault. fault ≡ Read) }
    ensures text { S.byte_at source.new ≡ S.byte_at source.old }
    // A write asks its source once for each page that it touches, in rising order.
    // A write asks for the part of the text that lies in a page; no other call asks.
    ensures asked { OnOk result (S.state source.new ≡ fold S.asked (S.state source.old)
        (asks_by ready.old.hand.data.size ready.old.update (length ready.old.hand.data.blocks))) }
    // After a failure of the source no later page is asked for.
    ensures asked_err { OnErr result ((pages : ℕ) × (pages ≤ length ready.old.hand.data.blocks)
        × (S.state source.new ≡ fold S.asked (S.state source.old)
        (asks_by ready.old.hand.data.size ready.old.update pages))) }
    ensures ok { OnOk result (S.failed source.new ≡ S.failed source.old) }
    ensures err { OnErr result (S.failed source.new ≡ S.failed source.old + 1) }
{
    let nodes = HeldNodes::new(cells);
    match fill_blocks(&mut ready.hand.data, &nodes, &ready.update, source) {
        Ok(()) => Ok(()),
        Err(SourceFault) => Err(Fault::Read),
    }
}
