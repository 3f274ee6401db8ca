//! One fresh block, filled with the bytes of an old page and with others over them.

ghost use Rattle.std.specs.Prelude.{◌≡◌, ◌+◌, ◌-◌, ◌<◌, ◌≤◌, ◌^◌, List, ℕ, OnErr, OnOk, drop, length, take};
ghost use Rattle.std.specs.Option.{ForSome, option_copied};
ghost use Rattle.nv_alloc.specs.QueueLends.{with_bytes_at};
ghost use Rattle.nv_cell.specs.Pages.{slot_bytes};
ghost use Rattle.nv_calls.specs.Filling.{overlaid, text_part};
ghost use Rattle.nv_calls.specs.FillPages.{cut_page};

use crate::{Source, SourceFault};
use nv_alloc::{Block, BlockQueue};

/// Writes the bytes of a page over those of a fresh block, zeros where there is no such page.
fn copy_page(bytes: &mut [u8], page: Option<&Block>)
    requires { ForSome (option_copied page) (λ b. length b.bytes ≡ length bytes.old) }
    ensures { bytes.new ≡ slot_bytes (length bytes.old) (option_copied page.entry) }
{
    match page {
        Some(page) => bytes.copy_from_slice(page.bytes()),
        None => bytes.fill(0),
    }
}

/// Writes the bytes of a page over those of a fresh block, before `from` and from `to` on. The rest is to be filled
/// otherwise.
fn copy_rest(bytes: &mut [u8], page: Option<&Block>, from: usize, to: usize)
    requires page { ForSome (option_copied page) (λ b. length b.bytes ≡ length bytes.old) }
    ensures front { take from bytes.new
        ≡ take from (slot_bytes (length bytes.old) (option_copied page.entry)) }
    ensures rest { drop to bytes.new
        ≡ drop to (slot_bytes (length bytes.old) (option_copied page.entry)) }
{
    if from == 0 && to == bytes.len() {
        return;
    }
    copy_page(bytes, page);
}

/// Fills a fresh block with the bytes of a page, and with those of a text from `from` up to `to` in their places. The
/// source is asked once; a page that it fills whole is not copied.
fn fill_page<S: Source>(
    bytes: &mut [u8],
    page: Option<&Block>,
    from: usize,
    to: usize,
    source: &mut S,
    at: u64,
) -> Result<(), SourceFault>
    requires order { from ≤ to }
    requires within { to ≤ length bytes.old }
    requires page { ForSome (option_copied page) (λ b. length b.bytes ≡ length bytes.old) }
    requires failures { S.failed source.old < 2 ^ 64 - 1 }
    ensures bytes { OnOk result (bytes.new ≡ overlaid from
        (text_part (S.byte_at source.old) at (to - from))
        (slot_bytes (length bytes.old) (option_copied page.entry))) }
    ensures text { S.byte_at source.new ≡ S.byte_at source.old }
    ensures asked { S.state source.new ≡ S.asked (S.state source.old) (at, to - from) }
    ensures ok { OnOk result (S.failed source.new ≡ S.failed source.old) }
    ensures err { OnErr result (S.failed source.new ≡ S.failed source.old + 1) }
{
    copy_rest(bytes, page, from, to);
    source.fill(at, &mut bytes[from..to])
}

/// Fills the fresh block at a place of a queue with the bytes of a page, and with those of a text from `from` up to
/// `to` in their places. The source is asked once, whatever it answers. Whatever comes of it, the queue is the same but
/// for the bytes of this block. Takes no memory, and costs the bytes of a block.
pub(crate) fn fill_block<S: Source>(
    queue: &mut BlockQueue,
    place: usize,
    page: Option<&Block>,
    from: usize,
    to: usize,
    source: &mut S,
    at: u64,
) -> Result<(), SourceFault>
    requires there { place < length queue.old.blocks }
    requires order { from ≤ to }
    requires within { to ≤ queue.old.size }
    requires page { ForSome (option_copied page) (λ b. length b.bytes ≡ queue.old.size) }
    requires failures { S.failed source.old < 2 ^ 64 - 1 }
    ensures block { OnOk result (queue.new ≡ record queue.old {
      blocks = with_bytes_at queue.old.blocks place (overlaid from
          (text_part (S.byte_at source.old) at (to - from))
          (slot_bytes queue.old.size (option_copied page.entry)));
    }) }
    ensures rest { (bytes : List ℕ) × (queue.new ≡ record queue.old {
      blocks = with_bytes_at queue.old.blocks place bytes;
    }) }
    ensures text { S.byte_at source.new ≡ S.byte_at source.old }
    ensures asked { S.state source.new ≡ S.asked (S.state source.old) (at, to - from) }
    ensures ok { OnOk result (S.failed source.new ≡ S.failed source.old) }
    ensures err { OnErr result (S.failed source.new ≡ S.failed source.old + 1) }
{
    let bytes = queue.bytes_mut(place);
    fill_page(bytes, page, from, to, source, at)
}

/// Fills the fresh block at a place of a queue with the bytes of a page up to a place in it, and with zeros from there
/// on. Takes no memory, and costs the bytes of a block.
pub(crate) fn cut_block(queue: &mut BlockQueue, place: usize, page: Option<&Block>, from: usize)
    requires there { place < length queue.old.blocks }
    requires within { from ≤ queue.old.size }
    requires page { ForSome (option_copied page) (λ b. length b.bytes ≡ queue.old.size) }
    ensures { queue.new ≡ record queue.old {
      blocks = with_bytes_at queue.old.blocks place
          (cut_page queue.old.size from (slot_bytes queue.old.size (option_copied page.entry)));
    } }
{
    let bytes = queue.bytes_mut(place);
    copy_page(bytes, page);
    bytes[from..].fill(0);
}
