//! The bytes of a file by its log.

ghost use Rattle.std.specs.Prelude.{◌≡◌, ℕ, ◌<◌, ◌≤◌, ◌++◌, IfOk, length, List, OnOk, Option, option_and_then};
ghost use Rattle.std.specs.Option.{option_copied};
ghost use Rattle.nv_base.specs.declared.limits.TheConstants.{FILE_PAGES};
ghost use Rattle.nv_entry.specs.Node.{size_now};
ghost use Rattle.nv_entry.specs.declared.part.PartId.{PartId};
ghost use Rattle.nv_reader.specs.Blocks.{page_part, page_text, shown_bytes};
ghost use Rattle.nv_reader.specs.Writers.{entry_at};

use crate::pages::{Writer, page_writers};
use nv_base::Bytes;
use nv_base::limits::FILE_PAGES;
use nv_entry::{Entry, Part, PartId};
use std::alloc::{AllocError, Global};

/// The blocks of the parts of a log.
pub(crate) trait PartBlocks {
    ghost bytes_of: { Self → PartId → Option (List ℕ) };

    /// The bytes of a part's block; none where it has no block.
    fn bytes(&self, part: PartId) -> Option<&[u8]>
        ensures { option_copied result ≡ bytes_of self.now part };
}

/// The bytes of a file of that size: page by page, zeros where a page is absent or its part has no block, cut at the
/// size. Costs these bytes, a look-up of a block for each page, and what [`page_writers`] costs.
pub(crate) fn file_bytes<B: PartBlocks>(
    alloc: Global,
    block: u64,
    log: &[Entry],
    size: u64,
    blocks: &B,
) -> Result<Bytes, AllocError>
    requires block { 0 < block }
    requires size { size ≡ size_now block log.now }
    ensures { IfOk result (λ text. text ≡ shown_bytes (B.bytes_of blocks.now) block log.now) }
{
    let count = size.div_ceil(block);
    // No page of a file is present from the greatest file's end on.
    let writers = page_writers(alloc, block, log, count.min(u64::from(FILE_PAGES)) as usize)?;
    // Room for all pages at once: a list that grows page by page is copied each time that it doubles.
    let bytes = count.saturating_mul(block);
    let mut text = Vec::with_capacity(alloc, bytes as usize)?;
    for page in 0..count {
        push_page(&mut text, block, page_in(&writers, page, blocks))?;
    }
    text.truncate(size as usize);
    Ok(Bytes::from_vec(text))
}

/// The bytes of a page; none where it is absent.
fn page_in<'a, B: PartBlocks>(
    writers: &[Option<Writer>],
    page: u64,
    blocks: &'a B,
) -> Option<&'a [u8]>
    requires { length writers.now ≤ FILE_PAGES }
    ensures { option_copied result
        ≡ option_and_then (λ entry. B.bytes_of blocks.now (page_part page entry))
        (entry_at writers.now page) }
{
    let writer = (*writers.get(page as usize)?)?;
    blocks.bytes(PartId {
        entry: writer.entry,
        part: Part::Page(page as u32),
    })
}

fn push_page(bytes: &mut Vec<u8>, block: u64, page: Option<&[u8]>) -> Result<(), AllocError>
    ensures { OnOk result (bytes.new.items
        ≡ bytes.old.items ++ page_text block (option_copied page.entry)) }
{
    match page {
        Some(page) => bytes.extend_from_slice(page),
        None => bytes.resize(bytes.len().saturating_add(block as usize), 0),
    }
}
