//! The node that an inode is by its log.

ghost use Rattle.std.specs.Prelude.{◌≡◌, ◌<◌, ◌++◌, ℕ, IfOk, List, OnOk, replicate};
ghost use Rattle.nv_entry.specs.Log.{seen};
ghost use Rattle.nv_entry.specs.Node.{block_now, file_bytes, mode_now, node_now, page_bytes, size_now};

use crate::{Datum, Entry, Key, NameList, When, names_when, value_when};
use nv_base::limits::FILE_PAGES;
use nv_base::{BlockNo, Bytes, Kind, Mode};
use std::alloc::{AllocError, Global};

/// The size of blocks says nothing of keys that are no pages.
const ANY_SIZE: u64 = 1;

/// What a node is at one time: a file has bytes, and a directory has names. The size is that of a file in
/// bytes, and 0 for a directory.
#[derive(Debug, Drop)]
pub struct NodeCopy {
    pub kind: Kind,
    pub mode: Mode,
    pub size: u64,
    pub bytes: Bytes,
    pub names: NameList,
}

/// The bytes of data blocks.
pub trait BlockBytes {
    ghost bytes_of: { Self → ℕ → List ℕ };

    /// The bytes of the block with this number; none where there is no such block.
    fn bytes(&self, number: BlockNo) -> &[u8]
        ensures { result.now ≡ bytes_of self.now number };
}

/// The node now or at an epoch: kind, mode, size, the bytes page by page with zeros where a page is absent, cut
/// at the size, and the names in log order. None where the inode has no kind there.
pub fn node_when<B: BlockBytes>(
    alloc: Global,
    block: u64,
    when: When,
    log: &[Entry],
    blocks: &B,
) -> Result<Option<NodeCopy>, AllocError>
    requires { 0 < block }
    // The node now and at an epoch has the kind, the mode, the size and the names in log order.
    // A node has no more bytes than its size says.
    ensures { IfOk result
        (λ node. node ≡ node_now (B.bytes_of blocks.now) block (seen when log.now)) }
{
    match value_when(block, when, log, Key::Kind) {
        Some(Datum::Kind(kind)) => Ok(Some(NodeCopy {
            kind,
            mode: mode_when(when, log),
            size: size_when(when, log),
            bytes: file_bytes_when(alloc, block, when, log, blocks)?,
            names: names_when(alloc, when, log)?,
        })),
        _ => Ok(None),
    }
}

/// The size of a file in bytes, now or at an epoch; 0 where it has none.
pub fn size_when(when: When, log: &[Entry]) -> u64
    // The size of a file is told, now and at an epoch.
    ensures { (block : ℕ) → result ≡ size_now block (seen when log.now) }
{
    value_when(ANY_SIZE, when, log, Key::Size)
        .and_then(Datum::size)
        .unwrap_or(0)
}

fn mode_when(when: When, log: &[Entry]) -> Mode
    ensures { (block : ℕ) → result ≡ mode_now block (seen when log.now) }
{
    match value_when(ANY_SIZE, when, log, Key::Mode).and_then(Datum::mode) {
        Some(mode) => mode,
        None => Mode::checked(0).unwrap(),
    }
}

/// The bytes of a file now or at an epoch: page by page, zeros where a page is absent, cut at the size.
pub fn file_bytes_when<B: BlockBytes>(
    alloc: Global,
    block: u64,
    when: When,
    log: &[Entry],
    blocks: &B,
) -> Result<Bytes, AllocError>
    requires { 0 < block }
    // A file's bytes are those of its pages in order, with zeros for an absent page.
    // A file's bytes are cut at its size.
    ensures { IfOk result
        (λ bytes. bytes ≡ file_bytes (B.bytes_of blocks.now) block (seen when log.now)) }
{
    let size = size_when(when, log);
    let mut bytes = Vec::new(alloc);
    for page in 0..size.div_ceil(block) {
        push_page(&mut bytes, block, &when, log, blocks, page)?;
    }
    bytes.truncate(size as usize);
    Ok(Bytes::from_vec(bytes))
}

fn push_page<B: BlockBytes>(
    bytes: &mut Vec<u8>,
    block: u64,
    when: &When,
    log: &[Entry],
    blocks: &B,
    page: u64,
) -> Result<(), AllocError>
    requires { 0 < block }
    ensures { OnOk result (bytes.new.items ≡ bytes.old.items
        ++ page_bytes (B.bytes_of blocks.now) block (block_now block (seen when.now log.now) page)) }
{
    match page_block(block, *when, log, page) {
        Some(number) => bytes.extend_from_slice(blocks.bytes(number)),
        None => push_zeros(bytes, block),
    }
}

/// The block of a page now or at an epoch. A file has no page from 65,536 on.
fn page_block(block: u64, when: When, log: &[Entry], page: u64) -> Option<BlockNo>
    requires { 0 < block }
    ensures { result ≡ block_now block (seen when log.now) page }
{
    if page >= u64::from(FILE_PAGES) {
        return None;
    }
    value_when(block, when, log, Key::Page(page as u32))?.block()
}

fn push_zeros(bytes: &mut Vec<u8>, count: u64) -> Result<(), AllocError>
    ensures { OnOk result (bytes.new.items ≡ bytes.old.items ++ replicate count 0) }
{
    for _done in 0..count {
        bytes.push(0)?;
    }
    Ok(())
}
