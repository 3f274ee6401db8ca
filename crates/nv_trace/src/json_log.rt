//! The log of a cell as JSON.

ghost use Rattle.std.specs.Prelude.{◌≡◌, ◌+◌, ◌<◌, ◌^◌, ◌++◌, OnOk, codes, length};
ghost use Rattle.nv_log.specs.Chain.{start_of};
ghost use Rattle.nv_script.specs.Json.{array_by, bind_members, cell_head, cell_object, entries_on, entry_object, init_members, item_members, kind_word, mark_text, marks_at, page_object, unbind_members, values_from, write_members};

use crate::json::{AsJson, push_array, push_comma, push_name};
use nv_alloc::Block;
use nv_base::{Handle, Kind, Mode, Name};
use nv_cell::{InodeCell, Mark};
use nv_entry::{BlockRun, Entry, Item};
use nv_script::text::{push_handle, push_labelled};
use std::alloc::{AllocError, Global};

impl AsJson for Mark {
    ghost use Rattle.nv_script.specs.Json.{mark_text};

    ghost json = { mark_text };

    fn push_json(&self, out: &mut Vec<u8>) -> Result<(), AllocError> {
        out.extend_from_slice(match self {
            Mark::Current => b"\"current\"",
            Mark::Killed => b"\"killed\"",
            Mark::Kept => b"\"kept\"",
            Mark::Out => b"\"out\"",
        })
    }
}

/// The word of a kind.
fn kind_word(kind: Kind) -> &'static [u8]
    ensures { result.now ≡ kind_word kind }
{
    match kind {
        Kind::File => b"file",
        Kind::Dir => b"dir",
    }
}

/// Adds the first item of an inode.
fn push_init(out: &mut Vec<u8>, kind: Kind, mode: Mode) -> Result<(), AllocError>
    ensures { OnOk result (out.new.items
        ≡ out.old.items ++ init_members kind mode) }
{
    out.extend_from_slice(b"\"item\":\"init\",\"kind\":\"")?;
    out.extend_from_slice(kind_word(kind))?;
    push_labelled(out, b"\",\"mode\":", u64::from(mode.bits()))
}

/// Adds an item that writes pages.
fn push_write(out: &mut Vec<u8>, first: u32, run: BlockRun, size: u64) -> Result<(), AllocError>
    ensures { OnOk result (out.new.items
        ≡ out.old.items ++ write_members first run size) }
{
    push_labelled(out, b"\"item\":\"write\",\"first\":", u64::from(first))?;
    push_labelled(out, b",\"start\":", run.start.number())?;
    push_labelled(out, b",\"len\":", u64::from(run.len))?;
    push_labelled(out, b",\"size\":", size)
}

/// Adds an item that binds a name.
fn push_bind(out: &mut Vec<u8>, alloc: Global, name: &Name, to: &Handle) -> Result<(), AllocError>
    ensures { OnOk result (out.new.items
        ≡ out.old.items ++ bind_members name.now to.now) }
{
    out.extend_from_slice(b"\"item\":\"bind\",\"name\":")?;
    push_name(out, alloc, name.bytes())?;
    out.extend_from_slice(b",\"to\":\"")?;
    push_handle(out, to)?;
    Ok(out.push(b'"')?)
}

/// Adds an item that takes a name away.
fn push_unbind(out: &mut Vec<u8>, alloc: Global, name: &Name) -> Result<(), AllocError>
    ensures { OnOk result (out.new.items ≡ out.old.items ++ unbind_members name.now) }
{
    out.extend_from_slice(b"\"item\":\"unbind\",\"name\":")?;
    push_name(out, alloc, name.bytes())
}

/// Adds the last item of an inode.
fn push_gone(out: &mut Vec<u8>) -> Result<(), AllocError>
    ensures { OnOk result (out.new.items ≡ out.old.items ++ codes "\"item\":\"gone\"") }
{
    out.extend_from_slice(b"\"item\":\"gone\"")
}

/// Adds an item with its fields.
fn push_item(out: &mut Vec<u8>, alloc: Global, item: &Item) -> Result<(), AllocError>
    ensures { OnOk result (out.new.items ≡ out.old.items ++ item_members item.now) }
{
    match item {
        Item::Init { kind, mode } => push_init(out, *kind, *mode),
        Item::Write { first, run, size } => push_write(out, *first, *run, *size),
        Item::SetSize { size } => push_labelled(out, b"\"item\":\"set_size\",\"size\":", *size),
        Item::SetMode { mode } => push_labelled(
            out,
            b"\"item\":\"set_mode\",\"mode\":",
            u64::from(mode.bits()),
        ),
        Item::Bind { name, to } => push_bind(out, alloc, name, to),
        Item::Unbind { name } => push_unbind(out, alloc, name),
        Item::Gone => push_gone(out),
    }
}

/// Adds an entry with the marks of its parts.
fn push_entry(
    out: &mut Vec<u8>,
    alloc: Global,
    entry: &Entry,
    marks: &[Mark],
) -> Result<(), AllocError>
    ensures { OnOk result (out.new.items ≡ out.old.items ++ entry_object entry.now marks.now) }
{
    push_labelled(out, b"{\"commit\":", entry.id.commit.number())?;
    push_labelled(out, b",\"place\":", u64::from(entry.id.place))?;
    push_labelled(out, b",\"epoch\":", entry.epoch.number())?;
    out.push(b',')?;
    push_item(out, alloc, &entry.item)?;
    out.extend_from_slice(b",\"marks\":")?;
    push_array(out, marks)?;
    Ok(out.push(b'}')?)
}

/// The marks of the entry at a place of the log; past the tail there are none.
fn marks_at(cell: &InodeCell, place: usize) -> &[Mark]
    ensures { result.now ≡ marks_at cell.now.state place }
{
    if place < cell.tail() {
        return cell.marks_of(place);
    }
    &[]
}

/// The entries of a page, those past the tail too.
fn entries_on(cell: &InodeCell, page: usize) -> &[Entry]
    ensures entries { result.now ≡ entries_on cell.now.state.chain page }
    ensures within { start_of cell.now.state.chain page + length result.now < 2 ^ 64 }
{
    let chain = cell.log();
    let start = chain.page_start(page);
    let end = chain.page_end(page);
    &chain.entries()[start..end]
}

/// Adds the entries of a page, the first of which stands at this place of the log.
fn push_entries(
    out: &mut Vec<u8>,
    alloc: Global,
    cell: &InodeCell,
    start: usize,
    entries: &[Entry],
) -> Result<(), AllocError>
    requires { start + length entries.now < 2 ^ 64 }
    ensures { let c = cell.now.state in OnOk result (out.new.items ≡ out.old.items
        ++ values_from (λ place e. entry_object e (marks_at c (start + place))) 0 entries.now) }
{
    for (place, entry) in entries.iter().enumerate() {
        push_comma(out, place)?;
        push_entry(out, alloc, entry, marks_at(cell, start + place))?;
    }
    Ok(())
}

/// Adds an array of the entries of a page.
fn push_entries_on(
    out: &mut Vec<u8>,
    alloc: Global,
    cell: &InodeCell,
    page: usize,
) -> Result<(), AllocError>
    ensures { let c = cell.now.state in OnOk result (out.new.items ≡ out.old.items
        ++ array_by (λ place e. entry_object e (marks_at c (start_of c.chain page + place)))
        (entries_on c.chain page)) }
{
    let start = cell.log().page_start(page);
    out.push(b'[')?;
    push_entries(out, alloc, cell, start, entries_on(cell, page))?;
    Ok(out.push(b']')?)
}

/// Adds a page of a log: its block, and its entries.
fn push_page(
    out: &mut Vec<u8>,
    alloc: Global,
    cell: &InodeCell,
    page: usize,
    block: &Block,
) -> Result<(), AllocError>
    ensures { OnOk result (out.new.items
        ≡ out.old.items ++ page_object cell.now.state page block.now) }
{
    push_labelled(out, b"{\"block\":", block.number().number())?;
    out.extend_from_slice(b",\"entries\":")?;
    push_entries_on(out, alloc, cell, page)?;
    Ok(out.push(b'}')?)
}

/// Adds the pages of a log.
fn push_pages(
    out: &mut Vec<u8>,
    alloc: Global,
    cell: &InodeCell,
    blocks: &[Block],
) -> Result<(), AllocError>
    ensures { OnOk result (out.new.items
        ≡ out.old.items ++ values_from (page_object cell.now.state) 0 blocks.now) }
{
    for (page, block) in blocks.iter().enumerate() {
        push_comma(out, page)?;
        push_page(out, alloc, cell, page, block)?;
    }
    Ok(())
}

/// Adds an array of the pages of a log.
fn push_log(out: &mut Vec<u8>, alloc: Global, cell: &InodeCell) -> Result<(), AllocError>
    ensures { let c = cell.now.state in OnOk result (out.new.items
        ≡ out.old.items ++ array_by (page_object c) c.chain.blocks) }
{
    out.push(b'[')?;
    push_pages(out, alloc, cell, cell.log().blocks())?;
    Ok(out.push(b']')?)
}

/// Adds a cell before its pages.
pub(crate) fn push_cell_head(
    out: &mut Vec<u8>,
    ino: u64,
    generation: u64,
    tail: u64,
) -> Result<(), AllocError>
    ensures { OnOk result (out.new.items ≡ out.old.items ++ cell_head ino generation tail) }
{
    push_labelled(out, b"{\"ino\":", ino)?;
    push_labelled(out, b",\"gen\":", generation)?;
    push_labelled(out, b",\"tail\":", tail)?;
    out.extend_from_slice(b",\"pages\":")
}

/// Adds a cell: its pages, each with its entries.
pub(crate) fn push_cell(
    out: &mut Vec<u8>,
    alloc: Global,
    ino: u64,
    cell: &InodeCell,
) -> Result<(), AllocError>
    ensures { OnOk result (out.new.items ≡ out.old.items ++ cell_object ino cell.now.state) }
{
    push_cell_head(out, ino, cell.generation().number(), cell.tail() as u64)?;
    push_log(out, alloc, cell)?;
    Ok(out.push(b'}')?)
}
