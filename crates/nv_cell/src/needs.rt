//! What items need before they are appended and published, counted up to the greatest number.

ghost use Rattle.std.specs.Prelude.{◌≡◌, ◌+◌, ◌-◌, ◌*◌, ◌<◌, ◌≤◌, ◌^◌, length, min};
ghost use Rattle.std.specs.List.{sum_by};
ghost use Rattle.nv_findex.specs.Pages.{present_from};
ghost use Rattle.nv_nindex.specs.NameIndex.{AreDistinct};
ghost use Rattle.nv_cell.specs.Weights.{names_added, pages_added, parts_in, page_runs_needed, weight, weights_by};

use crate::CellIndex;
use nv_base::limits::FILE_PAGES;
use nv_entry::Item;

/// How many items are Writes.
pub fn write_count(items: &[Item]) -> usize
    ensures { 2 * result ≡ sum_by page_runs_needed items.now }
{
    let mut count = 0;
    for item in items {
        if let Item::Write { .. } = item {
            count += 1;
        }
    }
    count
}

/// How many times an item sets a run of pages: a Write does once.
pub fn run_sets(item: &Item) -> usize
    ensures { 2 * result ≡ page_runs_needed item.now }
{
    match item {
        Item::Write { .. } => 1,
        _ => 0,
    }
}

/// How many parts entries with these items have.
pub fn part_total(items: &[Item]) -> usize
    ensures { result ≡ min (parts_in items.now) (2 ^ 64 - 1) }
{
    let mut total: usize = 0;
    for item in items {
        total = total.saturating_add(item.part_count() as usize);
    }
    total
}

/// How many pages are present from one on.
fn present_from(index: &CellIndex, page: u64) -> usize
    ensures { result ≡ present_from page index.now.pages.pages }
{
    if page < u64::from(FILE_PAGES) {
        return index.present_from(page as u32) as usize;
    }
    0
}

/// How many parts an item kills at most behind others, which add so many pages, where so many names are bound.
#[inline(always)]
pub fn weight_of(index: &CellIndex, block: u64, pages: usize, names: usize, item: &Item) -> usize
    requires { 0 < block }
    ensures { result ≡ min (weight block (λ from. present_from from index.now.pages.pages + pages)
        names item.now) (2 ^ 64 - 1) }
{
    match item {
        Item::Init { .. } => 3,
        Item::Write { run, .. } => run.len as usize + 1,
        Item::SetSize { size } => {
            let present = present_from(index, size.div_ceil(block));
            present.saturating_add(pages).saturating_add(1)
        }
        Item::SetMode { .. } | Item::Bind { .. } | Item::Unbind { .. } => 1,
        Item::Gone => {
            let present = present_from(index, 0);
            present
                .saturating_add(pages)
                .saturating_add(names)
                .saturating_add(3)
        }
    }
}

/// How many pages an item adds at most.
pub fn pages_added(item: &Item) -> usize
    ensures { result ≡ pages_added item.now }
{
    match item {
        Item::Write { run, .. } => run.len as usize,
        _ => 0,
    }
}

/// How many names an item adds at most.
fn names_added(item: &Item) -> usize
    ensures { result ≡ names_added item.now }
{
    match item {
        Item::Bind { .. } => 1,
        _ => 0,
    }
}

/// How many parts these items kill at most, one behind the other.
pub fn most_killed(index: &CellIndex, block: u64, items: &[Item]) -> usize
    requires { 0 < block }
    ensures value { result ≡ min (weights_by block index.now items.now) (2 ^ 64 - 1) }
    ensures distinct { AreDistinct index.now.names.names }
{
    let mut pages: usize = 0;
    let mut names: usize = index.name_count();
    let mut total: usize = 0;
    for item in items {
        total = total.saturating_add(weight_of(index, block, pages, names, item));
        pages = pages.saturating_add(pages_added(item));
        names = names.saturating_add(names_added(item));
    }
    total
}
