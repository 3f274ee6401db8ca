//! The index of an inode.

ghost use Rattle.std.specs.Prelude.{◌≡◌, ℕ, ◌+◌, ◌-◌, ◌<◌, ◌≤◌, ◌⊎◌, ◌&&◌, [], if◌then◌else◌, nat_le, nat_lt, IsSome, IfErr, IfSome, IsOk, OnOk, OnErr, Some, None, length, max, slice_get};
ghost use Rattle.std.specs.Option.{option_map};
ghost use Rattle.nv_base.specs.Memory.{out_of_memory};
ghost use Rattle.nv_base.specs.declared.limits.TheConstants.{FILE_PAGES};
ghost use Rattle.nv_findex.specs.Pages.{AreWithin, IsRun, IsRunFrom, present_from, ref_at, run_count_of};
ghost use Rattle.nv_entry.specs.Keys.{Key as KeyValue, is_page, key_named, NameKey, PageKey, KindKey, ModeKey, SizeKey};
ghost use Rattle.nv_entry.specs.Refs.{ref_after};
ghost use Rattle.nv_nindex.specs.NameIndex.{AreDistinct, binding_of};
ghost use Rattle.nv_cell.specs.Index.{NameReady, NamesAfter, name_part, ref_of};
ghost use Rattle.nv_cell.specs.Effects.{BindOne, NamesReady};
ghost use Rattle.nv_cell.specs.Room.{HasSameParts};
ghost use Rattle.nv_cell.specs.Weights.{page_runs_needed};
ghost use Rattle.nv_base.specs.Refusals.{FailsOnly};
ghost use Rattle.std.specs.List.{sum_by};

use crate::needs::{run_sets, write_count};
use nv_base::limits::FILE_PAGES;
use nv_base::{EntryId, Fault};
use nv_entry::{Entry, Item, Key, PartRef};
use nv_findex::{FileIndex, PageRun};
use nv_nindex::{Binding, NameIndex};
use std::alloc::Global;
use std::marker::Model;

/// Which part of a log holds each key's value, for files and directories alike: an empty index of pages or names
/// takes no memory. Parts are named by the ids of their entries, so that the removal of other entries leaves the
/// index as it is.
#[derive(Debug, Drop)]
pub struct CellIndex {
    kind: Option<PartRef>,
    mode: Option<PartRef>,
    size: Option<PartRef>,
    pub(crate) pages: FileIndex,
    pub(crate) names: NameIndex,
}

impl Model for CellIndex {
    ghost use Rattle.nv_findex.specs.Pages.{AreWithin, ref_at};
    ghost use Rattle.nv_cell.specs.Index.{IndexValue};

    ghost Value = { IndexValue };

    ghost view = { λ c. record {
      kind = c.kind;
      mode = c.mode;
      size = c.size;
      pages = c.pages;
      names = c.names;
    } };

    // File pages and places of its file index are below 65,536.
    ghost invariant = { λ c. AreWithin (ref_at c.pages.pages) };
}

impl CellIndex {
    /// An index without keys.
    pub fn new(alloc: Global) -> CellIndex
        ensures refs { (key : KeyValue) → ref_of result key ≡ None }
        ensures names { result.names ≡ record { names = []; reserved = None } }
        ensures room { result.pages.room ≡ 0 }
    {
        CellIndex {
            kind: None,
            mode: None,
            size: None,
            pages: FileIndex::new(alloc),
            names: NameIndex::new(alloc),
        }
    }

    /// Forgets all keys, and lets go of the memory for them.
    pub fn reset(&mut self, alloc: Global)
        ensures refs { (key : KeyValue) → ref_of self.new key ≡ None }
        ensures names { self.new.names ≡ record { names = []; reserved = None } }
        ensures room { self.new.pages.room ≡ 0 }
    {
        *self = CellIndex::new(alloc);
    }

    /// The part that sets the kind, if there is one.
    pub fn kind(&self) -> Option<PartRef>
        ensures { result ≡ ref_of self.now KindKey }
    {
        self.kind
    }

    /// The part that sets the mode, if there is one.
    pub fn mode(&self) -> Option<PartRef>
        ensures { result ≡ ref_of self.now ModeKey }
    {
        self.mode
    }

    /// The part that sets the size, if there is one.
    pub fn size(&self) -> Option<PartRef>
        ensures { result ≡ ref_of self.now SizeKey }
    {
        self.size
    }

    /// The part of a name.
    pub fn name(&self, name: &[u8]) -> Option<PartRef>
        ensures { result ≡ ref_of self.now (NameKey name.now) }
    {
        let binding = self.names.get(name)?;
        Some(PartRef {
            entry: binding.entry,
            place: 0,
        })
    }

    /// The part of a page.
    pub fn page(&self, page: u32) -> Option<PartRef>
        ensures { result ≡ ref_of self.now (PageKey page) }
    {
        let at = self.pages.at(page)?;
        Some(PartRef {
            entry: at.entry,
            place: at.place + 1,
        })
    }

    /// The part that holds a key.
    #[inline(always)]
    pub fn part(&self, key: Key<'_>) -> Option<PartRef>
        ensures { result ≡ ref_of self.now (key_named key.entry) }
    {
        match key {
            Key::Kind => self.kind,
            Key::Mode => self.mode,
            Key::Size => self.size,
            Key::Name(name) => self.name(name),
            Key::Page(page) => self.page(page),
        }
    }

    /// How many names are bound.
    pub fn name_count(&self) -> usize
        ensures value { result ≡ length self.now.names.names }
        ensures distinct { AreDistinct self.now.names.names }
    {
        self.names.len()
    }

    /// What holds of each index: no name stands in it twice. Costs nothing.
    pub fn tells_names_apart(&self)
        ensures { AreDistinct self.now.names.names }
    {
        let _count = self.name_count();
    }

    /// The part of the name at a place, in the order that names have in the index.
    pub fn name_part_at(&self, place: usize) -> Option<PartRef>
        ensures { result ≡ option_map (λ b. name_part b.1) (slice_get self.now.names.names place) }
    {
        match self.names.at(place) {
            None => None,
            Some((_, binding)) => Some(PartRef {
                entry: binding.entry,
                place: 0,
            }),
        }
    }

    /// All of the run of pages that has a page, or else the first one behind it, which is looked for at a place among
    /// the runs first. That becomes the place behind the run.
    pub fn run_near(&self, page: u32, place: &mut usize) -> Option<PageRun>
        ensures run { IsRunFrom page (ref_at self.now.pages.pages) result }
        ensures within { IfSome result (λ run. IsRun run) }
    {
        self.pages.run_near(page, place)
    }

    /// How many pages are present from one on. Costs a look-up and a step for each run and empty place behind it.
    pub fn present_from(&self, page: u32) -> u32
        ensures { result ≡ present_from page self.now.pages.pages }
    {
        self.pages.present_from(page)
    }

    /// Makes room for what the items need when they take effect: runs of pages, of which it makes room for as many as
    /// there are, if that is more, and the name that one binds.
    ///
    /// `OutOfMemory` where a growth was refused: then nothing has changed but the room for runs.
    pub fn reserve(&mut self, items: &[Item]) -> Result<(), Fault>
        requires one { BindOne items.now }
        ensures same { HasSameParts self.old self.new }
        ensures runs { OnOk result (sum_by page_runs_needed items.now ≤ self.new.pages.room) }
        ensures most { OnOk result (self.new.pages.room
            ≤ max self.old.pages.room (max (sum_by page_runs_needed items.now)
            (run_count_of self.old.pages.pages))) }
        ensures names { OnOk result (NamesReady items.now self.new.names) }
        ensures reserved { OnErr result (self.new.names.reserved ≡ self.old.names.reserved) }
        ensures enough { sum_by page_runs_needed items.now ≤ self.old.pages.room
            → NamesReady items.now self.old.names → IsOk result }
        ensures err { FailsOnly out_of_memory result }
    {
        self.pages.reserve_for(write_count(items))?;
        reserve_name(&mut self.names, items)
    }

    /// Makes room for what one item needs when it takes effect, as [`CellIndex::reserve`] does for several.
    pub fn reserve_for(&mut self, item: &Item) -> Result<(), Fault>
        ensures same { HasSameParts self.old self.new }
        ensures runs { OnOk result (page_runs_needed item.now ≤ self.new.pages.room) }
        ensures names { OnOk result (NameReady item.now self.new.names) }
        ensures err { FailsOnly out_of_memory result }
    {
        self.pages.reserve_for(run_sets(item))?;
        reserve_bound(&mut self.names, item)
    }

    /// The parts of an entry hold their keys now. Its first page, if it has one, is looked for at a place among the runs
    /// first.
    #[inline(always)]
    pub fn put(&mut self, block: u64, entry: &Entry, place: usize)
        requires block { 0 < block }
        requires room { page_runs_needed entry.now.item ≤ self.old.pages.room }
        requires names { NameReady entry.now.item self.old.names }
        ensures names { NamesAfter entry.now.id entry.now.item self.old.names self.new.names }
        ensures room { self.old.pages.room ≤ self.new.pages.room + page_runs_needed entry.now.item }
        ensures refs { (key : KeyValue) → ref_of self.new key
            ≡ ref_after block entry.now key (ref_of self.old key) }
    {
        match &entry.item {
            Item::Init { .. } => {
                self.kind = part_of(entry, 0);
                self.mode = part_of(entry, 1);
                self.size = part_of(entry, 2);
            }
            Item::Write { first, run, .. } => {
                self.size = part_of(entry, 0);
                set_pages(&mut self.pages, *first, run.len, entry.id, place);
            }
            Item::SetSize { size } => {
                self.size = part_of(entry, 0);
                cut_pages(&mut self.pages, size.div_ceil(block));
            }
            Item::SetMode { .. } => self.mode = part_of(entry, 0),
            Item::Bind { name, to } => self.names.bind(
                name.bytes(),
                Binding {
                    to: *to,
                    entry: entry.id,
                },
            ),
            Item::Unbind { name } => self.names.unbind(name.bytes()),
            Item::Gone => {
                self.kind = None;
                self.mode = None;
                self.size = None;
                self.pages.cut_from(0);
                self.names.clear();
            }
        }
    }
}

/// The name that one of the items binds is bound or reserved.
fn reserve_name(names: &mut NameIndex, items: &[Item]) -> Result<(), Fault>
    requires one { BindOne items.now }
    ensures names { names.new.names ≡ names.old.names }
    ensures ready { OnOk result (NamesReady items.now names.new) }
    ensures reserved { OnErr result (names.new.reserved ≡ names.old.reserved) }
    ensures enough { NamesReady items.now names.old → IsOk result }
    ensures err { FailsOnly out_of_memory result }
{
    for item in items {
        if let Item::Bind { name, .. } = item {
            if names.is_reserved(name.bytes()) {
                return Ok(());
            }
            return names.reserve_one(name);
        }
    }
    Ok(())
}

/// The name that an item binds, if it does, is bound or reserved.
fn reserve_bound(names: &mut NameIndex, item: &Item) -> Result<(), Fault>
    ensures names { names.new.names ≡ names.old.names }
    ensures ready { OnOk result (NameReady item.now names.new) }
    ensures err { FailsOnly out_of_memory result }
{
    if let Item::Bind { name, .. } = item {
        return names.reserve_one(name);
    }
    Ok(())
}

fn part_of(entry: &Entry, place: u32) -> Option<PartRef>
    ensures { result ≡ Some (record { entry = entry.now.id; place = place }) }
{
    Some(PartRef {
        entry: entry.id,
        place,
    })
}

/// The pages of a run that a file can have lie in the entry. The first one is looked for at a place first.
fn set_pages(pages: &mut FileIndex, first: u32, len: u32, entry: EntryId, place: usize)
    requires room { 2 ≤ pages.old.room }
    requires within { AreWithin (ref_at pages.old.pages) }
    ensures pages { (page : ℕ) → ref_at pages.new.pages page
        ≡ (if nat_le first page && nat_lt page (first + len) && is_page page
        then Some (record { entry = entry; place = page - first }) else ref_at pages.old.pages page) }
    ensures room { pages.old.room ≤ pages.new.room + 2 }
    ensures within { AreWithin (ref_at pages.new.pages) }
{
    let len = len.min(FILE_PAGES.saturating_sub(first));
    if len > 0 {
        pages.set_run_near(first, len, entry, place);
    }
}

/// No page that a file can have is present from `end` on.
fn cut_pages(pages: &mut FileIndex, end: u64)
    requires { AreWithin (ref_at pages.old.pages) }
    ensures pages { (page : ℕ) → ref_at pages.new.pages page
        ≡ (if nat_le end page && is_page page then None else ref_at pages.old.pages page) }
    ensures room { pages.old.room ≤ pages.new.room }
    ensures within { AreWithin (ref_at pages.new.pages) }
{
    if end < u64::from(FILE_PAGES) {
        pages.cut_from(end as u32);
    }
}
