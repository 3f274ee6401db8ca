//! Which of some entries covers each key first.

ghost use Rattle.std.specs.Prelude.{◌≡◌, ◌<◌, ◌≤◌, ◌&&◌, ℕ, List, None, OnOk, Option, Some, if◌then◌else◌, nat_le, nat_lt};
ghost use Rattle.std.specs.Option.{option_or};
ghost use Rattle.nv_base.specs.Refusals.{FailsOnly};
ghost use Rattle.nv_base.specs.Memory.{out_of_memory};
ghost use Rattle.nv_base.specs.Names.{same_name};
ghost use Rattle.nv_base.specs.declared.limits.TheConstants.{FILE_PAGES};
ghost use Rattle.nv_entry.specs.Keys.{Key as KeyValue, NameKey, PageKey, covers, key_named};
ghost use Rattle.nv_entry.specs.declared.item.Entry.{Entry as EntryValue};
ghost use Rattle.nv_audit.specs.Deaths.{Puts, cover_before, cover_in, epoch_of, name_cover, others_after, page_cover, page_cover_before};
ghost use Rattle.nv_audit.specs.Names.{name_in};

use crate::logged::Logged;
use crate::scanned_pages::{first_past, run_pages, set_pages};
use nv_base::limits::FILE_PAGES;
use nv_base::{EntryId, Epoch, Fault};
use nv_entry::{Entry, Item, Key};
use nv_findex::FileIndex;
use std::alloc::{AllocError, Global};
use std::collections::HashMap;
use std::ops::Range;

/// For each key the first of some entries of a log that covers it: its epoch, and for a page its id. The entries are put
/// one by one, from the last one back.
#[derive(Drop)]
pub(crate) struct FirstCovers<'a> {
    kind: Option<Epoch>,
    mode: Option<Epoch>,
    size: Option<Epoch>,
    // The numbers of epochs.
    names: HashMap<&'a [u8], u64>,
    // That of each name which is not among them.
    others: Option<Epoch>,
    pages: FileIndex,
}

impl<'a> FirstCovers<'a> {
    /// Of no entry. It takes no memory yet.
    pub(crate) fn new(alloc: Global) -> FirstCovers<'a>
        ensures { (log : List EntryValue) (key : KeyValue) → cover_in log result key ≡ None }
    {
        FirstCovers {
            kind: None,
            mode: None,
            size: None,
            names: HashMap::new(alloc),
            others: None,
            pages: FileIndex::new(alloc),
        }
    }

    /// The epoch of the first that covers a key, if one does; the entries are those of a log. Costs a look-up of the
    /// name, or of the page and its entry.
    pub(crate) fn get(&self, logged: &Logged<'_>, key: Key<'_>) -> Option<Epoch>
        ensures { result ≡ cover_in logged.now.log self.now (key_named key.entry) }
    {
        match key {
            Key::Kind => self.kind,
            Key::Mode => self.mode,
            Key::Size => self.size,
            Key::Name(name) => self.of_name(name),
            Key::Page(page) => epoch_of(logged, self.pages.at(page)?.entry),
        }
    }

    /// Puts the entry that stands before them. Costs a look-up of the name, or of the run of pages.
    pub(crate) fn put(&mut self, block: u64, entry: &'a Entry) -> Result<(), Fault>
        requires { 0 < block }
        ensures ok { OnOk result (Puts block entry.now self.old self.new) }
        ensures err { FailsOnly out_of_memory result }
    {
        self.kind = cover_before(block, entry, Key::Kind, self.kind);
        self.mode = cover_before(block, entry, Key::Mode, self.mode);
        self.size = cover_before(block, entry, Key::Size, self.size);
        put_name(&mut self.names, entry)?;
        self.others = others_after(entry, self.others);
        put_pages(&mut self.pages, block, entry)
    }

    /// The same of a name.
    pub(crate) fn of_name(&self, name: &[u8]) -> Option<Epoch>
        ensures { result ≡ name_cover self.now name.now }
    {
        match self.names.get(name) {
            Some(epoch) => Some(Epoch::new(*epoch)),
            None => self.others,
        }
    }
}

/// The epoch of an entry, if it covers a key, and else that of the first behind it which does.
fn cover_before(block: u64, entry: &Entry, key: Key<'_>, later: Option<Epoch>) -> Option<Epoch>
    requires { 0 < block }
    ensures { result ≡ cover_before block entry.now (key_named key.entry) later }
{
    if entry.item.covers(block, key) {
        return Some(entry.epoch);
    }
    later
}

/// The epoch of the entry of that id in a log.
fn epoch_of(logged: &Logged<'_>, id: EntryId) -> Option<Epoch>
    ensures { result ≡ epoch_of logged.now.log id }
{
    let place = logged.place_of(id)?;
    let entry = logged.log().get(place)?;
    Some(entry.epoch)
}

/// Puts the name that an entry covers, if it is a single one. Where it covers all, none is left beside the others.
fn put_name<'a>(names: &mut HashMap<&'a [u8], u64>, entry: &'a Entry) -> Result<(), AllocError>
    ensures { OnOk result ((block : ℕ) (name : List ℕ) (others : Option ℕ)
        → option_or (name_in names.new.entries name) (others_after entry.now others)
        ≡ cover_before block entry.now (NameKey name)
        (option_or (name_in names.old.entries name) others)) }
{
    match &entry.item {
        Item::Bind { name, .. } | Item::Unbind { name } => {
            put_one(names, name.bytes(), entry.epoch)
        }
        Item::Gone => {
            names.clear();
            Ok(())
        }
        Item::Init { .. } | Item::Write { .. } | Item::SetSize { .. } | Item::SetMode { .. } => {
            Ok(())
        }
    }
}

/// Puts the epoch of one name.
fn put_one<'a>(
    names: &mut HashMap<&'a [u8], u64>,
    name: &'a [u8],
    epoch: Epoch,
) -> Result<(), AllocError>
    ensures { OnOk result ((other : List ℕ) → name_in names.new.entries other
        ≡ (if same_name name.now other then Some epoch else name_in names.old.entries other)) }
{
    names.insert(name, epoch.number())?;
    Ok(())
}

/// The epoch of an entry, if it covers all names, and else that of the others behind it.
fn others_after(entry: &Entry, later: Option<Epoch>) -> Option<Epoch>
    ensures { result ≡ others_after entry.now later }
{
    if let Item::Gone = entry.item {
        return Some(entry.epoch);
    }
    later
}

/// Puts the pages that an entry covers.
fn put_pages(pages: &mut FileIndex, block: u64, entry: &Entry) -> Result<(), Fault>
    requires { 0 < block }
    ensures ok { OnOk result ((page : ℕ) → page_cover pages.new page
        ≡ page_cover_before block entry.now page (page_cover pages.old page)) }
    ensures err { FailsOnly out_of_memory result }
{
    set_pages(pages, covered_pages(block, &entry.item), entry.id)
}

/// The pages that an item covers.
fn covered_pages(block: u64, item: &Item) -> Range<u32>
    requires { 0 < block }
    ensures within { result.end ≤ FILE_PAGES }
    ensures pages { (page : ℕ) → covers block item.now (PageKey page)
        ≡ (nat_le result.start page && nat_lt page result.end) }
{
    match item {
        Item::Write { first, run, .. } => run_pages(*first, run.len),
        Item::SetSize { size } => first_past(block, *size)..FILE_PAGES,
        Item::Gone => 0..FILE_PAGES,
        Item::Init { .. } | Item::SetMode { .. } | Item::Bind { .. } | Item::Unbind { .. } => 0..0,
    }
}
