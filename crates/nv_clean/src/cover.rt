//! What the entries that stay cover, as far as a later entry may hide it.

ghost use Rattle.std.specs.Prelude.{◌≡◌, ◌++◌, ◌∷◌, ◌<◌, ◌||◌, [], OnOk, List, ℕ};
ghost use Rattle.std.specs.List.{list_any};
ghost use Rattle.std.specs.Option.{option_map};
ghost use Rattle.nv_base.specs.Names.{same_name};
ghost use Rattle.nv_entry.specs.Clean.{hides};
ghost use Rattle.nv_entry.specs.declared.item.Entry.{Entry};
ghost use Rattle.nv_clean.specs.Cover.{AddsItem, Covers, ends_all, is_hidden, is_of_name, named_by, reach};

use nv_base::limits::FILE_PAGES;
use nv_entry::Item;
use std::alloc::{AllocError, Global};
use std::collections::HashSet;

/// What some entries cover: whether there are any, whether one of them says that the inode is gone, the page behind
/// the last that one of them covers, and the names that they bind or unbind.
#[derive(Drop)]
pub struct Cover<'a> {
    pub some: bool,
    pub gone: bool,
    pub reach: u64,
    pub names: HashSet<&'a [u8]>,
}

impl<'a> Cover<'a> {
    /// What no entry covers. Takes no memory.
    pub fn new(alloc: Global) -> Cover<'a>
        ensures { (block : ℕ) → Covers block [] result }
    {
        Cover {
            some: false,
            gone: false,
            reach: 0,
            names: HashSet::new(alloc),
        }
    }

    /// Whether an item sets a key to absent that one of the entries covers. On average the time does not grow with them.
    pub fn is_hidden_by(&self, block: u64, item: &Item) -> bool
        requires { 0 < block }
        ensures value { result ≡ is_hidden block item.now self.now }
    {
        match item {
            Item::SetSize { size } => size.div_ceil(block) < self.reach,
            Item::Unbind { name } => self.gone || self.names.contains(name.bytes()),
            Item::Gone => self.some,
            Item::Init { .. } | Item::Write { .. } | Item::SetMode { .. } | Item::Bind { .. } => {
                false
            }
        }
    }

    /// One more entry stays.
    pub fn add(&mut self, block: u64, item: &'a Item) -> Result<(), AllocError>
        requires { 0 < block }
        ensures { OnOk result (AddsItem block item.now self.old self.new) }
    {
        add_name(&mut self.names, item)?;
        self.some = true;
        self.gone = self.gone || is_gone(item);
        self.reach = self.reach.max(reach(block, item));
        Ok(())
    }
}

/// The name that an item binds or unbinds, if any, is among these.
fn add_name<'a>(names: &mut HashSet<&'a [u8]>, item: &'a Item) -> Result<(), AllocError>
    ensures { OnOk result ((name : List ℕ) → list_any (λ k. same_name name k.now) names.new.keys
        ≡ (list_any (λ k. same_name name k.now) names.old.keys || is_of_name item.now name)) }
{
    if let Some(name) = name_of(item) {
        names.insert(name)?;
    }
    Ok(())
}

/// The name that an item binds or unbinds, if any.
fn name_of(item: &Item) -> Option<&[u8]>
    ensures { option_map (λ name. name.now) result ≡ named_by item.now }
{
    match item {
        Item::Bind { name, .. } | Item::Unbind { name } => Some(name.bytes()),
        _ => None,
    }
}

fn is_gone(item: &Item) -> bool
    ensures { result ≡ ends_all item.now }
{
    matches!(item, Item::Gone)
}

/// The page behind the last that an item covers.
fn reach(block: u64, item: &Item) -> u64
    requires { 0 < block }
    ensures { result ≡ reach block item.now }
{
    let end = u64::from(FILE_PAGES);
    match item {
        Item::Write { first, run, .. } => {
            let first = u64::from(*first);
            let past = end.min(first + u64::from(run.len));
            if first < past { past } else { 0 }
        }
        Item::SetSize { size } => if size.div_ceil(block) < end { end } else { 0 },
        Item::Gone => end,
        Item::Init { .. } | Item::SetMode { .. } | Item::Bind { .. } | Item::Unbind { .. } => 0,
    }
}
