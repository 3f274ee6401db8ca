//! Keys of an inode, and what an item does to each.

ghost use Rattle.std.specs.Prelude.{◌≡◌, ◌<◌, ◌≤◌};
ghost use Rattle.std.specs.Prelude.{◌+◌, ◌-◌, if◌then◌else◌};
ghost use Rattle.nv_entry.specs.Keys.{KindKey, ModeKey, NameKey, PageKey, SizeKey, in_run, key_named, sets};
ghost use Rattle.nv_entry.specs.Data.{block_in, mode_in, node_in, size_in};
ghost use Rattle.nv_entry.specs.declared.key.Datum.TheVariants.{Block};
ghost use Rattle.nv_entry.specs.declared.key.Setting.TheVariants.{Present, Untouched};

use crate::{BlockRun, Item};
use nv_base::limits::FILE_PAGES;
use nv_base::{BlockNo, Handle, Kind, Mode};

/// A key of an inode, by which its values are named. Pages are numbered from 0, below 65,536.
#[derive(Clone, Copy, Debug)]
pub enum Key<'a> {
    Kind,
    Mode,
    Size,
    Name(&'a [u8]),
    Page(u32),
}

/// A value that a key may have.
#[derive(Clone, Copy, Debug, PartialEq, Eq)]
pub enum Datum {
    Kind(Kind),
    Mode(Mode),
    /// Bytes of a file; 0 for a directory.
    Size(u64),
    /// What a name is bound to.
    Node(Handle),
    /// The block of a page.
    Block(BlockNo),
}

impl Datum {
    /// The mode, if it is one.
    pub fn mode(self) -> Option<Mode>
        // The fields of a value read as they are defined.
        ensures { result ≡ mode_in self }
    {
        match self {
            Datum::Mode(mode) => Some(mode),
            Datum::Kind(_) | Datum::Size(_) | Datum::Node(_) | Datum::Block(_) => None,
        }
    }

    /// The size in bytes, if it is one.
    pub fn size(self) -> Option<u64>
        ensures { result ≡ size_in self }
    {
        match self {
            Datum::Size(size) => Some(size),
            Datum::Kind(_) | Datum::Mode(_) | Datum::Node(_) | Datum::Block(_) => None,
        }
    }

    /// The inode, if it is one.
    pub fn node(self) -> Option<Handle>
        ensures { result ≡ node_in self }
    {
        match self {
            Datum::Node(to) => Some(to),
            Datum::Kind(_) | Datum::Mode(_) | Datum::Size(_) | Datum::Block(_) => None,
        }
    }

    /// The block, if it is one.
    pub fn block(self) -> Option<BlockNo>
        ensures { result ≡ block_in self }
    {
        match self {
            Datum::Block(block) => Some(block),
            Datum::Kind(_) | Datum::Mode(_) | Datum::Size(_) | Datum::Node(_) => None,
        }
    }
}

/// What an item does to a key.
#[derive(Clone, Copy, Debug, PartialEq, Eq)]
pub enum Setting {
    Untouched,
    Absent,
    Present(Datum),
}

impl Item {
    /// What the item does to a key, in a file system with blocks of `block` bytes.
    pub fn setting(&self, block: u64, key: Key<'_>) -> Setting
        requires { 0 < block }
        // An item sets each key as its definition says.
        ensures { result ≡ sets block self.now (key_named key.entry) }
    {
        match key {
            Key::Kind => kind_setting(self),
            Key::Mode => mode_setting(self),
            Key::Size => size_setting(self),
            Key::Name(name) => name_setting(self, name),
            Key::Page(page) => page_setting(block, self, page),
        }
    }
}

fn kind_setting(item: &Item) -> Setting
    ensures { result ≡ sets 1 item.now KindKey }
{
    match item {
        Item::Init { kind, .. } => Setting::Present(Datum::Kind(*kind)),
        Item::Gone => Setting::Absent,
        Item::Write { .. }
        | Item::SetSize { .. }
        | Item::SetMode { .. }
        | Item::Bind { .. }
        | Item::Unbind { .. } => Setting::Untouched,
    }
}

fn mode_setting(item: &Item) -> Setting
    ensures { result ≡ sets 1 item.now ModeKey }
{
    match item {
        Item::Init { mode, .. } | Item::SetMode { mode } => Setting::Present(Datum::Mode(*mode)),
        Item::Gone => Setting::Absent,
        Item::Write { .. } | Item::SetSize { .. } | Item::Bind { .. } | Item::Unbind { .. } => {
            Setting::Untouched
        }
    }
}

fn size_setting(item: &Item) -> Setting
    ensures { result ≡ sets 1 item.now SizeKey }
{
    match item {
        Item::Init { .. } => Setting::Present(Datum::Size(0)),
        Item::Write { size, .. } | Item::SetSize { size } => Setting::Present(Datum::Size(*size)),
        Item::Gone => Setting::Absent,
        Item::SetMode { .. } | Item::Bind { .. } | Item::Unbind { .. } => Setting::Untouched,
    }
}

fn name_setting(item: &Item, other: &[u8]) -> Setting
    ensures { result ≡ sets 1 item.now (NameKey other.now) }
{
    match item {
        Item::Bind { name, to } if name.bytes() == other => Setting::Present(Datum::Node(*to)),
        Item::Unbind { name } if name.bytes() == other => Setting::Absent,
        Item::Gone => Setting::Absent,
        Item::Init { .. }
        | Item::Write { .. }
        | Item::SetSize { .. }
        | Item::SetMode { .. }
        | Item::Bind { .. }
        | Item::Unbind { .. } => Setting::Untouched,
    }
}

fn page_setting(block: u64, item: &Item, page: u32) -> Setting
    requires { 0 < block }
    ensures { result ≡ sets block item.now (PageKey page) }
{
    if page >= FILE_PAGES {
        return Setting::Untouched;
    }
    match item {
        Item::Write { first, run, .. } => run_setting(*first, run, page),
        Item::SetSize { size } if u64::from(page) >= size.div_ceil(block) => Setting::Absent,
        Item::Gone => Setting::Absent,
        Item::Init { .. }
        | Item::SetSize { .. }
        | Item::SetMode { .. }
        | Item::Bind { .. }
        | Item::Unbind { .. } => Setting::Untouched,
    }
}

/// What a run of blocks, the first of which is page `first`, does to a page that a file can have.
fn run_setting(first: u32, run: &BlockRun, page: u32) -> Setting
    requires { page < FILE_PAGES }
    ensures { result ≡ (if in_run first run.now page
        then Present (Block (run.now.start + (page - first))) else Untouched) }
{
    if page < first || page - first >= run.len {
        return Setting::Untouched;
    }
    let block = run.start.number() + u64::from(page - first);
    Setting::Present(Datum::Block(BlockNo::new(block)))
}
