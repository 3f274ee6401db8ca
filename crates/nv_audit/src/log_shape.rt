//! The shape of a log, and the last commit and epoch that it may be of.

ghost use Rattle.std.specs.Prelude.{◌≡◌, ◌+◌, ◌*◌, ◌<◌, ◌≤◌, ◌↔◌, ℕ, IsTrue, Some};
ghost use Rattle.nv_base.specs.declared.limits.TheConstants.{FILE_PAGES};
ghost use Rattle.nv_base.specs.declared.node.Kind.TheVariants.{Dir, File};
ghost use Rattle.nv_entry.specs.Shape.{AreLawful, IsGoneLast, IsLawful, IsShaped, items_of, kind_after};
ghost use Rattle.nv_entry.specs.declared.item.Item.TheVariants.{Gone};
ghost use Rattle.nv_cell.specs.Readers.{is_gone};
ghost use Rattle.nv_cell.specs.Shape.{IsLeftShaped};
ghost use Rattle.nv_audit.specs.LogShape.{AreLawfulFromSome, AreNoLater, IsNoLater};

use nv_base::limits::FILE_PAGES;
use nv_base::{CommitNo, Epoch, Kind};
use nv_entry::{BlockRun, Entry, Item};

/// Whether a log is of its shape: it begins with its only Init, each further item is one of the inode's kind
/// within the limits, and nothing stands behind a Gone. A log without entries is. Costs two passes over the log.
pub fn is_shaped(block: u64, log: &[Entry]) -> bool
    // A log passes exactly where it begins with its only Init and each further item suits the inode's kind.
    // With an entry behind a Gone it does not pass.
    ensures { IsTrue result ↔ IsShaped block log.now }
{
    are_lawful_from(block, log, None) && is_gone_last(log)
}

/// Whether a log that cleaners may have cleaned is of its shape: one that ends with a Gone may have lost its first
/// entries, so that its items need be lawful from some kind on alone. Costs up to four passes over the log.
pub fn is_left_shaped(block: u64, log: &[Entry]) -> bool
    // A log that cleaners may have cleaned passes exactly where it is of its shape.
    ensures { IsTrue result ↔ IsLeftShaped block log.now }
{
    if ends_with_gone(log) {
        return are_lawful_from_some(block, log) && is_gone_last(log);
    }
    is_shaped(block, log)
}

/// Whether the items of a log are lawful one after another from some kind on, or from nothing on: so are those of
/// a gone inode whose first entries a cleaner took out. Costs up to three passes over the log.
pub fn are_lawful_from_some(block: u64, log: &[Entry]) -> bool
    // A log passes exactly where its items are lawful from some kind on.
    ensures { IsTrue result ↔ AreLawfulFromSome block log.now }
{
    are_lawful_from(block, log, None)
        || are_lawful_from(block, log, Some(Kind::File))
        || are_lawful_from(block, log, Some(Kind::Dir))
}

/// Whether the items of a log are lawful one after another, where the inode is of this kind before them, if of
/// any. Costs one pass over the log.
pub fn are_lawful_from(block: u64, log: &[Entry], before: Option<Kind>) -> bool
    // Whether the items are lawful one after another from this kind on is told, or from nothing on.
    ensures { IsTrue result ↔ AreLawful block (items_of log.now) before }
{
    let mut kind = before;
    for entry in log {
        if !is_lawful(block, &entry.item, kind) {
            return false;
        }
        kind = kind_after(&entry.item, kind);
    }
    true
}

/// Whether nothing stands behind a Gone. Costs one pass over the log.
pub fn is_gone_last(log: &[Entry]) -> bool
    // A log passes exactly where nothing stands behind a Gone.
    ensures { IsTrue result ↔ IsGoneLast (items_of log.now) }
{
    let mut gone = false;
    for entry in log {
        if gone {
            return false;
        }
        gone = is_gone(&entry.item);
    }
    true
}

/// Whether no entry of a log is of a later commit or epoch than these. Costs one pass over the log.
pub fn are_no_later(commit: CommitNo, epoch: Epoch, log: &[Entry]) -> bool
    // A log passes exactly where no entry is of a later commit or epoch than these.
    ensures { IsTrue result ↔ AreNoLater commit epoch log.now }
{
    for entry in log {
        if !is_no_later(commit, epoch, entry) {
            return false;
        }
    }
    true
}

fn is_no_later(commit: CommitNo, epoch: Epoch, entry: &Entry) -> bool
    ensures { IsTrue result ↔ IsNoLater commit epoch entry.now }
{
    entry.id.commit <= commit && entry.epoch <= epoch
}

/// Whether an inode of a kind, or one without, can take the item.
fn is_lawful(block: u64, item: &Item, before: Option<Kind>) -> bool
    ensures { IsTrue result ↔ IsLawful block item.now before }
{
    match before {
        None => is_init(block, item),
        Some(Kind::File) => is_of_file(block, item),
        Some(Kind::Dir) => is_of_directory(block, item),
    }
}

fn is_init(block: u64, item: &Item) -> bool
    ensures { IsTrue result ↔ IsLawful block item.now None }
{
    // The size of blocks says nothing of a first item.
    let _block = block;
    match item {
        Item::Init { .. } => true,
        Item::Write { .. } | Item::SetSize { .. } | Item::SetMode { .. } => false,
        Item::Bind { .. } | Item::Unbind { .. } | Item::Gone => false,
    }
}

fn is_of_file(block: u64, item: &Item) -> bool
    ensures { IsTrue result ↔ IsLawful block item.now (Some File) }
{
    match item {
        Item::Write { first, run, size } => {
            is_of_pages(*first, *run) && is_file_size(block, *size)
        }
        Item::SetSize { size } => is_file_size(block, *size),
        Item::SetMode { .. } | Item::Gone => true,
        Item::Init { .. } | Item::Bind { .. } | Item::Unbind { .. } => false,
    }
}

fn is_of_directory(block: u64, item: &Item) -> bool
    ensures { IsTrue result ↔ IsLawful block item.now (Some Dir) }
{
    // The size of blocks says nothing of names.
    let _block = block;
    match item {
        Item::Bind { name, .. } | Item::Unbind { name } => {
            name.has_lawful_bytes();
            true
        }
        Item::SetMode { .. } | Item::Gone => true,
        Item::Init { .. } | Item::Write { .. } | Item::SetSize { .. } => false,
    }
}

/// Whether a run from a page on is of pages that a file can have, and of one at least.
fn is_of_pages(first: u32, run: BlockRun) -> bool
    ensures { IsTrue result ↔ ((0 < run.len) × (first + run.len ≤ FILE_PAGES)) }
{
    run.len > 0 && u64::from(first) + u64::from(run.len) <= u64::from(FILE_PAGES)
}

/// Whether a file can have so many bytes.
fn is_file_size(block: u64, size: u64) -> bool
    ensures { IsTrue result ↔ (size ≤ FILE_PAGES * block) }
{
    size <= u64::from(FILE_PAGES).saturating_mul(block)
}

/// The kind of an inode after one more item.
fn kind_after(item: &Item, before: Option<Kind>) -> Option<Kind>
    ensures { result ≡ kind_after item.now before }
{
    match item {
        Item::Init { kind, .. } => Some(*kind),
        Item::Gone => None,
        _ => before,
    }
}

/// Whether the last entry says that the inode is gone.
pub(crate) fn ends_with_gone(log: &[Entry]) -> bool
    ensures { result ≡ is_gone log.now }
{
    match log.last() {
        Some(last) => is_gone(&last.item),
        None => false,
    }
}

fn is_gone(item: &Item) -> bool
    ensures { IsTrue result ↔ (item.now ≡ Gone) }
{
    matches!(item, Item::Gone)
}
