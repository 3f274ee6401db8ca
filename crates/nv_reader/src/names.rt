//! The names of a directory by its log.

ghost use Rattle.std.specs.Prelude.{◌≡◌, IfOk};
ghost use Rattle.nv_entry.specs.Index.{names_of};

use nv_entry::{BoundName, Entry, Item, NameList};
use std::alloc::{AllocError, Global};
use std::collections::HashSet;

/// The names that a log binds, in its order. Costs one pass over the log from its end, with a look-up for each entry
/// that tells of a name.
pub(crate) fn names_by(alloc: Global, log: &[Entry]) -> Result<NameList, AllocError>
    ensures { IfOk result (λ names. names ≡ names_of log.now) }
{
    let mut names = Vec::new(alloc);
    // The names that later entries tell of.
    let mut told = HashSet::new(alloc);
    for i in (0..log.len()).rev() {
        match &log[i].item {
            Item::Bind { name, to } => {
                if told.insert(name.bytes())? {
                    names.push(BoundName {
                        name: name.copied(alloc)?,
                        to: *to,
                    })?;
                }
            }
            Item::Unbind { name } => {
                told.insert(name.bytes())?;
            }
            Item::Gone => break,
            Item::Init { .. } | Item::Write { .. } | Item::SetSize { .. } | Item::SetMode { .. } =>
                {}
        }
    }
    names.reverse();
    Ok(NameList::from_vec(names))
}
