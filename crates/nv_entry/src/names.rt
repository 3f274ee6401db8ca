//! The names of a directory, from scratch.

ghost use Rattle.std.specs.Prelude.{◌≡◌, ◌++◌, IfOk, OnOk};
ghost use Rattle.nv_entry.specs.Keys.{NameKey, name_of};
ghost use Rattle.nv_entry.specs.Index.{bound_name, names_of};
ghost use Rattle.nv_entry.specs.Log.{first_cover, seen};

use crate::{Entry, Item, Key, When, first_cover};
use nv_base::{Handle, Items, Name};
use std::alloc::{AllocError, Global};

/// A name of a directory, with what it is bound to.
#[derive(Debug, Drop)]
pub struct BoundName {
    pub name: Name,
    pub to: Handle,
}

/// Names of a directory in order.
pub type NameList = Items<BoundName>;

/// The names of a directory now or at an epoch: the bindings that are current there, in log order.
pub fn names_when(alloc: Global, when: When, log: &[Entry]) -> Result<NameList, AllocError>
    // The names of a directory are told in log order, now and at an epoch.
    ensures { IfOk result (λ names. names ≡ names_of (seen when log.now)) }
{
    let mut names = Vec::new(alloc);
    for i in 0..log.len() {
        if when.sees(log[i].epoch) {
            push_bound(alloc, &mut names, &log[i].item, when, &log[i + 1..])?;
        }
    }
    Ok(NameList::from_vec(names))
}

/// Adds the name that an item binds, where none of the later entries covers it.
fn push_bound(
    alloc: Global,
    names: &mut Vec<BoundName>,
    item: &Item,
    when: When,
    later: &[Entry],
) -> Result<(), AllocError>
    ensures { OnOk result (names.new.items ≡ names.old.items
        ++ bound_name item.now (first_cover 1 (seen when later.now) (NameKey (name_of item.now)))) }
{
    if let Item::Bind { name, to } = item
        && first_cover(1, when, later, Key::Name(name.bytes())).is_none()
    {
        names.push(BoundName {
            name: name.copied(alloc)?,
            to: *to,
        })?;
    }
    Ok(())
}
