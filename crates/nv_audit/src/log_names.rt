//! The names of a log, by one pass from its end.

ghost use Rattle.std.specs.Prelude.{◌≡◌, ◌++◌, IfOk, OnOk};
ghost use Rattle.nv_base.specs.Refusals.{FailsOnly};
ghost use Rattle.nv_base.specs.Memory.{out_of_memory};
ghost use Rattle.nv_entry.specs.Index.{bound_name, names_of};
ghost use Rattle.nv_entry.specs.Keys.{name_of};
ghost use Rattle.nv_entry.specs.Log.{seen};
ghost use Rattle.nv_audit.specs.Deaths.{name_cover};

use crate::first_covers::FirstCovers;
use nv_base::Fault;
use nv_entry::{BoundName, Entry, Item, NameList, When};
use std::alloc::{AllocError, Global};

/// The size of blocks says nothing of names, so that any will do.
const ANY_BLOCK: u64 = 1;

/// The names that a log binds now or at an epoch, in the order of the log. Costs one pass over the log from its end, with a
/// look-up for each name, and memory for each name and for each that is bound.
pub(crate) fn names_by(alloc: Global, when: When, log: &[Entry]) -> Result<NameList, Fault>
    ensures ok { IfOk result (λ names. names ≡ names_of (seen when log.now)) }
    ensures err { FailsOnly out_of_memory result }
{
    let mut covers = FirstCovers::new(alloc);
    let mut names = Vec::new(alloc);
    for place in (0..log.len()).rev() {
        let entry = &log[place];
        if when.sees(entry.epoch) {
            push_bound(alloc, &mut names, &covers, &entry.item)?;
            covers.put(ANY_BLOCK, entry)?;
        }
    }
    names.reverse();
    Ok(NameList::from_vec(names))
}

/// Puts the name that an item binds to the end of a list, if no later entry covers it.
fn push_bound(
    alloc: Global,
    names: &mut Vec<BoundName>,
    covers: &FirstCovers<'_>,
    item: &Item,
) -> Result<(), AllocError>
    ensures { OnOk result (names.new.items ≡ names.old.items
        ++ bound_name item.now (name_cover covers.now (name_of item.now))) }
{
    if let Item::Bind { name, to } = item
        && covers.of_name(name.bytes()).is_none()
    {
        names.push(BoundName {
            name: name.copied(alloc)?,
            to: *to,
        })?;
    }
    Ok(())
}
