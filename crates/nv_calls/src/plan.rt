//! The items that a call appends to the logs of its inodes.

ghost use Rattle.std.specs.Prelude.{◌≡◌, ◌==◌, ◌∷◌, ◌++◌, [], ℕ, false, IfOk, OnOk, option_to_list};
ghost use Rattle.std.specs.Option.{option_map_or};
ghost use Rattle.nv_calls.specs.Plan.{planned};
ghost use Rattle.nv_calls.specs.Slots.{items_for};

use nv_base::{Handle, Ino, Items};
use nv_entry::Item;
use std::alloc::{AllocError, Global};
use std::marker::Model;

/// What a call appends to the log of one inode.
#[derive(Debug, Drop)]
pub struct InodePlan {
    pub handle: Handle,
    pub items: Items<Item>,
}

/// What a call appends, inode by inode. No call appends to more than three, so each has a place here, and the list of them
/// takes no memory.
#[derive(Debug, Drop)]
pub struct InodePlans {
    pub(crate) first: Option<InodePlan>,
    pub(crate) second: Option<InodePlan>,
    pub(crate) third: Option<InodePlan>,
}

impl Model for InodePlans {
    ghost use Rattle.std.specs.Prelude.{List, ◌++◌, option_to_list};
    ghost use Rattle.nv_calls.specs.declared.plan.InodePlan.{InodePlan};

    ghost Value = { List InodePlan };

    ghost view = { λ p. option_to_list p.first ++ option_to_list p.second ++ option_to_list p.third };
}

impl InodePlans {
    /// Nothing for any inode.
    pub(crate) fn none() -> InodePlans
        ensures { result ≡ [] }
    {
        InodePlans {
            first: None,
            second: None,
            third: None,
        }
    }

    /// What one inode gets.
    pub(crate) fn one(plan: InodePlan) -> InodePlans
        ensures { result ≡ plan ∷ [] }
    {
        InodePlans {
            first: Some(plan),
            second: None,
            third: None,
        }
    }

    /// What two inodes get.
    pub(crate) fn two(first: InodePlan, second: InodePlan) -> InodePlans
        ensures { result ≡ first ∷ second ∷ [] }
    {
        InodePlans {
            first: Some(first),
            second: Some(second),
            third: None,
        }
    }

    /// Takes out the items for an inode.
    #[inline(always)]
    pub(crate) fn take(&mut self, alloc: Global, ino: Ino) -> Vec<Item>
        ensures items { result.items ≡ items_for self.old ino }
        ensures others { (other : ℕ) → (other ≡ ino → ⊥)
            → items_for self.new other ≡ items_for self.old other }
    {
        if is_for(&self.first, ino) {
            return items_in(alloc, self.first.take());
        }
        if is_for(&self.second, ino) {
            return items_in(alloc, self.second.take());
        }
        if is_for(&self.third, ino) {
            return items_in(alloc, self.third.take());
        }
        Vec::new(alloc)
    }

    /// The plans as a `Vec`, for which it wants memory.
    pub fn into_vec(self, alloc: Global) -> Result<Vec<InodePlan>, AllocError>
        ensures { IfOk result (λ plans. plans.items ≡ self) }
    {
        let InodePlans {
            first,
            second,
            third,
        } = self;
        let mut plans = Vec::new(alloc);
        add(&mut plans, first)?;
        add(&mut plans, second)?;
        add(&mut plans, third)?;
        Ok(plans)
    }
}

/// Whether what is planned in a place is for an inode.
#[inline(always)]
fn is_for(place: &Option<InodePlan>, ino: Ino) -> bool
    ensures { result ≡ option_map_or (λ p. p.handle.ino == ino) place.now false }
{
    match place {
        Some(plan) => plan.handle.ino == ino,
        None => false,
    }
}

/// The items of a place.
#[inline(always)]
fn items_in(alloc: Global, place: Option<InodePlan>) -> Vec<Item>
    ensures { result.items ≡ option_map_or (λ p. p.items) place [] }
{
    match place {
        Some(InodePlan { handle: _, items }) => items.into_vec(),
        None => Vec::new(alloc),
    }
}

/// Adds what is planned in a place.
fn add(plans: &mut Vec<InodePlan>, place: Option<InodePlan>) -> Result<(), AllocError>
    ensures { OnOk result (plans.new.items ≡ plans.old.items ++ option_to_list place) }
{
    if let Some(plan) = place {
        plans.push(plan)?;
    }
    Ok(())
}

impl InodePlan {
    /// One item for the log of an inode.
    pub fn one(alloc: Global, handle: Handle, item: Item) -> Result<InodePlan, AllocError>
        ensures { IfOk result (λ p. p ≡ planned handle (item ∷ [])) }
    {
        let items = list_of_one(alloc, item)?;
        Ok(InodePlan { handle, items })
    }

    /// Two items for the log of an inode.
    pub fn two(
        alloc: Global,
        handle: Handle,
        first: Item,
        second: Item,
    ) -> Result<InodePlan, AllocError>
        ensures { IfOk result (λ p. p ≡ planned handle (first ∷ second ∷ [])) }
    {
        let items = list_of_two(alloc, first, second)?;
        Ok(InodePlan { handle, items })
    }
}

/// A list of one.
#[inline(always)]
pub(crate) fn list_of_one<T: Drop>(alloc: Global, item: T) -> Result<Items<T>, AllocError>
    ensures { IfOk result (λ items. items ≡ item ∷ []) }
{
    let mut items = Vec::new(alloc);
    items.push(item)?;
    Ok(Items::from_vec(items))
}

/// A list of two.
pub(crate) fn list_of_two<T: Drop>(
    alloc: Global,
    first: T,
    second: T,
) -> Result<Items<T>, AllocError>
    ensures { IfOk result (λ items. items ≡ first ∷ second ∷ []) }
{
    let mut items = Vec::new(alloc);
    items.push(first)?;
    items.push(second)?;
    Ok(Items::from_vec(items))
}
