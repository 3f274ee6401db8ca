//! A list of items that contracts see as a list.

ghost use Rattle.std.specs.Prelude.{◌≡◌, ◌↔◌, [], IsTrue, length};

use std::alloc::Global;
use std::marker::Model;

/// Items in order, which contracts see as a list. They are made from a `Vec` and give it back without memory.
#[derive(Debug, Drop)]
pub struct Items<T> {
    items: Vec<T>,
}

/// Bytes that contracts see as a list.
pub type Bytes = Items<u8>;

impl<T> Model for Items<T> {
    ghost use Rattle.std.specs.Prelude.{List};

    ghost Value = { List T };

    ghost view = { λ i. i.items.items };
}

impl<T> Items<T> {
    /// No items, which take no memory.
    pub fn empty(alloc: Global) -> Items<T>
        ensures { result ≡ [] }
    {
        Items {
            items: Vec::new(alloc),
        }
    }

    /// The list of a `Vec`'s items.
    pub fn from_vec(items: Vec<T>) -> Items<T>
        // A list made of a `Vec` has its items.
        ensures { result ≡ items.items }
    {
        Items { items }
    }

    /// The items as a `Vec`.
    pub fn into_vec(self) -> Vec<T>
        // A list gives its items back as a `Vec`.
        ensures { result.items ≡ self }
    {
        self.items
    }

    /// The items as a slice.
    pub fn as_slice(&self) -> &[T]
        // A list shows its items as a slice.
        ensures { result.now ≡ self.now }
    {
        &self.items
    }

    /// How many items there are.
    pub fn len(&self) -> usize
        // Readers tell a list's length and whether it is empty; an empty one has no items.
        ensures { result ≡ length self.now }
    {
        self.items.len()
    }

    /// Whether there is no item.
    pub fn is_empty(&self) -> bool
        ensures { IsTrue result ↔ (self.now ≡ []) }
    {
        self.items.is_empty()
    }
}
