//! A chain as it stands in the image of a device.

ghost use Rattle.std.specs.Prelude.{◌≡◌};
ghost use Rattle.nv_log.specs.Image.{no_chain};

use nv_alloc::Block;
use nv_entry::Entry;
use std::alloc::Global;
use std::marker::Model;

/// A chain as it stands in the image of a device, which may come from anywhere: its parts need not fit one another.
/// [`crate::Chain::rebuild`] makes a chain of one whose parts do.
///
/// It owns its blocks, so it is no `Drop`.
pub struct ChainImage {
    /// The blocks of the pages.
    pub pages: Vec<Block>,
    /// Where each page with entries ends, as a number of entries.
    pub ends: Vec<usize>,
    /// The entries in append order.
    pub entries: Vec<Entry>,
    /// How many of them count.
    pub tail: usize,
}

impl Model for ChainImage {
    ghost use Rattle.nv_log.specs.Image.{ChainImageValue};

    ghost Value = { ChainImageValue };

    ghost view = { λ c. record {
      pages = c.pages.items;
      ends = c.ends.items;
      entries = c.entries.items;
      tail = c.tail;
    } };
}

impl ChainImage {
    /// A chain without pages and entries.
    pub fn empty(alloc: Global) -> ChainImage
        // A chain image without pages and entries is made without memory.
        ensures { result ≡ no_chain }
    {
        ChainImage {
            pages: Vec::new(alloc),
            ends: Vec::new(alloc),
            entries: Vec::new(alloc),
            tail: 0,
        }
    }
}
