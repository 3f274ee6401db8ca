//! The index of a cell and the blocks of its parts, lent to be judged beside its log.

ghost use Rattle.std.specs.Prelude.{◌≡◌, ℕ, option_to_list};
ghost use Rattle.std.specs.List.{flat_map};
ghost use Rattle.std.specs.Option.{option_map};
ghost use Rattle.nv_cell.specs.Cell.{log_of, of_part};
ghost use Rattle.nv_cell.specs.Index.{bindings_of, page_part};
ghost use Rattle.nv_entry.specs.Keys.{PageKey, key_named};
ghost use Rattle.nv_entry.specs.Refs.{scan_ref};
ghost use Rattle.nv_findex.specs.Pages.{ref_at};
ghost use Rattle.nv_nindex.specs.NameIndex.{HaveSameBindings};

use crate::InodeCell;
use nv_alloc::Block;
use nv_entry::{Key, PartRef};
use nv_findex::FileIndex;
use nv_nindex::NameIndex;

impl InodeCell {
    /// The part that the index names at a key. Costs one look-up at most.
    pub fn indexed(&self, key: Key<'_>) -> Option<PartRef>
        // A cell lends its index of pages, which is the scan of its log.
        ensures { result
            ≡ scan_ref self.now.state.block (log_of self.now.state) (key_named key.entry) }
    {
        self.index.part(key)
    }

    /// Where each page lies by the index.
    pub fn page_index(&self) -> &FileIndex
        ensures { (page : ℕ) → option_map page_part (ref_at result.now.pages page)
            ≡ scan_ref self.now.state.block (log_of self.now.state) (PageKey page) }
    {
        &self.index.pages
    }

    /// The names by the index.
    pub fn name_index(&self) -> &NameIndex
        // A cell lends its index of names, which binds as the log does.
        ensures { HaveSameBindings (bindings_of (log_of self.now.state)) result.now.names }
    {
        &self.index.names
    }

    /// The blocks of the parts, those past the tail too, in the order of the log. Where a page is out there is none.
    pub fn part_blocks(&self) -> &[Option<Block>]
        // The blocks of all parts are lent, in log order.
        ensures blocks { flat_map option_to_list result.now
            ≡ flat_map option_to_list self.now.state.blocks }
        ensures numbers { flat_map of_part result.now ≡ flat_map of_part self.now.state.blocks }
    {
        &self.blocks
    }
}
