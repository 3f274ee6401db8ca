//! Laws of what a mount makes of an image. Each is the contract of a function that does nothing.

ghost use Rattle.std.specs.Prelude.{◌≡◌, ◌+◌, ◌<◌, ◌≤◌, ℕ, List, if◌then◌else◌, length, map, nat_lt, take};
ghost use Rattle.std.specs.List.{AllByRecursion, flat_map, range_with_len};
ghost use Rattle.nv_alloc.specs.Block.{AreSized, BlockValue};
ghost use Rattle.nv_alloc.specs.Numbers.{has, times};
ghost use Rattle.nv_audit.specs.Faults.{IsFaultless};
ghost use Rattle.nv_audit.specs.Image.{ImageValue, SlotImageValue};
ghost use Rattle.nv_audit.specs.Mounted.{book_anew, cell_with, cut_log, list_anew, records_anew};
ghost use Rattle.nv_base.specs.Limits.{IsWithinLimits};
ghost use Rattle.nv_base.specs.declared.geometry.GeometryNumbers.{GeometryNumbers};
ghost use Rattle.nv_book.specs.Listed.{IsRecordList};
ghost use Rattle.nv_cell.specs.Cell.{IsCell};
ghost use Rattle.nv_cell.specs.Marks.{bit, mark_at};
ghost use Rattle.nv_entry.specs.Log.{IsLog};
ghost use Rattle.nv_epoch.specs.Holders.{IsRising};
ghost use Rattle.nv_log.specs.Image.{IsPaged};
ghost use Rattle.nv_machine.specs.Numbers.{free_of};
ghost use Rattle.nv_machine.specs.Recorded.{IsOfPair, is_marked_kept, times_recorded};
ghost use Rattle.nv_machine.specs.Starts.{IsStart};
ghost use Rattle.nv_machine.specs.World.{cell_at};
ghost use Rattle.nv_cell.specs.Anew.{AreThere};
ghost use Rattle.nv_restart.specs.Mounted.{mounted};

/// AN IMAGE WITHOUT A FAULT mounts to a world where a run may start, with the records anew. So what
/// laws say of any start holds of each world to which events lead from there.
pub fn faultless_images_mount_to_a_start()
    // An image without a fault mounts to a world where a run may start, with the records anew.
    ensures { (image : ImageValue) → IsWithinLimits image.numbers → IsFaultless image
        → IsStart image.numbers (mounted image) (records_anew image) }
{}

/// The cell that the first entries of a slot's log give is one, where these stand on the slot's
/// pages and rise, and the block of each page that is not out is there.
pub fn slots_mount_to_cells()
    // The cell that a slot's first entries give is one, where its chain and blocks are good.
    ensures { (g : GeometryNumbers) → IsWithinLimits g
        → (living : List ℕ) (n : ℕ) (slot : SlotImageValue) → IsPaged g.page slot.chain
        → n ≤ length slot.chain.entries → IsLog slot.chain.entries
        → AreThere g.block living slot.blocks (take n slot.chain.entries)
        → AreSized g.block slot.blocks → AreSized g.block slot.chain.pages
        → IsCell (cell_with g living n slot) }
{}

/// The free lists anew have each block of the device that is not used, once.
pub fn lists_anew_have_the_rest()
    // The free lists anew have each block that is not used, once.
    ensures { (g : GeometryNumbers) → 0 < g.cpus → (used : List ℕ) (block : ℕ → BlockValue)
        → ((n : ℕ) → (block n).number ≡ n) → ((n : ℕ) → 1 ≤ times n used → n < g.blocks)
        → ((n : ℕ) → times n used ≤ 1) → (n : ℕ)
        → times n (flat_map free_of (map (list_anew g (has used) block) (range_with_len 0 g.cpus)))
        + times n used
        ≡ (if nat_lt n g.blocks then 1 else 0) }
{}

/// The records anew are those of manifests without a deferred one. Where snapshots and the ids of
/// cut logs rise, each part that is kept has one of them and no other part has any, and each is of
/// its pair, with the same holders.
pub fn records_anew_are_of_what_is_kept()
    // The records anew are those of the manifests, and none is deferred.
    ensures filed { (image : ImageValue) → IsRecordList image.snapshots (book_anew image).manifests
        (book_anew image).deferred (records_anew image) }
    // Each part that is kept has one of them, and no other part has any.
    ensures once { (image : ImageValue) → IsRising image.snapshots
        → ((ino : ℕ) → IsLog (cut_log image ino)) → (ino n : ℕ) → ino < length image.slots
        → times_recorded (mounted image) ino n
        ≡ bit (is_marked_kept (mark_at (cell_at (mounted image).shared ino).marks n)) }
    // Each of them is of its pair, and the same snapshots hold both.
    ensures paired { (image : ImageValue) → IsRising image.snapshots
        → ((ino : ℕ) → IsLog (cut_log image ino))
        → AllByRecursion (IsOfPair (mounted image)) (records_anew image) }
{}
