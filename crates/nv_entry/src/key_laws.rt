//! Laws of keys, each the contract of a function that does nothing: what later entries leave of an epoch, which
//! part holds a key, which parts are covered, how pairs live and die, and what may leave a log.

ghost use Rattle.std.specs.Prelude.{◌≡◌, ◌↔◌, ◌<◌, ◌≤◌, ℕ, Bool, true, false, not, List, [], ◌∷◌, ◌++◌, Some, length};
ghost use Rattle.std.specs.List.{list_any};
ghost use Rattle.nv_entry.specs.Clean.{IsDroppable, hides};
ghost use Rattle.nv_entry.specs.Counts.{is_entry_kept, is_live, valid_of};
ghost use Rattle.nv_entry.specs.Covered.{OneMoreCovers, UncoveredAreCurrent, any_cover, covered_of, has_uncovered};
ghost use Rattle.nv_entry.specs.Killing.{NamesKilled, OneMorePairs, with_pending};
ghost use Rattle.nv_entry.specs.Held.{Retention};
ghost use Rattle.nv_entry.specs.Keys.{Key};
ghost use Rattle.nv_entry.specs.Later.{AreAfter, SameAtEpoch};
ghost use Rattle.nv_entry.specs.Leaving.{MayAllLeave, MayLeave, KeepsTheRest};
ghost use Rattle.nv_entry.specs.Log.{IsLog};
ghost use Rattle.nv_entry.specs.Refs.{IsCurrentPart, IsPlaced, NamesByIds, OneMoreRef, RefsGive, UncoveredIsHeld, scan_ref};
ghost use Rattle.nv_entry.specs.declared.item.Entry.{Entry};
ghost use Rattle.nv_entry.specs.declared.item.Item.{Item};
ghost use Rattle.nv_entry.specs.declared.part.PartId.{PartId};
ghost use Rattle.nv_entry.specs.declared.part_ref.PartRef.{PartRef};

/// Entries of later epochs behind a log change nothing that it says of an epoch, and the epoch holds the same pairs.
pub fn later_epochs_change_nothing()
    // Entries of later epochs behind a log change nothing that it says of an epoch.
    // Entries, values, page sources, names, held pairs and the node of an epoch stay with later epochs.
    ensures { (bytes : ℕ → List ℕ) (block epoch : ℕ) (log later : List Entry) → AreAfter epoch later
        → SameAtEpoch bytes block epoch log (log ++ later) }
{}

/// From an entry of a later epoch on, a log has entries of later epochs alone.
pub fn epochs_stay_later()
    // From an entry of a later epoch on, a log has later epochs alone.
    ensures { (epoch : ℕ) (before : List Entry) (e : Entry) (later : List Entry)
        → IsLog (before ++ e ∷ later) → epoch < e.epoch → AreAfter epoch (e ∷ later) }
{}

/// The keys that an item sets to a value and the parts of the item are the same, place by place.
pub fn parts_are_placed()
    // Each key that an item sets to a value stands at its place among the item's parts.
    // Each part of an item stands at the place of its key.
    ensures { (block : ℕ) (item : Item) → IsPlaced block item }
{}

/// The part that holds a key is the one part of the key that no later entry covers.
pub fn index_holds_the_current_part()
    // The part that holds a key is the one part of the key that no later entry covers.
    ensures { (block : ℕ) (log : List Entry) (key : Key) (r : PartRef)
        → (scan_ref block log key ≡ Some r) ↔ IsCurrentPart block log key r }
{}

/// By number, a part holds its key exactly where no later entry covers it.
pub fn uncovered_part_holds_its_key()
    // By number, a part of a log holds its key exactly where no later entry covers it.
    ensures { (block : ℕ) (log : List Entry) → IsLog log → UncoveredIsHeld block log }
{}

/// One more entry takes over the keys that it sets to a value and frees those that it sets to absent. The binding of
/// a name goes behind the others.
pub fn index_after_one_more()
    // One more entry takes over the keys that it sets to a value and frees those that it sets to absent.
    // The binding of a name goes behind the others.
    ensures { (block : ℕ) (log : List Entry) (e : Entry) → OneMoreRef block log e }
{}

/// The entry of the part that holds a key gives the key's value, and the source of a page.
pub fn index_gives_values()
    // The entry of the part that holds a key gives the key's value, and a page's source.
    ensures { (block : ℕ) (log : List Entry) → IsLog log → RefsGive block log }
{}

/// The names of a directory are those of the current bindings in the order of their ids.
pub fn names_stand_by_ids()
    // The names are those of the current bindings; a name's part is its binding's.
    // Along a log the bindings stand in the order of their ids.
    ensures { (log : List Entry) → NamesByIds log }
{}

/// A pair is current exactly where no later entry covers its part, by number too. The entries with such a part
/// are a page's live ones.
pub fn current_is_uncovered()
    // A pair is current exactly where its part is not covered later, in the list and by number.
    // The `live` count of a log page is how many of its entries have a part that is not covered later.
    ensures { (block : ℕ) (log : List Entry) → UncoveredAreCurrent block log }
{}

/// An entry is live exactly where one of its parts is not covered later.
pub fn live_is_marked()
    // An entry is live exactly where one of its parts is not covered later.
    ensures { (block : ℕ) (e : Entry) (later : List Entry)
        → is_live block e later ≡ has_uncovered (covered_of block e later) }
{}

/// One more entry covers the parts whose keys it sets, and its own parts stand behind them.
pub fn covered_after_one_more()
    // One more entry covers the parts whose keys it covers; its own stand behind them.
    ensures { (block : ℕ) (log : List Entry) (e : Entry) → OneMoreCovers block log e }
{}

/// One more entry kills the current pairs whose keys it covers and no others, its own pairs are born, and an entry
/// stops being live where its last current pair dies.
pub fn pairs_after_one_more()
    // One more entry kills the current pairs whose keys it covers and no others; its own are born.
    // `live` of a log page falls by the entries that lose their last current pair.
    ensures { (block : ℕ) (log : List Entry) (e : Entry) → OneMorePairs block log e }
{}

/// Where the pairs that one more entry kills are named as killed, the entries before it are valid as they were.
pub fn naming_the_killed_keeps_valid()
    // Where the pairs that one more entry kills are named with the pending ones, `valid` of a log page before it
    // stays.
    ensures { (r : Retention) (names : List PartId) (e : Entry) (count : ℕ) (log : List Entry)
        → NamesKilled r names e log → count ≤ length log
        → valid_of (with_pending r names) count (log ++ e ∷ []) ≡ valid_of r count log }
{}

/// Where each entry that goes may leave, what stays of a log has its values, its index, its page sources and its
/// names in their order, and the parts that stay are covered as they were.
pub fn leaving_keeps_the_rest()
    // Where each entry that goes may leave, what stays has the log's values and index.
    // What stays of a log has its page sources and its names in order.
    // Each part of what stays is covered exactly where it was.
    ensures { (block : ℕ) (log : List Entry) (flags : List Bool) → MayAllLeave block [] log flags
        → KeepsTheRest block log flags }
{}

/// An entry that is not live and hides no earlier entry may leave.
pub fn idle_may_leave()
    // An entry that is not live and hides no earlier entry may leave.
    ensures { (block : ℕ) (before : List Entry) (e : Entry) (later : List Entry)
        → is_live block e later ≡ false
        → list_any (λ (earlier : Entry). hides block e.item earlier.item) before ≡ false
        → MayLeave block before e later }
{}

/// A droppable entry may leave.
pub fn droppable_may_leave()
    // A droppable entry may leave.
    ensures { (r : Retention) (before : List Entry) (e : Entry) (later : List Entry)
        → IsDroppable r before e later → MayLeave r.block before e later }
{}
