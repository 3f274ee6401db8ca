//! Laws of logs, each the contract of a function that does nothing.

ghost use Rattle.std.specs.Prelude.{◌≡◌, ◌↔◌, ℕ, List, [], ◌∷◌, ◌++◌, false, true};
ghost use Rattle.nv_entry.specs.ByFlags.{kept_flags, pages_stay_by, stays_by};
ghost use Rattle.nv_entry.specs.Clean.{IsDroppable, entries_of, entries_stay, is_droppable, pages_stay};
ghost use Rattle.nv_entry.specs.Held.{Retention};
ghost use Rattle.nv_entry.specs.Keys.{Key, is_page_key, parts_of};
ghost use Rattle.nv_entry.specs.Laws.{IsFast, IsThorough, KeepsReads, OneMore, PartsAreSet, PartsRise, SetsAreParts};
ghost use Rattle.nv_entry.specs.Log.{IsLog, value_now};
ghost use Rattle.nv_entry.specs.declared.item.Entry.{Entry};
ghost use Rattle.nv_entry.specs.declared.item.Item.{Item};

/// Each part of an item is a key that it sets to a value.
pub fn parts_are_set()
    // Each part of an item is a key that it sets to a value.
    ensures { (block : ℕ) (item : Item) → PartsAreSet block item }
{}

/// Each key that an item sets to a value is that of one of its parts.
pub fn sets_are_parts()
    // Each key that an item sets to a value is that of one of its parts.
    ensures { (block : ℕ) (item : Item) → SetsAreParts block item }
{}

/// The parts of an item go by kind, mode, size, bound name, and then pages rising.
pub fn parts_are_in_order()
    // Parts go by kind, mode, size, bound name and then rising pages, so that each key stands once.
    ensures { (item : Item) → PartsRise (parts_of item) }
{}

/// The size of blocks matters to pages alone: every other key has the same value with any.
pub fn block_size_matters_to_pages_alone()
    // The size of blocks matters to pages alone: every other key has the same value with any.
    ensures { (a b : ℕ) (log : List Entry) (key : Key) → is_page_key key ≡ false
        → value_now a log key ≡ value_now b log key }
{}

/// One more entry changes each value, the deaths of pairs, the index and the names exactly as that entry
/// says. The values at earlier epochs stay.
pub fn one_more_entry()
    // One more entry changes each value, each page's source and the names as it says.
    // One more entry leaves each value at an earlier epoch, and is the death of what it first covers.
    ensures { (block : ℕ) (log : List Entry) (e : Entry) → OneMore block log e }
{}

/// The test of a droppable entry says that it is one.
pub fn droppable_is_tested()
    // The test of a droppable entry is the definition.
    ensures { (r : Retention) (before : List Entry) (e : Entry) (later : List Entry)
        → (is_droppable r before e later ≡ true) ↔ IsDroppable r before e later }
{}

/// The removal of a droppable entry keeps what is read, now and at every epoch whose pairs are all needed or
/// pending, and the pairs that are current, pending, or held by a living snapshot.
pub fn removal_keeps_reads()
    // Without a droppable entry a log has the same values, page sources, names in order and node.
    // Without a droppable entry a log reads the same at every epoch of which all pairs are needed or pending.
    // Without a droppable entry a log reads the same at the epoch of each living snapshot.
    // Without a droppable entry current and pending pairs stay, by name; their deaths may move.
    // The pairs that each living snapshot holds stay, by name.
    // The law asks that ids rise along the log and epochs never fall.
    ensures { (r : Retention) (before : List Entry) (e : Entry) (later : List Entry)
        → IsLog (before ++ e ∷ later) → IsDroppable r before e later
        → KeepsReads r (before ++ e ∷ later) (before ++ later) }
{}

/// Thorough cleaning takes out of a log the entries that are droppable, with the earlier removals made, and
/// no others. It leaves none that is droppable, and keeps what is read.
pub fn thorough_takes_what_is_droppable()
    // Of a log whose ids rise (`IsLog`) thorough cleaning takes out exactly what is droppable.
    // Thorough cleaning leaves no droppable entry.
    // Thorough cleaning keeps what is read.
    ensures { (r : Retention) (log : List Entry) → IsLog log → IsThorough r log }
{}

/// Fast cleaning takes out of a log the pages that are droppable throughout, with the earlier pages gone, and
/// no others, and keeps what is read.
pub fn fast_takes_what_is_droppable()
    // Of log pages whose entries are a log fast cleaning takes out exactly those droppable throughout.
    // Fast cleaning leaves the other log pages in order and keeps what is read.
    ensures { (r : Retention) (pages : List (List Entry)) → IsLog (entries_of pages)
        → IsFast r pages }
{}

/// A walk need not know what keeps the pairs of a log: a flag for each entry that says whether anything keeps one of
/// its parts is enough, for single entries and for whole pages.
pub fn walks_go_by_flags()
    // A flag for each entry, whether anything keeps it, is enough for both walks.
    ensures entries { (r : Retention) (kept log : List Entry)
        → stays_by r.block (kept_flags r log) kept log ≡ entries_stay r kept log }
    ensures pages { (r : Retention) (kept : List Entry) (pages : List (List Entry))
        → pages_stay_by r.block (kept_flags r (entries_of pages)) kept pages
        ≡ pages_stay r kept pages }
{}
