//! Laws of cells, each the contract of a function that does nothing.

ghost use Rattle.std.specs.Prelude.{◌≡◌, ◌∷◌, ◌<◌, ◌≤◌, ◌-◌, ℕ, Bool, List, [], Some, drop, length};
ghost use Rattle.std.specs.List.{AllByRecursion};
ghost use Rattle.std.specs.Option.{ForSome};
ghost use Rattle.nv_alloc.specs.Block.{BlockValue};
ghost use Rattle.nv_base.specs.Ids.{IsIdBefore};
ghost use Rattle.nv_entry.specs.Covered.{part_count};
ghost use Rattle.nv_entry.specs.Held.{Retention};
ghost use Rattle.nv_entry.specs.Laws.{GoIfDroppable, GoIfPageDroppable};
ghost use Rattle.nv_entry.specs.Log.{IsLog};
ghost use Rattle.nv_entry.specs.Node.{file_bytes};
ghost use Rattle.nv_entry.specs.declared.item.Entry.{Entry};
ghost use Rattle.nv_entry.specs.declared.item.Item.{Item};
ghost use Rattle.nv_entry.specs.declared.part.PartId.{PartId};
ghost use Rattle.nv_log.specs.Chain.{ChainState, IsChain, last_epoch, last_id, log_pages, room_of, with_page};
ghost use Rattle.nv_cell.specs.Append.{IsWithinFile, MayAppend, after_append, appended};
ghost use Rattle.nv_cell.specs.Cell.{CellState, CellValue, IsCell, log_of, mark_named, number_in, with_mark, without_part};
ghost use Rattle.nv_cell.specs.Killed.{AreKilled, AreNamesOfParts, ArePairs, DiesAt, IsMarkedAnew, IsWithoutBlock};
ghost use Rattle.nv_cell.specs.Pages.{AreBytesOf, own_bytes};
ghost use Rattle.nv_cell.specs.Removal.{ArePublished, MayGo, log_flags};
ghost use Rattle.nv_cell.specs.Retained.{AreMarksOf, LiveIsScanned, ValidIsScanned};
ghost use Rattle.nv_cell.specs.Room.{AddsPage, IsReadyFor};
ghost use Rattle.nv_cell.specs.declared.mark.Mark.{Mark};
ghost use Rattle.nv_cell.specs.declared.mark.Mark.TheVariants.{Out};

/// Of the entries with the items that a cell is ready for, the first may be appended where a page has room for it, it
/// may stand behind the last one, and its pages are pages that a file can have.
pub fn the_first_may_be_appended()
    // Of entries that a cell is ready for, the first may be appended, where a log page has room.
    // The entry must be able to stand behind the last one, and its pages must be a file's.
    ensures { (e : Entry) (later : List Item) (cell : CellValue)
        → IsReadyFor (e.item ∷ later) cell → 0 < room_of cell.state.chain
        → ForSome (last_id cell.state.chain) (λ last. IsIdBefore last e.id)
        → ForSome (last_epoch cell.state.chain) (λ last. last ≤ e.epoch)
        → IsWithinFile e.item → MayAppend e cell }
{}

/// Once it is appended, the cell is ready for the others.
pub fn the_others_stay_ready()
    // Once an entry is appended, the cell is ready for the others.
    ensures { (e : Entry) (blocks : List BlockValue) (later : List Item) (old new : CellValue)
        → IsChain old.state.chain → MayAppend e old
        → new.state ≡ appended e blocks old.state
        → new.room ≡ after_append (part_count e) old.room
        → IsReadyFor (e.item ∷ later) old → IsReadyFor later new }
{}

/// A page more leaves a cell ready for what it was ready for.
pub fn a_page_keeps_ready()
    // One more log page leaves a cell ready for what it was ready for.
    ensures { (block : BlockValue) (items : List Item) (old new : CellValue)
        → IsChain old.state.chain
        → new.state ≡ record old.state { chain = with_page block old.state.chain }
        → new.room ≡ record old.room { pages = old.room.pages - 1 }
        → IsReadyFor items old → IsReadyFor items new }
{}

/// A page more gives room for its entries.
pub fn a_page_gives_its_room()
    // One more log page gives room for its entries.
    ensures { (block : BlockValue) (chain : ChainState) → IsChain chain
        → AddsPage chain (with_page block chain) }
{}

/// Each part of a log has a name of its own, by which its number is found.
pub fn each_part_has_a_name()
    // Each part of a log has a name of its own, by which its number is found.
    ensures { (log : List Entry) → IsLog log → AreNamesOfParts log }
{}

/// The parts of a log by number are its pairs in order.
pub fn parts_are_pairs()
    // The parts of a log by number are its pairs, in the log's order.
    ensures { (block : ℕ) (log : List Entry) → ArePairs block log }
{}

/// What entries of one epoch kill dies at that epoch.
pub fn the_killed_die_now()
    // What entries of one epoch kill dies at that epoch.
    ensures { (block : ℕ) (entries : List Entry) (tail epoch : ℕ)
        → AllByRecursion (λ e. e.epoch ≡ epoch) (drop tail entries)
        → DiesAt block entries tail epoch }
{}

/// A part with another mark leaves all others theirs.
pub fn one_part_is_marked_anew()
    // A part with another mark leaves all other parts theirs.
    ensures { (cell : CellState) (id : PartId) (was mark : Mark) → mark_named cell id ≡ Some was
        → IsMarkedAnew id mark cell (with_mark cell (number_in cell id) mark) }
{}

/// A part that goes out leaves all others their marks and their blocks.
pub fn one_part_goes_out()
    ensures marks { (cell : CellState) (id : PartId) (was : Mark) → mark_named cell id ≡ Some was
        → IsMarkedAnew id Out cell (without_part cell (number_in cell id)) }
    // A part that goes out leaves all other parts their marks and blocks.
    ensures blocks { (cell : CellState) (id : PartId) (was : Mark) → mark_named cell id ≡ Some was
        → IsWithoutBlock id cell (without_part cell (number_in cell id)) }
{}

/// Once one of the killed parts has another mark, the others are killed still.
pub fn the_others_stay_killed()
    // The rest of a list of killed parts stays killed while one after another gets another mark.
    ensures { (id : PartId) (mark : Mark) (later : List PartId) (old new : CellState)
        → IsMarkedAnew id mark old new → AreKilled (id ∷ later) old → AreKilled later new }
{}

/// The bytes of the file that a cell holds are those that its log gives, by what its blocks have.
pub fn a_file_is_in_its_blocks()
    // The bytes of a cell's file are those that its log gives, by what its blocks have.
    ensures { (cell : CellState) (bytes : ℕ → List ℕ) → IsCell cell → AreBytesOf cell bytes
        → own_bytes cell ≡ file_bytes bytes cell.block (log_of cell) }
{}

/// The live count of a page is that of the log from scratch, from the page's first entry on.
pub fn live_is_scanned()
    // The `live` count of a log page is always that of its log from scratch.
    ensures { (cell : CellState) → IsCell cell → LiveIsScanned cell }
{}

/// Where the marks are what a retention says, so is the other count of a page.
pub fn valid_is_scanned()
    // The `valid` count of a log page is that from scratch where the marks are what a retention says.
    ensures { (r : Retention) (cell : CellState) → IsCell cell → AreMarksOf r cell
        → ValidIsScanned r cell }
{}

/// Where the marks are what a retention says, the entries that thorough cleaning takes out may go.
pub fn droppable_entries_may_go()
    // Where marks are what a retention says, the entries that thorough cleaning takes out may go.
    ensures { (r : Retention) (cell : CellState) (flags : List Bool) → IsCell cell
        → AreMarksOf r cell → GoIfDroppable r [] (log_of cell) flags → MayGo flags cell }
{}

/// Where the marks are what a retention says, the entries of the pages that fast cleaning takes out may go, and
/// each such page ends at the tail or before it.
pub fn droppable_pages_may_go()
    // Entries of the log pages that fast cleaning takes out may go, and each such page is published.
    ensures may { (r : Retention) (cell : CellState) (stays : List Bool) → IsCell cell
        → AreMarksOf r cell → GoIfPageDroppable r [] (log_pages cell.chain) stays
        → MayGo (log_flags stays cell.chain) cell }
    ensures published { (r : Retention) (chain : ChainState) (stays : List Bool) → IsChain chain
        → GoIfPageDroppable r [] (log_pages chain) stays → ArePublished stays chain }
{}
