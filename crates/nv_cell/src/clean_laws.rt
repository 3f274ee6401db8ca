//! Laws of cleaned cells, each the contract of a function that does nothing.

ghost use Rattle.std.specs.Prelude.{◌≡◌, ◌++◌, ◌∷◌, [], ℕ, Bool, false, List, filter, length};
ghost use Rattle.nv_alloc.specs.Block.{BlockValue};
ghost use Rattle.nv_entry.specs.ByFlags.{kept_flags};
ghost use Rattle.nv_entry.specs.Clean.{select};
ghost use Rattle.nv_entry.specs.Held.{Retention};
ghost use Rattle.nv_entry.specs.Laws.{KeepsReads};
ghost use Rattle.nv_entry.specs.declared.item.Entry.{Entry};
ghost use Rattle.nv_entry.specs.declared.part.PartId.{PartId};
ghost use Rattle.nv_log.specs.Chain.{compacted, with_pages_left};
ghost use Rattle.nv_cell.specs.Cell.{CellState, IsCell, log_of};
ghost use Rattle.nv_cell.specs.Cleaned.{AreDeadBy, HasDeadPair, KeepsNodes, KeepsRecords};
ghost use Rattle.nv_cell.specs.Readers.{there_flags};
ghost use Rattle.nv_cell.specs.Removal.{ArePublished, MayGo, left_in, log_flags};
ghost use Rattle.nv_cell.specs.Retained.{AreMarksOf, retention_by_marks};

/// Where the marks are what a retention says, they tell whether anything keeps an entry: so a walk need not know what
/// keeps the parts.
pub fn walks_read_marks()
    // Where the marks are what a retention says, they tell whether anything keeps an entry.
    ensures { (r : Retention) (cell : CellState) → IsCell cell → AreMarksOf r cell
        → there_flags cell ≡ kept_flags r (log_of cell) }
{}

/// The marks of each cell are what a retention says that keeps nothing for snapshots, and each part by name that is not
/// out.
pub fn marks_are_a_retention()
    // The marks of each cell are what one retention says: no snapshot, and each part by name that is not out.
    ensures { (cell : CellState) → IsCell cell → AreMarksOf (retention_by_marks cell) cell }
{}

/// Where entries go and what is read stays, a cleaned cell has the nodes of now, of each living snapshot and of each
/// epoch whose pairs are all kept, and the same blocks. So for single entries, and so for whole pages.
pub fn cleaning_keeps_nodes()
    // A cleaned cell has the nodes of now, of each living snapshot and of each epoch whose pairs are all kept.
    // A cleaned cell has the same blocks in the same order, and its log is sound if it was.
    ensures entries { (r : Retention) (cell : CellState) (flags : List Bool)
        (pages : List BlockValue) → IsCell cell → length flags ≡ length (log_of cell)
        → MayGo flags cell → r.block ≡ cell.block
        → KeepsReads r (log_of cell) (select flags (log_of cell))
        → KeepsNodes r cell (left_in flags (compacted flags pages cell.chain) cell) }
    ensures pages { (r : Retention) (cell : CellState) (stays : List Bool) → IsCell cell
        → length stays ≡ length cell.chain.ends → ArePublished stays cell.chain
        → MayGo (log_flags stays cell.chain) cell → r.block ≡ cell.block
        → KeepsReads r (log_of cell) (select (log_flags stays cell.chain) (log_of cell))
        → KeepsNodes r cell
        (left_in (log_flags stays cell.chain) (with_pages_left stays cell.chain) cell) }
{}

/// Where entries go and what is read stays, a cleaned cell keeps the parts that stay, each under a new number:
/// marks, blocks, names and pairs, and of each pair whether it is current and the living snapshots that hold it.
/// Where the entry that killed a pair is gone, the pair's death is another.
pub fn cleaning_keeps_records()
    // Each part of a cleaned cell has the mark, block, name and pair that it had under its old number.
    // Such a pair is current exactly where it was, and the same living snapshots hold it.
    // Each part that is there has a new number, and a dead pair with such a part has the holders that are told.
    ensures entries { (r : Retention) (cell : CellState) (flags : List Bool)
        (pages : List BlockValue) → IsCell cell → length flags ≡ length (log_of cell)
        → MayGo flags cell → r.block ≡ cell.block
        → KeepsReads r (log_of cell) (select flags (log_of cell))
        → KeepsRecords r flags cell (left_in flags (compacted flags pages cell.chain) cell) }
    ensures pages { (r : Retention) (cell : CellState) (stays : List Bool) → IsCell cell
        → length stays ≡ length cell.chain.ends → ArePublished stays cell.chain
        → MayGo (log_flags stays cell.chain) cell → r.block ≡ cell.block
        → KeepsReads r (log_of cell) (select (log_flags stays cell.chain) (log_of cell))
        → KeepsRecords r (log_flags stays cell.chain) cell
        (left_in (log_flags stays cell.chain) (with_pages_left stays cell.chain) cell) }
{}

/// A dead pair with the holders that are told is so behind more entries, where a snapshot goes, and where one is made
/// that is not told as a holder, and by whose epoch all that is dead had died.
pub fn records_keep_their_pairs()
    // With more entries behind it a dead pair is one still, with the same holders.
    ensures entries { (living : List ℕ) (block : ℕ) (log : List Entry) (id : PartId) (birth : ℕ)
        (is_held_by : ℕ → Bool) → HasDeadPair living block log id birth is_held_by
        → (later : List Entry) → HasDeadPair living block (log ++ later) id birth is_held_by }
    // So it is once a snapshot goes, and once one is made that is no holder, by whose epoch the dead had died.
    ensures dropped { (living : List ℕ) (block : ℕ) (log : List Entry) (id : PartId) (birth : ℕ)
        (is_held_by : ℕ → Bool) → HasDeadPair living block log id birth is_held_by
        → (test : ℕ → Bool)
        → HasDeadPair (filter test living) block log id birth is_held_by }
    ensures made { (living : List ℕ) (block : ℕ) (log : List Entry) (id : PartId) (birth : ℕ)
        (is_held_by : ℕ → Bool) → HasDeadPair living block log id birth is_held_by
        → (epoch : ℕ) → is_held_by epoch ≡ false → AreDeadBy epoch block log
        → HasDeadPair (living ++ epoch ∷ []) block log id birth is_held_by }
{}
