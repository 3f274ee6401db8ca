//! Laws of what a log has stored, and of the names that it binds, each the contract of a function that does
//! nothing.

ghost use Rattle.std.specs.Prelude.{◌≡◌, ℕ, ◌+◌, ◌*◌, ◌/◌, ◌<◌, ◌≤◌, ◌⊎◌, List, [], ◌∷◌, ◌++◌, Option, None, Some, length, map, option_map};
ghost use Rattle.nv_entry.specs.Bindings.{NamesDiffer};
ghost use Rattle.nv_entry.specs.Blocks.{IsItemBlock, Uses};
ghost use Rattle.nv_entry.specs.Bytes.{written};
ghost use Rattle.nv_entry.specs.Index.{bound_to, names_of};
ghost use Rattle.nv_entry.specs.Keys.{NameKey};
ghost use Rattle.nv_entry.specs.Log.{value_now};
ghost use Rattle.nv_entry.specs.Node.{node_now};
ghost use Rattle.nv_entry.specs.Sound.{Gives, HasText, HaveText, IsSound, Makes, MakesAll, Tied, blocks_of, rewritten, write_items};
ghost use Rattle.nv_entry.specs.Stored.{stored, stored_after, stored_after_all};
ghost use Rattle.nv_base.specs.declared.limits.TheConstants.{FILE_PAGES};
ghost use Rattle.nv_base.specs.declared.node.Kind.TheVariants.{Dir, File};
ghost use Rattle.nv_entry.specs.declared.item.Entry.{Entry};
ghost use Rattle.nv_entry.specs.declared.item.Item.{Item};
ghost use Rattle.nv_entry.specs.declared.item.Item.TheVariants.{Write};
ghost use Rattle.nv_entry.specs.declared.item.BlockRun.{BlockRun};
ghost use Rattle.nv_entry.specs.declared.key.Datum.TheVariants.{Node};
ghost use Rattle.nv_entry.specs.declared.node.NodeCopy.{NodeCopy};

/// The names from scratch are bound to their values, and each stands there once.
pub fn names_are_values()
    // The names from scratch are bound to their values.
    ensures value { (block : ℕ) (log : List Entry) (name : List ℕ)
        → value_now block log (NameKey name) ≡ option_map Node (bound_to name (names_of log)) }
    // Each name stands once among the names from scratch.
    ensures once { (log : List Entry) → NamesDiffer (names_of log) }
{}

/// One more entry changes what a log has stored as its item says, whatever the log.
pub fn one_more_item()
    // One more entry changes what a log has stored as its item says, whatever the log.
    ensures { (block : ℕ) (log : List Entry) (e : Entry)
        → stored block (log ++ e ∷ []) ≡ stored_after block e.item (stored block log) }
{}

/// Several more entries change it as their items say, one after another.
pub fn several_items()
    // Several more entries change it as their items say, in order.
    ensures { (block : ℕ) (log more : List Entry)
        → stored block (log ++ more)
        ≡ stored_after_all block (map (λ (e : Entry). e.item) more) (stored block log) }
{}

/// A log gives the node that is stored in it, and is sound.
pub fn stored_node_is_given()
    // A log in which a node is stored, or nothing, gives that node, or none, and is sound.
    ensures { (bytes : ℕ → List ℕ) (block : ℕ) (log : List Entry) (node : Option NodeCopy)
        → 0 < block → Tied bytes block (stored block log) node → Gives bytes block log node }
{}

/// An empty log is sound, and stays so with each lawful item, and with several that are lawful together.
pub fn lawful_items_keep_logs_sound()
    // An empty log is sound.
    // A sound log gives a node with as many bytes as its size says.
    ensures none { (bytes : ℕ → List ℕ) (block : ℕ) → IsSound bytes block [] }
    // A lawful item keeps a log sound, and the log then gives the node that the item makes.
    // A lawful item writes bytes and sets sizes in files alone.
    // A lawful item binds and unbinds names in directories alone.
    ensures more { (bytes : ℕ → List ℕ) (block : ℕ) (log : List Entry) (e : Entry)
        (after : Option NodeCopy) → 0 < block → IsSound bytes block log
        → Makes bytes block e.item (node_now bytes block log) after
        → Gives bytes block (log ++ e ∷ []) after }
    // Several items that are lawful together keep a log sound, and it gives the node that they make.
    ensures several { (bytes : ℕ → List ℕ) (block : ℕ) (log more : List Entry)
        (after : Option NodeCopy) → 0 < block → IsSound bytes block log
        → MakesAll bytes block (map (λ (e : Entry). e.item) more) (node_now bytes block log) after
        → Gives bytes block (log ++ more) after }
{}

/// A sound log has the bytes and the names that suit its kind: a directory has the size 0 and uses no block, a file
/// has no names, and a log that gives no node uses no block.
pub fn sound_logs_suit_their_kind()
    // By a sound log, a directory has the size 0 and uses no block.
    ensures directory { (bytes : ℕ → List ℕ) (block : ℕ) (log : List Entry) (node : NodeCopy)
        → 0 < block → IsSound bytes block log → node_now bytes block log ≡ Some node
        → node.kind ≡ Dir
        → (node.size ≡ 0) × ((number : ℕ) → Uses block log number → ⊥) }
    // By a sound log, a file has no names.
    ensures file { (bytes : ℕ → List ℕ) (block : ℕ) (log : List Entry) (node : NodeCopy)
        → IsSound bytes block log → node_now bytes block log ≡ Some node → node.kind ≡ File
        → names_of log ≡ [] }
    // A sound log that gives no node uses no block.
    ensures none { (bytes : ℕ → List ℕ) (block : ℕ) (log : List Entry) (number : ℕ)
        → IsSound bytes block log → node_now bytes block log ≡ None
        → Uses block log number → ⊥ }
{}

/// One lawful item is lawful among several.
pub fn one_lawful_item_is_several()
    // One lawful item is lawful among several.
    ensures { (bytes : ℕ → List ℕ) (block : ℕ) (item : Item) (before after : Option NodeCopy)
        → 0 < block → Makes bytes block item before after
        → MakesAll bytes block (item ∷ []) before after }
{}

/// The item of a write whose run has the pages that the text touches makes of a file what the write makes
/// of it.
pub fn written_pages_are_lawful()
    // A write whose block run has its pages has a lawful item, which makes of a file what it says.
    ensures { (bytes : ℕ → List ℕ) (block offset : ℕ) (text : List ℕ) (run : BlockRun) (node : NodeCopy)
        → 0 < block → 0 < length text → offset + length text ≤ FILE_PAGES * block
        → node.kind ≡ File → length node.bytes ≡ node.size → node.size ≤ FILE_PAGES * block
        → HasText bytes block offset text node.bytes run
        → Makes bytes block (Write (offset / block) run (length (written offset text node.bytes)))
        (Some node) (Some (rewritten offset text node)) }
{}

/// The items of a write in several runs together make of a file what the write makes of it, where the blocks of the
/// runs have the pages that the text touches, in order.
pub fn written_runs_are_lawful()
    // The items of a write in several block runs whose blocks have its pages in order are lawful.
    ensures { (bytes : ℕ → List ℕ) (block offset : ℕ) (text : List ℕ) (runs : List BlockRun)
        (node : NodeCopy)
        → 0 < block → 0 < length text → offset + length text ≤ FILE_PAGES * block
        → node.kind ≡ File → HaveText bytes block offset text node.bytes (blocks_of runs)
        → MakesAll bytes block
        (write_items (offset / block) runs (length (written offset text node.bytes)))
        (Some node) (Some (rewritten offset text node)) }
{}

/// A log gives the same node where the blocks that it uses have the same bytes, and with one more entry it
/// uses no others but those of the entry's run.
pub fn logs_use_their_blocks()
    // A sound log gives the same node wherever the blocks that it uses have the same bytes.
    ensures same { (bytes other : ℕ → List ℕ) (block : ℕ) (log : List Entry)
        → 0 < block → IsSound bytes block log
        → ((number : ℕ) → Uses block log number → other number ≡ bytes number)
        → Gives other block log (node_now bytes block log) }
    // With one more entry a log uses no blocks except those of before and of the entry's block run.
    ensures more { (block : ℕ) (log : List Entry) (e : Entry) (number : ℕ)
        → Uses block (log ++ e ∷ []) number
        → Uses block log number ⊎ IsItemBlock e.item number }
{}
