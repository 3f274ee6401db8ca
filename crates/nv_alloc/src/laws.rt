//! Laws of free lists and runs, each the contract of an empty function.

ghost use Rattle.std.specs.Prelude.{◌≡◌, ℕ, ◌+◌, ◌≤◌, ◌&&◌, ◌++◌, ◌∷◌, Bool, List, drop, filter, length, nat_le, nat_lt, not, take};
ghost use Rattle.nv_alloc.specs.Block.{AreSized, BlockValue, numbers_of, put_block, put_blocks};
ghost use Rattle.nv_alloc.specs.FreeList.{FreeBlocks, is_home};
ghost use Rattle.nv_alloc.specs.Giving.{after_giving, not_taken};
ghost use Rattle.nv_alloc.specs.Hand.{blocks_of};
ghost use Rattle.nv_alloc.specs.Numbers.{has, times, IsRising, unused};
ghost use Rattle.nv_alloc.specs.Queue.{after_home};
ghost use Rattle.nv_alloc.specs.Runs.{IsCutInto, free_runs_of};
ghost use Rattle.nv_alloc.specs.declared.hand.Hand.{Hand};

/// A law: a rising list that has exactly the unused numbers of a range is the free list from scratch.
pub fn rising_list_of_unused_is_from_scratch()
    // A rising list with exactly the unused numbers of a range is the free list from scratch.
    ensures { (is_used : ℕ → Bool) (low len : ℕ) (numbers : List ℕ) → IsRising numbers
        → ((n : ℕ) → has numbers n ≡ (nat_le low n && nat_lt n (low + len) && not (is_used n)))
        → numbers ≡ unused is_used low len }
{}

/// A law: when blocks move between a list and a queue, as [`crate::FreeList::take`], [`crate::FreeList::give`]
/// and the calls `give_blocks` move them, each number stands as often in both together as before.
pub fn no_move_loses_a_number()
    // Moves between lists and queues lose no number and make none.
    ensures taken { (n k : ℕ) (queue list : List BlockValue) →
        times n (numbers_of (queue ++ take k list)) + times n (numbers_of (drop k list))
        ≡ times n (numbers_of queue) + times n (numbers_of list) }
    ensures given { (n : ℕ) (block : BlockValue) (list : List BlockValue) →
        times n (numbers_of (put_block block list)) ≡ times n (block.number ∷ numbers_of list) }
    ensures home { (n : ℕ) (list : FreeBlocks) (queue : List BlockValue) →
        times n (numbers_of (not_taken list queue))
        + times n (numbers_of (after_giving list queue).blocks)
        ≡ times n (numbers_of queue) + times n (numbers_of list.blocks) }
{}

/// A law: a list and what gives it blocks have together as many blocks as before: a queue, and a hand as
/// [`crate::Hand::give_blocks`] leaves it.
pub fn no_give_loses_a_block()
    // A give leaves a list and a queue, or a list and a hand, together as many blocks as before.
    ensures queue { (list : FreeBlocks) (queue : List BlockValue) →
        length (not_taken list queue) + length (after_giving list queue).blocks
        ≡ length queue + length list.blocks }
    ensures hand { (list : FreeBlocks) (old new : Hand) → new.data ≡ after_home list old.data
        → new.pages ≡ after_home (after_giving list old.data.blocks) old.pages
        → new.chain ≡ not_taken (after_giving list (old.data.blocks ++ old.pages.blocks)) old.chain
        → length (blocks_of new) + length (after_giving list (blocks_of old)).blocks
        ≡ length (blocks_of old) + length list.blocks }
{}

/// A law: where each number stands once in blocks and list together and the blocks have the list's size, all
/// that are at home go there, and the others are kept.
pub fn each_number_once_goes_home()
    // Blocks of a list's length, each number at most once in both: those not at home are kept.
    ensures kept { (list : FreeBlocks) (queue : List BlockValue) → AreSized list.size queue
        → ((n : ℕ) → times n (numbers_of queue) + times n (numbers_of list.blocks) ≤ 1)
        → not_taken list queue ≡ filter (λ block. not (is_home list block.number)) queue }
    // Blocks of a list's length, each number at most once in both: those at home go there.
    ensures given { (list : FreeBlocks) (queue : List BlockValue) → AreSized list.size queue
        → ((n : ℕ) → times n (numbers_of queue) + times n (numbers_of list.blocks) ≤ 1)
        → after_giving list queue
        ≡ record list {
          blocks = put_blocks (filter (λ block. is_home list block.number) queue) list.blocks;
        } }
{}

/// A law: the runs of a rising list have its numbers, in order, and none of them could be longer.
pub fn runs_cut_a_rising_list()
    // The block runs of a rising list have its numbers in order, and none could be longer.
    ensures { (numbers : List ℕ) → IsRising numbers → IsCutInto numbers (free_runs_of numbers) }
{}
