//! Laws of plans and effects, each the contract of a function that does nothing.

ghost use Rattle.std.specs.Prelude.{◌≡◌, ◌+◌, ◌<◌, ◌≤◌, ℕ, Err, List, Option, is_some, length, Bool};
ghost use Rattle.std.specs.List.{AllByRecursion, sum_by};
ghost use Rattle.nv_alloc.specs.Block.{BlockValue};
ghost use Rattle.nv_alloc.specs.Hand.{blocks_of};
ghost use Rattle.nv_alloc.specs.Queue.{QueueValue};
ghost use Rattle.nv_alloc.specs.declared.hand.Hand.{Hand};
ghost use Rattle.nv_book.specs.Book.{BookState, BookValue, after_enter};
ghost use Rattle.nv_cell.specs.Cell.{CellValue, IsCell, block_total, empty_cell};
ghost use Rattle.nv_base.specs.declared.fault.Fault.{Fault};
ghost use Rattle.nv_base.specs.declared.limits.TheConstants.{NUMBER};
ghost use Rattle.nv_base.specs.declared.numbers.Handle.{Handle};
ghost use Rattle.nv_entry.specs.Log.{IsLog};
ghost use Rattle.nv_entry.specs.Node.{block_now};
ghost use Rattle.nv_entry.specs.Sound.{IsSound};
ghost use Rattle.nv_entry.specs.declared.node.NodeCopy.{NodeCopy};
ghost use Rattle.nv_calls.specs.AllCalls.{IsReady, IsToldNothing, blocks_wanted, effect, look_refusal, looked, plan, present_in, refusal};
ghost use Rattle.nv_calls.specs.declared.allocation.Allocation.{Allocation};
ghost use Rattle.nv_calls.specs.CanCommit.{AllowsCommit, CanCommit, IsClosed, TakesCommit, next_stamp};
ghost use Rattle.nv_calls.specs.Cells.{AreCells, state_at, value_at};
ghost use Rattle.nv_calls.specs.Commit.{CommitValue, begun, stamp_of};
ghost use Rattle.nv_calls.specs.Committed.{ChangesPlanned, IsUnplanned, committed, hand_left, page_count, cell_place_of};
ghost use Rattle.nv_calls.specs.FillPages.{CanFill, HasOtherBytes, sourced, with_blocks};
ghost use Rattle.nv_calls.specs.Filled.{AreRead, HavePages};
ghost use Rattle.nv_calls.specs.Lawful.{IsLawfulPlan};
ghost use Rattle.nv_calls.specs.Locked.{Agree, KeepsToIts, SameCall, first_look, handles};
ghost use Rattle.nv_calls.specs.Next.{AreUpTo, IsUpTo};
ghost use Rattle.nv_calls.specs.Nodes.{HaveBytes, block_in, has_page_in, nodes_in, plain_nodes, slots_by};
ghost use Rattle.nv_calls.specs.PagesWanted.{pages_wanted};
ghost use Rattle.nv_calls.specs.Plain.{Change, PlainNode, node_in, nodes_after};
ghost use Rattle.nv_calls.specs.Plan.{AreApart, AreFewApart, plan_blocks};
ghost use Rattle.nv_calls.specs.Prepared.{CanReady, HaveNoLessRoom, IsReadyBy, IsStill, planned_by, plans_by, taken_by};
ghost use Rattle.nv_calls.specs.PublishedSlots.{AreOfSlots, IsCommitted, PublishAlike, PublishesPlans, planned_in};
ghost use Rattle.nv_calls.specs.Ready.{ReadyValue};
ghost use Rattle.nv_calls.specs.Refusals.{passes};
ghost use Rattle.nv_calls.specs.Slots.{ArePlaced, Commits, IsBefore, IsPlan, InodeSlot, node_under, published};
ghost use Rattle.nv_calls.specs.Updates.{SamePlan, blank_call, call_of, text_len};
ghost use Rattle.nv_calls.specs.WholeCall.{HaveSoundLogs, IsWholeCall, WholeCall, effect_of};
ghost use Rattle.nv_calls.specs.declared.call.Call.{Call};
ghost use Rattle.nv_calls.specs.declared.plan.InodePlan.{InodePlan};
ghost use Rattle.nv_calls.specs.declared.stamp.Stamp.{Stamp};
ghost use Rattle.nv_calls.specs.declared.update.Update.{Update};

/// A commit of a plan that fits an effect has that effect on the nodes, leaves each log sound, and changes
/// none at an earlier epoch.
pub fn a_commit()
    // A commit of a plan that fits an effect has that effect on the nodes.
    // A commit keeps each log sound, and changes no node at an earlier epoch.
    ensures { (bytes : ℕ → List ℕ) (block commit epoch : ℕ) (slots : ℕ → InodeSlot) (plan : List InodePlan)
        (effect : List Change) → 0 < block
        → ((ino : ℕ) → IsSound bytes block (slots ino).log)
        → IsPlan bytes block slots plan effect
        → Commits bytes block commit epoch slots plan effect }
{}

/// Where inodes get entries by rising number, the places of a commit's entries are the numbers from 0 on.
pub fn places_count_entries()
    // The entries of a commit have the places from 0 on, by rising inode number.
    ensures { (plan : List InodePlan) → AreApart plan → ArePlaced plan }
{}

/// After a commit ids rise along each log and epochs never fall, as before it.
pub fn ids_rise_along_each_log()
    // Ids rise along each log after a commit, and epochs never fall, as before it.
    ensures { (commit epoch : ℕ) (slots : ℕ → InodeSlot) (plan : List InodePlan)
        → ((ino : ℕ) → IsBefore commit epoch (slots ino).log)
        → (ino : ℕ) → IsLog (published commit epoch plan slots ino).log }
{}

/// A call that is not refused has a plan that fits its effect, where what was taken is what it needs.
pub fn plans_fit_effects()
    // The plan of each call that is not refused fits its effect, where what was taken is what it needs.
    ensures { (bytes : ℕ → List ℕ) (block : ℕ) (slots : ℕ → InodeSlot) (taken : Allocation) (call : Call)
        → 0 < block
        → ((ino : ℕ) → IsSound bytes block (slots ino).log)
        → refusal block (node_in (node_under bytes block slots)) call ≡ passes
        → IsReady bytes block slots (node_in (node_under bytes block slots)) taken call
        → IsPlan bytes block slots
        (plan block (node_in (node_under bytes block slots)) taken call)
        (effect (node_in (node_under bytes block slots)) taken.made call) }
{}

/// Its items can be taken by the logs that they are for.
pub fn plans_are_lawful()
    // The items of such a plan can be taken by the logs that they are for.
    // The items of a plan are no more than a write can have pages.
    ensures { (bytes : ℕ → List ℕ) (block : ℕ) (slots : ℕ → InodeSlot) (taken : Allocation) (call : Call)
        → 0 < block
        → ((ino : ℕ) → IsSound bytes block (slots ino).log)
        → refusal block (node_in (node_under bytes block slots)) call ≡ passes
        → IsReady bytes block slots (node_in (node_under bytes block slots)) taken call
        → IsLawfulPlan block (node_in (node_under bytes block slots))
        (plan block (node_in (node_under bytes block slots)) taken call) }
{}

/// It is of different inodes, of no more than three.
pub fn plans_are_of_few_inodes()
    // A plan is of different inodes, of no more than three.
    ensures { (bytes : ℕ → List ℕ) (block : ℕ) (slots : ℕ → InodeSlot) (taken : Allocation) (call : Call)
        → 0 < block → refusal block (node_in (node_under bytes block slots)) call ≡ passes
        → IsReady bytes block slots (node_in (node_under bytes block slots)) taken call
        → AreFewApart (plan block (node_in (node_under bytes block slots)) taken call) }
{}

/// It is told of a call whether it commits nothing.
pub fn calls_of_nothing_are_told()
    // Whether a call commits nothing is told.
    ensures { (block : ℕ) (nodes : Handle → Option NodeCopy) (taken : Allocation) (call : Call)
        → refusal block nodes call ≡ passes → IsToldNothing block nodes taken call }
{}

/// A call looks up the same, is refused alike, plans alike, has the same effect and is answered alike
/// wherever the nodes that it locks are the same.
pub fn calls_read_what_they_lock()
    // A call looks up, is refused and plans the same wherever the nodes under its `handles` are the same.
    // A call's effect, answer, handles and blocks wanted are the same where those nodes are.
    ensures { (block : ℕ) (nodes other : Handle → Option PlainNode) (taken : Allocation) (call : Call)
        → Agree nodes other (handles (looked (node_in nodes) call) call)
        → SameCall block nodes other taken call }
{}

/// What a look refuses, the check refuses for the same fault, as long as the directory is the same.
pub fn checks_refuse_what_looks_refuse()
    // What a look refuses, the check refuses for the same fault, as long as the directory is the same.
    ensures { (block : ℕ) (nodes other : Handle → Option NodeCopy) (call : Call) (fault : Fault)
        → Agree nodes other (first_look call) → look_refusal nodes call ≡ Err fault
        → refusal block other call ≡ Err fault }
{}

/// A call's plan is of handles that it locks, and uses the blocks that were taken and no others; none where
/// it is of several inodes.
pub fn plans_keep_to_their_calls()
    // A plan is of handles that the call locks, and uses the blocks taken and no others.
    // A plan of several inodes uses no block.
    ensures { (block : ℕ) (nodes : Handle → Option NodeCopy) (taken : Allocation) (call : Call)
        → KeepsToIts nodes call taken (plan block nodes taken call) }
{}

/// Where what was taken is what a call needs, its plan uses as many blocks as the call wants.
pub fn plans_use_the_blocks_wanted()
    // Where what was taken is what a call needs, its plan uses as many blocks as the call wants.
    ensures { (bytes : ℕ → List ℕ) (block : ℕ) (slots : ℕ → InodeSlot) (nodes : Handle → Option NodeCopy)
        (taken : Allocation) (call : Call) → IsReady bytes block slots nodes taken call
        → length (plan_blocks (plan block nodes taken call))
        ≡ blocks_wanted block nodes (present_in block slots call) call }
{}

/// The nodes that cells hold are those of their slots, whatever gives the bytes of their blocks.
pub fn cells_hold_the_nodes_of_their_slots()
    // The nodes that cells hold are those of their inode slots, whatever gives the bytes of their blocks.
    ensures nodes { (bytes : ℕ → List ℕ) (block : ℕ) (cells : List (ℕ × CellValue))
        (handle : Handle) → HaveBytes bytes block cells
        → plain_nodes cells handle ≡ node_under bytes block (slots_by cells) handle }
    ensures pages { (bytes : ℕ → List ℕ) (block : ℕ) (cells : List (ℕ × CellValue))
        (handle : Handle) (page : ℕ) → HaveBytes bytes block cells → has_page_in cells handle page
        ≡ is_some (block_now block (slots_by cells handle.ino).log page) }
{}

/// A call that was made ready can be committed, where its cells, the book and a CPU's journal allow it.
pub fn what_is_ready_can_be_committed()
    // A call that was made ready can be committed, where its cells, the book and a journal allow it.
    ensures { (cells now : List (ℕ × CellValue)) (hand : Hand) (update : Update)
        (book : BookValue) (cpu : ℕ) (ready : ReadyValue)
        → CanReady cells hand update → HaveNoLessRoom cells now
        → IsReadyBy cells hand update now ready → AllowsCommit now book cpu ready
        → CanCommit now book cpu ready }
{}

/// What is tested of the cells, the book and a CPU's journal before an enter is all that the commit asks behind it.
pub fn tested_commits_are_allowed()
    // What is tested before an enter is all that a commit asks of cells, book and journal behind it.
    ensures { (cells : List (ℕ × CellValue)) (book : BookState) (room seat cpu : ℕ)
        (ready : ReadyValue)
        → AllByRecursion (λ p. TakesCommit (next_stamp book) (value_at cells p.at)) ready.plans
        → IsClosed book cpu → ready.need ≤ room
        → AllowsCommit cells (record { state = after_enter seat book; room = room }) cpu ready }
{}

/// It can be filled, as long as its cells stay the same but for room.
pub fn what_is_ready_can_be_filled()
    // A call that was made ready can be filled, over the same cells except for room.
    ensures { (cells now : List (ℕ × CellValue)) (hand : Hand) (update : Update)
        (ready : ReadyValue) → CanReady cells hand update → HaveNoLessRoom cells now
        → IsReadyBy cells hand update now ready → CanFill now ready.update ready.hand.data }
{}

/// A call that was made ready stays so, whatever bytes its blocks are filled with.
pub fn what_is_filled_stays_ready()
    // A call that was filled is as ready as before, whatever bytes its blocks have.
    ensures { (cells now : List (ℕ × CellValue)) (hand : Hand) (update : Update)
        (ready : ReadyValue) (blocks : QueueValue) → IsReadyBy cells hand update now ready
        → HasOtherBytes ready.hand.data blocks
        → IsReadyBy cells hand update now (with_blocks blocks ready) }
{}

/// Where its blocks have the pages that a fill puts there, its plan fits its effect, in all slots
/// that its cells are of.
pub fn filled_plans_fit()
    // Where logs are sound and blocks have the pages that a fill puts there, a plan fits its effect.
    // A filled plan fits in the inode slots of its cells and in all inode slots that these are of.
    ensures { (bytes : ℕ → List ℕ) (cells now : List (ℕ × CellValue)) (hand : Hand)
        (update : Update) (ready : ReadyValue) (byte_at : ℕ → ℕ) (blocks : List BlockValue)
        (slots : ℕ → InodeSlot)
        → CanReady cells hand update → HaveNoLessRoom cells now
        → IsReadyBy cells hand update now ready
        → HaveBytes bytes (block_in cells) now
        → ((ino : ℕ) → IsSound bytes (block_in cells) (slots_by now ino).log)
        → HavePages bytes now byte_at ready blocks → AreOfSlots now slots
        → IsPlan bytes (block_in cells) slots (planned_by cells hand update)
        (effect (nodes_in cells) (taken_by cells hand update).made (sourced byte_at update)) }
{}

/// The log pages that its commit counts are those that its plan needs.
pub fn pages_counted_are_those_wanted()
    // The commit of a call that is ready counts as many log pages as it wants.
    ensures { (cells now : List (ℕ × CellValue)) (hand : Hand) (update : Update)
        (ready : ReadyValue) → HaveNoLessRoom cells now → IsReadyBy cells hand update now ready
        → sum_by (page_count now) ready.plans
        ≡ pages_wanted cells (planned_by cells hand update) }
{}

/// A commit over cells publishes the items of its plans, each at its place in the commit: the slots are then those that
/// the commit makes, up to the erasing of an inode of which nothing is kept.
pub fn commits_publish_their_plans()
    // A commit publishes its plans: the cells' logs are those that the plain commit makes.
    // Each entry that a commit publishes stands at its place, up to erasing.
    ensures { (cells : List (ℕ × CellValue)) (book : BookValue) (cpu : ℕ) (ready : ReadyValue)
        (slots : ℕ → InodeSlot) → CanCommit cells book cpu ready → AreOfSlots cells slots
        → PublishesPlans cells (begun (stamp_of book.state) ready) slots }
{}

/// What a call publishes cell by cell is what it plans: the same items for each inode, at the same place of the commit.
pub fn cells_publish_what_is_planned()
    // What a call publishes cell by cell is what it plans.
    // A call publishes the same items for each inode as it plans, at the same place of the commit.
    ensures { (cells : List (ℕ × CellValue)) (hand : Hand) (update : Update)
        → CanReady cells hand update
        → PublishAlike (planned_in cells (plans_by cells hand update))
        (planned_by cells hand update) }
{}

/// A call looks up, is checked and planned with any text as with a text of as many zeros.
pub fn a_write_is_planned_by_its_length()
    // A write is checked and planned with any text as with as many zeros.
    // The code checks and plans a call by an `Update`, without its text.
    ensures { (block : ℕ) (nodes : Handle → Option NodeCopy) (has_page : Handle → ℕ → Bool)
        (taken : Allocation) (update : Update) (text : List ℕ) → length text ≡ text_len update
        → SamePlan block nodes has_page taken (blank_call update) (call_of update text) }
{}

/// A commit over cells has the effect that a plan fits which publishes alike: the nodes of the slots are afterwards
/// those of the effect, also where an inode was erased.
pub fn commits_have_their_effect()
    // A commit that publishes as a plan does which fits an effect has that effect on the nodes.
    // A commit has its effect where it erases an inode, too.
    ensures { (bytes : ℕ → List ℕ) (block : ℕ) (living : List ℕ) (cells : List (ℕ × CellValue))
        (book : BookValue) (cpu : ℕ) (ready : ReadyValue) (slots : ℕ → InodeSlot)
        (now : List (ℕ × CellValue)) (later : ℕ → InodeSlot) (plan : List InodePlan)
        (effect : List Change) → 0 < block
        → ((ino : ℕ) → IsSound bytes block (slots ino).log)
        → IsCommitted living cells book cpu ready slots now later
        → PublishAlike (planned_in cells ready.plans) plan → IsPlan bytes block slots plan effect
        → (handle : Handle) → node_under bytes block later handle
        ≡ nodes_after book.state.commit effect (node_under bytes block slots) handle }
{}

/// The cells of a commit are cells that the next call can be made ready over: settled, with blocks of the same size.
pub fn commits_leave_cells_settled()
    // A commit leaves cells that the next call can be made ready over.
    // Cells after a commit stand by rising number, with blocks of one size and no entry past the tail.
    ensures { (cells now : List (ℕ × CellValue)) (book : BookValue) (cpu : ℕ) (ready : ReadyValue)
        (living : List ℕ) (block : ℕ) → CanCommit cells book cpu ready
        → ChangesPlanned ready.plans
        (committed living cells (begun (stamp_of book.state) ready)) cells now
        → AllByRecursion (λ c. IsStill block c.1.state) cells
        → AreCells now × AllByRecursion (λ c. IsStill block c.1.state) now }
{}

/// An empty slot is up to any commit, by how often it was published before.
pub fn empty_slots_are_up_to_any_commit()
    // An empty inode slot is up to any commit.
    ensures { (stamp : Stamp) (before block page generation : ℕ)
        → IsUpTo stamp before (empty_cell block page generation before) }
{}

/// A commit leaves its cells up to its number and epoch, where they were up to those of an earlier one.
pub fn commits_keep_cells_up_to_the_book()
    // A commit leaves cells up to its number and epoch, where they were up to earlier ones.
    // No entry is later, each commit published a cell once at most, and no inode has the last generation.
    ensures { (cells now : List (ℕ × CellValue)) (book : BookValue) (cpu : ℕ) (ready : ReadyValue)
        (living : List ℕ) (stamp : Stamp) (before : ℕ → ℕ) → CanCommit cells book cpu ready
        → AllowsCommit cells book cpu ready
        → ChangesPlanned ready.plans
        (committed living cells (begun (stamp_of book.state) ready)) cells now
        → stamp.commit < book.state.commit → stamp.epoch ≤ book.state.snaps.epoch
        → AreUpTo stamp before cells → AreUpTo (stamp_of book.state) before now }
{}

/// A cell that is up to a commit takes a later one, where its generation is not the last, and it was not published
/// 2^62 times: a slot that no format wrote is published by commits alone, and so it was not.
pub fn cells_up_to_the_book_take_its_next_commit()
    // Cells that are up to a commit take any later one.
    // The law asks that their generation is not the last and commit numbers have not run out.
    ensures { (stamp next : Stamp) (before : ℕ) (cell : CellValue) → IsUpTo stamp before cell.state
        → stamp.commit < next.commit → stamp.epoch ≤ next.epoch → stamp.commit + before < NUMBER
        → cell.state.generation < NUMBER → TakesCommit next cell }
{}

/// A commit leaves its cells and its hand together as many blocks as before.
pub fn commits_keep_the_number_of_blocks()
    // A commit leaves cells and hand together as many blocks as before.
    ensures { (cells now : List (ℕ × CellValue)) (book : BookValue) (cpu : ℕ) (ready : ReadyValue)
        (living : List ℕ) → CanCommit cells book cpu ready
        → AllByRecursion (λ c. IsCell c.1.state) cells
        → ChangesPlanned ready.plans
        (committed living cells (begun (stamp_of book.state) ready)) cells now
        → sum_by (λ c. block_total c.1.state) now
        + length (blocks_of (hand_left living cells (begun (stamp_of book.state) ready)))
        ≡ sum_by (λ c. block_total c.1.state) cells + length (blocks_of ready.hand) }
{}

/// A commit raises the version of the cell of each plan by one, and of no other.
pub fn commits_raise_versions()
    // A commit raises the version of the cell of each plan by one.
    ensures planned { (cells now : List (ℕ × CellValue)) (living : List ℕ) (commit : CommitValue)
        → ChangesPlanned commit.plans (committed living cells commit) cells now
        → (j : ℕ) → j < length commit.plans → (state_at now (cell_place_of commit.plans j)).version
        ≡ (state_at cells (cell_place_of commit.plans j)).version + 1 }
    // A commit leaves all other cells their versions.
    ensures others { (cells now : List (ℕ × CellValue)) (living : List ℕ) (commit : CommitValue)
        → ChangesPlanned commit.plans (committed living cells commit) cells now
        → (k : ℕ) → IsUnplanned commit.plans k
        → (state_at now k).version ≡ (state_at cells k).version }
{}

/// After a commit over cells the logs of all slots are sound, also that of a slot that was erased.
pub fn commits_leave_sound_logs()
    // The logs of all inode slots are sound after a commit whose plan fits its effect.
    // The log of an inode slot that a commit erased is sound.
    ensures { (bytes : ℕ → List ℕ) (block : ℕ) (living : List ℕ) (cells : List (ℕ × CellValue))
        (book : BookValue) (cpu : ℕ) (ready : ReadyValue) (slots : ℕ → InodeSlot)
        (now : List (ℕ × CellValue)) (later : ℕ → InodeSlot) (plan : List InodePlan)
        (effect : List Change) → 0 < block
        → ((ino : ℕ) → IsSound bytes block (slots ino).log)
        → IsCommitted living cells book cpu ready slots now later
        → PublishAlike (planned_in cells ready.plans) plan → IsPlan bytes block slots plan effect
        → (ino : ℕ) → IsSound bytes block (later ino).log }
{}

/// What gives the bytes of the blocks of a commit's cells and of its hand gives those of its cells after it.
pub fn commits_keep_the_bytes_of_cells()
    // What gives the bytes of the blocks of its cells and hand gives those of the cells after it.
    ensures { (bytes : ℕ → List ℕ) (block : ℕ) (cells now : List (ℕ × CellValue)) (book : BookValue)
        (cpu : ℕ) (ready : ReadyValue) (living : List ℕ) → CanCommit cells book cpu ready
        → ChangesPlanned ready.plans
        (committed living cells (begun (stamp_of book.state) ready)) cells now
        → HaveBytes bytes block cells → AreRead bytes ready.hand.data.blocks
        → AllByRecursion (λ c. IsCell c.1.state) now → HaveBytes bytes block now }
{}

/// A whole call has its effect: the nodes of its cells are afterwards those before it, but for what it says to change,
/// under every handle, also where an inode was erased. And the next call finds its cells sound.
pub fn a_whole_call_has_its_effect()
    // A call that was made ready, filled and committed changes the nodes of its cells as it says.
    // A whole call has its effect under every handle.
    ensures nodes { (bytes : ℕ → List ℕ) (call : WholeCall) → IsWholeCall bytes call
        → HaveSoundLogs bytes (block_in call.before) call.before
        → (handle : Handle) → plain_nodes call.later handle
        ≡ nodes_after call.book.state.commit (effect_of call) (plain_nodes call.before) handle }
    // The logs of a whole call's cells are sound again, with the bytes of before and of its own blocks.
    ensures sound { (bytes : ℕ → List ℕ) (call : WholeCall) → IsWholeCall bytes call
        → HaveSoundLogs bytes (block_in call.before) call.before
        → HaveSoundLogs bytes (block_in call.before) call.later }
{}
