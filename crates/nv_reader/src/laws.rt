//! Laws of walks and trees. Each is a function that does nothing, whose contract is the law.

ghost use Rattle.std.specs.Prelude.{◌≡◌, ◌≢◌, ◌<◌, ◌≤◌, ◌+◌, [], ℕ, AllPairs, List, None, Option, Some, length, map};
ghost use Rattle.std.specs.List.{All};
ghost use Rattle.std.specs.Option.{ForSome};
ghost use Rattle.nv_base.specs.declared.numbers.Handle.{Handle};
ghost use Rattle.nv_cell.specs.Cell.{CellState, log_of};
ghost use Rattle.nv_entry.specs.Log.{up_to};
ghost use Rattle.nv_entry.specs.Tree.{CutsNothing, FormTree, root, tree_from};
ghost use Rattle.nv_entry.specs.declared.item.Entry.{Entry};
ghost use Rattle.nv_entry.specs.declared.node.NodeCopy.{NodeCopy};
ghost use Rattle.nv_reader.specs.Cells.{settled};
ghost use Rattle.nv_reader.specs.Nodes.{node_under, nodes_at, settled_nodes, unsettled};
ghost use Rattle.nv_reader.specs.Walk.{given_in, left_after, name_count, root_visit, to_come, visits_to_come};
ghost use Rattle.nv_reader.specs.Worlds.{HaveAll, HaveAtMost, handles_from, most_visits, names_of_all};

/// Where every entry that counts and is not settled is of a later epoch, the settled log says of an epoch what the
/// whole log says. So what [`show_on`](crate::show_on) gives of that epoch does not depend on calls that are under way.
pub fn settled_logs_tell_earlier_epochs()
    // An epoch reads the same by the settled log as by the whole log.
    // The law asks that all entries that are not settled are of later epochs.
    ensures { (cell : CellState) (noted : Option ℕ) (epoch : ℕ)
        → ForSome noted (λ tail. tail ≤ cell.chain.tail)
        → All (λ e. epoch < e.epoch) (unsettled noted cell)
        → up_to epoch (log_of cell) ≡ up_to epoch (settled noted cell) }
{}

/// The node under a handle is what its slot's cell gives, where that is of the handle's generation: at an epoch
/// as [`show_on`](crate::show_on) says, and now as [`settled_on`](crate::settled_on) says. In any other
/// generation there is none.
pub fn handles_lead_to_their_generation()
    // The node under a handle, now or at an epoch, is what its inode slot's cell gives.
    ensures then { (node : CellState → List Entry → Option NodeCopy) (cells : ℕ → CellState)
        → (epoch : ℕ) (handle : Handle) → handle.generation ≡ (cells handle.ino).generation
        → nodes_at node cells epoch handle
        ≡ node (cells handle.ino) (up_to epoch (log_of (cells handle.ino))) }
    ensures now { (node : CellState → List Entry → Option NodeCopy) (cells : ℕ → CellState)
        → (noted : ℕ → Option ℕ) (handle : Handle)
        → handle.generation ≡ (cells handle.ino).generation
        → settled_nodes node cells noted handle
        ≡ node (cells handle.ino) (settled (noted handle.ino) (cells handle.ino)) }
    // A handle leads to a node in its own generation only.
    ensures other { (node : CellState → List Entry → Option NodeCopy) (cells : ℕ → CellState)
        → (logs : ℕ → List Entry) (handle : Handle)
        → handle.generation ≢ (cells handle.ino).generation
        → node_under node cells logs handle ≡ None }
{}

/// What is to come of a new walk is the tree from its root on.
pub fn to_come_is_the_tree()
    // What is to come of a walk at its root is the tree.
    ensures { (nodes : Handle → Option NodeCopy) (depth : ℕ) (root : Handle) →
        to_come nodes (root_visit depth root) ≡ tree_from nodes depth [] root }
{}

/// A walk into which the node of each visit is handed gives out the tree, and is at its end once it has made the visits
/// that it had to make.
pub fn a_whole_walk_gives_the_tree()
    // A walk into which the node of each visit is handed gives out the whole tree.
    ensures tree { (nodes : Handle → Option NodeCopy) (depth visits : ℕ) (root : Handle)
        → visits_to_come nodes (root_visit depth root) ≤ visits
        → given_in nodes visits (root_visit depth root) ≡ tree_from nodes depth [] root }
    // A walk into which each node is handed is at its end after the visits that it had to make.
    ensures end { (nodes : Handle → Option NodeCopy) (depth visits : ℕ) (root : Handle)
        → visits_to_come nodes (root_visit depth root) ≤ visits
        → left_after nodes visits (root_visit depth root) ≡ [] }
{}

/// Two depths that cut nothing give the same tree.
pub fn deep_enough_depths_agree()
    // Two depths that cut nothing give the same tree.
    ensures { (nodes : Handle → Option NodeCopy) (one other : ℕ)
        (path : List (List ℕ)) (handle : Handle) →
        CutsNothing nodes one handle → CutsNothing nodes other handle →
        tree_from nodes one path handle ≡ tree_from nodes other path handle }
{}

/// Where the directories form a tree, a depth of as many nodes as there are inodes cuts nothing.
pub fn inodes_bound_the_depth()
    // Where the directories form a tree, the number of inodes cuts nothing.
    ensures { (nodes : Handle → Option NodeCopy) (inodes depth : ℕ) → FormTree nodes inodes
        → inodes ≤ depth →
        CutsNothing nodes depth root }
{}

/// A walk makes at most one visit for each name of the nodes that it gives out, and one more, in any world. So the
/// nodes are no more either.
pub fn names_bound_the_visits()
    // In any world a walk makes at most one visit for each name of the nodes given out, and one more.
    ensures visits { (nodes : Handle → Option NodeCopy) (depth : ℕ) (root : Handle)
        → visits_to_come nodes (root_visit depth root)
        ≤ name_count (tree_from nodes depth [] root) + 1 }
    ensures nodes { (nodes : Handle → Option NodeCopy) (depth : ℕ) (root : Handle) →
        length (tree_from nodes depth [] root) ≤ name_count (tree_from nodes depth [] root) + 1 }
{}

/// Where the directories form a tree, no inode is visited twice: the nodes of the tree are those of these handles,
/// whose inodes differ from one another, and so they are no more than the inodes.
pub fn no_inode_is_visited_twice()
    // Where the directories form a tree, no inode is visited twice.
    ensures handles { (nodes : Handle → Option NodeCopy) (depth : ℕ) (path : List (List ℕ))
        (handle : Handle) → map (λ t. Some t.node) (tree_from nodes depth path handle)
        ≡ map nodes (handles_from nodes depth handle) }
    ensures differ { (nodes : Handle → Option NodeCopy) (inodes depth : ℕ) → FormTree nodes inodes →
        AllPairs (λ one other. one.ino ≢ other.ino) (handles_from nodes depth root) }
    // Where the directories form a tree, a walk gives out no more nodes than there are inodes.
    ensures few { (nodes : Handle → Option NodeCopy) (inodes depth : ℕ) → FormTree nodes inodes →
        length (tree_from nodes depth [] root) ≤ inodes }
{}

/// Where the directories form a tree, a walk makes at most as many visits as there are names in the whole world, and
/// one more for the root; and it gives out at most as many nodes.
pub fn names_of_the_world_bound_the_visits()
    // Where they form a tree, a walk makes at most one visit for each name of the world, and one more.
    ensures visits { (nodes : Handle → Option NodeCopy) (inodes depth : ℕ) (all : List Handle)
        → FormTree nodes inodes → HaveAll nodes all
        → visits_to_come nodes (root_visit depth root) ≤ names_of_all nodes all + 1 }
    // Where they form a tree, a walk gives out no more nodes than that.
    ensures nodes { (nodes : Handle → Option NodeCopy) (inodes depth : ℕ) (all : List Handle)
        → FormTree nodes inodes → HaveAll nodes all
        → length (tree_from nodes depth [] root) ≤ names_of_all nodes all + 1 }
{}

/// In any world a walk ends: where no directory has more than so many names, it makes no more visits than a walk of
/// that depth makes through directories that all have as many; and it gives out no more nodes. That number grows
/// exponentially with the depth: who cannot tell that the directories form a tree has to find that out before the walk.
pub fn walks_end_in_any_world()
    // A walk ends in any world, also where the directories form no tree.
    // The number of a walk's visits is bounded by its depth and the longest directory.
    ensures visits { (nodes : Handle → Option NodeCopy) (most depth : ℕ) (root : Handle)
        → HaveAtMost nodes most
        → visits_to_come nodes (root_visit depth root) ≤ most_visits most depth }
    ensures nodes { (nodes : Handle → Option NodeCopy) (most depth : ℕ) (root : Handle)
        → HaveAtMost nodes most
        → length (tree_from nodes depth [] root) ≤ most_visits most depth }
{}
