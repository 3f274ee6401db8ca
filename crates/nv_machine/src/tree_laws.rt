//! Laws of the machine of steps on the tree of directories.

ghost use Rattle.std.specs.Prelude.{ℕ, Contains, List, length};
ghost use Rattle.nv_base.specs.declared.geometry.GeometryNumbers.{GeometryNumbers};
ghost use Rattle.nv_book.specs.declared.record.Record.{Record};
ghost use Rattle.nv_calls.specs.Plain.{node_in};
ghost use Rattle.nv_entry.specs.Tree.{FormTree};
ghost use Rattle.nv_epoch.specs.SnapList.{ids};
ghost use Rattle.nv_machine.specs.Directories.{AreTree};
ghost use Rattle.nv_machine.specs.Settled.{settled_copies, settled_nodes};
ghost use Rattle.nv_machine.specs.Starts.{IsStart};
ghost use Rattle.nv_machine.specs.Step.{after};
ghost use Rattle.nv_machine.specs.World.{Event, World};

/// Directories form a tree, whatever events came from any start on, by the settled logs: every node but the root is
/// reached from it by exactly one name. It is what the refusals of rename and of rmdir are for. With it a walk from the
/// root that goes as many nodes deep as there are inode slots cuts nothing. So do those of each living snapshot.
pub fn directories_form_a_tree()
    // By the settled logs every node except the root is reached from it by exactly one name.
    // Each name leads to a node and stands in a directory.
    ensures tree { (g : GeometryNumbers) (start : World) (records : List Record) (events : List Event)
        → IsStart g start records → AreTree (node_in (settled_nodes (after start events).shared)) }
    // No two nodes have one inode number.
    // A walk that goes as many nodes deep as there are inode slots cuts nothing.
    ensures numbers { (g : GeometryNumbers) (start : World) (records : List Record) (events : List Event)
        → IsStart g start records → FormTree (node_in (settled_nodes (after start events).shared))
        (length (after start events).shared.cells) }
    // The nodes of each living snapshot form a tree too.
    ensures copies { (g : GeometryNumbers) (start : World) (records : List Record)
        (events : List Event) (snapshot : ℕ) → IsStart g start records
        → Contains (ids (after start events).shared.book.snaps) snapshot
        → AreTree (settled_copies (after start events).shared snapshot) }
{}
