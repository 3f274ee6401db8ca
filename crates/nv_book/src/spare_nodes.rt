//! Nodes for runs, made before they are needed.

ghost use Rattle.std.specs.Prelude.{◌≡◌, ◌<◌, ◌≤◌, max, IfErr, IsOk, OnOk, OnErr};
ghost use Rattle.nv_base.specs.Memory.{out_of_memory};

use crate::Record;
use crate::run::RecordRun;
use nv_base::{CommitNo, EntryId, Epoch, Fault, Ino};
use nv_entry::Part;
use std::alloc::Global;
use std::collections::LinkedList;
use std::marker::Model;

/// Spare nodes. Contracts see how many.
#[derive(Debug, Drop)]
pub struct SpareNodes {
    pub(crate) nodes: LinkedList<RecordRun>,
}

impl Model for SpareNodes {
    ghost use Rattle.std.specs.Prelude.{ℕ, length};

    ghost Value = { ℕ };

    ghost view = { λ s. length s.nodes };
}

/// What stands in a spare node.
fn blank() -> RecordRun {
    RecordRun {
        first: Record {
            ino: Ino::new(0),
            entry: EntryId {
                commit: CommitNo::new(0),
                place: 0,
            },
            part: Part::Kind,
            birth: Epoch::new(0),
            death: Epoch::new(0),
        },
        more: 0,
    }
}

impl SpareNodes {
    /// No nodes, and no memory.
    pub fn new(alloc: Global) -> SpareNodes
        ensures { result ≡ 0 }
    {
        SpareNodes {
            nodes: LinkedList::new(alloc),
        }
    }

    /// Makes nodes until there are `need`. Those that were made before memory ran out stay.
    pub fn reserve(&mut self, need: u64) -> Result<(), Fault>
        ensures ok { OnOk result (need ≤ self.new) }
        ensures kept { self.old ≤ self.new }
        ensures most { self.new ≤ max self.old need }
        ensures fault { IfErr result (λ fault. fault ≡ out_of_memory) }
        ensures err { OnErr result (self.new < need) }
        ensures enough { need ≤ self.old → IsOk result }
    {
        while (self.nodes.len() as u64) < need {
            self.nodes.push_back(blank())?;
        }
        Ok(())
    }
}
