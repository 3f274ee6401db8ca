//! What stands of a device once it has stopped. An image may come from anywhere: nothing holds of it before it is judged.

ghost use Rattle.std.specs.Prelude.{◌≡◌, ◌<◌, length};
ghost use Rattle.nv_audit.specs.Image.{slot_of};

use nv_alloc::Block;
use nv_base::{CommitNo, Epoch, Gen, Geometry};
use nv_journal::Journal;
use nv_log::ChainImage;
use std::marker::Model;

/// The data blocks of a slot. Contracts see those that are there, in the order of their places.
pub struct DataBlocks {
    pub places: Vec<Option<Block>>,
}

impl Model for DataBlocks {
    ghost use Rattle.std.specs.Prelude.{List, option_to_list};
    ghost use Rattle.std.specs.List.{flat_map};
    ghost use Rattle.nv_alloc.specs.Block.{BlockValue};

    ghost Value = { List BlockValue };

    ghost view = { λ d. flat_map option_to_list d.places.items };
}

/// A slot: the generation of its inode, the log and the data.
pub struct SlotImage {
    pub generation: Gen,
    pub chain: ChainImage,
    pub blocks: DataBlocks,
}

impl Model for SlotImage {
    ghost use Rattle.nv_audit.specs.Image.{SlotImageValue};

    ghost Value = { SlotImageValue };

    ghost view = { λ s. record {
      generation = s.generation;
      chain = s.chain;
      blocks = s.blocks;
    } };
}

/// A device that has stopped. Indexes, counts, free lists, records, hands and actors are not in it: a mount makes them anew.
pub struct Image {
    /// What the device was made for.
    pub geometry: Geometry,
    /// By inode number.
    pub slots: Vec<SlotImage>,
    /// By CPU.
    pub journals: Vec<Journal>,
    /// The numbers of the living snapshots.
    pub snapshots: Vec<Epoch>,
    pub epoch: Epoch,
    /// The number of the last commit.
    pub commit: CommitNo,
}

impl Model for Image {
    ghost use Rattle.nv_audit.specs.Image.{ImageValue};

    ghost Value = { ImageValue };

    ghost view = { λ i. record {
      numbers = i.geometry.numbers;
      slots = i.slots.items;
      journals = i.journals.items;
      snapshots = i.snapshots.items;
      epoch = i.epoch;
      commit = i.commit;
    } };
}

impl Image {
    /// The slot of an inode.
    pub(crate) fn slot(&self, ino: usize) -> &SlotImage
        requires { ino < length self.now.slots }
        ensures { result.now ≡ slot_of self.now ino }
    {
        &self.slots[ino]
    }
}
