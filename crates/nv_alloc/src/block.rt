//! A block of the device.

ghost use Rattle.std.specs.Prelude.{◌≡◌, IfOk, length};
ghost use Rattle.std.specs.Borrow.{sem};
ghost use Rattle.nv_alloc.specs.Block.{zero_block, zeroed};
ghost use Rattle.nv_alloc.specs.Lends.{LendsBytes};

use nv_base::BlockNo;
use std::alloc::{AllocError, Global};
use std::marker::Model;

/// A block: its number, and bytes of its own. It is no `Drop`, so that one that is forgotten doesn't compile; it
/// ends in [`Block::into_bytes`], or in the `dismantle` of what holds it.
pub struct Block {
    number: BlockNo,
    bytes: Vec<u8>,
}

impl Model for Block {
    ghost use Rattle.nv_alloc.specs.Block.{BlockValue};

    ghost Value = { BlockValue };

    ghost view = { λ b. record { number = b.number; bytes = b.bytes.items } };
}

impl Block {
    /// A block of this number and of `size` bytes, all 0.
    pub(crate) fn zeroed(alloc: Global, number: BlockNo, size: usize) -> Result<Block, AllocError>
        ensures { IfOk result (λ block. block ≡ zero_block size number) }
    {
        let bytes = vec![in alloc; 0; size]?;
        Ok(Block { number, bytes })
    }

    /// The block's number.
    pub fn number(&self) -> BlockNo
        // Readers tell the number and the bytes of a block.
        ensures { result ≡ self.now.number }
    {
        self.number
    }

    /// The block's bytes.
    pub fn bytes(&self) -> &[u8]
        ensures { result.now ≡ self.now.bytes }
    {
        self.bytes.as_slice()
    }

    /// The bytes, to be written in place. They stay as many as they are.
    pub fn bytes_mut(&mut self) -> &mut [u8]
        // A block's bytes are written in place, as many as they are, and nothing else changes.
        ensures* writes_back { sem 𝓛 (LendsBytes self.entry result) }
        ensures value { result.now ≡ self.old.bytes }
    {
        self.bytes.as_mut_slice()
    }

    /// Writes all bytes of the block.
    pub fn write(&mut self, bytes: &[u8])
        requires { length bytes.now ≡ length self.old.bytes }
        // A block has the bytes that it was given.
        ensures { self.new ≡ record self.old { bytes = bytes.now } }
    {
        self.bytes.copy_from_slice(bytes);
    }

    /// Writes 0 to all bytes.
    pub fn clear(&mut self)
        // All bytes of a block are 0 then.
        ensures { self.new ≡ zeroed self.old }
    {
        self.bytes.fill(0);
    }

    /// Takes the block apart, and its number is gone: for the owner of a whole device that is let go.
    pub fn into_bytes(self) -> Vec<u8>
        ensures { result.items ≡ self.bytes }
    {
        let Block { number: _, bytes } = self;
        bytes
    }
}
