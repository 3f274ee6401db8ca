//! Logs by lines, and the blocks that they are read with. Blocks have four bytes.

use crate::ids::{handle, id};
use nv_base::{BlockNo, Epoch, Kind, Mode, Name};
use nv_entry::{BlockBytes, BlockRun, Entry, Item, PartId, Retention, When};
use std::alloc::Global;
use std::test::Fail;

pub const BLOCK: u64 = 4;

/// What a line of a log says.
#[derive(Clone, Copy, Debug)]
pub enum Says {
    File,
    Directory,
    /// The first page, its block, how many blocks, and the size.
    Write(u32, u32, u32, u64),
    Size(u64),
    Mode(u16),
    /// A name, and the inode that it leads to.
    Bind(&'static str, u64),
    Unbind(&'static str),
    Gone,
}

/// A line of a log: commit, place, epoch, and what it says.
pub type Line = (u64, u32, u64, Says);

pub fn mode(bits: u16) -> Result<Mode, Fail> {
    Ok(Mode::checked(bits).ok_or("a mode")?)
}

pub fn item(alloc: Global, says: Says) -> Result<Item, Fail> {
    match says {
        Says::File => begun(Kind::File, 420),
        Says::Directory => begun(Kind::Dir, 493),
        Says::Write(first, start, len, size) => Ok(written(first, start, len, size)),
        Says::Size(size) => Ok(Item::SetSize { size }),
        Says::Mode(bits) => Ok(Item::SetMode { mode: mode(bits)? }),
        Says::Bind(name, ino) => Ok(Item::Bind {
            name: Name::read(alloc, name.as_bytes())?,
            to: handle(ino),
        }),
        Says::Unbind(name) => Ok(Item::Unbind {
            name: Name::read(alloc, name.as_bytes())?,
        }),
        Says::Gone => Ok(Item::Gone),
    }
}

fn begun(kind: Kind, bits: u16) -> Result<Item, Fail> {
    Ok(Item::Init {
        kind,
        mode: mode(bits)?,
    })
}

fn written(first: u32, start: u32, len: u32, size: u64) -> Item {
    let run = BlockRun {
        start: BlockNo::new(u64::from(start)),
        len,
    };
    Item::Write { first, run, size }
}

pub fn log_of(alloc: Global, lines: &[Line]) -> Result<Vec<Entry>, Fail> {
    let mut log = Vec::new(alloc);
    for (commit, place, epoch, says) in lines {
        log.push(Entry {
            id: id(*commit, *place),
            epoch: Epoch::new(*epoch),
            item: item(alloc, *says)?,
        })?;
    }
    Ok(log)
}

/// At an epoch, or now.
pub fn when(epoch: Option<u64>) -> When {
    match epoch {
        Some(number) => When::At(Epoch::new(number)),
        None => When::Now,
    }
}

pub fn epochs(alloc: Global, numbers: &[u64]) -> Result<Vec<Epoch>, Fail> {
    let mut epochs = Vec::new(alloc);
    for number in numbers {
        epochs.push(Epoch::new(*number))?;
    }
    Ok(epochs)
}

pub fn retention<'a>(snapshots: &'a [Epoch], pending: &'a [PartId]) -> Retention<'a> {
    Retention {
        block: BLOCK,
        snapshots,
        pending,
    }
}

/// The blocks of a device, by number.
#[derive(Clone, Copy)]
pub struct Device<'a> {
    pub blocks: &'a [[u8; 4]],
}

impl<'a> BlockBytes for Device<'a> {
    ghost use Rattle.std.specs.Prelude.{slice_index_or, []};

    ghost bytes_of = { λ device number. slice_index_or device.blocks.now number [] };

    fn bytes(&self, number: BlockNo) -> &[u8] {
        match self.blocks.get(number.number() as usize) {
            Some(bytes) => bytes.as_slice(),
            None => &[],
        }
    }
}
