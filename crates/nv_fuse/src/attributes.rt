//! What a reply tells of a node.

ghost use Rattle.std.specs.Prelude.{◌≡◌, ◌++◌};
ghost use Rattle.std.specs.List.{flat_map};
ghost use Rattle.nv_fuse.specs.Replies.{attribute_rows, entry_rows};
ghost use Rattle.nv_fuse.specs.Rows.{bytes_of};
ghost use Rattle.nv_fuse.specs.Written.{field_bytes};

use crate::put::Field;

/// The attributes of a node. Times are seconds and nanoseconds since 1970.
#[derive(Clone, Copy, Debug, PartialEq, Eq, Drop)]
pub struct Attributes {
    /// The number that programs see.
    pub inode: u64,
    /// How many bytes a file has.
    pub size: u64,
    /// How many blocks of 512 bytes it takes.
    pub blocks: u64,
    /// The seconds of the last read.
    pub accessed: u64,
    /// The seconds of the last write.
    pub modified: u64,
    /// The seconds of the last change of its attributes.
    pub changed: u64,
    /// The nanoseconds of the last read.
    pub accessed_nanoseconds: u32,
    /// The nanoseconds of the last write.
    pub modified_nanoseconds: u32,
    /// The nanoseconds of the last change of its attributes.
    pub changed_nanoseconds: u32,
    /// Its kind and its permissions.
    pub mode: u32,
    /// How many names it has.
    pub links: u32,
    /// Its owner.
    pub user: u32,
    /// Its group.
    pub group: u32,
    /// The device that it stands for.
    pub device: u32,
    /// How many bytes are best read at once.
    pub block_size: u32,
}

/// The node that a name stands for.
#[derive(Clone, Copy, Debug, PartialEq, Eq, Drop)]
pub struct Entry {
    /// The number by which requests name it.
    pub node: u64,
    /// How often that number had been given before.
    pub generation: u64,
    /// For how many seconds the name holds.
    pub name_valid: u64,
    /// For how many seconds the attributes hold.
    pub attributes_valid: u64,
    /// For how many nanoseconds more the name holds.
    pub name_valid_nanoseconds: u32,
    /// For how many nanoseconds more the attributes hold.
    pub attributes_valid_nanoseconds: u32,
    /// Its attributes.
    pub attributes: Attributes,
}

/// The fields of attributes.
pub(crate) fn attribute_fields(x: &Attributes) -> [Field; 16]
    ensures { flat_map field_bytes result ≡ bytes_of (attribute_rows 0 x.now) }
{
    [
        Field::Long(x.inode),
        Field::Long(x.size),
        Field::Long(x.blocks),
        Field::Long(x.accessed),
        Field::Long(x.modified),
        Field::Long(x.changed),
        Field::Word(x.accessed_nanoseconds),
        Field::Word(x.modified_nanoseconds),
        Field::Word(x.changed_nanoseconds),
        Field::Word(x.mode),
        Field::Word(x.links),
        Field::Word(x.user),
        Field::Word(x.group),
        Field::Word(x.device),
        Field::Word(x.block_size),
        Field::Word(0),
    ]
}

/// The fields of an entry before its attributes.
pub(crate) fn entry_fields(x: &Entry) -> [Field; 6]
    ensures { flat_map field_bytes result ++ bytes_of (attribute_rows 0 x.now.attributes)
        ≡ bytes_of (entry_rows x.now) }
{
    [
        Field::Long(x.node),
        Field::Long(x.generation),
        Field::Long(x.name_valid),
        Field::Long(x.attributes_valid),
        Field::Word(x.name_valid_nanoseconds),
        Field::Word(x.attributes_valid_nanoseconds),
    ]
}
