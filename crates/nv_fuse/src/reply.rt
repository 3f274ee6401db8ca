//! What a request is answered.

ghost use Rattle.std.specs.Prelude.{◌≡◌, ◌<◌, ◌≤◌, ◌+◌, ◌^◌, ◌++◌, [], length, OnErr, OnOk, vec_capacity, vec_len};
ghost use Rattle.std.specs.List.{flat_map};
ghost use Rattle.nv_fuse.specs.Replies.{agreement_rows, contents_of, entry_rows, error_of, header_rows, open_rows, reply_bytes, reply_length, rows_of, statistics_rows};
ghost use Rattle.nv_fuse.specs.Rows.{bytes_of};
ghost use Rattle.nv_fuse.specs.Written.{field_bytes};

use crate::attributes::{Attributes, Entry, attribute_fields, entry_fields};
use crate::errno::Errno;
use crate::put::{Field, put, put_fields};
use std::alloc::AllocError;

/// A reply to a request.
#[derive(Clone, Copy, Debug, Drop)]
pub enum Reply<'a> {
    /// The request is refused.
    Refused {
        error: Errno,
    },
    /// It is done, and there is nothing to tell.
    Done,
    /// What the first request agrees on.
    Agreed(Agreement),
    /// The node with the name, or the one that was made.
    Found(Entry),
    /// The file that was made and opened.
    Created {
        entry: Entry,
        opened: OpenFile,
    },
    /// The attributes of the node, and for how long they hold.
    Node {
        valid: u64,
        valid_nanoseconds: u32,
        attributes: Attributes,
    },
    /// The file or directory that was opened.
    Opened(OpenFile),
    /// How many bytes were written.
    Written {
        size: u32,
    },
    /// How much space there is.
    Space(Statistics),
    /// The bytes that were read, or the names that were listed.
    Contents {
        bytes: &'a [u8],
    },
}

/// What kernel and file system agree on: the version, and what both are able to.
#[derive(Clone, Copy, Debug, PartialEq, Eq, Drop)]
pub struct Agreement {
    pub major: u32,
    pub minor: u32,
    /// How many bytes are read ahead at most.
    pub max_readahead: u32,
    pub flags: u32,
    /// How many requests wait at most that no process waits for.
    pub max_background: u16,
    /// From how many of these on the file system counts as busy.
    pub congestion_threshold: u16,
    /// How many bytes a write has at most.
    pub max_write: u32,
    /// The nanoseconds by which times are told.
    pub time_granularity: u32,
    /// How many pages a request has at most.
    pub max_pages: u16,
    /// The bits of the alignment of maps.
    pub map_alignment: u16,
}

/// A file or directory that is open.
#[derive(Clone, Copy, Debug, PartialEq, Eq, Drop)]
pub struct OpenFile {
    /// The number by which later requests name it.
    pub file: u64,
    pub flags: u32,
}

/// How much space there is, in blocks and inodes.
#[derive(Clone, Copy, Debug, PartialEq, Eq, Drop)]
pub struct Statistics {
    pub blocks: u64,
    pub free_blocks: u64,
    /// How many of the free blocks are for all users.
    pub available_blocks: u64,
    pub inodes: u64,
    pub free_inodes: u64,
    /// How many bytes are best read at once.
    pub block_size: u32,
    /// How many bytes a name has at most.
    pub name_length: u32,
    /// How many bytes a block has.
    pub fragment_size: u32,
}

/// Enough room for the numbers of each reply, with those of its header: eight bytes for each.
const ROOM: usize = 224;

/// What of a reply its fields leave.
#[derive(Clone, Copy, Debug, Drop)]
struct Rest<'a> {
    /// The error as the header tells it.
    error: u32,
    /// How many bytes the fields take.
    fields: u32,
    /// The bytes behind the fields.
    contents: &'a [u8],
}

/// The rest of a reply that has but fields of so many bytes.
fn only_fields<'a>(fields: u32) -> Rest<'a>
    ensures error { result.error ≡ 0 }
    ensures fields { result.fields ≡ fields }
    ensures contents { result.contents.now ≡ [] }
{
    Rest {
        error: 0,
        fields,
        contents: b"".as_slice(),
    }
}

impl<'a> Reply<'a> {
    /// How many bytes the reply has.
    pub fn length(&self) -> u32
        // Its length has a place of four bytes.
        requires { reply_length self.now < 2 ^ 32 }
        // A reply is as long as its header, its fields and what stands behind them.
        ensures { result ≡ reply_length self.now }
    {
        let rest = self.rest();
        16 + rest.fields + rest.contents.len() as u32
    }

    /// Appends the reply to the request with this number.
    pub fn append_to(&self, unique: u64, out: &mut Vec<u8>) -> Result<(), AllocError>
        // Its length has a place of four bytes.
        requires { reply_length self.now < 2 ^ 32 }
        // The bytes of the reply's table stand behind what was there.
        ensures ok { OnOk result (out.new.items ≡ out.old.items ++ reply_bytes unique self.now) }
        // Without memory nothing is appended.
        ensures err { OnErr result (out.new.items ≡ out.old.items) }
    {
        let contents = self.rest().contents;
        out.reserve(ROOM + contents.len())?;
        put_fields(out, &self.header(unique));
        self.put_rows(out);
        put(out, contents);
        Ok(())
    }

    /// The fields of its header.
    fn header(&self, unique: u64) -> [Field; 3]
        requires { reply_length self.now < 2 ^ 32 }
        ensures { flat_map field_bytes result ≡ bytes_of (header_rows unique self.now) }
    {
        [
            Field::Word(self.length()),
            Field::Word(self.rest().error),
            Field::Long(unique),
        ]
    }

    /// What its fields leave.
    fn rest(&self) -> Rest<'a>
        ensures error { result.error ≡ error_of self.now }
        ensures fields { result.fields ≡ length (bytes_of (rows_of self.now)) }
        ensures most { result.fields ≤ 144 }
        ensures contents { result.contents.now ≡ contents_of self.now }
        ensures count { length result.contents.now ≡ length (contents_of self.now) }
    {
        match *self {
            Reply::Refused { error } => Rest {
                error: u32::MAX - (error.number() - 1),
                fields: 0,
                contents: b"".as_slice(),
            },
            Reply::Done => only_fields(0),
            Reply::Agreed(_) => only_fields(64),
            Reply::Found(_) => only_fields(128),
            Reply::Created { .. } => only_fields(144),
            Reply::Node { .. } => only_fields(104),
            Reply::Opened(_) => only_fields(16),
            Reply::Written { .. } => only_fields(8),
            Reply::Space(_) => only_fields(80),
            Reply::Contents { bytes } => Rest {
                error: 0,
                fields: 0,
                contents: bytes,
            },
        }
    }

    /// Appends the bytes of its fields.
    fn put_rows(&self, out: &mut Vec<u8>)
        requires { vec_len out.old + 200 ≤ vec_capacity out.old }
        ensures items { out.new.items ≡ out.old.items ++ bytes_of (rows_of self.now) }
        ensures len { vec_len out.new ≤ vec_len out.old + 200 }
        ensures capacity { vec_capacity out.old ≤ vec_capacity out.new }
    {
        match self {
            Reply::Refused { .. } => {}
            Reply::Done => {}
            Reply::Agreed(agreement) => put_fields(out, &agreement_fields(agreement)),
            Reply::Found(entry) => put_entry(out, entry),
            Reply::Created { entry, opened } => {
                put_entry(out, entry);
                put_fields(out, &open_fields(opened));
            }
            Reply::Node {
                valid,
                valid_nanoseconds,
                attributes,
            } => {
                let times = [
                    Field::Long(*valid),
                    Field::Word(*valid_nanoseconds),
                    Field::Word(0),
                ];
                put_fields(out, &times);
                put_fields(out, &attribute_fields(attributes));
            }
            Reply::Opened(opened) => put_fields(out, &open_fields(opened)),
            Reply::Written { size } => put_fields(out, &[Field::Word(*size), Field::Word(0)]),
            Reply::Space(statistics) => put_fields(out, &statistics_fields(statistics)),
            Reply::Contents { .. } => {}
        }
    }
}

/// Appends the fields of an entry.
fn put_entry(out: &mut Vec<u8>, entry: &Entry)
    requires { vec_len out.old + 176 ≤ vec_capacity out.old }
    ensures items { out.new.items ≡ out.old.items ++ bytes_of (entry_rows entry.now) }
    ensures len { vec_len out.new ≤ vec_len out.old + 176 }
    ensures capacity { vec_capacity out.old ≤ vec_capacity out.new }
{
    put_fields(out, &entry_fields(entry));
    put_fields(out, &attribute_fields(&entry.attributes));
}

fn agreement_fields(x: &Agreement) -> [Field; 14]
    ensures { flat_map field_bytes result ≡ bytes_of (agreement_rows x.now) }
{
    [
        Field::Word(x.major),
        Field::Word(x.minor),
        Field::Word(x.max_readahead),
        Field::Word(x.flags),
        Field::Half(x.max_background),
        Field::Half(x.congestion_threshold),
        Field::Word(x.max_write),
        Field::Word(x.time_granularity),
        Field::Half(x.max_pages),
        Field::Half(x.map_alignment),
        Field::Long(0),
        Field::Long(0),
        Field::Long(0),
        Field::Long(0),
    ]
}

fn open_fields(x: &OpenFile) -> [Field; 3]
    ensures { flat_map field_bytes result ≡ bytes_of (open_rows 0 x.now) }
{
    [Field::Long(x.file), Field::Word(x.flags), Field::Word(0)]
}

fn statistics_fields(x: &Statistics) -> [Field; 12]
    ensures { flat_map field_bytes result ≡ bytes_of (statistics_rows x.now) }
{
    [
        Field::Long(x.blocks),
        Field::Long(x.free_blocks),
        Field::Long(x.available_blocks),
        Field::Long(x.inodes),
        Field::Long(x.free_inodes),
        Field::Word(x.block_size),
        Field::Word(x.name_length),
        Field::Word(x.fragment_size),
        Field::Word(0),
        Field::Long(0),
        Field::Long(0),
        Field::Long(0),
    ]
}
