//! Why a call was refused.

ghost use Rattle.std.specs.Prelude.{◌≡◌, Some};
ghost use Rattle.nv_base.specs.Texts.{fault_name, fault_text, field_name, image_fault_name, part_name, script_fault_name};
ghost use Rattle.nv_base.specs.Memory.{out_of_memory};
ghost use Rattle.nv_base.specs.declared.fault.Fault.TheVariants.{OutOfMemory};

use crate::memory::NoMemory;
use std::alloc::{AllocError, AllocFailed};
use std::fmt;
use thiserror::Error;

/// A number of a geometry, or the number of seats of a service.
#[derive(Clone, Copy, Debug, PartialEq, Eq)]
pub enum GeometryField {
    Blocks,
    Cpus,
    Block,
    Page,
    Inodes,
    Snaps,
    Actors,
    Seats,
}

impl GeometryField {
    /// The field's name in texts.
    pub fn name(self) -> &'static str
        // A field of a geometry has its word, also by `Display`.
        ensures { result.now ≡ field_name self }
    {
        match self {
            GeometryField::Blocks => "blocks",
            GeometryField::Cpus => "cpus",
            GeometryField::Block => "block",
            GeometryField::Page => "page",
            GeometryField::Inodes => "inodes",
            GeometryField::Snaps => "snaps",
            GeometryField::Actors => "actors",
            GeometryField::Seats => "seats",
        }
    }
}

impl fmt::Display for GeometryField {
    ghost output = { λ field. Some (field_name field) };

    /// `Display` writes a fault's number, its name and its fields in brackets.
    fn fmt<W: fmt::Write>(&self, f: &mut fmt::Formatter<W>) -> fmt::Result {
        let field = self.name();
        f.write_str(field)
    }
}

/// A part of a world that differs from one scan of its logs.
#[derive(Clone, Copy, Debug, PartialEq, Eq)]
pub enum MismatchPart {
    Index,
    Names,
    Counts,
    Records,
    Lists,
}

impl MismatchPart {
    /// The part's name in texts.
    pub fn name(self) -> &'static str
        // A part that an audit finds to differ has its word, also by `Display`.
        ensures { result.now ≡ part_name self }
    {
        match self {
            MismatchPart::Index => "index",
            MismatchPart::Names => "names",
            MismatchPart::Counts => "counts",
            MismatchPart::Records => "records",
            MismatchPart::Lists => "lists",
        }
    }
}

impl fmt::Display for MismatchPart {
    ghost output = { λ part. Some (part_name part) };

    fn fmt<W: fmt::Write>(&self, f: &mut fmt::Formatter<W>) -> fmt::Result {
        let part = self.name();
        f.write_str(part)
    }
}

/// What is wrong with an image.
#[derive(Clone, Copy, Debug, PartialEq, Eq)]
pub enum ImageFault {
    Geometry,
    Block,
    Chain,
    Entry,
    Item,
    Run,
    Journal,
    Snaps,
}

impl ImageFault {
    /// The fault's name in texts.
    pub fn name(self) -> &'static str
        // A fault of an image has its word, also by `Display`.
        ensures { result.now ≡ image_fault_name self }
    {
        match self {
            ImageFault::Geometry => "geometry",
            ImageFault::Block => "block",
            ImageFault::Chain => "chain",
            ImageFault::Entry => "entry",
            ImageFault::Item => "item",
            ImageFault::Run => "run",
            ImageFault::Journal => "journal",
            ImageFault::Snaps => "snaps",
        }
    }
}

impl fmt::Display for ImageFault {
    ghost output = { λ fault. Some (image_fault_name fault) };

    fn fmt<W: fmt::Write>(&self, f: &mut fmt::Formatter<W>) -> fmt::Result {
        let fault = self.name();
        f.write_str(fault)
    }
}

/// What is wrong with a line of a script.
#[derive(Clone, Copy, Debug, PartialEq, Eq)]
pub enum ScriptFaultKind {
    Lines,
    Long,
    Unended,
    Word,
    Order,
    Count,
    Number,
    Text,
}

impl ScriptFaultKind {
    /// The kind's name in texts.
    pub fn name(self) -> &'static str
        // A kind of script fault has its word, also by `Display`.
        ensures { result.now ≡ script_fault_name self }
    {
        match self {
            ScriptFaultKind::Lines => "lines",
            ScriptFaultKind::Long => "long",
            ScriptFaultKind::Unended => "unended",
            ScriptFaultKind::Word => "word",
            ScriptFaultKind::Order => "order",
            ScriptFaultKind::Count => "count",
            ScriptFaultKind::Number => "number",
            ScriptFaultKind::Text => "text",
        }
    }
}

impl fmt::Display for ScriptFaultKind {
    ghost output = { λ kind. Some (script_fault_name kind) };

    fn fmt<W: fmt::Write>(&self, f: &mut fmt::Formatter<W>) -> fmt::Result {
        let kind = self.name();
        f.write_str(kind)
    }
}

/// Why a call was refused. Its text is the fault's number, its name and, in brackets, its fields.
#[derive(Clone, Copy, Debug, PartialEq, Eq, Error)]
pub enum Fault {
    /// A growth of memory was refused.
    OutOfMemory(NoMemory),
    /// The first field of a geometry that is out of its limits.
    BadGeometry(GeometryField),
    /// The handle's slot is out of range, empty or gone, or has another generation.
    Stale,
    /// The call is for files, and this is a directory.
    NotFile,
    /// The call is for directories, and this is a file.
    NotDirectory,
    /// The bytes are no lawful name.
    BadName,
    /// The directory has no such name.
    Missing,
    /// The directory has the name already.
    Exists,
    /// The directory still has names.
    NotEmpty,
    /// The file would have more than 65,536 pages.
    FileTooBig,
    /// The write touches more than 1,024 pages.
    WriteTooBig,
    /// No inode number is free.
    NoInode,
    /// The free lists have too few blocks.
    NoSpace,
    /// The commit numbers are used up.
    CommitLimit,
    /// The epochs are used up.
    EpochLimit,
    /// There is no room for another snapshot.
    TooManySnapshots,
    /// No living snapshot has this number.
    NoSnapshot,
    /// The snapshot is being read.
    Pinned,
    /// A directory can't move to another parent.
    MoveDirectory,
    /// A name was bound anew in each round.
    Contended,
    /// The actor has a call already.
    ActorBusy,
    /// The actor has no call.
    ActorIdle,
    /// There is no such actor.
    NoActor,
    /// The first part that differs from one scan of the logs.
    Mismatch(MismatchPart),
    /// A seat of the service is missing, strange or handed out already.
    SeatsOut,
    /// The first fault of an image.
    BadImage(ImageFault),
    /// The first fault of a script: its kind, and its line, counted from 1.
    ScriptFault(ScriptFaultKind, u64),
    /// A read failed.
    Read,
    /// A write failed.
    Write,
}

impl Fault {
    /// The fault's number and name.
    pub fn name(&self) -> &'static str
        // A fault has its name.
        ensures { result.now ≡ fault_name self.now }
    {
        match self {
            Fault::OutOfMemory(_) => "E1 OutOfMemory",
            Fault::BadGeometry(_) => "E2 BadGeometry",
            Fault::Stale => "E3 Stale",
            Fault::NotFile => "E4 NotFile",
            Fault::NotDirectory => "E5 NotDirectory",
            Fault::BadName => "E6 BadName",
            Fault::Missing => "E7 Missing",
            Fault::Exists => "E8 Exists",
            Fault::NotEmpty => "E9 NotEmpty",
            Fault::FileTooBig => "E10 FileTooBig",
            Fault::WriteTooBig => "E11 WriteTooBig",
            Fault::NoInode => "E12 NoInode",
            Fault::NoSpace => "E13 NoSpace",
            Fault::CommitLimit => "E14 CommitLimit",
            Fault::EpochLimit => "E15 EpochLimit",
            Fault::TooManySnapshots => "E16 TooManySnapshots",
            Fault::NoSnapshot => "E17 NoSnapshot",
            Fault::Pinned => "E18 Pinned",
            Fault::MoveDirectory => "E19 MoveDirectory",
            Fault::Contended => "E20 Contended",
            Fault::ActorBusy => "E21 ActorBusy",
            Fault::ActorIdle => "E22 ActorIdle",
            Fault::NoActor => "E23 NoActor",
            Fault::Mismatch(_) => "E24 Mismatch",
            Fault::SeatsOut => "E25 SeatsOut",
            Fault::BadImage(_) => "E26 BadImage",
            Fault::ScriptFault(_, _) => "E27 ScriptFault",
            Fault::Read => "E28 Read",
            Fault::Write => "E29 Write",
        }
    }
}

impl fmt::Display for Fault {
    ghost output = { λ fault. Some (fault_text fault) };

    fn fmt<W: fmt::Write>(&self, f: &mut fmt::Formatter<W>) -> fmt::Result {
        f.write_str(self.name())?;
        match self {
            Fault::BadGeometry(field) => write!(f, "({field})"),
            Fault::Mismatch(part) => write!(f, "({part})"),
            Fault::BadImage(fault) => write!(f, "({fault})"),
            Fault::ScriptFault(kind, line) => write!(f, "({line}, {kind})"),
            _ => Ok(()),
        }
    }
}

impl From<NoMemory> for Fault {
    ghost from_gives = { λ witness fault. fault ≡ OutOfMemory witness };

    /// A refused growth becomes `OutOfMemory`, as an `AllocError` and as an `AllocFailed`.
    /// A witness of want of memory becomes `OutOfMemory` with that witness.
    fn from(witness: NoMemory) -> Fault {
        Fault::OutOfMemory(witness)
    }
}

impl From<AllocError> for Fault {
    ghost from_gives = { λ _ fault. fault ≡ out_of_memory };

    fn from(error: AllocError) -> Fault {
        Fault::OutOfMemory(NoMemory::from(error))
    }
}

impl<T: Drop> From<AllocFailed<T>> for Fault {
    ghost from_gives = { λ _ fault. fault ≡ out_of_memory };

    fn from(error: AllocFailed<T>) -> Fault {
        Fault::OutOfMemory(NoMemory::from(error))
    }
}
