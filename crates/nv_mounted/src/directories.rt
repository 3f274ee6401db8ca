//! The directories that are open.

ghost use Rattle.std.specs.Prelude.{◌≡◌, [], false, filter, not, Ok, IfErr, IfNone, IfOk, IfSome, OnErr, OnOk};
ghost use Rattle.nv_mount_beside.specs.Memory.{IsOrNoMemory, no_memory};
ghost use Rattle.nv_mounted.specs.Dialogues.{IsHad};
ghost use Rattle.nv_mounted.specs.Listings.{ask_behind, ask_listing, ask_named, directory, dots, is_closed, is_read, is_shown};
ghost use Rattle.nv_mounted.specs.Listings.{list_anew, listed_from, listed_kind, lowest_free, open_directory, open_under, read_directory};
ghost use Rattle.nv_mounted.specs.Listings.{with_one_more, with_open};
ghost use Rattle.nv_mounted.specs.Side.{Does};
ghost use Rattle.nv_mounted.specs.Talks.{is_file};

use crate::asks::{ask_names, ask_shape};
use crate::listing::{Listing, Named, listed};
use crate::mount::Mount;
use crate::world::Core;
use nv_base::{Bytes, Handle, Kind};
use nv_entry::{BoundName, NameList};
use nv_fuse::{Errno, ListedKind, OpenFile};
use nv_mount_answers::Shape;
use nv_mount_beside::{HIDDEN, Outcome, Refusal, is_root, node, number};
use std::alloc::Global;
use std::marker::Model;

/// An open directory: its names as they stood when it was read from its beginning, if it was.
#[derive(Debug, Drop)]
pub enum Open {
    Closed,
    Unread,
    Read(Listing),
}

/// The directories that are open, by their numbers.
#[derive(Debug, Drop)]
pub struct Directories {
    rows: Vec<Open>,
}

impl Model for Directories {
    ghost use Rattle.std.specs.Prelude.{List};
    ghost use Rattle.nv_mounted.specs.declared.directories.Open.{Open as OpenValue};

    ghost Value = { List OpenValue };

    ghost view = { λ d. d.rows.items };
}

impl Directories {
    pub(crate) fn new(alloc: Global) -> Directories
        // At first no directory is open.
        ensures { result ≡ [] }
    {
        Directories {
            rows: Vec::new(alloc),
        }
    }

    /// Opens a directory under the lowest number that none has.
    pub(crate) fn open(&mut self) -> Result<u64, Refusal>
        // It is the lowest free number.
        ensures number { IsOrNoMemory result (Ok (lowest_free self.old)) }
        // A directory is open under it then, unless memory was refused.
        ensures ok { OnOk result (self.new ≡ with_one_more self.old) }
        ensures err { OnErr result (self.new ≡ self.old) }
    {
        let at = self.lowest_free();
        if at < self.rows.len() {
            self.rows[at] = Open::Unread;
        } else {
            self.rows.push(Open::Unread)?;
        }
        Ok(at as u64)
    }

    /// The lowest number under which no directory is open.
    fn lowest_free(&self) -> usize
        ensures { result ≡ lowest_free self.now }
    {
        for at in 0..self.rows.len() {
            if let Open::Closed = &self.rows[at] {
                return at;
            }
        }
        self.rows.len()
    }

    /// Closes the directory with a number.
    pub(crate) fn close(&mut self, at: u64)
        // No directory is open under it then.
        ensures { self.new ≡ with_open at Open.Closed self.old }
    {
        if at < self.rows.len() as u64 {
            self.rows[at as usize] = Open::Closed;
        }
    }

    /// Whether a directory with this number is open.
    pub(crate) fn is_open(&self, at: u64) -> bool
        // One is open under the number.
        ensures { result ≡ not (is_closed (open_under at self.now)) }
    {
        at < self.rows.len() as u64 && !matches!(&self.rows[at as usize], Open::Closed)
    }

    /// The names that were read of a directory.
    pub(crate) fn names(&self, at: u64) -> Option<&[Named]>
        // They are told where one is open under the number and was read.
        ensures some { IfSome result (λ names. open_under at self.now ≡ Open.Read names.now) }
        ensures none { IfNone result (is_read (open_under at self.now) ≡ false) }
    {
        if at < self.rows.len() as u64 {
            if let Open::Read(names) = &self.rows[at as usize] {
                return Some(names.as_slice());
            }
        }
        None
    }

    /// These names were read of a directory.
    pub(crate) fn set(&mut self, at: u64, names: Listing)
        // They stand under its number.
        ensures { self.new ≡ with_open at (Open.Read names) self.old }
    {
        if at < self.rows.len() as u64 {
            self.rows[at as usize] = Open::Read(names);
        }
    }
}

/// `.` and `..`.
fn dots(alloc: Global, node: u64) -> Result<Vec<Named>, Refusal>
    // The directory itself, and the root in place of the one above.
    ensures ok { IfOk result (λ names. names.items ≡ dots node) }
    ensures err { IfErr result (λ refusal. refusal ≡ no_memory) }
{
    let mut names = Vec::new(alloc);
    names.push(directory(alloc, b".".as_slice(), node)?)?;
    names.push(directory(alloc, b"..".as_slice(), 1)?)?;
    Ok(names)
}

/// A directory with a name.
fn directory(alloc: Global, name: &[u8], node: u64) -> Result<Named, Refusal>
    ensures { IsOrNoMemory result (Ok (directory node name.now)) }
{
    Ok(Named {
        node,
        kind: ListedKind::Directory,
        name: Bytes::from_vec(name.to_vec(alloc)?),
    })
}

/// How a kind is listed.
pub(crate) fn listed_kind(kind: Kind) -> ListedKind
    ensures { result ≡ listed_kind kind }
{
    match kind {
        Kind::Dir => ListedKind::Directory,
        Kind::File => ListedKind::File,
    }
}

/// The names from an offset on, as a request is answered.
pub(crate) fn contents(
    alloc: Global,
    names: &[Named],
    offset: u64,
    room: u32,
) -> Result<Outcome, Refusal>
    // As many are listed as there is room for.
    ensures { IsOrNoMemory result (Ok (Outcome.Contents (listed_from offset room names.now))) }
{
    Ok(Outcome::Contents(listed(alloc, names, offset, room)?))
}

/// The name of a binding.
fn copied_name(alloc: Global, bound: &BoundName) -> Result<Bytes, Refusal>
    ensures { IsOrNoMemory result (Ok bound.now.name) }
{
    Ok(Bytes::from_vec(bound.name.bytes().to_vec(alloc)?))
}

/// Whether a node is a file.
fn is_file(shape: Shape) -> bool
    ensures { result ≡ is_file shape }
{
    shape.kind == Kind::File
}

/// Whether a name is shown: the hidden directory of the root is not.
fn is_shown(dir: &Handle, bound: &BoundName) -> bool
    ensures { result ≡ is_shown dir.now bound.now }
{
    !(is_root(dir) && bound.name.bytes() == HIDDEN)
}

impl<C: Core> Mount<C> {
    /// Opens a directory.
    pub(crate) fn open_directory(&mut self, number: u64) -> Result<Outcome, Refusal>
        // A directory is open once more, under the lowest free number.
        ensures { Does C.Tells (open_directory self.old.side number) self.old.core self.old.side
            result self.new.core self.new.side }
    {
        let dir = node(number)?;
        let shape = ask_shape(&mut self.core, &dir)?;
        if is_file(shape) {
            return Err(Refusal::Errno(Errno::NotDirectory));
        }
        let file = self.side.directories.open()?;
        Ok(Outcome::Opened(OpenFile { file, flags: 0 }))
    }

    /// Lists names of an open directory from an offset on: those that it had when it was read from its beginning.
    pub(crate) fn read_directory(
        &mut self,
        number: u64,
        file: u64,
        offset: u64,
        room: u32,
    ) -> Result<Outcome, Refusal>
        // The names are those that were read last from the beginning.
        ensures { Does C.Tells (read_directory self.old.side number file offset room)
            self.old.core self.old.side result self.new.core self.new.side }
    {
        let dir = node(number)?;
        if !self.side.directories.is_open(file) {
            return Err(Refusal::Errno(Errno::Stale));
        }
        if offset == 0 {
            return self.list_anew(&dir, file, offset, room);
        }
        match self.side.directories.names(file) {
            Some(names) => contents(self.alloc, names, offset, room),
            None => self.list_anew(&dir, file, offset, room),
        }
    }

    /// Reads an open directory, keeps its names, and lists them from an offset on.
    fn list_anew(
        &mut self,
        dir: &Handle,
        file: u64,
        offset: u64,
        room: u32,
    ) -> Result<Outcome, Refusal>
        // The names are kept where they are listed.
        ensures { Does C.Tells (list_anew self.old.side (ask_listing dir.now) file offset room)
            self.old.core self.old.side result self.new.core self.new.side }
    {
        let names = self.names(dir)?;
        let contents = listed(self.alloc, names.as_slice(), offset, room)?;
        self.side.directories.set(file, names);
        Ok(Outcome::Contents(contents))
    }

    /// The names of a directory with their nodes and kinds, `.` and `..` first. The hidden directory is left out.
    fn names(&mut self, dir: &Handle) -> Result<Listing, Refusal>
        // The world tells the names, and each one's kind.
        ensures had { IsHad C.Tells (ask_listing dir.now) self.old.core result self.new.core }
        ensures side { self.new.side ≡ self.old.side }
    {
        let list = ask_names(&mut self.core, dir)?;
        let node = number(dir)?;
        let front = dots(self.alloc, node)?;
        self.names_behind(front, dir, &list)
    }

    /// These names, and behind them those of a list that are shown, with their nodes and kinds.
    fn names_behind(
        &mut self,
        front: Vec<Named>,
        dir: &Handle,
        list: &NameList,
    ) -> Result<Listing, Refusal>
        // Each name's node is asked for its kind, in order.
        ensures had { IsHad C.Tells (ask_behind front.items (filter (is_shown dir.now) list.now))
            self.old.core result self.new.core }
        ensures side { self.new.side ≡ self.old.side }
    {
        let mut names = front;
        for bound in list.as_slice() {
            if !is_shown(dir, bound) {
                continue;
            }
            let named = self.named(bound)?;
            names.push(named)?;
        }
        Ok(Listing::from_vec(names))
    }

    /// A name with its node and kind.
    fn named(&mut self, bound: &BoundName) -> Result<Named, Refusal>
        // Its node is asked for its kind.
        ensures had { IsHad C.Tells (ask_named bound.now) self.old.core result self.new.core }
        ensures side { self.new.side ≡ self.old.side }
    {
        let shape = ask_shape(&mut self.core, &bound.to)?;
        let node = number(&bound.to)?;
        let name = copied_name(self.alloc, bound)?;
        let kind = listed_kind(shape.kind);
        Ok(Named { node, kind, name })
    }
}
