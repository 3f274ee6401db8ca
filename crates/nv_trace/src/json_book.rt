//! The book as JSON.

ghost use Rattle.std.specs.Prelude.{◌≡◌, ◌++◌, [], IfOk, OnOk, slice_index_or, unwrap_or};
ghost use Rattle.nv_epoch.specs.SnapList.{pins_of};
ghost use Rattle.nv_script.specs.Json.{array, book_head, book_lists, book_object, journal_object, open_journals, part_text, record_object, snap_head, snap_object, values_from};

use crate::json::{AsJson, push_array, push_comma};
use nv_base::{CommitNo, Epoch};
use nv_book::{Book, Manifest, Record, Records};
use nv_entry::Part;
use nv_journal::OldTail;
use nv_script::text::push_labelled;
use std::alloc::{AllocError, Global};

/// Adds a part of an entry.
fn push_part(out: &mut Vec<u8>, part: Part) -> Result<(), AllocError>
    ensures { OnOk result (out.new.items ≡ out.old.items ++ part_text part) }
{
    match part {
        Part::Kind => out.extend_from_slice(b"\"kind\""),
        Part::Mode => out.extend_from_slice(b"\"mode\""),
        Part::Size => out.extend_from_slice(b"\"size\""),
        Part::Bound => out.extend_from_slice(b"\"name\""),
        Part::Page(page) => {
            push_labelled(out, b"\"page ", u64::from(page))?;
            Ok(out.push(b'"')?)
        }
    }
}

impl AsJson for Record {
    ghost use Rattle.nv_script.specs.Json.{record_object};

    ghost json = { record_object };

    fn push_json(&self, out: &mut Vec<u8>) -> Result<(), AllocError> {
        push_labelled(out, b"{\"ino\":", self.ino.number())?;
        push_labelled(out, b",\"commit\":", self.entry.commit.number())?;
        push_labelled(out, b",\"place\":", u64::from(self.entry.place))?;
        out.extend_from_slice(b",\"part\":")?;
        push_part(out, self.part)?;
        push_labelled(out, b",\"birth\":", self.birth.number())?;
        push_labelled(out, b",\"death\":", self.death.number())?;
        Ok(out.push(b'}')?)
    }
}

impl AsJson for OldTail {
    ghost use Rattle.nv_script.specs.Json.{tail_pair};

    ghost json = { tail_pair };

    fn push_json(&self, out: &mut Vec<u8>) -> Result<(), AllocError> {
        push_labelled(out, b"[", self.ino.number())?;
        push_labelled(out, b",", self.tail)?;
        Ok(out.push(b']')?)
    }
}

/// Adds an array of records.
fn push_records(out: &mut Vec<u8>, alloc: Global, records: &Records) -> Result<(), AllocError>
    ensures { OnOk result (out.new.items ≡ out.old.items ++ array record_object records.now) }
{
    let all: Vec<Record> = records.iter().collect(alloc)?;
    push_array(out, all.as_slice())
}

/// What the journal of a CPU has noted.
fn tails_of(book: &Book, cpu: u64) -> &[OldTail]
    ensures { result.now ≡ slice_index_or book.now.state.journals cpu [] }
{
    match book.journals().get(cpu as usize) {
        Some(journal) => journal.pending(),
        None => &[],
    }
}

/// The CPUs whose journals are open.
fn open_journals(alloc: Global, book: &Book) -> Result<Vec<u64>, AllocError>
    ensures { IfOk result (λ cpus. cpus.items ≡ open_journals book.now.state) }
{
    let mut open = Vec::new(alloc);
    for cpu in 0..book.cpus() {
        if !tails_of(book, cpu).is_empty() {
            open.push(cpu)?;
        }
    }
    Ok(open)
}

/// Adds the journal of a CPU.
fn push_journal(out: &mut Vec<u8>, book: &Book, cpu: u64) -> Result<(), AllocError>
    ensures { OnOk result (out.new.items ≡ out.old.items ++ journal_object book.now.state cpu) }
{
    push_labelled(out, b"{\"cpu\":", cpu)?;
    out.extend_from_slice(b",\"tails\":")?;
    push_array(out, tails_of(book, cpu))?;
    Ok(out.push(b'}')?)
}

/// Adds the journals of these CPUs.
fn push_journals(out: &mut Vec<u8>, book: &Book, cpus: &[u64]) -> Result<(), AllocError>
    ensures { OnOk result (out.new.items ≡ out.old.items
        ++ values_from (λ place cpu. journal_object book.now.state cpu) 0 cpus.now) }
{
    for (place, cpu) in cpus.iter().enumerate() {
        push_comma(out, place)?;
        push_journal(out, book, *cpu)?;
    }
    Ok(())
}

/// How many calls read a snapshot now.
fn pins_of(book: &Book, snapshot: Epoch) -> u64
    ensures { result ≡ unwrap_or (pins_of book.now.state.snaps snapshot) 0 }
{
    match book.snaps().pins(snapshot) {
        Some(pins) => u64::from(pins),
        None => 0,
    }
}

/// Adds what stands before the records of a living snapshot.
fn push_snap_head(out: &mut Vec<u8>, snapshot: Epoch, pins: u64) -> Result<(), AllocError>
    ensures { OnOk result (out.new.items ≡ out.old.items ++ snap_head snapshot pins) }
{
    push_labelled(out, b"{\"snapshot\":", snapshot.number())?;
    push_labelled(out, b",\"pins\":", pins)?;
    out.extend_from_slice(b",\"records\":")
}

/// Adds a living snapshot with its records.
fn push_snap(
    out: &mut Vec<u8>,
    alloc: Global,
    book: &Book,
    manifest: &Manifest,
) -> Result<(), AllocError>
    ensures { OnOk result (out.new.items
        ≡ out.old.items ++ snap_object book.now.state manifest.now) }
{
    let pins = pins_of(book, manifest.snapshot);
    push_snap_head(out, manifest.snapshot, pins)?;
    push_records(out, alloc, &manifest.records)?;
    Ok(out.push(b'}')?)
}

/// Adds living snapshots.
fn push_snaps(
    out: &mut Vec<u8>,
    alloc: Global,
    book: &Book,
    manifests: &[Manifest],
) -> Result<(), AllocError>
    ensures { OnOk result (out.new.items
        ≡ out.old.items ++ values_from (λ place m. snap_object book.now.state m) 0 manifests.now) }
{
    for (place, manifest) in manifests.iter().enumerate() {
        push_comma(out, place)?;
        push_snap(out, alloc, book, manifest)?;
    }
    Ok(())
}

/// Adds an array of the open journals.
fn push_open(out: &mut Vec<u8>, alloc: Global, book: &Book) -> Result<(), AllocError>
    ensures { let b = book.now.state in OnOk result (out.new.items
        ≡ out.old.items ++ array (journal_object b) (open_journals b)) }
{
    let open = open_journals(alloc, book)?;
    out.push(b'[')?;
    push_journals(out, book, open.as_slice())?;
    Ok(out.push(b']')?)
}

/// Adds an array of the living snapshots.
fn push_living(out: &mut Vec<u8>, alloc: Global, book: &Book) -> Result<(), AllocError>
    ensures { let b = book.now.state in OnOk result (out.new.items
        ≡ out.old.items ++ array (snap_object b) b.manifests) }
{
    out.push(b'[')?;
    push_snaps(out, alloc, book, book.manifests())?;
    Ok(out.push(b']')?)
}

/// Adds the epoch and the last commit.
fn push_book_head(out: &mut Vec<u8>, epoch: Epoch, commit: CommitNo) -> Result<(), AllocError>
    ensures { OnOk result (out.new.items ≡ out.old.items ++ book_head epoch commit) }
{
    push_labelled(out, b"{\"epoch\":", epoch.number())?;
    push_labelled(out, b",\"commit\":", commit.number())?;
    out.extend_from_slice(b",\"journals\":")
}

/// Adds the open journals, and the living snapshots.
fn push_book_lists(out: &mut Vec<u8>, alloc: Global, book: &Book) -> Result<(), AllocError>
    ensures { OnOk result (out.new.items ≡ out.old.items ++ book_lists book.now.state) }
{
    push_open(out, alloc, book)?;
    out.extend_from_slice(b",\"snaps\":")?;
    push_living(out, alloc, book)
}

/// Adds the book.
pub(crate) fn push_book(out: &mut Vec<u8>, alloc: Global, book: &Book) -> Result<(), AllocError>
    ensures { OnOk result (out.new.items ≡ out.old.items ++ book_object book.now.state) }
{
    push_book_head(out, book.epoch(), book.commit())?;
    push_book_lists(out, alloc, book)?;
    out.extend_from_slice(b",\"deferred\":")?;
    push_records(out, alloc, book.deferred())?;
    Ok(out.push(b'}')?)
}
