//! The fault `journal`: what open journals have noted and no log may have.

ghost use Rattle.std.specs.Prelude.{◌≡◌, ◌<◌, All, IfOk, length, true};
ghost use Rattle.std.specs.List.{list_all};
ghost use Rattle.nv_base.specs.Refusals.{FailsOnly};
ghost use Rattle.nv_base.specs.Memory.{out_of_memory};
ghost use Rattle.nv_journal.specs.declared.old_tail.OldTail.{OldTail as OldTailValue};
ghost use Rattle.nv_audit.specs.Image.{all_notes};
ghost use Rattle.nv_audit.specs.Mounted.{are_apart, are_journals_good, is_note_good};

use crate::Image;
use crate::blocks::is_unmarked;
use nv_base::Fault;
use nv_journal::{Journal, OldTail};
use std::alloc::{AllocError, Global};

/// Whether each noted inode has a page and its tail is not past its own, and no inode is noted twice. Costs a look at each
/// note, and memory for each and for a mark of each slot.
pub(crate) fn are_journals_good(alloc: Global, image: &Image) -> Result<bool, Fault>
    ensures ok { IfOk result (λ good. good ≡ are_journals_good image.now) }
    ensures err { FailsOnly out_of_memory result }
{
    let notes = all_notes(alloc, &image.journals)?;
    if !are_notes_good(image, &notes) {
        return Ok(false);
    }
    let apart = are_apart(alloc, image.slots.len(), &notes)?;
    Ok(apart)
}

/// What all journals have noted.
pub fn all_notes(alloc: Global, journals: &[Journal]) -> Result<Vec<OldTail>, AllocError>
    ensures { IfOk result (λ notes. notes.items ≡ all_notes journals.now) }
{
    let mut notes = Vec::new(alloc);
    for journal in journals {
        notes.extend_from_slice(journal.pending())?;
    }
    Ok(notes)
}

/// Whether each inode has a page, and its tail is not past its own.
fn are_notes_good(image: &Image, notes: &[OldTail]) -> bool
    ensures { result ≡ list_all (is_note_good image.now) notes.now }
{
    notes.iter().all(|note| is_note_good(image, *note))
}

fn is_note_good(image: &Image, note: OldTail) -> bool
    ensures { result ≡ is_note_good image.now note }
{
    match image.slots.get(note.ino.number() as usize) {
        Some(slot) => {
            let chain = &slot.chain;
            !chain.pages.is_empty() && note.tail <= chain.tail as u64
        }
        None => false,
    }
}

/// Whether no two are of one inode.
fn are_apart(alloc: Global, slots: usize, notes: &[OldTail]) -> Result<bool, AllocError>
    requires { All (λ (note : OldTailValue). note.ino < slots) notes.now }
    ensures { IfOk result (λ apart. apart ≡ are_apart notes.now) }
{
    let mut noted = vec![in alloc; false; slots]?;
    for note in notes {
        let slot = note.ino.number() as usize;
        if !is_unmarked(&noted, slot) {
            return Ok(false);
        }
        noted[slot] = true;
    }
    Ok(true)
}
