//! The name that was meant by a word.

ghost use Rattle.std.specs.Prelude.{◌≡◌, ◌/◌, ◌^◌, ◌<◌, ◌≤◌, ◌↔◌, IfOk, IsTrue, length, map};
ghost use Rattle.std.specs.Char.{to_ascii_lowercase};
ghost use Rattle.std.specs.Option.{option_copied};
ghost use Rattle.nv_hints.specs.Nearest.{IsNearest};

use std::alloc::{AllocError, Global};
use strsim::generic_levenshtein;

/// The first of the names that take the fewest edits from a word: insertions, deletions and replacements of a byte, where
/// upper and lower case are the same. A name is none that takes more edits than half of its bytes.
pub(crate) fn nearest(
    alloc: Global,
    word: &[u8],
    names: &[&'static [u8]],
) -> Result<Option<&'static [u8]>, AllocError>
    // A near name that takes the fewest edits, or none if none is near.
    ensures { IfOk result (λ found.
        IsNearest word.now (map (λ name. name.now) names.now) (option_copied found)) }
{
    let lowered = lowered(alloc, word)?;
    let from = lowered.as_slice();
    let mut found: Option<&'static [u8]> = None;
    let mut fewest = usize::MAX;
    for name in names {
        let edits = generic_levenshtein(alloc, from, name)?;
        if is_nearer(edits, fewest, name) {
            found = Some(*name);
            fewest = edits;
        }
    }
    Ok(found)
}

/// A word in lower case.
fn lowered(alloc: Global, word: &[u8]) -> Result<Vec<u8>, AllocError>
    ensures { IfOk result (λ v. v.items ≡ map to_ascii_lowercase word.now) }
{
    word.iter()
        .map(|byte| byte.to_ascii_lowercase())
        .collect(alloc)
}

/// Whether a name that takes so many edits is near, and nearer than one that takes `fewest`.
fn is_nearer(edits: usize, fewest: usize, name: &[u8]) -> bool
    ensures nearer { IsTrue result ↔ ((edits < fewest) × (edits ≤ length name.now / 2)) }
    ensures length { length name.now < 2 ^ 64 }
{
    edits < fewest && edits <= name.len() / 2
}
