//! Whether a line has a fault, before it is given to a player.

ghost use Rattle.nv_script.specs.Sound.{LooksAt};

use crate::command::{is_skipped, read_command, read_format};
use crate::fault::LineFault;
use crate::word::words;
use std::alloc::Global;

/// Looks for the fault of a line, where a world is made or where none is: the one that a player of the line answers.
pub fn look_at(alloc: Global, is_made: bool, line: &[u8]) -> Result<(), LineFault>
    // The fault that is found is the one by which a player of the line ends.
    // A line is found sound only where it has no fault.
    ensures { LooksAt result is_made line.now }
{
    if is_skipped(line) {
        return Ok(());
    }
    let words = words(alloc, line)?;
    if !is_made {
        read_format(words.as_slice())?;
        return Ok(());
    }
    read_command(alloc, words.as_slice())?;
    Ok(())
}
