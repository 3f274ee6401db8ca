//! The line that tells where a fault is, and what is wrong there.

use crate::hint::{By, push_hint};
use crate::recent::Recent;
use crate::shown::push_quoted;
use nv_base::{Fault, ScriptFaultKind};
use std::alloc::{AllocError, Global};

/// The most bytes of a line that are shown.
const MOST_OF_LINE: usize = 120;

/// The line that tells of a fault behind its own text: the script's name, the line's number and its text, and what is wrong with
/// it. There is none for a fault that is of no line, or where the line was not kept.
/// Only tested: what is told of a fault.
pub fn hint_line(
    alloc: Global,
    script: &str,
    by: By,
    fault: &Fault,
    recent: &Recent,
) -> Result<Option<String>, AllocError> {
    match fault {
        Fault::ScriptFault(kind, number) => line_fault(alloc, script, by, *kind, *number, recent),
        Fault::ActorBusy => Ok(Some(format!(in alloc;
            "{script}: an actor's call is not at its end where 'fork' stands: 'run ACTOR' before that line ends it\n"
        )?)),
        _ => Ok(None),
    }
}

/// The line that tells of the fault of a line.
fn line_fault(
    alloc: Global,
    script: &str,
    by: By,
    kind: ScriptFaultKind,
    number: u64,
    recent: &Recent,
) -> Result<Option<String>, AllocError> {
    let mut out = format!(in alloc; "{script}:{number}: ")?;
    let line = match recent.line(number) {
        Some(line) => {
            push_quoted(&mut out, line, MOST_OF_LINE)?;
            out.push_str(": ")?;
            line
        }
        // A script without lines has no line of its fault.
        None if number == 0 => &[],
        None => return Ok(None),
    };
    push_hint(alloc, &mut out, by, kind, line, recent.is_all_read())?;
    out.push('\n')?;
    Ok(Some(out))
}
