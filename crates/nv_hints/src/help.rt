//! How commands and calls are written, and what each does, for those who ask at a terminal.

use crate::form::{LineForm, named, names_call, push_form};
use crate::hint::awaited;
use crate::table::{Form, Part, calls, commands};
use std::alloc::{AllocError, Global};

/// A line for each command, and for each call.
pub fn help_text(alloc: Global) -> Result<String, AllocError> {
    let mut out = String::from_str(alloc, "Commands:\n")?;
    for form in commands() {
        push_row(alloc, &mut out, form)?;
    }
    out.push_str("Calls, which stand behind 'do ACTOR' or 'start ACTOR':\n")?;
    for form in calls() {
        push_row(alloc, &mut out, form)?;
    }
    Ok(out)
}

/// How the command or the call of this name is written, what it does and what its words are. There is none of another name.
pub fn help_of(alloc: Global, name: &[u8]) -> Result<Option<String>, AllocError> {
    let Some(form) = line_form(name) else {
        return Ok(None);
    };
    let mut out = String::new(alloc);
    form.push(&mut out)?;
    if form.call.is_none() && names_call(form.command.name) {
        out.push_str(" CALL")?;
    }
    let last = form.call.unwrap_or(form.command);
    let about = last.about;
    write!(out, "\n  {about}\n")?;
    push_parts(&mut out, form.command.parts)?;
    if let Some(call) = form.call {
        push_parts(&mut out, call.parts)?;
    }
    Ok(Some(out))
}

/// The form of a line with a command of this name, or with a call of it behind `do`.
fn line_form(name: &[u8]) -> Option<LineForm> {
    if let Some(command) = named(commands(), name) {
        return Some(LineForm {
            command,
            call: None,
        });
    }
    let call = named(calls(), name)?;
    let command = named(commands(), b"do")?;
    Some(LineForm {
        command,
        call: Some(call),
    })
}

/// Adds the line of a form.
fn push_row(alloc: Global, out: &mut String, form: &Form) -> Result<(), AllocError> {
    let mut words = String::new(alloc);
    push_form(&mut words, form)?;
    if names_call(form.name) {
        words.push_str(" CALL")?;
    }
    let about = form.about;
    write!(out, "  {words:<24}  {about}\n")
}

/// Adds what each word is, except where that is a setting.
fn push_parts(out: &mut String, parts: &[Part]) -> Result<(), AllocError> {
    for part in parts {
        if let Some(awaited) = awaited(part.kind) {
            let name = part.name;
            write!(out, "  {name}: {awaited}\n")?;
        }
    }
    Ok(())
}
