//! The form of a line by its words, and how it is written.

use crate::table::{Form, SETTINGS, calls, commands};
use nv_script::word::word_at;
use std::alloc::{AllocError, Global};

/// The form of this name.
pub(crate) fn named(forms: &'static [Form], name: &[u8]) -> Option<Form> {
    for form in forms {
        if form.name == name {
            return Some(*form);
        }
    }
    None
}

/// The names of forms.
pub(crate) fn names(
    alloc: Global,
    forms: &'static [Form],
) -> Result<Vec<&'static [u8]>, AllocError> {
    let mut names = Vec::with_capacity(alloc, forms.len())?;
    for form in forms {
        names.push(form.name)?;
    }
    Ok(names)
}

/// The form of a line: its command, and the call that it names.
#[derive(Clone, Copy, Drop)]
pub(crate) struct LineForm {
    pub(crate) command: Form,
    pub(crate) call: Option<Form>,
}

/// Whether a command of this name names a call.
pub(crate) fn names_call(command: &[u8]) -> bool {
    command == b"do".as_slice() || command == b"start".as_slice()
}

impl LineForm {
    /// The form of a line by its words, if these name one.
    pub(crate) fn of(words: &[&[u8]]) -> Option<LineForm> {
        let command = named(commands(), word_at(words, 0))?;
        if !names_call(command.name) {
            return Some(LineForm {
                command,
                call: None,
            });
        }
        let call = named(calls(), word_at(words, 2))?;
        Some(LineForm {
            command,
            call: Some(call),
        })
    }

    /// How many words the line has at most.
    pub(crate) fn word_count(&self) -> usize {
        let own = self.command.parts.len().saturating_add(1);
        match self.call {
            None => own,
            Some(call) => own.saturating_add(call.parts.len()).saturating_add(1),
        }
    }

    /// Adds the form as it is written.
    pub(crate) fn push(&self, out: &mut String) -> Result<(), AllocError> {
        push_form(out, &self.command)?;
        if let Some(call) = self.call {
            out.push(' ')?;
            push_form(out, &call)?;
        }
        Ok(())
    }
}

/// Adds the name of a form and those of its words. Brackets stand round those that may be left out.
pub(crate) fn push_form(out: &mut String, form: &Form) -> Result<(), AllocError> {
    push_name(out, form.name)?;
    let needed = form.parts.len().saturating_sub(form.optional);
    for (at, part) in form.parts.iter().enumerate() {
        let name = part.name;
        if at < needed {
            write!(out, " {name}")?;
        } else {
            write!(out, " [{name}]")?;
        }
    }
    Ok(())
}

/// Adds the name of a command or a call.
pub(crate) fn push_name(out: &mut String, name: &[u8]) -> Result<(), AllocError> {
    for byte in name {
        out.push(char::from(*byte))?;
    }
    Ok(())
}

/// Adds the form of a `format`.
pub(crate) fn push_format(out: &mut String) -> Result<(), AllocError> {
    out.push_str("format")?;
    for part in SETTINGS {
        out.push(' ')?;
        out.push_str(part.name)?;
    }
    Ok(())
}
