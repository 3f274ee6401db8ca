//! JSON: strings, arrays, and the lines of a trace that are no events.

ghost use Rattle.std.specs.Prelude.{◌≡◌, ◌++◌, OnOk};
ghost use Rattle.std.specs.List.{flat_map};
ghost use Rattle.nv_script.specs.Json.{answer_line, answer_lines, array, comma_at, or_null, quoted, quoted_byte, text_line, values_from};
ghost use Rattle.nv_script.specs.Words.{escaped};

use memchr::memchr;
use nv_script::text::push_labelled;
use nv_script::word::{hex_digit, push_escaped, push_number};
use std::alloc::{AllocError, Global};

/// What has a JSON value.
pub(crate) trait AsJson {
    ghost use Rattle.std.specs.Prelude.{◌≡◌, ◌++◌, ℕ, List, OnOk};

    ghost json: { Self → List ℕ };

    /// Adds the value.
    fn push_json(&self, out: &mut Vec<u8>) -> Result<(), AllocError>
        ensures { OnOk result (out.new.items ≡ out.old.items ++ json self.now) };
}

/// Adds a byte as it stands in a string.
fn push_quoted_byte(out: &mut Vec<u8>, byte: u8) -> Result<(), AllocError>
    ensures { OnOk result (out.new.items ≡ out.old.items ++ quoted_byte byte) }
{
    if byte == b'"' || byte == b'\\' {
        out.push(b'\\')?;
        return Ok(out.push(byte)?);
    }
    if byte >= b' ' && byte <= b'~' {
        return Ok(out.push(byte)?);
    }
    out.extend_from_slice(b"\\u00")?;
    out.push(hex_digit(byte / 16))?;
    Ok(out.push(hex_digit(byte % 16))?)
}

/// Adds bytes as they stand in a string.
fn push_quoted_bytes(out: &mut Vec<u8>, bytes: &[u8]) -> Result<(), AllocError>
    ensures { OnOk result (out.new.items ≡ out.old.items ++ flat_map quoted_byte bytes.now) }
{
    for byte in bytes {
        push_quoted_byte(out, *byte)?;
    }
    Ok(())
}

/// Adds a string.
pub(crate) fn push_quoted(out: &mut Vec<u8>, bytes: &[u8]) -> Result<(), AllocError>
    ensures { OnOk result (out.new.items ≡ out.old.items ++ quoted bytes.now) }
{
    out.push(b'"')?;
    push_quoted_bytes(out, bytes)?;
    Ok(out.push(b'"')?)
}

/// Adds a name as scripts spell it.
pub(crate) fn push_name(out: &mut Vec<u8>, alloc: Global, name: &[u8]) -> Result<(), AllocError>
    ensures { OnOk result (out.new.items ≡ out.old.items ++ quoted (escaped name.now)) }
{
    let mut text = Vec::new(alloc);
    push_escaped(&mut text, name)?;
    push_quoted(out, text.as_slice())
}

/// Adds what stands before the value at a place of an array.
pub(crate) fn push_comma(out: &mut Vec<u8>, place: usize) -> Result<(), AllocError>
    ensures { OnOk result (out.new.items ≡ out.old.items ++ comma_at place) }
{
    if place == 0 {
        return Ok(());
    }
    Ok(out.push(b',')?)
}

/// Adds the values of an array.
fn push_values<T: AsJson>(out: &mut Vec<u8>, all: &[T]) -> Result<(), AllocError>
    ensures { OnOk result (out.new.items
        ≡ out.old.items ++ values_from (λ place one. T.json one) 0 all.now) }
{
    for (place, one) in all.iter().enumerate() {
        push_comma(out, place)?;
        one.push_json(out)?;
    }
    Ok(())
}

/// Adds an array.
pub(crate) fn push_array<T: AsJson>(out: &mut Vec<u8>, all: &[T]) -> Result<(), AllocError>
    ensures { OnOk result (out.new.items ≡ out.old.items ++ array T.json all.now) }
{
    out.push(b'[')?;
    push_values(out, all)?;
    Ok(out.push(b']')?)
}

/// Adds a number, or null.
pub(crate) fn push_or_null(out: &mut Vec<u8>, number: Option<u64>) -> Result<(), AllocError>
    ensures { OnOk result (out.new.items ≡ out.old.items ++ or_null number) }
{
    match number {
        Some(number) => push_number(out, number),
        None => out.extend_from_slice(b"null"),
    }
}

// ---- lines

/// Adds the line of a script.
pub(crate) fn push_text_line(out: &mut Vec<u8>, number: u64, line: &[u8]) -> Result<(), AllocError>
    ensures { OnOk result (out.new.items ≡ out.old.items ++ text_line number line.now) }
{
    push_labelled(out, b"{\"line\":", number)?;
    out.extend_from_slice(b",\"text\":")?;
    push_quoted(out, line)?;
    out.extend_from_slice(b"}\n")
}

/// Adds a line of an answer, if there is something in it.
fn push_answer_line(out: &mut Vec<u8>, number: u64, line: &[u8]) -> Result<(), AllocError>
    ensures { OnOk result (out.new.items ≡ out.old.items ++ answer_line number line.now) }
{
    if line.is_empty() {
        return Ok(());
    }
    push_labelled(out, b"{\"line\":", number)?;
    out.extend_from_slice(b",\"answer\":")?;
    push_quoted(out, line)?;
    out.extend_from_slice(b"}\n")
}

/// Adds each line of an answer.
pub(crate) fn push_answer_lines(
    out: &mut Vec<u8>,
    number: u64,
    text: &[u8],
) -> Result<(), AllocError>
    ensures { OnOk result (out.new.items ≡ out.old.items ++ answer_lines number text.now) }
{
    let mut rest = text;
    while let Some(end) = memchr(b'\n', rest) {
        push_answer_line(out, number, &rest[..end])?;
        rest = &rest[end + 1..];
    }
    push_answer_line(out, number, rest)
}
