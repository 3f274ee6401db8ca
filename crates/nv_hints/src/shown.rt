//! Bytes as a line of standard error shows them.

ghost use Rattle.std.specs.Prelude.{◌≡◌, ◌++◌, ◌<◌, List, ℕ, OnOk, false, string_bytes};
ghost use Rattle.std.specs.Fmt.{digit_glyph};
ghost use Rattle.std.specs.List.{All};
ghost use Rattle.nv_hints.specs.Shown.{IsVisible, is_shown, quoted, shown, shown_byte};

use std::alloc::AllocError;

/// What begins the two digits of a byte that is not shown as itself.
const ESCAPE: u8 = b'\\';

/// Whether a byte is shown as itself: a visible one or a space, except the one that begins an escaped byte.
fn is_shown(byte: u8) -> bool
    ensures { result ≡ is_shown byte }
{
    b' ' <= byte && byte <= b'~' && byte != ESCAPE
}

/// Adds bytes as they are shown: each visible one and the space as itself, and any other as `\x` and two digits.
pub(crate) fn push_shown(out: &mut String, bytes: &[u8]) -> Result<(), AllocError>
    ensures { OnOk result (string_bytes out.new ≡ string_bytes out.old ++ shown bytes.now) }
{
    for byte in bytes {
        push_byte(out, *byte)?;
    }
    Ok(())
}

/// Adds one byte as it is shown.
fn push_byte(out: &mut String, byte: u8) -> Result<(), AllocError>
    ensures { OnOk result (string_bytes out.new ≡ string_bytes out.old ++ shown_byte byte) }
{
    if is_shown(byte) {
        return out.push(char::from(byte));
    }
    out.push_str("\\x")?;
    out.push(char::from(hex_digit(byte / 16)))?;
    out.push(char::from(hex_digit(byte % 16)))
}

/// A lower-case hexadecimal digit.
fn hex_digit(value: u8) -> u8
    requires { value < 16 }
    ensures { result ≡ digit_glyph false value }
{
    if value < 10 {
        b'0' + value
    } else {
        b'a' - 10 + value
    }
}

/// Adds bytes in quotes, cut at `most` bytes. Dots stand for what is cut.
pub(crate) fn push_quoted(out: &mut String, bytes: &[u8], most: usize) -> Result<(), AllocError>
    // Bytes are shown in quotes, with dots for the rest.
    ensures { OnOk result (string_bytes out.new ≡ string_bytes out.old ++ quoted most bytes.now) }
{
    out.push('\'')?;
    push_shown(out, &bytes[..most.min(bytes.len())])?;
    if most < bytes.len() {
        out.push_str("...")?;
    }
    out.push('\'')
}

/// A law: what is shown of any bytes is visible, so that a terminal only shows it.
pub fn shown_bytes_are_visible()
    // A law: what is shown is visible.
    ensures { (bytes : List ℕ) → All (λ byte. byte < 256) bytes → All IsVisible (shown bytes) }
{}
