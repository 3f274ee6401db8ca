//! What is wrong with a line by its bytes alone, whatever its words are.

/// What is wrong with the bytes of a line.
#[derive(Clone, Copy, Debug, PartialEq, Eq, Drop)]
pub(crate) enum Flaw {
    /// It begins with a byte order mark.
    Mark,
    /// It ends in a carriage return.
    Return,
    /// It begins with a space or a tab.
    Indented,
    /// It ends in a space or a tab.
    Blank,
    /// A tab stands in it.
    Tab,
    /// This byte stands in it, which is neither visible nor a space.
    Foreign(u8),
}

/// The byte order marks: of UTF-8, and of UTF-16 in both orders.
const MARKS: [&[u8]; 3] = [b"\xef\xbb\xbf", b"\xff\xfe", b"\xfe\xff"];

/// The first thing that is wrong with the bytes of a line.
pub(crate) fn flaw_of(line: &[u8]) -> Option<Flaw> {
    if MARKS.iter().any(|mark| line.starts_with(mark)) {
        return Some(Flaw::Mark);
    }
    if line.last().is_some_and(|byte| *byte == b'\r') {
        return Some(Flaw::Return);
    }
    if line.first().is_some_and(|byte| is_blank(*byte)) {
        return Some(Flaw::Indented);
    }
    if line.last().is_some_and(|byte| is_blank(*byte)) {
        return Some(Flaw::Blank);
    }
    line.iter()
        .find(|byte| is_foreign(**byte))
        .map(|byte| foreign(*byte))
}

fn is_blank(byte: u8) -> bool {
    byte == b' ' || byte == b'\t'
}

/// Whether a byte is neither visible nor a space.
fn is_foreign(byte: u8) -> bool {
    byte < b' ' || byte > b'~'
}

fn foreign(byte: u8) -> Flaw {
    if byte == b'\t' {
        Flaw::Tab
    } else {
        Flaw::Foreign(byte)
    }
}
