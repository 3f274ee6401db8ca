//! The words of a line, and what a word spells: a number, a mode, a handle, escaped bytes.

ghost use Rattle.std.specs.Prelude.{◌≡◌, ◌+◌, ◌<◌, ◌≤◌, ◌++◌, ◌∷◌, ℕ, List, [], false, length, map, IfOk, IfSome, IsTrue, OnOk, MatchOption, decimal, take, true, vec_len, vec_capacity};
ghost use Rattle.std.specs.List.{All, list_all};
ghost use Rattle.std.specs.Fmt.{digit_glyph};
ghost use Rattle.nv_base.specs.declared.limits.TheConstants.{MODE};
ghost use Rattle.nv_script.specs.Words.{number_of, number_up_to, positive_up_to, words_of, handle_from, handle_of, is_plain, hex_value, before, unescaped, unescaped_behind, text_of, escaped_byte, escaped};
ghost use Rattle.nv_script.specs.Grammar.{texts, word_at};
ghost use Rattle.nv_script.specs.Printed.{ArePrinted};

use arrayvec::ArrayVec;
use itoa::write_digits;
use memchr::memchr;
use nv_base::{Bytes, Gen, Handle, Ino, Mode, limits};
use std::alloc::{AllocError, Global};

/// The most digits of a number. The greatest number has this many, and shorter ones may have zeros in front.
const MAX_DIGITS: usize = 20;

/// The most words of a line without a fault: room for them is made at once.
const MOST_WORDS: usize = 8;

/// What parts the inode number of a handle from its generation.
const POINT: u8 = b'.';

/// What begins the two digits of an escaped byte.
const ESCAPE: u8 = b'%';

/// How many bytes are asked together whether they are plain, and are printed together where one is not.
const PIECE: usize = 32;

/// The number that 1 to 20 decimal digits spell, if it is below 2 to the power of 64.
pub fn number(word: &[u8]) -> Option<u64>
    // A word is read as a number exactly where it spells one.
    ensures { result ≡ number_of word.now }
{
    if word.is_empty() || word.len() > MAX_DIGITS {
        return None;
    }
    let mut value: u64 = 0;
    for digit in word {
        if !digit.is_ascii_digit() {
            return None;
        }
        value = value
            .checked_mul(10)?
            .checked_add(u64::from(*digit - b'0'))?;
    }
    Some(value)
}

/// The number that a word spells, if it is at most `most`.
pub fn number_up_to(most: u64, word: &[u8]) -> Option<u64>
    // A word is read as a number within limits exactly where it spells one.
    ensures { result ≡ number_up_to most word.now }
{
    number(word).filter(|value| *value <= most)
}

/// The number from 1 to `most` that a word spells in decimal digits.
pub fn positive(most: u64, word: &[u8]) -> Option<u64>
    ensures { result ≡ positive_up_to most word.now }
{
    number(word).filter(|value| 1 <= *value && *value <= most)
}

/// The mode that a word spells in decimal digits.
pub fn mode(word: &[u8]) -> Option<Mode>
    // A word is read as a mode, or as a handle, exactly where it spells one.
    ensures { result ≡ number_up_to MODE word.now }
{
    let bits = number_up_to(u64::from(limits::MODE), word)?;
    Mode::checked(bits as u16)
}

/// The handle that a word spells: two numbers with a point between them.
pub fn handle(word: &[u8]) -> Option<Handle>
    ensures { result ≡ handle_of word.now }
{
    let (ino, generation) = around_point(word)?;
    Some(Handle {
        ino: Ino::new(number(ino)?),
        generation: Gen::new(number(generation)?),
    })
}

/// What stands before the first point of a word, and what stands after that point. A second point makes the
/// latter no number.
fn around_point(word: &[u8]) -> Option<(&[u8], &[u8])>
    ensures { MatchOption result
        (handle_of word.now ≡ None)
        (λ p. handle_of word.now ≡ handle_from (number_of p.0.now) (number_of p.1.now)) }
{
    let point = word.iter().position(|byte| *byte == POINT)?;
    Some((&word[..point], &word[point + 1..]))
}

/// The words of a line, between single spaces. Two spaces in a row have an empty word between them.
pub fn words(alloc: Global, line: &[u8]) -> Result<Vec<&[u8]>, AllocError>
    // A line is cut into its words.
    ensures { IfOk result (λ v. map (λ w. w.now) v.items ≡ words_of line.now) }
{
    let mut found = Vec::with_capacity(alloc, MOST_WORDS)?;
    let mut rest = line;
    while let Some(space) = memchr(b' ', rest) {
        found.push(&rest[..space])?;
        rest = &rest[space + 1..];
    }
    found.push(rest)?;
    Ok(found)
}

/// Cuts a line of few words into them, which takes no memory, and says whether it is one. Of more words it finds the first ones.
pub(crate) fn find_few<'a>(line: &'a [u8], found: &mut ArrayVec<&'a [u8], MOST_WORDS>) -> bool
    requires { found.old.items ≡ [] }
    ensures { IsTrue result → map (λ w. w.now) found.new.items ≡ words_of line.now }
{
    let mut rest = line;
    while let Some(space) = memchr(b' ', rest) {
        if found.is_full() {
            return false;
        }
        found.push(&rest[..space]);
        rest = &rest[space + 1..];
    }
    if found.is_full() {
        return false;
    }
    found.push(rest);
    true
}

/// The word at a place, which has no bytes where there is none.
pub fn word_at<'a>(words: &[&'a [u8]], place: usize) -> &'a [u8]
    ensures { result.now ≡ word_at (texts words.now) place }
{
    if place < words.len() {
        return words[place];
    }
    &[]
}

/// Whether a byte stands for itself in escaped text: a visible one, but the one that begins an escaped byte. It is
/// asked without a branch, so that many bytes are asked at once.
fn is_plain(byte: u8) -> bool
    ensures { result ≡ is_plain byte }
{
    (b'!' <= byte) & (byte <= b'~') & (byte != ESCAPE)
}

/// The value of a hexadecimal digit of either case.
fn hex_value(digit: u8) -> Option<u8>
    ensures { result ≡ hex_value digit }
{
    match digit {
        b'0'..=b'9' => Some(digit - b'0'),
        b'a'..=b'f' => Some(digit - b'a' + 10),
        b'A'..=b'F' => Some(digit - b'A' + 10),
        _ => None,
    }
}

/// The byte that stands at the front of escaped text, and the text after it.
fn taken(first: u8, after: &[u8]) -> Option<(u8, &[u8])>
    ensures stands { MatchOption result
        (unescaped (first ∷ after.now) ≡ None)
        (λ t. unescaped (first ∷ after.now) ≡ before (Some t.0) (unescaped t.1.now)) }
    ensures shorter { IfSome result (λ t. length t.1.now ≤ length after.now) }
{
    if first != ESCAPE {
        return is_plain(first).then_some((first, after));
    }
    let [high, low, rest @ ..] = after else {
        return None;
    };
    Some((16 * hex_value(*high)? + hex_value(*low)?, rest))
}

/// Whether each byte is plain. All are asked whatever the first ones are, so that many are asked at once.
fn all_plain(bytes: &[u8]) -> bool
    ensures { result ≡ list_all is_plain bytes.now }
{
    let mut plain = true;
    for byte in bytes {
        plain &= is_plain(*byte);
    }
    plain
}

/// How many bytes are plain in front.
fn plain_count(bytes: &[u8]) -> usize
    ensures within { result ≤ length bytes.now }
    ensures plain { list_all is_plain (take result bytes.now) ≡ true }
{
    if !bytes.first().is_some_and(|byte| is_plain(*byte)) {
        return 0;
    }
    let mut count = 0;
    while PIECE <= bytes.len() - count && all_plain(&bytes[count..count + PIECE]) {
        count += PIECE;
    }
    while count < bytes.len() && is_plain(bytes[count]) {
        count += 1;
    }
    count
}

/// Adds the plain bytes in front as they are, all together, and returns the bytes after them.
fn push_plain<'a>(out: &mut Vec<u8>, bytes: &'a [u8]) -> Result<&'a [u8], AllocError>
    ensures printed { IfOk result (λ rest.
        out.new.items ++ escaped rest.now ≡ out.old.items ++ escaped bytes.now) }
    ensures read { IfOk result (λ rest. unescaped_behind out.new.items rest.now
        ≡ unescaped_behind out.old.items bytes.now) }
    ensures shorter { IfOk result (λ rest. length rest.now ≤ length bytes.now) }
{
    let count = plain_count(bytes);
    if count == 0 {
        return Ok(bytes);
    }
    let (plain, rest) = bytes.split_at(count);
    out.extend_from_slice(plain)?;
    Ok(rest)
}

/// The bytes that a word of escaped text stands for. It has one or more. Plain ones are copied as they are.
pub fn text(alloc: Global, word: &[u8]) -> Result<Option<Bytes>, AllocError>
    // A word is read as text exactly where it spells one.
    ensures { IfOk result (λ t. t ≡ text_of word.now) }
{
    if word.is_empty() {
        return Ok(None);
    }
    if all_plain(word) {
        return Ok(Some(Bytes::from_vec(Vec::from_slice(alloc, word)?)));
    }
    let mut bytes = Vec::with_capacity(alloc, word.len())?;
    let mut rest = push_plain(&mut bytes, word)?;
    while let Some((first, after)) = rest.split_first() {
        let Some((byte, left)) = taken(*first, after) else {
            return Ok(None);
        };
        bytes.push(byte)?;
        rest = push_plain(&mut bytes, left)?;
    }
    Ok(Some(Bytes::from_vec(bytes)))
}

/// A lower-case hexadecimal digit.
pub fn hex_digit(value: u8) -> u8
    requires { value < 16 }
    ensures { result ≡ digit_glyph false value }
{
    if value < 10 {
        b'0' + value
    } else {
        b'a' - 10 + value
    }
}

/// Adds one byte as it is printed.
fn push_byte(out: &mut Vec<u8>, byte: u8)
    requires { vec_len out.old + 3 ≤ vec_capacity out.old }
    ensures items { out.new.items ≡ out.old.items ++ escaped_byte byte }
    ensures len { vec_len out.new ≤ vec_len out.old + 3 }
    ensures capacity { vec_capacity out.new ≡ vec_capacity out.old }
{
    if is_plain(byte) {
        out.push_reserved(byte);
        return;
    }
    out.push_reserved(ESCAPE);
    out.push_reserved(hex_digit(byte / 16));
    out.push_reserved(hex_digit(byte % 16));
}

/// Adds a piece byte by byte as it is printed, with room made once as if each took three bytes.
fn push_piece(out: &mut Vec<u8>, piece: &[u8]) -> Result<(), AllocError>
    requires { length piece.now ≤ PIECE }
    ensures { OnOk result (out.new.items ≡ out.old.items ++ escaped piece.now) }
{
    out.reserve(3 * piece.len())?;
    for byte in piece {
        push_byte(out, *byte);
    }
    Ok(())
}

/// Adds bytes as they are printed. Where all are plain they are copied together. Else those in front are, and those behind each piece
/// that begins with another.
pub fn push_escaped(out: &mut Vec<u8>, bytes: &[u8]) -> Result<(), AllocError>
    // Bytes are printed escaped, and numbers in decimal digits.
    ensures { OnOk result (out.new.items ≡ out.old.items ++ escaped bytes.now) }
{
    if all_plain(bytes) {
        return out.extend_from_slice(bytes);
    }
    let mut rest = push_plain(out, bytes)?;
    while !rest.is_empty() {
        let (piece, after) = rest.split_at(PIECE.min(rest.len()));
        push_piece(out, piece)?;
        rest = push_plain(out, after)?;
    }
    Ok(())
}

/// Adds a number in decimal digits.
#[inline(always)]
pub fn push_number(out: &mut Vec<u8>, number: u64) -> Result<(), AllocError>
    ensures { OnOk result (out.new.items ≡ out.old.items ++ decimal number) }
{
    let mut digits = [0; MAX_DIGITS];
    let start = write_digits(number, &mut digits, MAX_DIGITS);
    out.extend_from_slice(&digits[start..])
}

/// A law: printed text reads back as the bytes that were printed.
pub fn printed_text_reads_back()
    // What is printed as escaped text stands for the bytes that were printed.
    ensures { (bytes : List ℕ) → All (λ byte. byte < 256) bytes
        → unescaped (escaped bytes) ≡ Some bytes }
{}

/// A law: printed text has each visible byte as itself, and each other one as `%` and two digits of `0-9` and `a-f`.
pub fn escapes_have_two_lower_case_digits()
    // A visible byte is printed as itself, any other as `%` and two digits of `0-9` and `a-f`.
    ensures { (bytes : List ℕ) → All (λ byte. byte < 256) bytes → ArePrinted bytes (escaped bytes) }
{}
