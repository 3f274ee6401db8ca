//! Records read.

ghost use Rattle.std.specs.Prelude.{◌≡◌, ◌≤◌, ◌++◌, List, ℕ, IfOk, Ok, length};
ghost use Rattle.nv_base.specs.declared.limits.TheConstants.{MODE};
ghost use Rattle.nv_records.specs.declared.record.Record.{Record as Kept};
ghost use Rattle.nv_records.specs.Reading.{Answers, Gives, call_at, create_at, fields_at, handle_of, list_at, lookup_at, mode_at, number_at, pair_at, read_at, record_at, rename_at, rmdir_at, set_mode_at, size_at, snapshot_or_cleaner_at, stat_at, string_at, tagged_at, unlink_at, write_at};
ghost use Rattle.nv_records.specs.Records.{Fits, bytes_of};

use crate::Record;
use crate::fault::{Fault, FieldError, Lack, ReadError, Wanted};
use nv_base::{Bytes, Epoch, Gen, Handle, Ino, Mode, limits};
use nv_calls::{Call, SnapshotOrCleanerCall};
use std::alloc::Global;

/// Each of these functions reads what bytes begin with, and answers it with the bytes behind it.
#[tactic(auto, unfolding(crate::specs::Reading::number_at))]
fn number_of(bytes: &[u8]) -> Result<(u64, &[u8]), FieldError>
    ensures { Gives (λ x. (x.0, x.1.now)) result (number_at bytes.now) }
{
    if bytes.len() < 8 {
        return Err(FieldError::Lack(Lack {
            wanted: Wanted::Number,
            left: bytes.len(),
        }));
    }
    let (front, rest) = bytes.split_at(8);
    let number = u64::from_le_bytes([
        front[0], front[1], front[2], front[3], front[4], front[5], front[6], front[7],
    ]);
    Ok((number, rest))
}

/// A string, which takes the memory of its bytes once these are there.
#[tactic(auto, unfolding(crate::specs::Reading::string_at))]
fn string_of(alloc: Global, bytes: &[u8]) -> Result<(Vec<u8>, &[u8]), FieldError>
    ensures { Gives (λ x. (x.0.items, x.1.now)) result (string_at bytes.now) }
{
    let (len, rest) = number_of(bytes)?;
    let len = len as usize;
    if rest.len() < len {
        return Err(FieldError::Lack(Lack {
            wanted: Wanted::Text,
            left: rest.len(),
        }));
    }
    let (text, rest) = rest.split_at(len);
    Ok((Vec::from_slice(alloc, text)?, rest))
}

#[tactic(auto, unfolding(crate::specs::Reading::mode_at))]
fn bits_of(bytes: &[u8]) -> Result<(u16, &[u8]), FieldError>
    ensures read { Gives (λ x. (x.0, x.1.now)) result (mode_at bytes.now) }
    ensures limit { IfOk result (λ x. x.0 ≤ MODE) }
{
    let (bits, rest) = number_of(bytes)?;
    if bits > u64::from(limits::MODE) {
        return Err(FieldError::Lack(Lack {
            wanted: Wanted::Mode,
            left: bytes.len(),
        }));
    }
    Ok((bits as u16, rest))
}

fn mode_from(bits: u16) -> Mode
    requires { bits ≤ MODE }
    ensures { result ≡ bits }
{
    match Mode::checked(bits) {
        Some(mode) => mode,
        None => unreachable!(),
    }
}

/// The two numbers of a handle.
#[tactic(auto, unfolding(crate::specs::Reading::pair_at))]
fn numbers_of(bytes: &[u8]) -> Result<((u64, u64), &[u8]), FieldError>
    ensures { Gives (λ x. (x.0, x.1.now)) result (pair_at number_at number_at bytes.now) }
{
    let (ino, rest) = number_of(bytes)?;
    let (generation, rest) = number_of(rest)?;
    Ok(((ino, generation), rest))
}

fn handle_from(numbers: (u64, u64)) -> Handle
    ensures { result ≡ handle_of numbers }
{
    Handle {
        ino: Ino::new(numbers.0),
        generation: Gen::new(numbers.1),
    }
}

#[tactic(auto, unfolding(crate::specs::Reading::pair_at, crate::specs::Reading::create_at))]
fn create_of(alloc: Global, is_dir: bool, bytes: &[u8]) -> Result<(Call, &[u8]), FieldError>
    ensures { Gives (λ x. (x.0, x.1.now)) result (create_at is_dir bytes.now) }
{
    let (numbers, rest) = numbers_of(bytes)?;
    let dir = handle_from(numbers);
    let (name, rest) = string_of(alloc, rest)?;
    let name = Bytes::from_vec(name);
    let (bits, rest) = bits_of(rest)?;
    let mode = mode_from(bits);
    if is_dir {
        Ok((Call::Mkdir { dir, name, mode }, rest))
    } else {
        Ok((Call::Create { dir, name, mode }, rest))
    }
}

#[tactic(auto, unfolding(crate::specs::Reading::pair_at, crate::specs::Reading::write_at))]
fn write_of(alloc: Global, bytes: &[u8]) -> Result<(Call, &[u8]), FieldError>
    ensures { Gives (λ x. (x.0, x.1.now)) result (write_at bytes.now) }
{
    let (numbers, rest) = numbers_of(bytes)?;
    let file = handle_from(numbers);
    let (offset, rest) = number_of(rest)?;
    let (text, rest) = string_of(alloc, rest)?;
    let text = Bytes::from_vec(text);
    Ok((Call::Write { file, offset, text }, rest))
}

#[tactic(auto, unfolding(crate::specs::Reading::pair_at, crate::specs::Reading::read_at))]
fn read_of(bytes: &[u8]) -> Result<(Call, &[u8]), FieldError>
    ensures { Gives (λ x. (x.0, x.1.now)) result (read_at bytes.now) }
{
    let (numbers, rest) = numbers_of(bytes)?;
    let file = handle_from(numbers);
    let (offset, rest) = number_of(rest)?;
    let (count, rest) = number_of(rest)?;
    Ok((
        Call::Read {
            file,
            offset,
            count,
        },
        rest,
    ))
}

#[tactic(auto, unfolding(crate::specs::Reading::pair_at, crate::specs::Reading::size_at))]
fn size_of(bytes: &[u8]) -> Result<(Call, &[u8]), FieldError>
    ensures { Gives (λ x. (x.0, x.1.now)) result (size_at bytes.now) }
{
    let (numbers, rest) = numbers_of(bytes)?;
    let file = handle_from(numbers);
    let (size, rest) = number_of(rest)?;
    Ok((Call::Size { file, size }, rest))
}

#[tactic(auto, unfolding(crate::specs::Reading::pair_at, crate::specs::Reading::set_mode_at))]
fn set_mode_of(bytes: &[u8]) -> Result<(Call, &[u8]), FieldError>
    ensures { Gives (λ x. (x.0, x.1.now)) result (set_mode_at bytes.now) }
{
    let (numbers, rest) = numbers_of(bytes)?;
    let handle = handle_from(numbers);
    let (bits, rest) = bits_of(rest)?;
    let mode = mode_from(bits);
    Ok((Call::Mode { handle, mode }, rest))
}

#[tactic(auto, unfolding(crate::specs::Reading::pair_at, crate::specs::Reading::stat_at))]
fn stat_of(bytes: &[u8]) -> Result<(Call, &[u8]), FieldError>
    ensures { Gives (λ x. (x.0, x.1.now)) result (stat_at bytes.now) }
{
    let (numbers, rest) = numbers_of(bytes)?;
    let handle = handle_from(numbers);
    Ok((Call::Stat { handle }, rest))
}

#[tactic(auto, unfolding(crate::specs::Reading::pair_at, crate::specs::Reading::list_at))]
fn list_of(bytes: &[u8]) -> Result<(Call, &[u8]), FieldError>
    ensures { Gives (λ x. (x.0, x.1.now)) result (list_at bytes.now) }
{
    let (numbers, rest) = numbers_of(bytes)?;
    let dir = handle_from(numbers);
    Ok((Call::List { dir }, rest))
}

#[tactic(auto, unfolding(crate::specs::Reading::pair_at, crate::specs::Reading::lookup_at))]
fn lookup_of(alloc: Global, bytes: &[u8]) -> Result<(Call, &[u8]), FieldError>
    ensures { Gives (λ x. (x.0, x.1.now)) result (lookup_at bytes.now) }
{
    let (numbers, rest) = numbers_of(bytes)?;
    let dir = handle_from(numbers);
    let (name, rest) = string_of(alloc, rest)?;
    let name = Bytes::from_vec(name);
    Ok((Call::Lookup { dir, name }, rest))
}

#[tactic(auto, unfolding(crate::specs::Reading::pair_at, crate::specs::Reading::unlink_at))]
fn unlink_of(alloc: Global, bytes: &[u8]) -> Result<(Call, &[u8]), FieldError>
    ensures { Gives (λ x. (x.0, x.1.now)) result (unlink_at bytes.now) }
{
    let (numbers, rest) = numbers_of(bytes)?;
    let dir = handle_from(numbers);
    let (name, rest) = string_of(alloc, rest)?;
    let name = Bytes::from_vec(name);
    Ok((Call::Unlink { dir, name }, rest))
}

#[tactic(auto, unfolding(crate::specs::Reading::pair_at, crate::specs::Reading::rmdir_at))]
fn rmdir_of(alloc: Global, bytes: &[u8]) -> Result<(Call, &[u8]), FieldError>
    ensures { Gives (λ x. (x.0, x.1.now)) result (rmdir_at bytes.now) }
{
    let (numbers, rest) = numbers_of(bytes)?;
    let dir = handle_from(numbers);
    let (name, rest) = string_of(alloc, rest)?;
    let name = Bytes::from_vec(name);
    Ok((Call::Rmdir { dir, name }, rest))
}

#[tactic(auto, unfolding(crate::specs::Reading::pair_at, crate::specs::Reading::rename_at))]
fn rename_of(alloc: Global, bytes: &[u8]) -> Result<(Call, &[u8]), FieldError>
    ensures { Gives (λ x. (x.0, x.1.now)) result (rename_at bytes.now) }
{
    let (numbers, rest) = numbers_of(bytes)?;
    let from = handle_from(numbers);
    let (old, rest) = string_of(alloc, rest)?;
    let old = Bytes::from_vec(old);
    let (numbers, rest) = numbers_of(rest)?;
    let to = handle_from(numbers);
    let (new, rest) = string_of(alloc, rest)?;
    let new = Bytes::from_vec(new);
    Ok((Call::Rename { from, old, to, new }, rest))
}

#[tactic(auto, unfolding(crate::specs::Reading::snapshot_or_cleaner_at, crate::specs::Reading::numbered_at))]
fn snapshot_or_cleaner_of(tag: u8, bytes: &[u8]) -> Result<(Call, &[u8]), FieldError>
    ensures { Gives (λ x. (x.0, x.1.now)) result (snapshot_or_cleaner_at tag bytes.now) }
{
    match tag {
        13 => Ok((Call::SnapshotOrCleaner(SnapshotOrCleanerCall::Snap), bytes)),
        14 => {
            let (n, rest) = number_of(bytes)?;
            let what = SnapshotOrCleanerCall::Drop(Epoch::new(n));
            Ok((Call::SnapshotOrCleaner(what), rest))
        }
        15 => {
            let (n, rest) = number_of(bytes)?;
            let what = SnapshotOrCleanerCall::Show(Epoch::new(n));
            Ok((Call::SnapshotOrCleaner(what), rest))
        }
        16 => {
            let (n, rest) = number_of(bytes)?;
            let what = SnapshotOrCleanerCall::Drain(n);
            Ok((Call::SnapshotOrCleaner(what), rest))
        }
        17 => {
            let (n, rest) = number_of(bytes)?;
            let what = SnapshotOrCleanerCall::Fast(Ino::new(n));
            Ok((Call::SnapshotOrCleaner(what), rest))
        }
        18 => {
            let (n, rest) = number_of(bytes)?;
            let what = SnapshotOrCleanerCall::Thorough(Ino::new(n));
            Ok((Call::SnapshotOrCleaner(what), rest))
        }
        19 => {
            let (n, rest) = number_of(bytes)?;
            let what = SnapshotOrCleanerCall::Auto(Ino::new(n));
            Ok((Call::SnapshotOrCleaner(what), rest))
        }
        _ => Err(FieldError::Lack(Lack {
            wanted: Wanted::Tag,
            left: bytes.len() + 1,
        })),
    }
}

#[tactic(auto, unfolding(crate::specs::Reading::call_at))]
fn call_of(alloc: Global, tag: u8, bytes: &[u8]) -> Result<(Call, &[u8]), FieldError>
    ensures { Gives (λ x. (x.0, x.1.now)) result (call_at tag bytes.now) }
{
    match tag {
        1 => create_of(alloc, false, bytes),
        2 => create_of(alloc, true, bytes),
        3 => write_of(alloc, bytes),
        4 => read_of(bytes),
        5 => size_of(bytes),
        6 => set_mode_of(bytes),
        7 => stat_of(bytes),
        8 => list_of(bytes),
        9 => lookup_of(alloc, bytes),
        10 => unlink_of(alloc, bytes),
        11 => rmdir_of(alloc, bytes),
        12 => rename_of(alloc, bytes),
        _ => snapshot_or_cleaner_of(tag, bytes),
    }
}

#[tactic(auto, unfolding(crate::specs::Reading::fields_at))]
fn fields_of(alloc: Global, tag: u8, bytes: &[u8]) -> Result<(Record, &[u8]), FieldError>
    ensures { Gives (λ x. (x.0, x.1.now)) result (fields_at tag bytes.now) }
{
    match tag {
        20 => Ok((Record::Stopped, bytes)),
        21 => {
            let (text, rest) = string_of(alloc, bytes)?;
            Ok((Record::Note(Bytes::from_vec(text)), rest))
        }
        _ => {
            let (call, rest) = call_of(alloc, tag, bytes)?;
            Ok((Record::Call(call), rest))
        }
    }
}

#[tactic(auto, unfolding(crate::specs::Reading::tagged_at))]
fn tagged_of(alloc: Global, bytes: &[u8]) -> Result<(Record, &[u8]), FieldError>
    ensures { Gives (λ x. (x.0, x.1.now)) result (tagged_at bytes.now) }
{
    match bytes {
        [] => Err(FieldError::Lack(Lack {
            wanted: Wanted::Tag,
            left: 0,
        })),
        [tag, rest @ ..] => fields_of(alloc, *tag, rest),
    }
}

/// What `tagged_of` answers, where a fault tells its place from the first byte on.
fn placed_of(alloc: Global, bytes: &[u8]) -> Result<(Record, &[u8]), ReadError>
    ensures { Answers (λ x. (x.0, x.1.now)) result (record_at bytes.now) }
{
    match tagged_of(alloc, bytes) {
        Ok((kept, rest)) => Ok((kept, rest)),
        Err(FieldError::Memory) => Err(ReadError::Memory),
        Err(FieldError::Lack(lack)) => Err(ReadError::Fault(Fault {
            wanted: lack.wanted,
            place: bytes.len().saturating_sub(lack.left),
        })),
    }
}

/// The record that bytes begin with, and the bytes behind it, or what they lack and where. It takes the memory of
/// the strings that are there, whatever a length claims.
pub fn read_record(alloc: Global, bytes: &[u8]) -> Result<(Record, &[u8]), ReadError>
    // The bytes of what is read are those that were read.
    ensures found { IfOk result (λ x. Fits x.0 × (bytes.now ≡ bytes_of x.0 ++ x.1.now)) }
    // Bytes that begin with those of a record read as it, unless memory is refused.
    ensures only { (kept : Kept) (rest : List ℕ) → Fits kept → bytes.now ≡ bytes_of kept ++ rest
        → Answers {Y = Kept × List ℕ} (λ x. (x.0, x.1.now)) result (Ok (kept, rest)) }
    // A fault tells what is wanted, and where.
    ensures exact { Answers (λ x. (x.0, x.1.now)) result (record_at bytes.now) }
{
    placed_of(alloc, bytes)
}
