//! Requests as they come, one by one or many at once.

ghost use Rattle.std.specs.Prelude.{◌≡◌, ◌==◌, ◌<◌, ◌≤◌, ◌+◌, ◌-◌, ℕ, List, [], drop, take, length, IfErr, IfOk, OnErr};
ghost use Rattle.std.specs.Io.KnownBytes.{Keeps};
ghost use Rattle.nv_fuse.specs.Stream.{IsFront};
ghost use Rattle.nv_mount_tool.specs.Stream.{Brings, IsRefusal, Reads, brought_by};

use nv_fuse::Front;
use std::alloc::{AllocError, Global};
use std::io;
use std::io::Read;
use std::marker::Model;

/// The most bytes of a request: a write of 1 MiB, its header, and room for the fields of its body.
const REQUEST: usize = 1_056_768;

/// What a read of requests brings.
#[derive(Clone, Copy, Debug, PartialEq, Eq, Drop)]
pub(crate) enum Brought {
    /// More bytes.
    Bytes,
    /// Nothing yet: the request was taken back, or a signal came.
    Nothing,
    /// The end of the input.
    End,
    /// The end of the mount.
    Unmounted,
}

/// Why requests can't be read on.
#[derive(Debug, Drop, thiserror::Error)]
pub(crate) enum StreamError {
    /// A read failed.
    #[error("a read of requests failed: {0}")]
    Read(io::Error),
    /// The buffer is full, and there is no whole request in it.
    #[error("a request has more than 1056768 bytes")]
    TooLong,
}

/// What a read that fails by an error of the system brings, or nothing where it is a fault.
fn brought_by(error: &io::Error) -> Option<Brought>
    // ENOENT, EINTR and EAGAIN bring nothing yet, and ENODEV is the end of the mount.
    ensures { result ≡ brought_by error.now }
{
    match error.raw_os_error()? {
        2 | 4 | 11 => Some(Brought::Nothing),
        19 => Some(Brought::Unmounted),
        _ => None,
    }
}

/// Moves the bytes `at..have` to the front.
fn move_to_front(bytes: &mut [u8], at: usize, have: usize)
    requires { (at ≤ have) × (have ≤ length bytes.old) }
    ensures moved { take (have - at) bytes.new ≡ take (have - at) (drop at bytes.old) }
    ensures length { length bytes.new ≡ length bytes.old }
{
    if at > 0 {
        bytes.copy_within(at..have, 0);
    }
}

/// Moves the bytes `at..have` to the front, and reads once behind them.
fn read_behind<S: Read>(
    reader: &mut S,
    bytes: &mut [u8],
    at: usize,
    have: usize,
) -> io::Result<usize>
    requires { (at ≤ have) × (have - at < length bytes.old) × (have ≤ length bytes.old) }
    // So many bytes are taken from the reader and stand behind them, and none only at its end.
    ensures read { IfOk result (λ count. Reads count (S.remaining reader.old) (S.remaining reader.new)
        (take (have - at) (drop at bytes.old)) (take (have - at + count) bytes.new)) }
    ensures room { IfOk result (λ count. have - at + count ≤ length bytes.old) }
    // A fault has taken none.
    ensures err { OnErr result (Keeps (S.remaining reader.old) (S.remaining reader.new)) }
    ensures same { OnErr result (take (have - at) bytes.new
        ≡ take (have - at) (drop at bytes.old)) }
    ensures length { length bytes.new ≡ length bytes.old }
{
    move_to_front(bytes, at, have);
    match reader.read(&mut bytes[have - at..]) {
        Ok(count) => Ok(count),
        Err(error) => Err(error),
    }
}

/// Requests that were read and wait: the bytes `at..have`.
#[derive(Drop)]
pub(crate) struct Stream {
    bytes: Vec<u8>,
    at: usize,
    have: usize,
}

impl Model for Stream {
    ghost Value = { List ℕ };

    ghost view = { λ s. take (s.have - s.at) (drop s.at s.bytes.items) };

    ghost invariant = { λ s. (s.at ≤ s.have) × (s.have ≤ length s.bytes.items)
        × (length s.bytes.items ≡ 1056768) };
}

impl Stream {
    /// Nothing waits at first.
    pub(crate) fn new(alloc: Global) -> Result<Stream, AllocError>
        ensures { IfOk result (λ stream. stream ≡ []) }
    {
        Ok(Stream {
            bytes: vec![in alloc; 0u8; REQUEST]?,
            at: 0,
            have: 0,
        })
    }

    /// What the waiting bytes begin with.
    pub(crate) fn front(&self) -> Front<'_>
        // They are cut where the length tells that they begin with.
        ensures { IsFront self.now result }
    {
        Front::of(&self.bytes[self.at..self.have])
    }

    /// Whether nothing waits.
    pub(crate) fn is_empty(&self) -> bool
        ensures { result ≡ (length self.now == 0) }
    {
        self.at == self.have
    }

    /// The first bytes wait no more.
    pub(crate) fn skip(&mut self, count: usize)
        requires { count ≤ length self.old }
        ensures { self.new ≡ drop count self.old }
    {
        self.at += count;
    }

    /// Reads once, behind what waits.
    pub(crate) fn read<S: Read>(&mut self, reader: &mut S) -> Result<Brought, StreamError>
        // What is taken from the reader waits behind what waited, and nothing is lost.
        ensures ok { IfOk result (λ brought. Brings brought (S.remaining reader.old)
            (S.remaining reader.new) self.old self.new) }
        // A fault is one that the system's table does not forgive, or that the buffer is full.
        ensures fault { IfErr result (λ error. IsRefusal error self.old) }
        // A fault has changed nothing.
        ensures same { OnErr result (self.new ≡ self.old) }
        ensures kept { OnErr result (Keeps (S.remaining reader.old) (S.remaining reader.new)) }
    {
        let waiting = self.have - self.at;
        if waiting == self.bytes.len() {
            return Err(StreamError::TooLong);
        }
        let read = read_behind(reader, self.bytes.as_mut_slice(), self.at, self.have);
        self.at = 0;
        self.have = waiting;
        match read {
            Ok(0) => Ok(Brought::End),
            Ok(count) => {
                self.have += count;
                Ok(Brought::Bytes)
            }
            Err(error) => match brought_by(&error) {
                Some(brought) => Ok(brought),
                None => Err(StreamError::Read(error)),
            },
        }
    }
}
