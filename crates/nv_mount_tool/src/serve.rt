//! Requests that are answered one after another.

ghost use Rattle.std.specs.Prelude.{◌≡◌, if◌then◌else◌, ◌<◌, ◌≤◌, ◌^◌, ◌++◌, ℕ, List, true, false, [], length, take, IfErr, IfOk, IfSome, OnErr, OnOk};
ghost use Rattle.std.specs.Io.KnownBytes.{Appends, Consumes, IsAtEnd};
ghost use Rattle.nv_fuse.specs.Fields.{field};
ghost use Rattle.nv_fuse.specs.Replies.{reply_length};
ghost use Rattle.nv_fuse.specs.Requests.{IsRequest};
ghost use Rattle.nv_fuse.specs.Stream.{IsFront};
ghost use Rattle.nv_mount_answers.specs.declared.kept.Time.{Time as TimeValue};
ghost use Rattle.nv_mount_beside.specs.declared.outcome.Outcome.{Outcome as OutcomeValue};
ghost use Rattle.nv_mount_tool.specs.Answered.{Answers, OneMount};
ghost use Rattle.nv_mount_tool.specs.Serve.{IsTimeOf, Replies, Serves, ServesNext, StopsAt, WaitsOn, counted};

use crate::stream::{Brought, Stream, StreamError};
use crate::world::OneActor;
use nv_fuse::{Errno, Front, Reply, Request};
use nv_mount_answers::Time;
use nv_mount_beside::Outcome;
use nv_mounted::Mount;
use std::alloc::{AllocError, Global};
use std::io::{Read, Write};
use std::time::Clock;

/// The most bytes of a reply behind its fields. A kernel asks for 1 MiB at most.
const CONTENTS: usize = 16_777_216;

/// Room for each reply without contents.
const ROOM: usize = 256;

/// Why no more requests are answered.
#[derive(Debug, Drop, thiserror::Error)]
pub(crate) enum ServeError {
    /// Requests can't be read.
    #[error(transparent)]
    Stream(StreamError),
    /// Where such a request ends nobody knows.
    #[error("a request tells a length of less than 40 bytes")]
    TooShort,
    #[error("the input ends within a request")]
    Cut,
    #[error("there is no memory for a reply")]
    NoRoom,
    #[error("there are more reads of requests than can be counted")]
    Endless,
}

impl From<StreamError> for ServeError {
    ghost use Rattle.nv_mount_tool.specs.declared.serve.ServeError.TheVariants as errors;

    ghost from_gives = { λ error told. told ≡ errors.Stream error };

    fn from(error: StreamError) -> ServeError {
        ServeError::Stream(error)
    }
}

impl From<AllocError> for ServeError {
    ghost use Rattle.nv_mount_tool.specs.declared.serve.ServeError.TheVariants as errors;

    ghost from_gives = { λ _ told. told ≡ errors.NoRoom };

    fn from(_error: AllocError) -> ServeError {
        ServeError::NoRoom
    }
}

/// The time of requests: a fixed one, or else the clock's.
pub(crate) fn time_of<R: Clock>(rt: &R, fixed: Option<u64>) -> Time
    // A fixed time is told in whole seconds.
    ensures { IsTimeOf fixed result }
{
    let (seconds, nanoseconds) = match (fixed, rt.since_1970()) {
        (Some(seconds), _) => (seconds, 0),
        (None, Ok(now)) => (now.as_secs(), now.subsec_nanos()),
        (None, Err(_)) => (0, 0),
    };
    Time {
        seconds,
        nanoseconds,
    }
}

/// Puts the reply to an outcome in place of the last one. A silent outcome has none.
fn put_reply(unique: u64, outcome: &Outcome, out: &mut Vec<u8>) -> Result<(), AllocError>
    // It tells the outcome, or that there is no memory to tell it.
    ensures { OnOk result (Replies unique outcome.now out.new.items) }
{
    out.clear();
    let Some(reply) = outcome.reply() else {
        return Ok(());
    };
    if is_short(&reply) && reply.append_to(unique, out).is_ok() {
        return Ok(());
    }
    let error = Errno::OutOfMemory;
    Reply::Refused { error }.append_to(unique, out)
}

/// Whether a reply is one that a kernel asks for.
fn is_short(reply: &Reply<'_>) -> bool
    // Then its length has a place of four bytes.
    ensures { result ≡ true → reply_length reply.now < 2 ^ 32 }
{
    match reply {
        Reply::Contents { bytes } => bytes.len() <= CONTENTS,
        _ => true,
    }
}

/// Answers a request, and puts its reply in place of the last one.
fn answer(
    mount: &mut Mount<OneActor>,
    now: Time,
    request: &[u8],
    reply: &mut Vec<u8>,
) -> Result<(), AllocError>
    requires { IsRequest request.now }
    // The mount answers what the bytes are read as, and the reply to this request tells that outcome.
    ensures { OnOk result ((outcome : OutcomeValue)
        × Answers mount.old now request.now outcome mount.new
        × Replies (field 8 8 request.now) outcome reply.new.items) }
{
    let Some(request) = Request::read(request) else {
        unreachable!();
    };
    let outcome = mount.answer(now, &request);
    put_reply(request.header.unique, &outcome, reply)
}

/// Writes a reply at once, where there is one, and tells how many of its bytes were taken. A kernel takes a reply whole, or
/// refuses it where the request was taken back.
fn send<W: Write>(writer: &mut W, reply: &[u8]) -> usize
    ensures most { result ≤ length reply.now }
    // So many bytes are written.
    ensures written { Appends (W.contents writer.old) (W.contents writer.new)
        (take result reply.now) }
{
    if reply.is_empty() {
        return 0;
    }
    match writer.write(reply) {
        Ok(taken) => taken,
        Err(_) => 0,
    }
}

/// A count after one more, or after none.
fn counted(count: u64, more: bool) -> u64
    ensures { result ≡ (if more then counted count 1 else count) }
{
    if more {
        return count.saturating_add(1);
    }
    count
}

/// A mount that is served.
#[derive(Drop)]
pub(crate) struct Serving {
    mount: Mount<OneActor>,
    // Requests that wait.
    stream: Stream,
    // The last reply.
    reply: Vec<u8>,
    // How many requests were answered.
    answered: u64,
    // How many replies were not taken whole.
    dropped: u64,
}

impl Serving {
    /// A mount of which nothing is asked yet.
    pub(crate) fn new(alloc: Global, mount: Mount<OneActor>) -> Result<Serving, AllocError>
        ensures { IfOk result (λ serving. (serving.mount ≡ mount) × (serving.stream ≡ [])
            × (serving.answered ≡ 0) × (serving.dropped ≡ 0)) }
    {
        Ok(Serving {
            mount,
            stream: Stream::new(alloc)?,
            reply: Vec::with_capacity(alloc, ROOM)?,
            answered: 0,
            dropped: 0,
        })
    }

    pub(crate) fn mount(&self) -> &Mount<OneActor>
        ensures { result.now ≡ self.now.mount }
    {
        &self.mount
    }

    /// How many requests were answered.
    pub(crate) fn answered(&self) -> u64
        ensures { result ≡ self.now.answered }
    {
        self.answered
    }

    /// How many replies were not taken whole.
    pub(crate) fn dropped(&self) -> u64
        ensures { result ≡ self.now.dropped }
    {
        self.dropped
    }

    /// Answers requests up to the end of the input, or until they are unmounted. Tells whether they were unmounted.
    pub(crate) fn serve<R: Clock, S: Read, W: Write>(
        &mut self,
        rt: &R,
        fixed: Option<u64>,
        reader: &mut S,
        writer: &mut W,
    ) -> Result<bool, ServeError>
        // Whatever pieces it comes in, what is read is cut where the lengths of requests tell. Each is served in turn,
        // by the mount that the one before it left.
        ensures served { (came : List ℕ) × (last : OneMount)
            × Consumes (S.remaining reader.old) (S.remaining reader.new) came
            × OnOk result (self.new.mount ≡ last)
            × Serves (IsTimeOf fixed) came self.old self.new last
            (W.contents writer.old) (W.contents writer.new) }
        // No request waits in the end. Before the end of the input only an unmount ends it.
        ensures end { IfOk result (λ unmounted. (self.new.stream ≡ [])
            × (unmounted ≡ false → IsAtEnd (S.remaining reader.new))) }
        // A fault tells what waits.
        ensures fault { IfErr result (λ error. StopsAt error self.new.stream) }
    {
        for _ in 0..u64::MAX {
            self.answer_all(time_of(rt, fixed), writer)?;
            match self.stream.read(reader)? {
                Brought::Bytes => {}
                Brought::Nothing => {}
                Brought::End => return self.end(false),
                Brought::Unmounted => return self.end(true),
            }
        }
        Err(ServeError::Endless)
    }

    /// Ends where no request waits.
    fn end(&self, unmounted: bool) -> Result<bool, ServeError>
        ensures ok { IfOk result (λ told. (told ≡ unmounted) × (self.now.stream ≡ [])) }
        ensures err { IfErr result (λ error. (error ≡ ServeError.Cut)
            × (0 < length self.now.stream)) }
    {
        if self.stream.is_empty() {
            return Ok(unmounted);
        }
        Err(ServeError::Cut)
    }

    /// Answers all requests that wait whole.
    fn answer_all<W: Write>(&mut self, now: Time, writer: &mut W) -> Result<(), ServeError>
        // Each is served in turn, by the mount that the one before it left.
        ensures served { (last : OneMount) × OnOk result (self.new.mount ≡ last)
            × Serves (λ (time : TimeValue). time ≡ now) [] self.old self.new last
            (W.contents writer.old) (W.contents writer.new) }
        // No whole request is left.
        ensures ok { OnOk result (IsFront self.new.stream Front.Part) }
        // A fault tells what waits.
        ensures fault { IfErr result (λ error. StopsAt error self.new.stream) }
    {
        while self.answer_next(now, writer)? {}
        Ok(())
    }

    /// Answers the next request, where it waits whole. Tells whether it did.
    fn answer_next<W: Write>(&mut self, now: Time, writer: &mut W) -> Result<bool, ServeError>
        // The mount answers it, and then cleans. It is served by one write, and by none where its outcome is silent.
        // Where none is whole nothing changes.
        ensures ok { IfOk result (λ whole. ServesNext whole now self.old self.new
            (W.contents writer.old) (W.contents writer.new)) }
        // After a fault all waits as before, and nothing is written. Where there is no memory for a reply, the mount
        // has answered its request.
        ensures err { OnErr result (WaitsOn self.old self.new (W.contents writer.old)
            (W.contents writer.new)) }
        ensures fault { IfErr result (λ error. StopsAt error self.new.stream) }
    {
        let length = match self.stream.front() {
            Front::Whole { request, .. } => {
                answer(&mut self.mount, now, request, &mut self.reply)?;
                request.len()
            }
            Front::Part => return Ok(false),
            Front::Broken => return Err(ServeError::TooShort),
        };
        let taken = send(writer, self.reply.as_slice());
        self.answered = counted(self.answered, true);
        self.dropped = counted(self.dropped, taken < self.reply.len());
        self.stream.skip(length);
        self.mount.clean();
        Ok(true)
    }
}
