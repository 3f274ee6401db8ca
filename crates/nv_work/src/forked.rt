//! The line `fork`, and those behind it.

ghost use Rattle.std.specs.Prelude.{◌≡◌, ◌%◌, ◌<◌, ◌≤◌, [], IfOk, OnErr, OnOk, vec_len};
ghost use Rattle.nv_work.specs.Threads.{calls_on, forked_of, shares_of, with_call, with_calls};
ghost use Rattle.nv_work.specs.Working.{ReadsCall, ReadsFork, ReadsForkedLine};
ghost use Rattle.nv_script.specs.Words.{words_of};

use nv_base::ScriptFaultKind;
use nv_core::Call;
use nv_script::command::{Command, is_skipped, read_command};
use nv_script::fault::LineFault;
use nv_script::word::{word_at, words};
use std::alloc::{AllocError, Global};

/// A call behind `fork`, and the actor that makes it.
#[derive(Drop)]
pub(crate) struct ForkedCall {
    pub(crate) actor: u64,
    pub(crate) call: Call,
}

/// The calls behind `fork`, by thread, in their order: an actor's calls are those of the thread whose number is the
/// actor's modulo the number of threads.
#[derive(Drop)]
pub(crate) struct ForkedLines {
    pub(crate) threads: Vec<Vec<ForkedCall>>,
    // There is at least one thread.
    ghost some: { 1 ≤ vec_len threads },
}

impl ForkedLines {
    ghost use Rattle.nv_work.specs.Taken.{lists_of};

    /// No calls for so many threads.
    pub(crate) fn new(alloc: Global, threads: u64) -> Result<ForkedLines, AllocError>
        requires { 1 ≤ threads }
        ensures lists { IfOk result (λ lines. lists_of lines ≡ shares_of threads []) }
        ensures count { IfOk result (λ lines. vec_len lines.threads ≡ threads) }
    {
        let mut lists = Vec::with_capacity(alloc, threads as usize)?;
        for _thread in 0..threads {
            lists.push(Vec::new(alloc))?;
        }
        Ok(ForkedLines { threads: lists })
    }

    /// Adds the call of a line to those of its thread, if it has one.
    pub(crate) fn read(&mut self, alloc: Global, line: &[u8]) -> Result<(), LineFault>
        ensures line { ReadsForkedLine result line.now }
        // The call of a line stands at the end of its thread's.
        ensures lists { OnOk result
            (lists_of self.new ≡ with_calls (lists_of self.old) (calls_on line.now)) }
        ensures same { OnErr result (lists_of self.new ≡ lists_of self.old) }
        ensures count { vec_len self.new.threads ≡ vec_len self.old.threads }
    {
        if is_skipped(line) {
            return Ok(());
        }
        let call = read_forked(alloc, line)?;
        self.add(call)?;
        Ok(())
    }

    /// Adds a call at the end of those of its thread.
    fn add(&mut self, call: ForkedCall) -> Result<(), AllocError>
        // A call stands at the end of those of its thread.
        ensures lists { OnOk result (lists_of self.new ≡ with_call (lists_of self.old) call) }
        ensures same { OnErr result (lists_of self.new ≡ lists_of self.old) }
        ensures count { vec_len self.new.threads ≡ vec_len self.old.threads }
    {
        let thread = thread_of(call.actor, self.threads.len() as u64);
        Ok(self.threads[thread as usize].push(call)?)
    }

    /// The calls of each thread.
    pub(crate) fn into_vec(self) -> Vec<Vec<ForkedCall>>
        ensures { result ≡ self.threads }
    {
        self.threads
    }
}

/// The thread of an actor's calls, of so many threads.
fn thread_of(actor: u64, threads: u64) -> u64
    requires { 0 < threads }
    // An actor's calls are those of the thread that is its number modulo the threads.
    ensures { result ≡ actor % threads }
{
    actor % threads
}

/// Whether a line is `fork`: of kind `Order` where no world is made, and of kind `Count` where it has more words.
pub(crate) fn is_fork(alloc: Global, line: &[u8], made: bool) -> Result<bool, LineFault>
    // A line is `fork` without other words, where a world is made.
    ensures { ReadsFork result made line.now }
{
    if is_skipped(line) {
        return Ok(false);
    }
    let words = words(alloc, line)?;
    if word_at(words.as_slice(), 0) != b"fork".as_slice() {
        return Ok(false);
    }
    if !made {
        return Err(LineFault::Faulty(ScriptFaultKind::Order));
    }
    if words.len() > 1 {
        return Err(LineFault::Faulty(ScriptFaultKind::Count));
    }
    Ok(true)
}

/// The call of a line behind `fork`. `Word` where it is no `do`.
fn read_forked(alloc: Global, line: &[u8]) -> Result<ForkedCall, LineFault>
    // A line behind `fork` is a `do`, whose call is read.
    ensures { ReadsCall result (forked_of (words_of line.now)) }
{
    let words = words(alloc, line)?;
    if word_at(words.as_slice(), 0) != b"do".as_slice() {
        return Err(LineFault::Faulty(ScriptFaultKind::Word));
    }
    match read_command(alloc, words.as_slice())? {
        Command::Do(actor, call) => Ok(ForkedCall { actor, call }),
        _ => Err(LineFault::Faulty(ScriptFaultKind::Word)),
    }
}
