//! Threads with calls of their own, beside cleaners.

ghost use Rattle.std.specs.Prelude.{◌≡◌, ◌+◌, ◌≤◌, ◌++◌, Ok, IfOk, OnOk, map, vec_len};
ghost use Rattle.std.specs.List.{AllZip, enumerate_from};
ghost use Rattle.nv_service.specs.Sessions.{with_held};
ghost use Rattle.nv_work.specs.Threads.{IsAnswered, IsThreadText, answer_line};

use crate::forked::ForkedCall;
use crate::gate::Gate;
use nv_base::{Fault, Ino, NoMemory};
use nv_core::{Answer, CallFault};
use nv_script::text::push_told;
use nv_script::word::push_number;
use nv_service::{Blocks, Commits, Seen, Service, Session};
use std::alloc::{AllocError, Global};
use std::sync::Wait;
use std::sync::atomic::{AtomicBool, Ordering};
use std::thread;
use std::thread::Threads;

/// A thread: its number, its session and its calls.
#[derive(Drop)]
pub(crate) struct Job<C: Commits, B: Blocks> {
    pub(crate) thread: u64,
    pub(crate) session: Session<C, B>,
    pub(crate) calls: Vec<ForkedCall>,
}

/// What a thread leaves: its session, and the text of its answers. An answer without room for its text ends it.
#[derive(Drop)]
pub(crate) struct PlayedJob<C: Commits, B: Blocks> {
    pub(crate) session: Session<C, B>,
    pub(crate) text: Result<Vec<u8>, NoMemory>,
}

/// All threads, and the sessions of the cleaners.
#[derive(Drop)]
pub(crate) struct Crew<C: Commits, B: Blocks> {
    pub(crate) jobs: Vec<Job<C, B>>,
    pub(crate) cleaners: Vec<Session<C, B>>,
}

/// What all threads leave, and the sessions of the cleaners.
#[derive(Drop)]
pub(crate) struct Back<C: Commits, B: Blocks> {
    pub(crate) played: Vec<PlayedJob<C, B>>,
    pub(crate) cleaners: Vec<Session<C, B>>,
}

impl<C: Commits, B: Blocks> Crew<C, B> {
    /// The first sessions are those of threads with these calls, and the others those of cleaners.
    pub(crate) fn seated(
        alloc: Global,
        mut sessions: Vec<Session<C, B>>,
        calls: Vec<Vec<ForkedCall>>,
    ) -> Result<Crew<C, B>, AllocError>
        requires { vec_len calls ≤ vec_len sessions }
        ensures shares { IfOk result (λ crew.
            map (λ job. (job.thread, job.calls.items)) crew.jobs.items
            ≡ enumerate_from 0 (map (λ own. own.items) calls.items)) }
        ensures cleaners { IfOk result (λ crew.
            vec_len calls + vec_len crew.cleaners ≡ vec_len sessions) }
        ensures seats { IfOk result (λ crew. map (λ job. job.session.number) crew.jobs.items
            ++ map (λ s. s.number) crew.cleaners.items ≡ map (λ s. s.number) sessions.items) }
    {
        let cleaners = sessions.split_off(calls.len())?;
        let mut jobs = Vec::new(alloc);
        for (session, (thread, calls)) in sessions.into_iter().zip(calls.into_iter().enumerate()) {
            jobs.push(Job {
                thread: thread as u64,
                session,
                calls,
            })?;
        }
        Ok(Crew { jobs, cleaners })
    }
}

impl<C: Commits, B: Blocks> Back<C, B> {
    /// The sessions, those of threads first, and the text of each thread.
    pub(crate) fn leave(self, alloc: Global) -> Result<(Vec<Session<C, B>>, Vec<Vec<u8>>), NoMemory>
        ensures seats { IfOk result (λ left. map (λ s. s.number) left.0.items
            ≡ map (λ one. one.session.number) self.played.items
            ++ map (λ s. s.number) self.cleaners.items) }
        ensures texts { IfOk result (λ left.
            map (λ one. one.text) self.played.items ≡ map Ok left.1.items) }
    {
        let Back {
            played,
            mut cleaners,
        } = self;
        let mut sessions = Vec::new(alloc);
        let mut texts = Vec::new(alloc);
        for one in played {
            let PlayedJob { session, text } = one;
            texts.push(text?)?;
            sessions.push(session)?;
        }
        sessions.append(&mut cleaners)?;
        Ok((sessions, texts))
    }
}

/// Makes the calls of a thread, one after another.
fn play<C: Commits, B: Blocks, G: Gate, R: Wait>(
    rt: &R,
    alloc: Global,
    service: &Service<C, B>,
    gate: &G,
    job: Job<C, B>,
) -> PlayedJob<C, B>
    // A thread has one answer for each call, in their order, or no room for one.
    ensures text { IfOk result.text
        (λ text. IsThreadText service.now.geometry.numbers.actors (job.thread, job.calls.items) text.items) }
    ensures seat { result.session.number ≡ job.session.number }
{
    let Job {
        thread,
        mut session,
        calls,
    } = job;
    let text = answers(rt, alloc, service, gate, thread, &mut session, calls);
    PlayedJob { session, text }
}

/// The text of what these calls of a thread are answered.
fn answers<C: Commits, B: Blocks, G: Gate, R: Wait>(
    rt: &R,
    alloc: Global,
    service: &Service<C, B>,
    gate: &G,
    thread: u64,
    session: &mut Session<C, B>,
    calls: Vec<ForkedCall>,
) -> Result<Vec<u8>, NoMemory>
    ensures text { IfOk result
        (λ text. IsThreadText service.now.geometry.numbers.actors (thread, calls.items) text.items) }
    ensures seat { session.new.number ≡ session.old.number }
{
    let mut text = Vec::new(alloc);
    for (line, call) in calls.into_iter().enumerate() {
        gate.before(thread, line as u64);
        let told = answered(rt, service, session, call);
        gate.after(thread, line as u64);
        push_answer(&mut text, thread, told)?;
    }
    Ok(text)
}

/// What a call is answered. `NoActor` where the world has no such actor.
fn answered<C: Commits, B: Blocks, R: Wait>(
    rt: &R,
    service: &Service<C, B>,
    session: &mut Session<C, B>,
    forked: ForkedCall,
) -> Result<Answer, Fault>
    ensures answer { IsAnswered service.now.geometry.numbers.actors forked result }
    ensures seat { session.new.number ≡ session.old.number }
{
    let ForkedCall { actor, call } = forked;
    if actor >= service.geometry().numbers.actors {
        return Err(Fault::NoActor);
    }
    match session.call(rt, service, call) {
        Ok(seen) => Ok(seen.answer()),
        Err(fault) => Err(fault),
    }
}

/// Adds an answer's text behind the number of its thread.
fn push_answer(
    out: &mut Vec<u8>,
    thread: u64,
    told: Result<Answer, Fault>,
) -> Result<(), AllocError>
    // An answer stands behind the number of its thread.
    ensures { OnOk result (out.new.items ≡ out.old.items ++ answer_line thread told) }
{
    push_number(out, thread)?;
    out.extend_from_slice(b": ")?;
    let told = match told {
        Ok(answer) => Ok(answer),
        Err(fault) => Err(CallFault::Refused(fault)),
    };
    push_told(out, &told)
}

/// Each cleaner in a thread of its own, until the flag is set.
fn clean_in_threads<C: Commits + Send + Sync, B: Blocks + Send + Sync, R: Threads + Wait + Sync>(
    rt: &R,
    service: &Service<C, B>,
    mut cleaners: Vec<Session<C, B>>,
    ended: &AtomicBool,
) -> Vec<Session<C, B>>
    ensures { map (λ s. s.number) result.items ≡ map (λ s. s.number) cleaners.items }
{
    let threads = cleaners.len().max(1);
    thread::for_each_mut(
        rt,
        cleaners.as_mut_slice(),
        threads,
        &|_, session| clean(rt, service, session, ended),
    );
    cleaners
}

/// Goes through the inodes again and again until the threads have ended.
fn clean<C: Commits, B: Blocks, R: Wait>(
    rt: &R,
    service: &Service<C, B>,
    session: &mut Session<C, B>,
    ended: &AtomicBool,
)
    ensures same { session.new ≡ with_held session.new.held session.old }
    ensures seat { session.new.number ≡ session.old.number }
{
    for _ in rt.forever() {
        let has_cleaned = clean_round(rt, service, session, ended);
        if ended.load(Ordering::SeqCst) {
            return;
        }
        if !has_cleaned {
            thread::yield_now();
        }
    }
}

/// Goes through the inodes once, as long as threads run, and tells whether there was anything to clean.
fn clean_round<C: Commits, B: Blocks, R: Wait>(
    rt: &R,
    service: &Service<C, B>,
    session: &mut Session<C, B>,
    ended: &AtomicBool,
) -> bool
    ensures same { session.new ≡ with_held session.new.held session.old }
    ensures seat { session.new.number ≡ session.old.number }
{
    let mut has_cleaned = false;
    for number in 0..service.geometry().numbers.inodes {
        if ended.load(Ordering::SeqCst) {
            break;
        }
        let cleaned = session.auto(rt, service, Ino::new(number));
        let drained = session.drain(rt, service, 1);
        has_cleaned = has_cleaned || took(cleaned) || took(drained);
    }
    has_cleaned
}

/// Whether a cleaner took anything out. What it is refused is dropped.
fn took(seen: Result<Seen, Fault>) -> bool {
    let Ok(seen) = seen else {
        return false;
    };
    match seen.answer() {
        Answer::Cleaned { entries, .. } => entries > 0,
        Answer::Count(records) => records > 0,
        _ => false,
    }
}

/// Runs each thread to the end of its calls, and cleaners beside until all have ended. On an error threads and sessions are
/// gone.
pub(crate) fn run_beside<
    C: Commits + Send + Sync,
    B: Blocks + Send + Sync,
    G: Gate + Sync,
    R: Threads + Wait + Sync,
>(
    rt: &R,
    alloc: Global,
    service: &Service<C, B>,
    gate: &G,
    crew: Crew<C, B>,
) -> Result<Back<C, B>, AllocError>
    ensures texts { IfOk result (λ back. AllZip
        (λ share told. IfOk told (λ text. IsThreadText service.now.geometry.numbers.actors share text.items))
        (map (λ job. (job.thread, job.calls.items)) crew.jobs.items)
        (map (λ one. one.text) back.played.items)) }
    ensures seats { IfOk result (λ back. map (λ one. one.session.number) back.played.items
        ≡ map (λ job. job.session.number) crew.jobs.items) }
    ensures cleaners { IfOk result (λ back. map (λ s. s.number) back.cleaners.items
        ≡ map (λ s. s.number) crew.cleaners.items) }
{
    let Crew { jobs, cleaners } = crew;
    let ended = AtomicBool::new(false);
    let flag = &ended;
    let (cleaners, played) = thread::join(
        rt,
        // Where no thread can be made this runs last: the flag is set then, and nothing is cleaned.
        move || clean_in_threads(rt, service, cleaners, flag),
        move || play_all(rt, alloc, service, gate, jobs, flag),
    );
    Ok(Back {
        played: played?,
        cleaners,
    })
}

/// Runs each thread to the end of its calls, and then sets the flag.
fn play_all<
    C: Commits + Send + Sync,
    B: Blocks + Send + Sync,
    G: Gate + Sync,
    R: Threads + Wait + Sync,
>(
    rt: &R,
    alloc: Global,
    service: &Service<C, B>,
    gate: &G,
    jobs: Vec<Job<C, B>>,
    ended: &AtomicBool,
) -> Result<Vec<PlayedJob<C, B>>, AllocError>
    ensures texts { IfOk result (λ played. AllZip
        (λ share told. IfOk told (λ text. IsThreadText service.now.geometry.numbers.actors share text.items))
        (map (λ job. (job.thread, job.calls.items)) jobs.items)
        (map (λ one. one.text) played.items)) }
    ensures seats { IfOk result (λ played. map (λ one. one.session.number) played.items
        ≡ map (λ job. job.session.number) jobs.items) }
{
    let played = thread::map_vec(rt, jobs, &|job| play(rt, alloc, service, gate, job));
    ended.store(true, Ordering::SeqCst);
    played
}
