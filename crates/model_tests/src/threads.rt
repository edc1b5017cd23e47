// The tests of a thread's events.

ghost use Rattle.std.specs.Prelude.{◌≡◌, ℕ};
ghost use Rattle.model_format.specs.declared.Timing.{Timing};
ghost use Rattle.model_semantics.specs.Tests as tests;
ghost use Rattle.model_state.specs.Words.{state_in};
ghost use Rattle.model_words.specs.Words.{timing_in};
ghost use Rattle.model_tests.specs.Jobs as jobs;

use crate::ThreadView;
use crate::jobs::{
    activates, beside_comes, beside_runs, completes, deactivates, dispatches_alone, due_with_job,
    falls_due, meets, misses,
};
use crate::views::{job_of, thread_view_of};
use model_format::{Connection, DELAYED, IMMEDIATE, MAX_CONNECTIONS};
use model_semantics::{NONE, WAITING_EXECUTION};
use model_state::{clock_of, code_of, dispatch_time, is_live, now_of};
use model_words::{connection_at, connections, input_owner, output_owner, thread_at, threads};

// The steps of START's test, in the order in which they are looked at.
// Kept as numbers and no enum: the definition `start_fault` gives them, and callers in C are told them.
pub const NO_FAULT: u8 = 0;

const STATE: u8 = 1;

const PROCESSOR: u8 = 2;

const CONNECTIONS: u8 = 3;

const LENGTH: u8 = 4;

// The thread that a connection comes from. Made in place, as `feeder` is, which asks for it.
#[inline(always)]
fn source_of(model: &[u32], state: &[u32], connection: Connection) -> ThreadView
    ensures { result ≡ jobs.source_of (timing_in model.now) (state_in state.now) connection }
{
    let owner = output_owner(model, usize::from(connection.source));
    thread_view_of(model, state, usize::from(owner))
}

// The thread that connection c comes from, where it is a live one of the kind into thread t. Most connections are off or lead elsewhere, so
// that comes first. Made in place, so that of the view only what is asked for is read.
#[inline(always)]
fn feeder(model: &[u32], state: &[u32], kind: u8, t: usize, c: usize) -> Option<ThreadView>
    ensures { result ≡ jobs.feeder (timing_in model.now) (state_in state.now) kind t c }
{
    let connection = connection_at(model, c);
    let live = is_live(state, c);
    if !((connection.kind == kind) & live) {
        return None;
    }
    let owner = input_owner(model, usize::from(connection.target));
    if usize::from(owner) != t {
        return None;
    }
    Some(source_of(model, state, connection))
}

// Connection c holds thread t's DISPATCH back.
fn holds_dispatch(model: &[u32], state: &[u32], t: usize, c: usize) -> bool
    ensures { result ≡ jobs.holds_dispatch (timing_in model.now) (state_in state.now) t c }
{
    feeder(model, state, DELAYED, t, c).is_some_and(due_with_job)
}

// A loop in place of `any`: its closure would hold the state, of which the compiler knows then no longer that it has all its numbers, so that what is
// enabled of a model takes a tenth to a seventh more instructions.
fn awaits_delayed(model: &[u32], state: &[u32], t: usize) -> bool
    ensures { result ≡ tests.awaits_delayed (timing_in model.now) (state_in state.now) t }
{
    let count = connections(model).min(MAX_CONNECTIONS);
    for c in 0..count {
        if holds_dispatch(model, state, t, c) {
            return true;
        }
    }
    false
}

// Connection c holds thread t's START back.
fn holds_start(model: &[u32], state: &[u32], t: usize, c: usize) -> bool
    ensures { result ≡ jobs.holds_start (timing_in model.now) (state_in state.now) t c }
{
    feeder(model, state, IMMEDIATE, t, c).is_some_and(|source| {
        let job = job_of(state, t);
        beside_runs(source, job) | beside_comes(source, job)
    })
}

// A loop for the same reason.
fn awaits_immediate(model: &[u32], state: &[u32], t: usize) -> bool
    ensures { result ≡ tests.awaits_immediate (timing_in model.now) (state_in state.now) t }
{
    let count = connections(model).min(MAX_CONNECTIONS);
    for c in 0..count {
        if holds_start(model, state, t, c) {
            return true;
        }
    }
    false
}

pub fn can_activate(state: &[u32], t: usize) -> bool
    ensures { result ≡ tests.can_activate (state_in state.now) t }
{
    activates(job_of(state, t))
}

// Most threads are active, so the thread's record comes last.
pub fn can_deactivate(model: &[u32], state: &[u32], t: usize) -> bool
    ensures { result ≡ tests.can_deactivate (timing_in model.now) (state_in state.now) t }
{
    let job = job_of(state, t);
    if job.active {
        return false;
    }
    deactivates(thread_at(model, t), job)
}

pub fn can_dispatch(model: &[u32], state: &[u32], t: usize) -> bool
    ensures { result ≡ tests.can_dispatch (timing_in model.now) (state_in state.now) t }
{
    if !dispatches_alone(thread_view_of(model, state, t)) {
        return false;
    }
    !awaits_delayed(model, state, t)
}

// ---- START
// Thread t is there, waits for its processor, and its deadline is not now. Most threads do not wait, so that comes first.
fn is_ready(model: &[u32], state: &[u32], t: usize) -> bool
    ensures { result ≡ tests.is_ready (timing_in model.now) (state_in state.now) t }
{
    if code_of(state, t) != WAITING_EXECUTION {
        return false;
    }
    let dispatched = dispatch_time(state, t);
    let thread = thread_at(model, t);
    let now = now_of(state);
    let due = falls_due(dispatched.0, thread.deadline.0, now.0);
    (t < threads(model)) & !due
}

// The processor is free, for whichever thread asks.
fn is_free(state: &[u32]) -> bool
    ensures { (m : Timing) (t : ℕ) → result ≡ tests.is_free m (state_in state.now) t }
{
    clock_of(state).cpu == NONE
}

fn is_allowed(model: &[u32], t: usize, time: u32) -> bool
    ensures { result ≡ tests.is_allowed (timing_in model.now) t time }
{
    let thread = thread_at(model, t);
    (thread.bcet.0 <= time) & (time <= thread.wcet.0)
}

// The first step that fails. None is looked at before those that come earlier have passed.
pub fn start_fault(model: &[u32], state: &[u32], t: usize, time: u32) -> u8
    ensures { result ≡ tests.start_fault (timing_in model.now) (state_in state.now) t time }
{
    if !is_ready(model, state, t) {
        return STATE;
    }
    if !is_free(state) {
        return PROCESSOR;
    }
    if awaits_immediate(model, state, t) {
        return CONNECTIONS;
    }
    if !is_allowed(model, t, time) {
        return LENGTH;
    }
    NO_FAULT
}

pub fn can_complete(state: &[u32], t: usize) -> bool
    ensures { result ≡ tests.can_complete (state_in state.now) t }
{
    completes(job_of(state, t))
}

pub fn can_meet_deadline(model: &[u32], state: &[u32], t: usize) -> bool
    ensures { result ≡ tests.can_meet_deadline (timing_in model.now) (state_in state.now) t }
{
    meets(thread_view_of(model, state, t))
}

pub fn can_miss(model: &[u32], state: &[u32], t: usize) -> bool
    ensures { result ≡ tests.can_miss (timing_in model.now) (state_in state.now) t }
{
    misses(thread_view_of(model, state, t))
}
