// The tests of mode transitions, and whether anything but REQUEST is enabled.

ghost use Rattle.std.specs.Prelude.{◌≡◌};
ghost use Rattle.numbers.specs.Lists.{any_below};
ghost use Rattle.model_semantics.specs.Tests as tests;
ghost use Rattle.model_state.specs.Words.{state_in};
ghost use Rattle.model_words.specs.Words.{timing_in};
ghost use Rattle.model_tests.specs.Jobs as jobs;

use crate::jobs::may_act;
use crate::threads::{
    NO_FAULT, can_activate, can_complete, can_deactivate, can_dispatch, can_meet_deadline,
    can_miss, start_fault,
};
use crate::views::job_of;
use model_format::{MAX_THREADS, ModeTransition};
use model_semantics::{CHANGING, Clock, REQUESTED};
use model_state::clock_of;
use model_words::{switch_at, switches, thread_at, threads};
use numbers::is_multiple;

// Mode transition q, whose record is given, by the clock.
fn enters(clock: Clock, switch: ModeTransition, q: usize) -> bool
    ensures { result ≡ jobs.enters clock switch q }
{
    (clock.phase == REQUESTED)
        & ((clock.pending as usize == q) & is_multiple(clock.now.0, switch.h1.0))
}

fn leaves(clock: Clock, switch: ModeTransition, q: usize) -> bool
    ensures { result ≡ jobs.leaves clock switch q }
{
    let late = clock.now != clock.entered;
    (clock.phase == CHANGING)
        & ((clock.pending as usize == q) & (late & is_multiple(clock.now.0, switch.h2.0)))
}

pub fn can_enter(model: &[u32], state: &[u32], q: usize) -> bool
    ensures { result ≡ tests.can_enter (timing_in model.now) (state_in state.now) q }
{
    enters(clock_of(state), switch_at(model, q), q)
}

pub fn can_leave(model: &[u32], state: &[u32], q: usize) -> bool
    ensures { result ≡ tests.can_leave (timing_in model.now) (state_in state.now) q }
{
    leaves(clock_of(state), switch_at(model, q), q)
}

// Some event of thread t; START with the shortest length.
fn thread_busy(model: &[u32], state: &[u32], t: usize) -> bool
    ensures { result ≡ tests.thread_busy (timing_in model.now) (state_in state.now) t }
{
    let thread = thread_at(model, t);
    let starts = start_fault(model, state, t, thread.bcet.0) == NO_FAULT;
    let late = can_meet_deadline(model, state, t) | can_miss(model, state, t);
    let ends = can_complete(state, t) | late;
    let runs = can_dispatch(model, state, t) | (starts | ends);
    can_activate(state, t) | (can_deactivate(model, state, t) | runs)
}

fn switch_busy(model: &[u32], state: &[u32], q: usize) -> bool
    ensures { result ≡ tests.switch_busy (timing_in model.now) (state_in state.now) q }
{
    can_enter(model, state, q) | can_leave(model, state, q)
}

// The same where the clock is at hand. Only a thread whose clock, code and job leave room for an event has its connections looked at.
fn acts(model: &[u32], state: &[u32], clock: Clock, t: usize) -> bool
    requires { clock ≡ (state_in state.now).clock }
    ensures { result ≡ tests.thread_busy (timing_in model.now) (state_in state.now) t }
{
    if !may_act(clock, thread_at(model, t), job_of(state, t)) {
        return false;
    }
    thread_busy(model, state, t)
}

// A loop in place of `any`, as `awaits_delayed` is.
fn threads_busy(model: &[u32], state: &[u32]) -> bool
    ensures { result ≡ any_below (timing_in model.now).threads (tests.thread_busy (timing_in model.now) (state_in state.now)) }
{
    let count = threads(model).min(MAX_THREADS);
    let clock = clock_of(state);
    for t in 0..count {
        if acts(model, state, clock, t) {
            return true;
        }
    }
    false
}

// Some event but REQUEST. Of the mode transitions only the pending one has any.
pub fn is_busy(model: &[u32], state: &[u32]) -> bool
    ensures { result ≡ tests.is_busy (timing_in model.now) (state_in state.now) }
{
    if threads_busy(model, state) {
        return true;
    }
    let clock = clock_of(state);
    let pending = usize::from(clock.pending);
    if switches(model) <= pending {
        return false;
    }
    switch_busy(model, state, pending)
}
