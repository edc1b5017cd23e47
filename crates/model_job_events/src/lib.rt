// The events of a job, each with its test and its effect: DISPATCH, START, COMPLETE, DEADLINE and MISS. Every test stands before the
// first store, so a refused event leaves the list as it was.

#![tactic(auto)]

ghost use Rattle.std.specs.Prelude.{◌≡◌, ◌≤◌, length};
ghost use Rattle.model_semantics.specs.Effects as effects;
ghost use Rattle.model_semantics.specs.Machine as machine;
ghost use Rattle.model_state.specs.Words.{state_in, clock_words};
ghost use Rattle.model_words.specs.Words.{timing_in, model_in};
ghost use Rattle.model_time.specs.Answers.{Answers};

use model_behavior::take_transition;
use model_effects::{dispatch, end_job, meet_deadline, miss, start};
use model_format::IMMEDIATE;
use model_ports::send;
use model_semantics::COMPLETED;
use model_tests::{NO_FAULT, can_complete, can_dispatch, can_meet_deadline, can_miss, start_fault};
use model_words::threads;
use records::Cause;

fn complete(model: &[u32], state: &mut [u32], t: usize)
    requires { clock_words ≤ length state.old }
    ensures { state_in state.new ≡ effects.complete (model_in model.now) (state_in state.old) t }
{
    take_transition(model, state, t);
    send(model, state, IMMEDIATE, t);
    end_job(state, t, COMPLETED);
}

pub fn on_dispatch(model: &[u32], state: &mut [u32], t: usize) -> Cause
    ensures { Answers result state.old state.new (machine.on_dispatch (timing_in model.now) (state_in state.old) t) }
{
    if (t < threads(model)) & can_dispatch(model, state, t) {
        dispatch(model, state, t);
        return Cause::None;
    }
    Cause::NotEnabled
}

pub fn on_start(model: &[u32], state: &mut [u32], id: u8, time: u32) -> Cause
    requires { clock_words ≤ length state.old }
    ensures { Answers result state.old state.new (machine.on_start (timing_in model.now) (state_in state.old) id time) }
{
    if start_fault(model, state, usize::from(id), time) == NO_FAULT {
        start(model, state, id, time);
        return Cause::None;
    }
    Cause::NotEnabled
}

pub fn on_complete(model: &[u32], state: &mut [u32], t: usize) -> Cause
    requires { clock_words ≤ length state.old }
    ensures { Answers result state.old state.new (machine.on_complete (model_in model.now) (state_in state.old) t) }
{
    if (t < threads(model)) & can_complete(state, t) {
        complete(model, state, t);
        return Cause::None;
    }
    Cause::NotEnabled
}

pub fn on_deadline(model: &[u32], state: &mut [u32], t: usize) -> Cause
    ensures { Answers result state.old state.new (machine.on_deadline (timing_in model.now) (state_in state.old) t) }
{
    if (t < threads(model)) & can_meet_deadline(model, state, t) {
        meet_deadline(model, state, t);
        return Cause::None;
    }
    Cause::NotEnabled
}

pub fn on_miss(model: &[u32], state: &mut [u32], t: usize) -> Cause
    requires { clock_words ≤ length state.old }
    ensures { Answers result state.old state.new (machine.on_miss (timing_in model.now) (state_in state.old) t) }
{
    if (t < threads(model)) & can_miss(model, state, t) {
        miss(state, t);
        return Cause::None;
    }
    Cause::NotEnabled
}
