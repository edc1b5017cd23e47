// The state that a model starts in, made in a lent list of numbers.

#![tactic(auto)]

ghost use Rattle.std.specs.Prelude.{◌≡◌, ◌≤◌, length};
ghost use Rattle.model_semantics.specs.Machine as machine;
ghost use Rattle.model_state.specs.Words.{state_in, state_words};
ghost use Rattle.model_words.specs.Words.{timing_in};
ghost use Rattle.model_start.specs.Starting as starting;

use model_format::{MAX_INPUTS, MAX_LOCALS, MAX_THREADS};
use model_modes::{set_active, set_live};
use model_semantics::{NONE, STEADY};
use model_state::{
    STATE_WORDS, put_behavior, put_buffer, put_cpu, put_input, put_local, put_mode, put_phase,
};
use model_words::{initial, input_at, inputs, local_at, locals, thread_at, threads};

fn clear(state: &mut [u32])
    requires { state_words ≤ length state.old }
    ensures { starting.Cleared state.new state_words }
{
    state[..STATE_WORDS].fill(0);
}

// The behaviour state of every thread.
fn set_behaviors(model: &[u32], state: &mut [u32])
    ensures { state_in state.new ≡ starting.behaviors_below (timing_in model.now) (state_in state.old) (timing_in model.now).threads }
{
    let count = threads(model).min(MAX_THREADS);
    for t in 0..count {
        put_behavior(state, t, thread_at(model, t).first);
    }
}

fn set_locals(model: &[u32], state: &mut [u32])
    ensures { state_in state.new ≡ starting.locals_below (timing_in model.now) (state_in state.old) (timing_in model.now).locals }
{
    let count = locals(model).min(MAX_LOCALS);
    for v in 0..count {
        put_local(state, v, local_at(model, v).start);
    }
}

// The value of every input port, and of its buffer.
fn set_inputs(model: &[u32], state: &mut [u32])
    ensures { state_in state.new ≡ starting.inputs_below (timing_in model.now) (state_in state.old) (timing_in model.now).inputs }
{
    let count = inputs(model).min(MAX_INPUTS);
    for i in 0..count {
        let input = input_at(model, i);
        put_input(state, i, input.start);
        put_buffer(state, i, input.start);
    }
}

// The values that a model gives: of its locals and input ports.
fn set_values(model: &[u32], state: &mut [u32])
    ensures { state_in state.new ≡ starting.values_set (timing_in model.now) (state_in state.old) }
{
    set_locals(model, state);
    set_inputs(model, state);
}

pub fn start_in(model: &[u32], state: &mut [u32])
    requires { state_words ≤ length state.old }
    ensures { state_in state.new ≡ machine.start_state (timing_in model.now) }
{
    clear(state);
    let mode = initial(model);
    put_mode(state, mode);
    put_phase(state, STEADY, NONE);
    put_cpu(state, NONE);
    set_active(model, state, mode);
    set_behaviors(model, state);
    set_live(model, state, mode, mode);
    set_values(model, state);
}
