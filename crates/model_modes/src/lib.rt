// What the events of a mode transition do.

#![tactic(auto)]

ghost use Rattle.std.specs.Prelude.{◌≡◌, ◌≤◌, length};
ghost use Rattle.model_semantics.specs.Effects as effects;
ghost use Rattle.model_semantics.specs.State.{with_active, with_live};
ghost use Rattle.model_state.specs.Words.{state_in, clock_words};
ghost use Rattle.model_words.specs.Words.{timing_in};

use model_format::{MAX_CONNECTIONS, MAX_THREADS, in_mode};
use model_semantics::{CHANGING, NONE, REQUESTED, STEADY};
use model_state::{clock_of, put_active, put_entered, put_live, put_mode, put_phase};
use model_words::{connection_at, connections, switch_at, thread_at, threads};

// Active of every thread by a mode.
pub fn set_active(model: &[u32], state: &mut [u32], mode: u8)
    ensures { state_in state.new ≡ with_active (state_in state.old) (effects.active_in (timing_in model.now) mode (state_in state.old).threads.active) }
{
    let count = threads(model).min(MAX_THREADS);
    for t in 0..count {
        put_active(state, t, in_mode(thread_at(model, t).modes, mode));
    }
}

// Flag of every connection: whether its mask holds both modes.
pub fn set_live(model: &[u32], state: &mut [u32], old: u8, new: u8)
    ensures { state_in state.new ≡ with_live (state_in state.old) (effects.live_in (timing_in model.now) old new (state_in state.old).live) }
{
    let count = connections(model).min(MAX_CONNECTIONS);
    for c in 0..count {
        let modes = connection_at(model, c).modes;
        put_live(state, c, in_mode(modes, old) & in_mode(modes, new));
    }
}

// Pending holds the mode transition's number, a byte.
pub fn request(model: &[u32], state: &mut [u32], id: u8)
    requires { clock_words ≤ length state.old }
    ensures { state_in state.new ≡ effects.request (timing_in model.now) (state_in state.old) id }
{
    let switch = switch_at(model, usize::from(id));
    let clock = clock_of(state);
    if (clock.phase == STEADY) & (clock.mode == switch.from) {
        put_phase(state, REQUESTED, id);
    }
}

pub fn enter(model: &[u32], state: &mut [u32], q: usize)
    requires { clock_words ≤ length state.old }
    ensures { state_in state.new ≡ effects.enter (timing_in model.now) (state_in state.old) q }
{
    let switch = switch_at(model, q);
    let clock = clock_of(state);
    put_phase(state, CHANGING, clock.pending);
    put_entered(state, clock.now);
    set_active(model, state, switch.to);
    set_live(model, state, switch.from, switch.to);
}

pub fn leave(model: &[u32], state: &mut [u32], q: usize)
    requires { clock_words ≤ length state.old }
    ensures { state_in state.new ≡ effects.leave (timing_in model.now) (state_in state.old) q }
{
    let switch = switch_at(model, q);
    put_phase(state, STEADY, NONE);
    put_mode(state, switch.to);
    set_live(model, state, switch.to, switch.to);
}
