// The events of modes, each with its test and its effect: ACTIVATE and DEACTIVATE of a thread, REQUEST, ENTER and LEAVE of a mode
// transition. Every test stands before the first store, so a refused event leaves the list as it was.

#![tactic(auto)]

ghost use Rattle.std.specs.Prelude.{◌≤◌, length};
ghost use Rattle.model_semantics.specs.Machine as machine;
ghost use Rattle.model_state.specs.Words.{state_in, clock_words};
ghost use Rattle.model_words.specs.Words.{timing_in};
ghost use Rattle.model_time.specs.Answers.{Answers};

use model_effects::deactivate;
use model_modes::{enter, leave, request};
use model_semantics::WAITING_DISPATCH;
use model_state::put_code;
use model_tests::{can_activate, can_deactivate, can_enter, can_leave};
use model_words::{switches, threads};
use records::Cause;

pub fn on_activate(model: &[u32], state: &mut [u32], t: usize) -> Cause
    ensures { Answers result state.old state.new (machine.on_activate (timing_in model.now).threads (state_in state.old) t) }
{
    if (t < threads(model)) & can_activate(state, t) {
        put_code(state, t, WAITING_DISPATCH);
        return Cause::None;
    }
    Cause::NotEnabled
}

pub fn on_deactivate(model: &[u32], state: &mut [u32], t: usize) -> Cause
    requires { clock_words ≤ length state.old }
    ensures { Answers result state.old state.new (machine.on_deactivate (timing_in model.now) (state_in state.old) t) }
{
    if (t < threads(model)) & can_deactivate(model, state, t) {
        deactivate(state, t);
        return Cause::None;
    }
    Cause::NotEnabled
}

pub fn on_request(model: &[u32], state: &mut [u32], id: u8) -> Cause
    requires { clock_words ≤ length state.old }
    ensures { Answers result state.old state.new (machine.on_request (timing_in model.now) (state_in state.old) id) }
{
    if usize::from(id) < switches(model) {
        request(model, state, id);
        return Cause::None;
    }
    Cause::NotEnabled
}

pub fn on_enter(model: &[u32], state: &mut [u32], q: usize) -> Cause
    requires { clock_words ≤ length state.old }
    ensures { Answers result state.old state.new (machine.on_enter (timing_in model.now) (state_in state.old) q) }
{
    if (q < switches(model)) & can_enter(model, state, q) {
        enter(model, state, q);
        return Cause::None;
    }
    Cause::NotEnabled
}

pub fn on_leave(model: &[u32], state: &mut [u32], q: usize) -> Cause
    requires { clock_words ≤ length state.old }
    ensures { Answers result state.old state.new (machine.on_leave (timing_in model.now) (state_in state.old) q) }
{
    if (q < switches(model)) & can_leave(model, state, q) {
        leave(model, state, q);
        return Cause::None;
    }
    Cause::NotEnabled
}
