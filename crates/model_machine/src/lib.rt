// A model's machine on lent lists of numbers: one event, which changes the state's list in place. One match over its kind.

#![tactic(auto)]

ghost use Rattle.std.specs.Prelude.{◌≡◌, ◌≤◌, length};
ghost use Rattle.model_semantics.specs.Machine as machine;
ghost use Rattle.model_state.specs.Words.{state_in, clock_words};
ghost use Rattle.model_words.specs.Words.{model_in};
ghost use Rattle.model_time.specs.Answers.{Answers};

use model_job_events::{on_complete, on_deadline, on_dispatch, on_miss, on_start};
use model_mode_events::{on_activate, on_deactivate, on_enter, on_leave, on_request};
use model_time::ticks;
use records::{
    ACTIVATE, COMPLETE, Cause, DEACTIVATE, DEADLINE, DISPATCH, ENTER, Event, LEAVE, MISS, REQUEST,
    START, TICK, is_broken,
};

pub fn step(model: &[u32], state: &mut [u32], event: Event) -> Cause
    requires { clock_words ≤ length state.old }
    ensures { Answers result state.old state.new (machine.step (model_in model.now) (state_in state.old) event) }
{
    if is_broken(event) {
        return Cause::BrokenEvent;
    }
    let t = usize::from(event.id);
    match event.kind {
        ACTIVATE => on_activate(model, state, t),
        DEACTIVATE => on_deactivate(model, state, t),
        DISPATCH => on_dispatch(model, state, t),
        START => on_start(model, state, event.id, event.amount),
        COMPLETE => on_complete(model, state, t),
        DEADLINE => on_deadline(model, state, t),
        MISS => on_miss(model, state, t),
        REQUEST => on_request(model, state, event.id),
        ENTER => on_enter(model, state, t),
        LEAVE => on_leave(model, state, t),
        TICK => ticks(model, state, event.amount),
        _ => Cause::BrokenEvent,
    }
}
