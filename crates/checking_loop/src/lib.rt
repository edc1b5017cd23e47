// A study group's checking loop lends its state and gets it back one event further. The lent struct is small, and the step is by value.

#![tactic(auto)]

ghost use Rattle.std.specs.Prelude.{◌≡◌};
ghost use Rattle.model_state.specs.Words.{state_in};
ghost use Rattle.checking_loop.specs.View.{next_count, view_of, view_after, step_in, told_by, Steps, Turns};

use model_by_value::{Answered, ModelWords, StateWords};
use model_state::clock_of;
use numbers::Duration;
use records::Event;

// What a checking loop shows of a run: the clock, mode and phase of its state, and how many events were taken.
#[derive(Clone, Copy)]
pub struct View {
    pub clock: Duration,
    pub mode: u8,
    pub phase: u8,
    pub taken: u64,
}

// A turn of the loop: the view after it, and what the step gave.
#[derive(Clone, Copy)]
pub struct Turn {
    pub view: View,
    pub answered: Answered,
}

// The view of a state, with a count.
fn view_with(state: StateWords, count: u64) -> View
    ensures { result ≡ view_of (state_in state.word) count }
{
    let clock = clock_of(&state.word);
    View {
        clock: clock.now,
        mode: clock.mode,
        phase: clock.phase,
        taken: count,
    }
}

// The view with which a loop begins.
pub fn view_of(state: StateWords) -> View
    ensures { result ≡ view_of (state_in state.word) 0 }
{
    view_with(state, 0)
}

// One event more, and no more than 64 bits hold.
fn next_count(count: u64) -> u64
    ensures { result ≡ next_count count }
{
    count.saturating_add(1)
}

// The view after an answer: of the state after it and one event more where the event is taken, else as it was.
pub fn view_after(view: View, answered: Answered) -> View
    ensures { result ≡ view_after view (told_by answered) }
{
    if !records::is_none(answered.answer) {
        return view;
    }
    view_with(answered.state, next_count(view.taken))
}

// One event. The view is lent, and comes back one event further.
pub fn advance(view: &mut View, model: ModelWords, state: StateWords, event: Event) -> Answered
    ensures { Steps model state event result × (view.new ≡ view_after view.old (step_in model state event)) }
{
    let answered = model_by_value::step(model, state, event);
    *view = view_after(*view, answered);
    answered
}

// A turn for callers that lend nothing: the view is lent from a local.
pub fn take_turn(given: View, model: ModelWords, state: StateWords, event: Event) -> Turn
    ensures { Turns given model state event result }
{
    let mut view = given;
    let answered = advance(&mut view, model, state, event);
    Turn { view, answered }
}
