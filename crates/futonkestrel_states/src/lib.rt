// States in lists of numbers that a caller keeps: started and taken one event further. A list of any content stands for a model or a state,
// so no call asks how it was made.

#![tactic(auto)]

ghost use Rattle.std.specs.Prelude.{◌≡◌, length};
ghost use Rattle.model_semantics.specs.Machine as machine;
ghost use Rattle.state_settling.specs.Words.{words_of_state};
ghost use Rattle.model_state.specs.Words.{state_in, state_words};
ghost use Rattle.model_words.specs.Words.{model_in, timing_in};
ghost use Rattle.futonkestrel_states.specs.States as states;
ghost use Rattle.futonkestrel_states.specs.Laws.{event_made};

use model_machine::step;
use model_start::start_in;
use model_state::STATE_WORDS;
use records::{Cause, Event};
use state_settling::settle_state;

// How many numbers a state takes.
pub fn state_words() -> usize
    ensures { result ≡ state_words }
{
    STATE_WORDS
}

// ---- the start
fn start_settled(model: &[u32], state: &mut [u32])
    requires { length state.old ≡ state_words }
    ensures { state.new ≡ words_of_state (machine.start_state (timing_in model.now)) }
{
    start_in(model, state);
    settle_state(state);
}

pub fn model_start(model: &[u32], state: &mut [u32]) -> Cause
    ensures { (result ≡ states.started_answer state.old) × (state.new ≡ states.started_state model.now state.old) }
{
    if state.len() < STATE_WORDS {
        return Cause::ShortOutput;
    }
    start_settled(model, &mut state[..STATE_WORDS]);
    Cause::None
}

// ---- one event
fn step_settled(model: &[u32], state: &mut [u32], event: Event) -> Cause
    requires { length state.old ≡ state_words }
    ensures { (result ≡ (machine.step (model_in model.now) (state_in state.old) event).answer) × (state.new ≡ event_made (machine.step (model_in model.now) (state_in state.old) event) state.old) }
{
    let answer = step(model, state, event);
    if records::is_none(answer) {
        settle_state(state);
    }
    answer
}

pub fn model_step(model: &[u32], state: &mut [u32], event: &[u8]) -> Cause
    ensures { (result ≡ states.stepped_answer model.now state.old event.now) × (state.new ≡ states.stepped_state model.now state.old event.now) }
{
    if state.len() < STATE_WORDS {
        return Cause::ShortOutput;
    }
    let event = records::event_of(event);
    step_settled(model, &mut state[..STATE_WORDS], event)
}
