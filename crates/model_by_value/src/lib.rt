// The machine with model and state by value, as a caller has them who keeps every state: each call copies the state and works on the copy.

#![tactic(auto)]

ghost use Rattle.std.specs.Prelude.{◌≡◌};
ghost use Rattle.model_semantics.specs.Machine as machine;
ghost use Rattle.model_state.specs.Words.{state_in};
ghost use Rattle.model_words.specs.Words.{model_in, timing_in};
ghost use Rattle.model_time.specs.Answers.{Answers};

use model_machine::step as step_in;
use model_start::start_in;
use model_state::STATE_WORDS;
use model_words::MODEL_WORDS;
use records::{Cause, Event};

// A model as read, and a state, in their numbers.
#[derive(Clone, Copy)]
pub struct ModelWords {
    pub word: [u32; MODEL_WORDS],
}

#[derive(Clone, Copy)]
pub struct StateWords {
    pub word: [u32; STATE_WORDS],
}

// The answer to an event, and the state one event further, or as it was where the event is refused.
// Kept as one struct: a refused event leaves a state too.
#[derive(Clone, Copy)]
pub struct Answered {
    pub answer: Cause,
    pub state: StateWords,
}

pub fn start(model: ModelWords) -> StateWords
    ensures { state_in result.word ≡ machine.start_state (timing_in model.word) }
{
    let mut word = [0; STATE_WORDS];
    start_in(&model.word, &mut word);
    StateWords { word }
}

pub fn step(model: ModelWords, state: StateWords, e: Event) -> Answered
    ensures { Answers result.answer state.word result.state.word (machine.step (model_in model.word) (state_in state.word) e) }
{
    let mut word = state.word;
    let answer = step_in(&model.word, &mut word, e);
    Answered {
        answer,
        state: StateWords { word },
    }
}
