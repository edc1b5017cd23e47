// COMPLETE's transition, on a model and a state in lent lists of numbers: the first open transition of a thread is taken, its assignments
// are stored, and its to-state is the thread's behaviour state. Lists of any content and any length are met; nothing is copied but the new
// values of one transition.

#![tactic(auto)]

mod assigning;

ghost use Rattle.std.specs.Prelude.{◌≡◌};
ghost use Rattle.model_semantics.specs.Effects.{advance};
ghost use Rattle.model_state.specs.Words.{state_in};
ghost use Rattle.model_words.specs.Words.{model_in};

use crate::assigning::assign;
use model_state::put_behavior;
use model_transitions::first_open;
use model_words::{transition_at, transitions};

pub fn take_transition(model: &[u32], state: &mut [u32], t: usize)
    ensures { state_in state.new ≡ advance (model_in model.now) (state_in state.old) t }
{
    let k = first_open(model, state, t);
    if transitions(model) <= k {
        return;
    }
    let transition = transition_at(model, k);
    assign(model, state, k, transition.assignments);
    put_behavior(state, t, transition.to);
}
