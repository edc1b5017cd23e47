// Which transition of a thread is open.

ghost use Rattle.std.specs.Prelude.{◌≡◌, ◌+◌, min};
ghost use Rattle.model_format.specs.Model.{max_transitions};
ghost use Rattle.model_semantics.specs.Effects as effects;
ghost use Rattle.model_state.specs.Words.{state_in};
ghost use Rattle.model_words.specs.Words.{behavior_in};
ghost use Rattle.model_transitions.specs.OpenLaws as laws;

use crate::values::atom_holds;
use model_format::{MAX_TRANSITIONS, Transition};
use model_state::behavior_of;
use model_words::{atom_at, transition_at, transitions};

// The first n atoms of transition k hold.
fn guard_holds(model: &[u32], state: &[u32], k: usize, n: usize) -> bool
    ensures { result ≡ laws.guard_holds (behavior_in model.now) (state_in state.now).ports k n }
{
    (0..n).all(|j| atom_holds(state, atom_at(model, k, j)))
}

// The transition is one of thread t, from the behaviour state given.
fn starts_from(transition: Transition, t: usize, from: u8) -> bool
    ensures { result ≡ laws.starts_from transition t from }
{
    (usize::from(transition.thread) == t) & (transition.from == from)
}

// Transition k of thread t is open. Only one from the behaviour state has its atoms looked at.
fn is_open(model: &[u32], state: &[u32], t: usize, from: u8, k: usize) -> bool
    ensures { result ≡ laws.is_open_from (behavior_in model.now) (state_in state.now).ports from t k }
{
    let transition = transition_at(model, k);
    if !starts_from(transition, t, from) {
        return false;
    }
    guard_holds(model, state, k, usize::from(transition.atoms))
}

// How many transitions are looked at: those past the room are blank, so that one of them is enough, however many the list counts.
fn looked_at(model: &[u32]) -> usize
    ensures { result ≡ min (behavior_in model.now).transitions (max_transitions + 1) }
{
    transitions(model).min(MAX_TRANSITIONS + 1)
}

// The first open transition, or the number of transitions.
pub fn first_open(model: &[u32], state: &[u32], t: usize) -> usize
    ensures { result ≡ effects.first_open (behavior_in model.now) (state_in state.now) t }
{
    let from = behavior_of(state, t);
    let open = (0..looked_at(model)).find(|k| is_open(model, state, t, from, *k));
    open.unwrap_or(transitions(model))
}
