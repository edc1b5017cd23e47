// The assignments of a transition: all new values are computed before the first is stored.

ghost use Rattle.std.specs.Prelude.{◌≡◌, ◌≤◌, length};
ghost use Rattle.model_state.specs.Words.{state_in};
ghost use Rattle.model_words.specs.Words.{behavior_in};
ghost use Rattle.model_behavior.specs.AssignLaws as laws;

use model_format::{Assignment, MAX_EACH, OUTPUT_TAG};
use model_state::{put_local, put_output};
use model_transitions::assigned_value;
use model_words::assignment_at;
use numbers::{Value, bits, item_or, value_of};

// Room for as many assignments as a byte counts.
const MAX_COUNT: usize = 256;

// The new values of the first n assignments of transition k, each as the number that stands for it.
fn new_values(model: &[u32], state: &[u32], k: usize, n: usize, values: &mut [u32])
    requires { n ≤ length values.old }
    ensures { laws.NewValues (behavior_in model.now) (state_in state.now).ports k n values.new }
{
    for j in 0..n {
        values[j] = bits(assigned_value(state, assignment_at(model, k, j)));
    }
}

// To an output port, or else to a local.
fn store_one(state: &mut [u32], assignment: Assignment, value: Value)
    ensures { state_in state.new ≡ laws.store_one (state_in state.old) assignment value }
{
    let i = usize::from(assignment.number);
    if assignment.tag == OUTPUT_TAG {
        put_output(state, i, value);
        return;
    }
    put_local(state, i, value);
}

fn store_values(model: &[u32], state: &mut [u32], k: usize, n: usize, values: &[u32])
    requires { laws.NewValues (behavior_in model.now) (state_in state.old).ports k n values.now }
    ensures { state_in state.new ≡ laws.assigned (behavior_in model.now) (state_in state.old) k n }
{
    for j in 0..n {
        let value = value_of(item_or(values, j, 0));
        store_one(state, assignment_at(model, k, j), value);
    }
}

// By way of values, which has room for n.
fn assign_by(model: &[u32], state: &mut [u32], k: usize, n: usize, values: &mut [u32])
    requires { n ≤ length values.old }
    ensures { state_in state.new ≡ laws.assigned (behavior_in model.now) (state_in state.old) k n }
{
    new_values(model, state, k, n, values);
    store_values(model, state, k, n, values);
}

// A model that was read has few assignments to a transition; a list of any content may count as many as a byte does.
pub fn assign(model: &[u32], state: &mut [u32], k: usize, count: u8)
    ensures { state_in state.new ≡ laws.assigned (behavior_in model.now) (state_in state.old) k count }
{
    let n = usize::from(count);
    if n <= MAX_EACH {
        let mut few = [0; MAX_EACH];
        assign_by(model, state, k, n, &mut few);
        return;
    }
    let mut many = [0; MAX_COUNT];
    assign_by(model, state, k, n, &mut many);
}
