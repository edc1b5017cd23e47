// The input ports of a thread that take their buffers.

ghost use Rattle.std.specs.Prelude.{◌≡◌, ℕ, ◌<◌};
ghost use Rattle.model_semantics.specs.Effects as effects;
ghost use Rattle.model_semantics.specs.State.{with_ports};
ghost use Rattle.model_state.specs.Words.{state_in};
ghost use Rattle.model_words.specs.Words.{timing_in};
ghost use Rattle.model_ports.specs.Ports as ports;

use model_format::{IMMEDIATE, MAX_CONNECTIONS, MAX_INPUTS};
use model_state::{buffer_value, is_live, put_input};
use model_words::{connection_at, connections, input_owner, inputs};
use numbers::put_item;

// The input port that connection c feeds while it is live and immediate.
fn fed_port(model: &[u32], state: &[u32], c: usize) -> Option<usize>
    ensures { result ≡ ports.fed_input (timing_in model.now) (state_in state.now) c }
{
    let connection = connection_at(model, c);
    let immediate = connection.kind == IMMEDIATE;
    (immediate & is_live(state, c)).then_some(usize::from(connection.target))
}

// Which input ports are fed by a live immediate connection. A list of any content may name a port past the room for them, which has no mark.
fn fed_ports(model: &[u32], state: &[u32]) -> [bool; MAX_INPUTS]
    ensures { ports.Marked (timing_in model.now) (state_in state.now) (timing_in model.now).connections result }
{
    let count = connections(model).min(MAX_CONNECTIONS);
    let mut marks = [false; MAX_INPUTS];
    for c in 0..count {
        if let Some(port) = fed_port(model, state, c) {
            put_item(&mut marks, port, true);
        }
    }
    marks
}

// A port of thread t, by its owner and its mark: one that is fed so, or one that is not.
fn takes(owner: usize, mark: bool, fed: bool, t: usize) -> bool
    ensures { result ≡ ports.takes owner mark fed t }
{
    if owner != t {
        return false;
    }
    if fed { mark } else { !mark }
}

fn take_buffer(state: &mut [u32], mine: bool, i: usize)
    ensures { state_in state.new ≡ ports.take_buffer (state_in state.old) mine i }
{
    if mine {
        put_input(state, i, buffer_value(state, i));
    }
}

// The ports of thread t that are fed so take their buffers, or those that are not.
pub fn freeze(model: &[u32], state: &mut [u32], fed: bool, t: usize)
    ensures { state_in state.new ≡ with_ports (state_in state.old) (effects.freeze (timing_in model.now) (state_in state.old) fed t) }
{
    let marks = fed_ports(model, state);
    let count = inputs(model).min(MAX_INPUTS);
    for i in 0..count {
        let owner = usize::from(input_owner(model, i));
        take_buffer(state, takes(owner, marks[i], fed, t), i);
    }
}
