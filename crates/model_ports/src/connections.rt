// Outputs that connections copy to buffers.

ghost use Rattle.std.specs.Prelude.{◌≡◌};
ghost use Rattle.model_semantics.specs.Effects as effects;
ghost use Rattle.model_semantics.specs.State.{with_ports};
ghost use Rattle.model_state.specs.Words.{state_in};
ghost use Rattle.model_words.specs.Words.{timing_in};
ghost use Rattle.model_ports.specs.Sends as sends;

use model_format::{Connection, MAX_CONNECTIONS};
use model_state::{is_live, output_value, put_buffer};
use model_words::{connection_at, connections, output_owner};

// Connection c, whose record is given, is a live one of a kind from thread t. Most are off or of other threads.
fn carries(
    model: &[u32],
    state: &[u32],
    connection: Connection,
    c: usize,
    kind: u8,
    t: usize,
) -> bool
    ensures { result ≡ sends.carries_by (timing_in model.now) (state_in state.now) connection c kind t }
{
    let live = is_live(state, c);
    if !((connection.kind == kind) & live) {
        return false;
    }
    let owner = output_owner(model, usize::from(connection.source));
    usize::from(owner) == t
}

fn send_one(state: &mut [u32], connection: Connection, goes: bool)
    ensures { state_in state.new ≡ sends.send_one (state_in state.old) connection goes }
{
    if goes {
        let value = output_value(state, usize::from(connection.source));
        put_buffer(state, usize::from(connection.target), value);
    }
}

// The live connections of a kind from thread t copy its outputs to buffers.
pub fn send(model: &[u32], state: &mut [u32], kind: u8, t: usize)
    ensures { state_in state.new ≡ with_ports (state_in state.old) (effects.send (timing_in model.now) (state_in state.old) kind t (state_in state.old).ports) }
{
    let count = connections(model).min(MAX_CONNECTIONS);
    for c in 0..count {
        let connection = connection_at(model, c);
        let goes = carries(model, state, connection, c, kind, t);
        send_one(state, connection, goes);
    }
}
