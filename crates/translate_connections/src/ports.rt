// The input ports of a thread, each of which takes its buffer.

ghost use Rattle.std.specs.Prelude.{◌≡◌, [], ◌∷◌, ◌<◌};
ghost use Rattle.table_format.specs.Variables.{input_var, input_room};
ghost use Rattle.model_format.specs.WellFormed.{GoodTiming};
ghost use Rattle.model_words.specs.Words.{timing_in};
ghost use Rattle.translation.specs.Parts.{update_when};
ghost use Rattle.table_writer.specs.Writes.{WritesUpdates};
ghost use Rattle.translate_connections.specs.Items.{connection_into};
ghost use Rattle.translation.specs.Rules as rules;

use model_format::IMMEDIATE;
use model_words::{connection_at, connections, input_owner, inputs};
use table_format::{NO_VARIABLE, buffer_var, flag_var, input_var};
use table_writer::Writer;

// The immediate connection into an input port.
fn immediate_into(model: &[u32], port: u16) -> Option<u16>
    requires { GoodTiming (timing_in model.now) }
    ensures { result ≡ connection_into (timing_in model.now) port }
{
    for connection in 0..connections(model) {
        let own = connection_at(model, connection);
        if (own.kind == IMMEDIATE) & (own.target == port) {
            return Some(connection as u16);
        }
    }
    None
}

fn put_taken(out: &mut Writer<'_>, condition: u16, wanted: u8, port: u16)
    requires { port < input_room }
    ensures { WritesUpdates out.old (update_when condition wanted (input_var port) (rules.take_buffer port) ∷ []) out.new }
{
    let input = input_var(port);
    let buffer = buffer_var(port);
    out.copy_when(condition, wanted, input, buffer);
}

// A live immediate connection into the port has it wait for START.
fn put_dispatch_port(out: &mut Writer<'_>, model: &[u32], port: u16)
    requires { GoodTiming (timing_in model.now) × (port < input_room) }
    ensures { WritesUpdates out.old (rules.dispatch_port (timing_in model.now) port) out.new }
{
    match immediate_into(model, port) {
        Some(connection) => put_taken(out, flag_var(connection), 0, port),
        None => put_taken(out, NO_VARIABLE, 0, port),
    }
}

fn put_start_port(out: &mut Writer<'_>, model: &[u32], port: u16)
    requires { GoodTiming (timing_in model.now) × (port < input_room) }
    ensures { WritesUpdates out.old (rules.start_port (timing_in model.now) port) out.new }
{
    if let Some(connection) = immediate_into(model, port) {
        put_taken(out, flag_var(connection), 1, port);
    }
}

pub fn put_dispatch_ports(out: &mut Writer<'_>, model: &[u32], thread: u8)
    requires { GoodTiming (timing_in model.now) }
    ensures { WritesUpdates out.old (rules.per_input (timing_in model.now) thread (rules.dispatch_port (timing_in model.now))) out.new }
{
    for port in 0..inputs(model) {
        if input_owner(model, port) == thread {
            put_dispatch_port(out, model, port as u16);
        }
    }
}

pub fn put_start_ports(out: &mut Writer<'_>, model: &[u32], thread: u8)
    requires { GoodTiming (timing_in model.now) }
    ensures { WritesUpdates out.old (rules.per_input (timing_in model.now) thread (rules.start_port (timing_in model.now))) out.new }
{
    for port in 0..inputs(model) {
        if input_owner(model, port) == thread {
            put_start_port(out, model, port as u16);
        }
    }
}
