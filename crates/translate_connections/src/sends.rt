// The buffers that a thread's connections fill.

ghost use Rattle.std.specs.Prelude.{[], ◌∷◌, ◌<◌};
ghost use Rattle.model_format.specs.WellFormed.{GoodTiming};
ghost use Rattle.model_words.specs.Words.{timing_in};
ghost use Rattle.table_format.specs.Variables.{connection_room, input_room, output_room};
ghost use Rattle.translation.specs.Rules.{old_output, send_update, send_updates};
ghost use Rattle.table_writer.specs.Writes.{WritesUpdates};

use model_format::Connection;
use model_words::{connection_at, connections};
use table_format::{buffer_var, flag_var, output_var};
use table_writer::Writer;
use translate_waits::is_from;

// What a connection sends; `own` is its record.
fn put_sent(out: &mut Writer<'_>, connection: u16, own: Connection)
    requires { (connection < connection_room) × ((own.source < output_room) × (own.target < input_room)) }
    ensures { WritesUpdates out.old (send_update connection own old_output ∷ []) out.new }
{
    let flag = flag_var(connection);
    let buffer = buffer_var(own.target);
    let source = output_var(own.source);
    out.copy_when(flag, 1, buffer, source);
}

// Each buffer of a connection of the kind from the thread takes what its output port held before the event.
pub fn put_sends(out: &mut Writer<'_>, model: &[u32], kind: u8, thread: u8)
    requires { GoodTiming (timing_in model.now) }
    ensures { WritesUpdates out.old (send_updates (timing_in model.now) kind thread old_output) out.new }
{
    for connection in 0..connections(model) {
        if is_from(model, connection, kind, thread) {
            let own = connection_at(model, connection);
            put_sent(out, connection as u16, own);
        }
    }
}
