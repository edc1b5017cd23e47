// Which threads a connection joins.

ghost use Rattle.std.specs.Prelude.{◌≡◌, ◌&&◌, eqb};
ghost use Rattle.model_format.specs.Model.{is_kind, source_thread, target_thread};
ghost use Rattle.model_words.specs.Words.{timing_in};

use model_words::{connection_at, input_owner, output_owner};

pub fn source_thread(model: &[u32], connection: usize) -> u8
    ensures { result ≡ source_thread (timing_in model.now) connection }
{
    let own = connection_at(model, connection);
    output_owner(model, own.source as usize)
}

// It is of the kind and into the thread.
pub fn is_into(model: &[u32], connection: usize, kind: u8, thread: u8) -> bool
    ensures { result ≡ (is_kind (timing_in model.now) kind connection && eqb (target_thread (timing_in model.now) connection) thread) }
{
    let own = connection_at(model, connection);
    let target = input_owner(model, own.target as usize);
    (own.kind == kind) & (target == thread)
}

// It is of the kind and from the thread.
pub fn is_from(model: &[u32], connection: usize, kind: u8, thread: u8) -> bool
    ensures { result ≡ (is_kind (timing_in model.now) kind connection && eqb (source_thread (timing_in model.now) connection) thread) }
{
    let own = connection_at(model, connection);
    let source = output_owner(model, own.source as usize);
    (own.kind == kind) & (source == thread)
}
