// The record of a part of the bytes, taken into a model.

ghost use Rattle.std.specs.Prelude.{◌≡◌, ◌<◌, ◌≤◌, length};
ghost use Rattle.records.specs.declared.Notation.TheVariants as notations;
ghost use Rattle.records.specs.Format.{record_size};
ghost use Rattle.model_format.specs.Format as format;
ghost use Rattle.model_words.specs.Words as words;
ghost use Rattle.model_takes.specs.Took.{Took};

use model_format::{
    assignment_of, atom_of, connection_of, head_of, input_of, owned_of, switch_of, thread_of,
    transition_of,
};
use model_takes::{Input, Local, Output, take, take_switch};
use numbers::item_or;
use records::{
    Cause, MODEL_ASSIGNMENT, MODEL_ASSIGNMENT_SIZE, MODEL_ATOM, MODEL_ATOM_SIZE, MODEL_CONNECTION,
    MODEL_CONNECTION_SIZE, MODEL_HEAD, MODEL_HEAD_SIZE, MODEL_INPUT, MODEL_LOCAL, MODEL_LOCAL_SIZE,
    MODEL_OUTPUT, MODEL_PORT_SIZE, MODEL_SWITCH, MODEL_SWITCH_SIZE, MODEL_THREAD,
    MODEL_THREAD_SIZE, MODEL_TRANSITION, MODEL_TRANSITION_SIZE, MODEL_WRITTEN_INPUT,
    MODEL_WRITTEN_INPUT_SIZE,
};

// A record that has the whole of its body: adds it to the model, or tells why it is refused. The part is as long as its kind fixes; cut to that number, which
// is a constant, it has no byte that must be looked for. A part of no kind is empty and does not come here; with an arm for each of the eleven kinds the
// compiler sees that, and does not test the kind again.
pub fn take_whole(model: &mut [u32], last: u8, kind: u8, part: &[u8]) -> Cause
    requires whole_model { words.model_words ≤ length model.old }
    requires whole_part { (length part.now ≡ record_size notations.Model kind) × (0 < length part.now) }
    ensures { Took last model.old (format.record_of_whole kind part.now) result model.new }
{
    match kind {
        MODEL_HEAD => take(model, last, head_of(&part[..MODEL_HEAD_SIZE])),
        MODEL_THREAD => take(model, last, thread_of(&part[..MODEL_THREAD_SIZE])),
        MODEL_INPUT => take(model, last, Input(input_of(&part[..MODEL_PORT_SIZE]))),
        MODEL_WRITTEN_INPUT => take(
            model,
            last,
            Input(owned_of(&part[..MODEL_WRITTEN_INPUT_SIZE])),
        ),
        MODEL_OUTPUT => take(model, last, Output(item_or(&part[..MODEL_PORT_SIZE], 1, 0))),
        MODEL_LOCAL => take(model, last, Local(owned_of(&part[..MODEL_LOCAL_SIZE]))),
        MODEL_CONNECTION => take(model, last, connection_of(&part[..MODEL_CONNECTION_SIZE])),
        MODEL_SWITCH => take_switch(model, last, switch_of(&part[..MODEL_SWITCH_SIZE])),
        MODEL_TRANSITION => take(model, last, transition_of(&part[..MODEL_TRANSITION_SIZE])),
        MODEL_ATOM => take(model, last, atom_of(&part[..MODEL_ATOM_SIZE])),
        MODEL_ASSIGNMENT => take(model, last, assignment_of(&part[..MODEL_ASSIGNMENT_SIZE])),
        _ => Cause::WrongKind,
    }
}
