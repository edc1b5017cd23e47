// The start records of a table, written into a lent slice. Model and state are lent lists of numbers.

#![tactic(auto)]

ghost use Rattle.model_state.specs.Words.{state_in};
ghost use Rattle.model_words.specs.Words.{timing_in, model_in};
ghost use Rattle.table_format.specs.Variables.{variables};
ghost use Rattle.translation.specs.Translate.{initial_of};
ghost use Rattle.table_writer.specs.Writes.{WritesInitial};
ghost use Rattle.translate_starts.specs.Starts.{start, starts_in};

use model_start::start_in;
use model_state::STATE_WORDS;
use numbers::Value;
use table_format::InitialValue;
use table_writer::Writer;
use translate_shown::{is_shown, shown};

const VARIABLES: u16 = table_format::VARIABLES as u16;

// Blocks begin at multiples of it.
const BLOCK: u16 = 16;

// A variable, unless its value is 0.
fn put_start(out: &mut Writer<'_>, variable: u16, value: Value)
    ensures { WritesInitial out.old (start variable value) out.new }
{
    if value != Value(0) {
        out.initial(InitialValue { variable, value });
    }
}

// A start record for each variable that is not 0 in a state. Behind one that stands for nothing, the others before the
// next block do so too.
fn put_starts(out: &mut Writer<'_>, model: &[u32], state: &[u32])
    ensures { WritesInitial out.old (starts_in (timing_in model.now) (state_in state.now) variables) out.new }
{
    let mut variable: u16 = 0;
    while variable < VARIABLES {
        if is_shown(model, variable) {
            let value = shown(model, state, variable);
            put_start(out, variable, value);
            variable += 1;
        } else {
            variable = variable / BLOCK * BLOCK + BLOCK;
        }
    }
}

// A start record for each variable that is not 0 at the start.
pub fn put_initial_values(out: &mut Writer<'_>, model: &[u32])
    ensures { WritesInitial out.old (initial_of (model_in model.now)) out.new }
{
    let mut state = [0u32; STATE_WORDS];
    start_in(model, &mut state);
    put_starts(out, model, &state);
}
