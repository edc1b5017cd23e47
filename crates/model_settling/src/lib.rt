// A list of numbers as the model that it stands for has them: each is cut to its field, so that lists which stand for one model are the same
// list.

#![tactic(auto)]

ghost use Rattle.std.specs.Prelude.{◌≡◌, ◌<◌, length};
ghost use Rattle.model_words.specs.Words.{model_in, model_words};
ghost use Rattle.model_settling.specs.ModelWords.{words_of_model};
ghost use Rattle.model_settling.specs.Cut as cuts;
ghost use Rattle.model_settling.specs.Settled.{ThreadsCut, LinksCut, BehaviorCut};

use model_words::{
    ASSIGNMENTS_FROM, ATOMS_FROM, CONNECTIONS_FROM, INPUTS_FROM, LOCALS_FROM, MODEL_WORDS,
    OUTPUTS_FROM, SWITCHES_FROM, THREADS_FROM, TRANSITIONS_FROM,
};

// What a number is cut to: the numbers of a byte, of two bytes, or nothing.
const BYTE: u32 = 256;

const SHORT: u32 = 65536;

const WHOLE: u32 = 0;

fn cut(number: u32, width: u32) -> u32
    ensures { result ≡ cuts.cut_to width number }
{
    if width == 0 { number } else { number % width }
}

// Each number of items that stand one after the other, cut to the width of its field.
fn cut_items(items: &mut [u32], widths: &[u32])
    requires { 0 < length widths.now }
    ensures { cuts.CutBy widths.now items.old items.new }
{
    for (i, number) in items.iter_mut().enumerate() {
        *number = cut(*number, widths[i % widths.len()]);
    }
}

// The head, the threads and the ports of a model, whatever list the parts before them were made of.
fn cut_threads(model: &mut [u32])
    requires { length model.old ≡ model_words }
    ensures { ThreadsCut model.old model.new }
{
    let head = [BYTE, BYTE, WHOLE, WHOLE, WHOLE, WHOLE, WHOLE, WHOLE, WHOLE];
    let thread = [WHOLE, WHOLE, WHOLE, WHOLE, BYTE, BYTE, BYTE];
    let input = [BYTE, WHOLE];
    let owner = [BYTE];
    cut_items(&mut model[0..THREADS_FROM], &head);
    cut_items(&mut model[THREADS_FROM..INPUTS_FROM], &thread);
    cut_items(&mut model[INPUTS_FROM..OUTPUTS_FROM], &input);
    cut_items(&mut model[OUTPUTS_FROM..LOCALS_FROM], &owner);
}

// Its locals, connections and mode transitions.
fn cut_links(model: &mut [u32])
    requires { length model.old ≡ model_words }
    ensures { LinksCut model.old model.new }
{
    let local = [BYTE, WHOLE];
    let connection = [BYTE, SHORT, SHORT, BYTE];
    let switch = [BYTE, BYTE, WHOLE, WHOLE];
    cut_items(&mut model[LOCALS_FROM..CONNECTIONS_FROM], &local);
    cut_items(&mut model[CONNECTIONS_FROM..SWITCHES_FROM], &connection);
    cut_items(&mut model[SWITCHES_FROM..TRANSITIONS_FROM], &switch);
}

// Its transitions with their atoms and assignments.
fn cut_behavior(model: &mut [u32])
    requires { length model.old ≡ model_words }
    ensures { BehaviorCut model.old model.new }
{
    let transition = [BYTE, BYTE, BYTE, BYTE, BYTE];
    let atom = [BYTE, BYTE, SHORT, BYTE, WHOLE];
    let assignment = [BYTE, SHORT, BYTE, BYTE, WHOLE, BYTE, WHOLE];
    cut_items(&mut model[TRANSITIONS_FROM..ATOMS_FROM], &transition);
    cut_items(&mut model[ATOMS_FROM..ASSIGNMENTS_FROM], &atom);
    cut_items(&mut model[ASSIGNMENTS_FROM..MODEL_WORDS], &assignment);
}

pub fn settle_model(model: &mut [u32])
    requires { length model.old ≡ model_words }
    ensures { model.new ≡ words_of_model (model_in model.old) }
{
    cut_threads(model);
    cut_links(model);
    cut_behavior(model);
}
