// START's test, told to callers who lend slices: the first step of it that fails, by a model's bytes and a script, or by numbers that the
// caller keeps.

#![tactic(auto)]

ghost use Rattle.futonkestrel_starts.specs.Starts.{TellsStart, TellsStartIn};

use futonkestrel_lending::{number, tell_refusal};
use model_state::STATE_WORDS;
use model_tests::start_fault;
use model_words::MODEL_WORDS;
use numbers::put_item;
use records::Cause;

// In the state that the script leaves, going on after refusals. Of a refused model no step is told.
pub fn start_test(model: &[u8], script: &[u8], thread: u32, length: u32, told: &mut [usize]) -> u32
    ensures { TellsStart model.now script.now thread length told.old result told.new }
{
    let mut words = [0u32; MODEL_WORDS];
    let refusal = model_reader::read_model_into(model, &mut words);
    let result = tell_refusal(told, refusal);
    if !records::is_none(refusal.cause) {
        return result;
    }
    let mut state = [0u32; STATE_WORDS];
    model_runs::run_on_in(&words, &mut state, script);
    let step = start_fault(&words, &state, thread as usize, length);
    put_item(told, 2, step as usize);
    result
}

// In a state that the caller keeps. Numbers that are too few hold none, and no step is told.
pub fn model_start_test(
    words: &[u32],
    state: &[u32],
    thread: u32,
    length: u32,
    told: &mut [usize],
) -> u32
    ensures { TellsStartIn words.now state.now thread length told.old result told.new }
{
    if state.len() < STATE_WORDS {
        return number(Cause::ShortOutput);
    }
    let step = start_fault(words, state, thread as usize, length);
    put_item(told, 0, step as usize);
    number(Cause::None)
}
