// The model's engine for callers who lend slices. Model and state are lists of numbers of our own, which the engine is lent.

#![tactic(auto)]

ghost use Rattle.std.specs.Prelude.{◌≡◌};
ghost use Rattle.model_words.specs.Words.{timing_in};
ghost use Rattle.model_state.specs.Words.{state_in};
ghost use Rattle.listing.specs.Outcomes.{model_outcome};
ghost use Rattle.futonkestrel_lending.specs.Lending as lending;

use futonkestrel_lending::{put_numbers, tell_run};
use model_state::STATE_WORDS;
use model_words::MODEL_WORDS;
use numbers::bits;
use records::Cause;
use table_format::VARIABLES;

fn put_shown(lent: &mut [u32], m: &[u32], s: &[u32])
    ensures { lent.new ≡ lending.lent_as lent.old (lending.numbers_shown (timing_in m.now) (state_in s.now)) }
{
    put_numbers(lent, |j| bits(translate_shown::shown(m, s, j as u16)));
}

// One event of a model, after a script that goes on after refusals, with the variables of the state that it leaves.
pub fn model_after(model: &[u8], script: &[u8], event: &[u8], lent: &mut [u32]) -> Cause
    ensures { (result ≡ lending.after_answer model.now script.now event.now lent.old) × (lent.new ≡ lending.after_lent model.now script.now event.now lent.old) }
{
    let mut words = [0u32; MODEL_WORDS];
    let cause = model_reader::read_model_into(model, &mut words).cause;
    if !records::is_none(cause) {
        return cause;
    }
    if lent.len() < VARIABLES {
        return Cause::ShortOutput;
    }
    let mut state = [0u32; STATE_WORDS];
    model_runs::run_on_in(&words, &mut state, script);
    let answer = model_machine::step(&words, &mut state, records::event_of(event));
    put_shown(lent, &words, &state);
    answer
}

// The run of a model over a script, up to its first refused event.
pub fn run_model(model: &[u8], script: &[u8], told: &mut [usize]) -> u32
    ensures { lending.TellsOutcome (model_outcome model.now script.now) told.old result told.new }
{
    let mut words = [0u32; MODEL_WORDS];
    let refusal = model_reader::read_model_into(model, &mut words);
    if !records::is_none(refusal.cause) {
        return tell_run(told, refusal, 0, 0);
    }
    let mut state = [0u32; STATE_WORDS];
    let ran = model_runs::run_in(&words, &mut state, script);
    let clock = model_state::now_of(&state);
    tell_run(told, ran.refusal, ran.taken, clock.0)
}
