// A state as the variables of a table, Due and End among them.

#![tactic(auto)]

ghost use Rattle.std.specs.Prelude.{◌≡◌};
ghost use Rattle.model_state.specs.Words.{state_in};
ghost use Rattle.model_words.specs.Words.{timing_in};
ghost use Rattle.futonkestrel_lending.specs.Lending as lending;
ghost use Rattle.futonkestrel_variables.specs.Shown as shown;

use futonkestrel_lending::put_numbers;
use model_semantics::EXECUTION;
use model_state::{code_of, dispatch_time, has_job, length_of, now_of, spent_of};
use model_words::{thread_at, threads};
use records::Cause;
use table_format::{BEHAVIOR, DUE, END, VARIABLES};

fn due_number(model: &[u32], state: &[u32], t: usize) -> u32
    ensures { result ≡ shown.due_number (timing_in model.now) (state_in state.now) t }
{
    if threads(model) <= t {
        return 0;
    }
    if !has_job(code_of(state, t)) {
        return 0;
    }
    let thread = thread_at(model, t);
    let deadline = thread.deadline;
    let dispatched = dispatch_time(state, t);
    dispatched.0.wrapping_add(deadline.0)
}

fn end_number(model: &[u32], state: &[u32], t: usize) -> u32
    ensures { result ≡ shown.end_number (timing_in model.now) (state_in state.now) t }
{
    if threads(model) <= t {
        return 0;
    }
    if code_of(state, t) != EXECUTION {
        return 0;
    }
    let clock = now_of(state);
    let length = length_of(state, t);
    let spent = spent_of(state, t);
    // Of a job that has gone on for longer, nothing is left.
    clock.0.wrapping_add(length.0.saturating_sub(spent.0))
}

fn number_shown(model: &[u32], state: &[u32], j: u16) -> u32
    ensures { result ≡ lending.numbers_shown (timing_in model.now) (state_in state.now) j }
{
    numbers::bits(translate_shown::shown(model, state, j))
}

fn number_with_times(model: &[u32], state: &[u32], j: u16) -> u32
    ensures { result ≡ shown.shown_with_times (timing_in model.now) (state_in state.now) j }
{
    if j < DUE {
        return number_shown(model, state, j);
    }
    if j < END {
        return due_number(model, state, (j - DUE) as usize);
    }
    if j < BEHAVIOR {
        return end_number(model, state, (j - END) as usize);
    }
    number_shown(model, state, j)
}

fn put_with_times(variables: &mut [u32], model: &[u32], state: &[u32])
    ensures { variables.new ≡ lending.lent_as variables.old (shown.shown_with_times (timing_in model.now) (state_in state.now)) }
{
    put_numbers(variables, |j| number_with_times(model, state, j as u16));
}

pub fn model_variables(model: &[u32], state: &[u32], variables: &mut [u32]) -> Cause
    ensures { (result ≡ shown.shown_answer variables.old) × (variables.new ≡ shown.shown_variables model.now state.now variables.old) }
{
    if variables.len() < VARIABLES {
        return Cause::ShortOutput;
    }
    put_with_times(variables, model, state);
    Cause::None
}
