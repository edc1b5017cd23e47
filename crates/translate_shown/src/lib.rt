// What a variable of the table stands for in a state of the model, block by block. Model and state are lent lists of numbers.

#![tactic(auto)]

ghost use Rattle.std.specs.Prelude.{◌≡◌, ◌-◌};
ghost use Rattle.numbers.specs.Values.{bits_of, natural};
ghost use Rattle.model_state.specs.Words.{state_in};
ghost use Rattle.model_words.specs.Words.{timing_in};
ghost use Rattle.translation.specs.Shown.{bit, in_block, clock_number, stands_for};
ghost use Rattle.translate_shown.specs.Standing.{is_shown};
ghost use Rattle.translate_shown.specs.Blocks as blocks;

use model_semantics::Clock;
use model_state::{
    behavior_of, buffer_value, clock_of, code_of, dispatch_time, input_value, is_active, is_live,
    local_value, missed_of, output_value,
};
use model_words::{connections, inputs, locals, outputs, threads};
use numbers::Value;
use table_format::{
    ACTIVE, BEHAVIOR, BUFFER, CLOCK_VARIABLES, DISPATCH_TIME, ENTERED, FLAG, INPUT, LOCAL, MISSED,
    MODE, NOW, OUTPUT, PENDING, PHASE, STATE,
};

fn in_block(base: u16, count: usize, variable: u16) -> bool
    ensures { result ≡ in_block base count variable }
{
    if variable < base {
        return false;
    }
    ((variable - base) as usize) < count
}

// The item that a variable of a block belongs to.
fn item_of(base: u16, variable: u16) -> usize
    ensures { result ≡ variable - base }
{
    usize::from(variable.saturating_sub(base))
}

fn count(number: u32) -> Value
    ensures { blocks.SameBits result (natural number) }
{
    numbers::value_of(number)
}

fn mark(holds: bool) -> Value
    ensures { blocks.SameBits result (natural (bit holds)) }
{
    if holds { Value(1) } else { Value(0) }
}

// The six variables of the clock.
fn of_clock(clock: Clock, variable: u16) -> u32
    ensures { result ≡ clock_number clock variable }
{
    match variable {
        NOW => clock.now.0,
        MODE => u32::from(clock.mode),
        PHASE => u32::from(clock.phase),
        PENDING => u32::from(clock.pending),
        ENTERED => clock.entered.0,
        _ => u32::from(clock.cpu),
    }
}

fn of_port(model: &[u32], state: &[u32], variable: u16) -> Value
    ensures { blocks.SameBits result (blocks.port_shown (timing_in model.now) (state_in state.now) variable) }
{
    if in_block(INPUT, inputs(model), variable) {
        return input_value(state, item_of(INPUT, variable));
    }
    if in_block(BUFFER, inputs(model), variable) {
        return buffer_value(state, item_of(BUFFER, variable));
    }
    if in_block(OUTPUT, outputs(model), variable) {
        return output_value(state, item_of(OUTPUT, variable));
    }
    if in_block(LOCAL, locals(model), variable) {
        return local_value(state, item_of(LOCAL, variable));
    }
    Value(0)
}

fn of_count(model: &[u32], state: &[u32], variable: u16) -> Value
    ensures { blocks.SameBits result (blocks.count_shown (timing_in model.now) (state_in state.now) variable) }
{
    if in_block(BEHAVIOR, threads(model), variable) {
        return count(behavior_of(state, item_of(BEHAVIOR, variable)) as u32);
    }
    if in_block(MISSED, threads(model), variable) {
        return count(missed_of(state, item_of(MISSED, variable)));
    }
    if in_block(FLAG, connections(model), variable) {
        return mark(is_live(state, item_of(FLAG, variable)));
    }
    of_port(model, state, variable)
}

fn of_thread(model: &[u32], state: &[u32], variable: u16) -> Value
    ensures { blocks.SameBits result (blocks.thread_shown (timing_in model.now) (state_in state.now) variable) }
{
    if in_block(ACTIVE, threads(model), variable) {
        return mark(is_active(state, item_of(ACTIVE, variable)));
    }
    if in_block(STATE, threads(model), variable) {
        return count(code_of(state, item_of(STATE, variable)) as u32);
    }
    if in_block(DISPATCH_TIME, threads(model), variable) {
        let time = dispatch_time(state, item_of(DISPATCH_TIME, variable));
        return count(time.0);
    }
    of_count(model, state, variable)
}

// By its bits, which determine it: a clock figure may lie past the largest value.
pub fn shown(model: &[u32], state: &[u32], variable: u16) -> Value
    ensures { bits_of result.0 ≡ bits_of (stands_for (timing_in model.now) (state_in state.now) variable).0 }
{
    if variable < CLOCK_VARIABLES {
        return count(of_clock(clock_of(state), variable));
    }
    of_thread(model, state, variable)
}

// The variable stands for something.
pub fn is_shown(model: &[u32], variable: u16) -> bool
    ensures { result ≡ is_shown (timing_in model.now) variable }
{
    let threads = threads(model);
    let inputs = inputs(model);
    let connections = connections(model);
    let outputs = outputs(model);
    let locals = locals(model);
    let ports = in_block(INPUT, inputs, variable)
        | (in_block(BUFFER, inputs, variable)
            | (in_block(OUTPUT, outputs, variable) | in_block(LOCAL, locals, variable)));
    let counts = in_block(BEHAVIOR, threads, variable)
        | (in_block(MISSED, threads, variable) | (in_block(FLAG, connections, variable) | ports));
    (variable < CLOCK_VARIABLES)
        | (in_block(ACTIVE, threads, variable)
            | (in_block(STATE, threads, variable)
                | (in_block(DISPATCH_TIME, threads, variable) | counts)))
}
