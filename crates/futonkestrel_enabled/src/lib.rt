// What is enabled, for callers who lend slices: four numbers an event into the output, the count and the tick into what is told.

#![tactic(auto)]

ghost use Rattle.std.specs.Prelude.{◌≡◌, length};
ghost use Rattle.enabled.specs.Enabled.{model_offers, model_may_tick};
ghost use Rattle.enabled.specs.Told.{told_from, list_from};
ghost use Rattle.model_state.specs.Words.{state_words, state_in};
ghost use Rattle.model_words.specs.Words.{timing_in};
ghost use Rattle.table_enabled.specs.EnabledBy.{enabled_by, list_by};
ghost use Rattle.futonkestrel_lending.specs.Lending as lending;

use enabled::Enabled;
use futonkestrel_lending::tell_enabled;
use model_state::STATE_WORDS;
use records::Cause;

// Of a model and a state as lists of numbers. A state's list that is too short has no state, and nothing is enabled.
pub fn model_enabled(words: &[u32], state: &[u32], output: &mut [u32], told: &mut [usize]) -> u32
    ensures { (lending.TellsEnabled (told_from state_words state.now (model_offers (timing_in words.now) (state_in state.now)) (model_may_tick (timing_in words.now) (state_in state.now)) (length output.old)) told.old result told.new) × (output.new ≡ list_from state_words state.now (model_offers (timing_in words.now) (state_in state.now)) output.old) }
{
    if state.len() < STATE_WORDS {
        let nothing = Enabled {
            answer: Cause::ShortOutput,
            count: 0,
            tick: false,
        };
        return tell_enabled(told, nothing);
    }
    let e = model_enabled::enabled_in(words, state, output);
    tell_enabled(told, e)
}

// Of a table and variables, by an index of any content.
pub fn table_enabled(
    table: &[u8],
    index: &[usize],
    variables: &[u32],
    output: &mut [u32],
    told: &mut [usize],
) -> u32
    ensures { (lending.TellsEnabled (enabled_by table.now index.now variables.now (length output.old)) told.old result told.new) × (output.new ≡ list_by table.now index.now variables.now output.old) }
{
    let e = table_enabled::enabled_in(table, index, variables, output);
    tell_enabled(told, e)
}
