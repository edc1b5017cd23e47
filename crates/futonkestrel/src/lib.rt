// The static library: what programs in C and other languages call. Each function takes slices (in C a pointer and a count) and has no
// condition on what they hold.

#![tactic(auto)]

ghost use Rattle.std.specs.Prelude.{◌≡◌, length};
ghost use Rattle.std.proofs.lemmas.List.Edits.{sets};
ghost use Rattle.records.specs.declared.Notation.TheVariants as notations;
ghost use Rattle.records.specs.Format.{part_length_at};
ghost use Rattle.records.specs.Refusals.{number_of};
ghost use Rattle.model_format.specs.Reading.{read_model};
ghost use Rattle.table_format.specs.Reading.{read_table};
ghost use Rattle.table_index.specs.Index.{index_of, index_size};
ghost use Rattle.table_writer.specs.Wrote.{Wrote};
ghost use Rattle.listing.specs.Programs.{steps_listing, table_listing};
ghost use Rattle.listing.specs.Outcomes.{model_outcome, table_outcome};
ghost use Rattle.table_enabled.specs.EnabledBy.{enabled_by, list_by};
ghost use Rattle.futonkestrel_lending.specs.Lending as lending;
ghost use Rattle.futonkestrel_reading.specs.Reading as reading;
ghost use Rattle.futonkestrel_states.specs.States as states;
ghost use Rattle.futonkestrel_variables.specs.Shown as shown;
ghost use Rattle.model_state.specs.Words.{state_words, state_in};
ghost use Rattle.model_words.specs.Words.{model_words, timing_in};
ghost use Rattle.enabled.specs.Enabled.{model_offers, model_may_tick};
ghost use Rattle.enabled.specs.Told.{told_from, list_from};
ghost use Rattle.futonkestrel_sizes.specs.Sizes.{TellsSize};
ghost use Rattle.futonkestrel_starts.specs.Starts as starts;
ghost use Rattle.futonkestrel.specs.Exports.{Exports};

// ---- reading
#[unsafe(no_mangle)]
pub extern "C" fn fk_read_model(model: &[u8], told: &mut [usize]) -> u32
    ensures { lending.Tells (read_model model.now).refusal.cause (lending.told_refusal (read_model model.now).refusal) told.old result told.new }
{
    let f = model_reader::judge_model(model);
    futonkestrel_lending::tell_refusal(told, f)
}

#[unsafe(no_mangle)]
pub extern "C" fn fk_read_table(table: &[u8], told: &mut [usize]) -> u32
    ensures { lending.Tells (read_table table.now).cause (lending.told_refusal (read_table table.now)) told.old result told.new }
{
    let f = table_faults::read_table(table);
    futonkestrel_lending::tell_refusal(told, f)
}

// ---- translating
#[unsafe(no_mangle)]
pub extern "C" fn fk_translate(model: &[u8], output: &mut [u8], told: &mut [usize]) -> u32
    ensures { Exports model.now output.old output.new told.old result told.new }
{
    let t = translator::translate(model, output);
    futonkestrel_lending::tell_translation(told, t)
}

// How long the table of a model is, and how many records it has, before it is made.
#[unsafe(no_mangle)]
pub extern "C" fn fk_table_size(model: &[u8], told: &mut [usize]) -> u32
    ensures { TellsSize model.now told.old result told.new }
{
    futonkestrel_sizes::table_size(model, told)
}

// ---- listings
#[unsafe(no_mangle)]
pub extern "C" fn fk_model_listing(model: &[u8], script: &[u8], output: &mut [u8]) -> usize
    ensures { Wrote output.old 0 (steps_listing model.now script.now) output.new result }
{
    let r = listing_model::steps_listing(model, script, output);
    r.length
}

#[unsafe(no_mangle)]
pub extern "C" fn fk_table_listing(table: &[u8], script: &[u8], output: &mut [u8]) -> usize
    ensures { Wrote output.old 0 (table_listing table.now script.now) output.new result }
{
    let r = listing_table::table_listing(table, script, output);
    r.length
}

// ---- runs
#[unsafe(no_mangle)]
pub extern "C" fn fk_run_model(model: &[u8], script: &[u8], told: &mut [usize]) -> u32
    ensures { lending.TellsOutcome (model_outcome model.now script.now) told.old result told.new }
{
    futonkestrel_models::run_model(model, script, told)
}

#[unsafe(no_mangle)]
pub extern "C" fn fk_run_table(table: &[u8], script: &[u8], told: &mut [usize]) -> u32
    ensures { lending.TellsOutcome (table_outcome table.now script.now) told.old result told.new }
{
    futonkestrel_tables::run_table(table, script, told)
}

// ---- events one by one
#[unsafe(no_mangle)]
pub extern "C" fn fk_event_length(script: &[u8]) -> usize
    ensures { result ≡ part_length_at notations.Script script.now 0 }
{
    futonkestrel_lending::event_length(script)
}

#[unsafe(no_mangle)]
pub extern "C" fn fk_table_start(table: &[u8], variables: &mut [u32]) -> u32
    ensures { (result ≡ number_of (lending.start_answer table.now variables.old)) × (variables.new ≡ lending.start_lent table.now variables.old) }
{
    let c = futonkestrel_tables::table_start(table, variables);
    futonkestrel_lending::number(c)
}

// The index of a table, as far as there is room, by which events find their rules. It tells how many numbers list all.
#[unsafe(no_mangle)]
pub extern "C" fn fk_table_index(table: &[u8], index: &mut [usize]) -> usize
    ensures { (result ≡ index_size table.now) × (index.new ≡ sets index.old 0 (index_of table.now (length index.old))) }
{
    futonkestrel_tables::table_index(table, index)
}

// One event by an index of any content: by none, the table is walked.
#[unsafe(no_mangle)]
pub extern "C" fn fk_table_step(
    table: &[u8],
    index: &[usize],
    variables: &mut [u32],
    event: &[u8],
) -> u32
    ensures { (result ≡ number_of (lending.step_answer table.now index.now variables.old event.now)) × (variables.new ≡ lending.step_lent table.now index.now variables.old event.now) }
{
    let c = futonkestrel_tables::table_step(table, index, variables, event);
    futonkestrel_lending::number(c)
}

#[unsafe(no_mangle)]
pub extern "C" fn fk_model_after(
    model: &[u8],
    script: &[u8],
    event: &[u8],
    variables: &mut [u32],
) -> u32
    ensures { (result ≡ number_of (lending.after_answer model.now script.now event.now variables.old)) × (variables.new ≡ lending.after_lent model.now script.now event.now variables.old) }
{
    let c = futonkestrel_models::model_after(model, script, event, variables);
    futonkestrel_lending::number(c)
}

// ---- a model and a state in numbers that the caller keeps
// How many numbers a model takes, and a state.
#[unsafe(no_mangle)]
pub extern "C" fn fk_model_words() -> usize
    ensures { result ≡ model_words }
{
    futonkestrel_reading::model_words()
}

#[unsafe(no_mangle)]
pub extern "C" fn fk_state_words() -> usize
    ensures { result ≡ state_words }
{
    futonkestrel_states::state_words()
}

#[unsafe(no_mangle)]
pub extern "C" fn fk_model_read(model: &[u8], words: &mut [u32], told: &mut [usize]) -> u32
    ensures { reading.ReadsModel model.now words.old words.new told.old result told.new }
{
    futonkestrel_reading::model_read(model, words, told)
}

#[unsafe(no_mangle)]
pub extern "C" fn fk_model_start(words: &[u32], state: &mut [u32]) -> u32
    ensures { (result ≡ number_of (states.started_answer state.old)) × (state.new ≡ states.started_state words.now state.old) }
{
    let c = futonkestrel_states::model_start(words, state);
    futonkestrel_lending::number(c)
}

#[unsafe(no_mangle)]
pub extern "C" fn fk_model_step(words: &[u32], state: &mut [u32], event: &[u8]) -> u32
    ensures { (result ≡ number_of (states.stepped_answer words.now state.old event.now)) × (state.new ≡ states.stepped_state words.now state.old event.now) }
{
    let c = futonkestrel_states::model_step(words, state, event);
    futonkestrel_lending::number(c)
}

#[unsafe(no_mangle)]
pub extern "C" fn fk_model_variables(words: &[u32], state: &[u32], variables: &mut [u32]) -> u32
    ensures { (result ≡ number_of (shown.shown_answer variables.old)) × (variables.new ≡ shown.shown_variables words.now state.now variables.old) }
{
    let c = futonkestrel_variables::model_variables(words, state, variables);
    futonkestrel_lending::number(c)
}

// ---- START's test
// The first step that fails, 1 state, 2 processor, 3 connections, 4 length, or 0: in the state that a script leaves, or in one that is kept.
#[unsafe(no_mangle)]
pub extern "C" fn fk_start_test(
    model: &[u8],
    script: &[u8],
    thread: u32,
    length: u32,
    told: &mut [usize],
) -> u32
    ensures { starts.TellsStart model.now script.now thread length told.old result told.new }
{
    futonkestrel_starts::start_test(model, script, thread, length, told)
}

#[unsafe(no_mangle)]
pub extern "C" fn fk_model_start_test(
    words: &[u32],
    state: &[u32],
    thread: u32,
    length: u32,
    told: &mut [usize],
) -> u32
    ensures { starts.TellsStartIn words.now state.now thread length told.old result told.new }
{
    futonkestrel_starts::model_start_test(words, state, thread, length, told)
}

// ---- what is enabled
// Of a model and a state as lists of numbers: four numbers an event into the output, the count and the tick into what is told.
#[unsafe(no_mangle)]
pub extern "C" fn fk_model_enabled(
    words: &[u32],
    state: &[u32],
    output: &mut [u32],
    told: &mut [usize],
) -> u32
    ensures { (lending.TellsEnabled (told_from state_words state.now (model_offers (timing_in words.now) (state_in state.now)) (model_may_tick (timing_in words.now) (state_in state.now)) (length output.old)) told.old result told.new) × (output.new ≡ list_from state_words state.now (model_offers (timing_in words.now) (state_in state.now)) output.old) }
{
    futonkestrel_enabled::model_enabled(words, state, output, told)
}

// Of a table and variables, by an index of any content: the same.
#[unsafe(no_mangle)]
pub extern "C" fn fk_table_enabled(
    table: &[u8],
    index: &[usize],
    variables: &[u32],
    output: &mut [u32],
    told: &mut [usize],
) -> u32
    ensures { (lending.TellsEnabled (enabled_by table.now index.now variables.now (length output.old)) told.old result told.new) × (output.new ≡ list_by table.now index.now variables.now output.old) }
{
    futonkestrel_enabled::table_enabled(table, index, variables, output, told)
}
