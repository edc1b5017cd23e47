// The listing of a model's run, written into a lent slice.

#![tactic(auto)]

ghost use Rattle.records.specs.declared.Notation.TheVariants as notations;
ghost use Rattle.model_semantics.specs.State.{now_of};
ghost use Rattle.model_semantics.specs.Machine.{start_state, machine_of, run_model};
ghost use Rattle.model_words.specs.Words.{timing_in, model_in};
ghost use Rattle.listing.specs.Listing.{listing};
ghost use Rattle.listing.specs.Programs.{steps_listing};
ghost use Rattle.listing.specs.Outcomes.{model_outcome};
ghost use Rattle.listing_writer.specs.Prints.{Prints, HandsBack};

use listing_writer::{Printed, put_end, put_event};
use model_state::STATE_WORDS;
use model_words::MODEL_WORDS;
use records::Events;

// The run, event by event, up to the first that is refused.
fn run_listing(m: &[u32], script: &[u8], out: &mut [u8]) -> Printed
    ensures { Prints (listing (machine_of (model_in m.now)) now_of (start_state (timing_in m.now)) script.now) (run_model (model_in m.now) script.now).refusal out.old result out.new }
{
    let mut state = [0u32; STATE_WORDS];
    model_start::start_in(m, &mut state);
    let mut clock = model_state::now_of(&state);
    let mut taken: u64 = 0;
    let mut place = 0;
    for (at, listed) in Events::new(script) {
        let event = listed.event;
        let answer = model_machine::step(m, &mut state, event);
        if !records::is_none(answer) {
            let refusal = records::in_script(answer, at, listed.end);
            return put_end(out, place, taken, refusal, clock.0);
        }
        taken += 1;
        let next = model_state::now_of(&state);
        place = put_event(out, place, taken, next.0, event);
        clock = next;
    }
    put_end(out, place, taken, records::no_refusal(), clock.0)
}

// What `steps` prints: the run of the model that the bytes hold, or the last line alone where the model is refused.
pub fn steps_listing(model: &[u8], script: &[u8], out: &mut [u8]) -> Printed
    ensures { Prints (steps_listing model.now script.now) (model_outcome model.now script.now).refusal out.old result out.new }
{
    let mut words = [0u32; MODEL_WORDS];
    let refusal = model_reader::read_model_into(model, &mut words);
    if records::is_none(refusal.cause) {
        return run_listing(&words, script, out);
    }
    put_end(out, 0, 0, refusal, 0)
}

// The same, and the record that was refused is handed back from the slice that holds it, with the listing's length, the refusal's
// number and its place told.
pub fn steps_part<'a>(
    model: &'a [u8],
    script: &'a [u8],
    out: &mut [u8],
    told: &mut [usize],
) -> &'a [u8]
    ensures { HandsBack notations.Model (steps_listing model.now script.now) (model_outcome model.now script.now).refusal model.now script.now out.old told.old result.now out.new told.new }
{
    let printed = steps_listing(model, script, out);
    listing_writer::tell_printed(told, printed);
    records::part_of(model, script, printed.refusal)
}
