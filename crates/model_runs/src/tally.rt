// A run that goes on after refusals.

ghost use Rattle.std.specs.Prelude.{◌≡◌, ◌≤◌, length};
ghost use Rattle.records.specs.Run.{tally};
ghost use Rattle.model_semantics.specs.Machine as machine;
ghost use Rattle.model_state.specs.Words.{state_in, state_words};
ghost use Rattle.model_words.specs.Words.{model_in};
ghost use Rattle.model_runs.specs.Runs as runs;

use crate::Counts;
use model_machine::step;
use model_start::start_in;
use records::{Events, is_none};

// The run of a model over a whole script: the event after a refused one meets the state that was there before.
pub fn run_on_in(model: &[u32], state: &mut [u32], script: &[u8]) -> Counts
    requires { state_words ≤ length state.old }
    ensures { runs.tally_in result state.new ≡ tally (machine.machine_of (model_in model.now)) (machine.start_state (model_in model.now).timing) script.now }
{
    start_in(model, state);
    let mut taken: usize = 0;
    let mut refused: usize = 0;
    for (_, listed) in Events::new(script) {
        let answer = step(model, state, listed.event);
        if is_none(answer) {
            taken += 1;
        } else {
            refused += 1;
        }
    }
    Counts { taken, refused }
}
