// A run up to the first refusal.

ghost use Rattle.std.specs.Prelude.{◌≡◌, ◌≤◌, length};
ghost use Rattle.model_semantics.specs.Machine as machine;
ghost use Rattle.model_state.specs.Words.{state_in, state_words};
ghost use Rattle.model_words.specs.Words.{model_in};
ghost use Rattle.model_runs.specs.Runs as runs;

use crate::Stop;
use model_machine::step;
use model_start::start_in;
use records::{Events, in_script, is_none, no_refusal};

// The run of a model over a script, up to its first refused event.
pub fn run_in(model: &[u32], state: &mut [u32], script: &[u8]) -> Stop
    requires { state_words ≤ length state.old }
    ensures { runs.ended_in result state.new ≡ machine.run_model (model_in model.now) script.now }
{
    start_in(model, state);
    let mut taken: usize = 0;
    for (at, listed) in Events::new(script) {
        let answer = step(model, state, listed.event);
        if !is_none(answer) {
            let refusal = in_script(answer, at, listed.end);
            return Stop { taken, refusal };
        }
        taken += 1;
    }
    let refusal = no_refusal();
    Stop { taken, refusal }
}
