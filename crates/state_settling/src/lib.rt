// A list of numbers as the state that it stands for has them. Any number stands for a byte by its remainder, and any but 0 for a mark, so
// that lists which differ can stand for one state; settled, they are the same list. The narrow numbers are stored anew, the others stay.

#![tactic(auto)]

ghost use Rattle.std.specs.Prelude.{◌≡◌, length};
ghost use Rattle.model_state.specs.Words.{byte_in, state_in, state_words};
ghost use Rattle.state_settling.specs.Words.{words_of_state};
ghost use Rattle.state_settling.specs.Passes.{settled_mark, EachSettled};

use model_format::{MAX_CONNECTIONS, MAX_THREADS};
use model_state::CLOCK_WORDS;

// Where the narrow numbers stand: from Mode to the end of the clock, Active and code of each thread, its behaviour state, Flag of each
// connection.
const MODE: usize = 2;

const ACTIVE: usize = CLOCK_WORDS;

const CODE: usize = ACTIVE + MAX_THREADS;

const DISPATCHED: usize = CODE + MAX_THREADS;

const BEHAVIOR: usize = DISPATCHED + 3 * MAX_THREADS;

const MISSED: usize = BEHAVIOR + MAX_THREADS;

const LIVE: usize = MISSED + MAX_THREADS;

const INPUT: usize = LIVE + MAX_CONNECTIONS;

fn byte(number: u32) -> u32
    ensures { result ≡ byte_in number }
{
    number % 256
}

fn mark(number: u32) -> u32
    ensures { result ≡ settled_mark number }
{
    u32::from(number != 0)
}

// Each number of a part, settled.
fn settle_each<F: Fn(u32) -> u32>(part: &mut [u32], settle: F)
    requires { F.IsAlwaysCallable settle }
    ensures { EachSettled (F.post settle) part.old part.new }
{
    for number in part.iter_mut() {
        *number = settle(*number);
    }
}

pub fn settle_state(state: &mut [u32])
    requires { length state.old ≡ state_words }
    ensures { state.new ≡ words_of_state (state_in state.old) }
{
    settle_each(&mut state[MODE..ACTIVE], byte);
    settle_each(&mut state[ACTIVE..CODE], mark);
    settle_each(&mut state[CODE..DISPATCHED], byte);
    settle_each(&mut state[BEHAVIOR..MISSED], byte);
    settle_each(&mut state[LIVE..INPUT], mark);
}
