// Ticks that pass at once, and TICK, all of its ticks or none.

#![tactic(auto)]

mod calm;
mod quiet;

ghost use Rattle.std.specs.Prelude.{◌≡◌, List, ℕ, ◌+◌, ◌≤◌, length, get_or};
ghost use Rattle.records.specs.Events.{last_clock};
ghost use Rattle.model_semantics.specs.Machine as machine;
ghost use Rattle.model_semantics.specs.State.{now_of};
ghost use Rattle.model_state.specs.Parts.{BesideTime, SpentWords};
ghost use Rattle.model_state.specs.Words.{state_in, clock_words, now_place};
ghost use Rattle.model_words.specs.Words.{timing_in};
ghost use Rattle.model_time.specs.Quiet as quiet;
ghost use Rattle.model_time.specs.Answers.{Answers};
ghost use Rattle.model_time.specs.Passing as passing;

use crate::quiet::quiet_ticks;
use model_format::MAX_THREADS;
use model_semantics::EXECUTION;
use model_state::{code_of, now_of, put_now, put_spent, put_time_back, spent_of, spent_words};
use model_tests::is_busy;
use model_words::threads;
use numbers::Duration;
use records::{Cause, LAST_CLOCK};

fn spend(state: &mut [u32], t: usize, q: u32)
    ensures { (state_in state.new ≡ passing.spend (state_in state.old) t q) × BesideTime state.old state.new }
{
    if code_of(state, t) == EXECUTION {
        let spent = spent_of(state, t).0.saturating_add(q);
        put_spent(state, t, Duration(spent));
    }
}

// Spent of each thread, q more where it runs.
fn spend_all(model: &[u32], state: &mut [u32], q: u32)
    ensures { (state_in state.new ≡ passing.spent_below (state_in state.old) q (timing_in model.now).threads) × BesideTime state.old state.new }
{
    let count = threads(model).min(MAX_THREADS);
    for t in 0..count {
        spend(state, t, q);
    }
}

// The state q ticks later.
fn pass(model: &[u32], state: &mut [u32], q: u32)
    requires { (clock_words ≤ length state.old) × (now_of (state_in state.old) + q ≤ last_clock) }
    ensures { (state_in state.new ≡ quiet.later (timing_in model.now) q (state_in state.old)) × BesideTime state.old state.new }
{
    let before = now_of(state);
    spend_all(model, state, q);
    put_now(state, Duration(before.0 + q));
}

// The ticks that have passed are taken back: the clock and Spent are as they were.
fn refused(state: &mut [u32], clock: Duration, kept: [u32; MAX_THREADS], cause: Cause) -> Cause
    ensures { (result ≡ cause) × ((l : List ℕ) → BesideTime l state.old → clock.0 ≡ get_or l now_place 0 → SpentWords l kept → state.new ≡ l) }
{
    put_time_back(state, clock, kept);
    cause
}

// TICK n. Those that are quiet pass at once.
pub fn ticks(model: &[u32], state: &mut [u32], n: u32) -> Cause
    requires { clock_words ≤ length state.old }
    ensures { Answers result state.old state.new (machine.ticks (timing_in model.now) (state_in state.old) n (state_in state.old)) }
{
    let first = now_of(state);
    let kept = spent_words(state);
    let mut left = n;
    while 0 < left {
        if is_busy(model, state) {
            return refused(state, first, kept, Cause::NotEnabled);
        }
        let clock = now_of(state);
        if LAST_CLOCK <= clock.0 {
            return refused(state, first, kept, Cause::LastClock);
        }
        let q = quiet_ticks(model, state, left.min(LAST_CLOCK - clock.0));
        pass(model, state, q);
        left -= q;
    }
    Cause::None
}
