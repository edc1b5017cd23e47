// What the events of a thread do.

#![tactic(auto)]

ghost use Rattle.std.specs.Prelude.{◌≡◌, ◌≤◌, length};
ghost use Rattle.model_format.specs.declared.Timing.{Timing};
ghost use Rattle.model_semantics.specs.Effects as effects;
ghost use Rattle.model_state.specs.Words.{state_in, clock_words};
ghost use Rattle.model_words.specs.Words.{timing_in};
ghost use Rattle.model_effects.specs.Events as events;

use model_format::DELAYED;
use model_ports::{freeze, send};
use model_semantics::{EXECUTION, NONE, WAITING_DISPATCH, WAITING_EXECUTION, WAITING_MODE};
use model_state::{
    code_of, has_job, is_active, missed_of, now_of, put_code, put_cpu, put_dispatch_time, put_job,
    put_missed,
};
use numbers::{Duration, one_more};

pub fn dispatch(model: &[u32], state: &mut [u32], t: usize)
    ensures { state_in state.new ≡ effects.dispatch (timing_in model.now) (state_in state.old) t }
{
    let now = now_of(state);
    freeze(model, state, false, t);
    put_code(state, t, WAITING_EXECUTION);
    put_dispatch_time(state, t, now);
}

// The processor holds the thread's number, a byte.
pub fn start(model: &[u32], state: &mut [u32], id: u8, time: u32)
    requires { clock_words ≤ length state.old }
    ensures { state_in state.new ≡ effects.start (timing_in model.now) (state_in state.old) id time }
{
    let t = usize::from(id);
    freeze(model, state, true, t);
    put_code(state, t, EXECUTION);
    put_cpu(state, id);
    put_job(state, t, Duration(time));
}

// ---- the end of a job
fn free_cpu(state: &mut [u32], ran: bool)
    requires { clock_words ≤ length state.old }
    ensures { state_in state.new ≡ events.freed (state_in state.old) ran }
{
    if ran {
        put_cpu(state, NONE);
    }
}

// There is one processor, so the model is not asked which it is.
pub fn end_job(state: &mut [u32], t: usize, code: u8)
    requires { clock_words ≤ length state.old }
    ensures { (timing : Timing) → state_in state.new ≡ effects.end_job timing (state_in state.old) t code }
{
    let was = code_of(state, t);
    free_cpu(state, was == EXECUTION);
    put_code(state, t, code);
    put_job(state, t, Duration(0));
}

fn rest_code(state: &[u32], t: usize) -> u8
    ensures { result ≡ effects.rest_code (state_in state.now) t }
{
    if is_active(state, t) {
        WAITING_DISPATCH
    } else {
        WAITING_MODE
    }
}

// A thread that leaves its mode takes no job along: one in hand ends, and nothing of it is sent.
pub fn deactivate(state: &mut [u32], t: usize)
    requires { clock_words ≤ length state.old }
    ensures { (timing : Timing) → state_in state.new ≡ effects.deactivate timing (state_in state.old) t }
{
    if has_job(code_of(state, t)) {
        end_job(state, t, WAITING_MODE);
    } else {
        put_code(state, t, WAITING_MODE);
    }
}

pub fn meet_deadline(model: &[u32], state: &mut [u32], t: usize)
    ensures { state_in state.new ≡ effects.meet_deadline (timing_in model.now) (state_in state.old) t }
{
    let code = rest_code(state, t);
    send(model, state, DELAYED, t);
    put_code(state, t, code);
}

pub fn miss(state: &mut [u32], t: usize)
    requires { clock_words ≤ length state.old }
    ensures { (timing : Timing) → state_in state.new ≡ effects.miss timing (state_in state.old) t }
{
    let missed = one_more(missed_of(state, t));
    let code = rest_code(state, t);
    end_job(state, t, code);
    put_missed(state, t, missed);
}
