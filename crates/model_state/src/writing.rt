// A state with one part changed, in place. The length of the list stays.

ghost use Rattle.std.specs.Prelude.{◌≡◌, ℕ, ◌+◌, ◌≤◌, cond, ltb, set, length};
ghost use Rattle.model_format.specs.declared.Timing.{Timing};
ghost use Rattle.model_semantics.specs.State as semantics;
ghost use Rattle.model_state.specs.Words as words;
ghost use Rattle.model_state.specs.Parts as parts;

use crate::layout;
use crate::layout::Array;
use numbers::{Duration, Value, bits, put_item};

fn mark_of(mark: bool) -> u32
    ensures { words.mark_in result ≡ mark }
{
    u32::from(mark)
}

// The number of item i of an array; past its room, nothing is stored.
fn put_number(state: &mut [u32], array: Array, i: usize, number: u32)
    requires { array.from + array.room ≤ words.state_words }
    ensures { state.new ≡ cond (ltb i array.room) (set state.old (array.from + i) number) state.old }
{
    if i < array.room {
        put_item(state, array.from + i, number);
    }
}

// ---- the clock
pub fn put_now(state: &mut [u32], at: Duration)
    requires { words.clock_words ≤ length state.old }
    ensures { (words.state_in state.new ≡ semantics.with_now (words.state_in state.old) at.0) × (state.new ≡ set state.old words.now_place at.0) }
{
    put_item(state, layout::NOW, at.0);
}

pub fn put_entered(state: &mut [u32], at: Duration)
    requires { words.clock_words ≤ length state.old }
    ensures { words.state_in state.new ≡ semantics.with_entered (words.state_in state.old) at.0 }
{
    put_item(state, layout::ENTERED, at.0);
}

pub fn put_mode(state: &mut [u32], mode: u8)
    requires { words.clock_words ≤ length state.old }
    ensures { words.state_in state.new ≡ semantics.with_mode (words.state_in state.old) mode }
{
    put_item(state, layout::MODE, u32::from(mode));
}

fn put_phase_alone(state: &mut [u32], phase: u8)
    requires { words.clock_words ≤ length state.old }
    ensures { words.state_in state.new ≡ semantics.with_phase (words.state_in state.old) phase (words.state_in state.old).clock.pending }
{
    put_item(state, layout::PHASE, u32::from(phase));
}

fn put_pending(state: &mut [u32], pending: u8)
    requires { words.clock_words ≤ length state.old }
    ensures { words.state_in state.new ≡ semantics.with_phase (words.state_in state.old) (words.state_in state.old).clock.phase pending }
{
    put_item(state, layout::PENDING, u32::from(pending));
}

pub fn put_phase(state: &mut [u32], phase: u8, pending: u8)
    requires { words.clock_words ≤ length state.old }
    ensures { words.state_in state.new ≡ semantics.with_phase (words.state_in state.old) phase pending }
{
    put_phase_alone(state, phase);
    put_pending(state, pending);
}

// There is one processor, so it is asked for neither the model nor the thread.
pub fn put_cpu(state: &mut [u32], cpu: u8)
    requires { words.clock_words ≤ length state.old }
    ensures { (m : Timing) (thread : ℕ) → words.state_in state.new ≡ semantics.with_cpu m (words.state_in state.old) thread cpu }
{
    put_item(state, layout::CPU, u32::from(cpu));
}

// ---- by thread
pub fn put_active(state: &mut [u32], thread: usize, active: bool)
    ensures { words.state_in state.new ≡ parts.put_active (words.state_in state.old) thread active }
{
    put_number(state, layout::ACTIVE, thread, mark_of(active));
}

pub fn put_code(state: &mut [u32], thread: usize, code: u8)
    ensures { words.state_in state.new ≡ semantics.with_code (words.state_in state.old) thread code }
{
    put_number(state, layout::CODE, thread, u32::from(code));
}

pub fn put_dispatch_time(state: &mut [u32], thread: usize, at: Duration)
    ensures { words.state_in state.new ≡ semantics.with_dispatch_time (words.state_in state.old) thread at.0 }
{
    put_number(state, layout::DISPATCHED, thread, at.0);
}

fn put_length(state: &mut [u32], thread: usize, length: Duration)
    ensures { words.state_in state.new ≡ parts.with_length (words.state_in state.old) thread length.0 }
{
    put_number(state, layout::LENGTH, thread, length.0);
}

pub fn put_spent(state: &mut [u32], thread: usize, spent: Duration)
    ensures { (words.state_in state.new ≡ semantics.with_spent (words.state_in state.old) thread spent.0) × (state.new ≡ parts.spent_stored state.old thread spent.0) }
{
    put_number(state, layout::SPENT, thread, spent.0);
}

// A job of the given length, of which nothing is spent.
pub fn put_job(state: &mut [u32], thread: usize, length: Duration)
    ensures { words.state_in state.new ≡ semantics.with_job (words.state_in state.old) thread length.0 0 }
{
    put_length(state, thread, length);
    put_spent(state, thread, Duration(0));
}

pub fn put_behavior(state: &mut [u32], thread: usize, to: u8)
    ensures { words.state_in state.new ≡ semantics.with_behavior (words.state_in state.old) thread to }
{
    put_number(state, layout::BEHAVIOR, thread, u32::from(to));
}

pub fn put_missed(state: &mut [u32], thread: usize, count: u32)
    ensures { words.state_in state.new ≡ semantics.with_missed (words.state_in state.old) thread count }
{
    put_number(state, layout::MISSED, thread, count);
}

// ---- by connection
pub fn put_live(state: &mut [u32], connection: usize, live: bool)
    ensures { words.state_in state.new ≡ parts.put_live (words.state_in state.old) connection live }
{
    put_number(state, layout::LIVE, connection, mark_of(live));
}

// ---- by port and local
pub fn put_input(state: &mut [u32], port: usize, value: Value)
    ensures { words.state_in state.new ≡ parts.put_input (words.state_in state.old) port value }
{
    put_number(state, layout::INPUT, port, bits(value));
}

pub fn put_buffer(state: &mut [u32], port: usize, value: Value)
    ensures { words.state_in state.new ≡ parts.put_buffer (words.state_in state.old) port value }
{
    put_number(state, layout::BUFFER, port, bits(value));
}

pub fn put_output(state: &mut [u32], port: usize, value: Value)
    ensures { words.state_in state.new ≡ parts.put_output (words.state_in state.old) port value }
{
    put_number(state, layout::OUTPUT, port, bits(value));
}

pub fn put_local(state: &mut [u32], local: usize, value: Value)
    ensures { words.state_in state.new ≡ parts.put_local (words.state_in state.old) local value }
{
    put_number(state, layout::LOCAL, local, bits(value));
}
