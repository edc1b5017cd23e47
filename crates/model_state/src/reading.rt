// The parts of a state, each by one number of its list.

ghost use Rattle.std.specs.Prelude.{◌≡◌, ◌+◌, ◌≤◌, cond, ltb, get_or};
ghost use Rattle.numbers.specs.Values.{duration};
ghost use Rattle.model_semantics.specs.State as semantics;
ghost use Rattle.model_semantics.specs.Tests as tests;
ghost use Rattle.model_state.specs.Words as words;

use crate::layout;
use crate::layout::Array;
use model_semantics::{COMPLETED, Clock, EXECUTION, WAITING_EXECUTION};
use numbers::{Duration, Value, item_or, value_of};

// A byte, by the remainder.
fn byte_of(n: u32) -> u8
    ensures { result ≡ words.byte_in n }
{
    (n % 256) as u8
}

// The number of item i of an array; past its room, 0.
fn number_at(state: &[u32], array: Array, i: usize) -> u32
    requires { array.from + array.room ≤ words.state_words }
    ensures { result ≡ cond (ltb i array.room) (get_or state.now (array.from + i) 0) 0 }
{
    if i < array.room {
        item_or(state, array.from + i, 0)
    } else {
        0
    }
}

// ---- the clock
pub fn clock_of(state: &[u32]) -> Clock
    ensures { result ≡ (words.state_in state.now).clock }
{
    Clock {
        now: Duration(item_or(state, layout::NOW, 0)),
        entered: Duration(item_or(state, layout::ENTERED, 0)),
        mode: byte_of(item_or(state, layout::MODE, 0)),
        phase: byte_of(item_or(state, layout::PHASE, 0)),
        pending: byte_of(item_or(state, layout::PENDING, 0)),
        cpu: byte_of(item_or(state, layout::CPU, 0)),
    }
}

pub fn now_of(state: &[u32]) -> Duration
    ensures { result ≡ (words.state_in state.now).clock.now }
{
    Duration(item_or(state, layout::NOW, 0))
}

// ---- by thread
pub fn is_active(state: &[u32], thread: usize) -> bool
    ensures { result ≡ semantics.is_active (words.state_in state.now) thread }
{
    number_at(state, layout::ACTIVE, thread) != 0
}

pub fn code_of(state: &[u32], thread: usize) -> u8
    ensures { result ≡ semantics.code_of (words.state_in state.now) thread }
{
    byte_of(number_at(state, layout::CODE, thread))
}

// Whether a code is that of a job in hand: one that waits for the processor, runs, or is done.
pub fn has_job(code: u8) -> bool
    ensures { result ≡ tests.has_job code }
{
    ((code == WAITING_EXECUTION) | (code == EXECUTION)) | (code == COMPLETED)
}

pub fn dispatch_time(state: &[u32], thread: usize) -> Duration
    ensures { result ≡ duration (semantics.dispatch_time (words.state_in state.now) thread) }
{
    Duration(number_at(state, layout::DISPATCHED, thread))
}

pub fn length_of(state: &[u32], thread: usize) -> Duration
    ensures { result ≡ duration (semantics.length_of (words.state_in state.now) thread) }
{
    Duration(number_at(state, layout::LENGTH, thread))
}

pub fn spent_of(state: &[u32], thread: usize) -> Duration
    ensures { result ≡ duration (semantics.spent_of (words.state_in state.now) thread) }
{
    Duration(number_at(state, layout::SPENT, thread))
}

pub fn behavior_of(state: &[u32], thread: usize) -> u8
    ensures { result ≡ semantics.behavior_of (words.state_in state.now) thread }
{
    byte_of(number_at(state, layout::BEHAVIOR, thread))
}

pub fn missed_of(state: &[u32], thread: usize) -> u32
    ensures { result ≡ semantics.missed_of (words.state_in state.now) thread }
{
    number_at(state, layout::MISSED, thread)
}

// ---- by connection
pub fn is_live(state: &[u32], connection: usize) -> bool
    ensures { result ≡ semantics.is_live (words.state_in state.now) connection }
{
    number_at(state, layout::LIVE, connection) != 0
}

// ---- by port and local
pub fn input_value(state: &[u32], port: usize) -> Value
    ensures { result ≡ semantics.input_value (words.state_in state.now).ports port }
{
    value_of(number_at(state, layout::INPUT, port))
}

pub fn buffer_value(state: &[u32], port: usize) -> Value
    ensures { result ≡ semantics.buffer_value (words.state_in state.now).ports port }
{
    value_of(number_at(state, layout::BUFFER, port))
}

pub fn output_value(state: &[u32], port: usize) -> Value
    ensures { result ≡ semantics.output_value (words.state_in state.now).ports port }
{
    value_of(number_at(state, layout::OUTPUT, port))
}

pub fn local_value(state: &[u32], local: usize) -> Value
    ensures { result ≡ semantics.local_value (words.state_in state.now).ports local }
{
    value_of(number_at(state, layout::LOCAL, local))
}
