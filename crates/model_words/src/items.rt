// The items of a model, by number. One that is not there is blank.

ghost use Rattle.std.specs.Prelude.{List, ℕ, ◌≡◌, ◌+◌, ◌*◌, ◌<◌, ◌≤◌};
ghost use Rattle.numbers.specs.Lists.{item, list_below};
ghost use Rattle.model_format.specs.Model as items;
ghost use Rattle.model_format.specs.Reading as reading;
ghost use Rattle.model_words.specs.Words as words;

use crate::fields::{byte_in, duration_in, operand_in, short_in, value_in};
use crate::layout::{
    ASSIGNMENT_SIZE, ASSIGNMENTS_FROM, ATOM_SIZE, ATOMS_FROM, CONNECTION_SIZE, CONNECTIONS_FROM,
    CONNECTIONS_PLACE, INITIAL_PLACE, INPUTS_FROM, INPUTS_PLACE, LOCALS_FROM, LOCALS_PLACE,
    MODES_PLACE, OUTPUTS_FROM, OUTPUTS_PLACE, OWNED_SIZE, SWITCH_SIZE, SWITCHES_FROM,
    SWITCHES_PLACE, THREAD_SIZE, THREADS_FROM, THREADS_PLACE, TRANSITION_SIZE, TRANSITIONS_FROM,
    TRANSITIONS_PLACE,
};
use model_format::{
    Assignment, Atom, Connection, MAX_CONNECTIONS, MAX_INPUTS, MAX_LOCALS, MAX_OUTPUTS,
    MAX_SWITCHES, MAX_THREADS, MAX_TIMES, MAX_TRANSITIONS, ModeTransition, Owned, Thread,
    Transition, no_assignment, no_atom, no_connection, no_owned, no_switch, no_thread,
    no_transition, place,
};
use numbers::item_or;

// ---- the head, and how many items there are of each kind: one call each, by the names that other crates know
pub fn modes(model: &[u32]) -> u8
    ensures { result ≡ (words.timing_in model.now).modes }
{
    byte_in(model, MODES_PLACE)
}

pub fn initial(model: &[u32]) -> u8
    ensures { result ≡ (words.timing_in model.now).initial }
{
    byte_in(model, INITIAL_PLACE)
}

pub fn threads(model: &[u32]) -> usize
    ensures { result ≡ (words.timing_in model.now).threads }
{
    item_or(model, THREADS_PLACE, 0) as usize
}

pub fn inputs(model: &[u32]) -> usize
    ensures { result ≡ (words.timing_in model.now).inputs }
{
    item_or(model, INPUTS_PLACE, 0) as usize
}

pub fn outputs(model: &[u32]) -> usize
    ensures { result ≡ (words.timing_in model.now).outputs }
{
    item_or(model, OUTPUTS_PLACE, 0) as usize
}

pub fn locals(model: &[u32]) -> usize
    ensures { result ≡ (words.timing_in model.now).locals }
{
    item_or(model, LOCALS_PLACE, 0) as usize
}

pub fn connections(model: &[u32]) -> usize
    ensures { result ≡ (words.timing_in model.now).connections }
{
    item_or(model, CONNECTIONS_PLACE, 0) as usize
}

pub fn switches(model: &[u32]) -> usize
    ensures { result ≡ (words.timing_in model.now).switches }
{
    item_or(model, SWITCHES_PLACE, 0) as usize
}

pub fn transitions(model: &[u32]) -> usize
    ensures { result ≡ (words.behavior_in model.now).transitions }
{
    item_or(model, TRANSITIONS_PLACE, 0) as usize
}

// ---- items
// What a list has of an item: `SIZE` numbers, one to a field. An item that is not there is blank.
trait Item: Copy {
    ghost blank: { Self };

    ghost read: { List ℕ → ℕ → Self };

    ghost SIZE: { ℕ };

    const SIZE: usize;

    fn blank() -> Self
        ensures { result ≡ blank };

    // The item whose numbers begin at `at`.
    fn read(model: &[u32], at: usize) -> Self
        requires { at + SIZE ≤ words.model_words }
        ensures { result ≡ read model.now at };
}

impl Item for Thread {
    ghost blank = { items.no_thread };

    ghost read = { words.thread_in };

    ghost SIZE = { words.thread_size };

    const SIZE: usize = THREAD_SIZE;

    fn blank() -> Thread {
        no_thread()
    }

    fn read(model: &[u32], at: usize) -> Thread {
        Thread {
            period: duration_in(model, at),
            deadline: duration_in(model, at + 1),
            bcet: duration_in(model, at + 2),
            wcet: duration_in(model, at + 3),
            modes: byte_in(model, at + 4),
            critical: byte_in(model, at + 5),
            first: byte_in(model, at + 6),
        }
    }
}

impl Item for Owned {
    ghost blank = { items.no_owned };

    ghost read = { words.owned_in };

    ghost SIZE = { words.owned_size };

    const SIZE: usize = OWNED_SIZE;

    fn blank() -> Owned {
        no_owned()
    }

    fn read(model: &[u32], at: usize) -> Owned {
        Owned {
            owner: byte_in(model, at),
            start: value_in(model, at + 1),
        }
    }
}

// An output port, of which a model has the owner alone.
impl Item for u8 {
    ghost blank = { 0 };

    ghost read = { words.byte_in };

    ghost SIZE = { 1 };

    const SIZE: usize = 1;

    fn blank() -> u8 {
        0
    }

    fn read(model: &[u32], at: usize) -> u8 {
        byte_in(model, at)
    }
}

impl Item for Connection {
    ghost blank = { items.no_connection };

    ghost read = { words.connection_in };

    ghost SIZE = { words.connection_size };

    const SIZE: usize = CONNECTION_SIZE;

    fn blank() -> Connection {
        no_connection()
    }

    fn read(model: &[u32], at: usize) -> Connection {
        Connection {
            kind: byte_in(model, at),
            source: short_in(model, at + 1),
            target: short_in(model, at + 2),
            modes: byte_in(model, at + 3),
        }
    }
}

impl Item for ModeTransition {
    ghost blank = { items.no_switch };

    ghost read = { words.switch_in };

    ghost SIZE = { words.switch_size };

    const SIZE: usize = SWITCH_SIZE;

    fn blank() -> ModeTransition {
        no_switch()
    }

    fn read(model: &[u32], at: usize) -> ModeTransition {
        ModeTransition {
            from: byte_in(model, at),
            to: byte_in(model, at + 1),
            h1: duration_in(model, at + 2),
            h2: duration_in(model, at + 3),
        }
    }
}

impl Item for Transition {
    ghost blank = { items.no_transition };

    ghost read = { words.transition_in };

    ghost SIZE = { words.transition_size };

    const SIZE: usize = TRANSITION_SIZE;

    fn blank() -> Transition {
        no_transition()
    }

    fn read(model: &[u32], at: usize) -> Transition {
        Transition {
            thread: byte_in(model, at),
            from: byte_in(model, at + 1),
            to: byte_in(model, at + 2),
            atoms: byte_in(model, at + 3),
            assignments: byte_in(model, at + 4),
        }
    }
}

impl Item for Atom {
    ghost blank = { items.no_atom };

    ghost read = { words.atom_in };

    ghost SIZE = { words.atom_size };

    const SIZE: usize = ATOM_SIZE;

    fn blank() -> Atom {
        no_atom()
    }

    fn read(model: &[u32], at: usize) -> Atom {
        Atom {
            op: byte_in(model, at),
            tag: byte_in(model, at + 1),
            number: short_in(model, at + 2),
            right: operand_in(model, at + 3),
        }
    }
}

impl Item for Assignment {
    ghost blank = { items.no_assignment };

    ghost read = { words.assignment_in };

    ghost SIZE = { words.assignment_size };

    const SIZE: usize = ASSIGNMENT_SIZE;

    fn blank() -> Assignment {
        no_assignment()
    }

    fn read(model: &[u32], at: usize) -> Assignment {
        Assignment {
            tag: byte_in(model, at),
            number: short_in(model, at + 1),
            op: byte_in(model, at + 2),
            first: operand_in(model, at + 3),
            second: operand_in(model, at + 5),
        }
    }
}

// Item i of those from a place on, for which there is a room.
fn item_at<T: Item>(model: &[u32], from: usize, room: usize, i: usize) -> T
    requires { i < room → from + i * T.SIZE + T.SIZE ≤ words.model_words }
    ensures { result ≡ item room (list_below room (λ j. T.read model.now (from + j * T.SIZE))) i T.blank }
{
    if i < room {
        T::read(model, from + i * T::SIZE)
    } else {
        T::blank()
    }
}

// ---- items by number
pub fn thread_at(model: &[u32], thread: usize) -> Thread
    ensures { result ≡ items.thread_at (words.timing_in model.now) thread }
{
    item_at(model, THREADS_FROM, MAX_THREADS, thread)
}

pub fn input_at(model: &[u32], port: usize) -> Owned
    ensures { result ≡ items.input_at (words.timing_in model.now) port }
{
    item_at(model, INPUTS_FROM, MAX_INPUTS, port)
}

// Asked for more often than the port itself: its byte alone.
pub fn input_owner(model: &[u32], port: usize) -> u8
    ensures { result ≡ items.input_owner (words.timing_in model.now) port }
{
    if MAX_INPUTS <= port {
        return 0;
    }
    byte_in(model, INPUTS_FROM + port * OWNED_SIZE)
}

pub fn output_owner(model: &[u32], port: usize) -> u8
    ensures { result ≡ items.output_owner (words.timing_in model.now) port }
{
    item_at(model, OUTPUTS_FROM, MAX_OUTPUTS, port)
}

pub fn local_at(model: &[u32], local: usize) -> Owned
    ensures { result ≡ items.local_at (words.timing_in model.now) local }
{
    item_at(model, LOCALS_FROM, MAX_LOCALS, local)
}

pub fn connection_at(model: &[u32], connection: usize) -> Connection
    ensures { result ≡ items.connection_at (words.timing_in model.now) connection }
{
    item_at(model, CONNECTIONS_FROM, MAX_CONNECTIONS, connection)
}

pub fn switch_at(model: &[u32], switch: usize) -> ModeTransition
    ensures { result ≡ items.switch_at (words.timing_in model.now) switch }
{
    item_at(model, SWITCHES_FROM, MAX_SWITCHES, switch)
}

pub fn transition_at(model: &[u32], transition: usize) -> Transition
    ensures { result ≡ items.transition_at (words.behavior_in model.now) transition }
{
    item_at(model, TRANSITIONS_FROM, MAX_TRANSITIONS, transition)
}

// The place of the last transition, which atoms and assignments belong to; where there is none, the first.
pub fn last_transition(model: &[u32]) -> usize
    ensures { result ≡ reading.last_transition (words.behavior_in model.now) }
{
    transitions(model).saturating_sub(1)
}

// An atom of a transition, by its number.
pub fn atom_at(model: &[u32], transition: usize, number: usize) -> Atom
    ensures { result ≡ items.atom_at (words.behavior_in model.now) transition number }
{
    item_at(model, ATOMS_FROM, MAX_TIMES, place(transition, number))
}

// An assignment of a transition, by its number. Made in place, since most callers want one or two of its numbers.
#[inline(always)]
pub fn assignment_at(model: &[u32], transition: usize, number: usize) -> Assignment
    ensures { result ≡ items.assignment_at (words.behavior_in model.now) transition number }
{
    item_at(
        model,
        ASSIGNMENTS_FROM,
        MAX_TIMES,
        place(transition, number),
    )
}
