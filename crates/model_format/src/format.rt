// What a part of a model's bytes holds. Each reader takes the whole part, its kind byte first.

ghost use Rattle.std.specs.Prelude.{◌≡◌};
ghost use Rattle.model_format.specs.Format as format;

use crate::{Assignment, Atom, Connection, Head, ModeTransition, Owned, Thread, Transition};
use numbers::{Duration, Value, duration_at, item_or, value_at};
use records::operand_at;

pub fn head_of(x: &[u8]) -> Head
    ensures { result ≡ format.head_of x.now }
{
    Head {
        modes: item_or(x, 1, 0),
        initial: item_or(x, 2, 0),
    }
}

pub fn thread_of(x: &[u8]) -> Thread
    ensures { result ≡ format.thread_of x.now }
{
    Thread {
        period: duration_at(x, 1),
        deadline: duration_at(x, 5),
        bcet: duration_at(x, 9),
        wcet: duration_at(x, 13),
        modes: item_or(x, 17, 0),
        critical: item_or(x, 18, 0),
        first: item_or(x, 19, 0),
    }
}

// An input port whose start value is not written.
pub fn input_of(x: &[u8]) -> Owned
    ensures { result ≡ format.input_of x.now }
{
    Owned {
        owner: item_or(x, 1, 0),
        start: Value(0),
    }
}

// An input port or a local with its start value.
pub fn owned_of(x: &[u8]) -> Owned
    ensures { result ≡ format.owned_of x.now }
{
    Owned {
        owner: item_or(x, 1, 0),
        start: value_at(x, 2),
    }
}

pub fn connection_of(x: &[u8]) -> Connection
    ensures { result ≡ format.connection_of x.now }
{
    Connection {
        kind: item_or(x, 1, 0),
        source: u16::from(item_or(x, 2, 0)),
        target: u16::from(item_or(x, 3, 0)),
        modes: item_or(x, 4, 0),
    }
}

// Its hyperperiods are set when it is accepted.
pub fn switch_of(x: &[u8]) -> ModeTransition
    ensures { result ≡ format.switch_of x.now }
{
    ModeTransition {
        from: item_or(x, 1, 0),
        to: item_or(x, 2, 0),
        h1: Duration(1),
        h2: Duration(1),
    }
}

pub fn transition_of(x: &[u8]) -> Transition
    ensures { result ≡ format.transition_of x.now }
{
    Transition {
        thread: item_or(x, 1, 0),
        from: item_or(x, 2, 0),
        to: item_or(x, 3, 0),
        atoms: 0,
        assignments: 0,
    }
}

pub fn atom_of(x: &[u8]) -> Atom
    ensures { result ≡ format.atom_of x.now }
{
    Atom {
        op: item_or(x, 1, 0),
        tag: item_or(x, 2, 0),
        number: u16::from(item_or(x, 3, 0)),
        right: operand_at(x, 4),
    }
}

pub fn assignment_of(x: &[u8]) -> Assignment
    ensures { result ≡ format.assignment_of x.now }
{
    Assignment {
        tag: item_or(x, 1, 0),
        number: u16::from(item_or(x, 2, 0)),
        op: item_or(x, 3, 0),
        first: operand_at(x, 4),
        second: operand_at(x, 9),
    }
}
