// Blank items, and the model that has no others.

ghost use Rattle.std.specs.Prelude.{◌≡◌};
ghost use Rattle.model_format.specs.Model as model;

use crate::{Assignment, Atom, Connection, ModeTransition, Owned, Thread, Transition};
use numbers::{Duration, Value};
use records::Operand;

pub fn no_thread() -> Thread
    ensures { result ≡ model.no_thread }
{
    Thread {
        period: Duration(0),
        deadline: Duration(0),
        bcet: Duration(0),
        wcet: Duration(0),
        modes: 0,
        critical: 0,
        first: 0,
    }
}

pub fn no_owned() -> Owned
    ensures { result ≡ model.no_owned }
{
    Owned {
        owner: 0,
        start: Value(0),
    }
}

pub fn no_connection() -> Connection
    ensures { result ≡ model.no_connection }
{
    Connection {
        kind: 0,
        source: 0,
        target: 0,
        modes: 0,
    }
}

pub fn no_switch() -> ModeTransition
    ensures { result ≡ model.no_switch }
{
    ModeTransition {
        from: 0,
        to: 0,
        h1: Duration(0),
        h2: Duration(0),
    }
}

pub fn no_transition() -> Transition
    ensures { result ≡ model.no_transition }
{
    Transition {
        thread: 0,
        from: 0,
        to: 0,
        atoms: 0,
        assignments: 0,
    }
}

fn no_operand() -> Operand
    ensures { result ≡ model.no_operand }
{
    Operand {
        tag: 0,
        value: Value(0),
    }
}

pub fn no_atom() -> Atom
    ensures { result ≡ model.no_atom }
{
    Atom {
        op: 0,
        tag: 0,
        number: 0,
        right: no_operand(),
    }
}

pub fn no_assignment() -> Assignment
    ensures { result ≡ model.no_assignment }
{
    Assignment {
        tag: 0,
        number: 0,
        op: 0,
        first: no_operand(),
        second: no_operand(),
    }
}
