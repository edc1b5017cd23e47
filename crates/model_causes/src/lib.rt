// Why a record is refused where a reader stands that keeps its model in a lent list of numbers.

#![tactic(auto)]

mod fits;

ghost use Rattle.std.specs.Prelude.{◌≡◌};
ghost use Rattle.model_format.specs.declared.Record.TheVariants as variants;
ghost use Rattle.model_format.specs.Reading as reading;
ghost use Rattle.model_words.specs.Words as words;
ghost use Rattle.model_faults.specs.Causes as causes;
ghost use Rattle.model_faults.specs.Laws as laws;
ghost use Rattle.model_causes.specs.Readings as readings;

use crate::fits::{assignment_fits, atom_fits};
use model_faults::{
    Found, Stand, assignment_cause, atom_cause, connection_cause, in_order, number_in, port_cause,
    same_target, switch_cause, thread_cause, transition_cause, with_period,
};
use model_format::{
    ASSIGNMENT_RANK, ATOM_RANK, Assignment, Atom, CONNECTION_RANK, Connection, INPUT_RANK,
    INPUT_TAG, LOCAL_RANK, LOCAL_TAG, MAX_INPUTS, MAX_LOCALS, MAX_OUTPUTS, ModeTransition,
    OUTPUT_RANK, OUTPUT_TAG, Owned, SWITCH_RANK, THREAD_RANK, TRANSITION_RANK, Thread, Transition,
};
use model_words::{
    assignment_at, connection_at, connections, initial, input_owner, inputs, last_transition,
    local_at, locals, modes, output_owner, outputs, switches, thread_at, threads, transition_at,
    transitions,
};
use records::{Cause, Operand};

// ---- what the items tell
fn goes_to(model: &[u32], port: u16, connection: usize) -> bool
    ensures { result ≡ laws.connects_to (words.timing_in model.now) port connection }
{
    connection_at(model, connection).target == port
}

fn is_connected(model: &[u32], port: u16) -> bool
    ensures { result ≡ reading.is_connected (words.timing_in model.now) port }
{
    (0..connections(model)).any(|connection| goes_to(model, port, connection))
}

// The hyperperiods that a mode transition gets.
pub fn periods_of(model: &[u32], switch: ModeTransition) -> Found
    ensures { result ≡ causes.found_in (words.timing_in model.now) (variants.ModeRecord switch) }
{
    let count = threads(model);
    let mut h1: u64 = 1;
    let mut h2: u64 = 1;
    for t in 0..count {
        let thread = thread_at(model, t);
        h1 = with_period(thread, switch.from, switch.from, h1);
        h2 = with_period(thread, switch.from, switch.to, h2);
    }
    Found {
        connected: false,
        h1,
        h2,
    }
}

// The owner of the item that a tag and a number name is the thread.
fn is_owned_by(model: &[u32], thread: u8, tag: u8, number: usize) -> bool
    ensures { result ≡ reading.is_owned_by (words.timing_in model.now) thread tag number }
{
    match tag {
        INPUT_TAG => input_owner(model, number) == thread,
        LOCAL_TAG => local_at(model, number).owner == thread,
        OUTPUT_TAG => output_owner(model, number) == thread,
        _ => true,
    }
}

fn operand_owned(model: &[u32], thread: u8, operand: Operand) -> bool
    ensures { result ≡ reading.operand_owned (words.timing_in model.now) thread operand }
{
    is_owned_by(model, thread, operand.tag, number_in(operand))
}

fn has_target(model: &[u32], transition: usize, assignment: Assignment, number: usize) -> bool
    ensures { result ≡ readings.has_target (words.behavior_in model.now) transition assignment number }
{
    same_target(assignment_at(model, transition, number), assignment)
}

// One of the assignments that the transition has so far has the target of this one.
fn is_assigned(model: &[u32], transition: usize, assigned: u8, assignment: Assignment) -> bool
    ensures { result ≡ readings.is_among (words.behavior_in model.now) transition assigned assignment }
{
    (0..usize::from(assigned)).any(|number| has_target(model, transition, assignment, number))
}

// ---- the cause of a record of each kind, after one of the rank `last`
fn stand_of(model: &[u32], last: u8) -> Stand
    ensures { result ≡ laws.stand_of (readings.reading_in last model.now) }
{
    Stand {
        last,
        modes: modes(model),
        initial: initial(model),
        threads: threads(model),
        inputs: inputs(model),
        outputs: outputs(model),
        locals: locals(model),
        connections: connections(model),
        switches: switches(model),
    }
}

pub fn cause_of_thread(model: &[u32], last: u8, thread: Thread) -> Cause
    ensures { result ≡ reading.cause_of (readings.reading_in last model.now) (variants.ThreadRecord thread) }
{
    let order = !in_order(last, THREAD_RANK);
    thread_cause(order, stand_of(model, last), thread)
}

pub fn cause_of_input(model: &[u32], last: u8, input: Owned) -> Cause
    ensures { result ≡ reading.cause_of (readings.reading_in last model.now) (variants.InputRecord input) }
{
    let order = !in_order(last, INPUT_RANK);
    let stand = stand_of(model, last);
    port_cause(order, stand.inputs, MAX_INPUTS, stand, input.owner)
}

pub fn cause_of_output(model: &[u32], last: u8, owner: u8) -> Cause
    ensures { result ≡ reading.cause_of (readings.reading_in last model.now) (variants.OutputRecord owner) }
{
    let order = !in_order(last, OUTPUT_RANK);
    let stand = stand_of(model, last);
    port_cause(order, stand.outputs, MAX_OUTPUTS, stand, owner)
}

pub fn cause_of_local(model: &[u32], last: u8, local: Owned) -> Cause
    ensures { result ≡ reading.cause_of (readings.reading_in last model.now) (variants.LocalRecord local) }
{
    let order = !in_order(last, LOCAL_RANK);
    let stand = stand_of(model, last);
    port_cause(order, stand.locals, MAX_LOCALS, stand, local.owner)
}

pub fn cause_of_connection(model: &[u32], last: u8, connection: Connection) -> Cause
    ensures { result ≡ reading.cause_of (readings.reading_in last model.now) (variants.ConnectionRecord connection) }
{
    let order = !in_order(last, CONNECTION_RANK);
    let stand = stand_of(model, last);
    let connected = is_connected(model, connection.target);
    let found = Found {
        connected,
        h1: 1,
        h2: 1,
    };
    connection_cause(order, stand, found, connection)
}

// `found` has the hyperperiods of the mode transition.
pub fn cause_of_switch(model: &[u32], last: u8, found: Found, switch: ModeTransition) -> Cause
    requires { found ≡ causes.found_in (words.timing_in model.now) (variants.ModeRecord switch) }
    ensures { result ≡ reading.cause_of (readings.reading_in last model.now) (variants.ModeRecord switch) }
{
    let order = !in_order(last, SWITCH_RANK);
    switch_cause(order, stand_of(model, last), found, switch)
}

pub fn cause_of_transition(model: &[u32], last: u8, transition: Transition) -> Cause
    ensures { result ≡ reading.cause_of (readings.reading_in last model.now) (variants.TransitionRecord transition) }
{
    let order = !in_order(last, TRANSITION_RANK);
    transition_cause(order, stand_of(model, last), transitions(model), transition)
}

pub fn cause_of_atom(model: &[u32], last: u8, atom: Atom) -> Cause
    ensures { result ≡ reading.cause_of (readings.reading_in last model.now) (variants.AtomRecord atom) }
{
    let open = transition_at(model, last_transition(model));
    if atom_fits(model, last, open, atom) {
        return Cause::None;
    }
    let order = !in_order(last, ATOM_RANK);
    let left = is_owned_by(model, open.thread, atom.tag, usize::from(atom.number));
    let right = operand_owned(model, open.thread, atom.right);
    atom_cause(order, stand_of(model, last), open, left & right, atom)
}

pub fn cause_of_assignment(model: &[u32], last: u8, assignment: Assignment) -> Cause
    ensures { result ≡ reading.cause_of (readings.reading_in last model.now) (variants.AssignmentRecord assignment) }
{
    let current = last_transition(model);
    let open = transition_at(model, current);
    if assignment_fits(model, last, current, open, assignment) {
        return Cause::None;
    }
    let order = !in_order(last, ASSIGNMENT_RANK);
    let target = is_owned_by(
        model,
        open.thread,
        assignment.tag,
        usize::from(assignment.number),
    );
    let first = operand_owned(model, open.thread, assignment.first);
    let second = operand_owned(model, open.thread, assignment.second);
    let twice = is_assigned(model, current, open.assignments, assignment);
    assignment_cause(
        order,
        stand_of(model, last),
        open,
        target & (first & second),
        twice,
        assignment,
    )
}
