// Records added to a model in a lent list: a head, or one item more of its kind, stored after the others.

#![tactic(auto)]

ghost use Rattle.std.specs.Prelude.{◌≡◌, ◌<◌, ◌≤◌, length, set};
ghost use Rattle.model_format.specs.declared.Record.TheVariants as variants;
ghost use Rattle.model_format.specs.Model as models;
ghost use Rattle.model_format.specs.Reading as reading;
ghost use Rattle.model_words.specs.Words as words;

use model_format::{
    Assignment, Atom, Connection, Head, ModeTransition, Owned, Thread, Transition, place,
};
use model_items::{
    put_assignment, put_assignment_count, put_atom, put_atom_count, put_connection, put_input,
    put_local, put_output, put_switch, put_thread, put_transition,
};
use model_words::{
    CONNECTIONS_PLACE, INITIAL_PLACE, INPUTS_PLACE, LOCALS_PLACE, MODES_PLACE, OUTPUTS_PLACE,
    SWITCHES_PLACE, THREADS_PLACE, TRANSITIONS_PLACE, connections, inputs, last_transition, locals,
    outputs, switches, threads, transition_at, transitions,
};
use numbers::{Duration, put_item};

// A list of zeros is the empty model.
pub fn clear(model: &mut [u32])
    ensures { words.model_in model.new ≡ models.empty_model }
{
    model.fill(0);
}

fn put_count(model: &mut [u32], at: usize, count: usize)
    requires { count < 4294967296 }
    ensures { model.new ≡ set model.old at count }
{
    put_item(model, at, count as u32);
}

pub fn add_head(model: &mut [u32], head: Head)
    requires { words.model_words ≤ length model.old }
    ensures { words.model_in model.new ≡ reading.add_record (words.model_in model.old) (variants.HeadRecord head) }
{
    put_item(model, MODES_PLACE, head.modes as u32);
    put_item(model, INITIAL_PLACE, head.initial as u32);
}

// ---- one item more. Kept kind by kind: each is three calls, of its own count and its own store, and a trait with both for each kind would be longer.
pub fn add_thread(model: &mut [u32], thread: Thread)
    requires { (words.model_words ≤ length model.old) × ((words.timing_in model.old).threads < models.max_threads) }
    ensures { words.model_in model.new ≡ reading.add_record (words.model_in model.old) (variants.ThreadRecord thread) }
{
    let count = threads(model);
    put_thread(model, count, thread);
    put_count(model, THREADS_PLACE, count + 1);
}

pub fn add_input(model: &mut [u32], input: Owned)
    requires { (words.model_words ≤ length model.old) × ((words.timing_in model.old).inputs < models.max_inputs) }
    ensures { words.model_in model.new ≡ reading.add_record (words.model_in model.old) (variants.InputRecord input) }
{
    let count = inputs(model);
    put_input(model, count, input);
    put_count(model, INPUTS_PLACE, count + 1);
}

pub fn add_output(model: &mut [u32], owner: u8)
    requires { (words.model_words ≤ length model.old) × ((words.timing_in model.old).outputs < models.max_outputs) }
    ensures { words.model_in model.new ≡ reading.add_record (words.model_in model.old) (variants.OutputRecord owner) }
{
    let count = outputs(model);
    put_output(model, count, owner);
    put_count(model, OUTPUTS_PLACE, count + 1);
}

pub fn add_local(model: &mut [u32], local: Owned)
    requires { (words.model_words ≤ length model.old) × ((words.timing_in model.old).locals < models.max_locals) }
    ensures { words.model_in model.new ≡ reading.add_record (words.model_in model.old) (variants.LocalRecord local) }
{
    let count = locals(model);
    put_local(model, count, local);
    put_count(model, LOCALS_PLACE, count + 1);
}

pub fn add_connection(model: &mut [u32], connection: Connection)
    requires { (words.model_words ≤ length model.old) × ((words.timing_in model.old).connections < models.max_connections) }
    ensures { words.model_in model.new ≡ reading.add_record (words.model_in model.old) (variants.ConnectionRecord connection) }
{
    let count = connections(model);
    put_connection(model, count, connection);
    put_count(model, CONNECTIONS_PLACE, count + 1);
}

// With its hyperperiods.
pub fn add_switch(model: &mut [u32], switch: ModeTransition, h1: Duration, h2: Duration)
    requires whole_model { (words.model_words ≤ length model.old) × ((words.timing_in model.old).switches < models.max_switches) }
    requires hyperperiods { (h1.0 ≡ models.h1_of (words.timing_in model.old) switch.from) × (h2.0 ≡ models.h2_of (words.timing_in model.old) switch.from switch.to) }
    ensures { words.model_in model.new ≡ reading.add_record (words.model_in model.old) (variants.ModeRecord switch) }
{
    let count = switches(model);
    put_switch(model, count, ModeTransition { h1, h2, ..switch });
    put_count(model, SWITCHES_PLACE, count + 1);
}

pub fn add_transition(model: &mut [u32], transition: Transition)
    requires { (words.model_words ≤ length model.old) × ((words.behavior_in model.old).transitions < models.max_transitions) }
    ensures { words.model_in model.new ≡ reading.add_record (words.model_in model.old) (variants.TransitionRecord transition) }
{
    let count = transitions(model);
    put_transition(model, count, transition);
    put_count(model, TRANSITIONS_PLACE, count + 1);
}

// ---- atoms and assignments belong to the last transition
pub fn add_atom(model: &mut [u32], atom: Atom)
    requires whole_model { words.model_words ≤ length model.old }
    requires room_left { (models.transition_at (words.behavior_in model.old) (reading.last_transition (words.behavior_in model.old))).atoms < models.max_each }
    ensures { words.model_in model.new ≡ reading.add_record (words.model_in model.old) (variants.AtomRecord atom) }
{
    let number = last_transition(model);
    let old = transition_at(model, number);
    put_atom_count(model, number, old.atoms + 1);
    put_atom(model, place(number, usize::from(old.atoms)), atom);
}

pub fn add_assignment(model: &mut [u32], assignment: Assignment)
    requires whole_model { words.model_words ≤ length model.old }
    requires room_left { (models.transition_at (words.behavior_in model.old) (reading.last_transition (words.behavior_in model.old))).assignments < models.max_each }
    ensures { words.model_in model.new ≡ reading.add_record (words.model_in model.old) (variants.AssignmentRecord assignment) }
{
    let number = last_transition(model);
    let old = transition_at(model, number);
    put_assignment_count(model, number, old.assignments + 1);
    put_assignment(
        model,
        place(number, usize::from(old.assignments)),
        assignment,
    );
}
