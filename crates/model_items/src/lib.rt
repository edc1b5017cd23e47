// Items of a model stored in its list, by number. One past its room is not stored.

#![tactic(auto)]

ghost use Rattle.std.specs.Prelude.{◌≡◌, ◌+◌, ◌*◌, ◌<◌, ◌≤◌, cond, ltb, set, length};
ghost use Rattle.std.proofs.lemmas.List.Edits.{sets};
ghost use Rattle.model_format.specs.Model.{max_transitions};
ghost use Rattle.model_words.specs.Words.{transition_size, transitions_from, model_words, model_in};
ghost use Rattle.model_items.specs.Replaced as replaced;

use model_format::{
    Assignment, Atom, Connection, MAX_CONNECTIONS, MAX_INPUTS, MAX_LOCALS, MAX_OUTPUTS,
    MAX_SWITCHES, MAX_THREADS, MAX_TIMES, MAX_TRANSITIONS, ModeTransition, Owned, Thread,
    Transition,
};
use model_words::{
    ASSIGNMENTS_FROM, ATOMS_FROM, CONNECTIONS_FROM, INPUTS_FROM, LOCALS_FROM, OUTPUTS_FROM,
    SWITCHES_FROM, THREADS_FROM, TRANSITION_SIZE, TRANSITIONS_FROM,
};
use numbers::{bits, put_item};

// Which of the numbers of a transition says how many atoms it has, and which how many assignments.
const ATOMS_FIELD: usize = 3;

const ASSIGNMENTS_FIELD: usize = 4;

// The numbers of item i of those from a place on; past the room, nothing is stored.
fn put_fields<const N: usize>(
    model: &mut [u32],
    from: usize,
    room: usize,
    i: usize,
    fields: [u32; N],
)
    requires { i < room → from + i * N + N ≤ length model.old }
    ensures { model.new ≡ cond (ltb i room) (sets model.old (from + i * N) fields.entry) model.old }
{
    if i < room {
        let at = from + i * N;
        model[at..at + N].copy_from_slice(&fields);
    }
}

// One number of a transition: the rest of it stays.
fn put_count(model: &mut [u32], i: usize, field: usize, count: u8)
    requires { field < transition_size }
    ensures { model.new ≡ cond (ltb i max_transitions) (set model.old (transitions_from + i * transition_size + field) count) model.old }
{
    if i < MAX_TRANSITIONS {
        put_item(
            model,
            TRANSITIONS_FROM + i * TRANSITION_SIZE + field,
            u32::from(count),
        );
    }
}

pub fn put_thread(model: &mut [u32], i: usize, thread: Thread)
    requires { model_words ≤ length model.old }
    ensures { model_in model.new ≡ replaced.with_thread (model_in model.old) i thread }
{
    put_fields(
        model,
        THREADS_FROM,
        MAX_THREADS,
        i,
        [
            thread.period.0,
            thread.deadline.0,
            thread.bcet.0,
            thread.wcet.0,
            thread.modes as u32,
            thread.critical as u32,
            thread.first as u32,
        ],
    );
}

pub fn put_input(model: &mut [u32], i: usize, input: Owned)
    requires { model_words ≤ length model.old }
    ensures { model_in model.new ≡ replaced.with_input (model_in model.old) i input }
{
    put_fields(
        model,
        INPUTS_FROM,
        MAX_INPUTS,
        i,
        [input.owner as u32, bits(input.start)],
    );
}

pub fn put_output(model: &mut [u32], i: usize, owner: u8)
    requires { model_words ≤ length model.old }
    ensures { model_in model.new ≡ replaced.with_output (model_in model.old) i owner }
{
    put_fields(model, OUTPUTS_FROM, MAX_OUTPUTS, i, [owner as u32]);
}

pub fn put_local(model: &mut [u32], i: usize, local: Owned)
    requires { model_words ≤ length model.old }
    ensures { model_in model.new ≡ replaced.with_local (model_in model.old) i local }
{
    put_fields(
        model,
        LOCALS_FROM,
        MAX_LOCALS,
        i,
        [local.owner as u32, bits(local.start)],
    );
}

pub fn put_connection(model: &mut [u32], i: usize, connection: Connection)
    requires { model_words ≤ length model.old }
    ensures { model_in model.new ≡ replaced.with_connection (model_in model.old) i connection }
{
    put_fields(
        model,
        CONNECTIONS_FROM,
        MAX_CONNECTIONS,
        i,
        [
            connection.kind as u32,
            connection.source as u32,
            connection.target as u32,
            connection.modes as u32,
        ],
    );
}

pub fn put_switch(model: &mut [u32], i: usize, switch: ModeTransition)
    requires { model_words ≤ length model.old }
    ensures { model_in model.new ≡ replaced.with_switch (model_in model.old) i switch }
{
    put_fields(
        model,
        SWITCHES_FROM,
        MAX_SWITCHES,
        i,
        [
            switch.from as u32,
            switch.to as u32,
            switch.h1.0,
            switch.h2.0,
        ],
    );
}

pub fn put_transition(model: &mut [u32], i: usize, transition: Transition)
    requires { model_words ≤ length model.old }
    ensures { model_in model.new ≡ replaced.with_transition (model_in model.old) i transition }
{
    put_fields(
        model,
        TRANSITIONS_FROM,
        MAX_TRANSITIONS,
        i,
        [
            transition.thread as u32,
            transition.from as u32,
            transition.to as u32,
            transition.atoms as u32,
            transition.assignments as u32,
        ],
    );
}

// How many atoms transition i has: the rest of it stays.
pub fn put_atom_count(model: &mut [u32], i: usize, count: u8)
    requires { model_words ≤ length model.old }
    ensures { model_in model.new ≡ replaced.with_atom_count (model_in model.old) i count }
{
    put_count(model, i, ATOMS_FIELD, count);
}

// How many assignments it has.
pub fn put_assignment_count(model: &mut [u32], i: usize, count: u8)
    requires { model_words ≤ length model.old }
    ensures { model_in model.new ≡ replaced.with_assignment_count (model_in model.old) i count }
{
    put_count(model, i, ASSIGNMENTS_FIELD, count);
}

pub fn put_atom(model: &mut [u32], i: usize, atom: Atom)
    requires { model_words ≤ length model.old }
    ensures { model_in model.new ≡ replaced.with_atom (model_in model.old) i atom }
{
    put_fields(
        model,
        ATOMS_FROM,
        MAX_TIMES,
        i,
        [
            atom.op as u32,
            atom.tag as u32,
            atom.number as u32,
            atom.right.tag as u32,
            bits(atom.right.value),
        ],
    );
}

pub fn put_assignment(model: &mut [u32], i: usize, assignment: Assignment)
    requires { model_words ≤ length model.old }
    ensures { model_in model.new ≡ replaced.with_assignment (model_in model.old) i assignment }
{
    put_fields(
        model,
        ASSIGNMENTS_FROM,
        MAX_TIMES,
        i,
        [
            assignment.tag as u32,
            assignment.number as u32,
            assignment.op as u32,
            assignment.first.tag as u32,
            bits(assignment.first.value),
            assignment.second.tag as u32,
            bits(assignment.second.value),
        ],
    );
}
