// The guards of a thread's transitions, as clauses.

ghost use Rattle.std.specs.Prelude.{◌≡◌, [], ◌∷◌, ◌<◌};
ghost use Rattle.model_format.specs.WellFormed.{WellFormed};
ghost use Rattle.model_words.specs.Words.{behavior_in, model_in};
ghost use Rattle.translation.specs.Parts.{plain, negated_op};
ghost use Rattle.translation.specs.Rules.{atom_with, guard_clauses, negated_guard, shut_clause, per_transition, earlier_clause, otherwise_clause};
ghost use Rattle.table_writer.specs.Writes.{WritesAtoms, WritesClauses};
ghost use Rattle.translate_guards.specs.Named.{NamedAtom};
ghost use Rattle.translate_guards.specs.Guards.{starts_from, earlier_at, otherwise_at};

use crate::parts::{negated_op, operand_of, variable_of};
use model_format::{Atom, Transition};
use model_words::{atom_at, transition_at};
use table_format::{DIFFERS, behavior_var};
use table_writer::Writer;

// An atom with the comparison given.
fn put_with(out: &mut Writer<'_>, op: u8, atom: Atom)
    requires { NamedAtom atom }
    ensures { WritesAtoms out.old (plain (atom_with (λ k. op) atom)) out.new }
{
    let left = variable_of(atom.tag, atom.number);
    let right = operand_of(atom.right);
    out.compare(op, left, right);
}

fn put_plain(out: &mut Writer<'_>, atom: Atom)
    requires { NamedAtom atom }
    ensures { WritesClauses out.old (plain (atom_with (λ op. op) atom) ∷ []) out.new }
{
    out.clause();
    put_with(out, atom.op, atom);
}

fn put_opposite(out: &mut Writer<'_>, atom: Atom)
    requires { NamedAtom atom }
    ensures { WritesAtoms out.old (plain (atom_with negated_op atom)) out.new }
{
    let opposite = negated_op(atom.op);
    put_with(out, opposite, atom);
}

// The guard of a transition holds.
pub fn put_guard(out: &mut Writer<'_>, model: &[u32], transition: usize)
    requires { WellFormed (model_in model.now) × (transition < (behavior_in model.now).transitions) }
    ensures { WritesClauses out.old (guard_clauses (behavior_in model.now) transition) out.new }
{
    let own = transition_at(model, transition);
    for number in 0..own.atoms as usize {
        let atom = atom_at(model, transition, number);
        put_plain(out, atom);
    }
}

fn put_negated(out: &mut Writer<'_>, model: &[u32], transition: usize)
    requires { WellFormed (model_in model.now) × (transition < (behavior_in model.now).transitions) }
    ensures { WritesAtoms out.old (negated_guard (behavior_in model.now) transition) out.new }
{
    let own = transition_at(model, transition);
    for number in 0..own.atoms as usize {
        let atom = atom_at(model, transition, number);
        put_opposite(out, atom);
    }
}

// The clause that says that a guard fails. A guard without atoms never does: its clause is empty.
fn put_failing(out: &mut Writer<'_>, model: &[u32], transition: usize)
    requires { WellFormed (model_in model.now) × (transition < (behavior_in model.now).transitions) }
    ensures { WritesClauses out.old (negated_guard (behavior_in model.now) transition ∷ []) out.new }
{
    out.clause();
    put_negated(out, model, transition);
}

// A transition of the thread, from the behaviour state given.
fn starts_from(transition: Transition, thread: u8, from: u8) -> bool
    ensures { result ≡ starts_from transition thread from }
{
    (transition.thread == thread) & (transition.from == from)
}

// The guard of an earlier transition fails, where that is such a transition.
fn put_not_open(out: &mut Writer<'_>, model: &[u32], thread: u8, from: u8, earlier: usize)
    requires { WellFormed (model_in model.now) × (earlier < (behavior_in model.now).transitions) }
    ensures { WritesClauses out.old (earlier_at (behavior_in model.now) thread from earlier) out.new }
{
    let own = transition_at(model, earlier);
    if starts_from(own, thread, from) {
        put_failing(out, model, earlier);
    }
}

// The guard of each such transition before this one fails.
pub fn put_earlier(out: &mut Writer<'_>, model: &[u32], thread: u8, transition: usize)
    requires { WellFormed (model_in model.now) × (transition < (behavior_in model.now).transitions) }
    ensures { WritesClauses out.old (per_transition (behavior_in model.now) thread transition (earlier_clause (behavior_in model.now) transition)) out.new }
{
    let own = transition_at(model, transition);
    for earlier in 0..transition {
        put_not_open(out, model, thread, own.from, earlier);
    }
}

// The thread is not where the transition leaves, or the guard fails.
fn put_shut(out: &mut Writer<'_>, model: &[u32], thread: u8, from: u8, transition: usize)
    requires { WellFormed (model_in model.now) × (transition < (behavior_in model.now).transitions) }
    ensures { WritesClauses out.old (shut_clause thread from (negated_guard (behavior_in model.now) transition) ∷ []) out.new }
{
    out.clause();
    out.compared(DIFFERS, behavior_var(thread), from as u32);
    put_negated(out, model, transition);
}

// That, where the transition is one of the thread.
fn put_not_taken(out: &mut Writer<'_>, model: &[u32], thread: u8, transition: usize)
    requires { WellFormed (model_in model.now) × (transition < (behavior_in model.now).transitions) }
    ensures { WritesClauses out.old (otherwise_at (behavior_in model.now) thread transition) out.new }
{
    let own = transition_at(model, transition);
    if own.thread == thread {
        put_shut(out, model, thread, own.from, transition);
    }
}

pub fn put_otherwise(out: &mut Writer<'_>, model: &[u32], thread: u8)
    requires { WellFormed (model_in model.now) }
    ensures { WritesClauses out.old (per_transition (behavior_in model.now) thread (behavior_in model.now).transitions (otherwise_clause (behavior_in model.now) thread)) out.new }
{
    for transition in 0..model_words::transitions(model) {
        put_not_taken(out, model, thread, transition);
    }
}
