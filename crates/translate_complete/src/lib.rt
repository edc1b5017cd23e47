// The rules of COMPLETE for one thread, written into a lent slice: one for each transition of the thread, and one for where none is open.
// The model is a lent list of numbers.

#![tactic(auto)]

mod updates;

ghost use Rattle.std.specs.Prelude.{[], ◌∷◌, ◌<◌};
ghost use Rattle.records.specs.Events.{complete_kind};
ghost use Rattle.model_format.specs.Model.{transition_at};
ghost use Rattle.model_format.specs.WellFormed.{GoodTiming, WellFormed};
ghost use Rattle.model_words.specs.Words.{timing_in, behavior_in, model_in};
ghost use Rattle.translation.specs.Parts.{stamped};
ghost use Rattle.translation.specs.Rules.{finished_clauses, finish_updates, open_clauses, guard_clauses, transition_updates, transition_rule, default_clauses, default_updates, default_rule, complete_rules};
ghost use Rattle.table_writer.specs.Writes.{WritesClauses, WritesUpdates, WritesRules};
ghost use Rattle.translate_complete.specs.Complete.{rules_at};

use model_semantics::{COMPLETED, EXECUTION, NONE};
use model_words::transition_at;
use records::COMPLETE;
use table_format::{CPU, NOW, behavior_var, end_var, state_var};
use table_writer::Writer;
use translate_guards::{put_earlier, put_guard, put_otherwise};
use updates::{put_assignments, put_sends};

// The thread executes, and its job ends now.
fn put_running(out: &mut Writer<'_>, thread: u8)
    ensures { WritesClauses out.old (finished_clauses thread) out.new }
{
    out.equals(state_var(thread), EXECUTION as u32);
    out.same(end_var(thread), NOW);
}

fn put_ends(out: &mut Writer<'_>, model: &[u32], thread: u8)
    ensures { WritesUpdates out.old (finish_updates (timing_in model.now) thread) out.new }
{
    out.set(state_var(thread), COMPLETED as u32);
    out.set(CPU, NONE as u32);
    out.set(end_var(thread), 0);
}

// The thread executes, its job ends now, it is where the transition leaves, and the guard holds.
fn put_open(out: &mut Writer<'_>, model: &[u32], thread: u8, transition: usize)
    requires { WellFormed (model_in model.now) × (transition < (behavior_in model.now).transitions) }
    ensures { WritesClauses out.old (open_clauses thread (transition_at (behavior_in model.now) transition).from (guard_clauses (behavior_in model.now) transition)) out.new }
{
    let own = transition_at(model, transition);
    put_running(out, thread);
    out.equals(behavior_var(thread), own.from as u32);
    put_guard(out, model, transition);
}

fn put_transition_updates(out: &mut Writer<'_>, model: &[u32], thread: u8, transition: usize)
    requires { WellFormed (model_in model.now) × (transition < (behavior_in model.now).transitions) }
    ensures { WritesUpdates out.old (transition_updates (model_in model.now) thread transition) out.new }
{
    let own = transition_at(model, transition);
    let count = own.assignments as usize;
    put_ends(out, model, thread);
    out.set(behavior_var(thread), own.to as u32);
    put_assignments(out, model, transition, count);
    put_sends(out, model, thread, transition, count);
}

fn put_transition_rule(out: &mut Writer<'_>, model: &[u32], thread: u8, transition: usize)
    requires { WellFormed (model_in model.now) × (transition < (behavior_in model.now).transitions) }
    ensures { WritesRules out.old (stamped complete_kind thread (transition_rule (model_in model.now) thread transition ∷ [])) out.new }
{
    out.rule(COMPLETE, thread, 0, 0);
    put_open(out, model, thread, transition);
    put_earlier(out, model, thread, transition);
    put_transition_updates(out, model, thread, transition);
}

// The rule of the transition where it is one of the thread.
fn put_transition(out: &mut Writer<'_>, model: &[u32], thread: u8, transition: usize)
    requires { WellFormed (model_in model.now) × (transition < (behavior_in model.now).transitions) }
    ensures { WritesRules out.old (stamped complete_kind thread (rules_at (model_in model.now) thread transition)) out.new }
{
    let own = transition_at(model, transition);
    if own.thread == thread {
        put_transition_rule(out, model, thread, transition);
    }
}

fn put_default_clauses(out: &mut Writer<'_>, model: &[u32], thread: u8)
    requires { WellFormed (model_in model.now) }
    ensures { WritesClauses out.old (default_clauses (behavior_in model.now) thread) out.new }
{
    put_running(out, thread);
    put_otherwise(out, model, thread);
}

// Without a transition there are no assignments, so each connection sends the old output.
fn put_default_updates(out: &mut Writer<'_>, model: &[u32], thread: u8)
    requires { GoodTiming (timing_in model.now) }
    ensures { WritesUpdates out.old (default_updates (timing_in model.now) thread) out.new }
{
    put_ends(out, model, thread);
    put_sends(out, model, thread, 0, 0);
}

fn put_default_rule(out: &mut Writer<'_>, model: &[u32], thread: u8)
    requires { WellFormed (model_in model.now) }
    ensures { WritesRules out.old (stamped complete_kind thread (default_rule (model_in model.now) thread ∷ [])) out.new }
{
    out.rule(COMPLETE, thread, 0, 0);
    put_default_clauses(out, model, thread);
    put_default_updates(out, model, thread);
}

pub fn put_complete(out: &mut Writer<'_>, model: &[u32], thread: u8)
    requires { WellFormed (model_in model.now) }
    ensures { WritesRules out.old (stamped complete_kind thread (complete_rules (model_in model.now) thread)) out.new }
{
    for transition in 0..model_words::transitions(model) {
        put_transition(out, model, thread, transition);
    }
    put_default_rule(out, model, thread);
}
