// The rules of one thread for every event but COMPLETE, written into a lent slice.

#![tactic(auto)]

mod parts;

ghost use Rattle.std.specs.Prelude.{cond, [], ◌∷◌};
ghost use Rattle.records.specs.Events.{activate_kind, deactivate_kind, dispatch_kind, start_kind, deadline_kind, miss_kind};
ghost use Rattle.model_format.specs.WellFormed.{GoodTiming};
ghost use Rattle.model_semantics.specs.Tests.{runs};
ghost use Rattle.model_words.specs.Words.{timing_in};
ghost use Rattle.translation.specs.Parts.{stamped};
ghost use Rattle.translation.specs.Rules as rules;
ghost use Rattle.table_writer.specs.Writes.{WritesClauses, WritesUpdates, WritesRules};

use model_format::{DELAYED, is_critical};
use model_semantics::{
    COMPLETED, EXECUTION, NONE, WAITING_DISPATCH, WAITING_EXECUTION, WAITING_MODE,
};
use model_words::thread_at;
use parts::{put_active_is, put_due_is_now, put_job_ends, put_missed, put_state, put_state_is};
use records::{ACTIVATE, DEACTIVATE, DEADLINE, DISPATCH, MISS, START};
use table_format::{CPU, NOW, dispatch_var, due_var, end_var};
use table_writer::Writer;
use translate_connections::{put_dispatch_ports, put_sends, put_start_ports};
use translate_waits::{put_delayed_waits, put_immediate_waits};

// ---- ACTIVATE and DEACTIVATE
pub fn put_activate(out: &mut Writer<'_>, model: &[u32], thread: u8)
    ensures { WritesRules out.old (stamped activate_kind thread (rules.activate_rules (timing_in model.now) thread)) out.new }
{
    out.rule(ACTIVATE, thread, 0, 0);
    put_active_is(out, thread, 1);
    put_state_is(out, thread, WAITING_MODE);
    put_state(out, thread, WAITING_DISPATCH);
}

// Only a job that runs has the processor to leave.
fn put_left(out: &mut Writer<'_>, model: &[u32], thread: u8, code: u8)
    ensures { WritesUpdates out.old (cond (runs code) (rules.job_ends (timing_in model.now) thread) []) out.new }
{
    if code == EXECUTION {
        put_job_ends(out, model, thread);
    }
}

// The rule for the code that the thread leaves with.
fn put_deactivate_rule(out: &mut Writer<'_>, model: &[u32], thread: u8, code: u8)
    ensures { WritesRules out.old (stamped deactivate_kind thread (rules.deactivate_rule (timing_in model.now) thread code ∷ [])) out.new }
{
    out.rule(DEACTIVATE, thread, 0, 0);
    put_active_is(out, thread, 0);
    put_state_is(out, thread, code);
    put_state(out, thread, WAITING_MODE);
    put_left(out, model, thread, code);
}

// A job in hand is stopped, however far it has come.
fn put_stops(out: &mut Writer<'_>, model: &[u32], thread: u8)
    ensures { WritesRules out.old (stamped deactivate_kind thread (rules.stop_rules (timing_in model.now) thread)) out.new }
{
    put_deactivate_rule(out, model, thread, WAITING_EXECUTION);
    put_deactivate_rule(out, model, thread, EXECUTION);
    put_deactivate_rule(out, model, thread, COMPLETED);
}

// A critical thread that leaves goes on to its deadline; any other is stopped.
pub fn put_deactivate(out: &mut Writer<'_>, model: &[u32], thread: u8)
    ensures { WritesRules out.old (stamped deactivate_kind thread (rules.deactivate_rules (timing_in model.now) thread)) out.new }
{
    put_deactivate_rule(out, model, thread, WAITING_DISPATCH);
    if !is_critical(thread_at(model, thread as usize)) {
        put_stops(out, model, thread);
    }
}

// ---- DISPATCH
fn put_dispatch_clauses(out: &mut Writer<'_>, model: &[u32], thread: u8)
    requires { GoodTiming (timing_in model.now) }
    ensures { WritesClauses out.old (rules.dispatch_clauses (timing_in model.now) thread) out.new }
{
    let own = thread_at(model, thread as usize);
    put_state_is(out, thread, WAITING_DISPATCH);
    put_active_is(out, thread, 1);
    out.multiple(NOW, own.period.0);
    put_delayed_waits(out, model, thread);
}

fn put_dispatch_updates(out: &mut Writer<'_>, model: &[u32], thread: u8)
    requires { GoodTiming (timing_in model.now) }
    ensures { WritesUpdates out.old (rules.dispatch_updates (timing_in model.now) thread) out.new }
{
    let own = thread_at(model, thread as usize);
    let dispatch = dispatch_var(thread);
    let due = due_var(thread);
    put_state(out, thread, WAITING_EXECUTION);
    out.copy(dispatch, NOW);
    out.sum(due, NOW, own.deadline.0);
    put_dispatch_ports(out, model, thread);
}

pub fn put_dispatch(out: &mut Writer<'_>, model: &[u32], thread: u8)
    requires { GoodTiming (timing_in model.now) }
    ensures { WritesRules out.old (stamped dispatch_kind thread (rules.dispatch_rules (timing_in model.now) thread)) out.new }
{
    out.rule(DISPATCH, thread, 0, 0);
    put_dispatch_clauses(out, model, thread);
    put_dispatch_updates(out, model, thread);
}

// ---- START
fn put_start_clauses(out: &mut Writer<'_>, model: &[u32], thread: u8)
    requires { GoodTiming (timing_in model.now) }
    ensures { WritesClauses out.old (rules.start_clauses (timing_in model.now) thread) out.new }
{
    let due = due_var(thread);
    put_state_is(out, thread, WAITING_EXECUTION);
    out.equals(CPU, NONE as u32);
    out.different(due, NOW);
    put_immediate_waits(out, model, thread);
}

fn put_start_updates(out: &mut Writer<'_>, model: &[u32], thread: u8)
    requires { GoodTiming (timing_in model.now) }
    ensures { WritesUpdates out.old (rules.start_updates (timing_in model.now) thread) out.new }
{
    let end = end_var(thread);
    put_state(out, thread, EXECUTION);
    out.set(CPU, thread as u32);
    out.chosen(end, NOW);
    put_start_ports(out, model, thread);
}

pub fn put_start(out: &mut Writer<'_>, model: &[u32], thread: u8)
    requires { GoodTiming (timing_in model.now) }
    ensures { WritesRules out.old (stamped start_kind thread (rules.start_rules (timing_in model.now) thread)) out.new }
{
    let own = thread_at(model, thread as usize);
    out.rule(START, thread, own.bcet.0, own.wcet.0);
    put_start_clauses(out, model, thread);
    put_start_updates(out, model, thread);
}

// ---- DEADLINE
fn put_deadline_rule(out: &mut Writer<'_>, model: &[u32], thread: u8, active: u8, code: u8)
    requires { GoodTiming (timing_in model.now) }
    ensures { WritesRules out.old (stamped deadline_kind thread (rules.deadline_rule (timing_in model.now) thread active code ∷ [])) out.new }
{
    out.rule(DEADLINE, thread, 0, 0);
    put_state_is(out, thread, COMPLETED);
    put_due_is_now(out, thread);
    put_active_is(out, thread, active);
    put_state(out, thread, code);
    put_sends(out, model, DELAYED, thread);
}

pub fn put_deadline(out: &mut Writer<'_>, model: &[u32], thread: u8)
    requires { GoodTiming (timing_in model.now) }
    ensures { WritesRules out.old (stamped deadline_kind thread (rules.deadline_rules (timing_in model.now) thread)) out.new }
{
    put_deadline_rule(out, model, thread, 1, WAITING_DISPATCH);
    put_deadline_rule(out, model, thread, 0, WAITING_MODE);
}

// ---- MISS
fn put_miss_waiting(out: &mut Writer<'_>, thread: u8, active: u8, code: u8)
    ensures { WritesRules out.old (stamped miss_kind thread (rules.miss_waiting thread active code ∷ [])) out.new }
{
    out.rule(MISS, thread, 0, 0);
    put_state_is(out, thread, WAITING_EXECUTION);
    put_active_is(out, thread, active);
    put_due_is_now(out, thread);
    put_missed(out, thread, code);
}

fn put_miss_running(out: &mut Writer<'_>, model: &[u32], thread: u8, active: u8, code: u8)
    ensures { WritesRules out.old (stamped miss_kind thread (rules.miss_running (timing_in model.now) thread active code ∷ [])) out.new }
{
    let end = end_var(thread);
    out.rule(MISS, thread, 0, 0);
    put_state_is(out, thread, EXECUTION);
    put_active_is(out, thread, active);
    put_due_is_now(out, thread);
    out.different(end, NOW);
    put_missed(out, thread, code);
    put_job_ends(out, model, thread);
}

pub fn put_miss(out: &mut Writer<'_>, model: &[u32], thread: u8)
    ensures { WritesRules out.old (stamped miss_kind thread (rules.miss_rules (timing_in model.now) thread)) out.new }
{
    put_miss_waiting(out, thread, 1, WAITING_DISPATCH);
    put_miss_waiting(out, thread, 0, WAITING_MODE);
    put_miss_running(out, model, thread, 1, WAITING_DISPATCH);
    put_miss_running(out, model, thread, 0, WAITING_MODE);
}
