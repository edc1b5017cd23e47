// The rules of REQUEST, ENTER and LEAVE of one mode transition, written into a lent slice.

#![tactic(auto)]

ghost use Rattle.std.specs.Prelude.{◌≡◌, [], ◌∷◌, ◌<◌};
ghost use Rattle.records.specs.Events.{request_kind, enter_kind, leave_kind};
ghost use Rattle.model_format.specs.WellFormed.{GoodTiming};
ghost use Rattle.model_semantics.specs.Effects.{in_both};
ghost use Rattle.model_words.specs.Words.{timing_in};
ghost use Rattle.table_format.specs.Variables.{connection_room};
ghost use Rattle.translation.specs.Parts.{stamped};
ghost use Rattle.translation.specs.Rules as rules;
ghost use Rattle.table_writer.specs.Writes.{WritesClauses, WritesUpdates, WritesRules};

use model_format::in_mode;
use model_semantics::{CHANGING, NONE, REQUESTED, STEADY};
use model_words::{connection_at, connections, switch_at, thread_at, threads};
use records::{ENTER, LEAVE, REQUEST};
use table_format::{DIFFERS, ENTERED, MODE, NOW, PENDING, PHASE, active_var, flag_var};
use table_writer::Writer;

fn in_both(mask: u8, old: u8, new: u8) -> bool
    ensures { result ≡ in_both mask old new }
{
    in_mode(mask, old) & in_mode(mask, new)
}

// ---- Active of one thread, of all
fn put_active(out: &mut Writer<'_>, model: &[u32], mode: u8, thread: u8)
    ensures { WritesUpdates out.old (rules.active_update (timing_in model.now) mode thread) out.new }
{
    let own = thread_at(model, thread as usize);
    let active = u32::from(in_mode(own.modes, mode));
    out.set(active_var(thread), active);
}

fn put_actives(out: &mut Writer<'_>, model: &[u32], mode: u8)
    requires { GoodTiming (timing_in model.now) }
    ensures { WritesUpdates out.old (rules.active_updates (timing_in model.now) mode) out.new }
{
    for thread in 0..threads(model) {
        put_active(out, model, mode, thread as u8);
    }
}

// ---- Flag of one connection, of all
fn put_flag(out: &mut Writer<'_>, model: &[u32], old: u8, new: u8, connection: u16)
    requires { connection < connection_room }
    ensures { WritesUpdates out.old (rules.flag_update (timing_in model.now) old new connection) out.new }
{
    let own = connection_at(model, connection as usize);
    let live = u32::from(in_both(own.modes, old, new));
    out.set(flag_var(connection), live);
}

fn put_flags(out: &mut Writer<'_>, model: &[u32], old: u8, new: u8)
    requires { GoodTiming (timing_in model.now) }
    ensures { WritesUpdates out.old (rules.flag_updates (timing_in model.now) old new) out.new }
{
    for connection in 0..connections(model) {
        put_flag(out, model, old, new, connection as u16);
    }
}

// ---- REQUEST: one rule where it is granted, one where it is ignored
fn put_granted(out: &mut Writer<'_>, switch: u8, from: u8)
    ensures { WritesRules out.old (stamped request_kind switch (rules.request_granted switch from ∷ [])) out.new }
{
    out.rule(REQUEST, switch, 0, 0);
    out.equals(PHASE, STEADY as u32);
    out.equals(MODE, from as u32);
    out.set(PHASE, REQUESTED as u32);
    out.set(PENDING, switch as u32);
}

fn put_ignored(out: &mut Writer<'_>, switch: u8, from: u8)
    ensures { WritesRules out.old (stamped request_kind switch (rules.request_ignored from ∷ [])) out.new }
{
    out.rule(REQUEST, switch, 0, 0);
    out.clause();
    out.compared(DIFFERS, PHASE, STEADY as u32);
    out.compared(DIFFERS, MODE, from as u32);
}

pub fn put_request(out: &mut Writer<'_>, model: &[u32], switch: u8)
    ensures { WritesRules out.old (stamped request_kind switch (rules.request_rules (timing_in model.now) switch)) out.new }
{
    let own = switch_at(model, switch as usize);
    put_granted(out, switch, own.from);
    put_ignored(out, switch, own.from);
}

// ---- ENTER and LEAVE
fn put_phase(out: &mut Writer<'_>, phase: u8, switch: u8)
    ensures { WritesClauses out.old (rules.phase_is phase switch) out.new }
{
    out.equals(PHASE, phase as u32);
    out.equals(PENDING, switch as u32);
}

fn put_entry_clauses(out: &mut Writer<'_>, switch: u8, hyperperiod: u32)
    ensures { WritesClauses out.old (rules.enter_clauses switch hyperperiod) out.new }
{
    put_phase(out, REQUESTED, switch);
    out.multiple(NOW, hyperperiod);
}

fn put_entry_updates(out: &mut Writer<'_>, model: &[u32], old: u8, new: u8)
    requires { GoodTiming (timing_in model.now) }
    ensures { WritesUpdates out.old (rules.enter_updates (timing_in model.now) old new) out.new }
{
    out.set(PHASE, CHANGING as u32);
    out.copy(ENTERED, NOW);
    put_actives(out, model, new);
    put_flags(out, model, old, new);
}

pub fn put_enter(out: &mut Writer<'_>, model: &[u32], switch: u8)
    requires { GoodTiming (timing_in model.now) }
    ensures { WritesRules out.old (stamped enter_kind switch (rules.enter_rules (timing_in model.now) switch)) out.new }
{
    let own = switch_at(model, switch as usize);
    out.rule(ENTER, switch, 0, 0);
    put_entry_clauses(out, switch, own.h1.0);
    put_entry_updates(out, model, own.from, own.to);
}

// Not in the instant of ENTER.
fn put_exit_clauses(out: &mut Writer<'_>, switch: u8, hyperperiod: u32)
    ensures { WritesClauses out.old (rules.leave_clauses switch hyperperiod) out.new }
{
    put_phase(out, CHANGING, switch);
    out.different(NOW, ENTERED);
    out.multiple(NOW, hyperperiod);
}

fn put_exit_updates(out: &mut Writer<'_>, model: &[u32], new: u8)
    requires { GoodTiming (timing_in model.now) }
    ensures { WritesUpdates out.old (rules.leave_updates (timing_in model.now) new) out.new }
{
    out.set(PHASE, STEADY as u32);
    out.set(PENDING, NONE as u32);
    out.set(MODE, new as u32);
    put_flags(out, model, new, new);
}

pub fn put_leave(out: &mut Writer<'_>, model: &[u32], switch: u8)
    requires { GoodTiming (timing_in model.now) }
    ensures { WritesRules out.old (stamped leave_kind switch (rules.leave_rules (timing_in model.now) switch)) out.new }
{
    let own = switch_at(model, switch as usize);
    out.rule(LEAVE, switch, 0, 0);
    put_exit_clauses(out, switch, own.h2.0);
    put_exit_updates(out, model, own.to);
}
