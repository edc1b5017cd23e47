// What a thread waits for: the clauses of each connection into it.

ghost use Rattle.std.specs.Prelude.{[], ◌∷◌, ◌<◌};
ghost use Rattle.model_format.specs.WellFormed.{GoodTiming};
ghost use Rattle.model_words.specs.Words.{timing_in};
ghost use Rattle.table_format.specs.Variables.{connection_room};
ghost use Rattle.table_writer.specs.Writes.{WritesClauses};
ghost use Rattle.translation.specs.Rules as rules;

use crate::connections::{is_into, source_thread};
use model_format::{DELAYED, IMMEDIATE};
use model_semantics::{COMPLETED, WAITING_DISPATCH, WAITING_EXECUTION, WAITING_MODE};
use model_words::{connections, thread_at};
use table_format::{
    DIFFERS, EQUALS, IS_AT_LEAST, IS_BELOW, NO_MULTIPLE_OF, NOW, active_var, dispatch_var, due_var,
    flag_var, state_var,
};
use table_writer::Writer;

// "[Flag=0, State(src)=0, State(src)=1, Due(src)≠Now]"
fn put_delayed(out: &mut Writer<'_>, connection: u16, source: u8)
    requires { connection < connection_room }
    ensures { WritesClauses out.old (rules.delayed_from connection source ∷ []) out.new }
{
    let flag = flag_var(connection);
    let state = state_var(source);
    let due = due_var(source);
    out.clause();
    out.compared(EQUALS, flag, 0);
    out.compared(EQUALS, state, WAITING_MODE as u32);
    out.compared(EQUALS, state, WAITING_DISPATCH as u32);
    out.related(DIFFERS, due, NOW);
}

// "[Flag=0, State(src)<2, State(src)=4, DispatchTime(src)≠own]"
fn put_beside(out: &mut Writer<'_>, thread: u8, connection: u16, source: u8)
    requires { connection < connection_room }
    ensures { WritesClauses out.old (rules.beside_from thread connection source ∷ []) out.new }
{
    let flag = flag_var(connection);
    let state = state_var(source);
    let dispatch = dispatch_var(source);
    let own = dispatch_var(thread);
    out.clause();
    out.compared(EQUALS, flag, 0);
    out.compared(IS_BELOW, state, WAITING_EXECUTION as u32);
    out.compared(EQUALS, state, COMPLETED as u32);
    out.related(DIFFERS, dispatch, own);
}

// "[Flag=0, Active(src)=0, State(src)≥2, own DispatchTime≠Now, Now no multiple of Period(src)]"
fn put_coming(out: &mut Writer<'_>, thread: u8, connection: u16, source: u8, period: u32)
    requires { connection < connection_room }
    ensures { WritesClauses out.old (rules.coming_from thread connection source period ∷ []) out.new }
{
    let flag = flag_var(connection);
    let active = active_var(source);
    let state = state_var(source);
    let own = dispatch_var(thread);
    out.clause();
    out.compared(EQUALS, flag, 0);
    out.compared(EQUALS, active, 0);
    out.compared(IS_AT_LEAST, state, WAITING_EXECUTION as u32);
    out.related(DIFFERS, own, NOW);
    out.compared(NO_MULTIPLE_OF, NOW, period);
}

// Both for an immediate connection from the source, which has the period given.
fn put_immediate(out: &mut Writer<'_>, thread: u8, connection: u16, source: u8, period: u32)
    requires { connection < connection_room }
    ensures { WritesClauses out.old (rules.beside_from thread connection source ∷ rules.coming_from thread connection source period ∷ []) out.new }
{
    put_beside(out, thread, connection, source);
    put_coming(out, thread, connection, source, period);
}

// The delayed connections into the thread.
pub fn put_delayed_waits(out: &mut Writer<'_>, model: &[u32], thread: u8)
    requires { GoodTiming (timing_in model.now) }
    ensures { WritesClauses out.old (rules.delayed_waits (timing_in model.now) thread) out.new }
{
    for connection in 0..connections(model) {
        if is_into(model, connection, DELAYED, thread) {
            let source = source_thread(model, connection);
            put_delayed(out, connection as u16, source);
        }
    }
}

// The immediate connections into the thread.
pub fn put_immediate_waits(out: &mut Writer<'_>, model: &[u32], thread: u8)
    requires { GoodTiming (timing_in model.now) }
    ensures { WritesClauses out.old (rules.immediate_waits (timing_in model.now) thread) out.new }
{
    for connection in 0..connections(model) {
        if is_into(model, connection, IMMEDIATE, thread) {
            let source = source_thread(model, connection);
            let from = thread_at(model, source as usize);
            put_immediate(out, thread, connection as u16, source, from.period.0);
        }
    }
}
