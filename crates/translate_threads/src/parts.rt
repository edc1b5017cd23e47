// Clauses and updates about one thread, which several rules share.

ghost use Rattle.std.specs.Prelude.{[], ◌∷◌};
ghost use Rattle.model_words.specs.Words.{timing_in};
ghost use Rattle.table_format.specs.Variables.{state_var};
ghost use Rattle.translation.specs.Parts.{set_to};
ghost use Rattle.translation.specs.Rules.{state_is, active_is, due_is_now, job_ends, miss_updates};
ghost use Rattle.table_writer.specs.Writes.{WritesClauses, WritesUpdates};

use model_semantics::NONE;
use table_format::{CPU, NOW, active_var, due_var, end_var, missed_var, state_var};
use table_writer::Writer;

pub fn put_state_is(out: &mut Writer<'_>, thread: u8, code: u8)
    ensures { WritesClauses out.old (state_is thread code ∷ []) out.new }
{
    let state = state_var(thread);
    out.equals(state, code as u32);
}

pub fn put_active_is(out: &mut Writer<'_>, thread: u8, wanted: u8)
    ensures { WritesClauses out.old (active_is thread wanted ∷ []) out.new }
{
    let active = active_var(thread);
    out.equals(active, wanted as u32);
}

pub fn put_due_is_now(out: &mut Writer<'_>, thread: u8)
    ensures { WritesClauses out.old (due_is_now thread ∷ []) out.new }
{
    let due = due_var(thread);
    out.same(due, NOW);
}

pub fn put_state(out: &mut Writer<'_>, thread: u8, code: u8)
    ensures { WritesUpdates out.old (set_to (state_var thread) code ∷ []) out.new }
{
    let state = state_var(thread);
    out.set(state, code as u32);
}

// A thread whose job ends leaves the processor.
pub fn put_job_ends(out: &mut Writer<'_>, model: &[u32], thread: u8)
    ensures { WritesUpdates out.old (job_ends (timing_in model.now) thread) out.new }
{
    out.set(CPU, NONE as u32);
    let end = end_var(thread);
    out.set(end, 0);
}

// What a missed deadline changes of every thread.
pub fn put_missed(out: &mut Writer<'_>, thread: u8, code: u8)
    ensures { WritesUpdates out.old (miss_updates thread code) out.new }
{
    put_state(out, thread, code);
    let missed = missed_var(thread);
    out.sum(missed, missed, 1);
}
