// The assignments of a transition and the buffers that it fills, as updates.

ghost use Rattle.std.specs.Prelude.{◌≡◌, [], ◌∷◌, ◌<◌};
ghost use Rattle.model_format.specs.Model.{connection_at, immediate};
ghost use Rattle.model_format.specs.WellFormed.{GoodTiming};
ghost use Rattle.model_words.specs.Words.{timing_in, behavior_in};
ghost use Rattle.table_format.specs.Variables.{output_room};
ghost use Rattle.translation.specs.Parts as parts;
ghost use Rattle.translation.specs.Rules.{assigned_expression, assignment_update, assignment_updates, old_output, sent_after, sent_expression, send_update, where_sent, send_updates};
ghost use Rattle.table_writer.specs.Writes.{WritesUpdates};
ghost use Rattle.translate_guards.specs.Named.{NamedAssignment, NamedFirst};
ghost use Rattle.translate_complete.specs.Assigned.{expression_of};

use model_format::{Assignment, IMMEDIATE, OUTPUT_TAG};
use model_words::{assignment_at, connection_at};
use records::Operand;
use table_format::{COPY, NO_VARIABLE, Update, buffer_var, flag_var, output_var};
use table_writer::{Writer, unused, variable};
use translate_guards::{operand_of, variable_of};
use translate_waits::is_from;

// What a variable is set to: `op` of two operands.
#[derive(Clone, Copy)]
struct Expression {
    op: u8,
    first: Operand,
    second: Operand,
}

fn copied_output(port: u16) -> Expression
    requires { port < output_room }
    ensures { expression_of result ≡ old_output port }
{
    Expression {
        op: COPY,
        first: variable(output_var(port)),
        second: unused(),
    }
}

// A copy has no second operand.
fn assigned(assignment: Assignment) -> Expression
    requires { NamedAssignment assignment }
    ensures { expression_of result ≡ assigned_expression assignment }
{
    let first = operand_of(assignment.first);
    if assignment.op == COPY {
        return Expression {
            op: COPY,
            first,
            second: unused(),
        };
    }
    Expression {
        op: assignment.op,
        first,
        second: operand_of(assignment.second),
    }
}

fn put_assigned(
    out: &mut Writer<'_>,
    condition: u16,
    wanted: u8,
    target: u16,
    expression: Expression,
)
    ensures { WritesUpdates out.old (parts.update_when condition wanted target (expression_of expression) ∷ []) out.new }
{
    out.update(Update {
        condition,
        wanted,
        target,
        op: expression.op,
        first: expression.first,
        second: expression.second,
    });
}

fn put_assignment(out: &mut Writer<'_>, assignment: Assignment)
    requires { NamedAssignment assignment }
    ensures { WritesUpdates out.old (assignment_update assignment) out.new }
{
    let target = variable_of(assignment.tag, assignment.number);
    let expression = assigned(assignment);
    put_assigned(out, NO_VARIABLE, 0, target, expression);
}

// The first `count` assignments of a transition.
pub fn put_assignments(out: &mut Writer<'_>, model: &[u32], transition: usize, count: usize)
    requires { NamedFirst (behavior_in model.now) transition count }
    ensures { WritesUpdates out.old (assignment_updates (behavior_in model.now) transition count) out.new }
{
    for number in 0..count {
        let assignment = assignment_at(model, transition, number);
        put_assignment(out, assignment);
    }
}

// What an output port holds after an assignment, by what it held.
fn sent_after(assignment: Assignment, port: u16, held: Expression) -> Expression
    requires { NamedAssignment assignment }
    ensures { expression_of result ≡ sent_after assignment port (expression_of held) }
{
    if (assignment.tag == OUTPUT_TAG) & (assignment.number == port) {
        return assigned(assignment);
    }
    held
}

// And after the first `count` of a transition.
fn sent(model: &[u32], transition: usize, count: usize, port: u16) -> Expression
    requires { NamedFirst (behavior_in model.now) transition count × (port < output_room) }
    ensures { expression_of result ≡ sent_expression (behavior_in model.now) transition count port }
{
    let mut expression = copied_output(port);
    for number in 0..count {
        let assignment = assignment_at(model, transition, number);
        expression = sent_after(assignment, port, expression);
    }
    expression
}

// What a connection sends after those.
fn put_send(out: &mut Writer<'_>, model: &[u32], transition: usize, count: usize, connection: usize)
    requires { GoodTiming (timing_in model.now) × (NamedFirst (behavior_in model.now) transition count × (connection < (timing_in model.now).connections)) }
    ensures { WritesUpdates out.old (send_update connection (connection_at (timing_in model.now) connection) (sent_expression (behavior_in model.now) transition count) ∷ []) out.new }
{
    let own = connection_at(model, connection);
    let target = buffer_var(own.target);
    let expression = sent(model, transition, count, own.source);
    put_assigned(out, flag_var(connection as u16), 1, target, expression);
}

fn put_send_from(
    out: &mut Writer<'_>,
    model: &[u32],
    thread: u8,
    transition: usize,
    count: usize,
    connection: usize,
)
    requires { GoodTiming (timing_in model.now) × (NamedFirst (behavior_in model.now) transition count × (connection < (timing_in model.now).connections)) }
    ensures { WritesUpdates out.old (where_sent (timing_in model.now) immediate thread (sent_expression (behavior_in model.now) transition count) connection) out.new }
{
    if is_from(model, connection, IMMEDIATE, thread) {
        put_send(out, model, transition, count, connection);
    }
}

// What the immediate connections from the thread send after the first `count` assignments of the transition.
pub fn put_sends(out: &mut Writer<'_>, model: &[u32], thread: u8, transition: usize, count: usize)
    requires { GoodTiming (timing_in model.now) × NamedFirst (behavior_in model.now) transition count }
    ensures { WritesUpdates out.old (send_updates (timing_in model.now) immediate thread (sent_expression (behavior_in model.now) transition count)) out.new }
{
    for connection in 0..model_words::connections(model) {
        put_send_from(out, model, thread, transition, count, connection);
    }
}
