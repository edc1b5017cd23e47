// Atoms and assignments with no fault. Nearly all have none, so this is asked first: it stops at the first fault, and leaves it to the
// causes to tell which that is.

ghost use Rattle.std.specs.Prelude.{◌≡◌, true};
ghost use Rattle.records.specs.declared.Cause.TheVariants as records;
ghost use Rattle.model_format.specs.declared.Record.TheVariants as variants;
ghost use Rattle.model_format.specs.Reading as reading;
ghost use Rattle.model_words.specs.Words as words;
ghost use Rattle.model_causes.specs.Readings as readings;
ghost use Rattle.model_causes.specs.Fits as fits;

use crate::is_assigned;
use model_faults::{
    COMPARISONS, MAX_EACH_BYTE, OPERATIONS, in_order, left_tag, number_in, operand_tag, target_tag,
};
use model_format::{
    ASSIGNMENT_RANK, ATOM_RANK, Assignment, Atom, INPUT_TAG, LOCAL_TAG, OUTPUT_TAG, Transition,
};
use model_words::{input_owner, inputs, local_at, locals, output_owner, outputs};
use records::Operand;

// The item that a tag and a number name is there, and the thread owns it.
fn item_fits(model: &[u32], thread: u8, tag: u8, number: usize) -> bool
    ensures { result ≡ fits.item_fits (words.timing_in model.now) thread tag number }
{
    match tag {
        INPUT_TAG => number < inputs(model) && input_owner(model, number) == thread,
        LOCAL_TAG => number < locals(model) && local_at(model, number).owner == thread,
        OUTPUT_TAG => number < outputs(model) && output_owner(model, number) == thread,
        _ => true,
    }
}

fn operand_fits(model: &[u32], thread: u8, operand: Operand) -> bool
    ensures { result ≡ fits.operand_fits (words.timing_in model.now) thread operand }
{
    operand_tag(operand) && item_fits(model, thread, operand.tag, number_in(operand))
}

// `transition` is the transition that the atom belongs to.
pub fn atom_fits(model: &[u32], last: u8, transition: Transition, atom: Atom) -> bool
    requires { transition ≡ reading.open_transition (readings.reading_in last model.now) }
    ensures { result ≡ true → reading.cause_of (readings.reading_in last model.now) (variants.AtomRecord atom) ≡ records.None }
{
    if !in_order(last, ATOM_RANK) {
        return false;
    }
    if MAX_EACH_BYTE <= transition.atoms {
        return false;
    }
    if COMPARISONS <= atom.op {
        return false;
    }
    if !left_tag(atom) {
        return false;
    }
    if !item_fits(model, transition.thread, atom.tag, usize::from(atom.number)) {
        return false;
    }
    operand_fits(model, transition.thread, atom.right)
}

// `transition` is the transition that the assignment belongs to, and `current` its number.
pub fn assignment_fits(
    model: &[u32],
    last: u8,
    current: usize,
    transition: Transition,
    assignment: Assignment,
) -> bool
    requires { (current ≡ reading.last_transition (words.behavior_in model.now)) × (transition ≡ reading.open_transition (readings.reading_in last model.now)) }
    ensures { result ≡ true → reading.cause_of (readings.reading_in last model.now) (variants.AssignmentRecord assignment) ≡ records.None }
{
    if !in_order(last, ASSIGNMENT_RANK) {
        return false;
    }
    if MAX_EACH_BYTE <= transition.assignments {
        return false;
    }
    if OPERATIONS <= assignment.op {
        return false;
    }
    if !target_tag(assignment) {
        return false;
    }
    if !item_fits(
        model,
        transition.thread,
        assignment.tag,
        usize::from(assignment.number),
    ) {
        return false;
    }
    if !operand_fits(model, transition.thread, assignment.first) {
        return false;
    }
    if !operand_fits(model, transition.thread, assignment.second) {
        return false;
    }
    !is_assigned(model, current, transition.assignments, assignment)
}
