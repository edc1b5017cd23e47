// What the operands of atoms and assignments stand for in a state.

ghost use Rattle.std.specs.Prelude.{◌≡◌};
ghost use Rattle.model_semantics.specs.Effects as effects;
ghost use Rattle.model_state.specs.Words.{state_in};

use model_format::{Assignment, Atom, INPUT_TAG};
use model_state::{input_value, local_value};
use numbers::{Value, bits, combine, compares};
use records::Operand;

// The tag of an operand that is a constant; any other but an input port's is a local's.
const CONSTANT: u8 = 0;

fn operand_value(state: &[u32], operand: Operand) -> Value
    ensures { result ≡ effects.operand_value (state_in state.now).ports operand }
{
    if operand.tag == CONSTANT {
        return operand.value;
    }
    let i = bits(operand.value) as usize;
    if operand.tag == INPUT_TAG {
        return input_value(state, i);
    }
    local_value(state, i)
}

fn left_value(state: &[u32], atom: Atom) -> Value
    ensures { result ≡ effects.left_value (state_in state.now).ports atom }
{
    let i = usize::from(atom.number);
    if atom.tag == INPUT_TAG {
        return input_value(state, i);
    }
    local_value(state, i)
}

pub fn atom_holds(state: &[u32], atom: Atom) -> bool
    ensures { result ≡ effects.atom_holds (state_in state.now).ports atom }
{
    let left = left_value(state, atom);
    let right = operand_value(state, atom.right);
    compares(atom.op, left, right)
}

pub fn assigned_value(state: &[u32], assignment: Assignment) -> Value
    ensures { result ≡ effects.assigned_value (state_in state.now).ports assignment }
{
    let first = operand_value(state, assignment.first);
    let second = operand_value(state, assignment.second);
    combine(assignment.op, first, second)
}
