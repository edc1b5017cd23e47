// What a model's atoms and assignments name, as variables and operands of the table.

ghost use Rattle.std.specs.Prelude.{◌≡◌, ◌<◌};
ghost use Rattle.translation.specs.Parts.{negated_op};
ghost use Rattle.translation.specs.Rules.{variable_of, operand_of};
ghost use Rattle.translate_guards.specs.Named.{item_room, NamedOperand};

use model_format::{INPUT_TAG, LOCAL_TAG};
use numbers::bits;
use records::Operand;
use table_format::{
    CONSTANT_TAG, DIFFERS, EQUALS, IS_ABOVE, IS_AT_LEAST, IS_AT_MOST, IS_BELOW, input_var,
    local_var, output_var,
};
use table_writer::variable;

// A tag that is neither of an input port nor of a local is of an output port.
pub fn variable_of(tag: u8, number: u16) -> u16
    requires { number < item_room }
    ensures { result ≡ variable_of tag number }
{
    if tag == INPUT_TAG {
        return input_var(number);
    }
    if tag == LOCAL_TAG {
        return local_var(number);
    }
    output_var(number)
}

// A constant stays; a number names a variable.
pub fn operand_of(operand: Operand) -> Operand
    requires { NamedOperand operand }
    ensures { result ≡ operand_of operand }
{
    let tag = operand.tag;
    if tag == CONSTANT_TAG {
        return operand;
    }
    let number = bits(operand.value);
    let named = variable_of(tag, number as u16);
    variable(named)
}

pub fn negated_op(op: u8) -> u8
    ensures { result ≡ negated_op op }
{
    match op {
        EQUALS => DIFFERS,
        DIFFERS => EQUALS,
        IS_BELOW => IS_AT_LEAST,
        IS_AT_LEAST => IS_BELOW,
        IS_ABOVE => IS_AT_MOST,
        _ => IS_ABOVE,
    }
}
