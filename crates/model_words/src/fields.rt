// The fields of items, a number each. A number that is too large for its field is cut.

ghost use Rattle.std.specs.Prelude.{◌≡◌, ◌<◌};
ghost use Rattle.model_words.specs.Words as words;

use numbers::{Duration, Value, item_or};
use records::Operand;

pub fn byte_in(model: &[u32], at: usize) -> u8
    ensures { result ≡ words.byte_in model.now at }
{
    (item_or(model, at, 0) % 256) as u8
}

pub fn short_in(model: &[u32], at: usize) -> u16
    ensures { result ≡ words.short_in model.now at }
{
    (item_or(model, at, 0) % 65536) as u16
}

pub fn duration_in(model: &[u32], at: usize) -> Duration
    ensures { result ≡ words.duration_in model.now at }
{
    Duration(item_or(model, at, 0))
}

pub fn value_in(model: &[u32], at: usize) -> Value
    ensures { result ≡ words.value_in model.now at }
{
    numbers::value_of(item_or(model, at, 0))
}

pub fn operand_in(model: &[u32], at: usize) -> Operand
    requires { at < words.model_words }
    ensures { result ≡ words.operand_in model.now at }
{
    Operand {
        tag: byte_in(model, at),
        value: value_in(model, at + 1),
    }
}
