// What callers lend: variables by their bits, and places for what is told of a refusal or a run.

#![tactic(auto)]

ghost use Rattle.std.specs.Prelude.{◌≡◌, ◌<◌, ℕ};
ghost use Rattle.records.specs.declared.Notation.TheVariants as notations;
ghost use Rattle.records.specs.Format.{part_length_at};
ghost use Rattle.records.specs.Refusals.{number_of};
ghost use Rattle.table_format.specs.Variables.{variables};
ghost use Rattle.futonkestrel_lending.specs.Lending as lending;

use enabled::Enabled;
use numbers::put_item;
use records::{Cause, Notation, Refusal};
use table_format::VARIABLES;
use table_semantics::Variables;
use translation::Translation;

// ---- variables
// A number for each variable, as `of` makes it, as far as there are places.
pub fn put_numbers<F: Fn(usize) -> u32>(lent: &mut [u32], of: F)
    requires callable { (j : ℕ) → j < variables → F.pre of j }
    ensures { lending.LendsAll (F.post of) lent.old lent.new }
{
    for j in 0..VARIABLES {
        put_item(lent, j, of(j));
    }
}

pub fn put_variables(lent: &mut [u32], variables: Variables)
    ensures { lent.new ≡ lending.lent_as lent.old (lending.numbers_of variables) }
{
    put_numbers(lent, |j| numbers::bits(variables.value[j]));
}

// ---- events
// The length of a script's first part: a whole event, or all that is left where it is cut or unknown.
pub fn event_length(script: &[u8]) -> usize
    ensures { result ≡ part_length_at notations.Script script.now 0 }
{
    records::part_length_at(Notation::Script, script, 0)
}

// ---- what is told
pub fn number(cause: Cause) -> u32
    ensures { result ≡ number_of cause }
{
    records::number_of(cause) as u32
}

// The number of a refusal, and where its part is.
pub fn tell_refusal(told: &mut [usize], refusal: Refusal) -> u32
    ensures { lending.Tells refusal.cause (lending.told_refusal refusal) told.old result told.new }
{
    put_item(told, 0, refusal.start);
    put_item(told, 1, refusal.end);
    number(refusal.cause)
}

pub fn tell_translation(told: &mut [usize], translation: Translation) -> u32
    ensures { lending.Tells translation.refusal.cause (lending.told_translation translation) told.old result told.new }
{
    let number = tell_refusal(told, translation.refusal);
    put_item(told, 2, translation.bytes);
    number
}

pub fn tell_run(told: &mut [usize], refusal: Refusal, taken: usize, clock: u32) -> u32
    ensures { lending.TellsOutcome (record { refusal = refusal; taken = taken; clock = clock }) told.old result told.new }
{
    let number = tell_refusal(told, refusal);
    put_item(told, 2, taken);
    put_item(told, 3, clock as usize);
    number
}

// What is enabled: whether there was room for its numbers as the result, then the count and the tick.
pub fn tell_enabled(told: &mut [usize], enabled: Enabled) -> u32
    ensures { lending.TellsEnabled enabled told.old result told.new }
{
    put_item(told, 0, enabled.count);
    put_item(told, 1, usize::from(enabled.tick));
    number(enabled.answer)
}
