// The size of a table before it is made, told in the places that a caller lends.

#![tactic(auto)]

ghost use Rattle.futonkestrel_lending.specs.Lending.{Tells};
ghost use Rattle.futonkestrel_sizes.specs.Sizes.{told_size, TellsSize};

use futonkestrel_lending::tell_refusal;
use numbers::put_item;
use translation_sizes::Sized;

// The number of the refusal, where its part is, and the counts.
fn tell_size(told: &mut [usize], sized: Sized) -> u32
    ensures { Tells sized.refusal.cause (told_size sized) told.old result told.new }
{
    let size = sized.size;
    let number = tell_refusal(told, sized.refusal);
    put_item(told, 2, size.bytes);
    put_item(told, 3, size.rules);
    put_item(told, 4, size.clauses);
    put_item(told, 5, size.atoms);
    put_item(told, 6, size.updates);
    number
}

pub fn table_size(model: &[u8], told: &mut [usize]) -> u32
    ensures { TellsSize model.now told.old result told.new }
{
    tell_size(told, table_sizes::foretell(model))
}
