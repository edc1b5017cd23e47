// How long the table of a model is, and how many records it has, added up over the model's items: no table is made.

#![tactic(auto)]

mod items;
mod starts;

ghost use Rattle.std.specs.Prelude.{◌≡◌, ◌*◌, ◌≤◌};
ghost use Rattle.model_format.specs.WellFormed.{WellFormed};
ghost use Rattle.model_words.specs.Words.{model_in};
ghost use Rattle.translation.specs.Translate.{table_bytes};
ghost use Rattle.translation_sizes.specs.Sizes.{size_of, no_size};
ghost use Rattle.translation_sizes.specs.Foretold.{Foretells};
ghost use Rattle.translation_sizes.specs.Counts.{size_by};
ghost use Rattle.translation_sizes.specs.Items.{item_counts};
ghost use Rattle.table_counts.specs.Bounds.{item_most, Small};

use items::{connections_counts, inputs_counts, switches_counts, threads_counts};
use model_words::MODEL_WORDS;
use records::{CLAUSE_SIZE, RULE_SIZE, TABLE_ATOM_SIZE, UPDATE_SIZE, is_none, no_refusal};
use starts::item_starts;
use table_counts::{add, transitions_counts};
use translation_sizes::{Counts, Sized, TableSize};

fn item_counts(model: &[u32]) -> Counts
    requires { WellFormed (model_in model.now) }
    ensures { result ≡ item_counts (model_in model.now) }
{
    let transitions = transitions_counts(model);
    let switches = switches_counts(model);
    let connections = connections_counts(model);
    let inputs = inputs_counts(model);
    let threads = threads_counts(model);
    add(
        threads,
        add(inputs, add(connections, add(switches, transitions))),
    )
}

// The bytes of a start record.
const START_SIZE: usize = 7;

fn size_by(starts: usize, x: Counts) -> TableSize
    requires { (starts ≤ 3 * item_most) × Small x }
    ensures { result ≡ size_by starts x }
{
    let bytes = START_SIZE * starts
        + RULE_SIZE * x.rules
        + CLAUSE_SIZE * x.clauses
        + TABLE_ATOM_SIZE * x.atoms
        + UPDATE_SIZE * x.updates;
    TableSize {
        bytes,
        rules: x.rules,
        clauses: x.clauses,
        atoms: x.atoms,
        updates: x.updates,
    }
}

// The size of the table of a model in a lent list of numbers, one that reading accepts.
pub fn size_of(model: &[u32]) -> TableSize
    requires { WellFormed (model_in model.now) }
    ensures { result ≡ size_of (table_bytes (model_in model.now)) }
{
    size_by(item_starts(model), item_counts(model))
}

fn no_size() -> TableSize
    ensures { result ≡ no_size }
{
    TableSize {
        bytes: 0,
        rules: 0,
        clauses: 0,
        atoms: 0,
        updates: 0,
    }
}

// The size of the table of a model, before it is made: the refusal of reading the model, or the counts.
pub fn foretell(model: &[u8]) -> Sized
    ensures { Foretells model.now result }
{
    let mut words = [0u32; MODEL_WORDS];
    let refusal = model_reader::read_records(model, &mut words);
    let cause = refusal.cause;
    if !is_none(cause) {
        return Sized {
            refusal,
            size: no_size(),
        };
    }
    let size = size_of(&words);
    Sized {
        refusal: no_refusal(),
        size,
    }
}
