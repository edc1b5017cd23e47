// Runs of a table: up to its first refused event, and the loop that goes on after refusals.

#![tactic(auto)]

ghost use Rattle.std.specs.Prelude.{◌≡◌};
ghost use Rattle.table_semantics.specs.Machine as machine;
ghost use Rattle.table_semantics.specs.Runs.{variables_of, ended_of, tally_of};

use records::{Events, Refusal};
use table_format::VARIABLES;
use table_machine::INDEX;
use table_semantics::{Ran, Tallied};

fn ended(taken: usize, refusal: Refusal, bits: [u32; VARIABLES]) -> Ran
    ensures { ended_of result ≡ record { taken = taken; refusal = refusal; state = variables_of bits } }
{
    Ran {
        taken,
        refusal,
        state: table_rules::variables_of(bits),
    }
}

// The run of the table that the bytes hold over a script, up to its first refused event.
pub fn run_table(table: &[u8], script: &[u8]) -> Ran
    ensures { ended_of result ≡ machine.run_table table.now script.now }
{
    let mut index = [0; INDEX];
    table_index::list_rules(table, &mut index);
    let mut bits = table_rules::all_bits(table_machine::start_variables(table));
    let mut taken: usize = 0;
    for (at, listed) in Events::new(script) {
        let answer = table_machine::step_on(table, &index, &mut bits, listed.event);
        if !records::is_none(answer) {
            return ended(taken, records::in_script(answer, at, listed.end), bits);
        }
        taken += 1;
    }
    ended(taken, records::no_refusal(), bits)
}

// The run that goes on after refusals: each event on the variables that the one before it left, taken or refused.
pub fn run_on(table: &[u8], script: &[u8]) -> Tallied
    ensures { tally_of result ≡ machine.tally_table table.now script.now }
{
    let mut index = [0; INDEX];
    table_index::list_rules(table, &mut index);
    let mut bits = table_rules::all_bits(table_machine::start_variables(table));
    let mut taken: usize = 0;
    let mut refused: usize = 0;
    for (_, listed) in Events::new(script) {
        let answer = table_machine::step_on(table, &index, &mut bits, listed.event);
        if records::is_none(answer) {
            taken += 1;
        } else {
            refused += 1;
        }
    }
    Tallied {
        taken,
        refused,
        state: table_rules::variables_of(bits),
    }
}
