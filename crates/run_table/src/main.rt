// Runs a table from a file against a script and prints the numbered listing. It is tried on the table of the specification's model.

#![tactic(auto)]

ghost use Rattle.listing.specs.Programs.{table_listing};
ghost use Rattle.table_writer.specs.Wrote.{Wrote};
ghost use Rattle.command.specs.Shows.{Shows};

use command::{Shown, TOLD, run_program, show_listing};

// The run of a table, likewise.
fn show_table(rt: &HostRuntime, table: &[u8], script: &[u8], out: &mut [u8]) -> usize
    ensures { Wrote out.old 0 (table_listing table.now script.now) out.new result }
{
    let mut told = [0usize; TOLD];
    let part = listing_table::table_part(table, script, out, &mut told);
    show_listing(rt, b"table.bin", out, told, part)
}

// The program `run_table`, likewise: a table in the model's place.
fn table_main(rt: &HostRuntime, table: &mut [u8], script: &mut [u8], out: &mut [u8]) -> Shown
    ensures { Shows table_listing table.new script.new out.old result out.new }
{
    run_program(
        rt,
        b"usage: run_table [table.bin [script.bin]]\n",
        b"table.bin",
        table,
        script,
        out,
        |table, script, out| show_table(rt, table, script, out),
    )
}

fn main(rt: HostRuntime) {
    let mut table = command::wide_buffer();
    let mut script = command::large_buffer();
    let mut out = command::wide_buffer();
    table_main(&rt, &mut table, &mut script, &mut out);
}
