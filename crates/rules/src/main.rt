// Translates a model, runs the table against a script and prints the numbered listing. It is tried on the run of the specification.

#![tactic(auto)]

ghost use Rattle.listing.specs.Programs.{rules_listing};
ghost use Rattle.table_writer.specs.Wrote.{Wrote};
ghost use Rattle.command.specs.Shows.{Shows};

use command::{Shown, TOLD, run_program, show_listing};

// The run of a model's table, likewise.
fn show_rules(rt: &HostRuntime, model: &[u8], script: &[u8], out: &mut [u8]) -> usize
    ensures { Wrote out.old 0 (rules_listing model.now script.now) out.new result }
{
    let mut told = [0usize; TOLD];
    let part = listing_rules::rules_part(model, script, out, &mut told);
    show_listing(rt, b"model.bin", out, told, part)
}

// The program `rules`, likewise.
fn rules_main(rt: &HostRuntime, model: &mut [u8], script: &mut [u8], out: &mut [u8]) -> Shown
    ensures { Shows rules_listing model.new script.new out.old result out.new }
{
    run_program(
        rt,
        b"usage: rules [model.bin [script.bin]]\n",
        b"model.bin",
        model,
        script,
        out,
        |model, script, out| show_rules(rt, model, script, out),
    )
}

fn main(rt: HostRuntime) {
    let mut model = command::large_buffer();
    let mut script = command::large_buffer();
    let mut out = command::wide_buffer();
    rules_main(&rt, &mut model, &mut script, &mut out);
}
