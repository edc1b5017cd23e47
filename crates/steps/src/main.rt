// Runs a model against a script and prints the numbered listing. It is tried on the run of the specification.

#![tactic(auto)]

ghost use Rattle.listing.specs.Programs.{steps_listing};
ghost use Rattle.table_writer.specs.Wrote.{Wrote};
ghost use Rattle.command.specs.Shows.{Shows};

use command::{Shown, TOLD, run_program, show_listing};

// The listing of a model's run, printed, and the record that was refused, told.
fn show_steps(rt: &HostRuntime, model: &[u8], script: &[u8], out: &mut [u8]) -> usize
    ensures { Wrote out.old 0 (steps_listing model.now script.now) out.new result }
{
    let mut told = [0usize; TOLD];
    let part = listing_model::steps_part(model, script, out, &mut told);
    show_listing(rt, b"model.bin", out, told, part)
}

// The program `steps`, with room for its two files and for what it prints: `out` up to `printed` goes to standard output.
fn steps_main(rt: &HostRuntime, model: &mut [u8], script: &mut [u8], out: &mut [u8]) -> Shown
    ensures { Shows steps_listing model.new script.new out.old result out.new }
{
    run_program(
        rt,
        b"usage: steps [model.bin [script.bin]]\n",
        b"model.bin",
        model,
        script,
        out,
        |model, script, out| show_steps(rt, model, script, out),
    )
}

fn main(rt: HostRuntime) {
    let mut model = command::large_buffer();
    let mut script = command::large_buffer();
    let mut out = command::wide_buffer();
    steps_main(&rt, &mut model, &mut script, &mut out);
}
