// Writes the table of a model to a file. It is tried on a model that is refused, whose last line it prints.

#![tactic(auto)]

ghost use Rattle.std.specs.Prelude.{◌≡◌};
ghost use Rattle.make_table.specs.Makes.{Makes};

use records::Refusal;

// What `make_table` came to: how many bytes of its file were read, whether it could be, how long the table is, and how many bytes were printed.
// Kept: `Makes`, which the page of promises names with `good`, speaks of this struct.
#[derive(Clone, Copy)]
struct Made {
    pub model: usize,
    pub good: bool,
    pub bytes: usize,
    pub printed: usize,
}

// What was refused of a model that has no table.
fn tell_untranslated(rt: &HostRuntime, model: &[u8], refusal: Refusal) {
    let number = usize::from(records::number_of(refusal.cause));
    let part = records::part_of(model, model, refusal);
    command::tell_refused(rt, b"model.bin", number, refusal.start, refusal.end, part);
}

fn table_told(model: usize, good: bool, bytes: usize, printed: usize) -> Made
    ensures { result ≡ record { model = model; good = good; bytes = bytes; printed = printed } }
{
    Made {
        model,
        good,
        bytes,
        printed,
    }
}

// The program `make_table`: `table` up to `bytes` goes to the file, or, where there is none to make, `out` up to `printed` to standard output.
fn make_main(rt: &HostRuntime, model: &mut [u8], table: &mut [u8], out: &mut [u8]) -> Made
    ensures { Makes model.new table.old out.old result table.new out.new }
{
    let read = command::read_model(rt, b"usage: make_table [model.bin [table.bin]]\n", model);
    let Some(length) = read else {
        return table_told(0, false, 0, 0);
    };
    let translation = translator::translate(&model[..length], table);
    let refusal = translation.refusal;
    let bytes = translation.bytes;
    if records::is_none(refusal.cause) {
        command::write_argument(rt, 2, b"table.bin", &table[..bytes]);
        return table_told(length, true, bytes, 0);
    }
    let printed = listing_writer::refused_listing(out, refusal.cause);
    command::print_start(rt, out, printed);
    tell_untranslated(rt, &model[..length], refusal);
    table_told(length, true, bytes, printed)
}

fn main(rt: HostRuntime) {
    let mut model = command::large_buffer();
    let mut table = command::wide_buffer();
    let mut out = command::buffer();
    make_main(&rt, &mut model, &mut table, &mut out);
}
