// The programs that run a model or a table and print the listing.

ghost use Rattle.std.specs.Prelude.{◌≡◌, false, List, ℕ, get_or};
ghost use Rattle.table_writer.specs.Wrote.{Wrote};
ghost use Rattle.command.specs.Shows.{Shows};

use crate::read::read_inputs;
use crate::say::tell_refused;
use crate::write::print_start;
use crate::{Shown, TOLD, outcome};

// A program with room for its two files and for what it prints: `show` prints the listing of what was read, and `out` up to `printed` has it.
pub fn run_program<F: FnOnce(&[u8], &[u8], &mut [u8]) -> usize>(
    rt: &HostRuntime,
    usage: &[u8],
    name: &[u8],
    model: &mut [u8],
    script: &mut [u8],
    out: &mut [u8],
    show: F,
) -> Shown
    requires { F.IsAlwaysCallable show }
    // The bytes are those that were read, for each listing that the closure is known to write.
    ensures shows { (listing : List ℕ → List ℕ → List ℕ) → ((m s : _) (o : _) (n : ℕ) (p : _) → F.post show m s o n p → Wrote o.now 0 (listing m.now s.now) p.now n) → Shows listing model.new script.new out.old result out.new }

    // Where a file could not be read, whatever the closure does.
    ensures unread { result.good ≡ false → (out.new ≡ out.old) × (result.printed ≡ 0) }
{
    let read = read_inputs(rt, usage, name, model, script);
    if !read.good {
        return outcome(read.model, read.script, false, 0);
    }
    let printed = show(&model[..read.model], &script[..read.script], out);
    outcome(read.model, read.script, true, printed)
}

// What is told of a listing in `out`: it is printed, and the record that was refused goes to standard error. The length that was told is handed on.
pub fn show_listing(
    rt: &HostRuntime,
    name: &[u8],
    out: &[u8],
    told: [usize; TOLD],
    part: &[u8],
) -> usize
    ensures { result ≡ get_or told 0 0 }
{
    let [length, number, start, end] = told;
    print_start(rt, out, length);
    tell_refused(rt, name, number, start, end, part);
    length
}
