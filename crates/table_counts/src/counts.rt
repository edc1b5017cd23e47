// Counts, added up.

ghost use Rattle.std.specs.Prelude.{◌≡◌, ◌<◌, ◌≤◌, ℕ};
ghost use Rattle.translation_sizes.specs.declared.Counts.{Counts};
ghost use Rattle.translation_sizes.specs.Counts as counts;
ghost use Rattle.table_counts.specs.Loops.{AddsUp};
ghost use Rattle.table_counts.specs.Bounds.{AtMost, item_most, Small};

use translation_sizes::Counts;

pub fn count(rules: usize, clauses: usize, atoms: usize, updates: usize) -> Counts
    ensures { result ≡ counts.counts rules clauses atoms updates }
{
    Counts {
        rules,
        clauses,
        atoms,
        updates,
    }
}

pub fn nothing() -> Counts
    ensures { result ≡ counts.nothing }
{
    count(0, 0, 0, 0)
}

pub fn add(a: Counts, b: Counts) -> Counts
    requires { Small a × Small b }
    ensures { result ≡ counts.◌and◌ a b }
{
    count(
        a.rules + b.rules,
        a.clauses + b.clauses,
        a.atoms + b.atoms,
        a.updates + b.updates,
    )
}

// What the numbers below n add together, each what `of` makes of it.
pub fn sum_counts<F: Fn(usize) -> Counts>(n: usize, of: F) -> Counts
    requires callable { F.IsAlwaysCallable of }
    requires few { n ≤ item_most }
    requires small { (i : ℕ) (x : Counts) → i < n → F.post of i x → AtMost item_most x }
    ensures { AddsUp (F.post of) n n result }
{
    let mut sum = nothing();
    for i in 0..n {
        sum = add(sum, of(i));
    }
    sum
}
