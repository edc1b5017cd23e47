// What time changes of a state, kept and put back: ticks that are refused after all leave every number as it was.

ghost use Rattle.std.specs.Prelude.{List, ◌≡◌, ℕ, get_or};
ghost use Rattle.model_format.specs.Model.{max_threads};
ghost use Rattle.model_state.specs.Words as words;
ghost use Rattle.model_state.specs.Parts as parts;
ghost use Rattle.model_state.specs.TimeLaws as laws;

use crate::layout;
use model_format::MAX_THREADS;
use numbers::{Duration, item_or, put_item};

// Spent of every thread.
pub fn spent_words(state: &[u32]) -> [u32; MAX_THREADS]
    ensures { parts.SpentWords state.now result }
{
    let mut kept = [0u32; MAX_THREADS];
    for thread in 0..MAX_THREADS {
        kept[thread] = item_or(state, layout::SPENT.from + thread, 0);
    }
    kept
}

fn put_spent_words(state: &mut [u32], kept: [u32; MAX_THREADS])
    ensures { laws.PutBack state.old state.new kept max_threads }
{
    for thread in 0..MAX_THREADS {
        put_item(state, layout::SPENT.from + thread, kept[thread]);
    }
}

// Now and Spent as they were in a list that differs from this one in nothing else.
pub fn put_time_back(state: &mut [u32], clock: Duration, kept: [u32; MAX_THREADS])
    ensures { (l : List ℕ) → parts.BesideTime l state.old → clock.0 ≡ get_or l words.now_place 0 → parts.SpentWords l kept → state.new ≡ l }
{
    put_item(state, layout::NOW, clock.0);
    put_spent_words(state, kept);
}
