// What behaviour transitions add to a table. Each adds a clause for every earlier one of its thread from the same behaviour state, and what its thread
// sends: both are noted beforehand, so that no transition looks at the others or at the connections.

ghost use Rattle.std.specs.Prelude.{◌≡◌, ◌+◌, ◌<◌};
ghost use Rattle.model_format.specs.WellFormed.{GoodTiming, WellFormed};
ghost use Rattle.model_words.specs.Words.{timing_in, behavior_in, model_in};
ghost use Rattle.translation_sizes.specs.Counts.{count_below};
ghost use Rattle.translation_sizes.specs.Items.{transition_counts};
ghost use Rattle.table_counts.specs.Noted.{place_of, Noted, Sent};

use crate::counts::{add, count, nothing};
use model_format::{IMMEDIATE, MAX_THREADS, Transition};
use model_words::{connection_at, connections, output_owner, transition_at, transitions};
use numbers::{item_or, put_item};
use translation_sizes::Counts;

// A thread has so many behaviour states; places for all threads and states.
const STATES: usize = 8;

const PLACES: usize = MAX_THREADS * STATES;

// Where the transitions from its behaviour state of its thread are counted; their atoms are, as far behind as there are places.
fn place_of(transition: Transition) -> usize
    ensures { result ≡ place_of transition }
{
    usize::from(transition.thread) * STATES + usize::from(transition.from)
}

fn note_transition(noted: &mut [u32], model: &[u32], k: usize)
    requires { WellFormed (model_in model.now) × ((k < (behavior_in model.now).transitions) × Noted (behavior_in model.now) k noted.old) }
    ensures { Noted (behavior_in model.now) (k + 1) noted.new }
{
    let transition = transition_at(model, k);
    let place = place_of(transition);
    let seen = item_or(noted, place, 0);
    let atoms = item_or(noted, PLACES + place, 0);
    put_item(noted, place, seen + 1);
    put_item(noted, PLACES + place, atoms + (transition.atoms as u32));
}

// Connection c, where it is immediate, for the thread that it comes from.
fn note_sent(sent: &mut [u32], model: &[u32], c: usize)
    requires { GoodTiming (timing_in model.now) × ((c < (timing_in model.now).connections) × Sent (timing_in model.now) c sent.old) }
    ensures { Sent (timing_in model.now) (c + 1) sent.new }
{
    let connection = connection_at(model, c);
    if connection.kind != IMMEDIATE {
        return;
    }
    let owner = usize::from(output_owner(model, connection.source as usize));
    let sends = item_or(sent, owner, 0);
    put_item(sent, owner, sends + 1);
}

fn list_sent(sent: &mut [u32], model: &[u32])
    requires { GoodTiming (timing_in model.now) × Sent (timing_in model.now) 0 sent.old }
    ensures { Sent (timing_in model.now) (timing_in model.now).connections sent.new }
{
    for c in 0..connections(model) {
        note_sent(sent, model, c);
    }
}

// What transition k adds, by what is noted of those before it, and of the connections.
fn transition_counts(noted: &[u32], sent: &[u32], model: &[u32], k: usize) -> Counts
    requires { WellFormed (model_in model.now) × ((k < (behavior_in model.now).transitions) × (Noted (behavior_in model.now) k noted.now × Sent (timing_in model.now) (timing_in model.now).connections sent.now)) }
    ensures { result ≡ transition_counts (model_in model.now) k }
{
    let transition = transition_at(model, k);
    let place = place_of(transition);
    let earlier = item_or(noted, place, 0) as usize;
    let earlier_atoms = item_or(noted, PLACES + place, 0) as usize;
    let sends = item_or(sent, usize::from(transition.thread), 0) as usize;
    let atoms = usize::from(transition.atoms);
    let assignments = usize::from(transition.assignments);
    count(
        1,
        4 + atoms + earlier,
        4 + 2 * atoms + earlier_atoms,
        4 + assignments + sends,
    )
}

fn add_transitions(noted: &mut [u32], sent: &[u32], model: &[u32]) -> Counts
    requires { WellFormed (model_in model.now) × (Noted (behavior_in model.now) 0 noted.old × Sent (timing_in model.now) (timing_in model.now).connections sent.now) }
    ensures { result ≡ count_below (behavior_in model.now).transitions (transition_counts (model_in model.now)) }
{
    let mut sum = nothing();
    for k in 0..transitions(model) {
        let own = transition_counts(noted, sent, model, k);
        sum = add(sum, own);
        note_transition(noted, model, k);
    }
    sum
}

pub fn transitions_counts(model: &[u32]) -> Counts
    requires { WellFormed (model_in model.now) }
    ensures { result ≡ count_below (behavior_in model.now).transitions (transition_counts (model_in model.now)) }
{
    let mut sent = [0u32; MAX_THREADS];
    let mut noted = [0u32; 2 * PLACES];
    list_sent(&mut sent, model);
    add_transitions(&mut noted, &sent, model)
}
