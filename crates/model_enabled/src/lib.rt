// What is enabled in a state of a model, both as lists of numbers that a caller lends. Four numbers an event go into a lent list.

#![tactic(auto)]

ghost use Rattle.std.specs.Prelude.{◌≡◌, [], ◌∷◌, ◌*◌, ◌<◌, ◌≤◌, length};
ghost use Rattle.std.proofs.lemmas.List.Edits.{sets};
ghost use Rattle.numbers.specs.Lists.{only};
ghost use Rattle.model_state.specs.Words.{state_in};
ghost use Rattle.model_words.specs.Words.{timing_in};
ghost use Rattle.enabled.specs.Enabled.{ids, length_in, may_take, offer_of, model_offers, model_may_tick};
ghost use Rattle.enabled.specs.Told.{offer_size, told_of, list_of};
ghost use Rattle.model_enabled.specs.Walks.{Listed, items_of, of_kind, most, farthest};

use enabled::Enabled;
use model_format::MAX_THREADS;
use model_state::now_of;
use model_tests::{
    can_activate, can_complete, can_deactivate, can_dispatch, can_enter, can_leave,
    can_meet_deadline, can_miss, is_busy, start_fault,
};
use model_words::{switches, thread_at, threads};
use numbers::put_item;
use records::{
    ACTIVATE, COMPLETE, Cause, DEACTIVATE, DEADLINE, DISPATCH, ENTER, LAST_CLOCK, MISS, REQUEST,
    START,
};

// How many numbers an id's byte has.
const IDS: usize = 256;

// How many kinds of events there are but TICK, and of those on threads and on mode transitions.
const KINDS: u8 = 10;

const THREAD_KINDS: usize = 7;

const SWITCH_KINDS: usize = 3;

// How many numbers an event takes.
const OFFER: usize = 4;

// START with the shortest length.
fn may_start(model: &[u32], state: &[u32], t: usize) -> bool
    ensures { result ≡ may_take (timing_in model.now) (state_in state.now) 4 t }
{
    let thread = thread_at(model, t);
    start_fault(model, state, t, thread.bcet.0) == 0
}

fn may_take(model: &[u32], state: &[u32], kind: u8, i: usize) -> bool
    ensures { result ≡ may_take (timing_in model.now) (state_in state.now) kind i }
{
    match kind {
        ACTIVATE => (i < threads(model)) & can_activate(state, i),
        DEACTIVATE => (i < threads(model)) & can_deactivate(model, state, i),
        DISPATCH => (i < threads(model)) & can_dispatch(model, state, i),
        START => may_start(model, state, i),
        COMPLETE => (i < threads(model)) & can_complete(state, i),
        DEADLINE => (i < threads(model)) & can_meet_deadline(model, state, i),
        MISS => (i < threads(model)) & can_miss(model, state, i),
        REQUEST => i < switches(model),
        ENTER => (i < switches(model)) & can_enter(model, state, i),
        _ => (i < switches(model)) & can_leave(model, state, i),
    }
}

// The ids that a kind is looked at for: past them nothing is enabled.
fn items_of(model: &[u32], kind: u8) -> usize
    ensures { result ≡ items_of (timing_in model.now) kind }
{
    if kind < REQUEST {
        return threads(model).min(MAX_THREADS);
    }
    switches(model).min(IDS)
}

// Lengths are START's alone.
fn length_in(kind: u8, n: u32) -> u32
    ensures { result ≡ length_in kind n }
{
    if kind == START { n } else { 0 }
}

// Four numbers behind n events.
fn put_offer(output: &mut [u32], n: usize, kind: u32, id: u32, low: u32, high: u32)
    requires { n ≤ farthest }
    ensures { output.new ≡ sets output.old (offer_size * n) (kind ∷ id ∷ low ∷ high ∷ []) }
{
    let at = OFFER * n;
    put_item(output, at, kind);
    put_item(output, at + 1, id);
    put_item(output, at + 2, low);
    put_item(output, at + 3, high);
}

// The event of a kind and an id, where it is enabled, behind n events.
fn put_event(
    output: &mut [u32],
    n: usize,
    model: &[u32],
    state: &[u32],
    kind: u8,
    i: usize,
) -> usize
    requires { (i < ids) × (n ≤ farthest) }
    ensures { Listed output.old n (only (may_take (timing_in model.now) (state_in state.now) kind i) (offer_of (timing_in model.now) kind i)) output.new result }
{
    if !may_take(model, state, kind, i) {
        return n;
    }
    let thread = thread_at(model, i);
    let low = length_in(kind, thread.bcet.0);
    let high = length_in(kind, thread.wcet.0);
    put_offer(output, n, u32::from(kind), i as u32, low, high);
    n + 1
}

fn put_kind(output: &mut [u32], n: usize, model: &[u32], state: &[u32], kind: u8) -> usize
    requires { (1 ≤ kind) × (n ≤ most (timing_in model.now)) }
    ensures { Listed output.old n (of_kind (timing_in model.now) (state_in state.now) kind) output.new result }
{
    let items = items_of(model, kind);
    let mut n = n;
    for i in 0..items {
        n = put_event(output, n, model, state, kind, i);
    }
    n
}

// All events, as far as the list goes; it tells how many there are.
fn put_events(output: &mut [u32], model: &[u32], state: &[u32]) -> usize
    ensures { Listed output.old 0 (model_offers (timing_in model.now) (state_in state.now)) output.new result }
{
    let mut n: usize = 0;
    for k in 0..KINDS {
        n = put_kind(output, n, model, state, k + 1);
    }
    n
}

// The same walk over a list of its own, past which it counts and does not write.
fn count_events(model: &[u32], state: &[u32]) -> usize
    ensures { result ≡ length (model_offers (timing_in model.now) (state_in state.now)) }
{
    let mut none = [0u32; 1];
    put_events(&mut none, model, state)
}

// No state of a model has more events enabled.
fn most_events(model: &[u32]) -> usize
    ensures { result ≡ most (timing_in model.now) }
{
    let n = threads(model).min(MAX_THREADS);
    let q = switches(model).min(IDS);
    THREAD_KINDS * n + SWITCH_KINDS * q
}

fn may_tick(model: &[u32], state: &[u32]) -> bool
    ensures { result ≡ model_may_tick (timing_in model.now) (state_in state.now) }
{
    let now = now_of(state);
    !is_busy(model, state) & (now.0 < LAST_CLOCK)
}

// Every event that may come next, at the beginning of the output, where they fit; else the output is as it was. With room for as many as there
// can be there is nothing to count first.
pub fn enabled_in(model: &[u32], state: &[u32], output: &mut [u32]) -> Enabled
    ensures { (result ≡ told_of (model_offers (timing_in model.now) (state_in state.now)) (model_may_tick (timing_in model.now) (state_in state.now)) (length output.old)) × (output.new ≡ list_of (model_offers (timing_in model.now) (state_in state.now)) output.old) }
{
    let tick = may_tick(model, state);
    if OFFER * most_events(model) <= output.len() {
        let count = put_events(output, model, state);
        return Enabled {
            answer: Cause::None,
            count,
            tick,
        };
    }
    let count = count_events(model, state);
    if output.len() < OFFER * count {
        return Enabled {
            answer: Cause::ShortOutput,
            count,
            tick,
        };
    }
    put_events(output, model, state);
    Enabled {
        answer: Cause::None,
        count,
        tick,
    }
}
