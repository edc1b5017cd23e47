// The events of enabled rules, listed in the order kind, id: one rule more, and whether some rule stops a tick.

#![tactic(auto)]

ghost use Rattle.std.specs.Prelude.{◌≡◌, ◌+◌, ◌*◌, ◌<◌, ◌≤◌, length};
ghost use Rattle.enabled.specs.Enabled.{length_in, offer_by};
ghost use Rattle.enabled.specs.Told.{offer_size};
ghost use Rattle.table_offers.specs.Adds.{count_end, Adds};
ghost use Rattle.table_offers.specs.Inserted.{rank_at, place_in, moved_up, inserted};

use records::{LEAVE, REQUEST, START};
use table_format::RuleHead;

// What a walk over rules has seen: how many are enabled for an event, and whether some enabled one stops a tick.
#[derive(Clone, Copy)]
pub struct Seen {
    pub count: usize,
    pub busy: bool,
}

// How many numbers an event takes: its kind, its id, and of START the shortest and the longest length.
pub const OFFER: usize = 4;

// How many numbers an id's byte has.
const IDS: usize = 256;

// The rank in the order of the event that is listed at a place.
fn rank_at(output: &[u32], place: usize) -> usize
    requires { offer_size * place < length output.now }
    ensures { result ≡ rank_at output.now place }
{
    let kind = numbers::item_or(output, OFFER * place, 0);
    let id = numbers::item_or(output, OFFER * place + 1, 0);
    IDS * kind as usize + id as usize
}

// After how many of the first events one of that rank comes. Rules come mostly in order, so the last are looked at first.
fn place_in(output: &[u32], count: usize, rank: usize) -> usize
    requires { offer_size * count ≤ length output.now }
    ensures { result ≡ place_in output.now count rank }
{
    for last in (0..count).rev() {
        if rank_at(output, last) <= rank {
            return last + 1;
        }
    }
    0
}

// Room for one event: the numbers from `from` to `end` go up.
fn make_room(output: &mut [u32], from: usize, end: usize)
    requires { (from ≤ end) × (end + offer_size ≤ length output.old) }
    ensures { output.new ≡ moved_up output.old from end }
{
    output.copy_within(from..end, from + OFFER);
}

fn length_in(kind: u8, length: u32) -> u32
    ensures { result ≡ length_in kind length }
{
    if kind == START { length } else { 0 }
}

// The event of a rule, put among the others.
fn insert(output: &mut [u32], count: usize, head: RuleHead)
    requires { offer_size * (count + 1) ≤ length output.old }
    ensures { output.new ≡ inserted output.old count (offer_by head) }
{
    let kind = head.kind;
    let kind_word = u32::from(kind);
    let id_word = u32::from(head.id);
    let rank = IDS * kind_word as usize + id_word as usize;
    let at = OFFER * place_in(output, count, rank);
    make_room(output, at, OFFER * count);
    numbers::put_item(output, at, kind_word);
    numbers::put_item(output, at + 1, id_word);
    numbers::put_item(output, at + 2, length_in(kind, head.low));
    numbers::put_item(output, at + 3, length_in(kind, head.high));
}

// An enabled rule more. It stops a tick where it is for another event than REQUEST, and is for an event where its kind is one.
pub fn add_enabled(output: &mut [u32], seen: Seen, head: RuleHead) -> Seen
    requires { seen.count + 1 < count_end }
    ensures { Adds head seen output.old result output.new }
{
    let kind = head.kind;
    let count = seen.count;
    let busy = seen.busy | (kind != REQUEST);
    if (kind == 0) | (LEAVE < kind) {
        return Seen { count, busy };
    }
    if output.len() / OFFER <= count {
        return Seen {
            count: count + 1,
            busy,
        };
    }
    insert(output, count, head);
    Seen {
        count: count + 1,
        busy,
    }
}
