// What models, tables and event lists share: the record grammar, the refusals, and events.

#![tactic(auto)]

mod kinds;
mod walks;

ghost use Rattle.std.specs.Prelude.{◌≡◌, ◌-◌, ◌<◌, min, take, drop};
ghost use Rattle.records.specs.declared.Notation.TheVariants as notations;
ghost use Rattle.records.specs.Format.{record_size, part_length, part_length_at, is_whole, operand_at};
ghost use Rattle.records.specs.Refusals.{number_of, is_none, in_model, in_script, no_refusal, part_of};
ghost use Rattle.records.specs.Events.{event_of, listed_at, figure_of, is_broken};

pub use kinds::{
    ACTIVATE, CLAUSE_SIZE, COMPLETE, DEACTIVATE, DEADLINE, DISPATCH, ENTER, LAST_CLOCK, LEAVE,
    MISS, MODEL_ASSIGNMENT, MODEL_ASSIGNMENT_SIZE, MODEL_ATOM, MODEL_ATOM_SIZE, MODEL_CONNECTION,
    MODEL_CONNECTION_SIZE, MODEL_HEAD, MODEL_HEAD_SIZE, MODEL_INPUT, MODEL_LOCAL, MODEL_LOCAL_SIZE,
    MODEL_OUTPUT, MODEL_PORT_SIZE, MODEL_SWITCH, MODEL_SWITCH_SIZE, MODEL_THREAD,
    MODEL_THREAD_SIZE, MODEL_TRANSITION, MODEL_TRANSITION_SIZE, MODEL_WRITTEN_INPUT,
    MODEL_WRITTEN_INPUT_SIZE, REQUEST, RULE_SIZE, START, TABLE_ATOM, TABLE_ATOM_SIZE, TABLE_CLAUSE,
    TABLE_RULE, TABLE_START, TABLE_UPDATE, TICK, UPDATE_SIZE,
};
use numbers::{Value, item_or};
pub use walks::{Events, Part, Parts};

// The three languages of records: each has kinds of its own.
#[derive(Clone, Copy, PartialEq, Eq)]
pub enum Notation {
    Model,
    Table,
    Script,
}

// Why a record or an event is refused; `None` where it is not.
// Kept as one enum and no `Option`: `number_of None` is 0, which callers are told, and the definitions and theorems of refusals speak of `None`.
#[derive(Clone, Copy, PartialEq, Eq)]
pub enum Cause {
    None,
    CutRecord,
    WrongKind,
    TooMany,
    WrongField,
    OtherThread,
    SetTwice,
    LongHyperperiod,
    ShortOutput,
    BrokenEvent,
    NotEnabled,
    LastClock,
    ConflictingRules,
    InconsistentUpdates,
    NamesNothing,
    FaultyTime,
}

// Which of the two lent slices holds the part handed back. A table stands for its model.
#[derive(Clone, Copy, PartialEq, Eq)]
pub enum Holder {
    Model,
    Script,
}

// A refusal and its part, `start` up to `end` of the slice that `holder` names.
// Kept as one struct and no `Option`: the definitions of reading and of runs give it, and `no_refusal` is one.
#[derive(Clone, Copy)]
pub struct Refusal {
    pub cause: Cause,
    pub holder: Holder,
    pub start: usize,
    pub end: usize,
}

// An operand of a model's atom or assignment, or of a table's atom or update.
#[derive(Clone, Copy)]
pub struct Operand {
    pub tag: u8,
    pub value: Value,
}

// One event: its kind, the thread or mode transition that it names, and START's length or TICK's n.
#[derive(Clone, Copy)]
pub struct Event {
    pub kind: u8,
    pub id: u8,
    pub amount: u32,
}

// Record sizes with the kind byte, 0 for an unknown kind.
fn model_size(kind: u8) -> usize
    ensures { result ≡ record_size notations.Model kind }
{
    match kind {
        MODEL_HEAD => MODEL_HEAD_SIZE,
        MODEL_THREAD => MODEL_THREAD_SIZE,
        MODEL_INPUT => MODEL_PORT_SIZE,
        MODEL_OUTPUT => MODEL_PORT_SIZE,
        MODEL_LOCAL => MODEL_LOCAL_SIZE,
        MODEL_CONNECTION => MODEL_CONNECTION_SIZE,
        MODEL_SWITCH => MODEL_SWITCH_SIZE,
        MODEL_TRANSITION => MODEL_TRANSITION_SIZE,
        MODEL_ATOM => MODEL_ATOM_SIZE,
        MODEL_ASSIGNMENT => MODEL_ASSIGNMENT_SIZE,
        MODEL_WRITTEN_INPUT => MODEL_WRITTEN_INPUT_SIZE,
        _ => 0,
    }
}

fn table_size(kind: u8) -> usize
    ensures { result ≡ record_size notations.Table kind }
{
    match kind {
        TABLE_START => 7,
        TABLE_RULE => RULE_SIZE,
        TABLE_CLAUSE => CLAUSE_SIZE,
        TABLE_ATOM => TABLE_ATOM_SIZE,
        TABLE_UPDATE => UPDATE_SIZE,
        _ => 0,
    }
}

fn script_size(kind: u8) -> usize
    ensures { result ≡ record_size notations.Script kind }
{
    match kind {
        ACTIVATE => 2,
        DEACTIVATE => 2,
        DISPATCH => 2,
        START => 6,
        COMPLETE => 2,
        DEADLINE => 2,
        MISS => 2,
        REQUEST => 2,
        ENTER => 2,
        LEAVE => 2,
        TICK => 3,
        _ => 0,
    }
}

pub fn record_size(notation: Notation, kind: u8) -> usize
    ensures { result ≡ record_size notation kind }
{
    match notation {
        Notation::Model => model_size(kind),
        Notation::Table => table_size(kind),
        Notation::Script => script_size(kind),
    }
}

// How many of the bytes that are left belong to the record of a kind.
fn part_length(notation: Notation, kind: u8, rest: usize) -> usize
    ensures { result ≡ part_length notation kind rest }
{
    let size = record_size(notation, kind);
    if size == 0 { rest } else { rest.min(size) }
}

// The length of the part that begins at a place; 0 past the end.
pub fn part_length_at(notation: Notation, bytes: &[u8], at: usize) -> usize
    ensures { result ≡ part_length_at notation bytes.now at }
{
    if at < bytes.len() {
        let kind = bytes[at];
        part_length(notation, kind, bytes.len() - at)
    } else {
        0
    }
}

fn is_whole(notation: Notation, part: &[u8]) -> bool
    ensures { result ≡ is_whole notation part.now }
{
    let kind = item_or(part, 0, 0);
    let size = record_size(notation, kind);
    if size == 0 { false } else { part.len() == size }
}

pub fn operand_at(bytes: &[u8], at: usize) -> Operand
    ensures { result ≡ operand_at bytes.now at }
{
    if at < bytes.len() {
        let tag = bytes[at];
        let value = numbers::value_at(bytes, at + 1);
        Operand { tag, value }
    } else {
        let value = numbers::value_of(0);
        Operand { tag: 0, value }
    }
}

// The documents' number of a cause.
pub fn number_of(cause: Cause) -> u8
    ensures { result ≡ number_of cause }
{
    match cause {
        Cause::None => 0,
        Cause::CutRecord => 1,
        Cause::WrongKind => 2,
        Cause::TooMany => 3,
        Cause::WrongField => 4,
        Cause::OtherThread => 5,
        Cause::SetTwice => 6,
        Cause::LongHyperperiod => 7,
        Cause::ShortOutput => 8,
        Cause::BrokenEvent => 9,
        Cause::NotEnabled => 10,
        Cause::LastClock => 11,
        Cause::ConflictingRules => 12,
        Cause::InconsistentUpdates => 13,
        Cause::NamesNothing => 14,
        Cause::FaultyTime => 15,
    }
}

pub fn is_none(cause: Cause) -> bool
    ensures { result ≡ is_none cause }
{
    number_of(cause) == 0
}

// ---- refusals
// The refusal of a part of the model, or of the table.
pub fn in_model(cause: Cause, start: usize, end: usize) -> Refusal
    ensures { result ≡ in_model cause start end }
{
    Refusal {
        cause,
        holder: Holder::Model,
        start,
        end,
    }
}

// The refusal of an event of the script.
pub fn in_script(cause: Cause, start: usize, end: usize) -> Refusal
    ensures { result ≡ in_script cause start end }
{
    Refusal {
        cause,
        holder: Holder::Script,
        start,
        end,
    }
}

pub fn no_refusal() -> Refusal
    ensures { result ≡ no_refusal }
{
    in_model(Cause::None, 0, 0)
}

// Bytes from start up to end, as far as the slice has them: both places are drawn in before the part is made.
fn part_between(bytes: &[u8], start: usize, end: usize) -> &[u8]
    ensures { result.now ≡ take (end - start) (drop start bytes.now) }
{
    let end = end.min(bytes.len());
    &bytes[start.min(end)..end]
}

// The part refused, from the slice that holds it.
pub fn part_of<'a>(model: &'a [u8], script: &'a [u8], refusal: Refusal) -> &'a [u8]
    ensures { result.now ≡ part_of refusal model.now script.now }
{
    match refusal.holder {
        Holder::Model => part_between(model, refusal.start, refusal.end),
        Holder::Script => part_between(script, refusal.start, refusal.end),
    }
}

// No event has kind 0: what stands for a cut or unknown record.
const NO_EVENT: Event = Event {
    kind: 0,
    id: 0,
    amount: 0,
};

// The event that a part holds; none where the part is no whole record.
pub fn event_of(part: &[u8]) -> Event
    ensures { result ≡ event_of part.now }
{
    if !is_whole(Notation::Script, part) {
        return NO_EVENT;
    }
    let kind = item_or(part, 0, 0);
    if kind == TICK {
        let amount = u32::from(numbers::u16_at(part, 1));
        return Event {
            kind,
            id: 0,
            amount,
        };
    }
    let id = item_or(part, 1, 0);
    if kind == START {
        let amount = numbers::u32_at(part, 2);
        return Event { kind, id, amount };
    }
    Event {
        kind,
        id,
        amount: 0,
    }
}

// The event that begins at a place of a list, and the place after it.
#[derive(Clone, Copy)]
pub struct Listed {
    pub event: Event,
    pub end: usize,
}

pub fn event_at(script: &[u8], at: usize) -> Listed
    ensures { result ≡ listed_at script.now at }
{
    if script.len() <= at {
        return Listed {
            event: NO_EVENT,
            end: at,
        };
    }
    let end = at + part_length_at(Notation::Script, script, at);
    let event = event_of(&script[at..end]);
    Listed { event, end }
}

// The last figure of an event's line: the id, or TICK's n.
pub fn figure_of(event: Event) -> u32
    ensures { result ≡ figure_of event }
{
    if event.kind == TICK {
        event.amount
    } else {
        u32::from(event.id)
    }
}

// Cut, of an unknown kind, or a TICK of none.
pub fn is_broken(event: Event) -> bool
    ensures { result ≡ is_broken event }
{
    let size = record_size(Notation::Script, event.kind);
    (size == 0) | ((event.kind == TICK) & (event.amount == 0))
}
