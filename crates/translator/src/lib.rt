// The translator: from the bytes of a model to the bytes of its table. In between the model is a list of numbers, which is lent to what
// lays down its rules.

#![tactic(auto)]

ghost use Rattle.std.specs.Prelude.{◌≡◌, ◌<◌, ◌≤◌, get_or, length};
ghost use Rattle.model_format.specs.Reading.{read_model};
ghost use Rattle.model_format.specs.WellFormed.{GoodTiming, WellFormed};
ghost use Rattle.model_words.specs.Words.{timing_in, model_in, model_words};
ghost use Rattle.table_writer.specs.Wrote.{Wrote};
ghost use Rattle.table_writer.specs.Writes.{WritesRules};
ghost use Rattle.translation.specs.Parts.{stamped};
ghost use Rattle.table_format.specs.RuleKinds.{rule_kinds};
ghost use Rattle.translation.specs.Rules.{items_of, timing_rules, rules_of};
ghost use Rattle.translation.specs.Translate.{table_bytes};
ghost use Rattle.translator.specs.Groups.{group_rules, completes_of};
ghost use Rattle.model_reader.specs.Reads.{read_as};
ghost use Rattle.translator.specs.Translates.{Translates};

use model_words::MODEL_WORDS;
use records::{
    ACTIVATE, COMPLETE, Cause, DEACTIVATE, DEADLINE, DISPATCH, ENTER, LEAVE, MISS, REQUEST,
    Refusal, START,
};
use table_writer::Writer;
use translation::Translation;

// The kinds of events that have rules, in the table's order.
const KINDS: usize = 10;

const RULE_KINDS: [u8; KINDS] = [
    ACTIVATE, DEACTIVATE, DISPATCH, START, COMPLETE, DEADLINE, MISS, REQUEST, ENTER, LEAVE,
];

fn rule_kind(number: usize) -> u8
    requires { number < length rule_kinds }
    ensures { result ≡ get_or rule_kinds number 0 }
{
    RULE_KINDS[number]
}

// How many items an event kind has rules for: mode transitions, or threads.
fn items_of(words: &[u32], kind: u8) -> usize
    ensures { result ≡ items_of (timing_in words.now) kind }
{
    if (kind == REQUEST) | ((kind == ENTER) | (kind == LEAVE)) {
        return model_words::switches(words);
    }
    model_words::threads(words)
}

// The rules of an event kind and an item. COMPLETE has its own function: only it needs the behaviours.
fn put_item(out: &mut Writer<'_>, words: &[u32], kind: u8, item: u8)
    requires { GoodTiming (timing_in words.now) }
    ensures { WritesRules out.old (stamped kind item (timing_rules (timing_in words.now) kind item)) out.new }
{
    match kind {
        ACTIVATE => translate_threads::put_activate(out, words, item),
        DEACTIVATE => translate_threads::put_deactivate(out, words, item),
        DISPATCH => translate_threads::put_dispatch(out, words, item),
        START => translate_threads::put_start(out, words, item),
        DEADLINE => translate_threads::put_deadline(out, words, item),
        MISS => translate_threads::put_miss(out, words, item),
        REQUEST => translate_modes::put_request(out, words, item),
        ENTER => translate_modes::put_enter(out, words, item),
        LEAVE => translate_modes::put_leave(out, words, item),
        _ => {}
    }
}

// The rules of an event kind.
fn put_group(out: &mut Writer<'_>, words: &[u32], kind: u8)
    requires { GoodTiming (timing_in words.now) }
    ensures { WritesRules out.old (group_rules (timing_in words.now) kind) out.new }
{
    for item in 0..items_of(words, kind) {
        put_item(out, words, kind, item as u8);
    }
}

fn put_completes(out: &mut Writer<'_>, words: &[u32])
    requires { WellFormed (model_in words.now) }
    ensures { WritesRules out.old (completes_of (model_in words.now)) out.new }
{
    for thread in 0..model_words::threads(words) {
        translate_complete::put_complete(out, words, thread as u8);
    }
}

// All rules, by kind.
fn put_rules(out: &mut Writer<'_>, words: &[u32])
    requires { WellFormed (model_in words.now) }
    ensures { WritesRules out.old (rules_of (model_in words.now)) out.new }
{
    for number in 0..KINDS {
        let kind = rule_kind(number);
        if kind == COMPLETE {
            put_completes(out, words);
        } else {
            put_group(out, words, kind);
        }
    }
}

// The whole table from the slice's start, as far as the slice goes: the start records, then the rules.
fn put_table(output: &mut [u8], words: &[u32]) -> usize
    requires { WellFormed (model_in words.now) }
    ensures { Wrote output.old 0 (table_bytes (model_in words.now)) output.new result }
{
    let mut out = Writer::new(output, 0);
    translate_starts::put_initial_values(&mut out, words);
    put_rules(&mut out, words);
    out.at
}

// A model read into a list that has room for it.
fn read_into(model: &[u8], words: &mut [u32]) -> Refusal
    requires { model_words ≤ length words.old }
    ensures { read_as result words.new ≡ read_model model.now }
{
    model_reader::read_model_into(model, words)
}

// The table of an accepted model, at the beginning of the output, where it fits; else the output is as it was. How long it is, is known before
// any of it is written.
pub fn translate(model: &[u8], output: &mut [u8]) -> Translation
    ensures { Translates model.now output.old result output.new }
{
    let mut words = [0u32; MODEL_WORDS];
    let refusal = read_into(model, &mut words);
    if !records::is_none(refusal.cause) {
        return Translation { refusal, bytes: 0 };
    }
    let length = table_sizes::size_of(&words).bytes;
    if output.len() < length {
        let end = model.len();
        let told = records::in_model(Cause::ShortOutput, end, end);
        return Translation {
            refusal: told,
            bytes: 0,
        };
    }
    put_table(output, &words);
    Translation {
        refusal: records::no_refusal(),
        bytes: length,
    }
}
