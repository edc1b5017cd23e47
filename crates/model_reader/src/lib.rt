// Reading a model into a lent list of numbers: its records one by one, up to the first that is refused.

#![tactic(auto)]

mod parts;

ghost use Rattle.std.specs.Prelude.{◌≡◌, length};
ghost use Rattle.model_format.specs.Model.{empty_model};
ghost use Rattle.model_format.specs.Reading as reading;
ghost use Rattle.model_words.specs.Words as words;
ghost use Rattle.model_reader.specs.Reads as into;
ghost use Rattle.model_reader.specs.Ranks.{rank_of_kind};

use crate::parts::take_whole;
use model_format::INPUT_RANK;
use model_words::MODEL_WORDS;
use model_writer::clear;
use records::{
    Cause, MODEL_WRITTEN_INPUT, Notation, Refusal, in_model, is_none, no_refusal, record_size,
};

// The rank of records of a kind.
fn rank_of(kind: u8) -> u8
    ensures { result ≡ rank_of_kind kind }
{
    if kind == MODEL_WRITTEN_INPUT {
        INPUT_RANK
    } else {
        kind
    }
}

// The records of a model, into a list that is clear, up to the first that is refused. There the list has those before it. Its length is said as a constant,
// so that no number of it is tested for being there. Kept as a walk over places: a record's size, by which it is known to be whole, is looked up once.
pub fn read_records(bytes: &[u8], model: &mut [u32]) -> Refusal
    requires { (length model.old ≡ words.model_words) × (words.model_in model.old ≡ empty_model) }
    ensures { into.read_with result model.new ≡ reading.read_model bytes.now }
{
    let mut last: u8 = 0;
    let mut at: usize = 0;
    while at < bytes.len() {
        let kind = bytes[at];
        let size = record_size(Notation::Model, kind);
        if size == 0 {
            return in_model(Cause::WrongKind, at, bytes.len());
        }
        if bytes.len() - at < size {
            return in_model(Cause::CutRecord, at, bytes.len());
        }
        let end = at + size;
        let cause = take_whole(&mut model[..MODEL_WORDS], last, kind, &bytes[at..end]);
        if !is_none(cause) {
            return in_model(cause, at, end);
        }
        last = rank_of(kind);
        at = end;
    }
    if last == 0 {
        return in_model(Cause::WrongKind, at, at);
    }
    no_refusal()
}

fn read_all(bytes: &[u8], model: &mut [u32]) -> Refusal
    requires { length model.old ≡ words.model_words }
    ensures { into.read_as result model.new ≡ reading.read_model bytes.now }
{
    clear(model);
    let refusal = read_records(bytes, model);
    if !is_none(refusal.cause) {
        clear(model);
    }
    refusal
}

// What is wrong with a model, for callers who want no more of it.
pub fn judge_model(bytes: &[u8]) -> Refusal
    ensures { result ≡ (reading.read_model bytes.now).refusal }
{
    let mut model = [0u32; MODEL_WORDS];
    read_records(bytes, &mut model)
}

// The model that bytes stand for, read into the first numbers of a list that has room for one.
pub fn read_model_into(bytes: &[u8], list: &mut [u32]) -> Refusal
    ensures { into.ReadInto bytes.now list.old list.new result }
{
    if list.len() < MODEL_WORDS {
        return in_model(Cause::ShortOutput, bytes.len(), bytes.len());
    }
    read_all(bytes, &mut list[..MODEL_WORDS])
}
