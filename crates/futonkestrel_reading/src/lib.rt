// A model read into a list of numbers that a caller keeps.

#![tactic(auto)]

ghost use Rattle.std.specs.Prelude.{◌≡◌, length};
ghost use Rattle.model_format.specs.Reading.{read_model};
ghost use Rattle.model_settling.specs.ModelWords.{words_of_model};
ghost use Rattle.model_words.specs.Words.{model_words};
ghost use Rattle.futonkestrel_reading.specs.Reading as reading;

use futonkestrel_lending::tell_refusal;
use model_reader::{judge_model, read_model_into};
use model_settling::settle_model;
use model_words::MODEL_WORDS;
use records::Cause;

// How many numbers a model takes.
pub fn model_words() -> usize
    ensures { result ≡ model_words }
{
    MODEL_WORDS
}

fn read_settled(model: &[u8], words: &mut [u32])
    requires { length words.old ≡ model_words }
    ensures { words.new ≡ words_of_model (read_model model.now).model }
{
    read_model_into(model, words);
    settle_model(words);
}

// Judged first, so that nothing is written where it is refused.
pub fn model_read(model: &[u8], words: &mut [u32], told: &mut [usize]) -> u32
    ensures { reading.ReadsModel model.now words.old words.new told.old result told.new }
{
    let refusal = judge_model(model);
    let cause = refusal.cause;
    if !records::is_none(cause) {
        return tell_refusal(told, refusal);
    }
    if words.len() < MODEL_WORDS {
        let end = model.len();
        let short = records::in_model(Cause::ShortOutput, end, end);
        return tell_refusal(told, short);
    }
    read_settled(model, &mut words[..MODEL_WORDS]);
    tell_refusal(told, refusal)
}
