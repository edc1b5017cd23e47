// The table of a model: which rules it has, and their bytes.

#![tactic(auto)]

use records::Refusal;

// What translating gives: the refusal, or how many bytes of the output the table takes.
// Kept as one struct: the definition `translated` gives it.
#[derive(Clone, Copy)]
pub struct Translation {
    pub refusal: Refusal,
    pub bytes: usize,
}
