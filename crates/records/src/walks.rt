// Walks over an input: the parts that it falls into, and the events of a list.

ghost use Rattle.std.specs.Prelude.{◌≡◌, ◌-◌, length};
ghost use Rattle.std.specs.Iterator.{at_most};
ghost use Rattle.records.specs.Walks.{GivesPart, GivesEvent};

use crate::{Listed, Notation, event_at, part_length_at};

// A part of an input: its bytes, and where they begin and end.
#[derive(Clone, Copy)]
pub struct Part<'a> {
    pub bytes: &'a [u8],
    pub start: usize,
    pub end: usize,
}

// The parts of an input from a place on.
#[derive(Clone, Copy)]
pub struct Parts<'a> {
    pub notation: Notation,
    pub input: &'a [u8],
    pub at: usize,
}

impl<'a> Parts<'a> {
    pub fn new(notation: Notation, input: &'a [u8], at: usize) -> Parts<'a>
        ensures { (result.notation ≡ notation) × ((result.input ≡ input.entry) × (result.at ≡ at)) }
    {
        Parts {
            notation,
            input,
            at,
        }
    }
}

impl<'a> Iterator for Parts<'a> {
    type Item = Part<'a>;

    ghost next_gives = { GivesPart };

    ghost remaining = { λ s. at_most (length s.input.now - s.at) };

    fn next(&mut self) -> Option<Part<'a>> {
        if self.input.len() <= self.at {
            return None;
        }
        let start = self.at;
        let end = start + part_length_at(self.notation, self.input, start);
        self.at = end;
        Some(Part {
            bytes: &self.input[start..end],
            start,
            end,
        })
    }
}

// The events of a list, each with the place where it begins.
#[derive(Clone, Copy)]
pub struct Events<'a> {
    pub script: &'a [u8],
    pub at: usize,
}

impl<'a> Events<'a> {
    pub fn new(script: &'a [u8]) -> Events<'a>
        ensures { (result.script ≡ script.entry) × (result.at ≡ 0) }
    {
        Events { script, at: 0 }
    }
}

impl<'a> Iterator for Events<'a> {
    type Item = (usize, Listed);

    ghost next_gives = { GivesEvent };

    ghost remaining = { λ s. at_most (length s.script.now - s.at) };

    fn next(&mut self) -> Option<(usize, Listed)> {
        if self.script.len() <= self.at {
            return None;
        }
        let start = self.at;
        let listed = event_at(self.script, start);
        self.at = listed.end;
        Some((start, listed))
    }
}
