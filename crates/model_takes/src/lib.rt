// Records taken into a model in a lent list: judged in the place where they stand, after the records before them, and added where nothing is wrong with
// them. A record goes from its bytes to its numbers by its own type, with no enum in between, which would be written and read back at every step.

#![tactic(auto)]

ghost use Rattle.std.specs.Prelude.{◌≡◌, ◌≤◌, ℕ, true, length};
ghost use Rattle.numbers.specs.Values.{duration};
ghost use Rattle.records.specs.Events.{last_clock};
ghost use Rattle.records.specs.Refusals.{is_none};
ghost use Rattle.model_format.specs.declared.Record.{Record};
ghost use Rattle.model_format.specs.declared.Record.TheVariants as variants;
ghost use Rattle.model_format.specs.Reading as reading;
ghost use Rattle.model_words.specs.Words as words;
ghost use Rattle.model_causes.specs.Readings as readings;
ghost use Rattle.model_takes.specs.Took.{Took};

use model_causes::{
    cause_of_assignment, cause_of_atom, cause_of_connection, cause_of_input, cause_of_local,
    cause_of_output, cause_of_switch, cause_of_thread, cause_of_transition, periods_of,
};
use model_faults::{head_cause, in_order};
use model_format::{
    Assignment, Atom, Connection, HEAD_RANK, Head, ModeTransition, Owned, Thread, Transition,
};
use model_writer::{
    add_assignment, add_atom, add_connection, add_head, add_input, add_local, add_output,
    add_switch, add_thread, add_transition,
};
use numbers::Duration;
use records::{Cause, is_none};

// What a model takes of one kind: which record it is, what is wrong with it, and how it is added.
pub trait Taken: Copy {
    ghost as_record: { Self → Record };

    fn cause(self, model: &[u32], last: u8) -> Cause
        ensures { result ≡ reading.cause_of (readings.reading_in last model.now) (as_record self) };

    // Nothing is wrong with it.
    fn add(self, model: &mut [u32])
        requires whole_model { words.model_words ≤ length model.old }
        requires passed { (last : ℕ) × (is_none (reading.cause_of (readings.reading_in last model.old) (as_record self)) ≡ true) }
        ensures { words.model_in model.new ≡ reading.add_record (words.model_in model.old) (as_record self) };
}

impl Taken for Head {
    ghost as_record = { variants.HeadRecord };

    fn cause(self, _model: &[u32], last: u8) -> Cause {
        head_cause(!in_order(last, HEAD_RANK), self)
    }

    fn add(self, model: &mut [u32]) {
        add_head(model, self)
    }
}

impl Taken for Thread {
    ghost as_record = { variants.ThreadRecord };

    fn cause(self, model: &[u32], last: u8) -> Cause {
        cause_of_thread(model, last, self)
    }

    fn add(self, model: &mut [u32]) {
        add_thread(model, self)
    }
}

// Input ports, output ports and locals are told apart by types of their own.
#[derive(Clone, Copy)]
pub struct Input(pub Owned);

#[derive(Clone, Copy)]
pub struct Output(pub u8);

#[derive(Clone, Copy)]
pub struct Local(pub Owned);

impl Taken for Input {
    ghost as_record = { λ x. variants.InputRecord x.0 };

    fn cause(self, model: &[u32], last: u8) -> Cause {
        cause_of_input(model, last, self.0)
    }

    fn add(self, model: &mut [u32]) {
        add_input(model, self.0)
    }
}

impl Taken for Output {
    ghost as_record = { λ x. variants.OutputRecord x.0 };

    fn cause(self, model: &[u32], last: u8) -> Cause {
        cause_of_output(model, last, self.0)
    }

    fn add(self, model: &mut [u32]) {
        add_output(model, self.0)
    }
}

impl Taken for Local {
    ghost as_record = { λ x. variants.LocalRecord x.0 };

    fn cause(self, model: &[u32], last: u8) -> Cause {
        cause_of_local(model, last, self.0)
    }

    fn add(self, model: &mut [u32]) {
        add_local(model, self.0)
    }
}

impl Taken for Connection {
    ghost as_record = { variants.ConnectionRecord };

    fn cause(self, model: &[u32], last: u8) -> Cause {
        cause_of_connection(model, last, self)
    }

    fn add(self, model: &mut [u32]) {
        add_connection(model, self)
    }
}

impl Taken for Transition {
    ghost as_record = { variants.TransitionRecord };

    fn cause(self, model: &[u32], last: u8) -> Cause {
        cause_of_transition(model, last, self)
    }

    fn add(self, model: &mut [u32]) {
        add_transition(model, self)
    }
}

impl Taken for Atom {
    ghost as_record = { variants.AtomRecord };

    fn cause(self, model: &[u32], last: u8) -> Cause {
        cause_of_atom(model, last, self)
    }

    fn add(self, model: &mut [u32]) {
        add_atom(model, self)
    }
}

impl Taken for Assignment {
    ghost as_record = { variants.AssignmentRecord };

    fn cause(self, model: &[u32], last: u8) -> Cause {
        cause_of_assignment(model, last, self)
    }

    fn add(self, model: &mut [u32]) {
        add_assignment(model, self)
    }
}

pub fn take<T: Taken>(model: &mut [u32], last: u8, item: T) -> Cause
    requires { words.model_words ≤ length model.old }
    ensures { Took last model.old (T.as_record item) result model.new }
{
    let cause = item.cause(model, last);
    if is_none(cause) {
        item.add(model);
    }
    cause
}

// A hyperperiod that is not past the last clock, which 32 bits hold.
fn period_of(time: u64) -> Duration
    requires { time ≤ last_clock }
    ensures { result ≡ duration time }
{
    Duration(time as u32)
}

// Apart from the others, since what judges a mode transition finds the hyperperiods that it is added with: they are made once.
pub fn take_switch(model: &mut [u32], last: u8, switch: ModeTransition) -> Cause
    requires { words.model_words ≤ length model.old }
    ensures { Took last model.old (variants.ModeRecord switch) result model.new }
{
    let found = periods_of(model, switch);
    let cause = cause_of_switch(model, last, found, switch);
    if is_none(cause) {
        add_switch(model, switch, period_of(found.h1), period_of(found.h2));
    }
    cause
}
