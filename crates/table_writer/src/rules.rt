// The parts of a rule, as a writer puts them down.

ghost use Rattle.std.specs.Prelude.{◌≡◌, [], ◌∷◌};
ghost use Rattle.numbers.specs.Values.{natural};
ghost use Rattle.table_format.specs.Variables.{no_variable};
ghost use Rattle.table_format.specs.Format.{record_to};
ghost use Rattle.table_writer.specs.Writes.{Writes, WritesAtoms, WritesClauses, WritesUpdates};
ghost use Rattle.table_writer.specs.Operands.{constant_bits};

use crate::Writer;
use numbers::Value;
use records::Operand;
use table_format::{
    Atom, CONSTANT_TAG, COPY, DIFFERS, EQUALS, LENGTH_TAG, MULTIPLE_OF, NO_VARIABLE, Record,
    RuleHead, SUM, Update, VARIABLE_TAG,
};

// A constant by its bits, which are all that is written of it.
fn constant(number: u32) -> Operand
    ensures { result ≡ constant_bits number }
{
    Operand {
        tag: CONSTANT_TAG,
        value: numbers::value_of(number),
    }
}

pub fn variable(number: u16) -> Operand
    ensures { result ≡ record { tag = 1; value = natural number } }
{
    Operand {
        tag: VARIABLE_TAG,
        value: numbers::value_of(u32::from(number)),
    }
}

pub fn unused() -> Operand
    ensures { result ≡ record { tag = 0; value = natural 0 } }
{
    Operand {
        tag: CONSTANT_TAG,
        value: Value(0),
    }
}

fn chosen_length() -> Operand
    ensures { result ≡ record { tag = 2; value = natural 0 } }
{
    Operand {
        tag: LENGTH_TAG,
        value: Value(0),
    }
}

impl Writer<'_> {
    pub fn rule(&mut self, kind: u8, id: u8, low: u32, high: u32)
        ensures { Writes self.old (record_to (Record.Head (record { kind = kind; id = id; low = low; high = high })) []) self.new }
    {
        self.head(RuleHead {
            kind,
            id,
            low,
            high,
        });
    }

    // ---- atoms: of a variable and any operand, a constant, another variable
    pub fn compare(&mut self, op: u8, variable: u16, right: Operand)
        ensures { WritesAtoms self.old (record { op = op; variable = variable; right = right } ∷ []) self.new }
    {
        self.atom(Atom {
            op,
            variable,
            right,
        });
    }

    pub fn compared(&mut self, op: u8, left: u16, number: u32)
        ensures { WritesAtoms self.old (record { op = op; variable = left; right = record { tag = 0; value = natural number } } ∷ []) self.new }
    {
        self.compare(op, left, constant(number));
    }

    pub fn related(&mut self, op: u8, left: u16, other: u16)
        ensures { WritesAtoms self.old (record { op = op; variable = left; right = record { tag = 1; value = natural other } } ∷ []) self.new }
    {
        self.compare(op, left, variable(other));
    }

    // ---- clauses of one atom
    fn condition(&mut self, op: u8, left: u16, right: Operand)
        ensures { WritesClauses self.old ((record { op = op; variable = left; right = right } ∷ []) ∷ []) self.new }
    {
        self.clause();
        self.compare(op, left, right);
    }

    pub fn equals(&mut self, left: u16, number: u32)
        ensures { WritesClauses self.old ((record { op = 0; variable = left; right = record { tag = 0; value = natural number } } ∷ []) ∷ []) self.new }
    {
        self.condition(EQUALS, left, constant(number));
    }

    pub fn multiple(&mut self, left: u16, number: u32)
        ensures { WritesClauses self.old ((record { op = 6; variable = left; right = record { tag = 0; value = natural number } } ∷ []) ∷ []) self.new }
    {
        self.condition(MULTIPLE_OF, left, constant(number));
    }

    pub fn same(&mut self, left: u16, other: u16)
        ensures { WritesClauses self.old ((record { op = 0; variable = left; right = record { tag = 1; value = natural other } } ∷ []) ∷ []) self.new }
    {
        self.condition(EQUALS, left, variable(other));
    }

    pub fn different(&mut self, left: u16, other: u16)
        ensures { WritesClauses self.old ((record { op = 1; variable = left; right = record { tag = 1; value = natural other } } ∷ []) ∷ []) self.new }
    {
        self.condition(DIFFERS, left, variable(other));
    }

    // ---- updates: a variable set, whatever the others hold
    fn assigned(&mut self, target: u16, op: u8, first: Operand, second: Operand)
        ensures { WritesUpdates self.old (record { condition = no_variable; wanted = 0; target = target; op = op; first = first; second = second } ∷ []) self.new }
    {
        self.update(Update {
            condition: NO_VARIABLE,
            wanted: 0,
            target,
            op,
            first,
            second,
        });
    }

    // To a constant.
    pub fn set(&mut self, target: u16, number: u32)
        ensures { WritesUpdates self.old (record { condition = no_variable; wanted = 0; target = target; op = 0; first = record { tag = 0; value = natural number }; second = record { tag = 0; value = natural 0 } } ∷ []) self.new }
    {
        self.assigned(target, COPY, constant(number), unused());
    }

    // To another variable.
    pub fn copy(&mut self, target: u16, source: u16)
        ensures { WritesUpdates self.old (record { condition = no_variable; wanted = 0; target = target; op = 0; first = record { tag = 1; value = natural source }; second = record { tag = 0; value = natural 0 } } ∷ []) self.new }
    {
        self.assigned(target, COPY, variable(source), unused());
    }

    // To another and a constant.
    pub fn sum(&mut self, target: u16, source: u16, number: u32)
        ensures { WritesUpdates self.old (record { condition = no_variable; wanted = 0; target = target; op = 1; first = record { tag = 1; value = natural source }; second = record { tag = 0; value = natural number } } ∷ []) self.new }
    {
        self.assigned(target, SUM, variable(source), constant(number));
    }

    // To another and the length that START chooses.
    pub fn chosen(&mut self, target: u16, source: u16)
        ensures { WritesUpdates self.old (record { condition = no_variable; wanted = 0; target = target; op = 1; first = record { tag = 1; value = natural source }; second = record { tag = 2; value = natural 0 } } ∷ []) self.new }
    {
        self.assigned(target, SUM, variable(source), chosen_length());
    }

    // To another where the condition variable has the wanted value.
    pub fn copy_when(&mut self, condition: u16, wanted: u8, target: u16, source: u16)
        ensures { WritesUpdates self.old (record { condition = condition; wanted = wanted; target = target; op = 0; first = record { tag = 1; value = natural source }; second = record { tag = 0; value = natural 0 } } ∷ []) self.new }
    {
        self.update(Update {
            condition,
            wanted,
            target,
            op: COPY,
            first: variable(source),
            second: unused(),
        });
    }
}
