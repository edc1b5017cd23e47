// A table's records, written into a lent slice.

ghost use Rattle.std.specs.Prelude.{◌≤◌, ◌≡◌, ◌+◌, [], ◌∷◌, true, length};
ghost use Rattle.std.proofs.lemmas.List.Edits.{sets};
ghost use Rattle.numbers.specs.Values.{u16_to, u32_to, bits_of};
ghost use Rattle.table_format.specs.Format.{operand_to, record_to};
ghost use Rattle.table_writer.specs.Lists.{Counted};

use numbers::Value;
use records::{
    Operand, TABLE_ATOM, TABLE_ATOM_SIZE, TABLE_CLAUSE, TABLE_RULE, TABLE_START, TABLE_UPDATE,
};
use table_format::{Atom, InitialValue, Record, RuleHead, Update};

// Bytes written one after the other into a lent slice, from a place on. What would lie past its end is counted and not written.
#[derive(Drop)]
pub struct Writer<'a> {
    pub bytes: &'a mut [u8],
    pub at: usize,
    ghost place: { Counted at },
    ghost size: { Counted (length bytes.now) },
}

// Most of a table are atoms: each is stored at once where it has room.
fn store_atom(output: &mut [u8], at: usize, atom: Atom)
    requires { at + 9 ≤ length output.old }
    ensures { output.new ≡ sets output.old at (record_to (Record.Atomic atom) []) }
{
    let right = atom.right;
    let value = right.value;
    let variable = atom.variable;
    let bits = numbers::bits(value);
    output[at] = TABLE_ATOM;
    output[at + 1] = atom.op;
    output[at + 2] = (variable % 256) as u8;
    output[at + 3] = (variable / 256 % 256) as u8;
    output[at + 4] = right.tag;
    output[at + 5] = (bits % 256) as u8;
    output[at + 6] = (bits / 256 % 256) as u8;
    output[at + 7] = (bits / 256 / 256 % 256) as u8;
    output[at + 8] = (bits / 256 / 256 / 256 % 256) as u8;
}

fn has_room(end: usize, at: usize, size: usize) -> bool
    ensures { result ≡ true → at + size ≤ end }
{
    at < end && size <= end - at
}

impl<'a> Writer<'a> {
    pub fn new(bytes: &'a mut [u8], at: usize) -> Writer<'a>
        ensures lender { result.bytes.ghost_name ≡ bytes.entry.ghost_name }
        ensures held { result.bytes.now ≡ bytes.old }
        ensures place { result.at ≡ at }
    {
        Writer { bytes, at }
    }
}

impl Writer<'_> {
    ghost use Rattle.table_writer.specs.Writes.{Writes};

    // The place moves no farther than a place can be told.
    pub fn byte(&mut self, byte: u8)
        ensures { Writes self.old (byte ∷ []) self.new }
    {
        numbers::put_item(self.bytes, self.at, byte);
        self.at = self.at.saturating_add(1);
    }

    fn u16(&mut self, number: u16)
        ensures { Writes self.old (u16_to number []) self.new }
    {
        numbers::put16(self.bytes, self.at, number);
        self.at = self.at.saturating_add(2);
    }

    fn u32(&mut self, number: u32)
        ensures { Writes self.old (u32_to number []) self.new }
    {
        numbers::put32(self.bytes, self.at, number);
        self.at = self.at.saturating_add(4);
    }

    fn value(&mut self, value: Value)
        ensures { Writes self.old (u32_to (bits_of value.0) []) self.new }
    {
        self.u32(numbers::bits(value));
    }

    fn operand(&mut self, operand: Operand)
        ensures { Writes self.old (operand_to operand []) self.new }
    {
        self.byte(operand.tag);
        self.value(operand.value);
    }

    pub fn initial(&mut self, initial: InitialValue)
        ensures { Writes self.old (record_to (Record.Initial initial) []) self.new }
    {
        self.byte(TABLE_START);
        self.u16(initial.variable);
        self.value(initial.value);
    }

    pub fn head(&mut self, head: RuleHead)
        ensures { Writes self.old (record_to (Record.Head head) []) self.new }
    {
        self.byte(TABLE_RULE);
        self.byte(head.kind);
        self.byte(head.id);
        self.u32(head.low);
        self.u32(head.high);
    }

    pub fn clause(&mut self)
        ensures { Writes self.old (record_to Record.Clause []) self.new }
    {
        self.byte(TABLE_CLAUSE);
    }

    pub fn atom(&mut self, atom: Atom)
        ensures { Writes self.old (record_to (Record.Atomic atom) []) self.new }
    {
        if has_room(self.bytes.len(), self.at, TABLE_ATOM_SIZE) {
            store_atom(self.bytes, self.at, atom);
            self.at += TABLE_ATOM_SIZE;
            return;
        }
        self.byte(TABLE_ATOM);
        self.byte(atom.op);
        self.u16(atom.variable);
        self.operand(atom.right);
    }

    pub fn update(&mut self, update: Update)
        ensures { Writes self.old (record_to (Record.Change update) []) self.new }
    {
        self.byte(TABLE_UPDATE);
        self.u16(update.condition);
        self.byte(update.wanted);
        self.u16(update.target);
        self.byte(update.op);
        self.operand(update.first);
        self.operand(update.second);
    }
}
