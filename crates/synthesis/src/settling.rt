// One row of the procedure, gate by gate. The inverse is kept beside the table, so that a gate exchanges two values in each and looks at no others.
ghost use Rattle.std.specs.Prelude.{◌≡◌, map, ◌<◌, length, slice_index};
ghost use Rattle.procedure.specs.Inner.Exchanges.{exchanged};
ghost use Rattle.synthesis.specs.Inner.TableSteps.{Paired, RowToSettle, RowSettled};

use crate::laying::GateWords;
use crate::making::{PatternNames, gate_for};

// Two values change places in a table and in its inverse. Four stores: the library's `swap` compares its places first, and with it six lines take a tenth
// more instructions.
pub fn exchange(table: &mut [u16], inverse: &mut [u16], a: u16, b: u16)
    requires { Paired table.old inverse.old × (a < length table.old) × (b < length table.old) }
    ensures table_after { table.new ≡ map (exchanged a b) table.old }
    ensures paired { Paired table.new inverse.new }
{
    let x = inverse[a as usize];
    let y = inverse[b as usize];
    table[x as usize] = b;
    table[y as usize] = a;
    inverse[a as usize] = y;
    inverse[b as usize] = x;
}

// A table and its inverse, which stay inverse to each other. It has no model, as GateWords has none, and each slice has a lifetime of its own: of two that
// share one, a lender learns no more.
#[derive(Drop)]
pub struct Pairing<'a, 'b> {
    table: &'a mut [u16],
    inverse: &'b mut [u16],
    ghost paired: { Paired table.now inverse.now },
}

impl<'a, 'b> Pairing<'a, 'b> {
    pub fn new(table: &'a mut [u16], inverse: &'b mut [u16]) -> Pairing<'a, 'b>
        requires { Paired table.old inverse.old }
        ensures same_references { (result.table.ghost_name ≡ table.entry.ghost_name) × (result.inverse.ghost_name ≡ inverse.entry.ghost_name) }
        ensures value { (result.table.now ≡ table.old) × (result.inverse.now ≡ inverse.old) }
    {
        Pairing { table, inverse }
    }

    // Entry i.
    pub fn entry(&self, i: u16) -> u16
        requires { i < length self.now.table.now }
        ensures { result ≡ slice_index self.now.table.now i }
    {
        self.table[i as usize]
    }

    // Two values change places.
    pub fn exchange(&mut self, a: u16, b: u16)
        requires { (a < length self.old.table.now) × (b < length self.old.table.now) }
        ensures same_references { (self.new.table.ghost_name ≡ self.old.table.ghost_name) × (self.new.inverse.ghost_name ≡ self.old.inverse.ghost_name) }
        ensures table_after { self.new.table.now ≡ map (exchanged a b) self.old.table.now }
    {
        exchange(self.table, self.inverse, a, b);
    }
}

// Row i: its gates are applied to the table, and their words laid.
// A turn for each gate: `left` has a bit for each line on which the present entry a and i differ, the lower of its two
// (0x555 has these for six lines), and on these a is as it came.
pub fn find_row(i: u16, names: &PatternNames, table: &mut Pairing, words: &mut GateWords)
    requires { RowToSettle names.now.lines i table.old.table.now words.old.start }
    ensures same_table { (table.new.table.ghost_name ≡ table.old.table.ghost_name) × (table.new.inverse.ghost_name ≡ table.old.inverse.ghost_name) }
    ensures same_words { words.new.words.ghost_name ≡ words.old.words.ghost_name }
    ensures settled { RowSettled names.now.lines i table.old.table.now table.new.table.now words.new.start words.old.start words.old.words.now words.new.words.now }
{
    let mut a = table.entry(i);
    let from = names.name(a);
    let to = names.name(i);
    let differ = from ^ to;
    let mut left = (differ | (differ >> 1)) & 0x555;
    while left != 0 {
        let k = gates::controls::find_line(left);
        let d = gates::controls::control_on(to, k);
        let b = digits::with_digit(a, k, gates::controls::control_on(from, k), d);
        words.lay(gates::words::word_of(gate_for(k, names.name(a), d)));
        table.exchange(a, b);
        a = b;
        left &= left - 1;
    }
}
