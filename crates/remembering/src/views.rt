// A gate as the others see it, in two numbers, and the same of sixteen gates at once: a row passes sixteen places by one test.
ghost use Rattle.std.specs.Prelude.{◌≡◌, true, ◌+◌, ◌*◌, ◌^◌, ◌≤◌, ◌<◌};
ghost use Rattle.gates.specs.Inner.Words.{gate_of, GateWord};
ghost use Rattle.remembering.specs.Inner.Buffers.{GateOrGap};
ghost use Rattle.remembering.specs.Inner.LentBuffers.{held};
ghost use Rattle.remembering.specs.Inner.Views.{shunned, own_part, view_of, other_part, against_of, six_bits, kind_of, SeenAs, MeetsNone};
ghost use Rattle.remembering.specs.Inner.Views.{StretchPassed, StretchesMarked};

use super::buffer::Buffer;
use gates::Gate;

// Two sets: of types on each line, and of kinds. Of a stretch of sixteen places they are what stands there, of a gate what it must not meet.
#[derive(Clone, Copy)]
pub struct Sets {
    pub types: u64,
    pub kinds: u64,
}

impl Sets {
    // A gate that must not meet the one set meets nothing of the other.
    pub fn meets_none(self, here: Sets) -> bool
        ensures { result ≡ true → MeetsNone self here }
    {
        self.types & here.types == 0 && self.kinds & here.kinds == 0
    }
}

// Every type, or every kind.
pub const ALL: u64 = 0xffff_ffff_ffff_ffff;

// Of a stretch of which nothing is known: every gate meets it. A value, since an Option would take half as much memory again, and memory is fixed.
pub const UNKNOWN: Sets = Sets {
    types: ALL,
    kinds: ALL,
};

// For each line the types that upset the gate's control there, in a byte: bytes 2 to 7 of the word are the six controls v, and 12 for a control,
// plus 4 where v is not 0, less v and 1 comes to 11, 14, 13 and 0 for v from 0 to 3. No byte borrows from the next, since each difference is 0 or
// more.
fn shun(w: u64) -> u64
    requires { GateWord w }
    ensures { (result ≡ shunned (gate_of w)) × (result < 256 ^ 6) }
{
    12 * gates::words::mark_controls(w) + 4 * gates::words::mark_others(w, 0)
        - w / 0x1_0000
        - 0x0101_0101_0101
}

// What a gate with each operator has in its view on its target: its own type in the high half, and all types but this in the low half. Types are bits,
// N 1, E 2, D 4 and C 8; a gap has none.
const PARTS: [u8; 6] = [0x00, 0x87, 0x87, 0x1e, 0x4b, 0x2d];

// The byte of a view on the gate's target.
fn own_part(o: u64) -> u64
    requires { o < 6 }
    ensures { (result ≡ own_part o) × (result < 256) }
{
    u64::from(PARTS[o as usize])
}

// The byte that a view must not meet there: the halves are exchanged.
fn other_part(o: u64) -> u64
    requires { o < 6 }
    ensures { (result ≡ other_part o) × (result < 256) }
{
    u64::from(PARTS[o as usize].rotate_left(4))
}

// What a gate is for others, and what it cannot pass.
fn view(w: u64) -> u64
    requires { GateWord w }
    ensures { result ≡ view_of (gate_of w) }
{
    shun(w) + own_part(w % 256) * gates::words::weight(w / 256 % 256)
}

// What a view must not meet.
fn against(w: u64) -> u64
    requires { GateWord w }
    ensures { result ≡ against_of (gate_of w) }
{
    16 * shun(w) + other_part(w % 256) * gates::words::weight(w / 256 % 256)
}

// Six bytes of 0 or 1, bits 0, 8 .. 40, as six bits: 23 places down, bytes 3 to 5 stand at bits 1, 9 and 17 beside bytes 0 to 2 at 0, 8 and 16;
// then 6 and 12 places down the second and the third of these pairs stand at bits 2, 3 and 4, 5. Bits 6 and up are cut off.
fn fold_marks(a: u64) -> u64
    ensures { (result ≡ six_bits a) × (result < 64) }
{
    let two = a | a / 0x80_0000;
    (two | two / 64 | two / 4096) % 64
}

// The bit for the gate's control lines; a gap has none.
fn kind(w: u64) -> u64
    requires { GateWord w }
    ensures { result ≡ kind_of (gate_of w) }
{
    if w % 256 == 0 {
        return 0;
    }
    1 << fold_marks(gates::words::mark_controls(w))
}

// What the gate with the word w must not meet of a stretch, for its gates to pass it.
pub fn see_word(w: u64) -> Sets
    requires { GateWord w }
    ensures { SeenAs (gate_of w) result }
{
    Sets {
        types: against(w),
        kinds: kind(w),
    }
}

// The same of a gate. All pass a gap.
pub fn see_gate(g: Gate) -> Sets
    requires { GateOrGap g }
    ensures { SeenAs g result }
{
    if g.operator == 0 {
        return Sets { types: 0, kinds: 0 };
    }
    see_word(gates::words::word_of(g))
}

// The sixteen places from x on.
fn stretch_of(buffer: &Buffer, x: usize) -> Sets
    requires { x + 16 ≤ buffer.now.count }
    ensures { StretchPassed (held buffer.now) x (x + 16) result }
{
    let mut types = 0;
    let mut kinds = 0;
    for k in x..x + 16 {
        let w = buffer.word(k);
        types |= view(w);
        kinds |= kind(w);
    }
    Sets { types, kinds }
}

// Stretch s is known.
pub fn mark_stretch(buffer: &Buffer, marks: &mut [Sets], s: usize)
    requires { StretchesMarked (held buffer.now) marks.old × (16 * s + 16 ≤ buffer.now.count) }
    ensures { StretchesMarked (held buffer.now) marks.new }
{
    if marks[s].kinds == ALL {
        marks[s] = stretch_of(buffer, 16 * s);
    }
}
