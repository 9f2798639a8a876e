// The lent buffer: the records that hold gates or gaps, the gaps closed, and freed records cleared.
ghost use Rattle.std.specs.Prelude.{◌≡◌, ◌++◌, ◌+◌, ◌-◌, ◌*◌, ◌≤◌, ◌<◌, length, take, replicate};
ghost use Rattle.std.proofs.Props.{props};
ghost use Rattle.remembering.specs.Inner.Buffers.{gates_in, BufferHolds, each_once, ungapped, RecordMoved, KeptOrGone};

use gates::Gate;

// The lent bytes, and how many records of them hold gates or gaps. It has facts beside its fields and no model: behind a model, all that a lender
// knows of its bytes afterwards is how many they are.
#[derive(Drop)]
pub struct Buffer<'a> {
    pub bytes: &'a mut [u8],
    pub count: usize,
    ghost few: { count ≤ 8000 },
    ghost holds: { BufferHolds bytes.now (gates_in bytes.now count) } by { Prim.hlevel (props, each_once) },
}

impl<'a> Buffer<'a> {
    ghost use Rattle.std.specs.Prelude.{set};
    ghost use Rattle.gates.specs.Inner.Words.{gate_of, GateWord};
    ghost use Rattle.rules.specs.Tidying.{gate};
    ghost use Rattle.remembering.specs.Inner.Buffers.{GateOrGap};
    ghost use Rattle.remembering.specs.Inner.LentBuffers.{held, SameRecords};

    pub fn new(bytes: &'a mut [u8], count: usize) -> Buffer<'a>
        requires { (count ≤ 8000) × BufferHolds bytes.old (gates_in bytes.old count) }
        ensures same_reference { result.bytes.ghost_name ≡ bytes.entry.ghost_name }
        ensures value { (result.bytes.now ≡ bytes.old) × (result.count ≡ count) }
    {
        Buffer { bytes, count }
    }

    // Record k.
    pub fn word(&self, k: usize) -> u64
        requires { k < self.now.count }
        ensures { GateWord result × (gate_of result ≡ gate (held self.now) k) }
    {
        gates::words::word_at(self.bytes, 8 * k)
    }

    // A gate or a gap comes to stand at a place.
    pub fn set(&mut self, place: usize, g: Gate)
        requires { (place < self.old.count) × GateOrGap g }
        ensures same_records { SameRecords self.old self.new }
        ensures gates_after { held self.new ≡ set (held self.old) place g }
    {
        gates::encode(g, self.bytes, 8 * place);
    }
}

// Record p comes to stand at place q, which lies before it or is its own.
fn move_record(b: &mut [u8], p: usize, q: usize)
    requires { (q ≤ p) × (8 * p + 8 ≤ length b.old) }
    ensures { RecordMoved b.old b.new p q }
{
    gates::words::store(gates::words::word_at(b, 8 * p), b, 8 * q);
}

// Record p comes to stand at place q where it is no gap; answers the place for the next.
fn keep_record(b: &mut [u8], p: usize, q: usize) -> usize
    requires { (q ≤ p) × (8 * p + 8 ≤ length b.old) }
    ensures { KeptOrGone b.old b.new p q result }
{
    if b[8 * p] == 0 {
        return q;
    }
    move_record(b, p, q);
    q + 1
}

// The gates of m places close up; answers how many they are. On bytes and not a `Buffer`, whose facts would have to hold after each record that moves.
pub fn close_gaps(b: &mut [u8], m: usize) -> usize
    requires { BufferHolds b.old (gates_in b.old m) }
    ensures { BufferHolds b.new (ungapped (gates_in b.old m)) × (result ≡ length (ungapped (gates_in b.old m))) }
{
    let mut q = 0;
    for p in 0..m {
        q = keep_record(b, p, q);
    }
    q
}

// Zero bytes from a place to the end.
pub fn clear_from(b: &mut [u8], from: usize)
    requires { from ≤ length b.old }
    ensures { b.new ≡ take from b.old ++ replicate (length b.old - from) 0 }
{
    b[from..].fill(0);
}
