// Gates: what an operator does, its inverse, and the record of 8 bytes; `quads` has when a gate fires and what it does.
#![tactic(auto)]

ghost use Rattle.std.specs.Prelude.{◌≡◌, ◌+◌, ◌≤◌, ◌<◌, leb, length};
ghost use Rattle.std.proofs.lemmas.List.Edits.{sets};
ghost use Rattle.gates.specs.Gates.{act, inverse_op, inverse};
ghost use Rattle.gates.specs.Records.{record_of};
ghost use Rattle.gates.specs.Inner.Decoding.{decoded};

pub mod controls;
pub mod quads;
pub mod words;

use card::Refusal;

// A gate: the controls of x0 to x5 are packed in base 4, 3 for none.
#[derive(Clone, Copy, Debug, PartialEq, Eq)]
pub struct Gate {
    pub operator: u8,
    pub target: u8,
    pub controls: u16,
}

// The operator's value at a digit. Here and in `invert_op` an operator stays a byte, since both answer for any byte.
#[tactic(auto, unfolding(crate::specs::Gates::act))]
pub fn act_on(operator: u8, x: u16) -> u16
    requires { x < 3 }
    ensures { result ≡ act operator x }
{
    let o = u16::from(operator);
    if o < 3 {
        (x + o) % 3
    } else {
        (2 * x + o + 2) % 3
    }
}

// The operator that takes an operator back.
#[tactic(auto, unfolding(crate::specs::Gates::inverse_op))]
pub fn invert_op(operator: u8) -> u8
    ensures { result ≡ inverse_op operator }
{
    if operator < 3 { 3 - operator } else { operator }
}

impl Gate {
    // The gate that takes the gate back: the inverse operator on the same lines.
    #[tactic(auto, unfolding(crate::specs::Gates::inverse))]
    pub fn invert(self) -> Gate
        ensures { result ≡ inverse self }
    {
        Gate {
            operator: invert_op(self.operator),
            ..self
        }
    }
}

// The 8 bytes from a place on end at an offset or before it. The sum, which might wrap around, is not made, and a loop over places subtracts once.
pub fn ends_by(at: usize, end: usize) -> bool
    ensures { result ≡ leb (at + 8) end }
{
    end.checked_sub(8).is_some_and(|last| at <= last)
}

// The gate that the record at a place is on so many lines: refusals 1 and 7.
pub fn decode(lines: u8, bytes: &[u8], at: usize) -> Result<Gate, Refusal>
    ensures { result ≡ decoded lines bytes.now at }
{
    card::check_lines(lines)?;
    if !ends_by(at, bytes.len()) {
        return Err(Refusal::NoGate(at));
    }
    let w = words::word_at(bytes, at);
    if !words::is_gate(lines, w) {
        return Err(Refusal::NoGate(at));
    }
    Ok(words::gate_of(w))
}

// The gate's record, stored at a place.
pub fn encode(g: Gate, out: &mut [u8], at: usize)
    requires { at + 8 ≤ length out.old }
    ensures { out.new ≡ sets out.old at (record_of g) }
{
    words::store(words::word_of(g), out, at);
}
