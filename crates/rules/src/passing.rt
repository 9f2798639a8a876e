// Which gates may change places, asked of the numbers that their records are.
ghost use Rattle.std.specs.Prelude.{◌≡◌, not, ◌≤◌, ◌<◌};
ghost use Rattle.gates.specs.Inner.Words.{gate_of, GateWord};
ghost use Rattle.gates.specs.Gates.{control};
ghost use Rattle.rules.specs.Places.{is_c, same_type, blocks, clashes, may_change};

// The operator is C1 or C2.
#[tactic(auto, unfolding(crate::specs::Places::is_c))]
pub fn is_c(o: u8) -> bool
    ensures { result ≡ is_c o }
{
    o == 1 || o == 2
}

// The gate's control on line t: byte 2 + t of the record, after the operator and the target, which are the two bytes below 0x1_0000.
fn control_in(w: u64, t: u64) -> u64
    requires { GateWord w × (t ≤ 6) }
    ensures { (result ≡ control (gate_of w) t) × (result < 4) }
{
    (w / 0x1_0000 >> (8 * t)) % 256
}

// Hexadecimal digit o, counted from the low end, has the control values that operator o upsets, bit v for value v: of C1 and C2 (digits 1 and 2) 0, 1
// and 2, of N all but 1, of D all but 0, of E all but 2. Value 3 is no control, so no digit has bit 3; and digit 0 is a gap's.
const UPSETS: u64 = 0x36_5770;

// The target of g is a control of h that g upsets.
fn blocks_gate(g: u64, h: u64) -> bool
    requires { GateWord g × GateWord h }
    ensures { result ≡ blocks (gate_of g) (gate_of h) }
{
    let v = control_in(h, g / 256 % 256);
    (UPSETS >> (4 * (g % 256) + v)) % 2 == 1
}

// Byte a, counted from the low end, has the operators that are not of one type with operator a, bit b for operator b: all of 0 to 5 but a itself and,
// for C1 and C2 (bytes 1 and 2), the other C.
const APART: u64 = 0x1f2f_3739_393e;

// Two operators are not of one type.
fn types_apart(a: u64, b: u64) -> bool
    requires { (a < 6) × (b < 6) }
    ensures { result ≡ not (same_type a b) }
{
    (APART >> (8 * a + b)) % 2 == 1
}

// They have one target and are not of one type.
#[tactic(auto, using(gates::proofs::Bytes::operator_word, gates::proofs::Bytes::target_word), unfolding(crate::specs::Places::clashes))]
fn targets_clash(g: u64, h: u64) -> bool
    requires { GateWord g × GateWord h }
    ensures { result ≡ clashes (gate_of g) (gate_of h) }
{
    (g / 256 % 256 == h / 256 % 256) & types_apart(g % 256, h % 256)
}

// The gates may change places: there is none of three reasons against it. Each is looked up and none is skipped, so that there is no branch.
#[tactic(auto, unfolding(crate::specs::Places::may_change))]
pub fn may_change(g: u64, h: u64) -> bool
    requires { GateWord g × GateWord h }
    ensures { result ≡ may_change (gate_of g) (gate_of h) }
{
    !(targets_clash(g, h) | blocks_gate(g, h) | blocks_gate(h, g))
}
