// The gate that is added for a digit, and the controls that it is made from.
ghost use Rattle.std.specs.Prelude.{◌≡◌, ℕ, ◌^◌, ◌≤◌, ◌<◌};
ghost use Rattle.synthesis.specs.Synthesis.{exchanger, gate_for};
ghost use Rattle.synthesis.specs.Inner.TableSteps.{full_controls, NamesBelow, GateParts};

use gates::Gate;

// The operator among N, D, E that exchanges two digit values: its number, as the record of a gate has it (document 01).
fn exchanger_of(x: u16, y: u16) -> u8
    requires { (x < 3) × (y < 3) }
    ensures { result ≡ exchanger x y }
{
    match x + y {
        2 => 3,
        3 => 4,
        _ => 5,
    }
}

// The controls that name each pattern on some lines, made once for all gates: its digits, and none, 3, from the line after these up.
#[derive(Drop)]
pub struct PatternNames {
    lines: usize,
    controls: [u16; 729],
    ghost named: { NamesBelow lines (3 ^ lines) controls },
}

impl PatternNames {
    // A line has two bits, so that the bits below 0x1000 are those of six lines, and those from bit 2 n up are set for none.
    pub fn new(n: usize) -> PatternNames
        requires { n ≤ 6 }
        ensures { result.lines ≡ n }
    {
        let none: u16 = 0x1000 - (1 << (2 * n));
        let mut controls = [0u16; 729];
        for p in 0..digits::power(n) {
            controls[p as usize] = gates::quads::quad_of(p) + none;
        }
        PatternNames { lines: n, controls }
    }

    // The controls that name pattern p.
    pub fn name(&self, p: u16) -> u16
        requires { p < 3 ^ self.now.lines }
        ensures { result ≡ full_controls self.now.lines p }
    {
        self.controls[p as usize]
    }
}

// The gate that exchanges digit k of a with d, where all other lines are as in a. Its controls are those that name a, but none, 3, on line k.
pub fn gate_for(k: usize, controls: u16, d: u16) -> Gate
    requires { GateParts k controls d }
    ensures { (n a : ℕ) → n ≤ 6 → k < n → controls ≡ full_controls n a → result ≡ gate_for n k a d }
{
    Gate {
        operator: exchanger_of(gates::controls::control_on(controls, k), d),
        target: k as u8,
        controls: controls | (3 << (2 * k)),
    }
}
