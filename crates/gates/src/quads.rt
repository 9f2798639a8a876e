// The lines of a pattern as digits in base 4, as a gate's controls are packed: whether the gate fires is seen of all lines at once.
ghost use Rattle.std.specs.Prelude.{◌≡◌, ℕ, ◌<◌, ◌^◌};
ghost use Rattle.gates.specs.Gates.{applied};
ghost use Rattle.gates.specs.Inner.Quads.{quad, Held};

use super::controls;

// The quad of a pattern. Digit k is p / 3^k - 3 * (p / 3^(k + 1)), so in base 4 the quotient p / 3^k counts 4^k - 3 * 4^(k - 1), which is 4^(k - 1).
pub fn quad_of(p: u16) -> u16
    requires { p < 729 }
    ensures { result ≡ quad p }
{
    p + (p / 3 + 4 * (p / 9 + 4 * (p / 27 + 4 * (p / 81 + 4 * (p / 243)))))
}

// The pattern of a quad.
pub fn pattern_of(q: u16) -> u16
    ensures { (p : ℕ) → p < 729 → q ≡ quad p → result ≡ p }
{
    q % 4
        + 3 * (q / 4 % 4)
        + 9 * (q / 16 % 4)
        + 27 * (q / 64 % 4)
        + 81 * (q / 256 % 4)
        + 243 * (q / 1024 % 4)
}

// The lines after a gate: its operator on the target's digit if every control line holds its value. Of each two bits of `none` the lower is set where the
// controls have 3, none; 0xfff ^ 3 * none then has both bits of each line that has a control, and only there the controls must be as the lines.
// The gate comes in its three numbers, since running takes the decoded gate apart, as document 01 names the form.
pub fn apply(operator: u8, target: u8, controls: u16, q: u16) -> u16
    requires { (target < 6) × (controls < 4 ^ 6) × Held q }
    ensures { (p : ℕ) → q ≡ quad p → result ≡ quad (applied (record { operator = operator; target = target; controls = controls }) p) }
{
    let none = controls & (controls >> 1) & 0x555;
    if (controls ^ q) & (0xfff ^ (3 * none)) != 0 {
        return q;
    }
    let t = target as usize;
    controls::with_control(q, t, super::act_on(operator, controls::control_on(q, t)))
}
