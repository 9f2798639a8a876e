// The rules on a pair of gates: which fits, and what control reduction makes of each.
ghost use Rattle.std.specs.Prelude.{◌≡◌, true, false, ◌^◌, ◌<◌, None};
ghost use Rattle.gates.specs.Inner.Words.{gate_of, GateWord};
ghost use Rattle.rules.specs.Rules.{reduces, fits, loosened, retuned};
ghost use Rattle.rules.specs.Inner.NamedRules.{rule_for, rule_by};

use gates::{Gate, controls, words};

// The rules by name.
#[derive(Clone, Copy, Debug, PartialEq, Eq)]
pub enum Rule {
    Cancel,
    Merge,
    Reduce,
}

// One target (byte 1 of a record), and operators (byte 0) that a rule takes.
fn may_fit(g: u64, h: u64) -> bool
    requires { GateWord g × GateWord h }
    ensures { (result ≡ true → (gate_of g).target ≡ (gate_of h).target) × (result ≡ false → rule_for (gate_of g) (gate_of h) ≡ None) }
{
    if g / 256 % 256 != h / 256 % 256 {
        return false;
    }
    if g % 256 == h % 256 {
        return true;
    }
    (h % 256) as u8 == gates::invert_op((g % 256) as u8)
}

// The rule for the operators a and b of gates with one target and the same control lines, whose control values differ on so many lines.
#[tactic(auto, unfolding(crate::specs::Inner::NamedRules::rule_by))]
fn rule_by(a: u8, b: u8, apart: u64) -> Option<Rule>
    ensures { result ≡ rule_by a b apart }
{
    match apart {
        0 if b == gates::invert_op(a) => Some(Rule::Cancel),
        0 if super::passing::is_c(a) && a == b => Some(Rule::Merge),
        1 if a == b => Some(Rule::Reduce),
        _ => None,
    }
}

// The rule that fits. Few pairs of gates get past the look at targets and operators, and only these are compared line by line; h / 0x1_0000 has the
// bytes of its controls, and modulo 255 the bytes that mark lines are counted.
pub fn rule_for(g: u64, h: u64) -> Option<Rule>
    requires { GateWord g × GateWord h }
    ensures { result ≡ rule_for (gate_of g) (gate_of h) }
{
    if !may_fit(g, h) {
        return None;
    }
    if words::mark_controls(g) != words::mark_controls(h) {
        return None;
    }
    let apart = words::mark_others(g, h / 0x1_0000) % 255;
    rule_by((g % 256) as u8, (h % 256) as u8, apart)
}

// A rule fits.
#[tactic(auto, using(crate::proofs::FittingPairs::rule_fits))]
pub fn fits_pair(g: u64, h: u64) -> bool
    requires { GateWord g × GateWord h }
    ensures { result ≡ fits (gate_of g) (gate_of h) }
{
    rule_for(g, h).is_some()
}

// What a rule leaves in the places of gates i and j.
#[derive(Clone, Copy)]
pub struct Left {
    pub first: Gate,
    pub second: Gate,
}

// Control reduction: gate i loses the line on which the two differ; gate j gets the third value there and, if a C, becomes its inverse.
pub fn reduce_pair(g: Gate, h: Gate) -> Left
    requires { (reduces g h ≡ true) × (g.controls < 4 ^ 6) × (h.controls < 4 ^ 6) }
    ensures { (result.first ≡ loosened g h) × (result.second ≡ retuned g h) }
{
    let k = controls::find_line(g.controls ^ h.controls);
    let s = controls::control_on(g.controls, k);
    let t = controls::control_on(h.controls, k);
    let first = Gate {
        controls: controls::with_control(g.controls, k, 3),
        ..g
    };
    let second = Gate {
        controls: controls::with_control(h.controls, k, 3 - s - t),
        ..h
    };
    Left {
        first,
        second: second.invert(),
    }
}
