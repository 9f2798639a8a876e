// The controls of a gate, packed in base 4: one of them, and one replaced.
ghost use Rattle.std.specs.Prelude.{◌≡◌, ◌^◌, ◌<◌};
ghost use Rattle.digits.specs.Digits.{digit, put};
ghost use Rattle.gates.specs.Inner.Lines.{LowestLine};

// The control on line k.
pub fn control_on(controls: u16, k: usize) -> u16
    requires { k < 7 }
    ensures { result ≡ digit 4 k controls }
{
    (controls >> (2 * k)) % 4
}

// The controls with that on line k replaced by v. `digits::with_digit` does the same in base 3, but is handed the digit, since finding it divides: one
// function over the radix would be slower for both.
pub fn with_control(controls: u16, k: usize, v: u16) -> u16
    requires { (controls < 4 ^ 6) × (k < 6) × (v < 4) }
    ensures { result ≡ put 4 k controls v }
{
    let weight: u16 = 1 << (2 * k);
    controls - control_on(controls, k) * weight + v * weight
}

// The first line on which x, packed in base 4 too, has a digit other than 0.
#[tactic(auto, using(crate::proofs::Lines::lowest_is))]
pub fn find_line(x: u16) -> usize
    requires { (0 < x) × (x < 4 ^ 6) }
    ensures { LowestLine x result }
{
    (x.trailing_zeros() / 2) as usize
}
