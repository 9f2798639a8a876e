// Ternary digits of a pattern: the weight of a line, and a pattern with one digit replaced.
#![tactic(auto)]

ghost use Rattle.std.specs.Prelude.{◌≡◌, ◌^◌, ◌≤◌, ◌<◌};
ghost use Rattle.digits.specs.Digits.{digit, put};

// 3 to the k. A `match`, since `3u16.pow(k)` is a loop of nearly twice the instructions, and synthesis asks for a power for each gate.
pub fn power(k: usize) -> u16
    requires { k ≤ 6 }
    ensures { result ≡ 3 ^ k }
{
    match k {
        0 => 1,
        1 => 3,
        2 => 9,
        3 => 27,
        4 => 81,
        5 => 243,
        _ => 729,
    }
}

// p with its digit k, which is x, replaced by d. The digit is handed over, since a division by a power that is not a constant is slow.
pub fn with_digit(p: u16, k: usize, x: u16, d: u16) -> u16
    requires { (k ≤ 6) × (x ≡ digit 3 k p) × (p < 729) × (d < 3) }
    ensures { result ≡ put 3 k p d }
{
    let w = power(k);
    p - x * w + d * w
}
