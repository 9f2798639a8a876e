// What pricing looks up. Each table is made once a call, since the language stores a constant table anew wherever it is used.
ghost use Rattle.std.specs.Prelude.{◌≡◌, ◌≤◌, ◌<◌, ℕ, slice_index};
ghost use Rattle.digits.specs.Digits.{digit};
ghost use Rattle.pricing.specs.Prices.{base};
ghost use Rattle.pricing.specs.Inner.Rates.{points, points_of, points_price, extra};

use std::array;

// The base price of 0 to 5 controls.
const BASE: [u8; 6] = [1, 1, 5, 15, 35, 75];

// The base price of so many controls.
fn base_price(controls: usize) -> u8
    requires { controls < 6 }
    ensures { (result ≡ base controls) × (result ≤ 75) }
{
    BASE[controls]
}

// A control gives a point, and six more where its value is another than v; 3 is none.
#[tactic(auto, unfolding(crate::specs::Inner::Rates::points))]
fn line_points(v: u16, controls: u16, k: usize) -> u8
    requires { k < 7 }
    ensures { (result ≡ points v (digit 4 k controls)) × (result ≤ 7) }
{
    let x = gates::controls::control_on(controls, k);
    if x == 3 {
        return 0;
    }
    if x == v { 1 } else { 7 }
}

// The points of three lines.
#[tactic(auto, using(crate::proofs::Points::points_three))]
fn three_points(v: u16, controls: u16) -> u8
    ensures { result ≡ points_of 3 v controls }
{
    line_points(v, controls, 0) + line_points(v, controls, 1) + line_points(v, controls, 2)
}

// The points of three lines, by their packed controls.
pub fn half_points(v: u16) -> [u8; 64]
    ensures { (k : ℕ) → k < 64 → slice_index result k ≡ points_of 3 v k }
{
    array::from_fn(|c| three_points(v, c as u16))
}

// The price of a gate's controls, by their points: five controls have 35 at most, so that their number is the remainder by 6, and the quotient how many
// have another value.
#[tactic(auto, unfolding(crate::specs::Inner::Rates::points_price))]
pub fn point_prices() -> [u8; 36]
    ensures { (k : ℕ) → k < 36 → slice_index result k ≡ points_price k }
{
    array::from_fn(|p| base_price(p % 6) + 2 * (p / 6) as u8)
}

// What a gate costs more, by its operator.
pub fn operator_extras(fitted: u8) -> [u8; 6]
    ensures { (k : ℕ) → k < 6 → slice_index result k ≡ extra fitted k }
{
    array::from_fn(|o| u8::from(!boards::is_fitted(fitted, o as u8)))
}
