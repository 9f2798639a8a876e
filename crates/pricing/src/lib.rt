// What a cascade costs.
#![tactic(auto)]

ghost use Rattle.std.specs.Prelude.{◌≡◌, true, ◌∷◌, []};
ghost use Rattle.card.specs.Card.{lines_ok, Answer.accepted};
ghost use Rattle.cascades.specs.Cascades.{gates_of};
ghost use Rattle.cascades.specs.Answers.{on_cascade};
ghost use Rattle.card.specs.Answers.{number_as};
ghost use Rattle.pricing.specs.Prices.{cascade_price, price_answer};

mod rates;

use card::Refusal;
use gates::Gate;

// The sum of the gates' prices, with refusals 6 and 7 on the way.
fn price_on(lines: u8, value: u8, fitted: u8, cascade: &[u8]) -> Result<u32, Refusal>
    requires { lines_ok lines ≡ true }
    ensures { number_as result ≡ on_cascade lines cascade.now (accepted (cascade_price value fitted (gates_of cascade.now) ∷ [])) }
{
    cascades::lengths::check_length(cascade.len())?;
    let points = rates::half_points(value as u16);
    let prices = rates::point_prices();
    let extras = rates::operator_extras(fitted);
    let mut cost: u32 = 0;
    for i in 0..cascade.len() / 8 {
        let Ok(
            Gate {
                operator,
                controls,
                ..
            },
        ) = gates::decode(lines, cascade, 8 * i)
        else {
            return Err(Refusal::NoGate(i));
        };
        // The points of x0, x1 and x2, and those of x3, x4 and x5.
        let c = controls as usize;
        let p = points[c % 64] + points[c / 64];
        let price = prices[p as usize] + extras[operator as usize];
        cost += price as u32;
    }
    Ok(cost)
}

// What the cascade costs on a board with a global control value and a fitted set (D 1, E 2, N 4, added): refusals 1, 10, 13, 6, 7.
pub fn price(lines: u8, value: u8, fitted: u8, cascade: &[u8]) -> Result<u32, Refusal>
    ensures { number_as result ≡ price_answer lines value fitted cascade.now }
{
    card::check_lines(lines)?;
    if 2 < value {
        return Err(Refusal::Value);
    }
    if !boards::set_ok(fitted) {
        return Err(Refusal::FittedSet);
    }
    price_on(lines, value, fitted, cascade)
}
