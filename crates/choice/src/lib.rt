// The cheaper of two cascades that compute the same table.
#![tactic(auto)]

ghost use Rattle.std.specs.Prelude.{◌≡◌};
ghost use Rattle.choice.specs.Choice.{choice_as, choose_answer, Handed};

mod compare;

use card::Refusal;

// Which of the two it is.
#[derive(Clone, Copy, Debug, PartialEq, Eq)]
pub enum Choice {
    First,
    Second,
}

// The one that costs less on a board with a global control value and a fitted set, then the one with fewer gates, then the first: refusals 1, 10, 13, 6
// and 7 of the first, 6 and 7 of the second, 11.
pub fn choose(
    lines: u8,
    value: u8,
    fitted: u8,
    first: &[u8],
    second: &[u8],
) -> Result<Choice, Refusal>
    ensures { choice_as result ≡ choose_answer lines value fitted first.now second.now }
{
    let one = pricing::price(lines, value, fitted, first)?;
    let two = pricing::price(lines, value, fitted, second)?;
    if let Some(input) = compare::first_difference(lines, first, second) {
        return Err(Refusal::OtherTable(input));
    }
    if compare::second_wins(one, two, first.len() / 8, second.len() / 8) {
        Ok(Choice::Second)
    } else {
        Ok(Choice::First)
    }
}

// That lent cascade itself; where the answer is a refusal, the empty part at the start of the first.
pub fn cheaper<'a>(lines: u8, value: u8, fitted: u8, first: &'a [u8], second: &'a [u8]) -> &'a [u8]
    ensures { Handed (choose_answer lines value fitted first.now second.now) first.entry second.entry result }
{
    match choose(lines, value, fitted, first, second) {
        Ok(Choice::First) => first,
        Ok(Choice::Second) => second,
        Err(_) => &first[..0],
    }
}
