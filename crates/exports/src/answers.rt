// Answers as numbers.
ghost use Rattle.std.specs.Prelude.{◌≡◌, ℕ, List, ◌∷◌, []};
ghost use Rattle.card.specs.Card.{Answer.accepted, Answer.refused};
ghost use Rattle.card.specs.Answers.{answer_as};
ghost use Rattle.tidying.specs.TidyAnswers.{tidied_values};
ghost use Rattle.choice.specs.Choice.{choice_values};
ghost use Rattle.files.specs.Files.{read_values, extent_values};
ghost use Rattle.serials.specs.Serials.{told_as, told_of};
ghost use Rattle.exports.specs.Numbers.{numbers, handed_as};

use super::Numbers;
use card::Refusal;
use choice::Choice;
use files::{Extent, ReadBack};
use gates::Gate;
use readers::Given;
use serials::{Scan, Stopped, scanning};
use tidying::Tidied;

// An accepted call with its values.
fn accept(first: u64, second: u64, third: u64) -> Numbers
    ensures { result ≡ numbers (accepted (first ∷ second ∷ third ∷ [])) }
{
    Numbers {
        number: 0,
        place: 0,
        first,
        second,
        third,
    }
}

// A refused one.
fn refuse(number: u8, place: usize) -> Numbers
    ensures { result ≡ numbers (refused number place) }
{
    Numbers {
        number: number as u64,
        place: place as u64,
        first: 0,
        second: 0,
        third: 0,
    }
}

// What an accepted call answers: its values, and with them the numbers that go out.
pub trait Values {
    ghost values: { Self → List ℕ };

    fn numbers(self) -> Numbers
        ensures { result ≡ numbers (accepted (values self)) };
}

impl Values for () {
    ghost values = { λ _. [] };

    fn numbers(self) -> Numbers {
        accept(0, 0, 0)
    }
}

impl Values for usize {
    ghost values = { λ m. m ∷ [] };

    fn numbers(self) -> Numbers {
        accept(self as u64, 0, 0)
    }
}

impl Values for u16 {
    ghost values = { λ pattern. pattern ∷ [] };

    fn numbers(self) -> Numbers {
        accept(u64::from(self), 0, 0)
    }
}

impl Values for u32 {
    ghost values = { λ cost. cost ∷ [] };

    fn numbers(self) -> Numbers {
        accept(u64::from(self), 0, 0)
    }
}

impl Values for Tidied {
    ghost values = { tidied_values };

    fn numbers(self) -> Numbers {
        accept(self.left as u64, self.steps as u64, 0)
    }
}

impl Values for Choice {
    ghost values = { choice_values };

    fn numbers(self) -> Numbers {
        match self {
            Choice::First => accept(1, 0, 0),
            Choice::Second => accept(2, 0, 0),
        }
    }
}

impl Values for ReadBack {
    ghost values = { read_values };

    fn numbers(self) -> Numbers {
        accept(u64::from(self.lines), self.gates as u64, self.note as u64)
    }
}

impl Values for Extent {
    ghost values = { extent_values };

    fn numbers(self) -> Numbers {
        accept(u64::from(self.lines), self.at as u64, self.end as u64)
    }
}

// What a call answers.
pub fn answered<A: Values>(answer: Result<A, Refusal>) -> Numbers
    ensures { result ≡ numbers (answer_as A.values answer) }
{
    match answer {
        Ok(accepted) => accepted.numbers(),
        Err(refusal) => refuse(refusal.number(), refusal.place()),
    }
}

// What a reader hands out, and its place afterwards.
pub fn handed(given: Given, at: usize) -> Numbers
    ensures { result ≡ numbers (handed_as given at) }
{
    match given {
        Ok(
            Some(
                Gate {
                    operator,
                    target,
                    controls,
                },
            ),
        ) => accept(
            1,
            at as u64,
            operator as u64 + 256 * target as u64 + 0x1_0000 * controls as u64,
        ),
        Ok(None) => accept(0, at as u64, 0),
        Err(refusal) => refuse(refusal.number(), refusal.place()),
    }
}

// What a reader of the serial lead tells.
pub fn told(answer: Result<usize, Stopped>) -> Numbers
    ensures { result ≡ numbers (told_as answer) }
{
    match answer {
        Ok(entries) => entries.numbers(),
        Err(Stopped { number, place }) => refuse(number, place),
    }
}

// The answer that stands in a reader of the serial lead.
pub fn standing(scan: Scan) -> Numbers
    ensures { result ≡ numbers (told_as (told_of scan)) }
{
    told(scanning::tell(scan))
}
