// Tidying a cascade where it lies: the first open pair that fits a rule, again and again, until none fits.
#![tactic(auto)]

ghost use Rattle.std.specs.Prelude.{◌≡◌};
ghost use Rattle.rules.specs.Tidying.{tidy_answer, tidy_buffer};
ghost use Rattle.tidying.specs.TidyAnswers.{tidied_as};

mod applying;
mod pairs;
mod repeating;

use card::Refusal;

// The gates left, and the steps taken.
#[derive(Clone, Copy, Debug, PartialEq, Eq)]
pub struct Tidied {
    pub left: usize,
    pub steps: usize,
}

// The cascade, tidied in the lent buffer: refusals 1, 6, 7.
pub fn tidy(lines: u8, cascade: &mut [u8]) -> Result<Tidied, Refusal>
    ensures answer { tidied_as result ≡ tidy_answer lines cascade.old }
    ensures cascade_after { cascade.new ≡ tidy_buffer lines cascade.old }
{
    let m = cascades::check_cascade(lines, cascade)?;
    Ok(repeating::tidy_records(cascade, m))
}
