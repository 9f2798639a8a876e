// The refusal card: what a call is refused for, and the tests that many calls begin or end with.
#![tactic(auto)]

ghost use Rattle.std.specs.Prelude.{◌≡◌, ◌≤◌, ◌<◌, true, false, MatchResult};
ghost use Rattle.card.specs.Card.{lines_ok};
ghost use Rattle.card.specs.Answers.{number_of, place_of};

use std::error::Error;
use std::fmt;

// What is refused, in the card's order, with its place where it has one: the first such entry, gate, line or byte, or the size needed.
#[derive(Clone, Copy, Debug, PartialEq, Eq)]
pub enum Refusal {
    Lines,
    TableLength,
    LargeEntry(usize),
    RepeatedEntry(usize),
    Room(usize),
    CascadeLength,
    NoGate(usize),
    LargePattern,
    Frame,
    Value,
    OtherTable(usize),
    NoGateLine(usize),
    FittedSet,
    Text(usize),
}

impl Refusal {
    // Its number on the card.
    pub fn number(self) -> u8
        ensures { result ≡ number_of self }
    {
        match self {
            Refusal::Lines => 1,
            Refusal::TableLength => 2,
            Refusal::LargeEntry(_) => 3,
            Refusal::RepeatedEntry(_) => 4,
            Refusal::Room(_) => 5,
            Refusal::CascadeLength => 6,
            Refusal::NoGate(_) => 7,
            Refusal::LargePattern => 8,
            Refusal::Frame => 9,
            Refusal::Value => 10,
            Refusal::OtherTable(_) => 11,
            Refusal::NoGateLine(_) => 12,
            Refusal::FittedSet => 13,
            Refusal::Text(_) => 14,
        }
    }

    // Its place, 0 where it has none.
    pub fn place(self) -> usize
        ensures { result ≡ place_of self }
    {
        match self {
            Refusal::LargeEntry(row) => row,
            Refusal::RepeatedEntry(row) => row,
            Refusal::Room(needed) => needed,
            Refusal::NoGate(place) => place,
            Refusal::OtherTable(input) => input,
            Refusal::NoGateLine(line) => line,
            Refusal::Text(offset) => offset,
            _ => 0,
        }
    }
}

// As the program says it.
impl fmt::Display for Refusal {
    ghost use Rattle.std.specs.Prelude.{◌++◌, codes, decimal, Some};

    ghost output = { λ e. Some (codes "refused " ++ (decimal (number_of e) ++ (codes " at " ++ decimal (place_of e)))) };

    fn fmt<W: fmt::Write>(&self, f: &mut fmt::Formatter<W>) -> fmt::Result {
        write!(f, "refused {} at {}", self.number(), self.place())
    }
}

impl Error for Refusal {}

// Lines are 1 to 6.
pub fn lines_ok(lines: u8) -> bool
    ensures { result ≡ lines_ok lines }
{
    1 <= lines && lines <= 6
}

// Refusal 1 of the lines.
pub fn check_lines(lines: u8) -> Result<(), Refusal>
    ensures { MatchResult result (λ _. lines_ok lines ≡ true) (λ e. (lines_ok lines ≡ false) × (e ≡ Refusal.Lines)) }
{
    if !lines_ok(lines) {
        return Err(Refusal::Lines);
    }
    Ok(())
}

// Refusal 5 of a room that has so much, where so much is needed.
pub fn check_room(has: usize, needed: usize) -> Result<(), Refusal>
    ensures { MatchResult result (λ _. needed ≤ has) (λ e. (has < needed) × (e ≡ Refusal.Room needed)) }
{
    if has < needed {
        return Err(Refusal::Room(needed));
    }
    Ok(())
}
