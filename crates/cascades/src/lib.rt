// Cascades of gate records: checked, run on a pattern, and inverted.
#![tactic(auto)]

ghost use Rattle.std.specs.Prelude.{◌≡◌, ◌<◌, ◌^◌, true, ◌∷◌, [], length};
ghost use Rattle.card.specs.Card.{lines_ok, Answer.accepted};
ghost use Rattle.cascades.specs.Cascades.{gates_of, ran};
ghost use Rattle.card.specs.Answers.{number_as};
ghost use Rattle.cascades.specs.Answers.{on_cascade, check_answer, run_answer, invert_answer, invert_room};

pub mod lengths;
pub mod scan;
mod undo;

use card::Refusal;
use gates::Gate;

// The number of gates of a cascade on so many lines: refusals 1, 6, 7.
pub fn check_cascade(lines: u8, cascade: &[u8]) -> Result<usize, Refusal>
    ensures { number_as result ≡ check_answer lines cascade.now }
{
    card::check_lines(lines)?;
    lengths::check_length(cascade.len())?;
    if let Some(place) = scan::first_bad(lines, cascade) {
        return Err(Refusal::NoGate(place));
    }
    Ok(cascade.len() / 8)
}

// The cascade on a pattern of so many lines, with refusals 6 and 7 on the way.
fn run_on(lines: u8, cascade: &[u8], pattern: u16) -> Result<u16, Refusal>
    requires { (lines_ok lines ≡ true) × (pattern < 3 ^ lines) }
    ensures { number_as result ≡ on_cascade lines cascade.now (accepted (ran (gates_of cascade.now) pattern ∷ [])) }
{
    lengths::check_length(cascade.len())?;
    let mut q = gates::quads::quad_of(pattern);
    for i in 0..cascade.len() / 8 {
        let Ok(
            Gate {
                operator,
                target,
                controls,
            },
        ) = gates::decode(lines, cascade, 8 * i)
        else {
            return Err(Refusal::NoGate(i));
        };
        q = gates::quads::apply(operator, target, controls, q);
    }
    Ok(gates::quads::pattern_of(q))
}

// The pattern after the cascade: refusals 1, 6, 7, 8.
pub fn run(lines: u8, cascade: &[u8], pattern: u16) -> Result<u16, Refusal>
    ensures { number_as result ≡ run_answer lines cascade.now pattern }
{
    card::check_lines(lines)?;
    if pattern < digits::power(lines as usize) {
        return run_on(lines, cascade, pattern);
    }
    check_cascade(lines, cascade)?;
    Err(Refusal::LargePattern)
}

// The reversed list of the gates' inverses, into a room for records, and how many they are: refusals 1, 6, 7, 5.
pub fn invert(lines: u8, cascade: &[u8], room: &mut [u8]) -> Result<usize, Refusal>
    ensures answer { number_as result ≡ invert_answer lines cascade.now (length room.old) }
    ensures room_after { room.new ≡ invert_room lines cascade.now room.old }
{
    let m = check_cascade(lines, cascade)?;
    card::check_room(room.len() / 8, m)?;
    undo::write_undoing(lines, cascade, m, room);
    Ok(m)
}
