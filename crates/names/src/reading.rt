// The lines of a text: counted, and their gates written.
ghost use Rattle.std.specs.Prelude.{◌≡◌, true, [], ◌∷◌, map, ◌*◌, ◌≤◌, length};
ghost use Rattle.std.proofs.lemmas.List.Edits.{sets};
ghost use Rattle.card.specs.Card.{lines_ok, Answer.accepted};
ghost use Rattle.card.specs.Answers.{number_as};
ghost use Rattle.cascades.specs.Cascades.{bytes_of};
ghost use Rattle.names.specs.Names.{text_lines, good, on_text};
ghost use Rattle.names.specs.Inner.Guesses.{guessed};

use super::guessing;
use card::Refusal;
use gates::words;
use texts::laying;

// The line is that of a gate on so many lines: the one gate that it can be is one, and has this line.
fn good_line(lines: u8, line: &[u8]) -> bool
    requires { lines_ok lines ≡ true }
    ensures { result ≡ good lines line.now }
{
    let w = words::word_of(guessing::guess_gate(line));
    if !words::is_gate(lines, w) {
        return false;
    }
    let mut laid = [0; 48];
    let size = laying::put_gate(&crate::NAMES, w, &mut laid);
    &laid[..size] == line
}

// The number of lines, or 12 at the first that is not good.
pub fn count_lines(lines: u8, text: &[u8]) -> Result<usize, Refusal>
    requires { lines_ok lines ≡ true }
    ensures { number_as result ≡ on_text lines text.now (accepted (length (text_lines text.now) ∷ [])) }
{
    let mut count = 0;
    for line in text.split_inclusive(|b| *b == b'\n') {
        if !good_line(lines, line) {
            return Err(Refusal::NoGateLine(count));
        }
        count += 1;
    }
    Ok(count)
}

// The gates of the lines, from the start of the room on.
pub fn write_records(text: &[u8], room: &mut [u8])
    requires { 8 * length (text_lines text.now) ≤ length room.old }
    ensures { room.new ≡ sets room.old 0 (bytes_of (map guessed (text_lines text.now))) }
{
    let mut to = 0;
    for line in text.split_inclusive(|b| *b == b'\n') {
        gates::encode(guessing::guess_gate(line), room, to);
        to += 8;
    }
}
