// Gate lists as text in document 003's names for the operators, read and written.
#![tactic(auto)]

ghost use Rattle.std.specs.Prelude.{◌≡◌, length};
ghost use Rattle.card.specs.Answers.{number_as};
ghost use Rattle.names.specs.Names.{read_names_answer, read_names_room, write_names_answer, write_names_room};

mod guessing;
mod reading;
mod writing;

use card::Refusal;
use texts::gate_texts;
use texts::laying::Names;

// The name of each operator from 0 on, and how many letters it has. No gate has operator 0.
const NAMES: Names = [
    (*b"  ", 0),
    (*b"+1", 2),
    (*b"+2", 2),
    (*b"02", 2),
    (*b"12", 2),
    (*b"01", 2),
];

// The gates of a text, into a room for records, and how many they are: refusals 1, 12, 6, 5.
pub fn read_names(lines: u8, text: &[u8], room: &mut [u8]) -> Result<usize, Refusal>
    ensures answer { number_as result ≡ read_names_answer lines text.now (length room.old) }
    ensures room_after { room.new ≡ read_names_room lines text.now room.old }
{
    card::check_lines(lines)?;
    let m = reading::count_lines(lines, text)?;
    if 8000 < m {
        return Err(Refusal::CascadeLength);
    }
    card::check_room(room.len() / 8, m)?;
    reading::write_records(text, room);
    Ok(m)
}

// The text of a cascade, into a room for bytes, and how many bytes it has: refusals 1, 6, 7, 5.
pub fn write_names(lines: u8, cascade: &[u8], room: &mut [u8]) -> Result<usize, Refusal>
    ensures answer { number_as result ≡ write_names_answer lines cascade.now (length room.old) }
    ensures room_after { room.new ≡ write_names_room lines cascade.now room.old }
{
    cascades::check_cascade(lines, cascade)?;
    card::check_room(room.len(), gate_texts::size_gate_texts(&NAMES, cascade))?;
    Ok(writing::write_lines(cascade, room))
}
