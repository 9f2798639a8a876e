// Cascade files, edition 1: written, read, and where their gates stand.
#![tactic(auto)]

ghost use Rattle.std.specs.Prelude.{◌≡◌, length};
ghost use Rattle.card.specs.Answers.{number_as};
ghost use Rattle.files.specs.Files.{read_as, opening_as, write_answer, write_room, read_answer, read_records, read_note, opening_answer};

pub mod frame;
pub mod stores;

use card::Refusal;

// The trailer's bytes, and the edition in the last of them.
pub const TRAILER: usize = 8;

pub const EDITION: u8 = 1;

// What was read: the lines, the gates and the note's bytes.
#[derive(Clone, Copy, Debug, PartialEq, Eq)]
pub struct ReadBack {
    pub lines: u8,
    pub gates: usize,
    pub note: usize,
}

// What opening a file finds: the lines, the place of the first record, and where the records end.
#[derive(Clone, Copy, Debug, PartialEq, Eq)]
pub struct Extent {
    pub lines: u8,
    pub at: usize,
    pub end: usize,
}

// The file of a note and a cascade, into a room for bytes, and how many bytes it has: refusals 1, 6, 7, 9, 5.
pub fn write_file(lines: u8, cascade: &[u8], note: &[u8], room: &mut [u8]) -> Result<usize, Refusal>
    ensures answer { number_as result ≡ write_answer lines cascade.now note.now (length room.old) }
    ensures room_after { room.new ≡ write_room lines cascade.now note.now room.old }
{
    cascades::check_cascade(lines, cascade)?;
    if 1024 < note.len() {
        return Err(Refusal::Frame);
    }
    let size = note.len() + cascade.len() + TRAILER;
    card::check_room(room.len(), size)?;
    stores::write_parts(lines, cascade, note, room);
    Ok(size)
}

// What a file holds, into a room for records and one for the note: refusals 9, 1, 6, 7, 5, 5.
pub fn read_file(file: &[u8], records: &mut [u8], note: &mut [u8]) -> Result<ReadBack, Refusal>
    ensures answer { read_as result ≡ read_answer file.now (length records.old) (length note.old) }
    ensures records_after { records.new ≡ read_records file.now records.old note.old }
    ensures note_after { note.new ≡ read_note file.now records.old note.old }
{
    let Extent { lines, at, end } = opening(file)?;
    let gates = (end - at) / 8;
    card::check_room(records.len() / 8, gates)?;
    card::check_room(note.len(), at)?;
    stores::copy_bytes(&file[at..end], records, 0);
    stores::copy_bytes(&file[..at], note, 0);
    Ok(ReadBack {
        lines,
        gates,
        note: at,
    })
}

// Where the gates of a file stand: refusals 9, 1, 6, 7.
pub fn opening(file: &[u8]) -> Result<Extent, Refusal>
    ensures { opening_as result ≡ opening_answer file.now }
{
    frame::opening_of(file, TRAILER, EDITION)
}
