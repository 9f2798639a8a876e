// The program's text for a table file.
#![tactic(auto)]

ghost use Rattle.std.specs.Prelude.{◌≡◌, ◌/◌, ◌^◌, ◌≤◌, length, take};
ghost use Rattle.synthesis.specs.Synthesis.{bound};
ghost use Rattle.card.specs.Answers.{number_as};
ghost use Rattle.sheets.specs.Sheets.{entries_of, sheet_text, sheet_answer, sheet_room};
ghost use Rattle.sheets.specs.Inner.TableFiles.{TableFile};

mod refusals;
mod table_file;

use card::Refusal;

// The listing of the table's cascade, or the line of its refusal. The cascade's room has as many records as any table of so many lines needs.
fn list_table(
    lines: u8,
    file: &[u8],
    table: &[u16],
    cascade: &mut [u8],
    room: &mut [u8],
) -> Result<usize, Refusal>
    requires { TableFile file.now lines × (table.now ≡ entries_of file.now) × (bound lines ≤ length cascade.old / 8) }
    ensures answer { number_as result ≡ sheet_answer file.now (length room.old) }
    ensures room_after { room.new ≡ sheet_room file.now room.old }
{
    match synthesis::synthesize(lines, table, cascade) {
        Ok(m) => listings::listing(lines, &cascade[..8 * m], room),
        Err(refusal) => refusals::list_refusal(file, refusal, room),
    }
}

// The same, for the file's entries, read into a lent table.
fn list_entries(
    lines: u8,
    file: &[u8],
    table: &mut [u16],
    cascade: &mut [u8],
    room: &mut [u8],
) -> Result<usize, Refusal>
    requires { TableFile file.now lines × (length table.old ≡ 3 ^ lines) × (length cascade.old ≡ 32080) }
    ensures answer { number_as result ≡ sheet_answer file.now (length room.old) }
    ensures room_after { room.new ≡ sheet_room file.now room.old }
{
    table_file::read_entries(file, table);
    list_table(lines, file, table, cascade, room)
}

// The same, with a table and a cascade's room of its own: 729 entries and 4,010 records are enough for six lines.
fn list_file(lines: u8, file: &[u8], size: usize, room: &mut [u8]) -> Result<usize, Refusal>
    requires { TableFile file.now lines × (size ≡ 3 ^ lines) }
    ensures answer { number_as result ≡ sheet_answer file.now (length room.old) }
    ensures room_after { room.new ≡ sheet_room file.now room.old }
{
    let mut table = [0u16; 729];
    let mut cascade = [0u8; 32080];
    list_entries(lines, file, &mut table[..size], &mut cascade, room)
}

// The text for a table file's bytes, into a room for bytes: the listing, or the line of refusal 1, 2, 3 or 4. Its own refusal is 5.
pub fn sheet(file: &[u8], room: &mut [u8]) -> Result<usize, Refusal>
    ensures answer { number_as result ≡ sheet_answer file.now (length room.old) }
    ensures room_after { room.new ≡ sheet_room file.now room.old }
{
    let lines = table_file::lines_of(file);
    if !card::lines_ok(lines) {
        return refusals::list_refusal(file, Refusal::Lines, room);
    }
    let size = digits::power(lines as usize) as usize;
    if file.len() != 1 + 2 * size {
        return refusals::list_refusal(file, Refusal::TableLength, room);
    }
    list_file(lines, file, size, room)
}

// What the program prints: the text of any bytes, at the start of a room that takes the text of any; answers how many bytes it has.
pub fn write_sheet(file: &[u8], room: &mut [u8; 131072]) -> usize
    ensures room_after { take result room.new ≡ sheet_text file.now }
    ensures within { (result ≤ length room.new) × (result ≡ length (take result room.new)) }
{
    // no text is longer than the room
    sheet(file, room).unwrap()
}
