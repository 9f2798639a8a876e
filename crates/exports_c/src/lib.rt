// Every call for programs in C and Rust: a call's answer goes out as five numbers. include/tiles.h is this file in C's words. C's linker wants a function
// for each name, so that these repeat those of `exports`, which Rattle's own programs call.
#![tactic(auto)]

ghost use Rattle.std.specs.Prelude.{◌≡◌, length};
ghost use Rattle.tables.specs.Tables.{check_table_answer};
ghost use Rattle.synthesis.specs.Synthesis.{synthesize_answer, synthesize_room};
ghost use Rattle.cascades.specs.Answers.{check_answer, run_answer, invert_answer, invert_room};
ghost use Rattle.pricing.specs.Prices.{price_answer};
ghost use Rattle.tabulating.specs.Tabulating.{tabulate_answer, tabulate_room};
ghost use Rattle.rules.specs.Tidying.{tidy_answer, tidy_buffer};
ghost use Rattle.choice.specs.Choice.{choose_answer};
ghost use Rattle.files.specs.Files.{write_answer, write_room, read_answer, read_records, read_note, opening_answer};
ghost use Rattle.readers.specs.Readers.{turn_at};
ghost use Rattle.listings.specs.Listings.{listing_answer, listing_room};
ghost use Rattle.sheets.specs.Sheets.{sheet_answer, sheet_room};
ghost use Rattle.names.specs.Names.{read_names_answer, read_names_room, write_names_answer, write_names_room};
ghost use Rattle.serials.specs.Serials.{started, fed, ended, ended_table};
ghost use Rattle.exports.specs.Numbers.{numbers, turn_as, said_by};

use exports::Numbers;
use serials::Serial;

#[unsafe(no_mangle)]
pub extern "C" fn tiles_check_table(lines: u8, table: &[u16]) -> Numbers
    ensures { result ≡ numbers (check_table_answer lines table.now) }
{
    exports::tiles_check_table(lines, table)
}

#[unsafe(no_mangle)]
pub extern "C" fn tiles_synthesize(lines: u8, table: &[u16], room: &mut [u8]) -> Numbers
    ensures answer { result ≡ numbers (synthesize_answer lines table.now (length room.old)) }
    ensures room_after { room.new ≡ synthesize_room lines table.now room.old }
{
    exports::tiles_synthesize(lines, table, room)
}

#[unsafe(no_mangle)]
pub extern "C" fn tiles_check_cascade(lines: u8, cascade: &[u8]) -> Numbers
    ensures { result ≡ numbers (check_answer lines cascade.now) }
{
    exports::tiles_check_cascade(lines, cascade)
}

#[unsafe(no_mangle)]
pub extern "C" fn tiles_run(lines: u8, cascade: &[u8], pattern: u16) -> Numbers
    ensures { result ≡ numbers (run_answer lines cascade.now pattern) }
{
    exports::tiles_run(lines, cascade, pattern)
}

#[unsafe(no_mangle)]
pub extern "C" fn tiles_tabulate(lines: u8, cascade: &[u8], room: &mut [u16]) -> Numbers
    ensures answer { result ≡ numbers (tabulate_answer lines cascade.now (length room.old)) }
    ensures room_after { room.new ≡ tabulate_room lines cascade.now room.old }
{
    exports::tiles_tabulate(lines, cascade, room)
}

#[unsafe(no_mangle)]
pub extern "C" fn tiles_invert(lines: u8, cascade: &[u8], room: &mut [u8]) -> Numbers
    ensures answer { result ≡ numbers (invert_answer lines cascade.now (length room.old)) }
    ensures room_after { room.new ≡ invert_room lines cascade.now room.old }
{
    exports::tiles_invert(lines, cascade, room)
}

#[unsafe(no_mangle)]
pub extern "C" fn tiles_price(lines: u8, value: u8, fitted: u8, cascade: &[u8]) -> Numbers
    ensures { result ≡ numbers (price_answer lines value fitted cascade.now) }
{
    exports::tiles_price(lines, value, fitted, cascade)
}

#[unsafe(no_mangle)]
pub extern "C" fn tiles_tidy(lines: u8, cascade: &mut [u8]) -> Numbers
    ensures answer { result ≡ numbers (tidy_answer lines cascade.old) }
    ensures cascade_after { cascade.new ≡ tidy_buffer lines cascade.old }
{
    exports::tiles_tidy(lines, cascade)
}

#[unsafe(no_mangle)]
pub extern "C" fn tiles_choose(
    lines: u8,
    value: u8,
    fitted: u8,
    first: &[u8],
    second: &[u8],
) -> Numbers
    ensures { result ≡ numbers (choose_answer lines value fitted first.now second.now) }
{
    exports::tiles_choose(lines, value, fitted, first, second)
}

#[unsafe(no_mangle)]
pub extern "C" fn tiles_write_file(
    lines: u8,
    cascade: &[u8],
    note: &[u8],
    room: &mut [u8],
) -> Numbers
    ensures answer { result ≡ numbers (write_answer lines cascade.now note.now (length room.old)) }
    ensures room_after { room.new ≡ write_room lines cascade.now note.now room.old }
{
    exports::tiles_write_file(lines, cascade, note, room)
}

#[unsafe(no_mangle)]
pub extern "C" fn tiles_read_file(file: &[u8], records: &mut [u8], note: &mut [u8]) -> Numbers
    ensures answer { result ≡ numbers (read_answer file.now (length records.old) (length note.old)) }
    ensures records_after { records.new ≡ read_records file.now records.old note.old }
    ensures note_after { note.new ≡ read_note file.now records.old note.old }
{
    exports::tiles_read_file(file, records, note)
}

#[unsafe(no_mangle)]
pub extern "C" fn tiles_opening(file: &[u8]) -> Numbers
    ensures { result ≡ numbers (opening_answer file.now) }
{
    exports::tiles_opening(file)
}

// The reader's turn with the reader's numbers in the caller's hands.
#[unsafe(no_mangle)]
pub extern "C" fn tiles_next(file: &[u8], lines: u8, place: usize, end: usize) -> Numbers
    ensures { result ≡ numbers (turn_as (turn_at file.now lines place end)) }
{
    exports::tiles_next(file, lines, place, end)
}

#[unsafe(no_mangle)]
pub extern "C" fn tiles_listing(lines: u8, cascade: &[u8], room: &mut [u8]) -> Numbers
    ensures answer { result ≡ numbers (listing_answer lines cascade.now (length room.old)) }
    ensures room_after { room.new ≡ listing_room lines cascade.now room.old }
{
    exports::tiles_listing(lines, cascade, room)
}

#[unsafe(no_mangle)]
pub extern "C" fn tiles_sheet(file: &[u8], room: &mut [u8]) -> Numbers
    ensures answer { result ≡ numbers (sheet_answer file.now (length room.old)) }
    ensures room_after { room.new ≡ sheet_room file.now room.old }
{
    exports::tiles_sheet(file, room)
}

#[unsafe(no_mangle)]
pub extern "C" fn tiles_read_names(lines: u8, text: &[u8], room: &mut [u8]) -> Numbers
    ensures answer { result ≡ numbers (read_names_answer lines text.now (length room.old)) }
    ensures room_after { room.new ≡ read_names_room lines text.now room.old }
{
    exports::tiles_read_names(lines, text, room)
}

#[unsafe(no_mangle)]
pub extern "C" fn tiles_write_names(lines: u8, cascade: &[u8], room: &mut [u8]) -> Numbers
    ensures answer { result ≡ numbers (write_names_answer lines cascade.now (length room.old)) }
    ensures room_after { room.new ≡ write_names_room lines cascade.now room.old }
{
    exports::tiles_write_names(lines, cascade, room)
}

// The reader of the serial lead is lent, and changed where it lies.
#[unsafe(no_mangle)]
pub extern "C" fn tiles_serial_start(reader: &mut Serial, lines: u8) -> Numbers
    ensures reader_after { reader.new ≡ started lines }
    ensures answer { result ≡ said_by (started lines) }
{
    exports::tiles_serial_start(reader, lines)
}

#[unsafe(no_mangle)]
pub extern "C" fn tiles_serial_part(reader: &mut Serial, part: &[u8]) -> Numbers
    ensures reader_after { reader.new ≡ fed reader.old part.now }
    ensures answer { result ≡ said_by (fed reader.old part.now) }
{
    exports::tiles_serial_part(reader, part)
}

#[unsafe(no_mangle)]
pub extern "C" fn tiles_serial_end(reader: &mut Serial, table: &mut [u16]) -> Numbers
    ensures reader_after { reader.new ≡ ended reader.old (length table.old) }
    ensures answer { result ≡ said_by (ended reader.old (length table.old)) }
    ensures table_after { table.new ≡ ended_table reader.old table.old }
{
    exports::tiles_serial_end(reader, table)
}
