// Every call with its answer as five numbers: what programs in C and Rust get, by the functions of these names in `exports_c`.
#![tactic(auto)]

ghost use Rattle.std.specs.Prelude.{◌≡◌, length};
ghost use Rattle.tables.specs.Tables.{check_table_answer};
ghost use Rattle.synthesis.specs.Synthesis.{synthesize_answer, synthesize_room};
ghost use Rattle.cascades.specs.Answers.{check_answer, run_answer, invert_answer, invert_room};
ghost use Rattle.pricing.specs.Prices.{price_answer};
ghost use Rattle.tabulating.specs.Tabulating.{tabulate_answer, tabulate_room};
ghost use Rattle.rules.specs.Tidying.{tidy_answer, tidy_buffer};
ghost use Rattle.choice.specs.Choice.{choose_answer};
ghost use Rattle.files.specs.Files.{write_answer, write_room, read_answer, read_records, read_note, opening_answer};
ghost use Rattle.readers.specs.Readers.{turn_at};
ghost use Rattle.listings.specs.Listings.{listing_answer, listing_room};
ghost use Rattle.sheets.specs.Sheets.{sheet_answer, sheet_room};
ghost use Rattle.names.specs.Names.{read_names_answer, read_names_room, write_names_answer, write_names_room};
ghost use Rattle.serials.specs.Serials.{started, fed, ended, ended_table};
ghost use Rattle.exports.specs.Numbers.{numbers, turn_as, said_by};

use readers::Turn;
use serials::{Serial, scanning};

pub mod answers;

// struct tiles_answer
#[repr(C)]
#[derive(Clone, Copy, Debug, PartialEq, Eq)]
pub struct Numbers {
    pub number: u64,
    pub place: u64,
    pub first: u64,
    pub second: u64,
    pub third: u64,
}

pub fn tiles_check_table(lines: u8, table: &[u16]) -> Numbers
    ensures { result ≡ numbers (check_table_answer lines table.now) }
{
    answers::answered(tables::check_table(lines, table))
}

pub fn tiles_synthesize(lines: u8, table: &[u16], room: &mut [u8]) -> Numbers
    ensures answer { result ≡ numbers (synthesize_answer lines table.now (length room.old)) }
    ensures room_after { room.new ≡ synthesize_room lines table.now room.old }
{
    answers::answered(synthesis::synthesize(lines, table, room))
}

pub fn tiles_check_cascade(lines: u8, cascade: &[u8]) -> Numbers
    ensures { result ≡ numbers (check_answer lines cascade.now) }
{
    answers::answered(cascades::check_cascade(lines, cascade))
}

pub fn tiles_run(lines: u8, cascade: &[u8], pattern: u16) -> Numbers
    ensures { result ≡ numbers (run_answer lines cascade.now pattern) }
{
    answers::answered(cascades::run(lines, cascade, pattern))
}

pub fn tiles_tabulate(lines: u8, cascade: &[u8], room: &mut [u16]) -> Numbers
    ensures answer { result ≡ numbers (tabulate_answer lines cascade.now (length room.old)) }
    ensures room_after { room.new ≡ tabulate_room lines cascade.now room.old }
{
    answers::answered(tabulating::tabulate(lines, cascade, room))
}

pub fn tiles_invert(lines: u8, cascade: &[u8], room: &mut [u8]) -> Numbers
    ensures answer { result ≡ numbers (invert_answer lines cascade.now (length room.old)) }
    ensures room_after { room.new ≡ invert_room lines cascade.now room.old }
{
    answers::answered(cascades::invert(lines, cascade, room))
}

pub fn tiles_price(lines: u8, value: u8, fitted: u8, cascade: &[u8]) -> Numbers
    ensures { result ≡ numbers (price_answer lines value fitted cascade.now) }
{
    answers::answered(pricing::price(lines, value, fitted, cascade))
}

pub fn tiles_tidy(lines: u8, cascade: &mut [u8]) -> Numbers
    ensures answer { result ≡ numbers (tidy_answer lines cascade.old) }
    ensures cascade_after { cascade.new ≡ tidy_buffer lines cascade.old }
{
    answers::answered(tidying::tidy(lines, cascade))
}

pub fn tiles_choose(lines: u8, value: u8, fitted: u8, first: &[u8], second: &[u8]) -> Numbers
    ensures { result ≡ numbers (choose_answer lines value fitted first.now second.now) }
{
    answers::answered(choice::choose(lines, value, fitted, first, second))
}

pub fn tiles_write_file(lines: u8, cascade: &[u8], note: &[u8], room: &mut [u8]) -> Numbers
    ensures answer { result ≡ numbers (write_answer lines cascade.now note.now (length room.old)) }
    ensures room_after { room.new ≡ write_room lines cascade.now note.now room.old }
{
    answers::answered(files::write_file(lines, cascade, note, room))
}

pub fn tiles_read_file(file: &[u8], records: &mut [u8], note: &mut [u8]) -> Numbers
    ensures answer { result ≡ numbers (read_answer file.now (length records.old) (length note.old)) }
    ensures records_after { records.new ≡ read_records file.now records.old note.old }
    ensures note_after { note.new ≡ read_note file.now records.old note.old }
{
    answers::answered(files::read_file(file, records, note))
}

pub fn tiles_opening(file: &[u8]) -> Numbers
    ensures { result ≡ numbers (opening_answer file.now) }
{
    answers::answered(files::opening(file))
}

// The reader's turn with the reader's numbers in the caller's hands.
pub fn tiles_next(file: &[u8], lines: u8, place: usize, end: usize) -> Numbers
    ensures { result ≡ numbers (turn_as (turn_at file.now lines place end)) }
{
    let Turn { given, at } = readers::turn_at(file, lines, place, end);
    answers::handed(given, at)
}

pub fn tiles_listing(lines: u8, cascade: &[u8], room: &mut [u8]) -> Numbers
    ensures answer { result ≡ numbers (listing_answer lines cascade.now (length room.old)) }
    ensures room_after { room.new ≡ listing_room lines cascade.now room.old }
{
    answers::answered(listings::listing(lines, cascade, room))
}

pub fn tiles_sheet(file: &[u8], room: &mut [u8]) -> Numbers
    ensures answer { result ≡ numbers (sheet_answer file.now (length room.old)) }
    ensures room_after { room.new ≡ sheet_room file.now room.old }
{
    answers::answered(sheets::sheet(file, room))
}

pub fn tiles_read_names(lines: u8, text: &[u8], room: &mut [u8]) -> Numbers
    ensures answer { result ≡ numbers (read_names_answer lines text.now (length room.old)) }
    ensures room_after { room.new ≡ read_names_room lines text.now room.old }
{
    answers::answered(names::read_names(lines, text, room))
}

pub fn tiles_write_names(lines: u8, cascade: &[u8], room: &mut [u8]) -> Numbers
    ensures answer { result ≡ numbers (write_names_answer lines cascade.now (length room.old)) }
    ensures room_after { room.new ≡ write_names_room lines cascade.now room.old }
{
    answers::answered(names::write_names(lines, cascade, room))
}

// The reader of the serial lead is lent, and changed where it lies.
pub fn tiles_serial_start(reader: &mut Serial, lines: u8) -> Numbers
    ensures reader_after { reader.new ≡ started lines }
    ensures answer { result ≡ said_by (started lines) }
{
    let reply = serials::start(lines);
    *reader = reply.reader;
    answers::standing(reply.reader.scan)
}

pub fn tiles_serial_part(reader: &mut Serial, part: &[u8]) -> Numbers
    ensures reader_after { reader.new ≡ fed reader.old part.now }
    ensures answer { result ≡ said_by (fed reader.old part.now) }
{
    let scan = scanning::read(reader.scan, part, &mut reader.entries);
    reader.scan = scan;
    answers::standing(scan)
}

pub fn tiles_serial_end(reader: &mut Serial, table: &mut [u16]) -> Numbers
    ensures reader_after { reader.new ≡ ended reader.old (length table.old) }
    ensures answer { result ≡ said_by (ended reader.old (length table.old)) }
    ensures table_after { table.new ≡ ended_table reader.old table.old }
{
    let reply = serials::end(*reader, table);
    *reader = reply.reader;
    answers::standing(reply.reader.scan)
}
