// The calls, each by the function of `exports` that its C function calls, and what is shown of them.
use crate::given::Given;
use crate::heads::{Call, StoredCase};
use crate::lines::Line;
use crate::rooms::Rooms;
use crate::serial;
use exports::Numbers;
use fingerprints::{Fnv, digest_of};

// What the call answers. All that serial told, which stands for its note, goes to the digest.
fn perform(case: &StoredCase, given: &mut Given, rooms: &mut Rooms, told: &mut Fnv) -> Numbers {
    let lines = case.lines;
    let table = given.table;
    let bytes = &mut *given.bytes;
    let more = given.more;
    let room = &mut *rooms.bytes;
    let entries = &mut *rooms.entries;
    match case.call {
        Call::CheckTable => exports::tiles_check_table(lines, table),
        Call::Synthesize => exports::tiles_synthesize(lines, table, room),
        Call::CheckCascade => exports::tiles_check_cascade(lines, bytes),
        Call::Run => exports::tiles_run(lines, bytes, case.pattern),
        Call::Tabulate => exports::tiles_tabulate(lines, bytes, entries),
        Call::Invert => exports::tiles_invert(lines, bytes, room),
        Call::Price => exports::tiles_price(lines, case.value, case.fitted, bytes),
        Call::Tidy => exports::tiles_tidy(lines, bytes),
        Call::Choose => exports::tiles_choose(lines, case.value, case.fitted, bytes, more),
        Call::WriteFile => exports::tiles_write_file(lines, bytes, more, room),
        Call::ReadFile => exports::tiles_read_file(bytes, room, rooms.note),
        Call::Opening => exports::tiles_opening(bytes),
        Call::Next => exports::tiles_next(bytes, lines, case.place, case.end),
        Call::Listing => exports::tiles_listing(lines, bytes, room),
        Call::Sheet => exports::tiles_sheet(bytes, room),
        Call::ReadNames => exports::tiles_read_names(lines, bytes, room),
        Call::WriteNames => exports::tiles_write_names(lines, bytes, room),
        Call::Serial => serial::perform(case, bytes, more, entries, told),
    }
}

// What cheaper hands back.
fn digest_cheaper(case: &StoredCase, first: &[u8], second: &[u8]) -> Fnv {
    digest_of(choice::cheaper(case.lines, case.value, case.fitted, first, second))
}

// The line of the call. In choose, which has no room, what cheaper hands back stands for it.
pub fn show_call(case: &StoredCase, given: &mut Given, rooms: &mut Rooms) -> Line {
    let more = given.more;
    let mut serial_told = Fnv::default();
    let told = perform(case, given, rooms, &mut serial_told);
    let of_given = match case.call {
        Call::CheckTable | Call::Synthesize => digest_of(given.table),
        _ => digest_of(given.bytes),
    };
    let of_room = match case.call {
        Call::Choose => digest_cheaper(case, given.bytes, more),
        Call::Tabulate | Call::Serial => digest_of(rooms.entries),
        _ => digest_of(rooms.bytes),
    };
    let of_note = match case.call {
        Call::Serial => serial_told,
        _ => digest_of(rooms.note),
    };
    Line {
        call: case.call,
        told,
        given: of_given,
        more: digest_of(more),
        room: of_room,
        note: of_note,
    }
}
