// The rooms that a call writes to, each byte of them as the case says.
use crate::calls;
use crate::given::Given;
use crate::heads::{Call, StoredCase};
use crate::lines::Line;

// The room is one for entries in tabulate and serial, and else one for bytes.
#[derive(Drop)]
pub struct Rooms<'a> {
    pub bytes: &'a mut [u8],
    pub entries: &'a mut [u16],
    pub note: &'a mut [u8],
}

// Performs the case's call in the lent rooms, and a room for the note, and returns its line.
fn lend_all(
    case: &StoredCase,
    given: &mut Given,
    bytes: &mut [u8],
    entries: &mut [u16],
) -> Option<Line> {
    let mut note = [case.fill; 2048];
    let mut rooms = Rooms {
        bytes,
        entries,
        note: note.get_mut(..case.note_room as usize)?,
    };
    Some(calls::show_call(case, given, &mut rooms))
}

fn lend_bytes(case: &StoredCase, given: &mut Given) -> Option<Line> {
    let mut bytes = [case.fill; 262144];
    lend_all(case, given, bytes.get_mut(..case.room as usize)?, &mut [])
}

fn lend_entries(case: &StoredCase, given: &mut Given) -> Option<Line> {
    let mut entries = [case.fill_entry(); 1024];
    lend_all(case, given, &mut [], entries.get_mut(..case.room as usize)?)
}

// Performs the case's call and returns its line; none where the case has more room than it may. Only the room that the call takes is filled: that for bytes
// is long.
pub fn lend_rooms(case: &StoredCase, given: &mut Given) -> Option<Line> {
    match case.call {
        Call::Tabulate | Call::Serial => lend_entries(case, given),
        _ => lend_bytes(case, given),
    }
}
