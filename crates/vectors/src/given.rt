// What a case gives to its call, and the memory that holds it.
ghost use Rattle.std.specs.Prelude.{◌*◌, ◌≤◌, length};

use crate::heads::{Call, StoredCase};
use crate::lines::Line;
use crate::rooms;
use std::io;
use std::io::Read;

// The table for a call that takes one, and else the bytes; and the second bytes.
#[derive(Drop)]
pub struct Given<'a, 'b> {
    pub table: &'a [u16],
    pub bytes: &'b mut [u8],
    pub more: &'a [u8],
}

// The record so many times, and behind it what the input has next; false where the input ends before the bytes are full.
fn lay_bytes<R: Read>(
    input: &mut R,
    record: [u8; 8],
    times: u32,
    bytes: &mut [u8],
) -> io::Result<bool>
    requires { 8 * times ≤ length bytes.old }
{
    let (repeated, stored) = bytes.split_at_mut(8 * times as usize);
    let (records, _) = repeated.as_chunks_mut();
    records.fill(record);
    Ok(streams::read_full(input, stored)? == stored.len())
}

// As many entries as the table has, off the start of the bytes.
fn lay_table(bytes: &[u8], table: &mut [u16]) {
    let (pairs, _) = bytes.as_chunks();
    for (entry, pair) in table.iter_mut().zip(pairs) {
        *entry = u16::from_le_bytes(*pair);
    }
}

// The length of the table: none but for a call that takes one, whose bytes are then two for each entry.
fn table_len(call: Call, in_bytes: usize) -> Option<usize> {
    match call {
        Call::CheckTable | Call::Synthesize if in_bytes % 2 == 0 => Some(in_bytes / 2),
        Call::CheckTable | Call::Synthesize => None,
        _ => Some(0),
    }
}

// Reads what the case gives, performs its call and returns its line; none where it has more than it may, or the input ends before it.
pub fn answer_case<R: Read>(input: &mut R, case: &StoredCase) -> io::Result<Option<Line>> {
    let in_bytes = 8 * case.times as usize + case.stored as usize;
    let in_more = 8 * case.more_times as usize + case.more_stored as usize;
    let Some(in_table) = table_len(case.call, in_bytes) else {
        return Ok(None);
    };
    let mut bytes = [0u8; 65536];
    let mut more = [0u8; 65536];
    let mut table = [0u16; 1024];
    let (Some(bytes), Some(more), Some(table)) = (
        bytes.get_mut(..in_bytes),
        more.get_mut(..in_more),
        table.get_mut(..in_table),
    ) else {
        return Ok(None);
    };
    if !lay_bytes(input, case.record, case.times, bytes)? {
        return Ok(None);
    }
    if !lay_bytes(input, case.record, case.more_times, more)? {
        return Ok(None);
    }
    lay_table(bytes, table);
    let mut given = Given { table, bytes, more };
    Ok(rooms::lend_rooms(case, &mut given))
}
