// Bytes stored one after the other: a part copied, a trailer, and so a whole file.
ghost use Rattle.std.specs.Prelude.{◌≡◌, ◌+◌, ◌≤◌, length};
ghost use Rattle.std.proofs.lemmas.List.Edits.{sets};
ghost use Rattle.files.specs.Files.{trailer, file_of, file_size};

// The bytes, from a place on. One by one: of this the compiler makes the memcpy that C callers link already, of `copy_from_slice` a memmove.
pub fn copy_bytes(bytes: &[u8], room: &mut [u8], at: usize)
    requires { at + length bytes.now ≤ length room.old }
    ensures { room.new ≡ sets room.old at bytes.now }
{
    for (k, b) in bytes.iter().enumerate() {
        room[at + k] = *b;
    }
}

// The last eight bytes of a file with m records.
pub fn write_trailer(lines: u8, m: usize, edition: u8, room: &mut [u8], at: usize)
    requires { (m ≤ 8000) × (at + 8 ≤ length room.old) }
    ensures { room.new ≡ sets room.old at (trailer edition lines m) }
{
    let distance = 8 * m as u32;
    let count = m as u16;
    copy_bytes(&distance.to_le_bytes(), room, at);
    copy_bytes(&count.to_le_bytes(), room, at + 4);
    room[at + 6] = lines;
    room[at + 7] = edition;
}

// The file of a note and a cascade that was checked, from the start of a room on.
#[tactic(auto, unfolding(crate::specs::Files::file_size))]
pub fn write_parts(lines: u8, cascade: &[u8], note: &[u8], room: &mut [u8])
    requires { (length cascade.now ≤ 64000) × (file_size 8 note.now cascade.now ≤ length room.old) }
    ensures { room.new ≡ sets room.old 0 (file_of lines note.now cascade.now) }
{
    copy_bytes(note, room, 0);
    copy_bytes(cascade, room, note.len());
    let end = note.len() + cascade.len();
    write_trailer(lines, cascade.len() / 8, crate::EDITION, room, end);
}
