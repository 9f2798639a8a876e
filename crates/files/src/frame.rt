// The frame of a file with a trailer of a size, in an edition: the trailer's numbers, whether they are right, and the gates that it points back to.
ghost use Rattle.std.specs.Prelude.{◌≡◌, ◌∷◌, [], ◌+◌, ◌^◌, ◌≤◌, ◌<◌, length};
ghost use Rattle.card.specs.Card.{on_lines, Answer.accepted};
ghost use Rattle.cascades.specs.Answers.{on_cascade};
ghost use Rattle.files.specs.Files.{opening_as, number_at, frame_ok, opening_of};

use crate::Extent;
use card::Refusal;

// The number that the k bytes from a place on write down, low byte first.
pub fn number_at(k: usize, file: &[u8], at: usize) -> usize
    requires { (k ≤ 4) × (at + k ≤ length file.now) }
    ensures { (result ≡ number_at k file.now at) × (result < 256 ^ k) }
{
    let mut bytes = [0u8; 4];
    bytes[..k].copy_from_slice(&file[at..at + k]);
    u32::from_le_bytes(bytes) as usize
}

// The frame is right: refusal 9 otherwise.
pub fn frame_ok(file: &[u8], size: usize, edition: u8) -> bool
    requires { 8 ≤ size }
    ensures { result ≡ frame_ok size edition file.now }
{
    if file.len() < size {
        return false;
    }
    // the last eight bytes mean the same in every edition
    let tail = file.len() - 8;
    if file[tail + 7] != edition {
        return false;
    }
    let distance = number_at(4, file, tail);
    if distance != 8 * number_at(2, file, tail + 4) {
        return false;
    }
    let end = file.len() - size;
    if end < distance {
        return false;
    }
    end - distance <= 1024
}

// The records between two places of a file are gates: refusals 1, 6, 7.
pub fn gates_between(lines: u8, records: &[u8], at: usize, end: usize) -> Result<Extent, Refusal>
    ensures { opening_as result ≡ on_lines lines (on_cascade lines records.now (accepted (lines ∷ at ∷ end ∷ []))) }
{
    card::check_lines(lines)?;
    cascades::lengths::check_length(records.len())?;
    for i in 0..records.len() / 8 {
        let Ok(_) = gates::decode(lines, records, 8 * i) else {
            return Err(Refusal::NoGate(i));
        };
    }
    Ok(Extent { lines, at, end })
}

// Where the gates of a file stand: refusals 9, 1, 6, 7.
pub fn opening_of(file: &[u8], size: usize, edition: u8) -> Result<Extent, Refusal>
    requires { 8 ≤ size }
    ensures { opening_as result ≡ opening_of size edition file.now }
{
    if !frame_ok(file, size, edition) {
        return Err(Refusal::Frame);
    }
    let tail = file.len() - 8;
    let end = file.len() - size;
    let at = end - number_at(4, file, tail);
    gates_between(file[tail + 6], &file[at..end], at, end)
}
