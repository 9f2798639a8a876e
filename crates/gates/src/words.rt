// A record as one number of 64 bits, its first byte lowest: all bytes are looked at at once. It stays a plain number: that it is a gate is known of
// whole buffers, so that a struct with the fact would have to prove it at each read.
ghost use Rattle.std.specs.Prelude.{◌≡◌, true, ℕ, ◌+◌, ◌*◌, ◌/◌, ◌%◌, ◌≤◌, ◌<◌, ◌^◌, length, get_or};
ghost use Rattle.std.proofs.lemmas.List.Edits.{sets};
ghost use Rattle.digits.specs.Digits.{pack};
ghost use Rattle.card.specs.Card.{lines_ok};
ghost use Rattle.gates.specs.Gates.{inverse_op};
ghost use Rattle.gates.specs.Records.{record_of};
ghost use Rattle.gates.specs.Inner.Words.{byte, Word, bytes_in, bare, is_word, gate_of, LowControls, control_marks, other_marks};

use super::Gate;

// The record at a place.
pub fn word_at(bytes: &[u8], at: usize) -> u64
    requires { at + 8 ≤ length bytes.now }
    ensures { Word bytes.now at result }
{
    let b = &bytes[at..at + 8];
    u64::from_le_bytes([b[0], b[1], b[2], b[3], b[4], b[5], b[6], b[7]])
}

// The word's 8 bytes, stored at a place. Byte by byte, which becomes one store: a copied slice would first be looked at for an overlap with the room.
pub fn store(w: u64, out: &mut [u8], at: usize)
    requires { at + 8 ≤ length out.old }
    ensures { out.new ≡ sets out.old at (bytes_in w) }
{
    for (k, b) in w.to_le_bytes().iter().enumerate() {
        out[at + k] = *b;
    }
}

// The weight of byte k.
pub fn weight(k: u64) -> u64
    requires { k ≤ 6 }
    ensures { result ≡ 256 ^ k }
{
    1 << (8 * k)
}

// 3 in the byte of each line that can have no control.
fn bare_bytes(n: u64, t: u64) -> u64
    requires { (n ≤ 6) × (t < n) }
    ensures { result ≡ bare n t }
{
    let lines = weight(n);
    0x1_0000 * (0x0303_0303_0303 / lines * lines + 3 * weight(t))
}

// The word is a gate on so many lines. Byte 0 is the operator, byte 1 the target, byte 2 + k the control of line k: no control has a bit of 0xfc, and where
// none may stand both bits of 3 are set.
pub fn is_gate(lines: u8, w: u64) -> bool
    requires { lines_ok lines ≡ true }
    ensures { result ≡ is_word lines w }
{
    let n = u64::from(lines);
    let operator = w % 256;
    let target = w / 256 % 256;
    if operator < 1 {
        return false;
    }
    if 5 < operator {
        return false;
    }
    if n <= target {
        return false;
    }
    let bare = bare_bytes(n, target);
    w & (0xfcfc_fcfc_fcfc_0000 + bare) == bare
}

// The control bytes, packed in base 4: 0x1041 is 0x1000 and 0x40 and 1, so that the product has three bytes side by side from bit 12 on.
fn packed_controls(w: u64) -> u64
    requires { LowControls w }
    ensures { (result ≡ pack 4 (λ k. byte (2 + k) w) 6) × (result < 0x1000) }
{
    let low = w / 0x1_0000 % 0x100_0000;
    let high = w / 0x100_0000_0000;
    0x1041 * low / 0x1000 % 64 + 64 * (0x1041 * high / 0x1000 % 64)
}

// The gate that the word writes down.
pub fn gate_of(w: u64) -> Gate
    requires { LowControls w }
    ensures { result ≡ gate_of w }
{
    Gate {
        operator: (w % 256) as u8,
        target: (w / 256 % 256) as u8,
        controls: packed_controls(w) as u16,
    }
}

// 1 for each line whose control byte is another than its byte of d: of each two bits that differ, one is set.
pub fn mark_others(w: u64, d: u64) -> u64
    requires { LowControls w × ((k : ℕ) → k < 6 → byte k d < 4) }
    ensures { result ≡ other_marks w d }
{
    let x = d ^ w / 0x1_0000;
    (x | x / 2) & 0x0101_0101_0101
}

// 1 for each line that has a control.
pub fn mark_controls(w: u64) -> u64
    requires { LowControls w }
    ensures { result ≡ control_marks w }
{
    mark_others(w, 0x0303_0303_0303)
}

// Three packed controls, a byte each: 0x1041 is 0x1000 and 0x40 and 1, so that in the product each stands where its byte begins.
fn three_bytes(x: u64) -> u64
    requires { x < 64 }
    ensures { (result ≡ x % 4 + 256 * (x / 4 % 4) + 0x1_0000 * (x / 16 % 4)) × (result ≤ 0x03_0303) }
{
    x * 0x1041 & 0x03_0303
}

// The word of a gate: its controls, packed in base 4, are spread over bytes.
pub fn word_of(g: Gate) -> u64
    ensures { bytes_in result ≡ record_of g }
{
    let c = u64::from(g.controls);
    let low = three_bytes(c % 64);
    let high = three_bytes(c / 64 % 64);
    u64::from(g.operator) + 256 * (u64::from(g.target) + 256 * (low + 0x100_0000 * high))
}

// The word with another operator byte: that of the operator's inverse. C1 and C2 are 1 and 2, and 3 turns each into the other; of the five operators they
// alone leave the bit of value 4 set when 5 is added. No branch is taken, so that the compiler takes several records at once.
pub fn invert_word(w: u64) -> u64
    requires { (1 ≤ byte 0 w) × (byte 0 w ≤ 5) }
    ensures { result ≡ inverse_op (byte 0 w) + 256 * (w / 256) }
{
    let turns = (w % 8 + 5) / 4 % 2;
    w ^ (3 * turns)
}
