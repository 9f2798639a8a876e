// The one gate whose line a line can be, read off fixed places. Nothing is checked here: whatever else stands in a line, it is then not this gate's text.
// The digits 0 to 7 are the bytes 0x30 to 0x37, so that a digit is what is left of its byte modulo 8, and one below 4 modulo 4.
ghost use Rattle.std.specs.Prelude.{◌≡◌, cond, Some, None, ◌+◌, ◌%◌, ◌<◌, ◌≤◌, get_or};
ghost use Rattle.names.specs.Inner.Guesses.{operator_in, stands, guessed};

use gates::Gate;

// Byte i of a line, or 0 beyond its end.
fn byte_at(line: &[u8], i: usize) -> u8
    ensures { result ≡ get_or line.now i 0 }
{
    line.get(i).copied().unwrap_or(0)
}

// By the two letters of its name: +1 and +2, 12, 02, or else 01.
fn operator_in(line: &[u8]) -> u8
    ensures { result ≡ operator_in line.now }
{
    match (byte_at(line, 0), byte_at(line, 1)) {
        (b'+', second) => second % 4,
        (b'1', _) => 4,
        (_, b'2') => 3,
        _ => 5,
    }
}

// The control on line k, where what is left of the line begins at place e: it stands there by its digit.
fn control_at(line: &[u8], e: usize, k: u8) -> Option<u8>
    requires { (e ≤ 100) × (k < 6) }
    ensures { result ≡ cond (stands line.now e k) (Some (get_or line.now (e + 4) 0 % 4)) None }
{
    if byte_at(line, e + 2) != b'0' + k {
        return None;
    }
    Some(byte_at(line, e + 4) % 4)
}

// The operator, the target, and the controls in rising line order, packed in base 4.
pub fn guess_gate(line: &[u8]) -> Gate
    ensures { result ≡ guessed line.now }
{
    let mut e = 5;
    let mut weight = 1;
    let mut controls = 0;
    for k in 0..6 {
        let value = match control_at(line, e, k) {
            Some(control) => {
                e += 5;
                control
            }
            None => 3,
        };
        controls += u16::from(value) * weight;
        weight *= 4;
    }
    Gate {
        operator: operator_in(line),
        target: byte_at(line, 4) % 8,
        controls,
    }
}
