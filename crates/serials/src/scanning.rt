// A reader's numbers, byte by byte.
ghost use Rattle.std.specs.Prelude.{◌≡◌};
ghost use Rattle.serials.specs.SerialTexts.{is_mark, follows};
ghost use Rattle.serials.specs.Serials.{serial, told_of, stopped, comes_next, stepped, kept, opened, fed};

use crate::{Scan, Stopped};

#[tactic(auto, unfolding(crate::specs::Serials::opened))]
pub fn open(lines: u8) -> Scan
    ensures { result ≡ opened lines }
{
    let bad = u8::from(!card::lines_ok(lines));
    Scan {
        lines,
        last: b' ',
        over: bad,
        number: bad,
        place: 0,
        at: 0,
        first: 0,
        value: 0,
        count: 0,
    }
}

// The answer that stands.
pub fn tell(s: Scan) -> Result<usize, Stopped>
    ensures { result ≡ told_of s }
{
    if s.over == 0 {
        return Ok(0);
    }
    if s.number == 0 {
        return Ok(s.count as usize);
    }
    Err(Stopped {
        number: s.number,
        place: s.place as usize,
    })
}

// A refusal stands from now on, or acceptance, of number 0.
#[tactic(auto, unfolding(crate::specs::Serials::stopped))]
pub fn stop(s: Scan, number: u8, place: u16) -> Scan
    ensures { result ≡ stopped s number place }
{
    Scan {
        over: 1,
        number,
        place,
        ..s
    }
}

#[tactic(auto, unfolding(crate::specs::SerialTexts::is_mark))]
fn is_mark(b: u8) -> bool
    ensures { result ≡ is_mark b }
{
    matches!(b, b' ' | b'\n')
}

// Whether byte b can come after the byte `last`, which ends the digits of `value`.
#[tactic(auto, unfolding(crate::specs::SerialTexts::is_digit, crate::specs::SerialTexts::follows))]
fn can_follow(last: u8, value: u16, b: u8) -> bool
    ensures { result ≡ follows last value b }
{
    if !last.is_ascii_digit() {
        return b.is_ascii_digit();
    }
    is_mark(b) || (b.is_ascii_digit() && value != 0)
}

#[tactic(auto, unfolding(crate::specs::Serials::comes_next))]
fn comes_next(s: Scan, b: u8) -> bool
    ensures { result ≡ comes_next s b }
{
    s.at < 65535 && can_follow(s.last, s.value, b)
}

// All the numbers change in this one function: a smaller one would leave some alone, which the compiler then copies as one word and takes apart for each byte.
fn step(s: Scan, b: u8) -> Scan
    ensures { result ≡ stepped s b }
{
    if s.over != 0 {
        return s;
    }
    if !comes_next(s, b) {
        return Scan {
            over: 1,
            number: 14,
            place: s.at,
            ..s
        };
    }
    let at = s.at + 1;
    if is_mark(b) {
        let count = if s.count < 730 { s.count + 1 } else { s.count };
        return Scan {
            last: b,
            at,
            first: at,
            value: 0,
            count,
            ..s
        };
    }
    let Ok(value) = u16::try_from(10 * u32::from(s.value) + u32::from(b - b'0')) else {
        return Scan {
            over: 1,
            number: 14,
            place: s.first,
            ..s
        };
    };
    Scan {
        last: b,
        at,
        value,
        ..s
    }
}

// A number that was counted goes to its place among the entries, if it has one.
#[tactic(auto, unfolding(crate::specs::Serials::kept))]
fn keep(s: Scan, next: Scan, entries: &mut [u16])
    ensures { entries.new ≡ kept s next entries.old }
{
    let k = s.count as usize;
    if s.count < next.count && k < entries.len() {
        entries[k] = s.value;
    }
}

pub fn read(before: Scan, bytes: &[u8], entries: &mut [u16]) -> Scan
    ensures value { result ≡ (fed (serial before entries.old) bytes.now).scan }
    ensures entries_after { entries.new ≡ (fed (serial before entries.old) bytes.now).entries }
{
    let mut s = before;
    for &b in bytes {
        let next = step(s, b);
        keep(s, next, entries);
        s = next;
    }
    s
}
