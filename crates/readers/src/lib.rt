// A reader over a cascade file, which hands out gate after gate.
#![tactic(auto)]

ghost use Rattle.std.specs.Prelude.{◌≡◌};
ghost use Rattle.readers.specs.Readers.{given_as, turn_at, turn_of, moved_to, Opened};

mod standing;

use card::Refusal;
use files::Extent;
use gates::Gate;

// What a reader hands out: a gate, or none at the end.
pub type Given = Result<Option<Gate>, Refusal>;

// What a reader hands out, and its place afterwards.
#[derive(Clone, Copy)]
pub struct Turn {
    pub given: Given,
    pub at: usize,
}

// A reader: the file that it keeps hold of, the offset where the records end, its place, and the lines.
#[derive(Clone, Copy)]
pub struct Reader<'a> {
    pub file: &'a [u8],
    pub end: usize,
    pub at: usize,
    pub lines: u8,
}

// The next gate of a reader at a place whose records end at an offset, and its place afterwards. Any numbers will do: none wraps around.
pub fn turn_at(file: &[u8], lines: u8, at: usize, end: usize) -> Turn
    ensures { result ≡ turn_at file.now lines at end }
{
    if !card::lines_ok(lines) {
        let given = Err(Refusal::Lines);
        return Turn { given, at };
    }
    if !standing::record_stands(file, at, end) {
        let given = Ok(None);
        return Turn { given, at };
    }
    match gates::decode(lines, file, at) {
        Ok(gate) => Turn {
            given: Ok(Some(gate)),
            at: at + 8,
        },
        Err(_) => Turn {
            given: Err(Refusal::NoGate(at)),
            at,
        },
    }
}

// A reader over a file, at its first record; where opening refuses, one of no lines over the empty part at the file's start.
pub fn open<'a>(file: &'a [u8]) -> Reader<'a>
    ensures { Opened file.entry result }
{
    match files::opening(file) {
        Ok(Extent { lines, at, end }) => Reader {
            file,
            end,
            at,
            lines,
        },
        Err(_) => Reader {
            file: &file[..0],
            end: 0,
            at: 0,
            lines: 0,
        },
    }
}

// What the reader hands out next. It moves behind a gate that it hands out, and else stays as it was.
pub fn next<'s, 'a>(r: &'s mut Reader<'a>) -> Given
    ensures { (r.new ≡ moved_to r.old (turn_of r.old).at) × (given_as result ≡ given_as (turn_of r.old).given) }
{
    let t = turn_at(r.file, r.lines, r.at, r.end);
    r.at = t.at;
    t.given
}
