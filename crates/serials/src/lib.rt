// Tables over the serial lead: a reader that is fed a text in parts and then told that the text has ended. The reader is passed by value and returned, so that
// whoever holds it decides where it lies.
#![tactic(auto)]

ghost use Rattle.std.specs.Prelude.{◌≡◌, length};
ghost use Rattle.serials.specs.Serials.{reply, started, fed, ended, ended_table};

mod closing;
pub mod scanning;

// Where a reader is in its text, and the answer that stands. The fields are those of the struct that C callers hold: a flag and a number, no enum.
// over is 0 while the text goes on; then number and place are a refusal, or number is 0 and the count numbers were accepted as entries. last is the
// byte that came last, a space at the start; at is the offset of the next one; value is the number under way, 0 where there is none, and first the
// offset at which it begins, or the next one does; count is how many numbers were ended, up to 730.
#[repr(C)]
#[derive(Clone, Copy)]
pub struct Scan {
    pub lines: u8,
    pub last: u8,
    pub over: u8,
    pub number: u8,
    pub place: u16,
    pub at: u16,
    pub first: u16,
    pub value: u16,
    pub count: u16,
}

// A reader: that, and the first 729 numbers.
#[repr(C)]
#[derive(Clone, Copy)]
pub struct Serial {
    pub scan: Scan,
    pub entries: [u16; 729],
}

// A refusal that stands in a reader, by its number on the card: it lies in memory of the caller's, who may have put any number there.
#[derive(Clone, Copy, Debug, PartialEq, Eq)]
pub struct Stopped {
    pub number: u8,
    pub place: usize,
}

// The entries, none of them while the text goes on, or the refusal.
#[derive(Clone, Copy)]
pub struct Reply {
    pub reader: Serial,
    pub told: Result<usize, Stopped>,
}

// A reader for a table on so many lines: refusal 1.
pub fn start(lines: u8) -> Reply
    ensures { result ≡ reply (started lines) }
{
    let scan = scanning::open(lines);
    let told = scanning::tell(scan);
    let entries = [0u16; 729];
    let reader = Serial { scan, entries };
    Reply { reader, told }
}

// The reader fed a part: refusals 1 and 14, or what stands.
pub fn part(reader: Serial, bytes: &[u8]) -> Reply
    ensures { result ≡ reply (fed reader bytes.now) }
{
    let mut entries = reader.entries;
    let scan = scanning::read(reader.scan, bytes, &mut entries);
    let told = scanning::tell(scan);
    let reader = Serial { scan, entries };
    Reply { reader, told }
}

// The reader told that the text has ended, and its table where it is accepted: refusals 1, 14, 2, 3, 4 and 5, or what stands.
pub fn end(reader: Serial, table: &mut [u16]) -> Reply
    ensures answer { result ≡ reply (ended reader (length table.old)) }
    ensures table_after { table.new ≡ ended_table reader table.old }
{
    let entries = reader.entries;
    let scan = closing::close(reader.scan, &entries, table);
    let told = scanning::tell(scan);
    let reader = Serial { scan, entries };
    Reply { reader, told }
}
