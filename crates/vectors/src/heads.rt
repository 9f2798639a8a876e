// The head of a case: 18 words, the last two of which are the record.

// The calls, by their numbers in docs/VECTORS.md.
#[derive(Clone, Copy, PartialEq)]
pub enum Call {
    CheckTable = 1,
    Synthesize,
    CheckCascade,
    Run,
    Tabulate,
    Invert,
    Price,
    Tidy,
    Choose,
    WriteFile,
    ReadFile,
    Opening,
    Next,
    Listing,
    Sheet,
    ReadNames,
    WriteNames,
    Serial,
}

// A number that no call has.
#[derive(Clone, Copy)]
pub struct UnknownCall;

impl TryFrom<u32> for Call {
    type Error = UnknownCall;

    fn try_from(number: u32) -> Result<Call, UnknownCall> {
        match number {
            1 => Ok(Call::CheckTable),
            2 => Ok(Call::Synthesize),
            3 => Ok(Call::CheckCascade),
            4 => Ok(Call::Run),
            5 => Ok(Call::Tabulate),
            6 => Ok(Call::Invert),
            7 => Ok(Call::Price),
            8 => Ok(Call::Tidy),
            9 => Ok(Call::Choose),
            10 => Ok(Call::WriteFile),
            11 => Ok(Call::ReadFile),
            12 => Ok(Call::Opening),
            13 => Ok(Call::Next),
            14 => Ok(Call::Listing),
            15 => Ok(Call::Sheet),
            16 => Ok(Call::ReadNames),
            17 => Ok(Call::WriteNames),
            18 => Ok(Call::Serial),
            _ => Err(UnknownCall),
        }
    }
}

// The words' names are those of docs/VECTORS.md.
#[derive(Clone, Copy)]
pub struct StoredCase {
    pub call: Call,
    pub lines: u8,
    pub value: u8,
    pub fitted: u8,
    pub pattern: u16,
    pub times: u32,
    pub more_times: u32,
    pub stored: u32,
    pub more_stored: u32,
    pub room: u32,
    pub note_room: u32,
    pub fill: u8,
    pub place: usize,
    pub end: usize,
    pub record: [u8; 8],
}

impl StoredCase {
    // An entry of a room before the call.
    pub fn fill_entry(&self) -> u16 {
        u16::from_le_bytes([self.fill; 2])
    }
}

// The case that a head tells, if each number is within its range; what it has of bytes and rooms is held to the buffers where they are.
pub fn find_case(head: &[u8; 72]) -> Option<StoredCase> {
    let (words, _) = head.as_chunks();
    let word = |k: usize| u32::from_le_bytes(words[k]);
    let (pairs, _) = head.as_chunks();
    Some(StoredCase {
        call: Call::try_from(word(0)).ok()?,
        lines: u8::try_from(word(1)).ok()?,
        value: u8::try_from(word(2)).ok()?,
        fitted: u8::try_from(word(3)).ok()?,
        pattern: u16::try_from(word(4)).ok()?,
        times: word(5),
        more_times: word(6),
        stored: word(7),
        more_stored: word(8),
        room: word(9),
        note_room: word(10),
        fill: u8::try_from(word(11)).ok()?,
        place: usize::from_le_bytes(pairs[6]),
        end: usize::from_le_bytes(pairs[7]),
        record: pairs[8],
    })
}
