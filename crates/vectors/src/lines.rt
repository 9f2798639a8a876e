// The line of a case: six decimal numbers and four digests.
use crate::heads::Call;
use exports::Numbers;
use fingerprints::Fnv;
use std::fmt;

#[derive(Clone, Copy)]
pub struct Line {
    pub call: Call,
    pub told: Numbers,
    // Digests of what was given first and second, of the room and of the note's room.
    pub given: Fnv,
    pub more: Fnv,
    pub room: Fnv,
    pub note: Fnv,
}

impl fmt::Display for Line {
    fn fmt<W: fmt::Write>(&self, f: &mut fmt::Formatter<W>) -> fmt::Result {
        let told = self.told;
        write!(f, "{} {} {} ", self.call as u32, told.number, told.place)?;
        write!(f, "{} {} {} ", told.first, told.second, told.third)?;
        write!(
            f,
            "{} {} {} {}",
            self.given, self.more, self.room, self.note
        )
    }
}
