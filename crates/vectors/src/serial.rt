// serial: a text is fed to a reader in parts and its end is told, and then both once more, which must change nothing. The reader goes by value,
// through the calls of `serials`; the functions for C callers are lent it.
use crate::heads::StoredCase;
use exports::Numbers;
use fingerprints::Fnv;
use serials::{Reply, Serial};
use std::hash::{Hash, Hasher};

// A reader with what it told last, and the digest of all that it told.
#[derive(Clone, Copy)]
struct Noted {
    reader: Serial,
    told: Numbers,
    digest: Fnv,
}

fn note(mut digest: Fnv, reply: Reply) -> Noted {
    let told = exports::answers::told(reply.told);
    digest.write_u64(told.number);
    digest.write_u64(told.place);
    digest.write_u64(told.first);
    Noted {
        reader: reply.reader,
        told,
        digest,
    }
}

impl Noted {
    fn start(lines: u8) -> Noted {
        note(Fnv::default(), serials::start(lines))
    }

    fn part(&mut self, bytes: &[u8]) {
        *self = note(self.digest, serials::part(self.reader, bytes));
    }

    fn end(&mut self, table: &mut [u16]) {
        *self = note(self.digest, serials::end(self.reader, table));
    }

    // The text, a part for each length and one with what is left.
    fn feed(&mut self, text: &[u8], lengths: &[u8]) {
        let mut rest = text;
        for length in lengths {
            let (part, left) = rest.split_at(rest.len().min(*length as usize));
            self.part(part);
            rest = left;
        }
        self.part(rest);
    }
}

// Makes the calls, the last of them with another table, and answers what the first end told. The digest gets all that was told, and the other table.
pub fn perform(
    case: &StoredCase,
    text: &[u8],
    lengths: &[u8],
    table: &mut [u16],
    digest: &mut Fnv,
) -> Numbers {
    let mut noted = Noted::start(case.lines);
    noted.feed(text, lengths);
    noted.end(table);
    let told = noted.told;
    let mut other = [case.fill_entry(); 1024];
    noted.part(text);
    noted.end(&mut other);
    *digest = noted.digest;
    u16::hash_slice(&other, digest);
    told
}
