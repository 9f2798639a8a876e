// A cascade further: what the library's calls make of it is added to the sums.
// No call refuses these cascades; a refusal would add nothing, and the print would show it.
#![tactic(auto, using(crate::proofs::Fits::fitting))]

use crate::sums::{BOARDS, Side, Sums};
use fingerprints::Fnv;
use std::hash::{Hash, Hasher};
use tidying::Tidied;

fn cost(lines: u8, value: u8, fitted: u8, cascade: &[u8]) -> u64 {
    pricing::price(lines, value, fitted, cascade).map_or(0, u64::from)
}

fn digest_table(digest: &mut Fnv, lines: u8, cascade: &[u8], entries: &mut [u16]) {
    if let Ok(size) = tabulating::tabulate(lines, cascade, entries) {
        u16::hash_slice(&entries[..size], digest);
    }
}

fn digest_inverse(digest: &mut Fnv, lines: u8, cascade: &[u8], inverse: &mut [u8]) {
    if let Ok(m) = cascades::invert(lines, cascade, inverse) {
        digest.write(&inverse[..8 * m]);
    }
}

impl Side {
    // A cascade as it is before tidying or after it.
    fn add(&mut self, lines: u8, cascade: &[u8], entries: &mut [u16]) {
        self.gates = self.gates.saturating_add((cascade.len() / 8) as u64);
        for (sum, (value, fitted, _)) in self.costs.iter_mut().zip(&BOARDS) {
            *sum = sum.saturating_add(cost(lines, *value, *fitted, cascade));
        }
        self.records.write(cascade);
        digest_table(&mut self.tables, lines, cascade, entries);
    }
}

// The sums of a family so far, and the rooms that the library's calls write to.
#[derive(Drop)]
pub struct Tally {
    pub sums: Sums,
    inverse: [u8; 64000],
    entries: [u16; 729],
}

impl Tally {
    pub fn new() -> Tally {
        Tally {
            sums: Sums::default(),
            inverse: [0; 64000],
            entries: [0; 729],
        }
    }

    // The cascade before tidying.
    fn add_given(&mut self, lines: u8, cascade: &[u8]) {
        self.sums.given.add(lines, cascade, &mut self.entries);
        digest_inverse(&mut self.sums.inverses, lines, cascade, &mut self.inverse);
        self.sums.count_cascade((cascade.len() / 8) as u64);
    }

    // The cascade before tidying and after it. It is tidied where it lies.
    pub fn add_cascade(&mut self, lines: u8, cascade: &mut [u8]) {
        self.add_given(lines, cascade);
        if let Ok(Tidied { left, steps }) = tidying::tidy(lines, cascade) {
            let cascade = &cascade[..8 * left];
            self.sums.tidied.add(lines, cascade, &mut self.entries);
            self.sums.count_steps(steps as u64);
        }
    }

    // The cascade of a table, written to the room.
    pub fn add_table(&mut self, lines: u8, table: &[u16], room: &mut [u8]) {
        if let Ok(m) = synthesis::synthesize(lines, table, room) {
            self.add_cascade(lines, &mut room[..8 * m]);
        }
    }
}
