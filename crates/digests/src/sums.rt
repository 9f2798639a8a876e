// What the cascades of a family add up to. A sum too large for 64 bits, which no family comes near, would stay at the limit and be seen in print.
use fingerprints::Fnv;
use std::fmt;

// What a cascade's price depends on, and its name in print: each global control value with all operators fitted, and 2 with D, E or N alone.
pub const BOARDS: [(u8, u8, &str); 6] = [
    (0, 7, "at 0"),
    (1, 7, "at 1"),
    (2, 7, "at 2"),
    (2, 1, "with D"),
    (2, 2, "with E"),
    (2, 4, "with N"),
];

// Of the cascades before tidying, or of those after it.
#[derive(Clone, Copy, Default)]
pub struct Side {
    pub gates: u64,
    // On each of the boards.
    pub costs: [u64; 6],
    // Digests of all records, and of all tables computed.
    pub records: Fnv,
    pub tables: Fnv,
}

#[derive(Clone, Copy, Default)]
pub struct Sums {
    pub count: u64,
    pub given: Side,
    pub tidied: Side,
    pub steps: u64,
    // Cascades that took a step.
    pub changed: u64,
    // The largest number of gates before tidying, and how many cascades have so many.
    pub most_gates: u64,
    pub with_most_gates: u64,
    // Digest of all inverses.
    pub inverses: Fnv,
}

impl Sums {
    // A cascade of so many gates, counted.
    pub fn count_cascade(&mut self, gates: u64) {
        self.count = self.count.saturating_add(1);
        if self.most_gates < gates {
            self.most_gates = gates;
            self.with_most_gates = 0;
        }
        if self.most_gates == gates {
            self.with_most_gates = self.with_most_gates.saturating_add(1);
        }
    }

    // A tidying of so many steps, counted.
    pub fn count_steps(&mut self, steps: u64) {
        self.steps = self.steps.saturating_add(steps);
        if 0 < steps {
            self.changed = self.changed.saturating_add(1);
        }
    }
}

impl Side {
    // The numbers, with a word before each name.
    fn fmt_named<W: fmt::Write>(&self, f: &mut fmt::Formatter<W>, word: &str) -> fmt::Result {
        writeln!(f, "{word}gates {}", self.gates)?;
        for (cost, (_, _, name)) in self.costs.iter().zip(&BOARDS) {
            writeln!(f, "{word}cost {name} {cost}")?;
        }
        Ok(())
    }
}

// 19 numbers and five digests, each behind its name on a line of its own.
impl fmt::Display for Sums {
    fn fmt<W: fmt::Write>(&self, f: &mut fmt::Formatter<W>) -> fmt::Result {
        writeln!(f, "count {}", self.count)?;
        self.given.fmt_named(f, "")?;
        self.tidied.fmt_named(f, "tidied ")?;
        writeln!(f, "steps {}", self.steps)?;
        writeln!(f, "changed {}", self.changed)?;
        writeln!(f, "most gates {}", self.most_gates)?;
        writeln!(f, "with most gates {}", self.with_most_gates)?;
        writeln!(f, "records {}", self.given.records)?;
        writeln!(f, "computed {}", self.given.tables)?;
        writeln!(f, "inverse {}", self.inverses)?;
        writeln!(f, "left {}", self.tidied.records)?;
        writeln!(f, "kept {}", self.tidied.tables)
    }
}
