// The families: every table on two lines, drawn tables, and drawn cascades.
ghost use Rattle.std.specs.Prelude.{◌<◌, ◌≤◌};

use crate::adding::Tally;
use crate::sums::Sums;
use drawing::draws::{Generator, Manner};
use drawing::orders;
use std::fmt;

// What the cascades of a family are.
#[derive(Clone, Copy)]
pub enum Kind {
    // Those of all tables, from the identity on.
    AllTables,
    // Those of drawn tables.
    Tables,
    // Drawn in one manner, of 60 gates each.
    Cascades(Manner),
    // Drawn dense and passing in turn, of 8,000 gates each.
    LongCascades,
}

// The name in print.
impl fmt::Display for Kind {
    fn fmt<W: fmt::Write>(&self, f: &mut fmt::Formatter<W>) -> fmt::Result {
        f.write_str(match self {
            Kind::AllTables | Kind::Tables => "tables",
            Kind::Cascades(Manner::Single) => "cascades",
            Kind::Cascades(_) => "dense",
            Kind::LongCascades => "long",
        })
    }
}

// So many cascades of one kind, drawn by the generator.
#[derive(Clone, Copy)]
pub struct Family {
    kind: Kind,
    generator: Generator,
    count: u32,
}

impl Family {
    pub fn new(kind: Kind, lines: u8, seed: u32, count: u32) -> Family
        requires some_lines { 0 < lines }
        requires few_lines { lines ≤ 6 }
    {
        let generator = Generator::new(lines, seed);
        Family {
            kind,
            generator,
            count,
        }
    }

    // The long room takes the 4,010 records that synthesis asks for at six lines, and 8,000 gates.
    #[tactic(auto, using(crate::proofs::Fits::fitting))]
    fn sum(&self) -> Sums {
        let mut generator = self.generator;
        let lines = generator.lines;
        let mut entries = [0u16; 729];
        let table = &mut entries[..digits::power(lines as usize) as usize];
        orders::write_first(table);
        let mut short = [0u8; 480];
        let mut long = [0u8; 64000];
        let mut tally = Tally::new();
        for number in 0..self.count {
            match self.kind {
                Kind::AllTables => {
                    tally.add_table(lines, table, &mut long);
                    orders::write_next(table);
                }
                Kind::Tables => {
                    generator.draw_table(table);
                    tally.add_table(lines, table, &mut long);
                }
                Kind::Cascades(manner) => {
                    generator.draw_cascade(manner, &mut short);
                    tally.add_cascade(lines, &mut short);
                }
                Kind::LongCascades => {
                    let manner = [Manner::Dense, Manner::Passing][number as usize % 2];
                    generator.draw_cascade(manner, &mut long);
                    tally.add_cascade(lines, &mut long);
                }
            }
        }
        tally.sums
    }
}

// The sums, under the family's name and lines.
impl fmt::Display for Family {
    fn fmt<W: fmt::Write>(&self, f: &mut fmt::Formatter<W>) -> fmt::Result {
        writeln!(f, "{} {}", self.kind, self.generator.lines)?;
        self.sum().fmt(f)
    }
}
