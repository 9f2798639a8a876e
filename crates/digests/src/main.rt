// Prints the sums and digests of 17 families of cascades, as docs/VECTORS.md has them; the second program prints the same from its own code.
#![tactic(auto)]

mod adding;
mod families;
mod sums;

use drawing::draws::Manner;
use families::{Family, Kind};
use std::io;

fn main(rt: HostRuntime) -> io::Result<()> {
    let single = Kind::Cascades(Manner::Single);
    let dense = Kind::Cascades(Manner::Dense);
    // There are 9! = 362,880 tables on two lines.
    let families = [
        Family::new(Kind::AllTables, 2, 0, 362880),
        Family::new(Kind::Tables, 3, 3, 1000),
        Family::new(Kind::Tables, 4, 4, 300),
        Family::new(Kind::Tables, 5, 5, 60),
        Family::new(Kind::Tables, 6, 6, 12),
        Family::new(single, 3, 103, 1000),
        Family::new(single, 4, 104, 1000),
        Family::new(single, 5, 105, 500),
        Family::new(single, 6, 106, 200),
        Family::new(dense, 3, 203, 1000),
        Family::new(dense, 4, 204, 1000),
        Family::new(dense, 5, 205, 500),
        Family::new(dense, 6, 206, 200),
        Family::new(Kind::LongCascades, 3, 303, 10),
        Family::new(Kind::LongCascades, 4, 304, 10),
        Family::new(Kind::LongCascades, 5, 305, 6),
        Family::new(Kind::LongCascades, 6, 306, 6),
    ];
    for family in &families {
        rt.print(family)?;
    }
    Ok(())
}
