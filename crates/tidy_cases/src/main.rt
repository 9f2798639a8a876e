// Document 01's cases P8 to P13, run: each cascade is tidied, and what is left is printed with the steps it took.
#![tactic(auto)]

use std::io;
use tidying::Tidied;

// The gates left, as a listing.
fn print_left(rt: &impl Print, lines: u8, cascade: &[u8]) -> io::Result<()> {
    let mut room = [0u8; 256];
    if let Ok(m) = listings::listing(lines, cascade, &mut room) {
        if let Some(text) = room.get(..m) {
            rt.write_all(text)?;
        }
    }
    Ok(())
}

// The cascade, tidied.
fn show<const N: usize>(rt: &impl Print, lines: u8, mut cascade: [u8; N]) -> io::Result<()> {
    if let Ok(Tidied { left, steps }) = tidying::tidy(lines, &mut cascade) {
        let (records, _) = cascade.as_chunks::<8>();
        if let Some(records) = records.get(..left) {
            print_left(rt, lines, records.as_flattened())?;
        }
        println!(rt; "steps {steps}")?;
    }
    Ok(())
}

// P8: C1 x0, C1 x0
const P8: [u8; 16] = [1, 0, 3, 3, 3, 3, 3, 3, 1, 0, 3, 3, 3, 3, 3, 3];

// P9: C1 x0, C2 x0
const P9: [u8; 16] = [1, 0, 3, 3, 3, 3, 3, 3, 2, 0, 3, 3, 3, 3, 3, 3];

// P10: C1 x0 x1=0, C1 x0 x1=1
const P10: [u8; 16] = [1, 0, 3, 0, 3, 3, 3, 3, 1, 0, 3, 1, 3, 3, 3, 3];

// P11: D x0 x1=0, D x0 x1=2
const P11: [u8; 16] = [4, 0, 3, 0, 3, 3, 3, 3, 4, 0, 3, 2, 3, 3, 3, 3];

// P12: E x1, D x0 x1=2, E x1
const P12: [u8; 24] = [
    5, 1, 3, 3, 3, 3, 3, 3, 4, 0, 3, 2, 3, 3, 3, 3, 5, 1, 3, 3, 3, 3, 3, 3,
];

// P13: N x1, D x0 x1=2, N x1
const P13: [u8; 24] = [
    3, 1, 3, 3, 3, 3, 3, 3, 4, 0, 3, 2, 3, 3, 3, 3, 3, 1, 3, 3, 3, 3, 3, 3,
];

fn main(rt: HostRuntime) -> io::Result<()> {
    show(&rt, 1, P8)?;
    show(&rt, 1, P9)?;
    show(&rt, 2, P10)?;
    show(&rt, 2, P11)?;
    show(&rt, 2, P12)?;
    show(&rt, 2, P13)
}
