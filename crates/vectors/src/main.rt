// Reads the cases of docs/VECTORS.md from standard input, performs the call of each, and prints a line for each.
#![tactic(auto)]

mod calls;
mod given;
mod heads;
mod lines;
mod rooms;
mod serial;

use lines::Line;
use std::io;
use std::io::Read;

// The line of the next case; none where the input has none.
fn next_line<R: Read>(input: &mut R) -> io::Result<Option<Line>> {
    let mut head = [0u8; 72];
    if streams::read_full(input, &mut head)? < 72 {
        return Ok(None);
    }
    match heads::find_case(&head) {
        Some(case) => given::answer_case(input, &case),
        None => Ok(None),
    }
}

// As many cases as the input tells, or those before something that is none.
fn main(rt: HostRuntime) -> io::Result<()> {
    let mut input = rt.stdin();
    let mut count = [0u8; 4];
    if streams::read_full(&mut input, &mut count)? < 4 {
        return Ok(());
    }
    for _ in 0..u32::from_le_bytes(count) {
        let Some(line) = next_line(&mut input)? else {
            break;
        };
        println!(rt; "{line}")?;
    }
    Ok(())
}
