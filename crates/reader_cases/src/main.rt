// Opens each file that an argument names by the reader that keeps hold of it, and prints under the file's name what it hands out, a line a turn.
#![tactic(auto)]

use gates::Gate;
use readers::Given;
use std::io;
use std::io::Read;

fn print_given(rt: &impl Print, given: Given) -> io::Result<()> {
    match given {
        Ok(
            Some(
                Gate {
                    operator,
                    target,
                    controls,
                },
            ),
        ) => println!(rt; "gate {operator} {target} {controls}"),
        Ok(None) => println!(rt; "end"),
        Err(refusal) => println!(rt; "{refusal}"),
    }
}

// One turn for each record that the file has room for, its trailer among them, and one more: the end is seen at least twice.
fn print_file<R: Read>(rt: &impl Print, input: &mut R) -> io::Result<()> {
    let mut file = [0u8; 2048];
    let n = streams::read_full(input, &mut file)?;
    let mut reader = readers::open(&file[..n]);
    for _ in 0..n / 8 + 1 {
        print_given(rt, readers::next(&mut reader))?;
    }
    Ok(())
}

fn main(rt: HostRuntime) -> io::Result<()> {
    arguments::show_each(&rt, |input| print_file(&rt, input))
}
