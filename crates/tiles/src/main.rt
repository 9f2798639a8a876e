// Reads a table file from standard input, and prints the listing of the table's cascade or the line of its refusal.
#![tactic(auto)]

use std::io;

fn main(rt: HostRuntime) -> io::Result<()> {
    streams::print_sheet(&mut rt.stdin(), &mut rt.stdout())
}
