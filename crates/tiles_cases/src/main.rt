// What the program prints of each file that an argument names, under the file's name.
#![tactic(auto)]

use std::io;

fn main(rt: HostRuntime) -> io::Result<()> {
    arguments::show_each(&rt, |input| streams::print_sheet(input, &mut rt.stdout()))
}
