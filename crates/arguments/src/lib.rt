// What the programs that go through stored files share.
#![tactic(auto)]

use std::env::Env;
use std::rt::Files;
use std::{env, fs, io};

// Prints the name of each file that an argument names, and has the file shown.
pub fn show_each<R, F>(rt: &R, mut show: F) -> io::Result<()>
where
    R: Alloc + Env + Files + Print,
    F: FnMut(&mut R::File) -> io::Result<()>,
    requires { F.IsAlwaysCallable show }
{
    for name in env::args(rt)?.skip(1) {
        println!(rt; "{name}")?;
        show(&mut fs::open(rt, &name)?)?;
    }
    Ok(())
}
