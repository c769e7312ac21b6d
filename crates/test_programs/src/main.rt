//! Plays the cases on standard input through the code of the programs, and writes what each of them
//! writes and how it ends.
//!
//! A case is a line `# KIND NAME`, and the lines up to the next case.
#![tactic(auto)]

mod arguments;
mod cases;
mod endings;
mod failing;
mod lock_rows;
mod play;
mod short;
mod streams;
mod threads;
mod told;
mod unusual;

use lock_rows::Tally;
use std::io;
use std::io::{Read, Write};

fn main(rt: HostRuntime) -> io::Result<()> {
    let mut text = String::new(rt.alloc());
    rt.stdin().read_to_string(&mut text)?;
    let mut tally = Tally::default();
    for case in text.as_str().split("# ").skip(1) {
        let mut output = Vec::new(rt.alloc());
        cases::run(&rt, case, &mut tally, &mut output)?;
        rt.stdout().write_all(output.as_slice())?;
    }
    rt.stdout().flush()
}
