// What the library answers, a line for each case: the case's name and numbers.
#![tactic(auto)]

mod build;
mod plans;
mod print;
mod reads;
mod runs;

use std::io;

fn main(rt: HostRuntime) -> io::Result<()> {
    reads::all(&rt)?;
    plans::all(&rt)?;
    runs::all(&rt)
}
