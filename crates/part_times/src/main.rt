//! Times calls of the parts that no node offers yet, with the clock of the system. With no word it says what it times; with any
//! word it prints how many nanoseconds each took.
#![tactic(auto)]

mod allocs;
mod exits;
mod rows;
mod versions;
mod watch;

use std::{env, io};

fn main(rt: HostRuntime) -> io::Result<()> {
    let mut args = env::args(&rt)?;
    let _program = args.next();
    if args.next().is_none() {
        return println!(rt;
            "with any word: times Allocs, an Exit, objects with versions, and a data frame"
        );
    }
    allocs::time(&rt)?;
    exits::time(&rt)?;
    versions::time(&rt)?;
    rows::time(&rt)
}
