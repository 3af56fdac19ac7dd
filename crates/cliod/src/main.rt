//! The program `cliod`: a memory node that is served over UDP until it is stopped.
#![tactic(auto)]

mod options;
mod start;
mod told;
mod words;

use crate::options::options_of;
use crate::start::serve;
use crate::told::tell_fault;
use crate::words::matches_of;
use clap::Error;
use std::process::ExitCode;
use std::{env, io};

/// The status where a word is wrong.
pub const BAD_WORDS: u8 = 2;

/// The status where the node can't be served.
pub const NOT_SERVED: u8 = 1;

// The program's name and its words.
fn words_of(rt: &HostRuntime) -> io::Result<Vec<String>> {
    Ok(env::args(rt)?.collect(rt.alloc())?)
}

// Tells what clap has to say: help, the version, or a wrong word.
fn tell_error(rt: &HostRuntime, error: &Error) -> ExitCode {
    let _lost = error.print(rt);
    ExitCode::from(error.exit_code() as u8)
}

fn main(rt: HostRuntime) -> ExitCode {
    let Ok(words) = words_of(&rt) else {
        let _lost = eprintln!(rt;
            "error: a word is not valid UTF-8, or there is no memory for the words"
        );
        return ExitCode::from(BAD_WORDS);
    };
    let matches = match matches_of(rt.alloc(), &words) {
        Ok(matches) => matches,
        Err(error) => return tell_error(&rt, &error),
    };
    match options_of(rt.alloc(), &matches) {
        Ok(options) => ExitCode::from(serve(&rt, &options)),
        Err(fault) => {
            let _lost = tell_fault(&rt, fault);
            ExitCode::from(BAD_WORDS)
        }
    }
}
