//! The program `clio`: its words, standard input and standard output, UDP and the system's clock, and the status with which it ends.
#![tactic(auto)]

use cl_outside::{StdClock, StdSink, StdSource, UdpWire};
use clio_cli::{Left, Words, run};
use std::io::ErrorKind;
use std::process::ExitCode;
use std::{env, io};

// The arguments behind the program's name. Where one is no text there is one empty word, which is no command.
fn arguments(rt: &HostRuntime) -> io::Result<Words> {
    let mut words = Words::create(rt.alloc());
    match env::args(rt) {
        Ok(mut args) => {
            let _program = args.next();
            for word in args {
                push(&mut words, word.as_str())?;
            }
        }
        Err(error) if error.kind() == ErrorKind::InvalidData => push(&mut words, "")?,
        Err(error) => return Err(error),
    }
    Ok(words)
}

// Appends a word.
fn push(words: &mut Words, word: &str) -> io::Result<()> {
    words
        .push(word)
        .map_err(|_| io::Error::from(ErrorKind::OutOfMemory))
}

fn main(rt: HostRuntime) -> ExitCode {
    let Ok(words) = arguments(&rt) else {
        return ExitCode::from(5);
    };
    let mut source = StdSource::create(rt.reader());
    let mut sink = StdSink::create(io::writer(&rt));
    let mut wire = UdpWire::create(&rt);
    let mut clock = StdClock::create(&rt);
    let mut left = Left::Nothing;
    ExitCode::from(run(
        rt.alloc(),
        &words,
        &mut source,
        &mut sink,
        &mut wire,
        &mut clock,
        &mut left,
    ))
}
