//! The words of the program.

use clap::builder::ValueParser;
use clap::{Arg, ArgAction, ArgMatches, Command, Error};
use std::alloc::{AllocError, Global};

/// What the words say, or why they can't be taken; help and the version are among the latter.
pub fn matches_of<'a>(alloc: Global, words: &'a [String]) -> Result<ArgMatches<'a>, Error> {
    command(alloc)?.try_get_matches_from(words)
}

// The words that there are.
fn command<'a>(alloc: Global) -> Result<Command<'a>, AllocError> {
    let command = Command::new(alloc, "cliod")
        .version("1.0.0")
        .about("Serves a memory node over UDP until it is stopped.")
        .arg(listen_arg(alloc))?
        .arg(number_arg(
            alloc,
            "pages",
            "PAGES",
            "65536",
            1,
            65_536,
            "Pages of 4,096 bytes that it has, 1 to 65536",
        ))?
        .arg(number_arg(
            alloc,
            "buckets",
            "BUCKETS",
            "32768",
            2,
            65_536,
            "Buckets of its page table, a power of two from 2 to 65536; each holds 4 pages",
        ))?
        .arg(number_arg(
            alloc,
            "ring",
            "PAGES",
            "64",
            1,
            1_024,
            "Zeroed pages that it keeps ready, 1 to 1024",
        ))?
        .arg(number_arg(
            alloc,
            "records",
            "RECORDS",
            "16384",
            1,
            65_536,
            "Replies to changing requests that it keeps for repeats, 1 to 65536",
        ))?
        .arg(kv_arg(alloc))?
        .arg(number_arg(
            alloc,
            "tick",
            "MICROSECONDS",
            "10000",
            1,
            1_000_000,
            "The length of a tick, 1 to 1000000; it must be the clients' tick too",
        ))?
        .arg(allow_arg(alloc))?
        .arg(log_arg(alloc))?
        .arg(stats_arg(alloc))?;
    Ok(command)
}

// The address and the port.
fn listen_arg<'a>(alloc: Global) -> Arg<'a> {
    Arg::new(alloc, "listen")
        .long("listen")
        .value_name("ADDR:PORT")
        .default_value("127.0.0.1:7000")
        .help("The IPv4 address and the port that it listens on; port 0 is any free one")
}

// A number in its range.
fn number_arg<'a>(
    alloc: Global,
    name: &'a str,
    value: &'a str,
    default: &'a str,
    least: u64,
    most: u64,
    help: &'a str,
) -> Arg<'a> {
    Arg::new(alloc, name)
        .long(name)
        .value_name(value)
        .value_parser(ValueParser::unsigned(least, most))
        .default_value(default)
        .help(help)
}

// A key-value object.
fn kv_arg<'a>(alloc: Global) -> Arg<'a> {
    Arg::new(alloc, "kv")
        .long("kv")
        .value_name("RECORDS")
        .value_parser(ValueParser::unsigned(1, 4_096))
        .action(ArgAction::Append)
        .help(
            "A key-value object of 1 to 4096 records; comes up to 16 times, and objects are numbered from 0",
        )
}

// Who may send.
fn allow_arg<'a>(alloc: Global) -> Arg<'a> {
    Arg::new(alloc, "allow")
        .long("allow")
        .value_name("ADDR/BITS")
        .action(ArgAction::Append)
        .help(
            "Addresses that may send, as 10.0.0.0/8, any number of times; without it 127.0.0.0/8; needed beyond loopback",
        )
}

// Whether there is a log.
fn log_arg<'a>(alloc: Global) -> Arg<'a> {
    Arg::new(alloc, "log")
        .long("log")
        .action(ArgAction::SetTrue)
        .help("A line on standard error for what is refused, bad or dropped, at most 20 a second")
}

// How often there are statistics.
fn stats_arg<'a>(alloc: Global) -> Arg<'a> {
    Arg::new(alloc, "stats")
        .long("stats")
        .value_name("SECONDS")
        .value_parser(ValueParser::unsigned(1, 86_400))
        .help("A line of all counts on standard output every 1 to 86400 seconds")
}
