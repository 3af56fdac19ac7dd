//! `Reports`: what is told of the turns while a node is served. A line that can't be written is lost, and the node
//! goes on.

use crate::counts::{BadCounts, Counts};
use crate::turns::Turn;
use crate::words::{fault_word, refusal_word};
use cl_outside::{Clock, Peer};
use node_core::{Node, Outcome};
use std::io::{Eprint, Print};
use std::net::Ipv4Addr;
use wire_loop::TurnEnd;

/// The greatest number of lines of the log in a second.
pub const LOG_LINES: u32 = 20;

/// Lines of statistics on standard output, and of a log on standard error.
#[derive(Drop)]
pub struct Reports<T> {
    // Tells seconds.
    watch: T,
    log: bool,
    // Every how many seconds a line of statistics comes.
    stats_every: Option<u32>,
    // The second of the next line of statistics.
    next_stats: u64,
    // The second of the log's last lines, how many they are, and how many more there would have been.
    second: u64,
    lines: u32,
    left_out: u64,
}

impl<T: Clock> Reports<T> {
    /// Reports by a clock that tells seconds. With `log` each datagram that is dropped, bad, refused or not
    /// answered has a line, up to `LOG_LINES` a second; with `stats_every` a line of all counts comes every so
    /// many seconds.
    pub fn create(watch: T, log: bool, stats_every: Option<u32>) -> Self {
        Reports {
            watch,
            log,
            stats_every,
            next_stats: u64::from(stats_every.unwrap_or(0)),
            second: 0,
            lines: 0,
            left_out: 0,
        }
    }

    /// Tells of a turn. The counts have it already.
    pub fn tell<R: Print + Eprint>(&mut self, rt: &R, turn: Turn, counts: &Counts, node: &Node) {
        if !self.log && self.stats_every.is_none() {
            return;
        }
        let second = self.watch.now();
        if self.log {
            self.log_turn(rt, second, turn);
        }
        if let Some(every) = self.stats_every {
            self.print_stats(rt, second, every, counts, node);
        }
    }

    // Writes a line of statistics where its second has come.
    fn print_stats<R: Print>(
        &mut self,
        rt: &R,
        second: u64,
        every: u32,
        counts: &Counts,
        node: &Node,
    ) {
        if second < self.next_stats {
            return;
        }
        self.next_stats = second.saturating_add(u64::from(every));
        print_counts(rt, counts, node);
    }

    // Writes the line of a turn, where it has one and the second has not had too many.
    fn log_turn<R: Eprint>(&mut self, rt: &R, second: u64, turn: Turn) {
        if second != self.second {
            self.log_left_out(rt);
            self.second = second;
            self.lines = 0;
        }
        if !has_line(turn) {
            return;
        }
        if self.lines >= LOG_LINES {
            self.left_out = self.left_out.saturating_add(1);
            return;
        }
        self.lines += 1;
        write_turn(rt, turn);
    }

    // Tells how many lines the last second would have had besides.
    fn log_left_out<R: Eprint>(&mut self, rt: &R) {
        if self.left_out != 0 {
            let left_out = self.left_out;
            let _lost = eprintln!(rt; "and {left_out} lines more");
            self.left_out = 0;
        }
    }
}

// One line of all counts, and of what the node holds.
fn print_counts<R: Print>(rt: &R, counts: &Counts, node: &Node) {
    let Counts {
        frames,
        executed,
        repeated,
        looked,
        refused,
        busy,
        bad,
        unsent,
        dropped,
        failed,
        failed_in_a_row: _,
    } = *counts;
    let BadCounts {
        short,
        magic,
        version,
        kind,
        long,
        field,
    } = bad;
    let pages = node.used();
    let records = node.retained();
    let _lost = println!(rt;
        "frames={frames} executed={executed} repeated={repeated} looked={looked} refused={refused} busy={busy} bad_short={short} bad_magic={magic} bad_version={version} bad_kind={kind} bad_long={long} bad_field={field} unsent={unsent} dropped={dropped} failed={failed} pages={pages} records={records}"
    );
}

// Whether the log has a line of the turn.
fn has_line(turn: Turn) -> bool {
    match turn {
        Turn::Served(
            _,
            TurnEnd::Served(
                Outcome::Replied {
                    len: _,
                    how: _,
                    status,
                },
            ),
        ) => status != 0,
        Turn::Idle => false,
        _ => true,
    }
}

// The log's line of the turn.
fn write_turn<R: Eprint>(rt: &R, turn: Turn) {
    match turn {
        Turn::Dropped(peer) => write_line(rt, "dropped", peer, "not allowed"),
        Turn::Served(peer, TurnEnd::Served(outcome)) => write_outcome(rt, peer, outcome),
        Turn::Served(peer, TurnEnd::Unsent(_)) => {
            write_line(rt, "unsent", peer, "the reply could not be sent");
        }
        Turn::Served(_, TurnEnd::Idle) | Turn::Idle => {}
        Turn::Served(_, TurnEnd::Failed) | Turn::Failed => {
            let _lost = eprintln!(rt; "failed: nothing could be received");
        }
    }
}

// The log's line of an outcome.
fn write_outcome<R: Eprint>(rt: &R, peer: Peer, outcome: Outcome) {
    match outcome {
        Outcome::Replied {
            len: _,
            how: _,
            status,
        } => write_line(rt, "refused", peer, refusal_word(status)),
        Outcome::Busy { oldest: _, now: _ } => write_line(
            rt,
            "busy",
            peer,
            "no record is old enough",
        ),
        Outcome::Bad(fault) => write_line(rt, "bad", peer, fault_word(fault)),
    }
}

// One line of the log: what came of a datagram, its peer, and why.
fn write_line<R: Eprint>(rt: &R, what: &str, peer: Peer, why: &str) {
    let address = Ipv4Addr::from_bits(peer.ip);
    let port = peer.port;
    let _lost = eprintln!(rt; "{what} {address}:{port}: {why}");
}
