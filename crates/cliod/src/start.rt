//! The start of the node, and its service.

use crate::options::{LOOPBACK, Options};
use crate::told::{tell_bind_fault, tell_node_fault, tell_start};
use crate::{BAD_WORDS, NOT_SERVED};
use cl_outside::{Bound, StdClock, UdpWire, Wire};
use cl_types::open_fault::OpenFault;
use daemon::{Counts, Network, Reports, serve_until_stopped};
use node_core::Node;
use std::num::NonZeroU32;

// A second, in microseconds.
const SECOND: u32 = 1_000_000;

/// Opens the node, listens, and serves until the program is stopped. It returns a status where that can't be done, and
/// has told why.
pub fn serve(rt: &HostRuntime, options: &Options) -> u8 {
    match Node::create(rt.alloc(), &options.node) {
        Ok(mut node) => listen(rt, options, &mut node),
        Err(fault) => {
            let _lost = tell_node_fault(rt, fault);
            status_of(fault)
        }
    }
}

// The status of a node that doesn't open.
fn status_of(fault: OpenFault) -> u8 {
    match fault {
        OpenFault::BadConfig { field: _, value: _ } => BAD_WORDS,
        OpenFault::NoRoom {
            offload: _,
            pages: _,
        }
        | OpenFault::NoMemory => NOT_SERVED,
    }
}

// Listens, and serves the node.
fn listen(rt: &HostRuntime, options: &Options, node: &mut Node) -> u8 {
    let mut wire = UdpWire::create_at(rt, *options.listen.ip());
    match wire.bind(options.listen.port()) {
        Bound::Port(port) => {
            let _lost = tell_start(rt, port, options);
            let counts = serve_on(rt, options, node, &mut wire);
            let failures = counts.failed;
            let _lost = eprintln!(rt; "error: nothing can be received; {failures} receives failed");
        }
        Bound::Failed => {
            let _lost = tell_bind_fault(rt, options.listen);
        }
    }
    NOT_SERVED
}

// Serves the node on a wire until the program is stopped.
fn serve_on<W: Wire>(rt: &HostRuntime, options: &Options, node: &mut Node, wire: &mut W) -> Counts {
    let mut clock = StdClock::create_with(rt, options.tick_micros);
    let second = NonZeroU32::new(SECOND).unwrap_or(NonZeroU32::MIN);
    let watch = StdClock::create_with(rt, second);
    let mut reports = Reports::create(watch, options.log, options.stats_every);
    let loopback = [LOOPBACK];
    let allowed: &[Network] = match &options.allowed {
        Some(networks) => networks.as_slice(),
        None => &loopback,
    };
    serve_until_stopped(rt, node, wire, &mut clock, allowed, &mut reports)
}
