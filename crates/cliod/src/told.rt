//! What the program tells of its start.

use crate::options::{Options, WordFault};
use cl_types::config::{Field, OffloadConfig};
use cl_types::open_fault::OpenFault;
use daemon::Network;
use std::io;
use std::io::{Eprint, Print};
use std::net::{Ipv4Addr, SocketAddrV4};

/// Tells why a word can't be taken.
pub fn tell_fault<R: Eprint>(rt: &R, fault: WordFault<'_>) -> io::Result<()> {
    match fault {
        WordFault::Listen(text) => eprintln!(rt;
            "error: invalid value '{text}' for '--listen <ADDR:PORT>': an IPv4 address and a port from 0 to 65535 are wanted, as 127.0.0.1:7000"
        )?,
        WordFault::Allow(text) => eprintln!(rt;
            "error: invalid value '{text}' for '--allow <ADDR/BITS>': an IPv4 address and 0 to 32 bits are wanted, and no bit of the address behind these, as 10.0.0.0/8"
        )?,
        WordFault::Open(address) => eprintln!(rt;
            "error: '--listen' at {address} needs '--allow <ADDR/BITS>': nothing authenticates a peer, so a node beyond loopback names the addresses that may send"
        )?,
        WordFault::NoMemory => eprintln!(rt; "error: no memory for the words")?,
    }
    eprintln!(rt; "\nFor more information, try '--help'.")
}

/// Tells why a node doesn't open.
pub fn tell_node_fault<R: Eprint>(rt: &R, fault: OpenFault) -> io::Result<()> {
    match fault {
        OpenFault::BadConfig {
            field: Field::Buckets,
            value,
        } => {
            eprintln!(rt;
                "error: invalid value '{value}' for '--buckets <BUCKETS>': a power of two from 2 to 65536 is wanted"
            )
        }
        OpenFault::BadConfig {
            field: Field::Offloads,
            value,
        } => { eprintln!(rt; "error: '--kv <RECORDS>' comes {value} times, and may come 16 times") }
        OpenFault::BadConfig { field: _, value } => {
            eprintln!(rt; "error: {value} is out of its range")
        }
        OpenFault::NoRoom { offload, pages } => {
            eprintln!(rt;
                "error: object {offload} has no room: it takes {pages} pages; give more '--pages', or more '--buckets', of which each holds 4 pages"
            )
        }
        OpenFault::NoMemory => eprintln!(rt;
            "error: no memory for the node; '--pages' times 4,096 bytes are most of what it takes"
        ),
    }
}

/// Tells what can't be listened on.
pub fn tell_bind_fault<R: Eprint>(rt: &R, listen: SocketAddrV4) -> io::Result<()> {
    eprintln!(rt;
        "error: {listen} can't be listened on: another program has the port, the address isn't this machine's, or the port is one that this user may not take"
    )
}

/// The line of the start: where the node listens, and its configuration.
pub fn tell_start<R: Print>(rt: &R, port: u16, options: &Options) -> io::Result<()> {
    let address = *options.listen.ip();
    let node = &options.node;
    let (pages, buckets, ring, records) = (node.pages, node.buckets, node.ring, node.retry);
    print!(rt;
        "listening on {address}:{port} pages={pages} buckets={buckets} ring={ring} records={records} kv="
    )?;
    tell_objects(rt, node.offloads.as_slice())?;
    let tick = options.tick_micros.get();
    print!(rt; " tick={tick}us allow=")?;
    match &options.allowed {
        Some(networks) => tell_networks(rt, networks.as_slice())?,
        None => print!(rt; "loopback")?,
    }
    println!(rt; "")
}

// The records of the objects, with commas between.
fn tell_objects<R: Print>(rt: &R, objects: &[OffloadConfig]) -> io::Result<()> {
    let mut comma = "";
    for object in objects {
        let OffloadConfig::Kv { records } = *object;
        print!(rt; "{comma}{records}")?;
        comma = ",";
    }
    if objects.is_empty() {
        print!(rt; "none")?;
    }
    Ok(())
}

// The networks, with commas between.
fn tell_networks<R: Print>(rt: &R, networks: &[Network]) -> io::Result<()> {
    let mut comma = "";
    for network in networks {
        let address = Ipv4Addr::from_bits(network.address);
        let bits = network.bits;
        print!(rt; "{comma}{address}/{bits}")?;
        comma = ",";
    }
    Ok(())
}
