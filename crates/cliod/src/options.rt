//! What the words ask for.

use cl_types::config::{NodeConfig, OffloadConfig, OffloadList};
use cl_types::items::{Items, NoMemory};
use clap::ArgMatches;
use daemon::Network;
use std::alloc::Global;
use std::net::{Ipv4Addr, SocketAddrV4};
use std::num::NonZeroU32;

/// The network of the loopback addresses.
pub const LOOPBACK: Network = Network {
    address: 0x7f00_0000,
    bits: 8,
};

/// What the words ask for.
#[derive(Drop)]
pub struct Options {
    pub listen: SocketAddrV4,
    pub node: NodeConfig,
    pub tick_micros: NonZeroU32,
    /// Who may send, where that is told.
    pub allowed: Option<Items<Network>>,
    pub log: bool,
    /// Every how many seconds a line of all counts comes.
    pub stats_every: Option<u32>,
}

/// Why words that have the right form can't be taken.
#[derive(Clone, Copy)]
pub enum WordFault<'a> {
    /// This is no address with a port.
    Listen(&'a str),
    /// These are no addresses.
    Allow(&'a str),
    /// Any peer could send to this address.
    Open(Ipv4Addr),
    /// There was no memory.
    NoMemory,
}

impl<'a> From<NoMemory> for WordFault<'a> {
    ghost from_gives = { λ _ _. Unit {0} };

    fn from(_error: NoMemory) -> Self {
        WordFault::NoMemory
    }
}

/// What the words ask for, or the first that can't be taken.
pub fn options_of<'a>(alloc: Global, matches: &ArgMatches<'a>) -> Result<Options, WordFault<'a>> {
    let listen = listen_of(matches)?;
    let allowed = allowed_of(alloc, matches)?;
    if allowed.is_none() && !LOOPBACK.contains(listen.ip().to_bits()) {
        return Err(WordFault::Open(*listen.ip()));
    }
    Ok(Options {
        listen,
        node: node_of(alloc, matches)?,
        tick_micros: tick_of(matches),
        allowed,
        log: matches.get_flag("log"),
        stats_every: matches.get_one::<u32>("stats"),
    })
}

// The address and the port.
fn listen_of<'a>(matches: &ArgMatches<'a>) -> Result<SocketAddrV4, WordFault<'a>> {
    let text = matches.get_str("listen").unwrap_or("");
    match text.parse::<SocketAddrV4>() {
        Ok(listen) => Ok(listen),
        Err(_) => Err(WordFault::Listen(text)),
    }
}

// Who may send, where that is told.
fn allowed_of<'a>(
    alloc: Global,
    matches: &ArgMatches<'a>,
) -> Result<Option<Items<Network>>, WordFault<'a>> {
    let Some(texts) = matches.get_strs("allow") else {
        return Ok(None);
    };
    let mut networks = Items::create(alloc);
    for text in texts {
        let network = network_of(text).ok_or(WordFault::Allow(text))?;
        networks.push(network)?;
    }
    Ok(Some(networks))
}

// The network of this text, `ADDR/BITS`. An address with bits behind the network's is none: it would admit more than it
// seems to.
fn network_of(text: &str) -> Option<Network> {
    let (address, bits) = text.split_once('/')?;
    let address = address.parse::<Ipv4Addr>().ok()?.to_bits();
    let bits = bits.parse::<u8>().ok()?;
    if bits > 32 || address.trailing_zeros() < 32 - u32::from(bits) {
        return None;
    }
    Some(Network { address, bits })
}

// A number, which the parser has judged; each has a default.
fn number_of(matches: &ArgMatches<'_>, name: &str) -> u64 {
    matches.get_one::<u64>(name).unwrap_or(0)
}

// The numbers of the node.
fn node_of(alloc: Global, matches: &ArgMatches<'_>) -> Result<NodeConfig, NoMemory> {
    Ok(NodeConfig {
        pages: number_of(matches, "pages"),
        buckets: number_of(matches, "buckets"),
        ring: number_of(matches, "ring"),
        retry: number_of(matches, "records"),
        offloads: objects_of(alloc, matches)?,
    })
}

// The key-value objects, in the order of their words.
fn objects_of(alloc: Global, matches: &ArgMatches<'_>) -> Result<OffloadList, NoMemory> {
    let mut objects = Items::create(alloc);
    let Some(texts) = matches.get_strs("kv") else {
        return Ok(objects);
    };
    for text in texts {
        let records = text.parse::<u64>().unwrap_or(0);
        objects.push(OffloadConfig::Kv { records })?;
    }
    Ok(objects)
}

// The length of a tick; the parser lets no 0 through.
fn tick_of(matches: &ArgMatches<'_>) -> NonZeroU32 {
    let tick = matches.get_one::<u32>("tick").unwrap_or(0);
    NonZeroU32::new(tick).unwrap_or(NonZeroU32::MIN)
}
