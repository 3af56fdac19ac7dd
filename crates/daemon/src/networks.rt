//! `Network`: addresses that may send to a node.

ghost use Rattle.std.specs.Prelude.{◌≡◌};
ghost use Rattle.daemon.specs.Networks.{allows, contains};

use cl_outside::Peer;

/// The IPv4 addresses whose first `bits` bits are those of `address`. With 32 bits or more it is that address
/// alone, and with none it is every address.
#[derive(Clone, Copy, Debug, PartialEq, Eq)]
pub struct Network {
    /// The first byte of an address is the highest: 127.0.0.1 is 0x7f00_0001.
    pub address: u32,
    pub bits: u8,
}

impl Network {
    /// Whether the address is one of the network's.
    pub fn contains(self, ip: u32) -> bool
        ensures { result ≡ contains self ip }
    {
        let rest = 32u8.saturating_sub(self.bits);
        u64::from(self.address) >> rest == u64::from(ip) >> rest
    }
}

/// Whether the peer's address is in one of the networks.
pub fn is_allowed(networks: &[Network], peer: Peer) -> bool
    ensures { result ≡ allows networks.now peer }
{
    networks.iter().any(|network| network.contains(peer.ip))
}
