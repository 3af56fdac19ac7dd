//! `UdpWire`: datagrams of UDP over IPv4.

ghost use Rattle.std.specs.Prelude.{◌≡◌, ◌≤◌, None, IfOk, length};
ghost use Rattle.cl_outside.specs.Counts.{no_faults};

use crate::faults::Faults;
use crate::{Bound, Peer, Recv, Sent, Wire};
use std::io;
use std::io::ErrorKind;
use std::net::{Ipv4Addr, Net, SocketAddr, SocketAddrV4, UdpSocket};
use std::time::Duration;

// How long a receive waits before it is idle.
const WAIT_MILLIS: u64 = 10;

/// A socket at an address of this machine. A receive waits 10 milliseconds before it is idle. Each error
/// of the system is a fault, and so is a receive or a send with no port.
#[derive(Drop)]
pub struct UdpWire<N> {
    net: N,
    address: Ipv4Addr,
    // `None` where the wire has no port.
    socket: Option<UdpSocket>,
    faults: Faults,
    idles: u64,
}

impl<N: Net> UdpWire<N> {
    /// A wire with no port on 127.0.0.1, over this network, as `&rt`.
    pub fn create(net: N) -> Self
        ensures faults { result.faults ≡ no_faults }
        ensures idles { result.idles ≡ 0 }
    {
        UdpWire::create_at(net, Ipv4Addr::LOCALHOST)
    }

    /// A wire with no port at this address of the machine, or at all of them where it is 0.0.0.0, over this
    /// network, as `&rt`.
    pub fn create_at(net: N, address: Ipv4Addr) -> Self
        ensures faults { result.faults ≡ no_faults }
        ensures idles { result.idles ≡ 0 }
    {
        UdpWire {
            net,
            address,
            socket: None,
            faults: Faults::none(),
            idles: 0,
        }
    }

    // A socket at this port, and the port that it got.
    fn open(&self, port: u16) -> io::Result<(UdpSocket, u16)> {
        let address = SocketAddr::V4(SocketAddrV4::new(self.address, port));
        let socket = UdpSocket::bind(&self.net, address)?;
        socket.set_read_timeout(Some(Duration::from_millis(WAIT_MILLIS)))?;
        let port = socket.local_addr()?.port();
        Ok((socket, port))
    }

    // Receives into the front of the buffer, and returns how many bytes came, and from where. The
    // system cuts a longer datagram to the buffer's length.
    fn receive(&self, buf: &mut [u8]) -> io::Result<(usize, Peer)>
        ensures { IfOk result (λ got. got.0 ≤ length buf.new) }
    {
        let (len, from) = self.socket()?.recv_from(buf)?;
        let SocketAddr::V4(from) = from else {
            return Err(io::Error::from(ErrorKind::AddrNotAvailable));
        };
        let peer = Peer {
            ip: from.ip().to_bits(),
            port: from.port(),
        };
        Ok((len, peer))
    }

    fn socket(&self) -> io::Result<&UdpSocket> {
        match &self.socket {
            Some(socket) => Ok(socket),
            None => Err(io::Error::from(ErrorKind::NotConnected)),
        }
    }

    fn send_to(&self, to: Peer, bytes: &[u8]) -> io::Result<usize> {
        let address = SocketAddrV4::new(Ipv4Addr::from_bits(to.ip), to.port);
        self.socket()?.send_to(bytes, SocketAddr::V4(address))
    }
}

// The wait was over, or the process was stopped while it waited.
fn is_wait_over(error: &io::Error) -> bool {
    matches!(
        error.kind(),
        ErrorKind::WouldBlock | ErrorKind::TimedOut | ErrorKind::Interrupted
    )
}

impl<N: Net> Wire for UdpWire<N> {
    ghost coming = { λ _. None };

    ghost sent = { λ _. None };

    ghost last_bind = { λ _. None };

    ghost faults = { λ s. s.faults };

    ghost idles = { λ s. s.idles };

    fn bind(&mut self, port: u16) -> Bound {
        // So that a port that the wire has can be asked again.
        self.socket = None;
        match self.open(port) {
            Ok((socket, port)) => {
                self.socket = Some(socket);
                self.faults.pass();
                Bound::Port(port)
            }
            Err(_) => {
                self.faults.fail();
                Bound::Failed
            }
        }
    }

    fn recv(&mut self, buf: &mut [u8]) -> Recv {
        match self.receive(buf) {
            Ok((len, from)) => {
                self.faults.pass();
                Recv::Got { len, from }
            }
            Err(error) if is_wait_over(&error) => {
                self.idles = self.idles.saturating_add(1);
                self.faults.pass();
                Recv::Idle
            }
            Err(_) => {
                self.faults.fail();
                Recv::Failed
            }
        }
    }

    fn send(&mut self, to: Peer, bytes: &[u8]) -> Sent {
        match self.send_to(to, bytes) {
            Ok(count) if count == bytes.len() => {
                self.faults.pass();
                Sent::Sent
            }
            _ => {
                self.faults.fail();
                Sent::Failed
            }
        }
    }
}
