//! `Wire`: where datagrams are received from and sent to.

ghost use Rattle.std.specs.Prelude.{◌≡◌, ◌≤◌, List, ℕ};
ghost use Rattle.std.specs.Option.{option_map};
ghost use Rattle.std.specs.declared.option.Option.{Option};
ghost use Rattle.std.specs.declared.option.Option.TheVariants.{Some};
ghost use Rattle.cl_outside.specs.declared.faults.Faults.{Faults};
ghost use Rattle.cl_outside.specs.Wire.{Message, Binding};
ghost use Rattle.cl_outside.specs.Bind.{CountsBind};
ghost use Rattle.cl_outside.specs.Receive.{CountsIdle, CountsRecv, Receives};
ghost use Rattle.cl_outside.specs.Send.{CountsSend, Sends};

/// One end of a wire.
#[derive(Clone, Copy, Debug, PartialEq, Eq)]
pub struct Peer {
    /// The IPv4 address, its first byte the highest: 127.0.0.1 is 0x7f00_0001.
    pub ip: u32,
    pub port: u16,
}

/// What a bind answered.
#[derive(Clone, Copy, Debug, PartialEq, Eq)]
pub enum Bound {
    /// The port that the wire has now.
    Port(u16),
    /// The wire has no port, and the count of faults rose.
    Failed,
}

/// What a receive gave.
#[derive(Clone, Copy, Debug, PartialEq, Eq)]
pub enum Recv {
    /// A datagram: its first `len` bytes are at the front of the buffer.
    Got { len: usize, from: Peer },
    /// No datagram came, and the count of idles rose.
    Idle,
    /// The receive failed, and the count of faults rose.
    Failed,
}

/// What a send did.
#[derive(Clone, Copy, Debug, PartialEq, Eq)]
pub enum Sent {
    /// The datagram went out.
    Sent,
    /// The send failed, and the count of faults rose.
    Failed,
}

/// Datagrams to and from peers.
pub trait Wire {
    /// The datagrams that are still to come, first to last, where the wire tells.
    ghost coming: { Self → Option (List Message) };

    /// The datagrams that were sent, first to last, each with the peer that it went to, where the
    /// wire tells.
    ghost sent: { Self → Option (List Message) };

    /// The last bind, where the wire tells: `Some None` before the first.
    ghost last_bind: { Self → Option (Option Binding) };

    /// Which calls have failed: how many, and whether the last one did.
    ghost faults: { Self → Faults };

    /// How many receives found no datagram; the count stays at 2^64 - 1.
    ghost idles: { Self → ℕ };

    /// Gives the wire a port: this one, or any that is free where it is 0.
    fn bind(&mut self, port: u16) -> Bound
        ensures last_bind { last_bind self.new ≡ option_map
            (λ _. Some (record { asked = port; answer = result })) (last_bind self.old) }
        ensures coming { coming self.new ≡ coming self.old }
        ensures sent { sent self.new ≡ sent self.old }
        ensures idles { idles self.new ≡ idles self.old }
        ensures cause { CountsBind (faults self.old) (faults self.new) result };

    /// Receives the next datagram into the front of the buffer, cut to the buffer's length.
    fn recv(&mut self, buf: &mut [u8]) -> Recv
        ensures coming { Receives (coming self.old) (coming self.new) buf.new result }
        ensures sent { sent self.new ≡ sent self.old }
        ensures last_bind { last_bind self.new ≡ last_bind self.old }
        ensures idles { CountsIdle (idles self.old) (idles self.new) result }
        ensures cause { CountsRecv (faults self.old) (faults self.new) result };

    /// Sends these bytes as one datagram.
    fn send(&mut self, to: Peer, bytes: &[u8]) -> Sent
        ensures sent { Sends (sent self.old) (sent self.new)
            (record { bytes = bytes.now; from = to }) result }
        ensures coming { coming self.new ≡ coming self.old }
        ensures last_bind { last_bind self.new ≡ last_bind self.old }
        ensures idles { idles self.new ≡ idles self.old }
        ensures cause { CountsSend (faults self.old) (faults self.new) result };
}
