//! `ScriptWire`: a wire that gives a list of datagrams, and keeps what is sent.

ghost use Rattle.std.specs.Prelude.{◌≡◌, ◌≤◌, ◌↔◌, Some, None, [], ◌∷◌, ◌++◌, IsTrue, OnOk, OnErr};
ghost use Rattle.std.specs.Option.{option_map};
ghost use Rattle.cl_outside.specs.Counts.{no_faults};
ghost use Rattle.cl_outside.specs.Bind.{CountsBind};
ghost use Rattle.cl_outside.specs.Plan.{fails_next, after_call};
ghost use Rattle.cl_outside.specs.Receive.{CountsIdle, CountsRecv, Receives};
ghost use Rattle.cl_outside.specs.Send.{CountsSend, Sends};
ghost use Rattle.cl_outside.specs.Wire.{Binding, Message};
ghost use Rattle.cl_outside.specs.Memory.{Script};

use crate::faults::Faults;
use crate::front::copy_front;
use crate::memory::plan::Plan;
use crate::{Bound, Peer, Recv, Sent, Wire};
use std::alloc::{AllocError, Global};
use std::marker::Model;

/// A datagram, and the peer at the other end: where it comes from, or where it went to.
#[derive(Drop)]
pub struct Datagram {
    pub bytes: Vec<u8>,
    pub from: Peer,
}

impl Model for Datagram {
    ghost use Rattle.cl_outside.specs.Wire.{Message};

    ghost Value = { Message };

    ghost view = { λ d. record { bytes = d.bytes.items; from = d.from } };
}

/// Gives these datagrams, one after another, and after them is idle. A receive fails exactly where
/// its number, from 1, is in the list of receives that fail. A send fails where its number is in
/// the other list, or where there is no memory to keep the datagram.
#[derive(Drop)]
pub struct ScriptWire {
    // Where it takes the memory for what is sent.
    alloc: Global,
    bound: Bound,
    last_bind: Option<(u16, Bound)>,
    datagrams: Vec<Datagram>,
    // How many of the datagrams were given.
    at: usize,
    sent: Vec<Datagram>,
    recv_plan: Plan,
    send_plan: Plan,
    faults: Faults,
    idles: u64,
}

impl Model for ScriptWire {
    ghost use Rattle.std.specs.Prelude.{drop};
    ghost use Rattle.std.specs.Option.{option_map};
    ghost use Rattle.cl_outside.specs.Memory.{Script};

    ghost Value = { Script };

    ghost view = { λ s. record {
      bound = s.bound;
      last_bind = option_map (λ bind. record { asked = bind.0; answer = bind.1 }) s.last_bind;
      coming = drop s.at s.datagrams.items;
      sent = s.sent.items;
      recv_plan = s.recv_plan;
      send_plan = s.send_plan;
      faults = s.faults;
      idles = s.idles;
    } };
}

impl ScriptWire {
    /// A wire with all of these datagrams to come, and no call made yet. Each bind answers `bound`.
    /// It keeps the lists, and takes no memory before the first send.
    pub fn create(
        alloc: Global,
        bound: Bound,
        datagrams: Vec<Datagram>,
        recv_fails: Vec<u64>,
        send_fails: Vec<u64>,
    ) -> ScriptWire
        ensures { result ≡ record {
          bound = bound;
          last_bind = None;
          coming = datagrams.items;
          sent = [];
          recv_plan = record { fails = recv_fails.items; calls = 0 };
          send_plan = record { fails = send_fails.items; calls = 0 };
          faults = no_faults;
          idles = 0;
        } }
    {
        ScriptWire {
            alloc,
            bound,
            last_bind: None,
            datagrams,
            at: 0,
            sent: Vec::new(alloc),
            recv_plan: Plan::create(recv_fails),
            send_plan: Plan::create(send_fails),
            faults: Faults::none(),
            idles: 0,
        }
    }

    /// What was sent, first to last; `from` is the peer that it went to.
    pub fn sent(&self) -> &[Datagram]
        ensures { result.now ≡ self.now.sent }
    {
        &self.sent
    }

    // Keeps a datagram as one that was sent.
    fn keep(&mut self, to: Peer, bytes: &[u8]) -> Result<(), AllocError>
        ensures kept { OnOk result (self.new ≡ record self.old {
          sent = self.old.sent ++ record { bytes = bytes.now; from = to } ∷ [];
        }) }
        ensures unchanged { OnErr result (self.new ≡ self.old) }
    {
        let bytes = Vec::from_slice(self.alloc, bytes)?;
        self.sent.push(Datagram { bytes, from: to })?;
        Ok(())
    }
}

impl Wire for ScriptWire {
    ghost coming = { λ s. Some s.coming };

    ghost sent = { λ s. Some s.sent };

    ghost last_bind = { λ s. Some s.last_bind };

    ghost faults = { λ s. s.faults };

    ghost idles = { λ s. s.idles };

    fn bind(&mut self, port: u16) -> Bound
        ensures last_bind { self.new.last_bind ≡ Some (record { asked = port; answer = result }) }
        ensures coming { self.new.coming ≡ self.old.coming }
        ensures sent { self.new.sent ≡ self.old.sent }
        ensures idles { self.new.idles ≡ self.old.idles }
        ensures cause { CountsBind self.old.faults self.new.faults result }
        ensures answer { result ≡ self.old.bound }
        ensures bound { self.new.bound ≡ self.old.bound }
        ensures recv_plan { self.new.recv_plan ≡ self.old.recv_plan }
        ensures send_plan { self.new.send_plan ≡ self.old.send_plan }
    {
        self.last_bind = Some((port, self.bound));
        match self.bound {
            Bound::Port(_) => self.faults.pass(),
            Bound::Failed => self.faults.fail(),
        }
        self.bound
    }

    fn recv(&mut self, buf: &mut [u8]) -> Recv
        ensures coming { Receives (Some self.old.coming) (Some self.new.coming) buf.new result }
        ensures sent { self.new.sent ≡ self.old.sent }
        ensures last_bind { self.new.last_bind ≡ self.old.last_bind }
        ensures idles { CountsIdle self.old.idles self.new.idles result }
        ensures cause { CountsRecv self.old.faults self.new.faults result }
        ensures fails { (result ≡ Recv.Failed) ↔ IsTrue (fails_next self.old.recv_plan) }
        ensures bound { self.new.bound ≡ self.old.bound }
        ensures recv_plan { self.new.recv_plan ≡ after_call self.old.recv_plan }
        ensures send_plan { self.new.send_plan ≡ self.old.send_plan }
    {
        if self.recv_plan.next_fails() {
            self.faults.fail();
            return Recv::Failed;
        }
        self.faults.pass();
        let Some(datagram) = self.datagrams.get(self.at) else {
            self.idles = self.idles.saturating_add(1);
            return Recv::Idle;
        };
        self.at += 1;
        Recv::Got {
            len: copy_front(&datagram.bytes, buf),
            from: datagram.from,
        }
    }

    fn send(&mut self, to: Peer, bytes: &[u8]) -> Sent
        ensures sent { Sends (Some self.old.sent) (Some self.new.sent)
            (record { bytes = bytes.now; from = to }) result }
        ensures coming { self.new.coming ≡ self.old.coming }
        ensures last_bind { self.new.last_bind ≡ self.old.last_bind }
        ensures idles { self.new.idles ≡ self.old.idles }
        ensures cause { CountsSend self.old.faults self.new.faults result }
        ensures fails { IsTrue (fails_next self.old.send_plan) → result ≡ Sent.Failed }
        ensures bound { self.new.bound ≡ self.old.bound }
        ensures recv_plan { self.new.recv_plan ≡ self.old.recv_plan }
        ensures send_plan { self.new.send_plan ≡ after_call self.old.send_plan }
    {
        if self.send_plan.next_fails() || self.keep(to, bytes).is_err() {
            self.faults.fail();
            return Sent::Failed;
        }
        self.faults.pass();
        Sent::Sent
    }
}
