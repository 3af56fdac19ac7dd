//! Bytes that spell no frame for their end. They are handed to it all the same, and refused there.

ghost use Rattle.std.specs.Prelude.{◌≡◌, ◌≤◌, IfOk, IsSome, length};
ghost use Rattle.cl_types.specs.Written.{expanded};
ghost use Rattle.frame_model.specs.Frames.{reply_fault, request_fault};
ghost use Rattle.world.specs.Fields.{AreKeyed, world_of};
ghost use Rattle.world.specs.Running.{stepped};
ghost use Rattle.world.specs.Worlds.{garbage, shows};

use crate::ask::{FrameAnswer, ask};
use crate::whole::{Whole, alone, client_at};
use call_text::expand;
use cl_types::items::NoMemory;
use cl_types::limits::FRAME_ROOM;
use cl_types::line::{Did, EventLine};
use cl_types::numbers::ClientNo;
use cl_types::schedule::Written;
use client_core::{Client, Heard};
use frame_codec::{read_reply, read_request};
use node_core::Node;
use std::alloc::Global;

impl Whole {
    /// Hands bytes that spell no request to the node, and tells their fault. The node was given the
    /// moment, and is otherwise as it was.
    pub fn garbage_node(&mut self, alloc: Global, written: &Written) -> Result<EventLine, NoMemory>
        requires later { self.old.node.last ≤ self.old.moment }
        ensures step { IfOk result (λ told. stepped told (world_of self.new)
            ≡ shows (world_of self.old) (garbage (request_fault (expanded written.now)))) }
        ensures handed { IfOk result (λ _. IsSome (request_fault (expanded written.now))
            → self.new.node.last ≡ self.new.moment) }
        ensures node { self.new.node.last ≤ self.new.moment }
        ensures clients { self.new.clients ≡ self.old.clients }
    {
        let bytes = expand(alloc, written)?;
        let did = node_refuses(
            alloc,
            &mut self.node,
            self.moment,
            bytes.as_slice(),
            &mut self.out,
        )?;
        Ok(alone(did))
    }

    /// Hands bytes that spell no reply to the client of this number, and tells their fault. That the
    /// client is handed them can be seen in the code alone: they leave it as it was.
    pub fn garbage_client(
        &mut self,
        alloc: Global,
        no: ClientNo,
        written: &Written,
    ) -> Result<EventLine, NoMemory>
        requires { AreKeyed self.old.clients }
        ensures step { IfOk result (λ told. stepped told (world_of self.new)
            ≡ shows (world_of self.old) (garbage (reply_fault (expanded written.now)))) }
        ensures node { self.new.node ≡ self.old.node }
        ensures moment { self.new.moment ≡ self.old.moment }
        ensures keyed { AreKeyed self.new.clients }
    {
        let bytes = expand(alloc, written)?;
        let Some(at) = client_at(&self.clients, no) else {
            return Ok(alone(fault_of_reply(bytes.as_slice())));
        };
        let did = client_refuses(&mut self.clients[at], bytes.as_slice());
        Ok(alone(did))
    }
}

/// Hands bytes that spell no request to the node at the moment `now`, and gives what it tells of
/// them. Bytes that spell a request, which no schedule has here, are not handed to it.
fn node_refuses(
    alloc: Global,
    node: &mut Node,
    now: u64,
    bytes: &[u8],
    out: &mut [u8],
) -> Result<Did, NoMemory>
    requires later { node.old.last ≤ now }
    requires room { length out.old ≡ FRAME_ROOM }
    ensures did { IfOk result (λ did. did ≡ garbage (request_fault bytes.now)) }
    ensures node { node.new.node ≡ node.old.node }
    ensures handed { IsSome (request_fault bytes.now) → node.new.last ≡ now }
    ensures last { node.new.last ≤ now }
{
    match read_request(bytes) {
        Ok(_) => Ok(Did::Idle),
        Err(_) => {
            let FrameAnswer::Bad(fault) = ask(alloc, node, now, bytes, out)? else {
                unreachable!()
            };
            Ok(Did::Bad { fault })
        }
    }
}

/// Hands bytes that spell no reply to a client, and gives what it tells of them. Bytes that spell a
/// reply, which no schedule has here, are not handed to it.
fn client_refuses(client: &mut Client, bytes: &[u8]) -> Did
    ensures did { result ≡ garbage (reply_fault bytes.now) }
    ensures client { client.new ≡ client.old }
{
    match read_reply(bytes) {
        Ok(_) => Did::Idle,
        Err(_) => {
            let Heard::Bad(fault) = client.hear(bytes) else {
                unreachable!()
            };
            Did::Bad { fault }
        }
    }
}

/// What is told of bytes for a client of a number that no client has, which no schedule has.
fn fault_of_reply(bytes: &[u8]) -> Did
    ensures { result ≡ garbage (reply_fault bytes.now) }
{
    match read_reply(bytes) {
        Err(fault) => Did::Bad { fault },
        Ok(_) => Did::Idle,
    }
}
