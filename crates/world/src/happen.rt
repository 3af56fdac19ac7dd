//! An event, by a function for each kind.

ghost use Rattle.std.specs.Prelude.{◌≡◌, ◌<◌, ◌≤◌, ◌^◌, ◌-◌, IfOk, OnOk};
ghost use Rattle.world.specs.Fields.{AreKeyed, AreSound, IsReady, world_of};
ghost use Rattle.world.specs.Running.{IsFair, stepped};
ghost use Rattle.world.specs.Worlds.{step};
ghost use Rattle.cl_types.specs.declared.limits.TheConstants.{LINES_END};

use crate::whole::{Whole, alone};
use cl_types::items::NoMemory;
use cl_types::line::EventLine;
use cl_types::schedule::Event;
use std::alloc::Global;

impl Whole {
    /// Makes an event happen on a line.
    pub fn happen(&mut self, alloc: Global, line: u32, event: &Event) -> Result<EventLine, NoMemory>
        requires some { 0 < line }
        requires few { line < LINES_END }
        requires sound { AreSound (line - 1) self.old }
        requires keyed { AreKeyed self.old.clients }
        requires fair { IsFair event.now }
        ensures step { IfOk result (λ told. stepped told (world_of self.new)
            ≡ step (world_of self.old) line event.now) }
        ensures sound { OnOk result (AreSound line self.new) }
        ensures keyed { AreKeyed self.new.clients }
    {
        self.dispatch(alloc, line, event)
    }

    /// The same while all numbers have room; that they keep it is `happen`'s.
    fn dispatch(&mut self, alloc: Global, line: u32, event: &Event) -> Result<EventLine, NoMemory>
        requires ready { IsReady self.old }
        requires keyed { AreKeyed self.old.clients }
        requires fair { IsFair event.now }
        ensures step { IfOk result (λ told. stepped told (world_of self.new)
            ≡ step (world_of self.old) line event.now) }
        ensures node { OnOk result (self.new.node.last ≤ self.new.moment) }
        ensures keyed { AreKeyed self.new.clients }
    {
        match event {
            Event::Call { client, call } => self.call(alloc, *client, call),
            Event::Poll { client } => self.poll(alloc, line, *client),
            Event::Deliver { frame } => self.deliver(alloc, line, *frame),
            Event::DeliverNext => self.deliver_next(alloc, line),
            Event::Drop => Ok(self.drop_next()),
            Event::Tick { by } => Ok(self.tick(*by)),
            Event::Peek { pid, addr, len } => Ok(alone(self.peek(alloc, *pid, *addr, *len)?)),
            Event::Show { frame } => Ok(alone(self.show(alloc, *frame)?)),
            Event::Stat => Ok(alone(self.stat())),
            Event::GarbageNode { bytes } => self.garbage_node(alloc, bytes),
            Event::GarbageClient { client, bytes } => self.garbage_client(alloc, *client, bytes),
        }
    }
}
