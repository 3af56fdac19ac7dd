//! Events in which a client or the node takes part.

ghost use Rattle.std.specs.Prelude.{◌≡◌, ◌<◌, ◌≤◌, IfOk, OnOk, length, if◌then◌else◌};
ghost use Rattle.client_model.specs.Client.{poll as poll_of};
ghost use Rattle.cl_types.specs.Written.{call_of};
ghost use Rattle.client_model.specs.Issue.{issue_fault};
ghost use Rattle.trace.specs.Properties.{IsInOrder};
ghost use Rattle.link_sim.specs.LinkFrames.{next_number};
ghost use Rattle.world.specs.Fields.{AreKeyed, IsReady, world_of};
ghost use Rattle.world.specs.Running.{stepped};
ghost use Rattle.world.specs.Saying.{IsShortSaid, IsShortTurn, answered_step, how_in, listened_step, said_step, turned_step};
ghost use Rattle.world.specs.Worlds.{call_judged, client_in, deliver as deliver_in, polled, shows, with_found, with_next};
ghost use Rattle.cl_types.specs.declared.limits.TheConstants.{REPLY_BYTES};

use crate::ask::{Answered, FrameAnswer, Made, ask};
use crate::history::{enter, enter_look};
use crate::issue::issue;
use crate::listen::{Listened, Taken, listen};
use crate::note::Note;
use crate::turn::{ClientTurn, turn};
use crate::whole::{Whole, alone, client_at, note_at};
use cl_types::frame::{End, How};
use cl_types::items::NoMemory;
use cl_types::line::{Did, EventLine};
use cl_types::numbers::ClientNo;
use cl_types::reply::Part;
use cl_types::schedule::CallText;
use link_sim::Got;
use std::alloc::Global;

impl Whole {
    /// A client issues a call.
    pub fn call(
        &mut self,
        alloc: Global,
        no: ClientNo,
        text: &CallText,
    ) -> Result<EventLine, NoMemory>
        requires ready { IsReady self.old }
        requires keyed { AreKeyed self.old.clients }
        ensures step { IfOk result (λ told. stepped told (world_of self.new)
            ≡ with_found (world_of self.old) (client_in (world_of self.old).clients no)
            (λ s. call_judged (world_of self.old) s (call_of text.now)
            (issue_fault s (call_of text.now)))) }
        ensures node { self.new.node ≡ self.old.node }
        ensures moment { self.new.moment ≡ self.old.moment }
        ensures keyed { AreKeyed self.new.clients }
    {
        let Some(at) = client_at(&self.clients, no) else {
            return Ok(alone(Did::Idle));
        };
        let did = issue(alloc, &mut self.clients[at], text)?;
        Ok(alone(did))
    }

    /// A client is polled.
    pub fn poll(&mut self, alloc: Global, line: u32, no: ClientNo) -> Result<EventLine, NoMemory>
        requires ready { IsReady self.old }
        requires keyed { AreKeyed self.old.clients }
        ensures step { IfOk result (λ told. stepped told (world_of self.new)
            ≡ with_found (world_of self.old) (client_in (world_of self.old).clients no)
            (λ s. polled (world_of self.old) line s (poll_of s self.old.moment))) }
        ensures node { OnOk result (self.new.node ≡ self.old.node) }
        ensures moment { OnOk result (self.new.moment ≡ self.old.moment) }
        ensures keyed { AreKeyed self.new.clients }
    {
        let Some(at) = client_at(&self.clients, no) else {
            return Ok(alone(Did::Idle));
        };
        let turned = turn(alloc, &mut self.clients[at], self.moment, &mut self.out)?;
        self.turned(line, no, turned)
    }

    /// Sends what a poll is to send, and tells the poll.
    fn turned(&mut self, line: u32, no: ClientNo, turned: ClientTurn) -> Result<EventLine, NoMemory>
        requires few { length self.old.link.frames < 4294967295 }
        requires short { IsShortTurn turned }
        ensures step { IfOk result (λ told. stepped told (world_of self.new)
            ≡ turned_step (world_of self.old) line no turned self.old.out) }
        ensures node { OnOk result (self.new.node ≡ self.old.node) }
        ensures moment { OnOk result (self.new.moment ≡ self.old.moment) }
        ensures clients { self.new.clients ≡ self.old.clients }
    {
        match turned {
            ClientTurn::Quiet(told) => Ok(told),
            ClientTurn::Sends {
                len,
                part,
                id,
                orig,
                again,
            } => {
                let note = Note { part, looked: None };
                let frame = self.send(line, End::Node, len, note)?;
                Ok(alone(sent(frame, no, part, id, orig, again)))
            }
        }
    }

    /// Frame `frame` is handed to its end.
    pub fn deliver(&mut self, alloc: Global, line: u32, frame: u32) -> Result<EventLine, NoMemory>
        requires ready { IsReady self.old }
        requires keyed { AreKeyed self.old.clients }
        ensures step { IfOk result (λ told. stepped told (world_of self.new)
            ≡ deliver_in (world_of self.old) line frame) }
        ensures node { OnOk result (self.new.node.last ≤ self.new.moment) }
        ensures keyed { AreKeyed self.new.clients }
    {
        let Some(note) = note_at(&self.notes, frame) else {
            return Ok(alone(Did::Absent { frame }));
        };
        match self.link.get(self.moment, frame) {
            Got::Absent => Ok(alone(Did::Absent { frame })),
            Got::Expired { sent } => Ok(alone(Did::Expired { frame, sent })),
            Got::Live {
                bytes,
                end: End::Node,
                ..
            } => {
                let part = note.part;
                let said = ask(alloc, &mut self.node, self.moment, bytes, &mut self.out)?;
                self.said(line, frame, part, said)
            }
            Got::Live {
                bytes,
                end: End::Client(no),
                line: sent,
            } => {
                let Some(at) = client_at(&self.clients, no) else {
                    return Ok(alone(Did::Idle));
                };
                let heard = listen(alloc, &mut self.clients[at], bytes, note, sent)?;
                self.heard(frame, no, heard)
            }
        }
    }

    /// The next frame that wasn't handed out is handed to its end.
    pub fn deliver_next(&mut self, alloc: Global, line: u32) -> Result<EventLine, NoMemory>
        requires ready { IsReady self.old }
        requires keyed { AreKeyed self.old.clients }
        ensures step { IfOk result (λ told. stepped told (world_of self.new)
            ≡ with_next (world_of self.old) (λ v k. deliver_in v line k)
            (next_number self.old.link)) }
        ensures node { OnOk result (self.new.node.last ≤ self.new.moment) }
        ensures keyed { AreKeyed self.new.clients }
    {
        let Some(frame) = self.link.next() else {
            return Ok(alone(Did::NoFrame));
        };
        self.deliver(alloc, line, frame)
    }

    /// The next frame that wasn't handed out is handed to nobody.
    pub fn drop_next(&mut self) -> EventLine
        ensures step { stepped result (world_of self.new)
            ≡ with_next (world_of self.old) (λ v k. shows v (Did.Dropped k))
            (next_number self.old.link) }
        ensures node { self.new.node ≡ self.old.node }
        ensures moment { self.new.moment ≡ self.old.moment }
        ensures clients { self.new.clients ≡ self.old.clients }
    {
        let Some(frame) = self.link.next() else {
            return alone(Did::NoFrame);
        };
        alone(Did::Dropped { frame })
    }

    /// Tells what the node said to a frame, and sends its reply.
    fn said(
        &mut self,
        line: u32,
        frame: u32,
        part: Part,
        said: FrameAnswer,
    ) -> Result<EventLine, NoMemory>
        requires few { length self.old.link.frames < 4294967295 }
        requires short { IsShortSaid said }
        requires order { IsInOrder self.old.history.items }
        ensures step { IfOk result (λ told. stepped told (world_of self.new)
            ≡ said_step (world_of self.old) line frame part said self.old.out) }
        ensures node { OnOk result (self.new.node ≡ self.old.node) }
        ensures moment { OnOk result (self.new.moment ≡ self.old.moment) }
        ensures clients { self.new.clients ≡ self.old.clients }
    {
        match said {
            FrameAnswer::Bad(fault) => Ok(alone(Did::Bad { fault })),
            FrameAnswer::Busy {
                client,
                oldest,
                now,
            } => Ok(alone(Did::Busy {
                frame,
                client,
                part,
                oldest,
                now,
            })),
            FrameAnswer::Answers(answered) => self.answered(line, frame, part, answered),
        }
    }

    /// Enters and sends what the node answered to a frame.
    fn answered(
        &mut self,
        line: u32,
        frame: u32,
        part: Part,
        answered: Answered,
    ) -> Result<EventLine, NoMemory>
        requires few { length self.old.link.frames < 4294967295 }
        requires short { answered.len ≤ REPLY_BYTES }
        requires order { IsInOrder self.old.history.items }
        ensures step { IfOk result (λ told. stepped told (world_of self.new)
            ≡ answered_step (world_of self.old) line frame part answered self.old.out) }
        ensures node { OnOk result (self.new.node ≡ self.old.node) }
        ensures moment { OnOk result (self.new.moment ≡ self.old.moment) }
        ensures clients { self.new.clients ≡ self.old.clients }
    {
        let Answered {
            head,
            made,
            status,
            len,
        } = answered;
        let how = how_of(&made);
        let looked = enter(&mut self.history, line, &head, part, made)?;
        let reply = self.send(line, End::Client(head.client), len, Note { part, looked })?;
        Ok(alone(Did::Handled {
            frame,
            client: head.client,
            part,
            how,
            status,
            reply,
        }))
    }

    /// Tells what a client heard in a frame, and enters the look whose reply it took.
    fn heard(
        &mut self,
        frame: u32,
        client: ClientNo,
        heard: Listened,
    ) -> Result<EventLine, NoMemory>
        requires order { IsInOrder self.old.history.items }
        ensures step { IfOk result (λ told. stepped told (world_of self.new)
            ≡ listened_step (world_of self.old) frame client heard) }
        ensures node { OnOk result (self.new.node ≡ self.old.node) }
        ensures moment { OnOk result (self.new.moment ≡ self.old.moment) }
        ensures clients { self.new.clients ≡ self.old.clients }
    {
        match heard {
            Listened::Bad(fault) => Ok(alone(Did::Bad { fault })),
            Listened::Other => Ok(alone(Did::Idle)),
            Listened::Late(orig) => Ok(alone(Did::Late { frame, orig })),
            Listened::Took(Taken { part, ended, entry }) => {
                enter_look(&mut self.history, entry)?;
                Ok(EventLine {
                    did: Did::Took {
                        frame,
                        client,
                        part,
                    },
                    ended,
                })
            }
        }
    }
}

/// How the node came to what was made.
fn how_of(made: &Made) -> How
    ensures { result ≡ how_in made.now }
{
    match made {
        Made::Executed { .. } => How::Executed,
        Made::Repeated => How::Repeated,
        Made::Looked { .. } => How::Looked,
    }
}

/// What is told of a part that was sent.
fn sent(frame: u32, client: ClientNo, part: Part, id: u64, orig: u64, again: bool) -> Did
    ensures { result
        ≡ (if again then Did.Again frame client part id orig else Did.Sent frame client part id) }
{
    if again {
        return Did::Again {
            frame,
            client,
            part,
            id,
            orig,
        };
    }
    Did::Sent {
        frame,
        client,
        part,
        id,
    }
}
