//! `Whole`: the node, the clients and the link of a world at a moment.

ghost use Rattle.std.specs.Prelude.{◌≡◌, ◌+◌, ◌<◌, ◌≤◌, None, IfOk, IfSome, OnOk, length, take, option_and_then, slice_get};
ghost use Rattle.std.specs.Option.{option_copied};
ghost use Rattle.indexmap.specs.IndexMap.{index_map_len, values};
ghost use Rattle.world.specs.Fields.{AreKeyed, world_of};
ghost use Rattle.world.specs.Worlds.{client_in, next_frame, note_on, sends_frame};

use crate::note::Note;
use cl_types::frame::End;
use cl_types::items::NoMemory;
use cl_types::limits::FRAME_ROOM;
use cl_types::line::{Did, Entry, EventLine};
use cl_types::numbers::ClientNo;
use client_core::Client;
use indexmap::IndexMap;
use link_sim::Link;
use node_core::Node;

/// The parts of a world.
#[derive(Drop)]
pub struct Whole {
    /// In ticks.
    pub moment: u64,
    pub node: Node,
    /// Each under its number, in the order of the configuration.
    pub clients: IndexMap<u16, Client>,
    pub link: Link,
    /// A note on each frame of the link.
    pub notes: Vec<Note>,
    /// In the order of line and position.
    pub history: Vec<Entry>,
    /// Node and clients write their frames into it.
    pub out: [u8; FRAME_ROOM],
}

/// A line with no call that ended.
pub fn alone(did: Did) -> EventLine
    ensures did { result.did ≡ did }
    ensures ended { result.ended ≡ None }
{
    EventLine { did, ended: None }
}

/// Where the client of this number stands.
pub fn client_at(clients: &IndexMap<u16, Client>, no: ClientNo) -> Option<usize>
    requires { AreKeyed clients.now }
    ensures client { option_and_then (slice_get (values clients.now)) result
        ≡ client_in (values clients.now) no }
    ensures within { IfSome result (λ at. at < index_map_len clients.now) }
{
    clients.get_index_of(&no.0)
}

/// The note on the frame of this number.
pub fn note_at(notes: &[Note], frame: u32) -> Option<&Note>
    ensures { option_copied result ≡ note_on notes.now frame }
{
    if frame == 0 {
        return None;
    }
    notes.get(frame as usize - 1)
}

impl Whole {
    /// Sends the first `len` bytes of the buffer to an end on a line, with a note, and gives the
    /// number of the frame.
    pub fn send(&mut self, line: u32, end: End, len: usize, note: Note) -> Result<u32, NoMemory>
        requires len { len ≤ FRAME_ROOM }
        requires few { length self.old.link.frames < 4294967295 }
        ensures number { IfOk result (λ number. number ≡ next_frame (world_of self.old)) }
        ensures sent { OnOk result (world_of self.new
            ≡ sends_frame (world_of self.old) line end (take len self.old.out) note) }
        ensures node { OnOk result (self.new.node ≡ self.old.node) }
        ensures moment { OnOk result (self.new.moment ≡ self.old.moment) }
        ensures clients { self.new.clients ≡ self.old.clients }
    {
        let number = self.link.send(self.moment, end, &self.out[..len], line)?;
        if self.notes.push(note).is_err() {
            return Err(NoMemory);
        }
        Ok(number)
    }
}
