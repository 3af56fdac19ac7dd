//! What was read of a schedule so far, line by line.

ghost use Rattle.std.specs.Prelude.{◌≡◌, [], ◌∷◌, ◌++◌, IfOk, OnOk, drop, option_map, true};
ghost use Rattle.frame_model.specs.Faults.{first_fault};
ghost use Rattle.texts.specs.Text.{first_word, words_in};
ghost use Rattle.texts.specs.Grammar.{at_end, event_faults, is_given, line_read, nothing_read, place_faults, read_more, said_faults, with_offload};
ghost use Rattle.texts.specs.Grammar as grammar;
ghost use Rattle.schedule_text.specs.Lines.{said_of};
ghost use Rattle.schedule_text.specs.Readings.{Gives, line_said};
ghost use Rattle.schedule_text.specs.Telling.{LeavesOf, TellsBy};

use crate::fault::{LineFault, ScheduleFault};
use crate::garbage::{is_reply, is_request};
use crate::lines::{byte_fault, is_passed_over};
use crate::parts::cut;
use crate::said::{Statement, said_in};
use cl_types::config::{ClientList, Config, NodeConfig, OffloadConfig, OffloadList};
use cl_types::items::{Bytes, NoMemory};
use cl_types::limits::{ADDRESS_END, MOST_CLIENTS, PAGE_BYTES};
use cl_types::numbers::{Addr, ClientNo, Pid};
use cl_types::schedule::{Event, EventList, Schedule, What};
use std::alloc::Global;
use std::marker::Model;

/// What the lines read so far say. Whoever reads line by line begins with `create`, gives each line to `read_line` under
/// its number, from 1 on, and ends with `finish`. A clause sees it as the grammar's reading.
#[derive(Drop)]
pub struct Reading {
    header: Bytes,
    node: Option<NodeConfig>,
    clients: ClientList,
    events: EventList,
    // Whether a line after the header was read.
    begun: bool,
}

impl Model for Reading {
    ghost use Rattle.texts.specs.Grammar as grammar;

    ghost Value = { grammar.Reading };

    ghost view = { λ r. record { header = r.header; node = r.node; clients = r.clients; events = r.events; begun = r.begun } };
}

/// What is wrong with a peek: it leaves its page, or its address is none.
fn peek_fault(addr: Addr, len: u16) -> Option<What>
    ensures { result ≡ first_fault (event_faults nothing_read (Event.Peek 1 addr len)) }
{
    if addr.0 >= ADDRESS_END || addr.0 % PAGE_BYTES + u32::from(len) > PAGE_BYTES {
        return Some(What::BadLength);
    }
    None
}

/// What is wrong with garbage that spells a frame.
fn frame_fault(is_frame: bool) -> Option<What>
    ensures { result ≡ first_fault ((is_frame, What.AFrame) ∷ []) }
{
    if is_frame { Some(What::AFrame) } else { None }
}

impl Reading {
    /// No line was read.
    pub fn create(alloc: Global) -> Self
        ensures { result ≡ nothing_read }
    {
        Reading {
            header: Bytes::create(alloc),
            node: None,
            clients: ClientList::create(alloc),
            events: EventList::create(alloc),
            begun: false,
        }
    }

    /// The node's configuration, where one was given.
    pub fn node(&self) -> Option<&NodeConfig>
        ensures { option_map (λ c. c.now) result ≡ self.now.node }
    {
        self.node.as_ref()
    }

    /// The clients that were given.
    pub fn clients(&self) -> &[(ClientNo, Pid)]
        ensures { result.now ≡ self.now.clients }
    {
        self.clients.as_slice()
    }

    /// The events, with the numbers of their lines.
    pub fn events(&self) -> &[(u32, Event)]
        ensures { result.now ≡ self.now.events }
    {
        self.events.as_slice()
    }

    /// Whether the client was given.
    fn is_given(&self, client: ClientNo) -> bool
        ensures { result ≡ is_given self.now client }
    {
        for given in self.clients.as_slice() {
            if given.0.0 == client.0 {
                return true;
            }
        }
        false
    }

    /// What is wrong with the place of a line, by its first word.
    fn order_fault(&self, word: &[u8]) -> Option<What>
        ensures { result ≡ first_fault (drop 2 (place_faults self.now [] word.now)) }
    {
        let has_node = self.node.is_some();
        let has_client = !self.clients.as_slice().is_empty();
        let is_node = word == b"node".as_slice();
        let is_offload = word == b"offload".as_slice();
        let is_client = word == b"client".as_slice();
        if !has_node && !is_node {
            return Some(What::NodeExpected);
        }
        if has_node && !has_client && !is_offload && !is_client {
            return Some(What::ClientExpected);
        }
        if has_node && is_node || has_client && is_offload || self.begun && is_client {
            return Some(What::OutOfPlace);
        }
        None
    }

    /// What is wrong with a line that isn't skipped, by its bytes, its spaces and its place.
    pub fn place_fault(&self, line: &[u8]) -> Option<What>
        ensures { result ≡ first_fault (place_faults self.now line.now (first_word (words_in line.now))) }
    {
        if let Some(what) = byte_fault(line) {
            return Some(what);
        }
        let (word, _) = cut(line, b' ');
        self.order_fault(word)
    }

    /// What is wrong with the number of one client more.
    fn number_fault(&self, number: ClientNo) -> Option<What>
        ensures { result
            ≡ first_fault (said_faults self.now (grammar.Client number 1)) }
    {
        if self.is_given(number) {
            return Some(What::ClientRepeated);
        }
        if self.clients.as_slice().len() >= MOST_CLIENTS {
            return Some(What::TooManyClients);
        }
        None
    }

    /// What is wrong with an event of this client alone.
    fn client_fault(&self, client: ClientNo) -> Option<What>
        ensures { result ≡ first_fault (event_faults self.now (Event.Poll client)) }
    {
        if self.is_given(client) {
            None
        } else {
            Some(What::UnknownClient)
        }
    }

    /// What is wrong with an event.
    fn event_fault(&self, alloc: Global, event: &Event) -> Result<Option<What>, NoMemory>
        ensures { IfOk result (λ fault.
            fault ≡ first_fault (event_faults self.now event.now)) }
    {
        match event {
            Event::Call { client, .. } | Event::Poll { client } => Ok(self.client_fault(*client)),
            Event::Peek { addr, len, .. } => Ok(peek_fault(*addr, *len)),
            Event::GarbageNode { bytes } => Ok(frame_fault(is_request(alloc, bytes)?)),
            Event::GarbageClient { client, bytes } => {
                if let Some(what) = self.client_fault(*client) {
                    return Ok(Some(what));
                }
                Ok(frame_fault(is_reply(alloc, bytes)?))
            }
            Event::Deliver { .. }
            | Event::DeliverNext
            | Event::Drop
            | Event::Tick { .. }
            | Event::Show { .. }
            | Event::Stat => Ok(None),
        }
    }

    /// What is wrong with what a line says.
    fn said_fault(&self, alloc: Global, said: &Statement) -> Result<Option<What>, NoMemory>
        ensures { IfOk result (λ fault.
            fault ≡ first_fault (said_faults self.now (said_of said.now))) }
    {
        match said {
            Statement::Node { .. } | Statement::Offload(_) => Ok(None),
            Statement::Client(number, _) => Ok(self.number_fault(*number)),
            Statement::Happens(event) => self.event_fault(alloc, event),
        }
    }

    /// What a line says, where nothing is wrong with it.
    fn line_said(&self, alloc: Global, line: &[u8]) -> Result<Statement, LineFault>
        ensures { TellsBy said_of result (line_said self.now line.now) }
    {
        if let Some(what) = self.place_fault(line) {
            return Err(LineFault::Bad(what));
        }
        let said = said_in(alloc, line)?;
        match self.said_fault(alloc, &said)? {
            Some(what) => Err(LineFault::Bad(what)),
            None => Ok(said),
        }
    }

    /// Keeps a line of the header.
    fn keep_line(&mut self, line: &[u8]) -> Result<(), NoMemory>
        ensures { OnOk result (self.new
            ≡ record self.old { header = self.old.header ++ line.now ++ 10 ∷ [] }) }
    {
        self.header.append(line)?;
        self.header.append(b"\n")
    }

    /// Adds what a line says.
    fn add(
        &mut self,
        alloc: Global,
        number: u32,
        line: &[u8],
        said: Statement,
    ) -> Result<(), NoMemory>
        ensures { OnOk result (self.new
            ≡ read_more self.old number line.now (said_of said)) }
    {
        match said {
            Statement::Node {
                pages,
                buckets,
                ring,
                retry,
            } => {
                self.keep_line(line)?;
                let offloads = OffloadList::create(alloc);
                self.node = Some(NodeConfig {
                    pages,
                    buckets,
                    ring,
                    retry,
                    offloads,
                });
                Ok(())
            }
            Statement::Offload(offload) => {
                self.keep_line(line)?;
                self.add_offload(offload)
            }
            Statement::Client(number, pid) => {
                self.keep_line(line)?;
                self.clients.push((number, pid))
            }
            Statement::Happens(event) => {
                self.events.push((number, event))?;
                self.begun = true;
                Ok(())
            }
        }
    }

    /// Adds an offload to the node.
    fn add_offload(&mut self, offload: OffloadConfig) -> Result<(), NoMemory>
        ensures { OnOk result (self.new
            ≡ record self.old { node = with_offload offload self.old.node }) }
    {
        if let Some(node) = &mut self.node {
            node.offloads.push(offload)?;
        }
        Ok(())
    }

    /// Reads one line more.
    #[tactic(auto, using(crate::proofs::ReadingLemmas::line_bad, crate::proofs::ReadingLemmas::line_good))]
    pub fn read_line(
        &mut self,
        alloc: Global,
        number: u32,
        line: &[u8],
    ) -> Result<(), ScheduleFault>
        ensures { LeavesOf self.new result
            (line_read self.old number line.now) }
    {
        if is_passed_over(line) {
            return Ok(());
        }
        match self.line_said(alloc, line) {
            Err(LineFault::Bad(what)) => Err(ScheduleFault::Line { number, what }),
            Err(LineFault::NoMemory) => Err(ScheduleFault::NoMemory),
            Ok(said) => {
                self.add(alloc, number, line, said)?;
                Ok(())
            }
        }
    }

    /// Ends the header: a client's line after this is out of place.
    pub fn end_header(&mut self)
        ensures { self.new ≡ record self.old { begun = true } }
    {
        self.begun = true;
    }

    /// The schedule that was read; `number` is one more than that of the last line.
    pub fn finish(self, number: u32) -> Result<Schedule, ScheduleFault>
        ensures { Gives (at_end number self self.node) result }
    {
        let Reading {
            header,
            node,
            clients,
            events,
            begun: _,
        } = self;
        let Some(node) = node else {
            let what = What::NodeExpected;
            return Err(ScheduleFault::Line { number, what });
        };
        if clients.as_slice().is_empty() {
            let what = What::ClientExpected;
            return Err(ScheduleFault::Line { number, what });
        }
        let config = Config { node, clients };
        Ok(Schedule {
            header,
            config,
            events,
        })
    }
}
