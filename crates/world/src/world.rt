//! `World`: the whole under the events of a schedule.

ghost use Rattle.std.specs.Prelude.{◌≡◌, ◌<◌, ◌^◌, true, false, Some, Err, IfErr, IfOk, IsTrue, MatchOption, OnErr, OnOk, is_err, is_some, List, ℕ, ◌≤◌, ◌++◌, ◌∷◌, []};
ghost use Rattle.cl_types.specs.declared.config.Config.{Config as Configuration};
ghost use Rattle.cl_types.specs.declared.schedule.Event.{Event as Happening};
ghost use Rattle.trace.specs.Schedules.{IsGood};
ghost use Rattle.flat_model.specs.Opening.{open_fault};
ghost use Rattle.trace.specs.Properties.{IsInOrder};
ghost use Rattle.world.specs.Fields.{IsReady};
ghost use Rattle.world.specs.Follows.{StandsFor, TellsLine, opened};
ghost use Rattle.world.specs.Running.{HaveNumbersApart, IsFair, stepped, summed_on};
ghost use Rattle.world.specs.Worlds.{client_in, step};
ghost use Rattle.cl_types.specs.declared.limits.TheConstants.{LINES_END};

use crate::summary::{NOTHING_COUNTED, summed};
use crate::whole::Whole;
use cl_types::config::Config;
use cl_types::items::NoMemory;
use cl_types::line::{Entry, EventLine, Summary};
use cl_types::numbers::ClientNo;
use cl_types::open_fault::OpenFault;
use cl_types::schedule::Event;
use client_core::Client;
use node_core::Node;
use std::alloc::Global;
use std::marker::Model;

/// A node, clients and a link under the events of a schedule.
///
/// `event` makes one happen; `history`, `node`, `has_client`, `client` and `finish` only look.
#[derive(Drop)]
pub struct World {
    whole: Whole,
    // What the events came to.
    summary: Summary,
    // The line of the latest event.
    line: u32,
    // An event has wanted memory and found none. What it left half done is never seen again.
    spent: bool,
}

impl Model for World {
    ghost use Rattle.std.specs.Prelude.{◌≡◌, false};
    ghost use Rattle.world.specs.Fields.{AreKeyed, AreSound, world_of};
    ghost use Rattle.world.specs.Running.{Running};
    ghost use Rattle.world.specs.Summed.{IsWithinLine};

    ghost Value = { Running };

    ghost view = { λ w. record {
      world = world_of w.whole;
      summary = w.summary;
      line = w.line;
      spent = w.spent;
    } };

    ghost invariant = { λ w. AreKeyed w.whole.clients
        × (w.spent ≡ false → AreSound w.line w.whole)
        × IsWithinLine w.line w.summary };
}

impl World {
    /// The world of a configuration in which nothing has happened, or why its node doesn't open.
    pub fn create(alloc: Global, config: &Config) -> Result<World, OpenFault>
        requires { HaveNumbersApart config.now }
        ensures opened { IfOk result (λ w. w ≡ opened config.now) }
        ensures stands { IfOk result (StandsFor config.now []) }
        ensures fault { MatchOption (open_fault config.now.node)
            (IfErr result (λ fault. fault ≡ OpenFault.NoMemory)) (λ fault. result ≡ Err fault) }
    {
        let whole = Whole::create(alloc, config)?;
        Ok(World {
            whole,
            summary: NOTHING_COUNTED,
            line: 0,
            spent: false,
        })
    }

    /// Makes an event of a line behind the latest one happen, and tells its line. Where there was
    /// no memory for it, the world is spent: every later event is answered so too.
    pub fn event(&mut self, alloc: Global, line: u32, event: &Event) -> Result<EventLine, NoMemory>
        requires later { self.old.line < line }
        requires few { line < LINES_END }
        requires fair { IsFair event.now }
        ensures step { IfOk result (λ told. stepped told self.new.world
            ≡ step self.old.world line event.now) }
        ensures stands { (config : Configuration) (events : List (ℕ × Happening))
            → IsGood config (events ++ (line, event.now) ∷ [])
            → StandsFor config events self.old
            → IfOk result (λ told. TellsLine config events line event.now told
            × StandsFor config (events ++ (line, event.now) ∷ []) self.new) }
        ensures summary { IfOk result (λ told. self.new.summary
            ≡ summed_on (stepped told self.new.world) self.old.summary) }
        ensures line { OnOk result (self.new.line ≡ line) }
        ensures ready { OnOk result (self.new.spent ≡ false) }
        ensures spent { OnErr result (self.new.spent ≡ true) }
        ensures kept { OnErr result (self.new.line ≡ self.old.line) }
        ensures counts { OnErr result (self.new.summary ≡ self.old.summary) }
        ensures stays { self.old.spent ≡ true → is_err result ≡ true }
    {
        if self.spent {
            return Err(NoMemory);
        }
        self.spent = true;
        let told = self.whole.happen(alloc, line, event)?;
        let entries = self.whole.history.as_slice().len();
        self.summary = summed(self.summary, &told, entries);
        self.line = line;
        self.spent = false;
        Ok(told)
    }

    /// The entries that stand, in the order of line and position.
    pub fn history(&self) -> &[Entry]
        ensures entries { result.now ≡ self.now.world.history }
        ensures order { self.now.spent ≡ false → IsInOrder result.now }
    {
        &self.whole.history
    }

    /// The node.
    pub fn node(&self) -> &Node
        ensures node { result.now.node ≡ self.now.world.node }
        ensures last { self.now.spent ≡ false → result.now.last ≤ self.now.world.moment }
    {
        &self.whole.node
    }

    /// Whether it has a client of this number.
    pub fn has_client(&self, no: ClientNo) -> bool
        ensures { result ≡ is_some (client_in self.now.world.clients no) }
    {
        self.whole.clients.contains_key(&no.0)
    }

    /// The client of this number, which it has.
    pub fn client(&self, no: ClientNo) -> &Client
        requires { IsTrue (is_some (client_in self.now.world.clients no)) }
        ensures client { Some result.now ≡ client_in self.now.world.clients no }
        ensures last { self.now.spent ≡ false → result.now.last ≤ self.now.world.moment }
    {
        let Some(client) = self.whole.clients.get(&no.0) else {
            unreachable!()
        };
        client
    }

    /// What the events came to: how many calls were issued, how these ended, and how many entries
    /// the history has. A spent world tells it of the events before the one that wanted memory.
    pub fn finish(&self) -> Summary
        ensures { result ≡ self.now.summary }
    {
        self.summary
    }
}
