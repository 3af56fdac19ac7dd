//! `Node`: the keeping node over its pages.

ghost use Rattle.std.specs.Prelude.{◌≡◌, ◌+◌, ◌<◌, ◌≤◌, true, Err, IfErr, IfOk, MatchOption, OnErr, length, option_map};
ghost use Rattle.cl_types.specs.Bytes.{bytes_at};
ghost use Rattle.cl_types.specs.declared.limits.TheConstants.{FRAME_ROOM};
ghost use Rattle.cl_types.specs.declared.reply.Refusal.TheVariants.{NoMapping};
ghost use Rattle.data_path.specs.Access.{IsPiece};
ghost use Rattle.data_path.specs.Store.{IsWhole, flat_of, memory_of, no_entries};
ghost use Rattle.frame_model.specs.Frames.{head_in, request_in};
ghost use Rattle.node_model.specs.Handling.{latest};
ghost use Rattle.node_model.specs.Nodes.{IsSetUp, node_answer, node_given, opening_node};
ghost use Rattle.flat_model.specs.Opening.{open_fault};
ghost use Rattle.cl_types.specs.Pages.{offset_of, page_of};
ghost use Rattle.flat_model.specs.State.{bytes_of, page_at, used};
ghost use Rattle.node_core.specs.Keeping.{Hits, LieIn, OnIdle, Tells, Uses, shown_in};
ghost use Rattle.node_core.specs.Placed.{is_access};
ghost use Rattle.page_pool.specs.PoolPages.{IsReady};

use crate::keeper::Keeper;
use crate::memory::Memory;
use crate::outcome::Outcome;
use cl_types::config::NodeConfig;
use cl_types::numbers::{Addr, Pid};
use cl_types::open_fault::OpenFault;
use cl_types::reply::Refusal;
use cl_types::steps::Steps;
use data_path::PageStore;
use std::alloc::Global;
use std::marker::{Brand, Model};
use std::sync::ledger::{Blank, Ledger};

/// A node. A clause sees it as the keeping node, its latest moment, and the entries of its page
/// table that were used of late.
///
/// `step` and `handle` handle a frame; `last`, `peek`, `used`, `retained` and `store` only look.
#[derive(Drop)]
pub struct Node {
    keeper: Keeper<Memory>,
}

impl Model for Node {
    ghost use Rattle.node_core.specs.Keeping.{KeptNode};

    ghost Value = { KeptNode };

    ghost view = { λ n. n.keeper };
}

impl Node {
    /// The node of a configuration at its opening, or why it doesn't open: a bad number, and an
    /// offload without room, is told whether there is memory or not.
    pub fn create(alloc: Global, config: &NodeConfig) -> Result<Node, OpenFault>
        ensures opened { IfOk result (λ node. node ≡ record {
          node = opening_node config.now;
          last = 0;
          cache = no_entries;
        }) }
        ensures set_up { IfOk result (λ node. IsSetUp node.node node.last) }
        ensures fault { MatchOption (open_fault config.now)
            (IfErr result (λ fault. fault ≡ OpenFault.NoMemory)) (λ fault. result ≡ Err fault) }
    {
        let memory = Memory::create(alloc, config)?;
        let keeper = Keeper::create(alloc, memory, config.retry as u32)?;
        Ok(Node { keeper })
    }

    /// Handles the bytes of a datagram at the moment `now`, in ticks. The frame of a reply is written
    /// at the start of `out`. `reads` and `takes` count the look-ups in the page table and the pages
    /// that are taken by a Read, Write or Atomic.
    pub fn step<A: Ledger, B: Ledger>(
        &mut self,
        now: u64,
        frame: &[u8],
        out: &mut [u8],
        reads: &mut Steps<A>,
        takes: &mut Steps<B>,
    ) -> Outcome
        requires later { self.old.last ≤ now }
        requires room { length out.old ≡ FRAME_ROOM }
        ensures node { self.new ≡ record {
          node = node_given latest self.old.node now frame.now;
          last = now;
          cache = self.new.cache;
        } }
        ensures answer { Tells frame.now (node_answer latest self.old.node now frame.now) result out.new }
        ensures latest { Uses self.new.cache (head_in frame.now).pid (request_in frame.now) result }
        ensures idle { OnIdle result (self.new.cache ≡ self.old.cache) }
        ensures idle_reads { OnIdle result (reads.new ≡ reads.old) }
        ensures idle_takes { OnIdle result (takes.new ≡ takes.old) }
        ensures hit { Hits self.old.cache (head_in frame.now).pid (request_in frame.now)
            → reads.new ≡ reads.old }
        ensures reads { is_access (request_in frame.now) ≡ true → reads.new ≤ reads.old + 1 }
        ensures takes { is_access (request_in frame.now) ≡ true → takes.new ≤ takes.old + 1 }
    {
        self.keeper.step(now, frame, out, reads, takes)
    }

    /// As `step`, and counts nothing.
    pub fn handle(&mut self, now: u64, frame: &[u8], out: &mut [u8]) -> Outcome
        requires later { self.old.last ≤ now }
        requires room { length out.old ≡ FRAME_ROOM }
        ensures node { self.new ≡ record {
          node = node_given latest self.old.node now frame.now;
          last = now;
          cache = self.new.cache;
        } }
        ensures answer { Tells frame.now (node_answer latest self.old.node now frame.now) result out.new }
    {
        let reads = Blank::new(1);
        let takes = Blank::new(1);
        counted_step::<Brand, Brand>(self, now, frame, out, reads, takes)
    }

    /// The latest moment that the node was given, in ticks.
    pub fn last(&self) -> u64
        ensures moment { result ≡ self.now.last }
        ensures set_up { IsSetUp self.now.node self.now.last }
    {
        self.keeper.last()
    }

    /// Shows bytes of a page of a process, whatever its permission. It is refused exactly where the
    /// page isn't mapped, and then `out` stays as it was.
    pub fn peek(&self, pid: Pid, addr: Addr, out: &mut [u8]) -> Result<(), Refusal>
        requires { IsPiece addr (length out.old) }
        ensures shown { shown_in result out.new ≡ option_map
            (λ page. bytes_at (offset_of addr) (length out.old) (bytes_of page))
            (page_at self.now.node.flat pid (page_of addr)) }
        ensures refused { IfErr result (λ refusal. refusal ≡ NoMapping) }
        ensures kept { OnErr result (out.new ≡ out.old) }
    {
        self.keeper.machine().peek(pid, addr, out)
    }

    /// How many physical pages are taken.
    pub fn used(&self) -> u32
        ensures { result ≡ used self.now.node.flat }
    {
        self.keeper.machine().used()
    }

    /// How many replies are recorded.
    pub fn retained(&self) -> u32
        ensures count { result ≡ length self.now.node.records }
        ensures within { result ≤ self.now.node.retry }
    {
        self.keeper.retained()
    }

    /// The page store in which the node keeps its pages.
    pub fn store(&self) -> &PageStore
        ensures whole { IsWhole result.now }
        ensures ready { IsReady result.now.pool }
        ensures memory { flat_of self.now.node.flat.objects (memory_of result.now) ≡ self.now.node.flat }
        ensures objects { LieIn result.now self.now.node.flat.objects }
        ensures cache { result.now.cache ≡ self.now.cache }
    {
        self.keeper.machine().store()
    }
}

/// A step of the node with these counters.
fn counted_step<A: Ledger, B: Ledger>(
    node: &mut Node,
    now: u64,
    frame: &[u8],
    out: &mut [u8],
    reads: Blank,
    takes: Blank,
) -> Outcome
    requires reads { (reads.name ≡ A.name) × (reads.parts ≡ A.parts) × (0 < reads.parts) }
    requires takes { (takes.name ≡ B.name) × (takes.parts ≡ B.parts) × (0 < takes.parts) }
    requires later { node.old.last ≤ now }
    requires room { length out.old ≡ FRAME_ROOM }
    ensures node { node.new ≡ record {
      node = node_given latest node.old.node now frame.now;
      last = now;
      cache = node.new.cache;
    } }
    ensures answer { Tells frame.now (node_answer latest node.old.node now frame.now) result out.new }
{
    let mut reads = Steps::<A>::create(reads);
    let mut takes = Steps::<B>::create(takes);
    node.step(now, frame, out, &mut reads, &mut takes)
}
