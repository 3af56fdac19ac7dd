//! `MemorySink`: a sink that keeps the bytes in memory.

ghost use Rattle.std.specs.Prelude.{◌≡◌, ◌<◌, ◌≤◌, Some, [], length, IsTrue};
ghost use Rattle.cl_outside.specs.Counts.{no_faults};
ghost use Rattle.cl_outside.specs.Sink.{CountsWrite, Writes};
ghost use Rattle.cl_outside.specs.Plan.{fails_next, after_call};
ghost use Rattle.cl_outside.specs.Memory.{Store, TakesAll};

use crate::faults::Faults;
use crate::memory::plan::Plan;
use crate::{Sink, Wrote};
use std::alloc::Global;
use std::marker::Model;

/// Keeps what is written. A write fails where its number, from 1, is in the list of fails, or
/// where there is no memory to keep the piece; another takes the whole piece.
#[derive(Drop)]
pub struct MemorySink {
    bytes: Vec<u8>,
    plan: Plan,
    faults: Faults,
}

impl Model for MemorySink {
    ghost use Rattle.cl_outside.specs.Memory.{Store};

    ghost Value = { Store };

    ghost view = { λ s. record { written = s.bytes.items; plan = s.plan; faults = s.faults } };
}

impl MemorySink {
    /// A sink with nothing written, and no call made yet. It keeps the list, and takes no memory
    /// before the first write.
    pub fn create(alloc: Global, fails: Vec<u64>) -> MemorySink
        ensures { result ≡ record {
          written = [];
          plan = record { fails = fails.items; calls = 0 };
          faults = no_faults;
        } }
    {
        MemorySink {
            bytes: Vec::new(alloc),
            plan: Plan::create(fails),
            faults: Faults::none(),
        }
    }

    /// What was written.
    pub fn bytes(&self) -> &[u8]
        ensures { result.now ≡ self.now.written }
    {
        &self.bytes
    }
}

impl Sink for MemorySink {
    ghost written = { λ s. Some s.written };

    ghost faults = { λ s. s.faults };

    fn write(&mut self, piece: &[u8]) -> Wrote
        requires { 0 < length piece.now }
        ensures bytes { Writes (Some self.old.written) (Some self.new.written) piece.now result }
        ensures cause { CountsWrite self.old.faults self.new.faults result }
        ensures fails { IsTrue (fails_next self.old.plan) → result ≡ Wrote.Failed }
        ensures plan { self.new.plan ≡ after_call self.old.plan }
        ensures whole { TakesAll piece.now result }
    {
        if self.plan.next_fails() || self.bytes.extend_from_slice(piece).is_err() {
            self.faults.fail();
            return Wrote::Failed;
        }
        self.faults.pass();
        Wrote::Put(piece.len())
    }
}
