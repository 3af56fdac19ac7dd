//! `MemorySource`: a source over bytes in memory.

ghost use Rattle.std.specs.Prelude.{◌≡◌, ◌<◌, ◌≤◌, ◌↔◌, Some, length, IsTrue};
ghost use Rattle.cl_outside.specs.Counts.{no_faults};
ghost use Rattle.cl_outside.specs.Source.{CountsRead, Reads};
ghost use Rattle.cl_outside.specs.Plan.{fails_next, after_call};
ghost use Rattle.cl_outside.specs.Memory.{Feed, GivesWhatFits};

use crate::faults::Faults;
use crate::front::copy_front;
use crate::memory::plan::Plan;
use crate::{Read, Source};
use std::marker::Model;

/// Gives these bytes. A read fails exactly where its number, from 1, is in the list of fails, and
/// another gives as many bytes as fit.
#[derive(Drop)]
pub struct MemorySource {
    bytes: Vec<u8>,
    // How many of the bytes were given.
    at: usize,
    plan: Plan,
    faults: Faults,
}

impl Model for MemorySource {
    ghost use Rattle.std.specs.Prelude.{◌≤◌, drop, length};
    ghost use Rattle.cl_outside.specs.Memory.{Feed};

    ghost Value = { Feed };

    ghost view = { λ s. record {
      left = drop s.at s.bytes.items;
      plan = s.plan;
      faults = s.faults;
    } };

    ghost invariant = { λ s. s.at ≤ length s.bytes.items };
}

impl MemorySource {
    /// A source of all of these bytes, with no call made yet. It keeps both lists.
    pub fn create(bytes: Vec<u8>, fails: Vec<u64>) -> MemorySource
        ensures { result ≡ record {
          left = bytes.items;
          plan = record { fails = fails.items; calls = 0 };
          faults = no_faults;
        } }
    {
        MemorySource {
            bytes,
            at: 0,
            plan: Plan::create(fails),
            faults: Faults::none(),
        }
    }
}

impl Source for MemorySource {
    ghost left = { λ s. Some s.left };

    ghost faults = { λ s. s.faults };

    #[tactic(auto, using(crate::proofs::FrontLemmas::front_off))]
    fn read(&mut self, buf: &mut [u8]) -> Read
        requires { 0 < length buf.old }
        ensures bytes { Reads (Some self.old.left) (Some self.new.left) buf.new result }
        ensures cause { CountsRead self.old.faults self.new.faults result }
        ensures fails { (result ≡ Read.Failed) ↔ IsTrue (fails_next self.old.plan) }
        ensures plan { self.new.plan ≡ after_call self.old.plan }
        ensures fits { GivesWhatFits self.old.left buf.old result }
    {
        if self.plan.next_fails() {
            self.faults.fail();
            return Read::Failed;
        }
        let (_, left) = self.bytes.split_at(self.at);
        let count = copy_front(left, buf);
        self.faults.pass();
        if count == 0 {
            return Read::End;
        }
        self.at += count;
        Read::Got(count)
    }
}
