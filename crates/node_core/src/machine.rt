//! `Machine`: what executes the requests of a node.

ghost use Rattle.std.specs.Prelude.{◌≡◌, ◌+◌, ◌≤◌, true, length, IsTrue};
ghost use Rattle.cl_types.specs.Requests.{request_of};
ghost use Rattle.cl_types.specs.declared.limits.TheConstants.{FRAME_ROOM};
ghost use Rattle.frame_model.specs.Frames.{kind_of};
ghost use Rattle.cl_types.specs.Ranges.{is_in_range};
ghost use Rattle.flat_model.specs.Step.{outcome};
ghost use Rattle.node_core.specs.Keeping.{Hits, IsUsed};
ghost use Rattle.node_core.specs.Placed.{may_place, placed_in, is_access};

use crate::placed::PlacedReply;
use cl_types::numbers::Pid;
use cl_types::request::RequestRef;
use cl_types::steps::Steps;
use std::sync::ledger::Ledger;

/// A flat machine: address spaces of processes, and the objects of the offloads.
pub trait Machine {
    ghost use Rattle.flat_model.specs.State.{FlatState};
    ghost use Rattle.translate_cache.specs.Cached.{Cached};

    /// What it means.
    ghost flat: { Self → FlatState };

    /// The entries of its page table that were used of late.
    ghost cache: { Self → Cached };

    /// Executes a request of a process. The bytes of its reply, where it has any, are put at their
    /// place in the frame `out`; what else stands in `out` is not told.
    fn execute<A: Ledger, B: Ledger>(
        &mut self,
        pid: Pid,
        request: &RequestRef,
        out: &mut [u8],
        reads: &mut Steps<A>,
        takes: &mut Steps<B>,
    ) -> PlacedReply
        requires range { IsTrue (is_in_range (request_of request.now)) }
        requires room { length out.old ≡ FRAME_ROOM }
        ensures reply { placed_in result out.new
            ≡ (outcome (flat self.old) pid (request_of request.now)).reply }
        ensures state { flat self.new
            ≡ (outcome (flat self.old) pid (request_of request.now)).state }
        ensures fits { IsTrue (may_place (kind_of (request_of request.now)) result) }
        ensures latest { IsUsed (cache self.new) pid (request_of request.now) }
        ensures hit { Hits (cache self.old) pid (request_of request.now) → reads.new ≡ reads.old }
        ensures reads { is_access (request_of request.now) ≡ true → reads.new ≤ reads.old + 1 }
        ensures takes { is_access (request_of request.now) ≡ true → takes.new ≤ takes.old + 1 };
}
