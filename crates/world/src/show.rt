//! Events that only show, and the passing of time.

ghost use Rattle.std.specs.Prelude.{◌≡◌, ◌+◌, ◌<◌, ◌≤◌, ◌^◌, IfOk, length};
ghost use Rattle.data_path.specs.Access.{IsPiece};
ghost use Rattle.cl_types.specs.Pages.{page_of};
ghost use Rattle.flat_model.specs.State.{page_at, used};
ghost use Rattle.link_sim.specs.LinkFrames.{frame_at};
ghost use Rattle.world.specs.Fields.{world_of};
ghost use Rattle.world.specs.Running.{stepped};
ghost use Rattle.world.specs.Worlds.{peeked, frame_shown, ticked};

use crate::whole::{Whole, alone};
use call_text::{copied, zeros};
use cl_types::items::NoMemory;
use cl_types::line::{Did, EventLine};
use cl_types::numbers::{Addr, Pid};
use link_sim::Got;
use std::alloc::Global;

impl Whole {
    /// Time goes on.
    pub fn tick(&mut self, by: u64) -> EventLine
        requires room { self.old.moment + by < 2 ^ 64 }
        ensures step { stepped result (world_of self.new) ≡ ticked (world_of self.old) by }
        ensures node { self.new.node ≡ self.old.node }
        ensures moment { self.old.moment ≤ self.new.moment }
        ensures clients { self.new.clients ≡ self.old.clients }
    {
        self.moment += by;
        alone(Did::Now {
            moment: self.moment,
        })
    }

    /// The bytes of a page, whatever its permission.
    pub fn peek(&self, alloc: Global, pid: Pid, addr: Addr, len: u16) -> Result<Did, NoMemory>
        requires { IsPiece addr len }
        ensures { let page = page_at self.now.node.node.flat pid (page_of addr) in
            IfOk result (λ did. did ≡ peeked addr len page) }
    {
        let mut bytes = zeros(alloc, len as u32)?;
        if self.node.peek(pid, addr, bytes.as_mut_slice()).is_err() {
            return Ok(Did::PeekNoMapping);
        }
        Ok(Did::Peeked { bytes })
    }

    /// The bytes of a frame. At moment 0 no frame is old, so that it is shown, live or not.
    #[tactic(auto, using(crate::proofs::ShowLemmas::shown_live, crate::proofs::ShowLemmas::shown_absent, crate::proofs::ShowLemmas::shown_expired))]
    pub fn show(&self, alloc: Global, frame: u32) -> Result<Did, NoMemory>
        ensures { IfOk result (λ did. did ≡ frame_shown frame (frame_at self.now.link frame)) }
    {
        match self.link.get(0, frame) {
            Got::Live { bytes, .. } => {
                let bytes = copied(alloc, bytes)?;
                Ok(Did::Shown { frame, bytes })
            }
            Got::Expired { .. } => Ok(Did::ShownAbsent { frame }),
            Got::Absent => Ok(Did::ShownAbsent { frame }),
        }
    }

    /// The numbers of the node.
    pub fn stat(&self) -> Did
        ensures { result
            ≡ Did.Stat (used self.now.node.node.flat) (length self.now.node.node.records) }
    {
        Did::Stat {
            used: self.node.used(),
            retained: self.node.retained(),
        }
    }
}
