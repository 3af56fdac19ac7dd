//! `Host`: the objects of a node's offloads.

ghost use Rattle.std.specs.Prelude.{◌≡◌, ◌*◌, ◌%◌, ◌<◌, ◌≤◌, IfErr, IfOk, IfSome, None, Some, length, slice_get};
ghost use Rattle.cl_types.specs.Config.{first_bad, judged_offload, offload_pages};
ghost use Rattle.cl_types.specs.declared.limits.TheConstants.{PAGE_BYTES, PART_BYTES};
ghost use Rattle.flat_model.specs.Opening.{pages_at};
ghost use Rattle.kv_offload.specs.declared.layout.TheConstants.{MOST_RECORDS};
ghost use Rattle.offload_host.specs.Held.{AreOffloads, HoldsEmpty, HoldsObject, TakesStep, records_of};
ghost use Rattle.offload_host.specs.declared.store.TheConstants.{SMALL_BYTES};

use crate::store::step;
use cl_types::config::{OffloadConfig, OffloadList, pages_of};
use cl_types::items::NoMemory;
use cl_types::limits::PART_BYTES;
use cl_types::reply::Refusal;
use cl_types::space::Space;
use kv_offload::Kv;
use std::alloc::Global;
use std::marker::Model;

/// The objects of a node's offloads, by number from 0. Their bytes lie in spaces that are lent to the calls.
#[derive(Drop)]
pub struct Host {
    offloads: Vec<OffloadConfig>,
}

impl Model for Host {
    ghost use Rattle.std.specs.Prelude.{List};
    ghost use Rattle.cl_types.specs.declared.config.OffloadConfig.{OffloadConfig};
    ghost use Rattle.kv_offload.specs.declared.layout.TheConstants.{MOST_RECORDS};
    ghost use Rattle.offload_host.specs.Held.{AreOffloads};

    ghost Value = { List OffloadConfig };

    ghost view = { λ host. host.offloads.items };

    ghost invariant = { λ host. AreOffloads host.offloads.items };
}

/// The store that an offload is.
fn store_of(offload: OffloadConfig) -> Kv
    requires { records_of offload ≤ MOST_RECORDS }
    ensures { offload ≡ OffloadConfig.Kv result.records }
{
    let OffloadConfig::Kv { records } = offload;
    Kv {
        records: records as u32,
    }
}

/// Makes a space the empty object of an offload.
fn init_object<P: Space>(offload: OffloadConfig, space: &mut P)
    requires in_range { first_bad (judged_offload offload) ≡ None }
    requires pages { offload_pages offload * PAGE_BYTES ≤ length (P.contents space.old) }
    requires honest { P.honest space.old }
    ensures object { HoldsObject offload (P.contents space.new) }
    ensures empty { HoldsEmpty offload (P.contents space.new) }
    ensures rest { P.rest space.new ≡ P.rest space.old }
    ensures honest { P.honest space.new }
{
    store_of(offload).init(space);
}

/// Takes one step of an offload's object.
fn step_object<P: Space>(
    offload: OffloadConfig,
    op: u8,
    bytes: &[u8],
    space: &mut P,
    out: &mut [u8; PART_BYTES as usize],
) -> Result<usize, Refusal>
    requires object { HoldsObject offload (P.contents space.old) }
    requires honest { P.honest space.old }
    ensures step { TakesStep offload (P.contents space.old) op bytes.now
        result out.new (P.contents space.new) }
    ensures within { IfOk result (λ len. len ≤ PART_BYTES) }
    ensures short { op % 2 ≡ 1 → IfOk result (λ len. len ≤ SMALL_BYTES) }
    ensures refused { IfErr result (λ _. P.contents space.new ≡ P.contents space.old) }
    ensures object { HoldsObject offload (P.contents space.new) }
    ensures rest { P.rest space.new ≡ P.rest space.old }
    ensures honest { P.honest space.new }
{
    step(store_of(offload), op, bytes, space, out)
}

impl Host {
    /// The host of these offloads, at most 16, with numbers in range. `NoMemory` comes where an allocation was refused.
    pub fn create(alloc: Global, offloads: &OffloadList) -> Result<Host, NoMemory>
        requires { AreOffloads offloads.now }
        ensures { IfOk result (λ host. host ≡ offloads.now) }
    {
        let mut copy = Vec::new(alloc);
        copy.extend_from_slice(offloads.as_slice())?;
        Ok(Host { offloads: copy })
    }

    /// How many offloads there are: at most 16, which have the numbers below it.
    pub fn count(&self) -> u8
        ensures { result ≡ length self.now }
    {
        self.offloads.len() as u8
    }

    // The offload of this number.
    fn offload(&self, no: u8) -> OffloadConfig
        requires { no < length self.now }
        ensures there { slice_get self.now no ≡ Some result }
        ensures in_range { first_bad (judged_offload result) ≡ None }
    {
        self.offloads[no as usize]
    }

    /// How many pages the space of an offload has.
    #[tactic(auto, using(crate::proofs::HostLemmas::pages_there))]
    pub fn pages(&self, no: u8) -> u32
        requires { no < length self.now }
        ensures { result ≡ pages_at self.now no }
    {
        pages_of(&self.offload(no))
    }

    /// Makes the space of an offload hold its object as it is at the opening.
    pub fn init<P: Space>(&self, no: u8, space: &mut P)
        requires exists { no < length self.now }
        requires pages { pages_at self.now no * PAGE_BYTES ≤ length (P.contents space.old) }
        requires honest { P.honest space.old }
        ensures object { IfSome (slice_get self.now no) (λ offload.
            HoldsObject offload (P.contents space.new)) }
        ensures empty { IfSome (slice_get self.now no) (λ offload.
            HoldsEmpty offload (P.contents space.new)) }
        ensures rest { P.rest space.new ≡ P.rest space.old }
        ensures honest { P.honest space.new }
    {
        init_object(self.offload(no), space);
    }

    /// Takes one step of the object in the space of an offload. An answer stands at the front of `out`, and its length
    /// is given. A refusal is the object's, and leaves the space's bytes.
    pub fn call<P: Space>(
        &mut self,
        no: u8,
        op: u8,
        bytes: &[u8],
        space: &mut P,
        out: &mut [u8; PART_BYTES as usize],
    ) -> Result<usize, Refusal>
        requires exists { no < length self.old }
        requires object { IfSome (slice_get self.old no) (λ offload.
            HoldsObject offload (P.contents space.old)) }
        requires honest { P.honest space.old }
        ensures step { IfSome (slice_get self.old no) (λ offload.
            TakesStep offload (P.contents space.old) op bytes.now
            result out.new (P.contents space.new)) }
        ensures within { IfOk result (λ len. len ≤ PART_BYTES) }
        ensures short { op % 2 ≡ 1 → IfOk result (λ len. len ≤ SMALL_BYTES) }
        ensures refused { IfErr result (λ _. P.contents space.new ≡ P.contents space.old) }
        ensures object { IfSome (slice_get self.old no) (λ offload.
            HoldsObject offload (P.contents space.new)) }
        ensures host { self.new ≡ self.old }
        ensures rest { P.rest space.new ≡ P.rest space.old }
        ensures honest { P.honest space.new }
    {
        step_object(self.offload(no), op, bytes, space, out)
    }
}
