//! `Memory`: the pages and the objects of a node, as a machine.

ghost use Rattle.std.specs.Prelude.{◌≡◌, ◌+◌, ◌<◌, ◌≤◌, None, Err, IfErr, IfOk, MatchOption, OnErr};
ghost use Rattle.std.specs.Prelude.{length, option_map};
ghost use Rattle.cl_types.specs.Bytes.{bytes_at};
ghost use Rattle.cl_types.specs.Config.{bad_number_of};
ghost use Rattle.cl_types.specs.Requests.{request_of};
ghost use Rattle.cl_types.specs.declared.limits.TheConstants.{ADDRESS_END, PAGE_BYTES};
ghost use Rattle.cl_types.specs.declared.reply.Refusal.TheVariants.{NoMapping};
ghost use Rattle.data_path.specs.Access.{IsPiece};
ghost use Rattle.data_path.specs.Store.{IsWhole, flat_of, memory_of, no_entries};
ghost use Rattle.flat_model.specs.Opening.{open_fault};
ghost use Rattle.cl_types.specs.Pages.{offset_of, page_of};
ghost use Rattle.flat_model.specs.State.{bytes_of, opening, page_at, used};
ghost use Rattle.node_core.specs.Keeping.{LieIn, shown_in};
ghost use Rattle.node_core.specs.Placed.{is_offload};
ghost use Rattle.page_pool.specs.PoolPages.{IsReady};

use crate::machine::Machine;
use crate::placed::PlacedReply;
use crate::{offloads, pages};
use cl_types::config::NodeConfig;
use cl_types::numbers::{Addr, Pid, Space16};
use cl_types::open_fault::OpenFault;
use cl_types::reply::Refusal;
use cl_types::request::RequestRef;
use cl_types::steps::Steps;
use data_path::{PageStore, offset_of, page_of};
use offload_host::Host;
use std::alloc::Global;
use std::marker::Model;
use std::sync::ledger::Ledger;

/// The pages of a node and its objects. A clause sees them as the flat state that they mean,
/// and the entries of the page table that were used of late.
#[derive(Drop)]
pub struct Memory {
    store: PageStore,
    // The objects, each of which lies in the space of its offload.
    host: Host,
    // How many physical pages there are.
    pages: u32,
}

impl Model for Memory {
    ghost use Rattle.node_core.specs.Keeping.{KeptMemory};
    ghost use Rattle.node_core.specs.Stores.{FieldsFit, state_in};

    ghost Value = { KeptMemory };

    ghost view = { λ m. record { flat = state_in m.host m.store; cache = m.store.cache } };

    ghost invariant = { λ m. FieldsFit m.store m.host m.pages };
}

/// Whether it is a request of an object.
fn is_offload(request: &RequestRef) -> bool
    ensures { result ≡ is_offload (request_of request.now) }
{
    matches!(*request, RequestRef::Offload { .. })
}

impl Memory {
    /// The memory of a node at its opening, or why it doesn't open: a bad number, and an offload
    /// without room, is told whether there is memory or not.
    pub fn create(alloc: Global, config: &NodeConfig) -> Result<Memory, OpenFault>
        ensures opened { IfOk result (λ memory. memory.flat ≡ opening config.now) }
        ensures cache { IfOk result (λ memory. memory.cache ≡ no_entries) }
        ensures good { IfOk result (λ memory. bad_number_of config.now ≡ None) }
        ensures fault { MatchOption (open_fault config.now)
            (IfErr result (λ fault. fault ≡ OpenFault.NoMemory)) (λ fault. result ≡ Err fault) }
    {
        let mut store = PageStore::create(alloc, config)?;
        let host = Host::create(alloc, &config.offloads)?;
        offloads::init_spaces(&mut store, &host);
        Ok(Memory {
            store,
            host,
            pages: config.pages as u32,
        })
    }

    /// The page store in which the pages are kept.
    pub fn store(&self) -> &PageStore
        ensures whole { IsWhole result.now }
        ensures ready { IsReady result.now.pool }
        ensures memory { flat_of self.now.flat.objects (memory_of result.now) ≡ self.now.flat }
        ensures objects { LieIn result.now self.now.flat.objects }
        ensures cache { result.now.cache ≡ self.now.cache }
    {
        &self.store
    }

    /// How many physical pages are taken.
    pub fn used(&self) -> u32
        ensures { result ≡ used self.now.flat }
    {
        self.pages - self.store.pool.free_count()
    }

    /// Shows bytes of a page of a process, whatever its permission. It is refused exactly where the
    /// page isn't mapped, and then `out` stays as it was.
    pub fn peek(&self, pid: Pid, addr: Addr, out: &mut [u8]) -> Result<(), Refusal>
        requires { IsPiece addr (length out.old) }
        ensures shown { shown_in result out.new ≡ option_map
            (λ page. bytes_at (offset_of addr) (length out.old) (bytes_of page))
            (page_at self.now.flat pid (page_of addr)) }
        ensures refused { IfErr result (λ refusal. refusal ≡ NoMapping) }
        ensures kept { OnErr result (out.new ≡ out.old) }
    {
        let space = Space16(pid.number());
        let Some(pte) = self.store.table.peek(space, page_of(addr)) else {
            return Err(Refusal::NoMapping);
        };
        self.store.show(pte, offset_of(addr), out);
        Ok(())
    }
}

impl Machine for Memory {
    ghost flat = { λ m. m.flat };

    ghost cache = { λ m. m.cache };

    fn execute<A: Ledger, B: Ledger>(
        &mut self,
        pid: Pid,
        request: &RequestRef,
        out: &mut [u8],
        reads: &mut Steps<A>,
        takes: &mut Steps<B>,
    ) -> PlacedReply {
        if is_offload(request) {
            return offloads::execute(&mut self.store, &mut self.host, request, out);
        }
        pages::execute(&mut self.store, pid, request, out, reads, takes)
    }
}
