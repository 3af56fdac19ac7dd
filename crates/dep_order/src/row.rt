//! What an order keeps of a call, and when one call waits for another.

ghost use Rattle.std.specs.Prelude.{◌≡◌, ◌+◌, ◌≤◌, false, None};
ghost use Rattle.frame_model.specs.Faults.{first_fault};
ghost use Rattle.client_model.specs.Issue.{call_faults};
ghost use Rattle.client_model.specs.Order.{footprint, share_page, offloads_conflict, waits_for, collide as collide_of, pages_over as pages_over_of};
ghost use Rattle.dep_order.specs.Rows.{pages_of, print_of};
ghost use Rattle.dep_order.specs.WaitLists.{AreFit};

use cl_types::call::Call;
use cl_types::limits::{ADDRESS_END, CALL_BYTES, PAGE_BYTES};
use cl_types::numbers::{Addr, CallNo};

/// What the order of a call rests on.
#[derive(Clone, Copy)]
pub struct WaitRow {
    pub no: CallNo,
    /// The pages that it reaches or names.
    pub pages: Pages,
    pub reads: bool,
    pub fence: bool,
    /// Of an Offload its number, and whether its operation is odd.
    pub offload: Option<(u8, bool)>,
}

/// The pages from `from` to before `end`, both page numbers of one space; none where `end` is no
/// greater.
#[derive(Clone, Copy)]
pub struct Pages {
    pub from: u32,
    pub end: u32,
}

const NO_PAGES: Pages = Pages { from: 0, end: 0 };

/// A row with no pages, no offload and no Fence.
pub const NO_ROW: WaitRow = WaitRow {
    no: CallNo(0),
    pages: NO_PAGES,
    reads: false,
    fence: false,
    offload: None,
};

/// What the order of a good call rests on.
pub fn row_of(no: CallNo, call: &Call) -> WaitRow
    requires { first_fault (call_faults call.now) ≡ None }
    ensures print { print_of result ≡ (no.0, footprint call.now) }
    ensures fit { AreFit result.pages }
{
    match call {
        Call::Free { addr, pages } => {
            let from = addr.0 / PAGE_BYTES;
            let end = from + *pages;
            touching(no, Pages { from, end }, false)
        }
        Call::Read { addr, buf } => touching(
            no,
            pages_over(*addr, buf.as_slice().len() as u32),
            true,
        ),
        Call::Write { addr, bytes } => touching(
            no,
            pages_over(*addr, bytes.as_slice().len() as u32),
            false,
        ),
        Call::Atomic { addr, .. } => touching(no, pages_over(*addr, 8), false),
        Call::Offload { no: number, op, .. } => WaitRow {
            offload: Some((*number, *op % 2 == 1)),
            ..touching(no, NO_PAGES, false)
        },
        Call::Fence => WaitRow {
            fence: true,
            ..touching(no, NO_PAGES, false)
        },
        Call::Alloc { .. } => touching(no, NO_PAGES, false),
    }
}

/// A call that uses these pages, and no offload.
fn touching(no: CallNo, pages: Pages, reads: bool) -> WaitRow
    requires { AreFit pages }
    ensures print { print_of result
        ≡ (no.0, record { pages = pages_of pages; reads = reads; fence = false; offload = None }) }
    ensures fit { AreFit result.pages }
{
    WaitRow {
        no,
        pages,
        reads,
        fence: false,
        offload: None,
    }
}

/// The pages of `bytes` bytes at an address.
fn pages_over(addr: Addr, bytes: u32) -> Pages
    requires within { addr.0 + bytes ≤ ADDRESS_END }
    requires few { bytes ≤ CALL_BYTES }
    ensures pages { pages_of result ≡ pages_over_of addr.0 bytes }
    ensures fit { AreFit result }
{
    Pages {
        from: addr.0 / PAGE_BYTES,
        end: (addr.0 + bytes + (PAGE_BYTES - 1)) / PAGE_BYTES,
    }
}

/// Whether the later call waits for the earlier one.
pub fn waits(earlier: &WaitRow, later: &WaitRow) -> bool
    ensures { result ≡ waits_for (print_of earlier.now).1 (print_of later.now).1 }
{
    collide(earlier, later) || earlier.fence || later.fence
}

/// Whether the calls may not pass each other, for a page or an offload that both use.
fn collide(a: &WaitRow, b: &WaitRow) -> bool
    ensures { result ≡ collide_of (print_of a.now).1 (print_of b.now).1 }
{
    share_a_page(a.pages, b.pages) && !(a.reads && b.reads)
        || offloads_collide(a.offload, b.offload)
}

/// Whether a page is among both.
#[tactic(auto, using(crate::proofs::Overlaps::overlap))]
fn share_a_page(a: Pages, b: Pages) -> bool
    ensures { result ≡ share_page (pages_of a) (pages_of b) }
{
    a.from.max(b.from) < a.end.min(b.end)
}

/// Whether both are of one offload, and an operation is odd.
fn offloads_collide(a: Option<(u8, bool)>, b: Option<(u8, bool)>) -> bool
    ensures { result ≡ offloads_conflict a b }
{
    let Some((number, odd)) = a else {
        return false;
    };
    let Some((other, other_odd)) = b else {
        return false;
    };
    number == other && (odd || other_odd)
}
