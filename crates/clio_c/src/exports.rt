//! The functions of `clio.h`.

ghost use Rattle.std.specs.Prelude.{◌≡◌, ◌==◌, ◌<◌, ◌≤◌, not, length, leb, slice_get, Some};
ghost use Rattle.cl_types.specs.declared.limits.TheConstants.{FRAME_ROOM, HELD_CALLS};
ghost use Rattle.cl_types.specs.declared.call.Call.TheVariants.{Fence};
ghost use Rattle.client_model.specs.Client.{held};
ghost use Rattle.client_core.specs.Answers.{heard_answer, heard_as};
ghost use Rattle.clio_c.specs.Asking.{IsTold, alloc_call, atomic_call, free_call, offload_call, read_call, write_call};
ghost use Rattle.clio_c.specs.Creating.{is_client};
ghost use Rattle.clio_c.specs.Numbers.{heard_number as number_heard};
ghost use Rattle.clio_c.specs.Turning.{HadNoRoom, HandsOut, Polls};

use crate::asked::{ask_alloc, ask_atomic, ask_offload, ask_read, ask_write};
use crate::codes::{NO_MEMORY, OK, heard_number};
use crate::creating::{make, status_of};
use crate::handle::{Handle, address};
use crate::issuing::{issue_call, tell};
use crate::turns::{Ended, Polled, hand_out, poll};
use cl_types::call::Call;
use cl_types::numbers::Addr;
use std::alloc::Global;

/// The version of the exports.
const ABI_VERSION: u32 = 1;

/// The version of the exports, which rises where one of them changes.
#[unsafe(no_mangle)]
pub extern "C" fn clio_abi_version() -> u32
    ensures { result ≡ 1 }
{
    ABI_VERSION
}

/// Makes a client that has issued no call, whose first sending has the id `first_id`. A process that
/// is not 1 to `LAST_PID`, or a first id that is not 1 to `LAST_FIRST_ID`, is a bad argument.
#[unsafe(no_mangle)]
pub extern "C" fn clio_create(
    alloc: Global,
    client: u16,
    pid: u16,
    first_id: u64,
    out: &mut *mut u8,
) -> u32
    ensures bad { (result == 101) ≡ not (is_client pid first_id) }
    ensures unchanged { 0 < result → out.new ≡ out.old }
{
    let client = match make(alloc, client, pid, first_id) {
        Ok(client) => client,
        Err(cause) => return status_of(cause),
    };
    let Ok(client) = Box::new(alloc, client) else {
        return NO_MEMORY;
    };
    *out = address(Box::into_raw(client));
    OK
}

/// Ends a client, and gives back its memory.
#[unsafe(no_mangle)]
pub extern "C" fn clio_free(client: Handle) {
    let _client = client.into_box();
}

/// Issues an Alloc.
#[unsafe(no_mangle)]
pub extern "C" fn clio_alloc(client: Handle, pages: u32, perm: u8, call: &mut u32) -> u32
    ensures { IsTold (alloc_call pages perm) client.value result call.old call.new }
{
    let mut client = client.into_box();
    let issued = ask_alloc(&mut client, pages, perm);
    let _kept = Box::leak(client);
    tell(issued, call)
}

/// Issues a Free.
#[unsafe(no_mangle)]
pub extern "C" fn clio_free_pages(client: Handle, addr: u32, pages: u32, call: &mut u32) -> u32
    ensures { IsTold (Some (free_call addr pages)) client.value result call.old call.new }
{
    let mut client = client.into_box();
    let issued = issue_call(
        &mut client,
        Call::Free {
            addr: Addr(addr),
            pages,
        },
    );
    let _kept = Box::leak(client);
    tell(issued, call)
}

/// Issues a Read.
#[unsafe(no_mangle)]
pub extern "C" fn clio_read(
    alloc: Global,
    client: Handle,
    addr: u32,
    len: u32,
    call: &mut u32,
) -> u32
    ensures { IsTold (Some (read_call addr len)) client.value result call.old call.new }
{
    let mut client = client.into_box();
    let issued = ask_read(alloc, &mut client, addr, len);
    let _kept = Box::leak(client);
    tell(issued, call)
}

/// Issues a Write of a copy of the bytes.
#[unsafe(no_mangle)]
pub extern "C" fn clio_write(
    alloc: Global,
    client: Handle,
    addr: u32,
    bytes: &[u8],
    call: &mut u32,
) -> u32
    ensures { IsTold (Some (write_call addr bytes.now)) client.value result call.old call.new }
{
    let mut client = client.into_box();
    let issued = ask_write(alloc, &mut client, addr, bytes);
    let _kept = Box::leak(client);
    tell(issued, call)
}

/// Issues an Atomic.
#[unsafe(no_mangle)]
pub extern "C" fn clio_atomic(
    client: Handle,
    addr: u32,
    op: u8,
    a: u64,
    b: u64,
    call: &mut u32,
) -> u32
    ensures { IsTold (atomic_call addr op a b) client.value result call.old call.new }
{
    let mut client = client.into_box();
    let issued = ask_atomic(&mut client, addr, op, a, b);
    let _kept = Box::leak(client);
    tell(issued, call)
}

/// Issues an Offload of a copy of the bytes, with room for `room` bytes of answer.
#[unsafe(no_mangle)]
pub extern "C" fn clio_offload(
    alloc: Global,
    client: Handle,
    object: u8,
    op: u8,
    bytes: &[u8],
    room: u32,
    call: &mut u32,
) -> u32
    ensures { IsTold (Some (offload_call object op bytes.now room)) client.value result call.old call.new }
{
    let mut client = client.into_box();
    let issued = ask_offload(alloc, &mut client, object, op, bytes, room);
    let _kept = Box::leak(client);
    tell(issued, call)
}

/// Issues a Fence.
#[unsafe(no_mangle)]
pub extern "C" fn clio_fence(client: Handle, call: &mut u32) -> u32
    ensures { IsTold (Some Fence) client.value result call.old call.new }
{
    let mut client = client.into_box();
    let issued = issue_call(&mut client, Call::Fence);
    let _kept = Box::leak(client);
    tell(issued, call)
}

/// Does the first thing that is due at the moment `now`, in ticks, or at the client's latest moment
/// where `now` is before that.
#[unsafe(no_mangle)]
pub extern "C" fn clio_poll(client: Handle, now: u64, out: &mut [u8], told: &mut Polled)
    ensures polls { FRAME_ROOM ≤ length out.old
        → Polls client.value now out.old out.new told.new }
    ensures short { length out.old < FRAME_ROOM → HadNoRoom out.old out.new told.new }
{
    let mut client = client.into_box();
    *told = poll(&mut client, now, out);
    let _kept = Box::leak(client);
}

/// Hears a frame.
#[unsafe(no_mangle)]
pub extern "C" fn clio_hear(client: Handle, frame: &[u8]) -> u32
    ensures { result ≡ number_heard (heard_answer client.value (heard_as client.value frame.now)) }
{
    let mut client = client.into_box();
    let heard = client.hear(frame);
    let _kept = Box::leak(client);
    heard_number(heard)
}

/// Hands out the call that ended first, and tells whether there was one.
#[unsafe(no_mangle)]
pub extern "C" fn clio_done(client: Handle, out: &mut [u8], ended: &mut Ended) -> bool
    ensures { HandsOut (slice_get client.value.ended 0) result out.old out.new ended.old ended.new }
{
    let mut client = client.into_box();
    let there = hand_out(&mut client, out, ended);
    let _kept = Box::leak(client);
    there
}

/// Whether the client holds as many calls as it may.
#[unsafe(no_mangle)]
pub extern "C" fn clio_is_full(client: Handle) -> bool
    ensures { result ≡ leb HELD_CALLS (held client.value) }
{
    let client = client.into_box();
    let full = client.is_full();
    let _kept = Box::leak(client);
    full
}

/// Whether the client holds no call.
#[unsafe(no_mangle)]
pub extern "C" fn clio_is_empty(client: Handle) -> bool
    ensures { result ≡ (held client.value == 0) }
{
    let client = client.into_box();
    let empty = client.is_empty();
    let _kept = Box::leak(client);
    empty
}
