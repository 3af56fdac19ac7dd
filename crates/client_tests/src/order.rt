//! A test of `dep_order`: an order is made where memory is ample, and each call once.

ghost use Rattle.std.specs.Prelude.{◌≡◌, ◌+◌, ◌%◌, ◌<◌, ◌≤◌, None, IfOk};
ghost use Rattle.frame_model.specs.Faults.{first_fault};
ghost use Rattle.client_model.specs.Issue.{call_faults};

use cl_types::call::{AtomicOp, Call};
use cl_types::items::{Bytes, NoMemory};
use cl_types::numbers::{Addr, CallNo};
use dep_order::Order;
use std::alloc::Global;
use std::test::Fail;

/// An atomic on the word at an address.
fn unlock(addr: u32) -> Call
    requires whole { addr % 8 ≡ 0 }
    requires within { addr + 8 ≤ 268435456 }
    ensures { first_fault (call_faults result) ≡ None }
{
    Call::Atomic {
        addr: Addr(addr),
        op: AtomicOp::Unlock,
    }
}

/// A Read of one byte.
fn read(alloc: Global, addr: u32) -> Result<Call, NoMemory>
    requires { addr < 268435456 }
    ensures { IfOk result (λ call. first_fault (call_faults call) ≡ None) }
{
    let mut buf = Bytes::create(alloc);
    buf.push(0)?;
    Ok(Call::Read {
        addr: Addr(addr),
        buf,
    })
}

/// Two Reads of a page, an atomic on it, a Fence, and an atomic on another page: the first two that are ready, and the
/// first that is ready as one after the other ends.
fn goes(alloc: Global) -> Result<([bool; 3], [Option<CallNo>; 5]), NoMemory> {
    let first = read(alloc, 0x1000)?;
    let second = read(alloc, 0x1fff)?;
    let mut order = Order::create(alloc)?;
    order.add(CallNo(1), &first);
    order.add(CallNo(2), &second);
    order.add(CallNo(3), &unlock(0x1000));
    order.add(CallNo(4), &Call::Fence);
    order.add(CallNo(5), &unlock(0x2000));
    let ready = [
        order.ready(CallNo(2)),
        order.ready(CallNo(3)),
        order.ready(CallNo(5)),
    ];
    let all = order.first_ready();
    order.end(CallNo(1));
    let behind_a_read = order.first_ready();
    order.end(CallNo(2));
    let behind_both = order.first_ready();
    order.end(CallNo(3));
    let fence = order.first_ready();
    order.end(CallNo(4));
    Ok((
        ready,
        [all, behind_a_read, behind_both, fence, order.first_ready()],
    ))
}

#[test]
fn a_call_goes_once_those_it_waits_for_have_ended(rt: HostRuntime) -> Result<(), Fail> {
    let first = [
        Some(CallNo(1)),
        Some(CallNo(2)),
        Some(CallNo(3)),
        Some(CallNo(4)),
        Some(CallNo(5)),
    ];
    assert_eq!(rt; goes(rt.alloc())?, ([true, false, false], first));
    Ok(())
}
