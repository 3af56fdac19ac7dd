//! One drawn call.

ghost use Rattle.std.specs.Prelude.{◌≡◌, IfOk};
ghost use Rattle.storm_gen.specs.Generated.{call_drawn, draw, fence_or_lock, write_drawn};

use crate::choice::Choice;
use crate::draws::draw;
use cl_types::call::AtomicOp;
use cl_types::items::{Bytes, NoMemory};
use cl_types::schedule::{CallText, Written};
use rand_pcg::Pcg32;
use std::alloc::Global;

/// Draws a byte, and makes a Write of it, so many times over as the choice says.
fn write_drawn(alloc: Global, choice: &Choice, rng: &mut Pcg32) -> Result<CallText, NoMemory>
    ensures { IfOk result (λ call. (call, rng.new) ≡ write_drawn choice.now (draw 256 rng.old)) }
{
    let value = draw(rng, 256);
    let mut bytes = Bytes::create(alloc);
    bytes.push(value as u8)?;
    Ok(CallText::Write {
        addr: choice.addr,
        bytes: Written {
            bytes,
            times: choice.len,
        },
    })
}

/// Draws whether the call is a Fence or a Lock.
fn fence_or_lock(choice: &Choice, rng: &mut Pcg32) -> CallText
    ensures { (result, rng.new) ≡ fence_or_lock choice.now (draw 8 rng.old) }
{
    if draw(rng, 8) == 0 {
        return CallText::Fence;
    }
    CallText::Atomic {
        addr: choice.addr,
        op: AtomicOp::Lock,
    }
}

/// The call of this choice, with what its kind draws besides.
pub fn call_drawn(alloc: Global, choice: &Choice, rng: &mut Pcg32) -> Result<CallText, NoMemory>
    ensures { IfOk result (λ call. (call, rng.new) ≡ call_drawn choice.now rng.old) }
{
    if choice.kind < 3 {
        return Ok(CallText::Read {
            addr: choice.addr,
            len: choice.len,
        });
    }
    if choice.kind < 6 {
        return write_drawn(alloc, choice, rng);
    }
    if choice.kind == 6 {
        return Ok(CallText::Atomic {
            addr: choice.addr,
            op: AtomicOp::Add { n: 1 },
        });
    }
    Ok(fence_or_lock(choice, rng))
}
