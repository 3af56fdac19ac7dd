//! The buffer of a call, in which the bytes of replies are put together.

ghost use Rattle.std.specs.Prelude.{◌≡◌, ◌+◌, ◌-◌, ◌≤◌, ◌++◌, take, length, None};
ghost use Rattle.cl_types.specs.Bytes.{with_bytes, zeros};
ghost use Rattle.cl_types.specs.declared.reply.Reply.TheVariants.{Got};
ghost use Rattle.client_model.specs.Client.{emptied};
ghost use Rattle.frame_model.specs.Faults.{first_fault};
ghost use Rattle.client_model.specs.Issue.{call_faults};
ghost use Rattle.call_cut.specs.Taking.{TakesFor, call_with};

use crate::pieces::piece_at;
use cl_types::call::Call;
use cl_types::items::Bytes;

/// Puts bytes into a buffer, from an offset on.
fn put(buf: &mut Bytes, from: u32, bytes: &[u8])
    requires { from + length bytes.now ≤ length buf.old }
    ensures { buf.new ≡ with_bytes from bytes.now buf.old }
{
    let from = from as usize;
    let end = from + bytes.len();
    buf.as_mut_slice()[from..end].copy_from_slice(bytes);
}

/// Makes all bytes of a buffer 0 from an offset on.
pub fn zero_from(buf: &mut Bytes, from: u32)
    requires { from ≤ length buf.old }
    ensures { buf.new ≡ take from buf.old ++ zeros (length buf.old - from) }
{
    buf.as_mut_slice()[from as usize..].fill(0);
}

/// Makes the buffer of a call all zeros.
pub fn clear(call: &mut Call)
    ensures { call.new ≡ emptied call.old }
{
    match call {
        Call::Read { buf, .. } => zero_from(buf, 0),
        Call::Offload { buf, .. } => zero_from(buf, 0),
        Call::Alloc { .. }
        | Call::Free { .. }
        | Call::Write { .. }
        | Call::Atomic { .. }
        | Call::Fence => {}
    }
}

/// Puts the bytes of the reply to part `i` into the call's buffer, at their place.
pub fn put_part(call: &mut Call, i: u32, bytes: &[u8])
    requires good { first_fault (call_faults call.old) ≡ None }
    requires fits { TakesFor call.old i (Got bytes.now) }
    ensures { call.new ≡ call_with i (Got bytes.now) call.old }
{
    match call {
        Call::Read { addr, buf } => {
            let piece = piece_at(*addr, buf.as_slice().len() as u32, i);
            put(buf, piece.from, bytes);
        }
        Call::Offload { buf, .. } => put(buf, 0, bytes),
        Call::Alloc { .. }
        | Call::Free { .. }
        | Call::Write { .. }
        | Call::Atomic { .. }
        | Call::Fence => {}
    }
}
