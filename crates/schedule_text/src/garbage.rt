//! Whether garbage spells a frame after all.

ghost use Rattle.std.specs.Prelude.{◌≡◌, IfOk, is_none};
ghost use Rattle.cl_types.specs.Written.{expanded};
ghost use Rattle.frame_model.specs.Frames.{reply_fault, request_fault};

use crate::written::expand;
use cl_types::items::NoMemory;
use cl_types::schedule::Written;
use frame_codec::{read_reply, read_request};
use std::alloc::Global;

/// Whether the bytes spell a request.
pub(crate) fn is_request(alloc: Global, written: &Written) -> Result<bool, NoMemory>
    ensures { IfOk result (λ found. found ≡ is_none (request_fault (expanded written.now))) }
{
    let bytes = expand(alloc, written)?;
    Ok(read_request(bytes.as_slice()).is_ok())
}

/// Whether the bytes spell a reply.
pub(crate) fn is_reply(alloc: Global, written: &Written) -> Result<bool, NoMemory>
    ensures { IfOk result (λ found. found ≡ is_none (reply_fault (expanded written.now))) }
{
    let bytes = expand(alloc, written)?;
    Ok(read_reply(bytes.as_slice()).is_ok())
}
