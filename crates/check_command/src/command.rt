//! The command `check`.

ghost use Rattle.std.specs.Prelude.{◌+◌, IfOk, IsErrOf, Some};
ghost use Rattle.cl_outside.specs.Loops.{TookUpTo};
ghost use Rattle.cl_types.specs.declared.limits.TheConstants.{INPUT_BYTES};
ghost use Rattle.texts.specs.Commands.{Check};
ghost use Rattle.command_text.specs.Serving.{CountsHalt, ServesInText};
ghost use Rattle.command_text.specs.Streams.{streams};
ghost use Rattle.command_text.specs.TextEnds.{Asks};

use crate::judge::judge_history;
use cl_outside::{Sink, Source};
use command_text::{Halt, Input, Left, Output, Status, say, take_input, too_many};
use std::alloc::Global;

/// The output of a check of what a source gives.
fn checked<S: Source>(alloc: Global, source: &mut S) -> Result<Output, Halt>
    ensures checked { IfOk result (Asks (Some Check) (S.left source.old) (S.left source.new)) }
    ensures counted { CountsHalt (S.faults source.old) (S.faults source.new) result }
    ensures taken { TookUpTo (INPUT_BYTES + 1) (S.left source.old) (S.left source.new) }
    ensures within { IsErrOf result Halt.ReadFault
        → TookUpTo INPUT_BYTES (S.left source.old) (S.left source.new) }
{
    match take_input(alloc, source)? {
        Input::Whole(bytes) => Ok(judge_history(alloc, bytes)?),
        Input::TooMany => Ok(too_many(alloc)?),
    }
}

/// The command `check`: reads a transcript, and writes the verdict on its history. An input that is no
/// transcript, or is too long, or whose node does not open, is refused by one line.
///
/// It leaves nothing. Each failure ends the command; after a write fault a prefix of the line was
/// written.
pub fn serve_check<S: Source, K: Sink>(alloc: Global, source: &mut S, sink: &mut K) -> Status
    ensures { ServesInText (Some Check)
        (streams (S.left source.old) (S.faults source.old) (K.written sink.old) (K.faults sink.old))
        (streams (S.left source.new) (S.faults source.new) (K.written sink.new) (K.faults sink.new))
        Left.Nothing result }
{
    match checked(alloc, source) {
        Ok(output) => say(sink, &output),
        Err(Halt::ReadFault) => Status::ReadFault,
        Err(Halt::NoMemory) => Status::NoMemory,
    }
}
