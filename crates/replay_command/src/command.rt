//! The command `replay`.

ghost use Rattle.std.specs.Prelude.{◌≡◌, ◌+◌, IfOk, IsErrOf, Some};
ghost use Rattle.cl_outside.specs.Loops.{TookUpTo};
ghost use Rattle.cl_types.specs.declared.limits.TheConstants.{INPUT_BYTES};
ghost use Rattle.texts.specs.Commands.{Replay};
ghost use Rattle.command_text.specs.Serving.{CountsHalt, ServesInText};
ghost use Rattle.command_text.specs.Streams.{streams};
ghost use Rattle.replay_command.specs.Wanted.{IsWantedOf};

use crate::judge::{Wanted, judge};
use crate::replay::play;
use cl_outside::{Sink, Source};
use command_text::{Halt, Input, Left, Status, say, take_input, too_many};
use std::alloc::Global;

/// What the bytes of a source ask of a replay.
fn wanted<S: Source>(alloc: Global, source: &mut S) -> Result<Wanted, Halt>
    ensures wanted { IfOk result (IsWantedOf (S.left source.old) (S.left source.new)) }
    ensures counted { CountsHalt (S.faults source.old) (S.faults source.new) result }
    ensures taken { TookUpTo (INPUT_BYTES + 1) (S.left source.old) (S.left source.new) }
    ensures within { IsErrOf result Halt.ReadFault
        → TookUpTo INPUT_BYTES (S.left source.old) (S.left source.new) }
{
    match take_input(alloc, source)? {
        Input::Whole(bytes) => Ok(judge(alloc, &bytes)?),
        Input::TooMany => Ok(Wanted::Refused(too_many(alloc)?)),
    }
}

/// The command `replay`: reads a schedule, makes its events happen, and writes its transcript as it is
/// made. An input that is no schedule, or is too long, or whose node does not open, is refused by one
/// line.
///
/// With success `left` is the world after the last event, and else it is `Nothing`. Each failure ends
/// the command. After a write fault a prefix of the text was written; and so it is where memory ran out.
pub fn serve_replay<S: Source, K: Sink>(
    alloc: Global,
    source: &mut S,
    sink: &mut K,
    left: &mut Left,
) -> Status
    requires nothing { left.old ≡ Left.Nothing }
    ensures { ServesInText (Some Replay)
        (streams (S.left source.old) (S.faults source.old) (K.written sink.old) (K.faults sink.old))
        (streams (S.left source.new) (S.faults source.new) (K.written sink.new) (K.faults sink.new))
        left.new result }
{
    match wanted(alloc, source) {
        Ok(Wanted::Refused(output)) => say(sink, &output),
        Ok(Wanted::Opened(schedule, world)) => play(alloc, &schedule, world, sink, left),
        Err(Halt::ReadFault) => Status::ReadFault,
        Err(Halt::NoMemory) => Status::NoMemory,
    }
}
