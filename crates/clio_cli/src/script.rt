//! What the bytes of an input ask of a client.

ghost use Rattle.std.specs.Prelude.{◌+◌, IfOk, IsErrOf};
ghost use Rattle.cl_outside.specs.Loops.{TookUpTo};
ghost use Rattle.cl_types.specs.declared.limits.TheConstants.{INPUT_BYTES};
ghost use Rattle.command_text.specs.Serving.{CountsHalt};
ghost use Rattle.clio_cli.specs.Wanted.{IsScriptedBy, IsScriptedOf};

use cl_outside::Source;
use cl_types::items::NoMemory;
use cl_types::schedule::Script;
use command_text::{Halt, Input, Output, refuse, take_input, too_many};
use schedule_text::read_script;
use std::alloc::Global;

/// What a script asks for.
#[derive(Drop)]
pub enum WantedScript {
    /// An output that says why no client is driven.
    Refused(Output),
    /// A client that is driven through the script.
    Scripted(Script),
}

/// What the bytes of an input ask of a client.
fn judge_script(alloc: Global, bytes: &[u8]) -> Result<WantedScript, NoMemory>
    ensures { IfOk result (IsScriptedBy bytes.now) }
{
    match read_script(alloc, bytes) {
        Ok(script) => Ok(WantedScript::Scripted(script)),
        Err(fault) => Ok(WantedScript::Refused(refuse(alloc, fault)?)),
    }
}

/// What a source asks of a client.
pub fn wanted_script<S: Source>(alloc: Global, source: &mut S) -> Result<WantedScript, Halt>
    ensures wanted { IfOk result (IsScriptedOf (S.left source.old) (S.left source.new)) }
    ensures counted { CountsHalt (S.faults source.old) (S.faults source.new) result }
    ensures taken { TookUpTo (INPUT_BYTES + 1) (S.left source.old) (S.left source.new) }
    ensures within { IsErrOf result Halt.ReadFault
        → TookUpTo INPUT_BYTES (S.left source.old) (S.left source.new) }
{
    match take_input(alloc, source)? {
        Input::Whole(bytes) => Ok(judge_script(alloc, &bytes)?),
        Input::TooMany => Ok(WantedScript::Refused(too_many(alloc)?)),
    }
}
