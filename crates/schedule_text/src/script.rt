//! A client's script, line by line.

ghost use Rattle.std.specs.Prelude.{◌≡◌};
ghost use Rattle.texts.specs.Grammar.{script_line, script_of};
ghost use Rattle.schedule_text.specs.Reading.{Reads};
ghost use Rattle.schedule_text.specs.Script.{calls_of, with_line};
ghost use Rattle.schedule_text.specs.Telling.{LeavesOf, Tells};

use crate::calls::call_in_line;
use crate::fault::{LineFault, ScheduleFault};
use crate::lines::{byte_fault, is_passed_over, next_line, too_long};
use cl_types::schedule::{CallText, Script, ScriptList};
use std::alloc::Global;

/// The call of a line that isn't passed over.
fn call_of_line(alloc: Global, line: &[u8]) -> Result<CallText, LineFault>
    ensures { Tells result (script_line line.now) }
{
    if let Some(what) = byte_fault(line) {
        return Err(LineFault::Bad(what));
    }
    call_in_line(alloc, line)
}

/// Reads one line more.
fn read_line(
    alloc: Global,
    number: u32,
    line: &[u8],
    calls: &mut ScriptList,
) -> Result<(), ScheduleFault>
    ensures { LeavesOf calls.new result (with_line calls.old number line.now) }
{
    if is_passed_over(line) {
        return Ok(());
    }
    match call_of_line(alloc, line) {
        Err(LineFault::Bad(what)) => Err(ScheduleFault::Line { number, what }),
        Err(LineFault::NoMemory) => Err(ScheduleFault::NoMemory),
        Ok(call) => {
            calls.push((number, call))?;
            Ok(())
        }
    }
}

/// Reads the script that the bytes spell, or tells their first bad line. That the bytes or their
/// lines are too many is told before any line.
#[tactic(auto, using(crate::proofs::ScriptLemmas::read_on, crate::proofs::ScriptLemmas::read_stop, crate::proofs::ScriptLemmas::read_end))]
pub fn read_script(alloc: Global, bytes: &[u8]) -> Result<Script, ScheduleFault>
    ensures { Reads bytes.now (script_of bytes.now) (calls_of result) }
{
    if let Some(fault) = too_long(bytes) {
        return Err(fault);
    }
    let mut calls = ScriptList::create(alloc);
    let mut rest = bytes;
    let mut number = 1;
    while !rest.is_empty() {
        let (line, more) = next_line(rest);
        if let Err(fault) = read_line(alloc, number, line, &mut calls) {
            return Err(fault);
        }
        rest = more;
        number += 1;
    }
    Ok(Script { calls })
}
