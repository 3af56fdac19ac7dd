//! The verdict on the history that the bytes of an input encode.

ghost use Rattle.std.specs.Prelude.{◌≡◌, ◌<◌, ◌≤◌, ◌^◌, IfOk, length};
ghost use Rattle.cl_types.specs.declared.limits.TheConstants.{INPUT_LINES};
ghost use Rattle.schedule_text.specs.Reading.{Reads};
ghost use Rattle.transcript_text.specs.HistoryGrammar.{history_of};
ghost use Rattle.command_text.specs.Outputs.{AnswersCheck, verdict_output};
ghost use Rattle.check_command.specs.Judged.{IsJudged};

use cl_types::config::Config;
use cl_types::items::NoMemory;
use cl_types::line::{Entry, EntryList};
use command_text::{Output, Status, bad_node, output_of, refuse};
use history_check::{CheckFault, Verdict, check};
use schedule_text::ScheduleFault;
use std::alloc::Global;
use transcript_text::read_history;

/// The output that reports the verdict on a history of so many entries.
fn verdict_of(alloc: Global, count: usize, verdict: Verdict) -> Result<Output, NoMemory>
    ensures { IfOk result (λ output. output ≡ verdict_output count verdict) }
{
    match verdict {
        Verdict::Run => {
            let text = format!(in alloc; "run {count}\n")?;
            output_of(alloc, text.as_bytes(), Status::Ok)
        }
        Verdict::NotRun { entry } => {
            let text = format!(in alloc; "not a run: entry {entry}\n")?;
            output_of(alloc, text.as_bytes(), Status::NotRun)
        }
    }
}

/// The output on a history.
fn judge_entries(alloc: Global, config: &Config, entries: &[Entry]) -> Result<Output, NoMemory>
    requires few { length entries.now < 2 ^ 32 }
    ensures { IfOk result (IsJudged (config.now, entries.now)) }
{
    match check(alloc, config, entries) {
        Ok(verdict) => verdict_of(alloc, entries.len(), verdict),
        Err(CheckFault::Opening(fault)) => bad_node(alloc, fault),
        Err(CheckFault::NoMemory) => Err(NoMemory),
    }
}

/// Reads a transcript back, and lets its text go, so that only its history is held.
fn read_back(alloc: Global, bytes: Vec<u8>) -> Result<(Config, EntryList), ScheduleFault>
    ensures reads { Reads bytes.items (history_of bytes.items) result }
    ensures few { IfOk result (λ read. length read.1 ≤ INPUT_LINES) }
{
    read_history(alloc, &bytes)
}

/// The output of a check of the bytes of an input.
pub fn judge_history(alloc: Global, bytes: Vec<u8>) -> Result<Output, NoMemory>
    ensures { IfOk result (AnswersCheck bytes.items) }
{
    match read_back(alloc, bytes) {
        Ok((config, entries)) => judge_entries(alloc, &config, entries.as_slice()),
        Err(fault) => refuse(alloc, fault),
    }
}
