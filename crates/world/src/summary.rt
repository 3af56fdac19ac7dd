//! What the events of a world came to, counted from line to line.

ghost use Rattle.std.specs.Prelude.{◌≡◌, ◌+◌, ◌-◌, ◌<◌, ◌^◌};
ghost use Rattle.world.specs.Summed.{HasRoom, ended_count, summed, with_answer, with_did, with_ended, with_unended};
ghost use Rattle.cl_types.specs.declared.limits.TheConstants.{LINES_END};

use cl_types::line::{Did, EndedCall, EventLine, Summary};
use cl_types::reply::Answer;

/// What no events came to.
pub const NOTHING_COUNTED: Summary = Summary {
    issued: 0,
    done: 0,
    refused: 0,
    timed_out: 0,
    unended: 0,
    entries: 0,
};

/// The counts with a call more, where the line tells that one was issued.
fn with_did(summary: Summary, did: &Did) -> Summary
    requires { summary.issued < LINES_END }
    ensures { result ≡ with_did did.now summary }
{
    match did {
        Did::Issued { .. } => Summary {
            issued: summary.issued + 1,
            ..summary
        },
        _ => summary,
    }
}

/// The counts with an answer more.
fn with_answer(summary: Summary, answer: Answer) -> Summary
    requires { ended_count summary < LINES_END }
    ensures { result ≡ with_answer answer summary }
{
    match answer {
        Answer::Done(_) => Summary {
            done: summary.done + 1,
            ..summary
        },
        Answer::Refused(_) => Summary {
            refused: summary.refused + 1,
            ..summary
        },
        Answer::TimedOut { .. } => Summary {
            timed_out: summary.timed_out + 1,
            ..summary
        },
    }
}

/// The counts with the answer of the call that ended, where one did.
fn with_ended(summary: Summary, ended: &Option<EndedCall>) -> Summary
    requires { ended_count summary < LINES_END }
    ensures { result ≡ with_ended ended.now summary }
{
    match ended {
        None => summary,
        Some(ended) => with_answer(summary, ended.answer),
    }
}

/// The counts with that of the calls that haven't ended, and with so many entries.
fn with_unended(summary: Summary, entries: usize) -> Summary
    requires room { ended_count summary < 2 ^ 32 }
    requires entries { entries < 2 ^ 32 }
    ensures { result ≡ with_unended entries summary }
{
    let ended = summary.done + summary.refused + summary.timed_out;
    Summary {
        unended: summary.issued.saturating_sub(ended),
        entries: entries as u32,
        ..summary
    }
}

/// The counts behind a line more, where the history then has so many entries.
pub fn summed(summary: Summary, told: &EventLine, entries: usize) -> Summary
    requires room { HasRoom summary }
    requires entries { entries < 2 ^ 32 }
    ensures { result ≡ summed told.now.did told.now.ended entries summary }
{
    let summary = with_did(summary, &told.did);
    let summary = with_ended(summary, &told.ended);
    with_unended(summary, entries)
}
