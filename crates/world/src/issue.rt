//! A call of one client.

ghost use Rattle.std.specs.Prelude.{◌≡◌, ◌<◌, IfOk, OnOk};
ghost use Rattle.client_model.specs.Client.{ClientState};
ghost use Rattle.cl_types.specs.Written.{call_of as call_written};
ghost use Rattle.client_model.specs.Issue.{issue_fault};
ghost use Rattle.client_core.specs.Answers.{issue_state};
ghost use Rattle.world.specs.Saying.{issue_did};

use cl_types::items::NoMemory;
use cl_types::line::Did;
use cl_types::numbers::CallNo;
use cl_types::schedule::CallText;
use client_core::Client;
use std::alloc::Global;

/// Hands a call to a client, or tells the fault for which it isn't issued.
#[tactic(auto, using(crate::proofs::IssueLemmas::issued_client, crate::proofs::IssueLemmas::issued_number))]
pub fn issue(alloc: Global, client: &mut Client, text: &CallText) -> Result<Did, NoMemory>
    requires { client.old.issued < 4294967295 }
    ensures did { let fault = issue_fault client.old (call_written text.now) in
        IfOk result (λ did. did ≡ issue_did client.old fault) }
    ensures state { let fault = issue_fault client.old (call_written text.now) in
        OnOk result (client.new ≡ issue_state client.old (call_written text.now) fault) }
    ensures number { client.new.client ≡ client.old.client }
{
    let no = client.no();
    let fault = call_text::issue(alloc, client, text)?;
    match fault {
        Some(fault) => Ok(Did::NotIssued { fault }),
        None => Ok(Did::Issued {
            client: no,
            call: CallNo(client.issued()),
        }),
    }
}
