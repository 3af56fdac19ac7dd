//! A client, made of C's arguments.

ghost use Rattle.std.specs.Prelude.{◌≡◌, IfOk};
ghost use Rattle.client_core.specs.Valid.{client_from};
ghost use Rattle.clio_c.specs.Creating.{IsJudged, cause_number};

use crate::codes::{BAD_ARGUMENT, NO_MEMORY};
use cl_types::items::NoMemory;
use cl_types::numbers::{ClientNo, try_pid};
use client_core::{Client, LAST_FIRST_ID};
use std::alloc::Global;

/// Why a client is not made.
#[derive(Clone, Copy, Debug, PartialEq, Eq)]
pub enum NotMade {
    /// There is no process of this number, or no first id.
    BadArgument,
    /// An allocation was refused.
    NoMemory,
}

impl From<NoMemory> for NotMade {
    ghost use Rattle.std.specs.Prelude.{◌≡◌};
    ghost use Rattle.clio_c.specs.declared.creating.NotMade.TheVariants.{NoMemory};

    ghost from_gives = { λ _ cause. cause ≡ NoMemory };

    fn from(_error: NoMemory) -> Self {
        NotMade::NoMemory
    }
}

/// A client that has issued no call, whose first sending has the id `first_id`.
pub fn make(alloc: Global, client: u16, pid: u16, first_id: u64) -> Result<Client, NotMade>
    ensures made { IfOk result (λ made.
        made ≡ client_from (record { 0 = client }) pid first_id) }
    ensures judged { IsJudged pid first_id result }
{
    let Some(pid) = try_pid(pid) else {
        return Err(NotMade::BadArgument);
    };
    if first_id == 0 || first_id > LAST_FIRST_ID {
        return Err(NotMade::BadArgument);
    }
    Ok(Client::create_from(alloc, ClientNo(client), pid, first_id)?)
}

/// The status of a client that was not made.
pub fn status_of(cause: NotMade) -> u32
    ensures { result ≡ cause_number cause }
{
    match cause {
        NotMade::BadArgument => BAD_ARGUMENT,
        NotMade::NoMemory => NO_MEMORY,
    }
}
