//! The events before and after the rounds.

ghost use Rattle.std.specs.Prelude.{◌≡◌, ◌+◌, ◌*◌, ◌≤◌, [], ◌∷◌, ◌++◌, OnOk, flat_map, length};
ghost use Rattle.storm_gen.specs.declared.limits.TheConstants.{MOST_EVENTS};
ghost use Rattle.storm_gen.specs.Generated.{allocates, deliveries, polls, settle, settles};

use crate::lines::Lines;
use cl_types::call::Perm;
use cl_types::items::NoMemory;
use cl_types::numbers::ClientNo;
use cl_types::schedule::{CallText, Event};

/// How many pages each client allocates.
const PAGES: u32 = 64;

/// How many closing rounds come after the last call: 640 ticks, more than the 400 after which a part is given up.
const SETTLES: u32 = 64;

/// How many frames are handed out in a closing round.
const DELIVERIES: u32 = 8;

/// By how many ticks time goes on in a closing round.
const TICKS: u64 = 10;

/// Delivers the next frame so many times.
fn deliver(count: u32, lines: &mut Lines) -> Result<(), NoMemory>
    requires { length lines.old + count ≤ MOST_EVENTS }
    ensures { OnOk result (lines.new ≡ lines.old ++ deliveries count) }
{
    for _ in 0..count {
        lines.push(Event::DeliverNext)?;
    }
    Ok(())
}

/// Polls the client.
fn poll(number: u16, lines: &mut Lines) -> Result<(), NoMemory>
    requires { length lines.old + 1 ≤ MOST_EVENTS }
    ensures { OnOk result (lines.new ≡ lines.old ++ polls (number ∷ [])) }
{
    let client = ClientNo(number);
    lines.push(Event::Poll { client })
}

/// The client allocates pages, and its request and the reply are delivered.
fn allocate(number: u16, lines: &mut Lines) -> Result<(), NoMemory>
    requires { length lines.old + 4 ≤ MOST_EVENTS }
    ensures { OnOk result (lines.new ≡ lines.old ++ allocates number) }
{
    let client = ClientNo(number);
    let call = CallText::Alloc {
        pages: PAGES,
        perm: Perm::ReadWrite,
    };
    lines.push(Event::Call { client, call })?;
    lines.push(Event::Poll { client })?;
    deliver(2, lines)
}

/// Each of the four clients allocates pages.
pub fn allocate_all(lines: &mut Lines) -> Result<(), NoMemory>
    requires { length lines.old + 16 ≤ MOST_EVENTS }
    ensures { OnOk result (lines.new ≡ lines.old ++ flat_map allocates (1 ∷ 2 ∷ 3 ∷ 4 ∷ [])) }
{
    allocate(1, lines)?;
    allocate(2, lines)?;
    allocate(3, lines)?;
    allocate(4, lines)
}

/// One closing round.
#[tactic(auto, unfolding(crate::specs::Generated::settle))]
fn settle(lines: &mut Lines) -> Result<(), NoMemory>
    requires { length lines.old + 13 ≤ MOST_EVENTS }
    ensures { OnOk result (lines.new ≡ lines.old ++ settle) }
{
    poll(1, lines)?;
    poll(2, lines)?;
    poll(3, lines)?;
    poll(4, lines)?;
    deliver(DELIVERIES, lines)?;
    lines.push(Event::Tick { by: TICKS })
}

/// The closing rounds: in each, every client is polled, frames are handed out, and time goes on.
pub fn settle_all(lines: &mut Lines) -> Result<(), NoMemory>
    requires { length lines.old + 832 ≤ MOST_EVENTS }
    ensures { OnOk result (lines.new ≡ lines.old ++ settles 64) }
{
    for _ in 0..SETTLES {
        settle(lines)?;
    }
    Ok(())
}
