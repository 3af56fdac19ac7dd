//! The rounds of a generated schedule, one for each call.

ghost use Rattle.std.specs.Prelude.{◌≡◌, ◌+◌, ◌*◌, ◌<◌, ◌≤◌, ◌++◌, OnOk, length};
ghost use Rattle.storm_gen.specs.declared.limits.TheConstants.{MOST_CALLS, MOST_EVENTS};
ghost use Rattle.storm_gen.specs.Drawing.{Adds};
ghost use Rattle.storm_gen.specs.Generated.{called, draw, frame_drawn, frames_drawn, generator, poll_drawn, repeat_of, round, rounds, tick_of};

use crate::call::call_drawn;
use crate::choice::choose;
use crate::draws::draw;
use crate::lines::Lines;
use cl_types::items::NoMemory;
use cl_types::numbers::ClientNo;
use cl_types::schedule::Event;
use rand_core::SeedableRng;
use rand_pcg::Pcg32;
use std::alloc::Global;

/// Draws a client, and polls it.
fn poll_drawn(rng: &mut Pcg32) -> Event
    ensures { (result, rng.new) ≡ poll_drawn (draw 4 rng.old) }
{
    let client = ClientNo((1 + draw(rng, 4)) as u16);
    Event::Poll { client }
}

/// Draws whether the next frame is dropped or delivered.
fn frame_drawn(rng: &mut Pcg32) -> Event
    ensures { (result, rng.new) ≡ frame_drawn rng.old }
{
    if draw(rng, 20) == 0 {
        Event::Drop
    } else {
        Event::DeliverNext
    }
}

/// Draws whether a frame is delivered by its number in round `i`, and if so which.
fn repeat(i: u32, rng: &mut Pcg32, lines: &mut Lines) -> Result<(), NoMemory>
    requires round { (1 ≤ i) × (i ≤ MOST_CALLS) }
    requires room { length lines.old < MOST_EVENTS }
    ensures { OnOk result (Adds lines.old (repeat_of i (draw 10 rng.old)) lines.new rng.new) }
{
    if draw(rng, 10) == 0 {
        let frame = 1 + draw(rng, 4 * i);
        lines.push(Event::Deliver { frame })?;
    }
    Ok(())
}

/// Draws by how many ticks time goes on, 0 to 2.
fn tick(rng: &mut Pcg32, lines: &mut Lines) -> Result<(), NoMemory>
    requires { length lines.old < MOST_EVENTS }
    ensures { OnOk result (Adds lines.old (tick_of (draw 3 rng.old)) lines.new rng.new) }
{
    let by = draw(rng, 3);
    if by != 0 {
        lines.push(Event::Tick { by: u64::from(by) })?;
    }
    Ok(())
}

/// Adds a drawn call, a poll of its client, and a poll of a drawn client.
fn call_and_polls(alloc: Global, rng: &mut Pcg32, lines: &mut Lines) -> Result<(), NoMemory>
    requires { length lines.old + 3 ≤ MOST_EVENTS }
    ensures { OnOk result (Adds lines.old (called rng.old) lines.new rng.new) }
{
    let choice = choose(rng);
    let client = choice.client;
    let call = call_drawn(alloc, &choice, rng)?;
    lines.push(Event::Call { client, call })?;
    lines.push(Event::Poll { client })?;
    lines.push(poll_drawn(rng))
}

/// Adds three frames, each dropped or delivered.
fn frames(rng: &mut Pcg32, lines: &mut Lines) -> Result<(), NoMemory>
    requires { length lines.old + 3 ≤ MOST_EVENTS }
    ensures { OnOk result (Adds lines.old (frames_drawn rng.old) lines.new rng.new) }
{
    lines.push(frame_drawn(rng))?;
    lines.push(frame_drawn(rng))?;
    lines.push(frame_drawn(rng))
}

/// Adds the events of round `i`.
fn round(alloc: Global, i: u32, rng: &mut Pcg32, lines: &mut Lines) -> Result<(), NoMemory>
    requires round { (1 ≤ i) × (i ≤ MOST_CALLS) }
    requires room { length lines.old + 8 ≤ MOST_EVENTS }
    ensures { OnOk result (Adds lines.old (round i rng.old) lines.new rng.new) }
{
    call_and_polls(alloc, rng, lines)?;
    frames(rng, lines)?;
    repeat(i, rng, lines)?;
    tick(rng, lines)
}

/// Adds the events of so many rounds, with draws of this seed's generator.
pub fn rounds(alloc: Global, seed: u64, calls: u32, lines: &mut Lines) -> Result<(), NoMemory>
    requires calls { calls ≤ MOST_CALLS }
    requires room { length lines.old + 8 * calls ≤ MOST_EVENTS }
    ensures { OnOk result (lines.new ≡ lines.old ++ rounds 1 calls (generator seed)) }
{
    let mut rng = Pcg32::seed_from_u64(seed);
    for i in 0..calls {
        round(alloc, i + 1, &mut rng, lines)?;
    }
    Ok(())
}
