//! The loop that drives a client.

use crate::link::{Link, send};
use cl_types::call::Call;
use cl_types::limits::{FRAME_ROOM, HELD_CALLS};
use cl_types::reply::{Answer, Value};
use client_core::{Client, Poll};
use std::alloc::{AllocError, Global};
use std::io;

/// Issues a call. A client that is full, or a call out of its range, hands it back, and it is dropped here.
pub fn ask(client: &mut Client, call: Call) {
    if client.issued() < u32::MAX {
        let _issued = client.issue(call);
    }
}

/// Hands each reply that came to the client.
fn hear(client: &mut Client, link: &mut Link) {
    for frame in &link.to_client {
        client.hear(frame.as_slice());
    }
    link.to_client.clear();
}

/// Polls until nothing is due, and sends each request.
fn poll(alloc: Global, client: &mut Client, now: u64, link: &mut Link) -> Result<(), AllocError> {
    let mut out = [0; FRAME_ROOM];
    // at most 64 parts are in flight, so no more are sent at one time
    for _ in 0..64 {
        match client.poll(now.max(client.last()), &mut out) {
            Poll::Sent { len, .. } => send(alloc, &mut link.to_node, &out, len)?,
            Poll::GaveUp(_) | Poll::Ended(_) => {}
            Poll::Idle => break,
        }
    }
    Ok(())
}

/// The number and the answer of the call that ended first. The call itself is dropped here, and the bytes that a Read or an
/// Offload got with it.
fn ended(client: &mut Client) -> Option<(u32, Answer)> {
    let (no, answer, _call) = client.done()?;
    Some((no.0, answer))
}

/// Prints what a call came to.
fn print(rt: &HostRuntime, now: u64, call: u32, answer: Answer) -> io::Result<()> {
    match answer {
        Answer::Done(Value::At(addr)) => println!(rt;
            "{now}: call {call} got the page at {}",
            addr.0
        ),
        Answer::Done(Value::Word(word)) => println!(rt; "{now}: call {call} found the word {word}"),
        Answer::Done(_) => println!(rt; "{now}: call {call} is done"),
        Answer::Refused(_) => println!(rt; "{now}: call {call} was refused"),
        Answer::TimedOut { .. } => println!(rt; "{now}: call {call} timed out"),
    }
}

/// Hears what came, polls until nothing is due, and prints the calls that ended. `now` is in ticks and may not fall.
pub fn drive(rt: &HostRuntime, client: &mut Client, now: u64, link: &mut Link) -> io::Result<()> {
    hear(client, link);
    poll(rt.alloc(), client, now, link)?;
    // as many calls are held at most
    for _ in 0..HELD_CALLS {
        let Some((call, answer)) = ended(client) else {
            break;
        };
        print(rt, now, call, answer)?;
    }
    Ok(())
}
