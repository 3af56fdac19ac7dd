//! A test of `client_retry`: a flight is made where memory is ample, and each call once.

ghost use Rattle.std.specs.Prelude.{◌≡◌};

use cl_types::items::NoMemory;
use cl_types::numbers::CallNo;
use cl_types::reply::Part;
use client_retry::{Due, Flight};
use std::alloc::Global;
use std::test::Fail;

/// Part `part` of a call.
fn part(call: u32, part: u16) -> Part
    ensures { result ≡ record { call = record { 0 = call }; part = part } }
{
    Part {
        call: CallNo(call),
        part,
    }
}

/// What is due of two parts at 99 and at 100, what is left of them in flight once one was heard, and once the other was
/// given up.
fn told(alloc: Global) -> Result<([Due; 2], Option<Part>, [u32; 2]), NoMemory> {
    let mut flight = Flight::create(alloc)?;
    flight.sent(part(2, 0), 1, 0);
    flight.sent(part(1, 1), 2, 0);
    let due = [flight.due(99), flight.due(100)];
    flight.resent(2, 100);
    let heard = flight.hear(1);
    let left = flight.count();
    flight.give_up(2);
    Ok((due, heard, [left, flight.count()]))
}

#[test]
fn the_first_part_in_order_is_sent_again(rt: HostRuntime) -> Result<(), Fail> {
    let again = Due::Resend {
        part: part(1, 1),
        orig: 2,
    };
    let want = ([Due::Nothing, again], Some(part(2, 0)), [1, 0]);
    assert_eq!(rt; told(rt.alloc())?, want);
    Ok(())
}
