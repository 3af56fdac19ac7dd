//! Tests of `retry_buffer`: a buffer is made where memory is ample, keeps what was noted, and is looked through in time.

ghost use Rattle.retry_buffer.specs.Kept.{AreNotedBy};

use cl_types::call::Kind;
use cl_types::items::NoMemory;
use cl_types::numbers::ClientNo;
use cl_types::small_reply::SmallReply;
use retry_buffer::{Retry, Young};
use std::alloc::Global;

const CLIENT: ClientNo = ClientNo(7);

/// Of a buffer of one record that was noted at 0: whether there is room at 399 and at 400, and the statuses of the replies
/// under two names.
fn told(alloc: Global) -> Result<([Result<(), Young>; 2], [Option<u8>; 2]), NoMemory> {
    let mut retry = Retry::create(alloc, 1)?;
    retry.note(0, CLIENT, Kind::Write, 2, SmallReply::create(4, &[]));
    let rooms = [retry.room(399), retry.room(400)];
    let write = retry.look(CLIENT, Kind::Write, 2);
    let alloc = retry.look(CLIENT, Kind::Alloc, 2);
    Ok((
        rooms,
        [
            write.map(|reply| reply.status),
            alloc.map(|reply| reply.status),
        ],
    ))
}

#[test]
fn a_full_buffer_has_room_once_its_record_is_old(rt: HostRuntime) {
    let young = Young {
        oldest: 0,
        now: 399,
    };
    let want = ([Err(young), Ok(())], [Some(4), None]);
    assert!(rt; told(rt.alloc()) == Ok(want));
}

/// Notes a reply at moment 0, and tells whether its name was new and there was room.
#[tactic(auto, using(crate::proofs::Noting::noted_more))]
fn notes(retry: &mut Retry, orig: u64) -> bool
    requires { AreNotedBy 0 retry.old.records }
    ensures { AreNotedBy 0 retry.new.records }
{
    if retry.look(CLIENT, Kind::Write, orig).is_some() || retry.room(0).is_err() {
        return false;
    }
    retry.note(0, CLIENT, Kind::Write, orig, SmallReply::create(0, &[]));
    true
}

/// Whether a buffer takes 65,536 replies whose ids rise.
fn takes_each(retry: &mut Retry) -> bool
    requires { AreNotedBy 0 retry.old.records }
{
    for orig in 1..=65_536 {
        if !notes(retry, orig) {
            return false;
        }
    }
    true
}

/// Whether it has each of them.
fn has_each(retry: &Retry) -> bool {
    for orig in 1..=65_536 {
        if retry.look(CLIENT, Kind::Write, orig).is_none() {
            return false;
        }
    }
    true
}

/// Whether it has each of them 200 times over.
fn has_each_long(retry: &Retry) -> bool {
    for _ in 0..200 {
        if !has_each(retry) {
            return false;
        }
    }
    true
}

/// Whether a new buffer takes 65,536 replies whose ids rise, and then finds each of them 200 times.
fn finds_each(alloc: Global) -> Result<bool, NoMemory> {
    let mut retry = Retry::create(alloc, 65_536)?;
    Ok(takes_each(&mut retry) && has_each_long(&retry))
}

// No clause says how long a chain gets. With all records in one chain this runs past the time that a test has.
#[test]
fn replies_whose_ids_rise_are_found_in_time(rt: HostRuntime) {
    assert!(rt; finds_each(rt.alloc()) == Ok(true));
}
