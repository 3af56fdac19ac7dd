//! Tests of `link_sim`: that calls succeed where memory is ample, and that a frame expires at age 100.

ghost use Rattle.std.specs.Prelude.{◌≡◌, []};

use cl_types::items::NoMemory;
use cl_types::numbers::ClientNo;
use link_sim::{End, Got, Link};
use std::alloc::Global;

/// What is found under a number at a time, once a frame was sent at 0 and one at 7.
type Row<'a> = (u64, u32, Got<'a>);

const FOUND: &[Row] = &[
    (
        99,
        1,
        Got::Live {
            bytes: b"abc",
            end: End::Node,
            line: 4,
        },
    ),
    (100, 1, Got::Expired { sent: 0 }),
    (107, 2, Got::Expired { sent: 7 }),
    (107, 0, Got::Absent),
    (107, 3, Got::Absent),
];

/// The first row that is found otherwise, by its place from 0.
fn first_off(link: &Link, rows: &[Row]) -> Option<usize> {
    for (at, (now, frame, want)) in rows.iter().enumerate() {
        if link.get(*now, *frame) != *want {
            return Some(at);
        }
    }
    None
}

/// The same once the two frames are sent.
fn first_off_of_sent(link: &mut Link) -> Result<Option<usize>, NoMemory>
    requires { link.old.frames ≡ [] }
{
    link.send(0, End::Node, b"abc", 4)?;
    link.send(7, End::Client(ClientNo(1)), b"", 5)?;
    Ok(first_off(link, FOUND))
}

/// The same on a new link. No other function owns a link.
fn first_off_of_new(alloc: Global) -> Result<Option<usize>, NoMemory> {
    let mut link = Link::create(alloc)?;
    first_off_of_sent(&mut link)
}

#[test]
fn a_frame_expires_at_age_100(rt: HostRuntime) {
    assert!(rt; first_off_of_new(rt.alloc()) == Ok(None));
}
