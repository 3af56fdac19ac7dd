//! Tests of each end but success: its text and its status, and that nothing is left.

use crate::runs::{Failing, NONE, PATH, TRANSCRIPT, run_on};
use cl_types::items::NoMemory;
use std::alloc::Global;
use std::test::Fail;

/// A transcript without its end.
const NO_END: &[u8] = b"node 16 8 4 4
client 1 1
h 5 0 1.1.0 alloc 1 rw = ok 0x1000
h 9 0 1.2.0 write 0x1000 616263 = ok
h 13 0 1.3.0 read 0x1000 4 = ok 61626300
";

/// A transcript whose read has another last byte than was written.
const NO_RUN: &[u8] = b"node 16 8 4 4
client 1 1
h 5 0 1.1.0 alloc 1 rw = ok 0x1000
h 9 0 1.2.0 write 0x1000 616263 = ok
h 13 0 1.3.0 read 0x1000 4 = ok 61626301
end 3
";

/// Words, an input, the calls that fail, and the text and the status of the end.
#[derive(Clone, Copy)]
struct End<'a>(&'a [&'a str], &'a [u8], Failing<'a>, &'a [u8], u8);

/// A bad line is reported before a bad node. The second read of a short input is the one that would find its end.
const ENDS: &[End] = &[
    End(&[], PATH, NONE, b"bad words\n", 1),
    End(&[""], PATH, NONE, b"bad words\n", 1),
    End(&["replay", "replay"], PATH, NONE, b"bad words\n", 1),
    End(&["replays"], PATH, Failing::Writes(&[1]), b"", 4),
    End(&["replay"], b"", NONE, b"line 1: node expected\n", 2),
    End(
        &["replay"],
        b"node 16 7 4 4\nclient 1 1\nhold\n",
        NONE,
        b"line 3: unknown word\n",
        2,
    ),
    End(
        &["replay"],
        b"node 16 7 4 4\nclient 1 1\n",
        NONE,
        b"bad node: buckets 7\n",
        10,
    ),
    End(
        &["replay"],
        b"node 1 8 1 4\noffload kv 2\nclient 1 1\n",
        NONE,
        b"bad node: offload 0 pages 2\n",
        10,
    ),
    End(&["replay"], PATH, Failing::Reads(&[1]), b"", 3),
    End(&["replay"], PATH, Failing::Reads(&[2]), b"", 3),
    End(&["replay"], PATH, Failing::Writes(&[1]), b"", 4),
    End(&["check", ""], TRANSCRIPT, NONE, b"bad words\n", 1),
    End(&["check"], NO_END, NONE, b"line 6: end expected\n", 2),
    End(&["check"], NO_RUN, NONE, b"not a run: entry 3\n", 7),
    End(
        &["check"],
        b"node 16 7 4 4\nclient 1 1\nend 0\n",
        NONE,
        b"bad node: buckets 7\n",
        10,
    ),
    End(&["check"], TRANSCRIPT, Failing::Reads(&[1]), b"", 3),
    End(&["check"], TRANSCRIPT, Failing::Reads(&[2]), b"", 3),
    End(&["check"], TRANSCRIPT, Failing::Writes(&[1]), b"", 4),
    End(&["storm", "1"], PATH, NONE, b"bad words\n", 1),
    End(&["storm", "1", "100001"], PATH, NONE, b"bad words\n", 1),
    End(&["storm", "01", "2"], PATH, NONE, b"bad words\n", 1),
    End(&["storm", "1", "0"], PATH, Failing::Writes(&[1]), b"", 4),
    End(
        &["node", "0", "16", "8", "4", "4", "0", "1"],
        PATH,
        NONE,
        b"bad words\n",
        1,
    ),
    End(
        &["node", "0", "16", "7", "4", "4", "1", "1"],
        PATH,
        NONE,
        b"bad node: buckets 7\n",
        10,
    ),
    End(
        &["node", "0", "16", "8", "4", "4", "1", "1"],
        PATH,
        NONE,
        b"wire fault\n",
        6,
    ),
    End(&["client", "0", "1", "1"], b"", NONE, b"bad words\n", 1),
    End(&["client", "9", "1", "65280"], b"", NONE, b"bad words\n", 1),
    End(
        &["client", "9", "1", "1"],
        b"fence\nread\n",
        NONE,
        b"line 2: missing word\n",
        2,
    ),
    End(
        &["client", "9", "1", "1"],
        b"fence\n",
        Failing::Reads(&[2]),
        b"",
        3,
    ),
    End(
        &["client", "9", "1", "1"],
        b"fence\n",
        NONE,
        b"wire fault\n",
        6,
    ),
    End(
        &["client", "9", "1", "1"],
        b"fence\n",
        Failing::Writes(&[1]),
        b"",
        4,
    ),
];

/// Whether a run ends so and leaves nothing.
fn ends(alloc: Global, end: &End) -> Result<bool, NoMemory> {
    let End(words, input, failing, text, status) = *end;
    let ran = run_on(alloc, words, input, failing)?;
    Ok(ran.is(status, text) && ran.is_empty())
}

/// The first run that ends otherwise, by its place from 0.
fn first_off(alloc: Global) -> Result<Option<usize>, NoMemory> {
    for (at, end) in ENDS.iter().enumerate() {
        if !ends(alloc, end)? {
            return Ok(Some(at));
        }
    }
    Ok(None)
}

#[test]
fn each_other_end_has_its_text_and_status(rt: HostRuntime) -> Result<(), Fail> {
    assert!(rt; first_off(rt.alloc())?.is_none());
    Ok(())
}
