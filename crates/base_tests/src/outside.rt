//! Tests of `cl_outside`: that calls succeed where memory is ample, and what the real things do.

use cl_outside::{
    Bound, Clock, MemorySink, MemorySource, Peer, Read, Recv, ScriptWire, Sent, Sink, Source,
    StdClock, StdSink, StdSource, Stop, UdpWire, Wire, Wrote, read_input, write_all,
};
use std::alloc::{AllocError, Global};
use std::time::Duration;
use std::{io, thread};

const LOCALHOST: u32 = 0x7f00_0001;

/// How three calls that write to a sink end.
fn write_thrice(sink: &mut MemorySink) -> [Result<(), Stop>; 3] {
    [
        write_all(sink, b"abc"),
        write_all(sink, b"lost"),
        write_all(sink, b""),
    ]
}

/// Whether all bytes are written but those of the second call, which fails.
fn writes_all_but_the_second(alloc: Global) -> Result<bool, AllocError> {
    let fails = vec![in alloc; 2]?;
    let mut sink = MemorySink::create(alloc, fails);
    let ends = write_thrice(&mut sink);
    Ok(ends == [Ok(()), Err(Stop::WriteFault), Ok(())] && sink.bytes() == b"abc".as_slice())
}

#[test]
fn all_bytes_are_written_or_the_fault_is_told(rt: HostRuntime) {
    assert!(rt; writes_all_but_the_second(rt.alloc()) == Ok(true));
}

/// What comes of two sends.
fn send_twice(wire: &mut ScriptWire) -> [Sent; 2] {
    let to = Peer {
        ip: LOCALHOST,
        port: 9,
    };
    [wire.send(to, b"first"), wire.send(to, b"lost")]
}

/// What comes of two sends over a wire in memory whose second one fails, and how many datagrams it keeps.
fn sends_twice(alloc: Global) -> Result<([Sent; 2], usize), AllocError> {
    let fails = vec![in alloc; 2]?;
    let none = Vec::new(alloc);
    let mut wire = ScriptWire::create(alloc, Bound::Port(5), none, Vec::new(alloc), fails);
    Ok((send_twice(&mut wire), wire.sent().len()))
}

#[test]
fn a_wire_in_memory_keeps_what_is_sent(rt: HostRuntime) {
    assert!(rt; sends_twice(rt.alloc()) == Ok(([Sent::Sent, Sent::Failed], 1)));
}

/// A source of 10,000 sevens whose read of this number fails; no read has the number 0.
fn sevens(alloc: Global, fails: u64) -> Result<MemorySource, AllocError> {
    let fails = vec![in alloc; fails]?;
    let bytes = vec![in alloc; 7; 10_000]?;
    Ok(MemorySource::create(bytes, fails))
}

fn are_sevens(bytes: &[u8]) -> bool {
    for byte in bytes {
        if *byte != 7 {
            return false;
        }
    }
    true
}

/// How many sevens are read, where all bytes are sevens.
fn count_sevens(alloc: Global, source: &mut MemorySource) -> Result<Option<usize>, Stop> {
    let bytes = read_input(alloc, source)?;
    Ok(if are_sevens(&bytes) {
        Some(bytes.len())
    } else {
        None
    })
}

/// What comes of reading 10,000 sevens, where this read fails.
fn read_sevens(alloc: Global, fails: u64) -> Result<Option<usize>, Stop> {
    let Ok(mut source) = sevens(alloc, fails) else {
        return Err(Stop::NoMemory);
    };
    count_sevens(alloc, &mut source)
}

/// Whether all are read, or the fault is reported.
fn are_read_to_a_fault(alloc: Global) -> bool {
    read_sevens(alloc, 0) == Ok(Some(10_000))
        && read_sevens(alloc, 1) == Err(Stop::ReadFault)
        && read_sevens(alloc, 3) == Err(Stop::ReadFault)
}

#[test]
fn an_input_is_read_to_its_end_or_to_a_fault(rt: HostRuntime) {
    assert!(rt; are_read_to_a_fault(rt.alloc()));
}

/// Whether a read into two bytes ends so, and leaves these at their front.
fn gives<I: Source>(source: &mut I, end: Read, front: &[u8]) -> bool {
    let mut buf = [0u8; 2];
    source.read(&mut buf) == end && buf.starts_with(front)
}

/// Whether "abc", put into the sink, comes out of the source in two reads, and then its end.
fn passes<I: Source, O: Sink + Drop>(source: &mut I, sink: O) -> bool {
    let mut sink = sink;
    let is_put = sink.write(b"abc") == Wrote::Put(3);
    let is_front = gives(source, Read::Got(2), b"ab");
    drop(sink);
    is_put && is_front && gives(source, Read::Got(1), b"c") && gives(source, Read::End, b"")
}

/// Whether the standard ones do, over a pipe.
fn pass_through_a_pipe(rt: &HostRuntime) -> bool {
    let Ok((reader, writer)) = io::pipe(rt) else {
        return false;
    };
    let mut source = StdSource::create(reader);
    passes(&mut source, StdSink::create(writer))
}

#[test]
fn standard_ones_pass_bytes_through_a_pipe(rt: HostRuntime) {
    assert!(rt; pass_through_a_pipe(&rt));
}

/// What a receive into four bytes comes to.
fn received<W: Wire>(wire: &mut W) -> Recv {
    let mut buf = [0u8; 4];
    wire.recv(&mut buf)
}

/// Whether a receive into four bytes gives these of this peer.
fn receives<W: Wire>(wire: &mut W, from: Peer, bytes: &[u8]) -> bool {
    let mut buf = [0u8; 4];
    let len = bytes.len();
    wire.recv(&mut buf) == Recv::Got { len, from } && buf.starts_with(bytes)
}

/// The wire's own peer, once it is bound to this port, or to any free one where it is 0.
fn bound<W: Wire>(wire: &mut W, port: u16) -> Option<Peer> {
    match wire.bind(port) {
        Bound::Port(port) => Some(Peer {
            ip: LOCALHOST,
            port,
        }),
        Bound::Failed => None,
    }
}

/// Whether the wire, before it is bound, receives nothing, and then what it sends to itself, a datagram a call, cut off
/// at the end of the buffer; and may be bound to its port again.
fn hears_itself<W: Wire>(wire: &mut W) -> bool {
    let before = received(wire);
    let Some(own) = bound(wire, 0) else {
        return false;
    };
    before == Recv::Failed
        && wire.send(own, b"ab") == Sent::Sent
        && wire.send(own, b"longer") == Sent::Sent
        && receives(wire, own, b"ab")
        && receives(wire, own, b"long")
        && received(wire) == Recv::Idle
        && bound(wire, own.port) == Some(own)
}

#[test]
fn a_udp_wire_receives_what_it_sends_to_itself(rt: HostRuntime) {
    assert!(rt; hears_itself(&mut UdpWire::create(&rt)));
}

#[test]
fn a_standard_clock_counts_ticks_from_its_making(rt: HostRuntime) {
    let mut clock = StdClock::create(&rt);
    let first = clock.now();
    thread::sleep(&rt, Duration::from_millis(30));
    let second = clock.now();
    assert!(rt;
        first.saturating_add(3) <= second,
        "{first} and then {second}"
    );
}
