//! `StdSource` and `StdSink`: std's readers and writers, as standard input and output.

ghost use Rattle.std.specs.Prelude.{◌≡◌, None};
ghost use Rattle.cl_outside.specs.Counts.{no_faults};

use crate::faults::Faults;
use crate::{Read, Sink, Source, Wrote};
use std::io;

/// Reads from one of std's readers. Each error of the reader is a fault.
#[derive(Drop)]
pub struct StdSource<R> {
    reader: R,
    faults: Faults,
}

impl<R> StdSource<R> {
    /// A source over this reader, as `rt.stdin()`.
    pub fn create(reader: R) -> Self
        ensures { result.faults ≡ no_faults }
    {
        StdSource {
            reader,
            faults: Faults::none(),
        }
    }
}

impl<R: io::Read> Source for StdSource<R> {
    ghost left = { λ _. None };

    ghost faults = { λ s. s.faults };

    fn read(&mut self, buf: &mut [u8]) -> Read {
        match self.reader.read(buf) {
            Ok(count) => {
                self.faults.pass();
                if count == 0 {
                    return Read::End;
                }
                Read::Got(count)
            }
            Err(_) => {
                self.faults.fail();
                Read::Failed
            }
        }
    }
}

/// Writes to one of std's writers. Each error of the writer is a fault, and so is a write that
/// takes no byte.
///
/// It keeps no byte back, since what was told as put has to be written: each write is one of the
/// writer's. So a caller with many short pieces gathers them before it writes.
#[derive(Drop)]
pub struct StdSink<W> {
    writer: W,
    faults: Faults,
}

impl<W> StdSink<W> {
    /// A sink over this writer, as `rt.stdout()`, which has no buffer. Bytes that a writer with a
    /// buffer holds are told as put, and only its own flush shows whether they arrive.
    pub fn create(writer: W) -> Self
        ensures { result.faults ≡ no_faults }
    {
        StdSink {
            writer,
            faults: Faults::none(),
        }
    }
}

impl<W: io::Write> Sink for StdSink<W> {
    ghost written = { λ _. None };

    ghost faults = { λ s. s.faults };

    fn write(&mut self, piece: &[u8]) -> Wrote {
        match self.writer.write(piece) {
            Ok(0) | Err(_) => {
                self.faults.fail();
                Wrote::Failed
            }
            Ok(count) => {
                self.faults.pass();
                Wrote::Put(count)
            }
        }
    }
}
