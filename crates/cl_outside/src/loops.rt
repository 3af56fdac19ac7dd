//! Reading an input to its end, and writing all bytes.

ghost use Rattle.std.specs.Prelude.{◌≡◌, ◌<◌, ◌≤◌, ◌+◌, ◌-◌, ◌++◌, [], length, IfOk, OnOk, IfErr, OnErr, IfSome, IsErrOf};
ghost use Rattle.cl_outside.specs.Told.{Added};
ghost use Rattle.cl_outside.specs.Loops.{CountsReads, CountsWrites, GotPiece, IsPieceStop, IsReadStop, TookCount, TookUpTo, WroteFront};
ghost use Rattle.cl_types.specs.declared.limits.TheConstants.{INPUT_BYTES};
ghost use Rattle.cl_outside.specs.declared.loops.TheConstants.{PIECE};

use crate::{Read, Sink, Source, Wrote};
use cl_types::limits::INPUT_BYTES;
use std::alloc::{AllocError, Global};

// How many bytes are read at once.
const PIECE: usize = 4096;

/// Why an input was not read to its end, or not all bytes were written.
#[derive(Clone, Copy, Debug, PartialEq, Eq)]
pub enum Stop {
    /// A read failed: the source's count of faults rose.
    ReadFault,
    /// The input has more than `INPUT_BYTES` bytes.
    TooLong,
    /// There was no memory to keep what was read.
    NoMemory,
    /// A write failed: the sink's count of faults rose.
    WriteFault,
}

impl From<AllocError> for Stop {
    ghost use Rattle.std.specs.Prelude.{◌≡◌};
    ghost use Rattle.cl_outside.specs.declared.loops.Stop.TheVariants.{NoMemory};

    ghost from_gives = { λ _ stop. stop ≡ NoMemory };

    fn from(_error: AllocError) -> Self {
        Stop::NoMemory
    }
}

// How many bytes to ask for after `len` bytes: at most a piece, and at most one byte more than an input may have.
fn room_after(len: usize) -> usize
    requires { len ≤ INPUT_BYTES }
    ensures some { 0 < result }
    ensures within { result ≤ INPUT_BYTES + 1 - len }
    ensures piece { result ≤ PIECE }
{
    (INPUT_BYTES + 1 - len).min(PIECE)
}

// Reads one piece and appends it. False says that the input has ended.
fn read_piece<S: Source>(source: &mut S, bytes: &mut Vec<u8>) -> Result<bool, Stop>
    requires { length bytes.old.items ≤ INPUT_BYTES }
    ensures got { IfOk result (λ more.
        GotPiece more bytes.old.items bytes.new.items (S.left source.old) (S.left source.new)) }
    ensures stop { IfErr result IsPieceStop }
    ensures taken { OnErr result (TookUpTo (INPUT_BYTES + 1 - length bytes.old.items)
        (S.left source.old) (S.left source.new)) }
    ensures kept { IsErrOf result Stop.ReadFault → S.left source.new ≡ S.left source.old }
    ensures counted { CountsReads (S.faults source.old) (S.faults source.new) result }
{
    let mut piece = [0u8; PIECE];
    let room = room_after(bytes.len());
    match source.read(&mut piece[..room]) {
        Read::Got(count) => {
            bytes.extend_from_slice(&piece[..count])?;
            Ok(true)
        }
        Read::End => Ok(false),
        Read::Failed => Err(Stop::ReadFault),
    }
}

/// Reads an input to its end. An input of more than `INPUT_BYTES` bytes is read up to the first
/// byte that is too many.
pub fn read_input<S: Source>(alloc: Global, source: &mut S) -> Result<Vec<u8>, Stop>
    ensures all { IfOk result (λ bytes. IfSome (S.left source.old) (λ left. bytes.items ≡ left)) }
    ensures end { OnOk result (IfSome (S.left source.new) (λ left. left ≡ [])) }
    ensures short { IfOk result (λ bytes. length bytes.items ≤ INPUT_BYTES) }
    ensures counted { CountsReads (S.faults source.old) (S.faults source.new) result }
    ensures stop { IfErr result IsReadStop }
    ensures taken { TookUpTo (INPUT_BYTES + 1) (S.left source.old) (S.left source.new) }
    ensures within { IsErrOf result Stop.ReadFault
        → TookUpTo INPUT_BYTES (S.left source.old) (S.left source.new) }
    ensures long { IsErrOf result Stop.TooLong
        → IfSome (S.left source.old) (λ left. INPUT_BYTES < length left) }
    ensures stopped { IsErrOf result Stop.TooLong
        → TookCount (INPUT_BYTES + 1) (S.left source.old) (S.left source.new) }
{
    let mut bytes = Vec::new(alloc);
    while bytes.len() <= INPUT_BYTES {
        if !read_piece(source, &mut bytes)? {
            return Ok(bytes);
        }
    }
    Err(Stop::TooLong)
}

/// Writes all of these bytes. Where a write fails, a front of them was written.
pub fn write_all<K: Sink>(sink: &mut K, bytes: &[u8]) -> Result<(), Stop>
    ensures all { OnOk result (Added bytes.now (K.written sink.old) (K.written sink.new)) }
    ensures front { OnErr result (WroteFront bytes.now (K.written sink.old) (K.written sink.new)) }
    ensures counted { CountsWrites (K.faults sink.old) (K.faults sink.new) result }
    ensures stop { IfErr result (λ stop. stop ≡ Stop.WriteFault) }
{
    let mut done = 0;
    while done < bytes.len() {
        let (_, rest) = bytes.split_at(done);
        match sink.write(rest) {
            Wrote::Put(count) => done += count,
            Wrote::Failed => return Err(Stop::WriteFault),
        }
    }
    Ok(())
}
