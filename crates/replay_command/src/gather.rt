//! Text on its way to a sink. It is held until there is enough of it, and written at once.

ghost use Rattle.std.specs.Prelude.{◌≡◌, [], IfErr, OnErr, OnOk};
ghost use Rattle.cl_outside.specs.Loops.{WroteFront};
ghost use Rattle.cl_outside.specs.Told.{Added};
ghost use Rattle.replay_command.specs.Gathered.{CountsBreak, CountsCut, Gathered};

use cl_outside::{Sink, write_all};
use cl_types::items::{Bytes, NoMemory};
use std::alloc::Global;

/// How many bytes are held before they are written.
const ENOUGH: usize = 65_536;

/// Why a text was cut short.
#[derive(Clone, Copy, Debug, PartialEq, Eq)]
pub enum Cut {
    /// A write failed: the sink's count of faults rose.
    WriteFault,
    /// An allocation failed.
    NoMemory,
}

impl From<NoMemory> for Cut {
    ghost use Rattle.std.specs.Prelude.{◌≡◌};
    ghost use Rattle.replay_command.specs.declared.gather.Cut.TheVariants.{NoMemory};

    ghost from_gives = { λ _ cut. cut ≡ NoMemory };

    fn from(_error: NoMemory) -> Self {
        Cut::NoMemory
    }
}

/// Writes all that is held.
pub fn flush<K: Sink>(alloc: Global, held: &mut Bytes, sink: &mut K) -> Result<(), Cut>
    ensures written { OnOk result (Added held.old (K.written sink.old) (K.written sink.new)) }
    ensures empty { OnOk result (held.new ≡ []) }
    ensures front { OnErr result (WroteFront held.old (K.written sink.old) (K.written sink.new)) }
    ensures fault { IfErr result (λ cut. cut ≡ Cut.WriteFault) }
    ensures counted { CountsCut (K.faults sink.old) (K.faults sink.new) result }
{
    if write_all(sink, held.as_slice()).is_err() {
        return Err(Cut::WriteFault);
    }
    *held = Bytes::create(alloc);
    Ok(())
}

/// Writes all that is held where an allocation failed, so that no finished line is lost. The answer
/// is why the text ends: that there was no memory, or that the write failed.
pub fn flush_and_stop<K: Sink>(held: &Bytes, sink: &mut K) -> Cut
    ensures written { result ≡ Cut.NoMemory
        → Added held.now (K.written sink.old) (K.written sink.new) }
    ensures front { WroteFront held.now (K.written sink.old) (K.written sink.new) }
    ensures counted { CountsBreak (K.faults sink.old) (K.faults sink.new) result }
{
    match write_all(sink, held.as_slice()) {
        Ok(()) => Cut::NoMemory,
        Err(_) => Cut::WriteFault,
    }
}

/// Writes what is held where it is enough.
pub fn flush_if_full<K: Sink>(alloc: Global, held: &mut Bytes, sink: &mut K) -> Result<(), Cut>
    ensures passed { OnOk result
        (Gathered held.old held.new (K.written sink.old) (K.written sink.new)) }
    ensures front { OnErr result (WroteFront held.old (K.written sink.old) (K.written sink.new)) }
    ensures fault { IfErr result (λ cut. cut ≡ Cut.WriteFault) }
    ensures counted { CountsCut (K.faults sink.old) (K.faults sink.new) result }
{
    if held.as_slice().len() < ENOUGH {
        return Ok(());
    }
    flush(alloc, held, sink)
}
