//! The input of a command.

ghost use Rattle.std.specs.Prelude.{◌+◌, IfOk, IsErrOf};
ghost use Rattle.cl_outside.specs.Loops.{TookUpTo};
ghost use Rattle.command_text.specs.Serving.{CountsHalt, IsTaken};

use cl_outside::{Source, Stop, read_input};
use cl_types::items::NoMemory;
use cl_types::limits::INPUT_BYTES;
use std::alloc::Global;

/// What was read.
#[derive(Drop)]
pub enum Input {
    /// All bytes of the source.
    Whole(Vec<u8>),
    /// The source has more bytes than an input may have.
    TooMany,
}

/// Why nothing was read.
#[derive(Clone, Copy)]
pub enum Halt {
    /// A read failed: the source's count of faults rose.
    ReadFault,
    /// An allocation failed.
    NoMemory,
}

impl From<NoMemory> for Halt {
    ghost use Rattle.std.specs.Prelude.{◌≡◌};
    ghost use Rattle.command_text.specs.declared.input.Halt.TheVariants.{NoMemory};

    ghost from_gives = { λ _ halt. halt ≡ NoMemory };

    fn from(_error: NoMemory) -> Self {
        Halt::NoMemory
    }
}

/// Reads the input to its end, or up to the first byte that is too many.
pub fn take_input<S: Source>(alloc: Global, source: &mut S) -> Result<Input, Halt>
    ensures taken { IfOk result (IsTaken (S.left source.old) (S.left source.new)) }
    ensures counted { CountsHalt (S.faults source.old) (S.faults source.new) result }
    ensures most { TookUpTo (INPUT_BYTES + 1) (S.left source.old) (S.left source.new) }
    ensures within { IsErrOf result Halt.ReadFault
        → TookUpTo INPUT_BYTES (S.left source.old) (S.left source.new) }
{
    match read_input(alloc, source) {
        Ok(bytes) => Ok(Input::Whole(bytes)),
        Err(Stop::TooLong) => Ok(Input::TooMany),
        Err(Stop::ReadFault) => Err(Halt::ReadFault),
        Err(Stop::NoMemory) => Err(Halt::NoMemory),
        Err(Stop::WriteFault) => unreachable!(),
    }
}
