//! Why a node doesn't open.

use crate::config::Field;
use crate::items::NoMemory;

/// Why a configuration doesn't open. The first that holds is told.
#[derive(Clone, Copy, Debug, PartialEq, Eq)]
pub enum OpenFault {
    /// This number is the first that is out of its range, in the order of `bad_number`.
    BadConfig { field: Field, value: u64 },
    /// The `pages` pages of this offload are the first that bring a bucket above four pages, or all pages of the
    /// offloads above the pages of the node.
    NoRoom { offload: u8, pages: u32 },
    /// There was no memory.
    NoMemory,
}

impl From<NoMemory> for OpenFault {
    ghost use Rattle.std.specs.Prelude.{◌≡◌};
    ghost use Rattle.cl_types.specs.declared.open_fault.OpenFault.TheVariants.{NoMemory};

    ghost from_gives = { λ _ fault. fault ≡ NoMemory };

    fn from(_error: NoMemory) -> Self {
        OpenFault::NoMemory
    }
}
