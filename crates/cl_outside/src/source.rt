//! `Source`: where bytes are read from.

ghost use Rattle.std.specs.Prelude.{◌<◌, ◌≤◌, List, ℕ, length};
ghost use Rattle.std.specs.declared.option.Option.{Option};
ghost use Rattle.cl_outside.specs.declared.faults.Faults.{Faults};
ghost use Rattle.cl_outside.specs.Source.{CountsRead, Reads};

/// What a read gave.
#[derive(Clone, Copy, Debug, PartialEq, Eq)]
pub enum Read {
    /// So many bytes, at least one, at the front of the buffer.
    Got(usize),
    /// No byte is left.
    End,
    /// The read failed, and the count of faults rose.
    Failed,
}

/// Bytes that come one piece after another.
pub trait Source {
    /// The bytes that are left, where the source tells.
    ghost left: { Self → Option (List ℕ) };

    /// Which reads have failed: how many, and whether the last one did.
    ghost faults: { Self → Faults };

    /// Reads a piece into the front of the buffer, which must not be empty. A read that fails or
    /// finds the end leaves what is left.
    fn read(&mut self, buf: &mut [u8]) -> Read
        requires { 0 < length buf.old }
        ensures bytes { Reads (left self.old) (left self.new) buf.new result }
        ensures cause { CountsRead (faults self.old) (faults self.new) result };
}
