//! `Sink`: where bytes are written to.

ghost use Rattle.std.specs.Prelude.{◌<◌, ◌≤◌, List, ℕ, length};
ghost use Rattle.std.specs.declared.option.Option.{Option};
ghost use Rattle.cl_outside.specs.declared.faults.Faults.{Faults};
ghost use Rattle.cl_outside.specs.Sink.{CountsWrite, Writes};

/// What a write did.
#[derive(Clone, Copy, Debug, PartialEq, Eq)]
pub enum Wrote {
    /// So many bytes of the piece, at least one, were taken from its front.
    Put(usize),
    /// The write failed, and the count of faults rose.
    Failed,
}

/// Takes bytes one piece after another.
pub trait Sink {
    /// The bytes that were written, where the sink tells.
    ghost written: { Self → Option (List ℕ) };

    /// Which writes have failed: how many, and whether the last one did.
    ghost faults: { Self → Faults };

    /// Writes a front of the piece, which must not be empty. A write that fails leaves what was
    /// written.
    fn write(&mut self, piece: &[u8]) -> Wrote
        requires { 0 < length piece.now }
        ensures bytes { Writes (written self.old) (written self.new) piece.now result }
        ensures cause { CountsWrite (faults self.old) (faults self.new) result };
}
