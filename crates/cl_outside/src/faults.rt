//! `Faults`: which calls of an object failed, as far as a caller has to know.

ghost use Rattle.std.specs.Prelude.{◌≡◌};
ghost use Rattle.cl_outside.specs.Counts.{after_fault, after_good, no_faults};

/// How many calls of an object have failed, and whether the last of its calls did. The count stays
/// at 2^64 - 1.
#[derive(Clone, Copy, Debug, PartialEq, Eq)]
pub struct Faults {
    pub count: u64,
    pub last: bool,
}

impl Faults {
    // No call was made.
    pub(crate) fn none() -> Faults
        ensures { result ≡ no_faults }
    {
        Faults {
            count: 0,
            last: false,
        }
    }

    // A call failed.
    pub(crate) fn fail(&mut self)
        ensures { self.new ≡ after_fault self.old }
    {
        self.count = self.count.saturating_add(1);
        self.last = true;
    }

    // A call did not fail.
    pub(crate) fn pass(&mut self)
        ensures { self.new ≡ after_good self.old }
    {
        self.last = false;
    }
}
