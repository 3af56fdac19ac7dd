//! Which of two numbers is picked.

ghost use Rattle.std.specs.Prelude.{◌≡◌};
ghost use Rattle.df_offload.specs.Layout.{picked, picked_on};

/// Which of two numbers is picked.
#[derive(Clone, Copy, Debug)]
pub enum Pick {
    /// The lesser one.
    Least,
    /// The greater one.
    Greatest,
}

impl Pick {
    /// The picked one of two numbers.
    fn of(self, number: u64, other: u64) -> u64
        ensures { result ≡ picked self number other }
    {
        match self {
            Pick::Least => number.min(other),
            Pick::Greatest => number.max(other),
        }
    }

    /// The picked one of those before, if there were any, and one more.
    pub(crate) fn on(self, best: Option<u64>, number: u64) -> u64
        ensures { result ≡ picked_on self best number }
    {
        match best {
            None => number,
            Some(best) => self.of(best, number),
        }
    }
}
