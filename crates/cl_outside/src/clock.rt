//! `Clock`: where moments come from.

ghost use Rattle.std.specs.Prelude.{◌≡◌, IfSome};
ghost use Rattle.std.specs.Option.{option_map};
ghost use Rattle.std.specs.declared.option.Option.{Option};
ghost use Rattle.cl_outside.specs.Clock.{Moments, next_moment, after_moment};

/// Tells the moment. It can't fail, and it may go back: who needs moments that never fall takes the
/// greater of its answer and the last moment.
pub trait Clock {
    /// The answers that are still to come, and the one that is repeated after them, where the clock
    /// tells.
    ghost moments: { Self → Option Moments };

    /// The moment, in ticks.
    fn now(&mut self) -> u64
        ensures answer { IfSome (moments self.old) (λ told. result ≡ next_moment told) }
        ensures moments { moments self.new ≡ option_map after_moment (moments self.old) };
}
