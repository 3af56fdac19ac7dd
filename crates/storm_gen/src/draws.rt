//! Draws from a generator.

ghost use Rattle.std.specs.Prelude.{◌≡◌, ◌<◌};
ghost use Rattle.storm_gen.specs.Generated.{draw};

use rand_core::utils::NextWord;
use rand_pcg::Pcg32;

/// Draws the generator's next word modulo `n`.
pub fn draw(rng: &mut Pcg32, n: u32) -> u32
    requires { 0 < n }
    ensures drawn { (result, rng.new) ≡ draw n rng.old }
    ensures below { result < n }
{
    rng.next_word() % n
}
