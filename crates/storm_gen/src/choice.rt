//! What is drawn for each call.

ghost use Rattle.std.specs.Prelude.{◌≡◌};
ghost use Rattle.storm_gen.specs.Generated.{choice};

use crate::draws::draw;
use cl_types::limits::PAGE_BYTES;
use cl_types::numbers::{Addr, ClientNo};
use rand_pcg::Pcg32;

/// What is drawn for each call, even if its kind doesn't need it all.
#[derive(Clone, Copy)]
pub struct Choice {
    /// One of the clients 1 to 4.
    pub client: ClientNo,
    /// The kind of call, 0 to 7.
    pub kind: u32,
    /// A multiple of 8.
    pub addr: Addr,
    /// A number of bytes, 1 to 64.
    pub len: u32,
}

/// Draws a client, a kind of call, a page, an offset in it, and a number of bytes.
pub fn choose(rng: &mut Pcg32) -> Choice
    ensures { (result, rng.new) ≡ choice rng.old }
{
    let client = draw(rng, 4);
    let kind = draw(rng, 8);
    let page = draw(rng, 136);
    let offset = draw(rng, 504);
    let len = draw(rng, 64);
    Choice {
        client: ClientNo((1 + client) as u16),
        kind,
        addr: Addr((1 + page) * PAGE_BYTES + 8 * offset),
        len: 1 + len,
    }
}
