//! The parts of bytes between separators, each as a piece of them.

ghost use Rattle.std.specs.Prelude.{◌≡◌, ◌<◌, ◌∷◌, ◌==◌, length, IfSome};
ghost use Rattle.std.specs.List.{position, slice_split};
ghost use Rattle.schedule_text.specs.Parts.{parts_left};

/// Where the first separator stands.
fn place_of(bytes: &[u8], separator: u8) -> Option<usize>
    ensures { result ≡ position (λ b. b == separator) bytes.now }
{
    bytes.iter().position(|b| *b == separator)
}

/// What stands before the first separator, and what stands behind it, where there is one.
#[tactic(auto, using(crate::proofs::PartLemmas::split_here, crate::proofs::PartLemmas::split_none))]
pub fn cut(bytes: &[u8], separator: u8) -> (&[u8], Option<&[u8]>)
    ensures parts { slice_split (λ b. b == separator) bytes.now
        ≡ result.0.now ∷ parts_left separator result.1 }
    ensures shorter { IfSome result.1 (λ rest. length rest.now < length bytes.now) }
{
    match place_of(bytes, separator) {
        None => (bytes, None),
        Some(place) => (&bytes[..place], Some(&bytes[place + 1..])),
    }
}
