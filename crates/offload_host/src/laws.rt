//! What the calls are to the flat machine.

ghost use Rattle.offload_host.specs.Laws.{CallsAreOffloads};

/// A call on the space that holds an offload's object is the flat machine's Offload: so are its reply and the objects
/// after it.
#[tactic(auto, using(crate::proofs::LawLemmas::call_is_offload))]
pub fn calls_are_offloads()
    ensures { CallsAreOffloads }
{}
