//! Laws of the frames of an account: their bytes are what they carry.

ghost use Rattle.trace_laws.specs.Spelled.{FramesAreSpelled, RepliesAreHeard};

/// Each frame for the node spells the one request that it carries, and each frame for a client the reply that it
/// carries, which is one to a request.
pub fn frames_spell_what_they_carry()
    ensures { FramesAreSpelled }
{}

/// A client hears a reply frame as the reply that it carries, for the part in flight under its orig, or as late. No
/// frame of an account is unfit for its client.
pub fn replies_are_heard_as_sent()
    ensures { RepliesAreHeard }
{}
