//! What the operations are to each other.

ghost use Rattle.mv_offload.specs.Laws.{ReadsGiveWhatWasAppended, VersionsStay};

/// A version that is there stays as it is, whatever operations come.
#[tactic(auto, using(crate::proofs::LawLemmas::versions_stay))]
pub fn versions_stay()
    ensures { VersionsStay }
{}

/// Once a version was appended, a read of it gives these bytes ever after.
pub fn reads_give_what_was_appended()
    ensures { ReadsGiveWhatWasAppended }
{}
