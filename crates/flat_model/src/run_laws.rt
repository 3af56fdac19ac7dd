//! Laws of steps and runs: functions that do nothing, each with a law as its contract.

ghost use Rattle.flat_model.specs.RunLaws.{StateAfterIsFixed, ReadingChangesNothing, ChangingEntriesSuffice, RunsSplit};

/// A request, a state and a reply fix the state after the step.
#[tactic(auto, using(crate::proofs::RunLemmas::state_after_is_fixed))]
pub fn state_after_is_fixed()
    ensures { StateAfterIsFixed }
{}

/// A reading request leaves the state.
#[tactic(auto, using(crate::proofs::RunLemmas::reading_keeps))]
pub fn reading_changes_nothing()
    ensures { ReadingChangesNothing }
{}

/// The state after a history is the state after its changing entries.
#[tactic(auto, using(crate::proofs::RunLemmas::after_changing))]
pub fn changing_entries_suffice()
    ensures { ChangingEntriesSuffice }
{}

/// A run splits at any place.
#[tactic(auto, using(crate::proofs::RunLemmas::runs_split))]
pub fn runs_split()
    ensures { RunsSplit }
{}
