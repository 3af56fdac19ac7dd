//! Laws of verdicts: functions that do nothing, each with a law as its contract.

ghost use Rattle.history_check.specs.VerdictLaws.{VerdictIsFixed};

/// A history has at most one verdict: a run has no first bad entry, and there is one first bad entry at most.
#[tactic(auto, using(crate::proofs::VerdictLemmas::verdict_is_fixed))]
pub fn verdict_is_fixed()
    ensures { VerdictIsFixed }
{}
