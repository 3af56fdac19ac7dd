//! Laws of the least start: functions that do nothing, each with a law as its contract.

ghost use Rattle.flat_model.specs.StartLaws.{LeastStartIsTheLeast, NoStartFitsWhereThereIsNone};

/// What is found as the least start is the least at which the pages fit.
#[tactic(auto, using(crate::proofs::LeastLemmas::least_start_is_the_least))]
pub fn least_start_is_the_least()
    ensures { LeastStartIsTheLeast }
{}

/// There is no least start exactly where at least one page fits nowhere.
#[tactic(auto, using(crate::proofs::LeastLemmas::no_start_fits))]
pub fn no_start_fits_where_there_is_none()
    ensures { NoStartFitsWhereThereIsNone }
{}
