//! The texts of words, lines and faults, and the grammars of schedules, scripts and commands.
#![tactic(auto)]
