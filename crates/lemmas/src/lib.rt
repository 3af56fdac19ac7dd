//! Lemmas that several crates cite: on lists, tests, pieces of bytes, and machines that leave out what is
//! nothing. No code, and no definition of the subject.
#![tactic(auto)]
