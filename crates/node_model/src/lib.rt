//! The keeping node and the ideal node: a flat state, and the replies that are recorded.
#![tactic(auto)]
