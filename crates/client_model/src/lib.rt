//! A client as a machine of its own: how a call is cut, which calls wait for which, what is issued, sent, heard and answered.
#![tactic(auto)]
