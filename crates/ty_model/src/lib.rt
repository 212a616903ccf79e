//! The definitions that several crates cite. There is no code here: read `specs/`.
#![tactic(auto)]
