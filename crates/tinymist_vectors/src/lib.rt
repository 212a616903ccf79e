//! Tests of the session through its public calls: worked rows as tables, by topic.
#![tactic(auto)]

#[cfg(test)]
mod disk;
#[cfg(test)]
mod session;
