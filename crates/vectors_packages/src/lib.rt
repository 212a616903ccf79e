//! Tests of packages through their public calls: worked rows as tables, by topic.
#![tactic(auto)]

#[cfg(test)]
mod folders;
#[cfg(test)]
mod packs;
#[cfg(test)]
mod registries;
