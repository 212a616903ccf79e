//! Tests of disks and of the layers through their public calls: worked rows as tables, by topic.
#![tactic(auto)]

#[cfg(test)]
mod disks;
#[cfg(test)]
mod files;
#[cfg(test)]
mod layers;
