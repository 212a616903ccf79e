//! Tests of `tinymist_std` through its public calls: worked rows as tables, by topic.
#![tactic(auto)]

#[cfg(test)]
mod anew;
#[cfg(test)]
mod contexts;
#[cfg(test)]
mod errors;
#[cfg(test)]
mod fakes;
#[cfg(test)]
mod files;
#[cfg(test)]
mod fingerprints;
#[cfg(test)]
mod hashes;
#[cfg(test)]
mod locks;
#[cfg(test)]
mod logs;
#[cfg(test)]
mod maps;
#[cfg(test)]
mod path_texts;
#[cfg(test)]
mod queries;
#[cfg(test)]
mod replacing;
#[cfg(test)]
mod sharing;
#[cfg(test)]
mod steps;
#[cfg(test)]
mod tables;
#[cfg(test)]
mod values;
