//! Tests of paths, ids, sources and maps through their public calls: worked rows as tables, by topic.
#![tactic(auto)]

#[cfg(test)]
mod clean_paths;
#[cfg(test)]
mod file_errors;
#[cfg(test)]
mod ids;
#[cfg(test)]
mod maps;
#[cfg(test)]
mod paths;
#[cfg(test)]
mod repairs;
#[cfg(test)]
mod sources;
#[cfg(test)]
mod virtual_paths;
