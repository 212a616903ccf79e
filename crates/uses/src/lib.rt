//! How the library is called: one function for each use, each with a clause that says what it is for.
#![tactic(auto)]

mod disk;
mod edits;
mod fingerprints;
mod packages;
mod results;
mod steps;
#[cfg(test)]
mod tests;
mod views;
mod watching;

pub use disk::{OneFile, read_from_disk};
pub use edits::edit;
pub use fingerprints::fingerprint_of_file;
pub use packages::{OnePackage, live_with_package};
pub use results::{Kept, reuse};
pub use steps::view_and_ask;
pub use views::{UseFault, source_of_view};
pub use watching::take_event;
