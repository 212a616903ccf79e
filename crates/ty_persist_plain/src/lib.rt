//! The plain slow form of the maps, which tests compare with `Map`.
#![tactic(auto)]

mod entry;
mod list_iter;
mod list_map;

pub use list_iter::ListIter;
pub use list_map::ListMap;
