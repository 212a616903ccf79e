//! Maps whose older versions stay.
#![tactic(auto)]

mod entry;
mod iter;
mod map;
mod text_key;
mod tree;

pub use iter::Iter;
pub use map::Map;
pub use ty_path::Steps;
