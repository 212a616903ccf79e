//! Paths as texts, values that can be shared, out of memory, and counts of steps.
#![tactic(auto)]

mod clean_path;
mod cleaned;
mod component;
mod joined;
mod memory;
mod parts;
mod pass;
mod relative;
mod share;
mod steps;
mod written;

pub use clean_path::CleanPath;
pub use cleaned::{clean, normalize_path, unix_slash};
pub use component::{Component, components};
pub use joined::{clean_join, join};
pub use memory::{ImmutBytes, ImmutPath, ImmutStr, OutOfMemory};
pub use parts::{file_name, folder_and_name, is_absolute, parent};
pub use pass::{are_names, is_clean};
pub use relative::{diff, strip_prefix};
pub use share::Share;
pub use steps::Steps;
