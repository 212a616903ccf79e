//! Packages: what lists them, where they stand, and the folders and packs that hold their files.
#![tactic(auto)]

mod fault;
mod folders;
mod index;
mod pack;
mod registry;

pub use fault::{PackageFault, PackageResult};
pub use folders::{FolderAnswer, FolderEntry, Folders, MemoryFolders, RealFolders};
pub use index::{
    DEFAULT_PACKAGES_SUBDIR, DEFAULT_REGISTRY, PREVIEW_NS, PackageIndexEntry, PackageSpecExt,
};
pub use pack::{FilterPack, MapPack, PackEntries, PackFile, PackFs, TakesFiles, Unsupported};
pub use registry::{DummyRegistry, MemoryRegistry, PackageRegistry};
