//! Folders and files from outside: what packages are looked for in, and written to.
ghost use Rattle.std.specs.Prelude.{◌≡◌, Some, map, is_some, true};
ghost use Rattle.std.specs.FinMap as finmap;
ghost use Rattle.ty_model.specs.Paths.{clean};
ghost use Rattle.tinymist_package.specs.Folders.{FoldersSeen, FileOf, HasCause, Tells, Leaves, Makes, stored_at, list_in, plain_entry, can_write};

mod memory;
mod real;

pub use memory::MemoryFolders;
pub use real::RealFolders;
use std::alloc::Global;

/// What a call on folders answers.
#[derive(Debug, PartialEq, Eq, Drop)]
pub enum FolderAnswer<T> {
    /// It is done, and this is its answer.
    Done(T),
    /// It isn't done, and the count of faults rose, or stands at its last value.
    Failed,
    /// No memory was left.
    OutOfMemory,
}

/// What stands directly in a folder. Entries are ordered by name.
#[derive(Debug, PartialEq, Eq, PartialOrd, Ord, Drop)]
pub struct FolderEntry {
    /// Its name in the folder.
    pub name: String,
    /// Whether it is a folder.
    pub is_dir: bool,
}

/// Folders and files, with a count of the calls that failed. A path is taken by its cleaned form.
pub trait Folders {
    /// What they hold, where they tell it, and how often a call has failed.
    ghost seen: { Self → FoldersSeen };

    /// Whether a folder or a file is there.
    fn exists(&mut self, alloc: Global, path: &str) -> FolderAnswer<bool>
        ensures there { Tells result (seen self.old).contents (λ contents there. there ≡ is_some (stored_at contents path.now)) }
        ensures same { (seen self.new).contents ≡ (seen self.old).contents }
        ensures cause { HasCause result (seen self.old).faults (seen self.new).faults };

    /// What stands directly in a folder, by name; nothing of a path that is no folder.
    fn list(&mut self, alloc: Global, path: &str) -> FolderAnswer<Vec<FolderEntry>>
        ensures entries { Tells result (seen self.old).contents (λ contents entries. map plain_entry entries.items ≡ list_in contents path.now) }
        ensures same { (seen self.new).contents ≡ (seen self.old).contents }
        ensures cause { HasCause result (seen self.old).faults (seen self.new).faults };

    /// The bytes of a file. It fails at what is no file.
    fn read(&mut self, alloc: Global, path: &str) -> FolderAnswer<Vec<u8>>
        ensures bytes { Tells result (seen self.old).contents (λ contents bytes. stored_at contents path.now ≡ Some (FileOf bytes.items)) }
        ensures same { (seen self.new).contents ≡ (seen self.old).contents }
        ensures cause { HasCause result (seen self.old).faults (seen self.new).faults };

    /// Makes a folder, and the folders above it that are missing. It fails at and below a file.
    fn make(&mut self, alloc: Global, path: &str) -> FolderAnswer<()>
        ensures made { Leaves result (seen self.old).contents (seen self.new).contents (λ before after. Makes before (clean path.now) after) }
        ensures cause { HasCause result (seen self.old).faults (seen self.new).faults };

    /// Puts a file with these bytes. It fails at a folder, and where the folder that it would stand in isn't one.
    fn write(&mut self, alloc: Global, path: &str, bytes: &[u8]) -> FolderAnswer<()>
        ensures written { Leaves result (seen self.old).contents (seen self.new).contents (λ before after. (can_write before (clean path.now) ≡ true) × (after ≡ finmap.insert before (clean path.now) (FileOf bytes.now))) }
        ensures cause { HasCause result (seen self.old).faults (seen self.new).faults };
}
