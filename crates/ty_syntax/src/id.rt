//! Ids of files: a root, a virtual path and a tag.
ghost use Rattle.std.specs.Prelude.{◌≡◌, ◌+◌, ◌-◌, ◌^◌, ◌↔◌, IfOk, OnErr, IsErrOf, fold, refl};
ghost use Rattle.std.specs.String.{string_bytes};
ghost use Rattle.ty_model.specs.Paths as paths;
ghost use Rattle.ty_model.specs.Values as plain;
ghost use Rattle.std.specs.Ordering.{as_partial_cmp};
ghost use Rattle.ty_model.specs.Version.{same_id};
ghost use Rattle.ty_syntax.specs.IdOrder.{root_cmp, id_total, id_equiv, id_part, id_order};
ghost use Rattle.ty_syntax.specs.IdHash.{fed_root, fed_id, fed_alike};
ghost use Rattle.ty_syntax.specs.Id.{root_of};
ghost use Rattle.ty_model.specs.Places.{interned, stored_root};

use crate::spec::PackageSpec;
use crate::tags::{TagFault, Tags};
use crate::vpath::VirtualPath;
use std::alloc::Global;
use std::cmp::Ordering;
use std::hash::{Hash, Hasher};
use std::marker::Model;
use std::sync::Arc;
use ty_path::{OutOfMemory, Share, clean, is_clean};

/// What a virtual path stands below.
#[derive(Debug, PartialEq, Eq, PartialOrd, Ord, Hash, Drop)]
pub enum Root {
    /// Nothing that has a path.
    Project,
    /// A folder.
    Workspace(String),
    /// A folder, for a file that has no path yet.
    UntitledRooted(String),
    /// A package.
    Package(PackageSpec),
}

impl Root {
    ghost use Rattle.ty_syntax.specs.Id.{root_of};

    fn into_stored(self, alloc: Global) -> Result<Root, OutOfMemory>
        ensures { IfOk result (λ root. root_of root ≡ stored_root (root_of self)) }
    {
        match self {
            Root::Workspace(root) => Ok(Root::Workspace(cleaned(alloc, root)?)),
            Root::UntitledRooted(root) => Ok(Root::UntitledRooted(cleaned(alloc, root)?)),
            other => Ok(other),
        }
    }
}

/// The path, cleaned where it isn't clean.
fn cleaned(alloc: Global, path: String) -> Result<String, OutOfMemory>
    ensures { IfOk result (λ text. string_bytes text ≡ paths.clean (string_bytes path)) }
{
    if is_clean(path.as_str()) {
        return Ok(path);
    }
    clean(alloc, path.as_str())
}

#[derive(Debug, Drop)]
struct Parts {
    root: Root,
    vpath: VirtualPath,
    tag: u64,
}

/// An id: one shared value of three parts, by which it is compared and ordered. Contracts see the parts.
#[derive(Debug, Drop)]
pub struct FileId {
    parts: Arc<Parts>,
}

impl Model for FileId {
    ghost use Rattle.ty_model.specs.Values.{Id};
    ghost use Rattle.ty_syntax.specs.IdParts.{id_of_parts};
    ghost use Rattle.std.specs.Arc.{arc_value};

    ghost Value = { Id };

    ghost view = { λ i. id_of_parts (arc_value i.parts) };
}

impl FileId {
    ghost use Rattle.ty_syntax.specs.Id.{root_of, tagged};

    /// The id without a tag. The root of a workspace is stored cleaned.
    pub fn intern(alloc: Global, root: Root, vpath: VirtualPath) -> Result<FileId, OutOfMemory>
        ensures { IfOk result (λ id. id ≡ interned (root_of root) vpath) }
    {
        FileId::tagged(alloc, root, vpath, 0)
    }

    /// The id with a fresh tag. The tag is spent only where this answers `Ok`, and the root of a
    /// workspace is stored cleaned.
    ///
    /// # Errors
    ///
    /// `Full` exactly where the counter of tags stands at its last value.
    pub fn unique(
        alloc: Global,
        root: Root,
        vpath: VirtualPath,
        tags: &mut Tags,
    ) -> Result<FileId, TagFault>
        ensures ok { IfOk result (λ id. (id ≡ tagged (root_of root) vpath tags.old.next_id) × (tags.new ≡ record tags.old { next_id = tags.old.next_id + 1 })) }
        ensures err { OnErr result (tags.new ≡ tags.old) }
        ensures full { IsErrOf result TagFault.Full ↔ (tags.old.next_id ≡ 2 ^ 64 - 1) }
    {
        let tag = tags.next_id()?;
        let id = FileId::tagged(alloc, root, vpath, tag)?;
        tags.spend_id();
        Ok(id)
    }

    pub(crate) fn tagged(
        alloc: Global,
        root: Root,
        vpath: VirtualPath,
        tag: u64,
    ) -> Result<FileId, OutOfMemory>
        ensures { IfOk result (λ id. id ≡ tagged (root_of root) vpath tag) }
    {
        let parts = Parts {
            root: root.into_stored(alloc)?,
            vpath,
            tag,
        };
        Ok(FileId {
            parts: Arc::new(alloc, parts)?,
        })
    }

    /// What the virtual path stands below, as it is stored.
    pub fn root(&self) -> &Root
        ensures { root_of result.now ≡ self.now.root }
    {
        &self.parts.root
    }

    /// The virtual path below the root.
    pub fn vpath(&self) -> &VirtualPath
        ensures { result.now ≡ self.now.vpath }
    {
        &self.parts.vpath
    }

    /// The tag: 0 of an interned id, 1 of the detached entry, 2 of the main file in memory, and else a number drawn
    /// from `Tags`.
    pub fn tag(&self) -> u64
        ensures { result ≡ self.now.tag }
    {
        self.parts.tag
    }
}

impl Share for FileId {
    ghost Seen = { plain.Id };

    ghost seen = { λ i. i };

    fn share(&self, _alloc: Global) -> Result<FileId, OutOfMemory> {
        Ok(FileId {
            parts: Arc::try_clone(&self.parts)?,
        })
    }
}

fn order_of_roots(a: &Root, b: &Root) -> Ordering
    ensures { result ≡ root_cmp (root_of a.now) (root_of b.now) }
{
    a.cmp(b)
}

impl PartialEq for FileId {
    ghost eq = { same_id };

    ghost laws = { id_part };

    fn eq(&self, other: &FileId) -> bool {
        self.cmp(other).is_eq()
    }
}

impl Eq for FileId {
    ghost laws = { id_equiv };
}

impl PartialOrd for FileId {
    ghost partial_cmp = { as_partial_cmp plain.id_cmp };

    ghost laws = { id_order };

    fn partial_cmp(&self, other: &FileId) -> Option<Ordering> {
        Some(self.cmp(other))
    }
}

impl Ord for FileId {
    ghost cmp = { plain.id_cmp };

    ghost total = { id_total };

    ghost matches_partial_cmp = { λ x y. refl };

    ghost matches_eq = { λ x y. refl };

    fn cmp(&self, other: &FileId) -> Ordering {
        order_of_roots(&self.parts.root, &other.parts.root)
            .then_with(|| {
                self.parts
                    .vpath
                    .get_with_slash()
                    .cmp(other.parts.vpath.get_with_slash())
            })
            .then_with(|| self.parts.tag.cmp(&other.parts.tag))
    }
}

fn feed_root<H: Hasher>(root: &Root, state: &mut H)
    ensures { state.new ≡ fold H.write state.old (fed_root (root_of root.now)) }
{
    root.hash(state);
}

impl Hash for FileId {
    ghost hash_input = { fed_id };

    ghost respects_eq = { fed_alike };

    fn hash<H: Hasher>(&self, state: &mut H) {
        feed_root(&self.parts.root, state);
        self.parts.vpath.get_with_slash().hash(state);
        self.parts.tag.hash(state);
    }
}
