//! Worked ids, their order and their tags.

use std::alloc::Global;
use std::cmp::Ordering;
use std::hash::{DefaultHasher, Hash, Hasher};
use std::test::Fail;
use ty_syntax::{
    FileId, PackageSpec, PackageVersion, Root, SpecKey, TagFault, Tags, VirtualPath,
    detached_entry, memory_main_entry,
};

/// A specification of this name and patch version.
fn spec(alloc: Global, name: &str, patch: u32) -> Result<PackageSpec, Fail> {
    Ok(PackageSpec {
        namespace: String::from_str(alloc, "preview")?,
        name: String::from_str(alloc, name)?,
        version: PackageVersion {
            major: 0,
            minor: 1,
            patch,
        },
    })
}

/// A package of this name and patch version.
fn package(alloc: Global, name: &str, patch: u32) -> Result<Root, Fail> {
    Ok(Root::Package(spec(alloc, name, patch)?))
}

/// Names and patch versions of packages, from the least to the greatest.
static PACKAGES: [(&str, u32); 4] = [("a", 2), ("a", 10), ("aa", 0), ("b", 0)];

/// How the keys of two packages compare, and whether they are equal.
fn keys_compared(
    alloc: Global,
    one: (&str, u32),
    other: (&str, u32),
) -> Result<(Ordering, bool), Fail> {
    let one = SpecKey::new(spec(alloc, one.0, one.1)?);
    let other = SpecKey::new(spec(alloc, other.0, other.1)?);
    Ok((one.cmp(&other), one == other))
}

#[test]
fn keys_of_packages_are_ordered(rt: HostRuntime) -> Result<(), Fail> {
    for (place, package) in PACKAGES.iter().enumerate() {
        for (other_place, other) in PACKAGES.iter().enumerate() {
            let (order, same) = keys_compared(rt.alloc(), *package, *other)?;
            assert!(rt; order == place.cmp(&other_place));
            assert_eq!(rt; same, place == other_place);
        }
    }
    Ok(())
}

#[test]
fn ids_print_their_parts(rt: HostRuntime) -> Result<(), Fail> {
    let text = format!(in rt.alloc(); "{:?}", detached_entry(rt.alloc())?)?;
    let want =
        "FileId { parts: Parts { root: Project, vpath: VirtualPath { text: \"/__detached.typ\" }, tag: 1 } }";
    assert_eq!(rt; text.as_str(), want);
    Ok(())
}

/// Roots from the least to the greatest.
fn roots_in_order(alloc: Global) -> Result<Vec<Root>, Fail> {
    Ok(vec![in alloc;
        Root::Project,
        Root::Workspace(String::from_str(alloc, "/w/./a/..")?),
        Root::Workspace(String::from_str(alloc, "/x")?),
        Root::UntitledRooted(String::from_str(alloc, "/a")?),
        package(alloc, "a", 2)?,
        package(alloc, "a", 10)?,
        package(alloc, "b", 0)?,
    ]?)
}

/// Ids from the least to the greatest: by the root, then by the virtual path, and then by the tag.
fn ids_in_order(alloc: Global) -> Result<Vec<FileId>, Fail> {
    let mut ids = Vec::new(alloc);
    let mut tags = Tags::new();
    for root in roots_in_order(alloc)? {
        ids.push(FileId::intern(alloc, root, VirtualPath::new(alloc, "a.typ")?)?)?;
    }
    for root in roots_in_order(alloc)?.into_iter().skip(6) {
        let last = FileId::unique(alloc, root, VirtualPath::new(alloc, "a.typ")?, &mut tags)?;
        ids.push(last)?;
    }
    for root in roots_in_order(alloc)?.into_iter().skip(6) {
        ids.push(FileId::intern(alloc, root, VirtualPath::new(alloc, "b.typ")?)?)?;
    }
    Ok(ids)
}

#[test]
fn ids_are_ordered_by_their_parts(rt: HostRuntime) -> Result<(), Fail> {
    let ids = ids_in_order(rt.alloc())?;
    let again = ids_in_order(rt.alloc())?;
    assert_eq!(rt; ids.len(), 9);
    for (place, id) in ids.iter().enumerate() {
        for (other_place, other) in again.iter().enumerate() {
            assert!(rt; id.cmp(other) == place.cmp(&other_place));
            assert_eq!(rt; id == other, place == other_place);
        }
    }
    Ok(())
}

#[test]
fn spaces_are_drawn_once(rt: HostRuntime) {
    let mut tags = Tags::new();
    assert_eq!(rt; tags.fresh_space(), Ok(1));
    assert_eq!(rt; tags.fresh_space(), Ok(2));
}

#[test]
fn counters_end(rt: HostRuntime) {
    let mut tags = Tags::at(u64::MAX, u64::MAX);
    assert_eq!(rt; tags.fresh_id(), Err(TagFault::Full));
    assert_eq!(rt; tags.fresh_space(), Err(TagFault::Full));
}

/// The next tagged id of one root and virtual path.
fn tagged_id(alloc: Global, tags: &mut Tags) -> Result<FileId, TagFault> {
    let Ok(below) = VirtualPath::new(alloc, "a.typ") else {
        return Err(TagFault::OutOfMemory);
    };
    FileId::unique(alloc, Root::Project, below, tags)
}

/// The tag of an id that was made.
fn tag_of(made: Result<FileId, TagFault>) -> Result<u64, TagFault> {
    Ok(made?.tag())
}

#[test]
fn tags_are_spent_in_turn(rt: HostRuntime) {
    let mut tags = Tags::at(u64::MAX - 2, 1);
    assert_eq!(rt; tag_of(tagged_id(rt.alloc(), &mut tags)), Ok(u64::MAX - 2));
    assert_eq!(rt; tags.fresh_id(), Ok(u64::MAX - 1));
    assert_eq!(rt;
        tag_of(tagged_id(rt.alloc(), &mut tags)),
        Err(TagFault::Full)
    );
}

#[test]
fn entries_have_their_tags(rt: HostRuntime) -> Result<(), Fail> {
    let detached = detached_entry(rt.alloc())?;
    let main = memory_main_entry(rt.alloc())?;
    assert_eq!(rt; detached.vpath().get_without_slash(), "__detached.typ");
    assert_eq!(rt; main.vpath().get_without_slash(), "__main__.typ");
    assert_eq!(rt; (detached.tag(), main.tag()), (1, 2));
    assert!(rt; *detached.root() == Root::Project);
    assert!(rt; detached != main);
    Ok(())
}

/// What an id is hashed to.
fn hash_of(id: &FileId) -> u64 {
    let mut state = DefaultHasher::new();
    id.hash(&mut state);
    state.finish()
}

#[test]
fn equal_ids_hash_alike(rt: HostRuntime) -> Result<(), Fail> {
    let one = detached_entry(rt.alloc())?;
    let other = detached_entry(rt.alloc())?;
    assert_eq!(rt; hash_of(&one), hash_of(&other));
    assert!(rt; hash_of(&one) != hash_of(&memory_main_entry(rt.alloc())?));
    Ok(())
}
