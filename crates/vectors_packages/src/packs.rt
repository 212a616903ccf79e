//! Packs in memory: walks, refusals, and clones.
use indexmap::IndexMap;
use std::alloc::Global;
use std::sync::Arc;
use std::test::Fail;
use tinymist_package::{MapPack, PackFile, PackFs, PackageFault};
use ty_path::{ImmutBytes, OutOfMemory};
use ty_syntax::PackageError;

/// A pack of files, each holding its path.
fn pack(alloc: Global, paths: &[&str]) -> Result<MapPack, Fail> {
    let mut files: IndexMap<String, ImmutBytes> = IndexMap::new(alloc);
    for path in paths {
        let bytes = Arc::new(alloc, path.as_bytes().to_vec(alloc)?)?;
        files.insert(String::from_str(alloc, path)?, bytes)?;
    }
    Ok(MapPack::new(files))
}

/// The paths that a walk hands over, each followed by a space, up to one that is refused.
fn walked<P: PackFs>(alloc: Global, pack: &mut P, refused: &str) -> Result<String, OutOfMemory>
    requires { P.can_walk pack.old }
{
    let mut paths = String::new(alloc);
    let mut lacks = false;
    let _end = pack.read_all(
        alloc,
        &mut |path: &str, _file: PackFile| {
            if path == refused {
                return Err(PackageFault::Package(PackageError::Other(None)));
            }
            lacks = paths.push_str(path).is_err() || paths.push(' ').is_err() || lacks;
            Ok(())
        },
    );
    if lacks { Err(OutOfMemory) } else { Ok(paths) }
}

#[test]
fn files_come_in_the_order_of_insertion(rt: HostRuntime) -> Result<(), Fail> {
    let mut files = pack(rt.alloc(), &["b", "a", "b"])?;
    assert_eq!(rt; walked(rt.alloc(), &mut files, "")?.as_str(), "b a ");
    assert_eq!(rt; walked(rt.alloc(), &mut files, "a")?.as_str(), "b ");
    assert!(rt; files.read("a").is_err());
    assert!(rt; files.entries().is_err());
    Ok(())
}

#[test]
fn a_filter_leaves_files_out(rt: HostRuntime) -> Result<(), Fail> {
    let mut files = pack(rt.alloc(), &["b", "a"])?;
    let mut chosen = files.filter(|path: &str| path != "b");
    let paths = walked(rt.alloc(), &mut chosen, "")?;
    assert_eq!(rt; paths.as_str(), "a ");
    Ok(())
}

#[test]
fn a_clone_keeps_the_places_of_files(rt: HostRuntime) -> Result<(), Fail> {
    let alloc = rt.alloc();
    let mut files = pack(alloc, &["c", "a"])?;
    let mut others = pack(alloc, &["b", "a"])?;
    assert!(rt; files.clone_into_pack(alloc, &mut others).is_ok());
    assert_eq!(rt; walked(alloc, &mut files, "")?.as_str(), "c a b ");
    Ok(())
}
