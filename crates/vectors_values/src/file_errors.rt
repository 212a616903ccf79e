//! The printed texts of errors and faults of files, packages, paths, tags and edits.

use std::alloc::Global;
use std::test::Fail;
use ty_syntax::{
    EditFault, FileError, FileFault, PackageError, PackageSpec, PackageVersion, PathFault, TagFault,
};

/// `@preview/a_b:0.12.345`.
fn spec(alloc: Global) -> Result<PackageSpec, Fail> {
    Ok(PackageSpec {
        namespace: String::from_str(alloc, "preview")?,
        name: String::from_str(alloc, "a_b")?,
        version: PackageVersion {
            major: 0,
            minor: 12,
            patch: 345,
        },
    })
}

/// Whether an error of a file prints this text.
fn file_prints(alloc: Global, error: FileError, want: &str) -> Result<bool, Fail> {
    let text = FileFault::File(error).to_string(alloc)?;
    Ok(text.as_str() == want)
}

/// Whether an error of a package prints this text.
fn package_prints(alloc: Global, error: PackageError, want: &str) -> Result<bool, Fail> {
    let text = FileError::Package(error).to_string(alloc)?;
    Ok(text.as_str() == want)
}

#[test]
fn errors_of_files_print(rt: HostRuntime) -> Result<(), Fail> {
    let alloc = rt.alloc();
    assert!(rt; file_prints(alloc, FileError::AccessDenied, "access denied")?);
    assert!(rt; file_prints(alloc, FileError::IsDirectory, "is a directory")?);
    assert!(rt; file_prints(alloc, FileError::NotSource, "not a source file")?);
    assert!(rt; file_prints(alloc, FileError::InvalidUtf8, "not valid UTF-8")?);
    assert!(rt; file_prints(alloc, FileError::Other(None), "file not loaded")?);
    Ok(())
}

#[test]
fn errors_of_files_with_a_text_print(rt: HostRuntime) -> Result<(), Fail> {
    let alloc = rt.alloc();
    let missing = FileError::NotFound(String::from_str(alloc, "/w/é")?);
    assert!(rt; file_prints(alloc, missing, "no file at /w/é")?);
    let other = FileError::Other(Some(String::from_str(alloc, "no disk")?));
    assert!(rt; file_prints(alloc, other, "file not loaded: no disk")?);
    Ok(())
}

#[test]
fn missing_packages_print(rt: HostRuntime) -> Result<(), Fail> {
    let alloc = rt.alloc();
    let missing = PackageError::NotFound(spec(alloc)?);
    assert!(rt; package_prints(alloc, missing, "no package @preview/a_b:0.12.345")?);
    Ok(())
}

#[test]
fn missing_versions_print(rt: HostRuntime) -> Result<(), Fail> {
    let alloc = rt.alloc();
    let latest = PackageVersion {
        major: 1,
        minor: 2,
        patch: 3,
    };
    let missing = PackageError::VersionNotFound(spec(alloc)?, latest);
    let want = "no package @preview/a_b:0.12.345, whose latest version is 1.2.3";
    assert!(rt; package_prints(alloc, missing, want)?);
    Ok(())
}

#[test]
fn other_errors_of_packages_print(rt: HostRuntime) -> Result<(), Fail> {
    let alloc = rt.alloc();
    assert!(rt;
        package_prints(
            alloc,
            PackageError::NetworkFailed(None),
            "package not fetched"
        )?
    );
    assert!(rt;
        package_prints(
            alloc,
            PackageError::MalformedArchive(None),
            "malformed package"
        )?
    );
    let old = PackageError::Other(Some(String::from_str(alloc, "too old")?));
    assert!(rt; package_prints(alloc, old, "package not loaded: too old")?);
    Ok(())
}

/// A fault of tags, and its printed text.
static TAG_FAULTS: [(TagFault, &str); 2] = [
    (TagFault::Full, "the counter stands at its last value"),
    (TagFault::OutOfMemory, "out of memory"),
];

#[test]
fn faults_of_tags_print(rt: HostRuntime) -> Result<(), Fail> {
    for (fault, want) in &TAG_FAULTS {
        assert_eq!(rt; fault.to_string(rt.alloc())?.as_str(), *want);
    }
    Ok(())
}

/// A fault of paths, and its printed text.
static PATH_FAULTS: [(PathFault, &str); 3] = [
    (PathFault::Escapes, "the path leaves its root"),
    (PathFault::BadByte, "the path holds a NUL byte"),
    (PathFault::OutOfMemory, "out of memory"),
];

#[test]
fn faults_of_paths_print(rt: HostRuntime) -> Result<(), Fail> {
    for (fault, want) in &PATH_FAULTS {
        assert_eq!(rt; fault.to_string(rt.alloc())?.as_str(), *want);
    }
    Ok(())
}

/// A fault of edits, and its printed text.
static EDIT_FAULTS: [(EditFault, &str); 2] = [
    (EditFault::Range, "no span of the text"),
    (EditFault::OutOfMemory, "out of memory"),
];

#[test]
fn faults_of_edits_print(rt: HostRuntime) -> Result<(), Fail> {
    for (fault, want) in &EDIT_FAULTS {
        assert_eq!(rt; fault.to_string(rt.alloc())?.as_str(), *want);
    }
    Ok(())
}

#[test]
fn a_file_that_memory_ran_out_for_prints(rt: HostRuntime) -> Result<(), Fail> {
    let text = FileFault::OutOfMemory.to_string(rt.alloc())?;
    assert_eq!(rt; text.as_str(), "out of memory");
    Ok(())
}
