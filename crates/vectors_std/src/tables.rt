//! Tables of rows on files, each for a new folder of its own.
use crate::steps::{Call, Row, Step};

/// The tables.
#[derive(Clone, Copy)]
pub enum FileTable {
    /// Files are written and read.
    Written,
    /// Folders are made and removed.
    Folders,
    /// Equal files are not touched.
    Unchanged,
    /// Other contents of one length are written.
    SameLength,
    /// Failures name call and path.
    Failing,
    /// Failed copies name both paths.
    NotCopied,
    /// Failed folders name call and path.
    NotOpened,
    /// Folders are not replaced.
    FolderStays,
    /// Nothing is left beside.
    NothingBeside,
    /// Permissions stay.
    Permissions,
    /// Names may be long.
    LongName,
    /// Failed writes leave the old content.
    OldStays,
    /// Failed writes leave nothing.
    NoneStays,
}

impl FileTable {
    /// The rows of the table.
    pub fn rows(self) -> &'static [Row] {
        match self {
            FileTable::Written => &WRITTEN,
            FileTable::Folders => &FOLDERS,
            FileTable::Unchanged => &UNCHANGED,
            FileTable::SameLength => &SAME_LENGTH,
            FileTable::Failing => &FAILING,
            FileTable::NotCopied => &NOT_COPIED,
            FileTable::NotOpened => &NOT_OPENED,
            FileTable::FolderStays => &FOLDER_STAYS,
            FileTable::NothingBeside => &NOTHING_BESIDE,
            FileTable::Permissions => &PERMISSIONS,
            FileTable::LongName => &LONG_NAME,
            FileTable::OldStays => &OLD_STAYS,
            FileTable::NoneStays => &NONE_STAYS,
        }
    }
}

/// A name of 250 letters.
const LONG: &str =
    "nnnnnnnnnnnnnnnnnnnnnnnnnnnnnnnnnnnnnnnnnnnnnnnnnnnnnnnnnnnnnnnnnnnnnnnnnnnnnnnnnnnnnnnnnnnnnnnnnnnnnnnnnnnnnnnnnnnnnnnnnnnnnnnnnnnnnnnnnnnnnnnnnnnnnnnnnnnnnnnnnnnnnnnnnnnnnnnnnnnnnnnnnnnnnnnnnnnnnnnnnnnnnnnnnnnnnnnnnnnnnnnnnnnnnnnnnnnnnnnnnnnnnnnnnn";

static WRITTEN: [Row; 16] = [
    ("a", Step::Does(Call::Append(b"made"))),
    ("a", Step::Holds(b"made")),
    ("a", Step::Does(Call::Write(b"one"))),
    ("a", Step::Does(Call::Append(b" two"))),
    ("a", Step::Does(Call::Read)),
    ("a", Step::Holds(b"one two")),
    ("a", Step::SetMode(0o640)),
    ("a", Step::Copies("b", 7)),
    ("b", Step::Holds(b"one two")),
    ("b", Step::HasMode(0o640)),
    ("a", Step::HasLength(7)),
    ("a", Step::Does(Call::Create(b"new"))),
    ("a", Step::Does(Call::Open)),
    ("a", Step::Holds(b"new")),
    ("a", Step::Does(Call::RemoveFile)),
    ("a", Step::IsMissing),
];

static FOLDERS: [Row; 8] = [
    ("a/b/c", Step::Does(Call::CreateDirAll)),
    ("a/b/c", Step::Does(Call::CreateDirAll)),
    ("a/b/c", Step::IsFolder),
    ("a", Step::Fails(Call::RemoveDir)),
    ("a/b/c", Step::Does(Call::RemoveDir)),
    ("a/b/c", Step::IsMissing),
    ("a", Step::Does(Call::RemoveDirAll)),
    ("a", Step::IsMissing),
];

static UNCHANGED: [Row; 9] = [
    ("a", Step::Does(Call::WriteIfChanged(b"content"))),
    ("a", Step::SetOld),
    ("a", Step::SetMode(0o444)),
    ("a", Step::Does(Call::WriteIfChanged(b"content"))),
    ("a", Step::IsOld(true)),
    ("a", Step::SetMode(0o644)),
    ("a", Step::Does(Call::WriteIfChanged(b"other"))),
    ("a", Step::IsOld(false)),
    ("a", Step::Holds(b"other")),
];

/// Two contents of one length that differ.
static SAME_LENGTH: [Row; 3] = [
    ("a", Step::Does(Call::WriteIfChanged(b"one"))),
    ("a", Step::Does(Call::WriteIfChanged(b"two"))),
    ("a", Step::Holds(b"two")),
];

/// Each call on a file or folder that is missing, on a file that isn't text, and below a file.
static FAILING: [Row; 16] = [
    ("none/file", Step::Fails(Call::Read)),
    ("none/file", Step::Fails(Call::ReadBytes)),
    ("none/file", Step::Fails(Call::Write(b"x"))),
    ("none/file", Step::Fails(Call::WriteAtomic(b"x"))),
    ("none/file", Step::Fails(Call::WriteIfChanged(b"x"))),
    ("none/file", Step::Fails(Call::Append(b"x"))),
    ("none/file", Step::Fails(Call::Create(b"x"))),
    ("none/file", Step::Fails(Call::Open)),
    ("none/file", Step::Fails(Call::Metadata)),
    ("none/file", Step::Fails(Call::RemoveDirAll)),
    ("none/file", Step::Fails(Call::RemoveDir)),
    ("none/file", Step::Fails(Call::RemoveFile)),
    ("bytes", Step::Does(Call::Write(b"\xff"))),
    ("bytes", Step::Fails(Call::Read)),
    ("file", Step::Does(Call::Write(b"x"))),
    ("file/a", Step::Fails(Call::CreateDirAll)),
];

/// A copy of a missing file, and one to a missing folder.
static NOT_COPIED: [Row; 3] = [
    ("none/file", Step::FailsToCopy("")),
    ("bytes", Step::Does(Call::Write(b"x"))),
    ("bytes", Step::FailsToCopy("none/file")),
];

/// A new folder below a file, and a file of a missing folder that is opened.
static NOT_OPENED: [Row; 3] = [
    ("file", Step::Does(Call::Write(b"x"))),
    ("file/a", Step::Fails(Call::TempDirIn)),
    ("none/file", Step::Fails(Call::OpenShared)),
];

/// A folder is not replaced by a file, and no file is left beside: the folder around it is empty.
static FOLDER_STAYS: [Row; 5] = [
    ("a/b", Step::Does(Call::CreateDirAll)),
    ("a/b", Step::Fails(Call::WriteAtomic(b"x"))),
    ("/", Step::Fails(Call::WriteAtomic(b"x"))),
    ("a/b", Step::Does(Call::RemoveDir)),
    ("a", Step::Does(Call::RemoveDir)),
];

/// No file is left beside one that was replaced.
static NOTHING_BESIDE: [Row; 5] = [
    ("a", Step::Does(Call::CreateDirAll)),
    ("a/b", Step::Does(Call::WriteAtomic(b"old content"))),
    ("a/b", Step::Does(Call::WriteAtomic(b"new"))),
    ("a/b", Step::Does(Call::RemoveFile)),
    ("a", Step::Does(Call::RemoveDir)),
];

/// The permissions of the file that was there to read, write and run stay, and no others.
static PERMISSIONS: [Row; 16] = [
    ("a", Step::Does(Call::Write(b"old"))),
    ("a", Step::SetMode(0o600)),
    ("a", Step::Does(Call::WriteAtomic(b"new"))),
    ("a", Step::Holds(b"new")),
    ("a", Step::HasMode(0o600)),
    ("a", Step::SetMode(0o4755)),
    ("a", Step::HasMode(0o4755)),
    ("a", Step::Does(Call::WriteAtomic(b"newer"))),
    ("a", Step::HasMode(0o755)),
    ("a", Step::SetMode(0o2755)),
    ("a", Step::HasMode(0o2755)),
    ("a", Step::Does(Call::WriteAtomic(b"newer still"))),
    ("a", Step::HasMode(0o755)),
    ("a", Step::SetMode(0o1711)),
    ("a", Step::Does(Call::WriteAtomic(b"newest"))),
    ("a", Step::HasMode(0o711)),
];

/// A name may be as long as the system allows.
static LONG_NAME: [Row; 2] = [
    (LONG, Step::Does(Call::WriteAtomic(b"long"))),
    (LONG, Step::Holds(b"long")),
];

/// Where the new file can't take the name, the old content stays, and nothing is left beside it.
static OLD_STAYS: [Row; 6] = [
    ("a", Step::Does(Call::CreateDirAll)),
    ("a/b", Step::Does(Call::Write(b"old"))),
    ("a/b", Step::FailsToRename),
    ("a/b", Step::Holds(b"old")),
    ("a/b", Step::Does(Call::RemoveFile)),
    ("a", Step::Does(Call::RemoveDir)),
];

/// Where there was no file, none is left.
static NONE_STAYS: [Row; 3] = [
    ("a", Step::Does(Call::CreateDirAll)),
    ("a/b", Step::FailsToRename),
    ("a", Step::Does(Call::RemoveDir)),
];
