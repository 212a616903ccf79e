//! Paths of temporary files and folders: a number, a random part and the name that they are for.
ghost use Rattle.std.specs.Prelude.{◌≡◌, ◌≤◌, ◌<◌, ◌⊎◌, ◌↔◌, ℕ, List, [], true, false, Ok, Err, IfOk, IfErr, IsTrue, length, string_bytes, unwrap_or};
ghost use Rattle.std.specs.Borrow.{Bor};
ghost use Rattle.std.specs.IoError.{error_kind};
ghost use Rattle.std.specs.Path.{path_file_name};
ghost use Rattle.tinymist_std.specs.Paths.{StandsIn, has_slash, temporary_name};
ghost use Rattle.ty_model.specs.Paths as plain;
ghost use Rattle.ty_model.specs.Paths.{is_name};

use std::alloc::{AllocError, Global};
use std::fs::File;
use std::io;
use std::io::{ErrorKind, Read};
use std::path::Path;
use std::rt::Files;
use ty_path::join;

/// Names that are longer than this are not carried: with the rest the name must stay one that the
/// system allows.
const LONGEST_CARRIED: usize = 100;

/// Where a temporary is to stand, and for what.
#[derive(Clone, Copy)]
pub(super) struct Place<'a> {
    /// The folder in which it stands.
    pub(super) folder: &'a str,
    /// The path that it is for, whose name it carries.
    pub(super) target: &'a str,
    /// A number that other runs don't share.
    pub(super) unique: u64,
}

/// As [`first_free`], once `prepare` went through for the folder.
pub(super) fn made_in<T, P: Fn(&str) -> io::Result<()> + Drop, F: Fn(&str) -> io::Result<T> + Drop>(
    alloc: Global,
    place: Place,
    prepare: P,
    make: F,
) -> io::Result<(String, T)>
    requires prepare { P.IsAlwaysCallable prepare }
    requires make { F.IsAlwaysCallable make }
    ensures made { IfOk result (λ made. StandsIn place.entry.folder.now (string_bytes made.0)) }
    ensures prepared { IfOk result (λ _. P.post prepare place.entry.folder (Ok tt)) }
{
    prepare(place.folder)?;
    first_free(alloc, place, make)
}

/// The first of the numbered paths in the folder at which nothing stands yet, and what `make` made
/// there.
pub(super) fn first_free<T, F: Fn(&str) -> io::Result<T> + Drop>(
    alloc: Global,
    place: Place,
    make: F,
) -> io::Result<(String, T)>
    requires { F.IsAlwaysCallable make }
    ensures place { IfOk result (λ made. StandsIn place.entry.folder.now (string_bytes made.0)) }
    ensures made { IfOk result (λ made. (path : Bor (List ℕ))
        × (path.now ≡ string_bytes made.0) × F.post make path (Ok made.1)) }
    ensures err { IfErr result (λ cause. (error_kind cause ≡ ErrorKind.AlreadyExists)
        ⊎ ((error_kind cause ≡ ErrorKind.OutOfMemory)
        ⊎ ((path : Bor (List ℕ)) × F.post make path (Err cause)))) }
{
    for number in 0..u32::MAX {
        let path = numbered_in(alloc, place, number)?;
        match make(path.as_str()) {
            Ok(made) => return Ok((path, made)),
            Err(cause) if is_occupied(&cause) => {}
            Err(cause) => return Err(cause),
        }
    }
    Err(io::Error::from(ErrorKind::AlreadyExists))
}

/// Whether nothing was made at a path for the cause that something stands there.
fn is_occupied(cause: &io::Error) -> bool
    ensures { IsTrue result ↔ (error_kind cause.now ≡ ErrorKind.AlreadyExists) }
{
    cause.kind() == ErrorKind::AlreadyExists
}

/// A number that other runs don't share, from the system's random bytes; 0 where there are none.
pub(super) fn random_part<R: Files>(rt: &R) -> u64 {
    random_bytes(rt).map_or(0, u64::from_le_bytes)
}

/// Eight of the system's random bytes.
fn random_bytes<R: Files>(rt: &R) -> io::Result<[u8; 8]> {
    let mut bytes = [0; 8];
    File::open(rt, "/dev/urandom")?.read_exact(&mut bytes)?;
    Ok(bytes)
}

/// The numbered path in the folder.
fn numbered_in(alloc: Global, place: Place, number: u32) -> Result<String, AllocError>
    ensures place { IfOk result (λ path. StandsIn place.entry.folder.now (string_bytes path)) }
    ensures name { IfOk result (λ path. (carried : List ℕ) × (string_bytes path
        ≡ plain.join place.entry.folder.now (temporary_name number place.entry.unique carried))) }
{
    let name = numbered(alloc, carried(place.target), place.unique, number)?;
    match join(alloc, place.folder, name.as_str()) {
        Ok(path) => Ok(path),
        Err(_) => Err(AllocError),
    }
}

/// The name of that number.
#[tactic(auto, using(crate::proofs::TemporaryNames::temporary_name))]
fn numbered(alloc: Global, carried: &str, unique: u64, number: u32) -> Result<String, AllocError>
    requires { has_slash carried.now ≡ false }
    ensures text { IfOk result (λ name. string_bytes name ≡ temporary_name number unique carried.now) }
    ensures name { IfOk result (λ name. IsTrue (is_name (string_bytes name))) }
{
    format!(in alloc; ".tmp{number}-{unique}-{carried}")
}

/// The name of the path, where there is one and it isn't long.
fn carried(path: &str) -> &str
    ensures plain { has_slash result.now ≡ false }
    ensures short { let name = unwrap_or (path_file_name path.now) [] in
        length name ≤ 100 → has_slash name ≡ false → result.now ≡ name }
    ensures long { 100 < length (unwrap_or (path_file_name path.now) []) → result.now ≡ [] }
{
    let name = Path::new(path).file_name().unwrap_or("");
    // A name has no slash; the test shows it to the proof.
    if name.len() > LONGEST_CARRIED || name.as_bytes().contains(&b'/') {
        return "";
    }
    name
}
