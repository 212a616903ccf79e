//! Errors with their printed texts, and small tools: fingerprints, queries, locked maps, files and their locks.
#![tactic(auto)]

mod context;
mod cow_bytes;
mod cow_mut;
mod dash_map;
mod date;
mod diagnostic;
mod err_kind_ext;
mod error;
mod error_args;
mod file_lock;
mod filesystem;
mod fingerprint;
mod fingerprint_builder;
mod fingerprint_map;
mod hash;
mod hashed_trait;
mod logging;
mod macros;
mod parts;
mod path_ancestors;
pub mod paths;
mod query;
mod read_all;
mod take_as;
mod untyped_error;

pub use context::{
    WithContext, WithContextUntyped, map_err, map_err_with_args, map_into_err,
    map_into_err_with_args, map_string_err, map_string_err_with_args, wrap_err, wrap_err_with_args,
};
pub use cow_bytes::AsCowBytes;
pub use cow_mut::CowMut;
pub use dash_map::FxDashMap;
pub use date::{ToUtcDateTime, yyyy_mm_dd};
pub use diagnostic::{DefId, DiagMessage, DiagSeverity, LspPosition, LspRange};
pub use err_kind_ext::ErrKindExt;
pub use error::{Args, ErrKind, Error, Result};
pub use error_args::ErrorArgs;
pub use file_lock::FileLock;
pub use filesystem::Filesystem;
pub use fingerprint::Fingerprint;
pub use fingerprint_builder::{FingerprintBuilder, ResolveFault};
pub use fingerprint_map::{FingerprintMap, FingerprintMapShard};
pub use hash::{
    Base128, Feed, FingerprintHasher, FingerprintSipHasher, hash32, hash64, hash128, item_hash128,
};
pub use hashed_trait::{HashedTrait, StaticHash128};
pub use logging::IgnoreLogging;
pub use path_ancestors::PathAncestors;
pub use query::{Note, QueryFault, QueryRef};
pub use read_all::ReadAllOnce;
pub use take_as::TakeAs;
pub use untyped_error::{Printed, UntypedError};
