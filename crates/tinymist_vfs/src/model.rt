//! Models of files: by path, one over another, and by id over a disk.
pub(crate) mod access;
pub(crate) mod notify;
pub(crate) mod overlay;
mod under;
