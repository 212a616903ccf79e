//! Ids of workspaces and packages, and the paths that they stand for.
pub(crate) mod display;
pub(crate) mod resolver;
pub(crate) mod workspace;
