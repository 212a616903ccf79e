//! Layers: batches, versions, ids, change sets, access models and sources.

mod batches;
mod change_sets;
mod holders;
mod ids;
mod made;
mod models;
mod random;
mod sources;
mod versions;
