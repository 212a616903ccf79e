//! Compiler worlds: so far what tells them where packages stand.
#![tactic(auto)]

mod mapper;

pub use mapper::RegistryPathMapper;
