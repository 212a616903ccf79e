//! What editors and watchers tell, and what a watcher is to watch.
pub(crate) mod deps;
pub(crate) mod event;
