//! A key with its value.

/// An entry of a list, which lists share.
#[derive(Drop)]
pub(crate) struct Entry<K, V> {
    pub(crate) key: K,
    pub(crate) value: V,
}
