//! A key with its value.

/// An entry of a map, which maps share and change only where one alone holds it.
#[derive(Drop)]
pub(crate) struct Entry<K, V> {
    pub(crate) key: K,
    pub(crate) value: V,
}
