//! Values that can be had twice, and those of the library among them.
ghost use Rattle.std.specs.Prelude.{◌≡◌, ℕ, List, IfOk};
ghost use Rattle.ty_path.specs.Shared.{path_text, shared_bytes};

use crate::memory::OutOfMemory;
use std::alloc::Global;
use std::sync::Arc;

/// A value that can be had twice, as a share or as a copy.
pub trait Share: Drop {
    /// What there is to see of a value: two pointers to one text are seen as that text.
    ghost Seen: { Type 0 };

    ghost seen: { Self → Seen };

    /// The same value again.
    fn share(&self, alloc: Global) -> Result<Self, OutOfMemory>
        ensures { IfOk result (λ again. seen again ≡ seen self.now) };
}

impl Share for u64 {
    ghost Seen = { ℕ };

    ghost seen = { λ n. n };

    fn share(&self, _alloc: Global) -> Result<u64, OutOfMemory> {
        Ok(*self)
    }
}

impl Share for Arc<String> {
    ghost Seen = { List ℕ };

    ghost seen = { path_text };

    fn share(&self, _alloc: Global) -> Result<Arc<String>, OutOfMemory> {
        Ok(Arc::try_clone(self)?)
    }
}

impl Share for Arc<Vec<u8>> {
    ghost Seen = { List ℕ };

    ghost seen = { shared_bytes };

    fn share(&self, _alloc: Global) -> Result<Arc<Vec<u8>>, OutOfMemory> {
        Ok(Arc::try_clone(self)?)
    }
}
