//! Values that are taken out of where they are shared.
ghost use Rattle.std.specs.Prelude.{◌≡◌, ◌⊎◌, IfOk};
ghost use Rattle.std.specs.Arc.{arc_value};

use std::alloc::Global;
use std::sync::Arc;
use ty_path::OutOfMemory;

/// Gives a value up as one of another type.
pub trait TakeAs<T> {
    // `gives self x`: x is a value that may be taken.
    ghost gives: { Self → T → Type 0 };

    /// The value; a clone that is made takes memory.
    fn take(self, alloc: Global) -> Result<T, OutOfMemory>
        ensures { IfOk result (gives self) };
}

/// The shared value where this is its last share, and else a clone of it.
impl<T: Clone + Drop> TakeAs<T> for Arc<T> {
    ghost gives = { λ shared x. (x ≡ arc_value shared) ⊎ T.is_clone (arc_value shared) x };

    fn take(self, _alloc: Global) -> Result<T, OutOfMemory> {
        Ok(Arc::unwrap_or_clone(self)?)
    }
}
