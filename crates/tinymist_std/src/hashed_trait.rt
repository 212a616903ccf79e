//! Values beside a hash that is ready.
ghost use Rattle.std.specs.Prelude.{◌≡◌, ℕ};
ghost use Rattle.tinymist_std.specs.HashedTrait.{hashed_number, hashed_value};

/// A value with a hash of 128 bits that is ready.
pub trait StaticHash128 {
    ghost hash_of: { Self → ℕ };

    /// The hash.
    fn get_hash(&self) -> u128
        ensures { result ≡ hash_of self.now };
}

/// A boxed value beside its hash.
#[derive(Drop)]
pub struct HashedTrait<T> {
    hash: u128,
    t: Box<T>,
}

impl<T> HashedTrait<T> {
    /// The value with that hash.
    pub fn new(hash: u128, t: Box<T>) -> HashedTrait<T>
        ensures hash { hashed_number result ≡ hash }
        ensures value { hashed_value result ≡ t.value }
    {
        HashedTrait { hash, t }
    }

    /// The value.
    pub fn get(&self) -> &T
        ensures { result.now ≡ hashed_value self.now }
    {
        &*self.t
    }
}

impl<T> StaticHash128 for HashedTrait<T> {
    ghost hash_of = { hashed_number };

    fn get_hash(&self) -> u128 {
        self.hash
    }
}
