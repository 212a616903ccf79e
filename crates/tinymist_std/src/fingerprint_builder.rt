//! Fingerprints of items, with a refusal where two items meet in one.
ghost use Rattle.std.specs.Prelude.{◌≡◌, ℕ, None, IfOk, IfErr, OnOk, OnErr};
ghost use Rattle.tinymist_std.specs.Fingerprint.{Halves};
ghost use Rattle.tinymist_std.specs.Hash.{fingerprint_of, kind_and_item};
ghost use Rattle.tinymist_std.specs.declared.fingerprint_builder.ResolveFault.TheVariants.{OutOfMemory as Want};

use crate::fingerprint::Fingerprint;
use crate::hash::{Base128, Feed, fed, fingerprint_of, kind_and_item};
use std::alloc::{AllocError, AllocFailed, Global};
use std::collections::HashMap;
use std::marker::PhantomData;
use thiserror::Error;
use ty_path::OutOfMemory;

/// Why a fingerprint was refused.
#[derive(Debug, Drop, Error)]
pub enum ResolveFault {
    /// The fingerprint is kept with other data: what is kept, and what was given.
    #[error("the fingerprint is kept with other data")]
    Conflict(Vec<u8>, Vec<u8>),
    /// Memory ran out.
    #[error("out of memory")]
    OutOfMemory,
}

impl From<OutOfMemory> for ResolveFault {
    ghost from_gives = { λ _ fault. fault ≡ Want };

    fn from(_refused: OutOfMemory) -> ResolveFault {
        ResolveFault::OutOfMemory
    }
}

impl From<AllocError> for ResolveFault {
    ghost from_gives = { λ _ fault. fault ≡ Want };

    fn from(_refused: AllocError) -> ResolveFault {
        ResolveFault::OutOfMemory
    }
}

impl<T: Drop> From<AllocFailed<T>> for ResolveFault {
    ghost from_gives = { λ _ fault. fault ≡ Want };

    fn from(_refused: AllocFailed<T>) -> ResolveFault {
        ResolveFault::OutOfMemory
    }
}

/// Gives items fingerprints, and keeps the data of each.
#[derive(Drop)]
pub struct FingerprintBuilder<B> {
    alloc: Global,
    kept: HashMap<Fingerprint, Vec<u8>>,
    base: PhantomData<B>,
}

impl<B: Base128> FingerprintBuilder<B> {
    ghost use Rattle.tinymist_std.specs.FingerprintBuilder.{IsConflict, Keeps, KeepsAll, KeptAs, kept_data};

    /// A builder that keeps nothing.
    pub fn new(alloc: Global) -> FingerprintBuilder<B>
        ensures { (f : Halves) → kept_data result f ≡ None }
    {
        FingerprintBuilder {
            alloc,
            kept: HashMap::new(alloc),
            base: PhantomData,
        }
    }

    /// The fingerprint of the item's bytes, which is not kept.
    pub fn resolve_unchecked<T: Feed>(&self, item: &T) -> Result<Fingerprint, OutOfMemory>
        ensures { IfOk result (λ f. f ≡ fingerprint_of (B.hash128_of (T.bytes_of item.now))) }
    {
        let data = fed(self.alloc, item)?;
        Ok(fingerprint_of::<B>(data.as_slice()))
    }

    /// The fingerprint of the item's bytes after those of the kind, which are kept under it.
    /// `Conflict` comes exactly where other bytes are kept under it; the builder is then as before.
    pub fn resolve<T: Feed>(&mut self, kind: u64, item: &T) -> Result<Fingerprint, ResolveFault>
        ensures ok { let given = kind_and_item kind (T.bytes_of item.now) in
            let f = fingerprint_of (B.hash128_of given) in
            IfOk result (λ r. (r ≡ f) × KeptAs self.old f given × Keeps self.old self.new f given) }
        ensures conflict { let given = kind_and_item kind (T.bytes_of item.now) in
            let f = fingerprint_of (B.hash128_of given) in
            IfErr result (IsConflict (kept_data self.old f) given) }
        ensures err { OnErr result (KeepsAll self.old self.new) }
    {
        let data = kind_and_item(self.alloc, kind, item)?;
        let fingerprint = fingerprint_of::<B>(data.as_slice());
        if let Some(kept) = self.kept.get(&fingerprint) {
            if kept.as_slice() == data.as_slice() {
                return Ok(fingerprint);
            }
            let kept = Vec::from_slice(self.alloc, kept.as_slice())?;
            return Err(ResolveFault::Conflict(kept, data));
        }
        self.kept.insert(fingerprint, data)?;
        Ok(fingerprint)
    }
}
