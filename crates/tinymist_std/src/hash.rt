//! Hashes of the bytes that values feed, under a hash function that is handed in as a type.
ghost use Rattle.std.specs.Prelude.{◌≡◌, ℕ, List, [], ◌++◌, IfOk, OnOk, OnErr, string_bytes};
ghost use Rattle.std.specs.Int.{w64, to_le_bytes};
ghost use Rattle.tinymist_std.specs.Fingerprint.{number_of};
ghost use Rattle.tinymist_std.specs.Hash.{fingerprint_of, kind_and_item};

use crate::fingerprint::Fingerprint;
use std::alloc::Global;
use std::marker::{Model, PhantomData};
use ty_path::OutOfMemory;

/// A value that feeds bytes to a hash.
pub trait Feed {
    // The bytes that stand for the value.
    ghost bytes_of: { Self → List ℕ };

    /// Appends the bytes; where memory runs out, `out` is as before. The allocator is for what is made
    /// on the way.
    fn feed(&self, alloc: Global, out: &mut Vec<u8>) -> Result<(), OutOfMemory>
        ensures ok { OnOk result (out.new.items ≡ out.old.items ++ bytes_of self.now) }
        ensures err { OnErr result (out.new.items ≡ out.old.items) };
}

impl Feed for u64 {
    ghost bytes_of = { λ n. to_le_bytes w64 n };

    fn feed(&self, _alloc: Global, out: &mut Vec<u8>) -> Result<(), OutOfMemory> {
        Ok(out.extend_from_slice(&self.to_le_bytes())?)
    }
}

impl Feed for &[u8] {
    ghost bytes_of = { λ bytes. bytes.now };

    fn feed(&self, _alloc: Global, out: &mut Vec<u8>) -> Result<(), OutOfMemory> {
        Ok(out.extend_from_slice(self)?)
    }
}

impl Feed for &str {
    ghost bytes_of = { λ text. text.now };

    fn feed(&self, _alloc: Global, out: &mut Vec<u8>) -> Result<(), OutOfMemory> {
        Ok(out.extend_from_slice(self.as_bytes())?)
    }
}

impl Feed for String {
    ghost bytes_of = { string_bytes };

    fn feed(&self, _alloc: Global, out: &mut Vec<u8>) -> Result<(), OutOfMemory> {
        Ok(out.extend_from_slice(self.as_bytes())?)
    }
}

impl Feed for Vec<u8> {
    ghost bytes_of = { λ bytes. bytes.items };

    fn feed(&self, _alloc: Global, out: &mut Vec<u8>) -> Result<(), OutOfMemory> {
        Ok(out.extend_from_slice(self.as_slice())?)
    }
}

/// A hash function of 128 bits with two shorter ones, each a function of the bytes.
pub trait Base128 {
    ghost hash128_of: { List ℕ → ℕ × ℕ };

    ghost hash64_of: { List ℕ → ℕ };

    ghost hash32_of: { List ℕ → ℕ };

    /// The hash in two halves, the low one first.
    fn hash128(bytes: &[u8]) -> (u64, u64)
        ensures { result ≡ hash128_of bytes.now };

    /// The hash of 64 bits.
    fn hash64(bytes: &[u8]) -> u64
        ensures { result ≡ hash64_of bytes.now };

    /// The hash of 32 bits.
    fn hash32(bytes: &[u8]) -> u32
        ensures { result ≡ hash32_of bytes.now };
}

/// A hasher that ends in a fingerprint.
pub trait FingerprintHasher: Sized {
    ghost data_of: { Self → List ℕ };

    ghost hash128_of: { List ℕ → ℕ × ℕ };

    /// The fingerprint of the data, and the data.
    fn finish_fingerprint(self) -> (Fingerprint, Vec<u8>)
        ensures fingerprint { result.0 ≡ fingerprint_of (hash128_of (data_of self)) }
        ensures data { result.1.items ≡ data_of self };
}

/// A hasher that keeps the data it is fed, and hashes it at the end.
#[derive(Drop)]
pub struct FingerprintSipHasher<B> {
    data: Vec<u8>,
    base: PhantomData<B>,
}

impl<B> Model for FingerprintSipHasher<B> {
    ghost use Rattle.std.specs.Prelude.{ℕ, List};

    ghost Value = { List ℕ };

    ghost view = { λ h. h.data.items };
}

impl<B: Base128> FingerprintSipHasher<B> {
    /// A hasher without data.
    pub fn new(alloc: Global) -> FingerprintSipHasher<B>
        ensures { result ≡ [] }
    {
        FingerprintSipHasher {
            data: Vec::new(alloc),
            base: PhantomData,
        }
    }

    /// Appends bytes to the data; where memory runs out, the data stays.
    pub fn write(&mut self, bytes: &[u8]) -> Result<(), OutOfMemory>
        ensures ok { OnOk result (self.new ≡ self.old ++ bytes.now) }
        ensures err { OnErr result (self.new ≡ self.old) }
    {
        Ok(self.data.extend_from_slice(bytes)?)
    }

    /// The hash of 64 bits of the data so far.
    pub fn finish(&self) -> u64
        ensures { result ≡ B.hash64_of self.now }
    {
        B::hash64(self.data.as_slice())
    }

    /// The hash of 32 bits of the data so far, and the data.
    pub fn fast_hash(&self) -> (u32, &Vec<u8>)
        ensures hash { result.0 ≡ B.hash32_of self.now }
        ensures data { result.1.now.items ≡ self.now }
    {
        (B::hash32(self.data.as_slice()), &self.data)
    }
}

impl<B: Base128> FingerprintHasher for FingerprintSipHasher<B> {
    ghost data_of = { λ h. h };

    ghost hash128_of = { B.hash128_of };

    fn finish_fingerprint(self) -> (Fingerprint, Vec<u8>) {
        (fingerprint_of::<B>(self.data.as_slice()), self.data)
    }
}

/// The number of the hash of 128 bits of an item of a kind.
pub fn item_hash128<B: Base128, T: Feed>(
    alloc: Global,
    kind: u64,
    item: &T,
) -> Result<u128, OutOfMemory>
    ensures { IfOk result (λ h. h ≡ number_of
        (fingerprint_of (B.hash128_of (kind_and_item kind (T.bytes_of item.now))))) }
{
    let data = kind_and_item(alloc, kind, item)?;
    Ok(fingerprint_of::<B>(data.as_slice()).to_u128())
}

/// The number of the hash of 128 bits of a value.
pub fn hash128<B: Base128, T: Feed>(alloc: Global, value: &T) -> Result<u128, OutOfMemory>
    ensures { IfOk result (λ h. h ≡ number_of (fingerprint_of (B.hash128_of (T.bytes_of value.now)))) }
{
    let data = fed(alloc, value)?;
    Ok(fingerprint_of::<B>(data.as_slice()).to_u128())
}

/// The hash of 64 bits of a value.
pub fn hash64<B: Base128, T: Feed>(alloc: Global, value: &T) -> Result<u64, OutOfMemory>
    ensures { IfOk result (λ h. h ≡ B.hash64_of (T.bytes_of value.now)) }
{
    let data = fed(alloc, value)?;
    Ok(B::hash64(data.as_slice()))
}

/// The hash of 32 bits of a value.
pub fn hash32<B: Base128, T: Feed>(alloc: Global, value: &T) -> Result<u32, OutOfMemory>
    ensures { IfOk result (λ h. h ≡ B.hash32_of (T.bytes_of value.now)) }
{
    let data = fed(alloc, value)?;
    Ok(B::hash32(data.as_slice()))
}

/// The fingerprint of the bytes.
pub(crate) fn fingerprint_of<B: Base128>(bytes: &[u8]) -> Fingerprint
    ensures { result ≡ fingerprint_of (B.hash128_of bytes.now) }
{
    let (lo, hi) = B::hash128(bytes);
    Fingerprint::from_pair(lo, hi)
}

/// The bytes that a value feeds.
pub(crate) fn fed<T: Feed>(alloc: Global, value: &T) -> Result<Vec<u8>, OutOfMemory>
    ensures { IfOk result (λ bytes. bytes.items ≡ T.bytes_of value.now) }
{
    let mut data = Vec::new(alloc);
    value.feed(alloc, &mut data)?;
    Ok(data)
}

/// The bytes of an item of a kind.
pub(crate) fn kind_and_item<T: Feed>(
    alloc: Global,
    kind: u64,
    item: &T,
) -> Result<Vec<u8>, OutOfMemory>
    ensures { IfOk result (λ bytes. bytes.items ≡ kind_and_item kind (T.bytes_of item.now)) }
{
    let mut data = Vec::new(alloc);
    data.extend_from_slice(&kind.to_le_bytes())?;
    item.feed(alloc, &mut data)?;
    Ok(data)
}
