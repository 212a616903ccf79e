//! Hashes of what values feed, by a hash that shows its bytes.
ghost use Rattle.std.specs.Prelude.{◌≡◌, slice_index};

use std::test::Fail;
use tinymist_std::{
    Base128, Fingerprint, FingerprintHasher, FingerprintSipHasher, HashedTrait, StaticHash128,
    hash32, hash64, hash128, item_hash128,
};

/// A hash that shows the bytes number 0 and 8.
struct Shown;

impl Base128 for Shown {
    ghost hash128_of = { λ bytes. (slice_index bytes 0, slice_index bytes 8) };

    ghost hash64_of = { λ bytes. slice_index bytes 8 };

    ghost hash32_of = { λ bytes. slice_index bytes 0 };

    fn hash128(bytes: &[u8]) -> (u64, u64) {
        (byte_at(bytes, 0) as u64, byte_at(bytes, 8) as u64)
    }

    fn hash64(bytes: &[u8]) -> u64 {
        byte_at(bytes, 8) as u64
    }

    fn hash32(bytes: &[u8]) -> u32 {
        byte_at(bytes, 0) as u32
    }
}

/// The byte of that number, or 0 past the end.
fn byte_at(bytes: &[u8], number: usize) -> u8
    ensures { result ≡ slice_index bytes.now number }
{
    bytes.get(number).copied().unwrap_or(0)
}

#[test]
fn hashes_of_items_begin_with_the_kind(rt: HostRuntime) -> Result<(), Fail> {
    let alloc = rt.alloc();
    assert_eq!(rt; item_hash128::<Shown, u64>(alloc, 1, &2)?, 2 << 64 | 1);
    assert_eq!(rt;
        item_hash128::<Shown, &str>(alloc, 1, &"x")?,
        0x78 << 64 | 1
    );
    Ok(())
}

#[test]
fn hashes_read_what_is_fed(rt: HostRuntime) -> Result<(), Fail> {
    let alloc = rt.alloc();
    assert_eq!(rt; hash128::<Shown, u64>(alloc, &2)?, 2);
    assert_eq!(rt;
        hash64::<Shown, &[u8]>(alloc, &b"12345678x".as_slice())?,
        0x78
    );
    assert_eq!(rt; hash32::<Shown, &str>(alloc, &"x")?, 0x78);
    Ok(())
}

#[test]
fn owned_texts_and_bytes_are_fed(rt: HostRuntime) -> Result<(), Fail> {
    let alloc = rt.alloc();
    let text = String::from_str(alloc, "x")?;
    assert_eq!(rt; hash32::<Shown, String>(alloc, &text)?, 0x78);
    let bytes = Vec::from_slice(alloc, b"12345678x")?;
    assert_eq!(rt; hash64::<Shown, Vec<u8>>(alloc, &bytes)?, 0x78);
    Ok(())
}

#[test]
fn hashers_keep_their_data(rt: HostRuntime) -> Result<(), Fail> {
    let mut hasher: FingerprintSipHasher<Shown> = FingerprintSipHasher::new(rt.alloc());
    hasher.write(b"12345678")?;
    hasher.write(b"x")?;
    assert_eq!(rt; hasher.finish(), 0x78);
    let (hash, data) = hasher.fast_hash();
    assert_eq!(rt; hash, 0x31);
    assert_eq!(rt; data.as_slice(), b"12345678x".as_slice());
    let (fingerprint, data) = hasher.finish_fingerprint();
    assert!(rt; fingerprint == Fingerprint::from_pair(0x31, 0x78));
    assert_eq!(rt; data.as_slice(), b"12345678x".as_slice());
    Ok(())
}

#[test]
fn hashed_values_keep_their_hash(rt: HostRuntime) -> Result<(), Fail> {
    let hashed = HashedTrait::new(7, Box::new(rt.alloc(), 3u8)?);
    assert_eq!(rt; hashed.get_hash(), 7);
    assert_eq!(rt; *hashed.get(), 3);
    Ok(())
}
