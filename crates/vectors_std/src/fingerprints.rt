//! Texts of fingerprints, and builders that refuse other data.
ghost use Rattle.std.specs.Prelude.{◌≡◌};

use crate::errors::expect;
use std::test::Fail;
use tinymist_std::{Base128, Fingerprint, FingerprintBuilder, ResolveFault};

#[test]
fn fingerprints_have_texts(rt: HostRuntime) -> Result<(), Fail> {
    let rows = [
        (Fingerprint::from_u128(1), "", "AQAAAAAAAAA"),
        (Fingerprint::from_pair(0, 0), "fg", "fgAAAAAAAAAAA"),
        (Fingerprint::from_pair(1, 256), "", "AQAAAAAAAAAAAE"),
    ];
    for (fingerprint, prefix, want) in rows {
        let text = fingerprint.as_svg_id(rt.alloc(), prefix)?;
        assert_eq!(rt; text.as_str(), want);
    }
    Ok(())
}

#[test]
fn texts_are_read(rt: HostRuntime) -> Result<(), Fail> {
    let rows: [(&str, u128); 2] = [("AQAAAAAAAAAAAE", 256 << 64 | 1), ("AAAAAAAAAAA", 0)];
    for (text, want) in rows {
        assert_eq!(rt;
            Fingerprint::try_from_str(rt.alloc(), text)?.to_u128(),
            want
        );
    }
    Ok(())
}

#[test]
fn other_texts_are_refused(rt: HostRuntime) {
    let refused = [
        "AAAAAAAAAA",
        "AAAAAAAAAAAAAAAAAAAAAAA",
        "AAAAAAAAAAA=",
        "AAAAAAAAAAB",
        "AAAAAAAAAAAB",
        "AAAAAAAAA\u{e9}",
    ];
    for text in refused {
        assert!(rt;
            Fingerprint::try_from_str(rt.alloc(), text).is_err(),
            "{text}"
        );
    }
}

#[test]
fn refused_texts_say_why(rt: HostRuntime) -> Result<(), Fail> {
    let refused = Fingerprint::try_from_str(rt.alloc(), "A")
        .err()
        .ok_or("no error")?;
    expect(
        &rt,
        rt.alloc(),
        &refused,
        "try_from_str, with [(\"error\", \"the text is no fingerprint\")]",
    )?;
    Ok(())
}

/// A hash under which all data meets.
struct Zero;

impl Base128 for Zero {
    ghost use Rattle.std.specs.Prelude.{ℕ};

    ghost hash128_of = { λ _. (0, 0) };

    ghost hash64_of = { λ _. 0 };

    ghost hash32_of = { λ _. 0 };

    fn hash128(_bytes: &[u8]) -> (u64, u64) {
        (0, 0)
    }

    fn hash64(_bytes: &[u8]) -> u64 {
        0
    }

    fn hash32(_bytes: &[u8]) -> u32 {
        0
    }
}

#[test]
fn builders_keep_their_data(rt: HostRuntime) -> Result<(), Fail> {
    let mut builder: FingerprintBuilder<Zero> = FingerprintBuilder::new(rt.alloc());
    let first = builder.resolve(1, &"x")?;
    assert!(rt; builder.resolve(1, &"x")? == first);
    assert!(rt; builder.resolve_unchecked(&"y")? == first);
    Ok(())
}

#[test]
fn builders_refuse_other_data(rt: HostRuntime) -> Result<(), Fail> {
    let mut builder: FingerprintBuilder<Zero> = FingerprintBuilder::new(rt.alloc());
    let _first = builder.resolve(1, &"x")?;
    match builder.resolve(2, &"x") {
        Err(ResolveFault::Conflict(kept, given)) => {
            assert_eq!(rt; kept.as_slice(), b"\x01\0\0\0\0\0\0\0x".as_slice());
            assert_eq!(rt; given.as_slice(), b"\x02\0\0\0\0\0\0\0x".as_slice());
        }
        _ => panic!(rt; "no conflict"),
    }
    Ok(())
}

#[test]
fn resolve_faults_have_texts(rt: HostRuntime) -> Result<(), Fail> {
    let alloc = rt.alloc();
    let text = ResolveFault::Conflict(Vec::new(alloc), Vec::new(alloc)).to_string(alloc)?;
    assert_eq!(rt; text.as_str(), "the fingerprint is kept with other data");
    let text = ResolveFault::OutOfMemory.to_string(alloc)?;
    assert_eq!(rt; text.as_str(), "out of memory");
    Ok(())
}
