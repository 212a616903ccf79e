//! Bytes and days as text, and values that are taken and lent.
use jiff::civil::date;
use std::sync::Arc;
use std::test::Fail;
use tinymist_std::{AsCowBytes, CowMut, ReadAllOnce, TakeAs, ToUtcDateTime, yyyy_mm_dd};

#[test]
fn bytes_have_texts(rt: HostRuntime) -> Result<(), Fail> {
    let rows: [(&[u8], &str); 2] = [(b"\x01\0\0\0\0\0\0\0", "AQAAAAAAAAA="), (b"\0\x01", "AAE=")];
    for (bytes, want) in rows {
        let text = AsCowBytes::to_text(rt.alloc(), bytes)?;
        assert_eq!(rt; text.as_str(), want);
        let back = AsCowBytes::from_text(rt.alloc(), want)?;
        assert_eq!(rt; back.as_slice(), bytes);
    }
    Ok(())
}

#[test]
fn texts_of_no_bytes_are_refused(rt: HostRuntime) -> Result<(), Fail> {
    let refused = AsCowBytes::from_text(rt.alloc(), "AAE")
        .err()
        .ok_or("no error")?
        .to_string(rt.alloc())?;
    assert_eq!(rt;
        refused.as_str(),
        "from_text, with [(\"error\", \"the text is not base64\")]"
    );
    Ok(())
}

#[test]
fn days_have_texts(rt: HostRuntime) -> Result<(), Fail> {
    let rows = [
        (date(1970, 1, 1), "1970-01-01"),
        (date(987, 12, 31), "0987-12-31"),
        (date(-44, 3, 15), "-0044-03-15"),
    ];
    for (day, want) in rows {
        let text = yyyy_mm_dd(rt.alloc(), day)?;
        assert_eq!(rt; text.as_str(), want);
    }
    Ok(())
}

#[test]
fn instants_are_those_of_the_library(rt: HostRuntime) {
    assert!(rt; 0i64.to_utc_datetime().is_some());
    assert!(rt; i64::MAX.to_utc_datetime().is_none());
}

#[test]
fn shared_values_are_taken(rt: HostRuntime) -> Result<(), Fail> {
    let shared = Arc::new(rt.alloc(), 7u8)?;
    let other = Arc::try_clone(&shared)?;
    assert_eq!(rt; other.take(rt.alloc())?, 7);
    assert_eq!(rt; shared.take(rt.alloc())?, 7);
    Ok(())
}

#[test]
fn values_are_lent_or_owned(rt: HostRuntime) {
    let mut number = 3u8;
    let mut lent = CowMut::Borrowed(&mut number);
    *lent.get_mut() += 1;
    assert_eq!(rt; *lent.get(), 4);
    let mut owned = CowMut::Owned(4u8);
    *owned.get_mut() += 1;
    assert_eq!(rt; *owned.get(), 5);
}

#[test]
fn readers_are_read_to_their_end(rt: HostRuntime) -> Result<(), Fail> {
    let mut bytes = vec![in rt.alloc(); b'a']?;
    assert_eq!(rt; b"bc".as_slice().read_all(&mut bytes)?, 2);
    assert_eq!(rt; bytes.as_slice(), b"abc".as_slice());
    Ok(())
}
