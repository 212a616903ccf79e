//! Fingerprints of 128 bits, and their texts in base64.
ghost use Rattle.std.specs.Prelude.{◌≡◌, ℕ, ◌^◌, ◌%◌, ◌<◌, ◌++◌, [], Some, Ok, IfOk, IfErr, IfSome, OnOk, codes, take, string_bytes};
ghost use Rattle.std.specs.Int.{w64, from_le_bytes};
ghost use Rattle.base64.specs.GeneralPurpose.{IsBytes};
ghost use Rattle.tinymist_std.specs.Context.{IsRefusal, reason_alone};
ghost use Rattle.tinymist_std.specs.Fingerprint.{Halves, IsTextOf, IsTextOfHalf, halves_of, number_of, svg_id, without_last_zeros};

use crate::error::Error;
use crate::error_args::ErrorArgs;
use base64::engine::general_purpose::STANDARD_NO_PAD;
use std::alloc::{AllocError, Global};
use std::marker::Model;
use ty_path::OutOfMemory;

/// A fingerprint of 128 bits, ordered by its low half, and then by its high half.
#[derive(Clone, Copy, Debug, PartialEq, Eq, PartialOrd, Ord, Hash)]
pub struct Fingerprint {
    lo: u64,
    hi: u64,
}

impl Model for Fingerprint {
    ghost use Rattle.tinymist_std.specs.Fingerprint.{Halves};

    ghost Value = { Halves };

    ghost view = { λ f. record { low = f.lo; high = f.hi } };

    ghost inverse = { λ h. record { lo = h.low; hi = h.high } };
}

impl Fingerprint {
    /// The fingerprint of two halves.
    pub fn from_pair(lo: u64, hi: u64) -> Fingerprint
        ensures { result ≡ record { low = lo; high = hi } }
    {
        Fingerprint { lo, hi }
    }

    /// The fingerprint of a number.
    pub fn from_u128(h: u128) -> Fingerprint
        ensures halves { result ≡ halves_of h }
        ensures number { number_of result ≡ h }
    {
        Fingerprint {
            lo: (h % (1 << 64)) as u64,
            hi: (h >> 64) as u64,
        }
    }

    /// The number of the fingerprint.
    pub fn to_u128(self) -> u128
        ensures { result ≡ number_of self }
    {
        self.hi as u128 * (1 << 64) + self.lo as u128
    }

    /// The low 32 bits.
    pub fn lower32(self) -> u32
        ensures { result ≡ self.low % 2 ^ 32 }
    {
        (self.lo % (1 << 32)) as u32
    }

    /// The prefix and the fingerprint's text: eleven characters of base64 for the low half, and
    /// for the high half what its bytes need, less the zeros at their end.
    pub fn as_svg_id(self, alloc: Global, prefix: &str) -> Result<String, OutOfMemory>
        ensures text { IfOk result (λ t. string_bytes t ≡ prefix.now ++ svg_id self) }
        ensures readable { prefix.now ≡ [] → IfOk result (λ t. IsTextOf self (string_bytes t)) }
    {
        let mut text = String::from_str(alloc, prefix)?;
        append_halves(self.lo, self.hi, &mut text)?;
        Ok(text)
    }

    /// The fingerprint that the text is of, so that what `as_svg_id` writes without a prefix is read
    /// back. Zeros at the end of its high half may be there or not. The error comes exactly where
    /// the text is of no fingerprint, which it says; where memory runs out it says that.
    pub fn try_from_str(alloc: Global, s: &str) -> Result<Fingerprint, Error>
        ensures reads { (f : Halves) → IsTextOf f s.now → result ≡ Ok f }
        ensures reads_back { (f : Halves) → f.low < 2 ^ 64 → f.high < 2 ^ 64
            → s.now ≡ svg_id f → result ≡ Ok f }
        ensures only { IfOk result (λ f. IsTextOf f s.now) }
        ensures refused { IfErr result (IsRefusal (codes "try_from_str")
            (Some (reason_alone (codes "the text is no fingerprint")))
            ((f : Halves) → ¬ (IsTextOf f s.now))) }
    {
        match halves(s.as_bytes()) {
            Some(fingerprint) => Ok(fingerprint),
            None => Err(
                ErrorArgs::new(alloc)
                    .with(alloc, "error", &"the text is no fingerprint")
                    .error("try_from_str"),
            ),
        }
    }
}

/// Appends the text of the halves.
fn append_halves(lo: u64, hi: u64, text: &mut String) -> Result<(), AllocError>
    ensures text { let f : Halves = record { low = lo; high = hi } in
        OnOk result (string_bytes text.new ≡ string_bytes text.old ++ svg_id f) }
    ensures readable { let f : Halves = record { low = lo; high = hi } in IsTextOf f (svg_id f) }
{
    STANDARD_NO_PAD.encode_string(&lo.to_le_bytes(), text)?;
    STANDARD_NO_PAD.encode_string(without_last_zeros(&hi.to_le_bytes()), text)
}

/// The fingerprint that the text is of.
fn halves(text: &[u8]) -> Option<Fingerprint>
    ensures reads { (f : Halves) → IsTextOf f text.now → result ≡ Some f }
    ensures only { IfSome result (λ f. IsTextOf f text.now) }
{
    if text.len() < 11 {
        return None;
    }
    let (low, high) = text.split_at(11);
    let lo = half(low)?;
    let hi = half(high)?;
    Some(Fingerprint { lo, hi })
}

/// The half that the text is of.
fn half(text: &[u8]) -> Option<u64>
    ensures reads { (n : ℕ) → IsTextOfHalf n text.now → result ≡ Some n }
    ensures only { IfSome result (λ n. IsTextOfHalf n text.now) }
{
    if text.len() > 11 {
        return None;
    }
    // The decoder asks for room for three bytes for each four characters, the last of which may be
    // fewer: nine for eleven characters, though they stand for eight.
    let mut bytes = [0u8; 9];
    match STANDARD_NO_PAD.decode_slice_unchecked(text, &mut bytes) {
        Ok(_) => Some(first_eight(&bytes)),
        Err(_) => None,
    }
}

/// The number of the first eight bytes.
fn first_eight(bytes: &[u8; 9]) -> u64
    ensures value { result ≡ from_le_bytes w64 (take 8 bytes.now) }
    ensures bytes { IsBytes bytes.now }
{
    let mut eight = [0u8; 8];
    eight.copy_from_slice(&bytes[..8]);
    u64::from_le_bytes(eight)
}

/// The bytes without the zeros at their end.
#[tactic(auto, using(crate::proofs::Zeros::trim_more, crate::proofs::Zeros::trim_kept, crate::proofs::Zeros::trim_none))]
fn without_last_zeros(bytes: &[u8]) -> &[u8]
    ensures { result.now ≡ without_last_zeros bytes.now }
{
    let mut kept = bytes;
    while let Some((last, front)) = kept.split_last() {
        if *last != 0 {
            return kept;
        }
        kept = front;
    }
    kept
}
