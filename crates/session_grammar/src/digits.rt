//! Hexadecimal digits, in passes without branches.
ghost use Rattle.std.specs.Prelude.{◌≡◌, ◌*◌, ◌<◌, ◌≤◌, length, Some, None, IfOk, if◌then◌else◌, slice_index};
ghost use Rattle.std.specs.Option.{option_map};
ghost use Rattle.std.specs.Result.{result_ok};
ghost use Rattle.hex.specs.Hex.{decode_of, decode_pairs, encode_lower, hex_digit_value, lower_digits};

use std::alloc::Global;
use ty_path::OutOfMemory;

/// The bytes of hexadecimal digits of either case, two for each byte.
pub(crate) fn decode(alloc: Global, digits: &[u8]) -> Result<Option<Vec<u8>>, OutOfMemory>
    ensures { IfOk result (λ bytes. option_map (λ b. b.items) bytes ≡ result_ok (decode_of digits.now)) }
{
    if digits.len() % 2 != 0 {
        return Ok(None);
    }
    let mut bytes = vec![in alloc; 0u8; digits.len() / 2]?;
    if decode_pairs(digits, bytes.as_mut_slice()) {
        Ok(Some(bytes))
    } else {
        Ok(None)
    }
}

/// Puts the byte of each two digits into its place. A byte that is no digit has a value above all digits, and the
/// greatest value tells in the end whether there was one.
fn decode_pairs(digits: &[u8], bytes: &mut [u8]) -> bool
    requires { length digits.now ≡ 2 * length bytes.old }
    ensures { result_ok (decode_pairs 0 digits.now) ≡ (if result then Some bytes.new else None) }
{
    let mut greatest = 0u8;
    'pairs: for i in 0..bytes.len() {
        let high = digit_value(digits[2 * i]);
        let low = digit_value(digits[2 * i + 1]);
        greatest = greatest.max(high).max(low);
        bytes[i] = high.wrapping_mul(16).wrapping_add(low);
    }
    greatest < 16
}

/// The value of a digit of either case, and 255 of every other byte.
fn digit_value(byte: u8) -> u8
    ensures digit { result < 16 → hex_digit_value byte ≡ Some result }
    ensures other { 16 ≤ result → hex_digit_value byte ≡ None }
{
    if byte >= b'0' && byte <= b'9' {
        byte - b'0'
    } else if byte >= b'a' && byte <= b'f' {
        byte - b'a' + 10
    } else if byte >= b'A' && byte <= b'F' {
        byte - b'A' + 10
    } else {
        255
    }
}

/// Puts the two digits of each byte into their places, in lower case.
pub(crate) fn encode(bytes: &[u8], digits: &mut [u8])
    requires { length digits.old ≡ 2 * length bytes.now }
    ensures { digits.new ≡ encode_lower bytes.now }
{
    'bytes: for i in 0..bytes.len() {
        digits[2 * i] = lower_digit(bytes[i] / 16);
        digits[2 * i + 1] = lower_digit(bytes[i] % 16);
    }
}

/// The digit of a value, in lower case.
fn lower_digit(value: u8) -> u8
    requires { value < 16 }
    ensures { result ≡ slice_index lower_digits value }
{
    if value < 10 {
        value + b'0'
    } else {
        value - 10 + b'a'
    }
}
