// Bytes that are written in hexadecimal, two digits each.
#![tactic(auto)]

ghost use Rattle.std.specs.Prelude.{◌≡◌, ◌/◌, ◌<◌, List, ℕ, IfOk, if◌then◌else◌, length, unwrap_or, vec_len};
ghost use Rattle.std.specs.Char.{is_ascii_uppercase};
ghost use Rattle.hex.specs.Hex.{IsBytes, encode_lower, hex_digit_value};

use std::alloc::{AllocError, Global};

// What is no digit counts as 0, and so do capitals.
fn digit(b: u8) -> u8
    ensures small { result < 16 }
    ensures value { result ≡ (if is_ascii_uppercase b then 0 else unwrap_or (hex_digit_value b) 0) }
{
    match b {
        b'0'..=b'9' => b - b'0',
        b'a'..=b'f' => b - b'a' + 10,
        _ => 0,
    }
}

// The bytes that a text spells by lowercase digits. A last digit without a second one is dropped.
pub fn decode(heap: Global, text: &[u8]) -> Result<Vec<u8>, AllocError>
    ensures length { IfOk result (λ decoded. vec_len decoded ≡ length text.now / 2) }
    ensures spelled { (bytes : List ℕ) → IsBytes bytes → text.now ≡ encode_lower bytes → IfOk result (λ decoded. decoded.items ≡ bytes) }
{
    let (pairs, _) = text.as_chunks::<2>();
    pairs
        .iter()
        .map(|[high, low]| 16 * digit(*high) + digit(*low))
        .collect(heap)
}

#[cfg(test)]
mod tests {
    use super::*;
    use std::test::Fail;

    #[test]
    fn digits_are_read(rt: HostRuntime) -> Result<(), Fail> {
        let bytes = decode(rt.alloc(), b"666f6f626172")?;
        assert_eq!(rt; bytes.as_slice(), b"foobar".as_slice());
        Ok(())
    }

    #[test]
    fn other_bytes_count_as_zero(rt: HostRuntime) -> Result<(), Fail> {
        let bytes = decode(rt.alloc(), b"4Ax9 /7")?;
        assert_eq!(rt; bytes.as_slice(), [0x40, 0x09, 0x00].as_slice());
        Ok(())
    }
}
