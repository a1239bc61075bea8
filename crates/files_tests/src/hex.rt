// Files of the tests, from text.
use std::alloc::{AllocError, Global};

// The value of a hexadecimal digit; anything else is a blank for the reader.
fn digit_of(c: u8) -> Option<u8> {
    match c {
        b'0'..=b'9' => Some(c - b'0'),
        b'A'..=b'F' => Some(c - b'A' + 10),
        _ => None,
    }
}

// The bytes that pairs of hexadecimal digits write.
pub(crate) fn bytes_of(heap: Global, text: &str) -> Result<Vec<u8>, AllocError> {
    let digits: Vec<u8> = text.bytes().filter_map(digit_of).collect(heap)?;
    digits
        .chunks_exact(2)
        .map(|pair| pair
            .iter()
            .fold(0u8, |byte, digit| byte.wrapping_mul(16) | *digit))
        .collect(heap)
}
