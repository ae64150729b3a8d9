use std::alloc::{AllocError, Global};

/// The value of a hexadecimal digit, and 0 for any other byte.
fn digit(byte: u8) -> u8 {
    match byte {
        b'0'..=b'9' => byte - b'0',
        b'a'..=b'f' => byte - b'a' + 10,
        _ => 0,
    }
}

/// The bytes of a text of two hexadecimal digits each. A last digit that stands alone is left out.
pub fn hex(alloc: Global, text: &str) -> Result<Vec<u8>, AllocError> {
    let mut bytes = Vec::new(alloc);
    for pair in text.as_bytes().chunks_exact(2) {
        if let [high, low] = pair {
            bytes.push(digit(*high).wrapping_mul(16) | digit(*low))?;
        }
    }
    Ok(bytes)
}
