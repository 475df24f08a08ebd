//! A hash of bytes.

/// A hash of bytes, taken eight at a time.
#[inline]
pub fn hash_bytes(bytes: &[u8]) -> u64 {
    let (words, _) = bytes.as_chunks::<8>();
    let mut hash = bytes.len() as u64;
    for word in words {
        hash = mix(hash, u64::from_le_bytes(*word));
    }
    let all = match bytes.last_chunk::<8>() {
        Some(word) => mix(hash, u64::from_le_bytes(*word)),
        None => hash_short(hash, bytes),
    };
    // Once more: the last bytes have come to high bits alone, and slots are told by low ones.
    mix(all, 0)
}

// The hash of fewer than eight bytes.
fn hash_short(start: u64, bytes: &[u8]) -> u64 {
    let mut word = 0u64;
    for byte in bytes {
        word = word << 8 | *byte as u64;
    }
    mix(start, word)
}

#[inline]
fn mix(hash: u64, word: u64) -> u64 {
    let product = (hash ^ word).wrapping_mul(0x9E37_79B9_7F4A_7C15);
    product ^ product >> 32
}
