// Words of a vector: bytes in hexadecimal, and numbers.
ghost use Rattle.std.specs.Prelude.{◌<◌};

use std::alloc::{AllocError, Global};

// A hexadecimal digit's value; anything else, a capital too (which `to_digit` would take), counts as 0, as vectors are told.
fn digit(b: u8) -> u8
    ensures { result < 16 }
{
    match b {
        b'0'..=b'9' => b - b'0',
        b'a'..=b'f' => b - b'a' + 10,
        _ => 0,
    }
}

// The bytes that a word spells, two digits to a byte.
pub(crate) fn bytes(heap: Global, word: &str) -> Result<Vec<u8>, AllocError> {
    let (pairs, _) = word.as_bytes().as_chunks::<2>();
    pairs
        .iter()
        .map(|[high, low]| digit(*high) * 16 + digit(*low))
        .collect(heap)
}

// The number that a word spells, or 0.
pub(crate) fn number(word: &str) -> u16 {
    word.parse().unwrap_or(0)
}
