// The digest of bytes.
use cases::digest::mixed;

// d with more bytes; the digest of a list starts at 1.
pub fn with(d: u64, bytes: &[u8]) -> u64 {
    bytes.iter().fold(d, |d, b| mixed(d, u64::from(*b)))
}
