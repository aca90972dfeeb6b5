// Little-endian numbers in a list of bytes. A byte past the end is 0. A slice and a place, as `get` takes them: a struct of both would be made for
// one call.
ghost use Rattle.std.specs.Prelude.{◌≡◌, ◌+◌};
ghost use Rattle.vectors.specs.Memory.{tab};
ghost use Rattle.run.specs.Bytes.{byte_at, little, float_at};

use vectors::bits::of_bits;

pub fn byte_at(s: &[u8], at: usize) -> u8
    ensures { result ≡ byte_at s.now at }
{
    s.get(at).copied().unwrap_or(0)
}

// N bytes from `at` on. A sum that saturates is past the end, as the whole sum is.
fn bytes_at<const N: usize>(s: &[u8], at: usize) -> [u8; N]
    ensures { result ≡ tab N (λ k. byte_at s.now (at + k)) }
{
    let mut bytes = [0; N];
    for (k, b) in bytes.iter_mut().enumerate() {
        *b = byte_at(s, at.saturating_add(k));
    }
    bytes
}

pub fn number_at(s: &[u8], at: usize) -> u32
    ensures { result ≡ little 4 s.now at }
{
    u32::from_le_bytes(bytes_at(s, at))
}

pub fn float_at(s: &[u8], at: usize) -> f64
    ensures { result ≡ float_at s.now at }
{
    of_bits(u64::from_le_bytes(bytes_at(s, at)))
}
