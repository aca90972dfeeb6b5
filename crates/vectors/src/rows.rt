// The rows of weights of diff.rs, and their sums.
ghost use Rattle.std.specs.Prelude.{◌≡◌, List, map, ℤ, Float};
ghost use Rattle.std.specs.Float.{binary64};
ghost use Rattle.std.specs.Float.Ieee.{add};
ghost use Rattle.std.specs.Iterator.{IsFinite, AlwaysYields};
ghost use Rattle.std.specs.List.{fold};
ghost use Rattle.vectors.specs.RowSums.{times, row_sum, hollow_sum, descending_sum};
ghost use Rattle.vectors.specs.Stencil.{total};

use crate::answer::fits;

// The rows of `diff`: at points 0 and 1, inside, at n - 2 and n - 1.
pub const DIFF_LEFT0: [i16; 5] = [-25, 48, -36, 16, -3];

pub const DIFF_LEFT1: [i16; 5] = [-3, -10, 18, -6, 1];

pub const DIFF_INNER: [i16; 5] = [1, -8, 0, 8, -1];

pub const DIFF_RIGHT1: [i16; 5] = [-1, 6, -18, 10, 3];

pub const DIFF_RIGHT0: [i16; 5] = [3, -16, 36, -48, 25];

// The rows of `diff2`: at point 0, and to the left at n - 1; at point 1, and to the left at n - 2; inside.
pub const DIFF2_EDGE0: [i16; 6] = [45, -154, 214, -156, 61, -10];

pub const DIFF2_EDGE1: [i16; 6] = [10, -15, -4, 14, -6, 1];

pub const DIFF2_INNER: [i16; 5] = [-1, 16, -30, 16, -1];

// The row of `diff3_unnormalized`.
pub const DIFF3: [i16; 7] = [1, -8, 13, 0, -13, 8, -1];

// The row of `set_left_neumann_bc`: DIFF_LEFT0 without its first weight.
pub const NEUMANN: [i16; 4] = [48, -36, 16, -3];

// The products of weights and numbers summed: the first, plus the next, and so on; NaN where there is none.
fn total<'a, I: Iterator<Item = (&'a i16, &'a f64)> + Drop>(pairs: I) -> f64
    requires can { I.can_next pairs }
    requires ends { IsFinite (I.remaining pairs) }
    ensures { (all : List (ℤ × Float)) → AlwaysYields I.next_gives (λ p. (p.0.now, p.1.now)) pairs all → result ≡ total (map times all) }
{
    pairs
        .map(|(weight, number)| (*weight as f64) * *number)
        .reduce(|sum, product| sum + product)
        .unwrap_or(f64::NAN)
}

// The products added to the sum, one after the other.
fn plus<'a, I: Iterator<Item = (&'a i16, &'a f64)> + Drop>(sum: f64, pairs: I) -> f64
    requires can { I.can_next pairs }
    requires ends { IsFinite (I.remaining pairs) }
    ensures { (all : List (ℤ × Float)) → AlwaysYields I.next_gives (λ p. (p.0.now, p.1.now)) pairs all → result ≡ fold (add binary64) sum (map times all) }
{
    pairs.fold(sum, |sum, (weight, number)| {
        sum + (*weight as f64) * *number
    })
}

// The sum of a row over the numbers from k on; NaN where there are fewer than weights. A place and not a slice, which could not say that, here and
// in the next two.
pub fn row<const N: usize>(w: [i16; N], v: &[f64], k: usize) -> f64
    ensures { result ≡ row_sum w.entry v.now k }
{
    if fits(v.len(), k, N) {
        return total(w.iter().zip(&v[k..k + N]));
    }
    f64::NAN
}

// The same without the middle product of an odd number of them.
pub fn row_hollow<const N: usize>(w: [i16; N], v: &[f64], k: usize) -> f64
    ensures { result ≡ hollow_sum w.entry v.now k }
{
    if fits(v.len(), k, N) {
        let (w, v) = (&w[..], &v[k..k + N]);
        let half = N / 2;
        let left = w[..half].iter().zip(&v[..half]);
        let right = w[N - half..].iter().zip(&v[N - half..]);
        return plus(total(left), right);
    }
    f64::NAN
}

// The same to the left: the first weight is that of the last number.
pub fn row_descending<const N: usize>(w: [i16; N], v: &[f64], k: usize) -> f64
    ensures { result ≡ descending_sum w.entry v.now k }
{
    if fits(v.len(), k, N) {
        return total(w.iter().zip(v[k..k + N].iter().rev()));
    }
    f64::NAN
}
