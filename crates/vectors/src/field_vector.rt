// From domain/field_vector.rs: the powers that `powi` takes, `min`, and the `position` that is asked of a vector.
ghost use Rattle.std.specs.Prelude.{◌≡◌};
ghost use Rattle.vectors.specs.Powers.{square_of, fourth_power_of, reciprocal_of};
ghost use Rattle.vectors.specs.TotalOrder.{lesser_of, minimum_of};
ghost use Rattle.vectors.specs.Position.{first_at_or_below};

// x².
pub fn square(x: f64) -> f64
    ensures { result ≡ square_of x }
{
    x * x
}

// x⁴, as the square of x².
pub fn fourth_power(x: f64) -> f64
    ensures { result ≡ fourth_power_of x }
{
    let squared = square(x);
    squared * squared
}

// x^-1.
pub fn reciprocal(x: f64) -> f64
    ensures { result ≡ reciprocal_of x }
{
    1.0 / x
}

// The least of the values in the order of `total_cmp`; NaN where there are none.
pub fn min(values: &[f64]) -> f64
    ensures { result ≡ minimum_of values.now }
{
    values.iter().copied().fold(f64::NAN, lesser)
}

// x where it is below m, else m. Two comparisons settle it unless m is a zero or one of them is a NaN.
fn lesser(m: f64, x: f64) -> f64
    ensures { result ≡ lesser_of m x }
{
    if m <= x {
        if m != 0.0 {
            return m;
        }
        return if x.total_cmp(&m).is_lt() { x } else { m };
    }
    if x < m {
        return x;
    }
    if m.is_nan() { x } else { m }
}

// The first index whose value is <= bound; no NaN is.
pub fn position_at_or_below(values: &[f64], bound: f64) -> Option<usize>
    ensures { result ≡ first_at_or_below bound values.now }
{
    values.iter().position(|x| *x <= bound)
}
