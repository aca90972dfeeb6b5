// tan of document 01 ("tan, ours"): specs/Tan.antt writes it down.
ghost use Rattle.std.specs.Prelude.{◌≡◌, ◌-◌, length, slice_index_or};
ghost use Rattle.std.specs.Float.{nan};
ghost use Rattle.vectors.specs.Tan.{tan_of, sine_series, cosine_series, horner};

// (-1)^q/(2q+1)!, for q = 0 to 10.
const SINE: [f64; 11] = [
    1.0 / 1.0,
    -(1.0 / 6.0),
    1.0 / 120.0,
    -(1.0 / 5040.0),
    1.0 / 362880.0,
    -(1.0 / 39916800.0),
    1.0 / 6227020800.0,
    -(1.0 / 1307674368000.0),
    1.0 / 355687428096000.0,
    -(1.0 / 121645100408832000.0),
    1.0 / 51090942171709440000.0,
];

// (-1)^q/(2q)!, for q = 0 to 11.
const COSINE: [f64; 12] = [
    1.0 / 1.0,
    -(1.0 / 2.0),
    1.0 / 24.0,
    -(1.0 / 720.0),
    1.0 / 40320.0,
    -(1.0 / 3628800.0),
    1.0 / 479001600.0,
    -(1.0 / 87178291200.0),
    1.0 / 20922789888000.0,
    -(1.0 / 6402373705728000.0),
    1.0 / 2432902008176640000.0,
    -(1.0 / 1124000727777607680000.0),
];

pub fn tan(y: f64) -> f64
    ensures { result ≡ tan_of y }
{
    let z = y * y;
    (y * sine_series(z)) / cosine_series(z)
}

// sin y / y, by z = y².
fn sine_series(z: f64) -> f64
    ensures { result ≡ sine_series z }
{
    horner(&SINE, z)
}

// cos y, by z = y².
fn cosine_series(z: f64) -> f64
    ensures { result ≡ cosine_series z }
{
    horner(&COSINE, z)
}

// Horner's rule, from the last coefficient down.
fn horner(coefficients: &[f64], z: f64) -> f64
    ensures { result ≡ horner z (λ q. slice_index_or coefficients.now q nan) 0 (length coefficients.now - 1) }
{
    coefficients
        .iter()
        .rev()
        .copied()
        .reduce(|sum, coefficient| coefficient + z * sum)
        .unwrap_or(f64::NAN)
}
