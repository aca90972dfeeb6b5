// The finite differences of diff.rs, over lent parts. A vector and the memory of its result stay parameters: a struct of both would be made for one call.
ghost use Rattle.std.specs.Prelude.{◌≡◌, ◌≤◌, [], ◌∷◌, length};
ghost use Rattle.vectors.specs.Answer.{number_of, left_by};
ghost use Rattle.vectors.specs.Dissipation.{radial_correction_of, half_dissipation_of, dissipation_scale, dissipation_of};
ghost use Rattle.vectors.specs.DissipationLaws.{corrected_by, scaled_by};
ghost use Rattle.vectors.specs.Fault.{fault_of, all_fit, short_of};
ghost use Rattle.vectors.specs.FaultLaws.{BothFit};
ghost use Rattle.vectors.specs.Grid.{points_of, spacing_of};
ghost use Rattle.vectors.specs.MemoryLaws.{Grown};
ghost use Rattle.vectors.specs.Stencil.{diff_of, diff2_of, diff3_at, diff3_of, with_left_neumann};
ghost use Rattle.vectors.specs.StencilLaws.{Windows};

use crate::answer::{Refusal, checked_lengths};
use crate::constants::DISSIPATION_FACTOR;
use crate::field_vector::{fourth_power, square};
use crate::grid::{delta, point};
use crate::rows;

// The first derivative along r of a vector on the grid of this level. This and the two like it differ in what they call: one for all would take it as a
// closure, with clauses on what it asks and leaves, and no line less.
pub fn diff(level: u32, vector: &[f64], out: &mut [f64]) -> Result<(), Refusal>
    ensures refused { number_of result ≡ fault_of level (all_fit level (length vector.now ∷ length out.old ∷ [])) }
    ensures left { out.new ≡ left_by result (diff_of (spacing_of level) vector.now) out.old }
{
    checked_lengths(level, &[vector.len(), out.len()])?;
    diff_rows(delta(level), vector, out);
    Ok(())
}

fn diff_rows(h: f64, vector: &[f64], out: &mut [f64])
    requires { (5 ≤ length vector.now) × (length out.old ≡ length vector.now) }
    ensures { out.new ≡ diff_of h vector.now }
{
    let n = vector.len();
    let d = 12.0 * h;
    out[0] = rows::row(rows::DIFF_LEFT0, vector, 0) / d;
    out[1] = rows::row(rows::DIFF_LEFT1, vector, 0) / d;
    for (i, inner) in out[2..n - 2].iter_mut().enumerate() {
        *inner = rows::row_hollow(rows::DIFF_INNER, vector, i) / d;
    }
    out[n - 2] = rows::row(rows::DIFF_RIGHT1, vector, n - 5) / d;
    out[n - 1] = rows::row(rows::DIFF_RIGHT0, vector, n - 5) / d;
}

// The second derivative along r.
pub fn diff2(level: u32, vector: &[f64], out: &mut [f64]) -> Result<(), Refusal>
    ensures refused { number_of result ≡ fault_of level (all_fit level (length vector.now ∷ length out.old ∷ [])) }
    ensures left { out.new ≡ left_by result (diff2_of (spacing_of level) vector.now) out.old }
{
    checked_lengths(level, &[vector.len(), out.len()])?;
    diff2_rows(delta(level), vector, out);
    Ok(())
}

// Two functions, since one for both would take the four end values and a closure for the points between, and no line less.
fn diff2_rows(h: f64, vector: &[f64], out: &mut [f64])
    requires { (6 ≤ length vector.now) × (length out.old ≡ length vector.now) }
    ensures { out.new ≡ diff2_of h vector.now }
{
    let n = vector.len();
    let d = 12.0 * (h * h);
    out[0] = rows::row(rows::DIFF2_EDGE0, vector, 0) / d;
    out[1] = rows::row(rows::DIFF2_EDGE1, vector, 0) / d;
    for (i, inner) in out[2..n - 2].iter_mut().enumerate() {
        *inner = rows::row(rows::DIFF2_INNER, vector, i) / d;
    }
    out[n - 2] = rows::row_descending(rows::DIFF2_EDGE1, vector, n - 6) / d;
    out[n - 1] = rows::row_descending(rows::DIFF2_EDGE0, vector, n - 6) / d;
}

// The third difference, without normalization by the grid spacing.
pub fn diff3_unnormalized(level: u32, vector: &[f64], out: &mut [f64]) -> Result<(), Refusal>
    ensures refused { number_of result ≡ fault_of level (all_fit level (length vector.now ∷ length out.old ∷ [])) }
    ensures left { out.new ≡ left_by result (diff3_of vector.now) out.old }
{
    checked_lengths(level, &[vector.len(), out.len()])?;
    diff3_rows(vector, out);
    Ok(())
}

fn diff3_rows(vector: &[f64], out: &mut [f64])
    requires { (9 ≤ length vector.now) × (length out.old ≡ length vector.now) }
    ensures { out.new ≡ diff3_of vector.now }
{
    let n = vector.len();
    let end = n - 3;
    diff3_run(vector, out, 0, 3, 0);
    diff3_run(vector, out, 3, end, 3);
    diff3_run(vector, out, end, n, 6);
}

// Points lo to hi, where a point's seven numbers begin back points before it. By an index: an iterator over out[lo..hi] would count beside it, and
// the seven numbers would begin at lo + i - back.
fn diff3_run(vector: &[f64], out: &mut [f64], lo: usize, hi: usize, back: usize)
    requires { (length out.old ≡ length vector.now) × Windows (length vector.now) lo hi back }
    ensures { (length out.new ≡ length out.old)
        × Grown 0 lo hi (λ E. diff3_at vector.now) out.old out.new }
{
    for i in lo..hi {
        out[i] = rows::row_hollow(rows::DIFF3, vector, i - back) / 8.0;
    }
}

// Sets the left Neumann boundary value, by the row of `diff` at point 0.
pub fn set_left_neumann_bc(vector: &mut [f64]) -> Result<(), Refusal>
    ensures refused { number_of result ≡ short_of 5 (length vector.old) }
    ensures left { vector.new ≡ left_by result (with_left_neumann vector.old) vector.old }
{
    if vector.len() < 5 {
        return Err(Refusal::Length);
    }
    let value = rows::row(rows::NEUMANN, vector, 1) / 25.0;
    vector[0] = value;
    Ok(())
}

// Kreiss-Oliger dissipation with a radial correction c: half becomes c × D u, and out D(c × D u), scaled.
pub fn dissipation(
    level: u32,
    vector: &[f64],
    half: &mut [f64],
    out: &mut [f64],
) -> Result<(), Refusal>
    ensures refused { number_of result ≡ fault_of level (all_fit level (length vector.now ∷ length half.old ∷ length out.old ∷ [])) }
    ensures half_left { half.new ≡ left_by result (half_dissipation_of level vector.now) half.old }
    ensures left { out.new ≡ left_by result (dissipation_of level vector.now) out.old }
{
    checked_lengths(level, &[vector.len(), half.len(), out.len()])?;
    dissipation_passes(level, vector, half, out);
    Ok(())
}

fn dissipation_passes(level: u32, vector: &[f64], half: &mut [f64], out: &mut [f64])
    requires { (9 ≤ points_of level) × BothFit level (length vector.now) (length half.old) × (length out.old ≡ points_of level) }
    ensures { (half.new ≡ half_dissipation_of level vector.now) × (out.new ≡ dissipation_of level vector.now) }
{
    diff3_rows(vector, half);
    correct(level, half);
    diff3_rows(half, out);
    scale(dissipation_scale(delta(level)), out);
}

// What the dissipation is scaled by, on a grid of this spacing.
#[tactic(auto, using(crate::specs::DissipationLaws::scale_is))]
pub fn dissipation_scale(h: f64) -> f64
    ensures { result ≡ dissipation_scale h }
{
    DISSIPATION_FACTOR / h / 64.0
}

// The radial correction at coordinate r, which dampens the dissipation away from the origin.
pub fn radial_correction(r: f64) -> f64
    ensures { result ≡ radial_correction_of r }
{
    fourth_power(1.0 - square(r))
}

// Each number times the correction at its point.
fn correct(level: u32, values: &mut [f64])
    requires { length values.old ≡ points_of level }
    ensures { values.new ≡ corrected_by level values.old }
{
    for (i, value) in values.iter_mut().enumerate() {
        *value = radial_correction(point(level, i)) * *value;
    }
}

// Each number times the factor.
pub fn scale(factor: f64, values: &mut [f64])
    ensures { values.new ≡ scaled_by factor values.old }
{
    for value in values.iter_mut() {
        *value = factor * *value;
    }
}
