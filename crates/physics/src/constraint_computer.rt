// The constraints of constraint_computer.rs, in the slots of slots.rt.
// The loops go by an index: a pass writes slots of w at the point where it reads others. Over slots that split_at_mut cuts out and zip joins,
// a proof knows nothing of what the loop wrote; that was tried with `compute_integrand`.
ghost use Rattle.std.specs.Prelude.{◌≡◌};
ghost use Rattle.vectors.specs.Grid.{spacing_of};
ghost use Rattle.physics.specs.Constraints.{integrand_at, energy_density_at, mass_at, radial_factor_at};
ghost use Rattle.physics.specs.Passed.{Passed, Gridded};
ghost use Rattle.physics.specs.Passes.{gradients, integrands, normals, lapses, radials, radial_factors, energies, constraints, full_constraints};

use crate::slots;
use crate::slots::Slots;
use vectors::diff::diff;
use vectors::exp::exp_all;
use vectors::field_vector::reciprocal;
use vectors::grid::delta;

impl Slots<'_> {
    // All constraints.
    pub(crate) fn compute_all_constraints(&mut self)
        requires { Gridded self.old }
        ensures { Passed (λ level n. full_constraints level) self.old self.new }
    {
        self.compute_constraints();
        self.compute_energy_and_mass();
    }

    // The constraints that the equations of motion read, and the gradient, from field and momentum. The scratch and the integral slot are used.
    pub(crate) fn compute_constraints(&mut self)
        requires { Gridded self.old }
        ensures { Passed (λ level n. constraints level) self.old self.new }
    {
        let h = delta(self.level);
        self.compute_radial_gradient();
        self.compute_lapse(h);
        self.compute_radial_factor(h);
    }

    // The radial gradient of the field. The level of the struct is not refused.
    pub(crate) fn compute_radial_gradient(&mut self)
        ensures { Passed (λ level n. gradients (spacing_of level)) self.old self.new }
    {
        let n = self.n;
        let w = &mut *self.w;
        let field = slots::FIELD * n;
        let (before, after) = w.split_at_mut(slots::GRADIENT * n);
        let _ = diff(self.level, &before[field..field + n], &mut after[..n]);
    }

    // The lapse, and 1 over it in the scratch slot.
    fn compute_lapse(&mut self, h: f64)
        ensures { Passed (λ level n. lapses n h) self.old self.new }
    {
        let lapse = slots::LAPSE * self.n;
        let end = slots::CHAR_SPEED * self.n;
        self.compute_integrand();
        self.integrate(h, slots::LAPSE);
        exp_all(&mut self.w[lapse..end]);
        self.normalise_lapse();
    }

    // The integrand of the log lapse, to the scratch slot.
    fn compute_integrand(&mut self)
        ensures { Passed (λ level. integrands) self.old self.new }
    {
        let n = self.n;
        let w = &mut *self.w;
        let momentum = slots::MOMENTUM * n;
        let gradient = slots::GRADIENT * n;
        let to = slots::SCRATCH * n;
        let points = slots::POINTS * n;
        for i in 0..n {
            w[to + i] = integrand_at(w[points + i], w[gradient + i], w[momentum + i]);
        }
    }

    // The lapse is free up to a constant factor: it is scaled to 1 at the last point. To the scratch slot: 1 over it.
    fn normalise_lapse(&mut self)
        ensures { Passed (λ level n. normals) self.old self.new }
    {
        let n = self.n;
        let w = &mut *self.w;
        let lapse = slots::LAPSE * n;
        let inverse = slots::SCRATCH * n;
        let factor = reciprocal(w[lapse + (n - 1)]);
        for i in 0..n {
            let x = factor * w[lapse + i];
            w[lapse + i] = x;
            w[inverse + i] = reciprocal(x);
        }
    }

    // The radial factor and the char speed, from the lapse and 1 over it. The integral slot is used.
    fn compute_radial_factor(&mut self, h: f64)
        ensures { Passed (λ level n. radial_factors n h) self.old self.new }
    {
        self.integrate(h, slots::INTEGRAL);
        self.radial_factor_and_char_speed();
    }

    // The mass is O(r³) at the left boundary, so the radial factor is 1 there.
    fn radial_factor_and_char_speed(&mut self)
        ensures { Passed (λ level. radials) self.old self.new }
    {
        let n = self.n;
        let w = &mut *self.w;
        let radial_factor = slots::RADIAL_FACTOR * n;
        let lapse = slots::LAPSE * n;
        let char_speed = slots::CHAR_SPEED * n;
        let integral = slots::INTEGRAL * n;
        let points = slots::POINTS * n;
        let integral0 = w[integral];
        let x = 1.0 / w[lapse];
        w[radial_factor] = 1.0;
        w[char_speed] = x;
        for i in 1..n {
            let a = radial_factor_at(w[lapse + i], w[points + i], w[integral + i], integral0);
            let b = a / w[lapse + i];
            w[radial_factor + i] = a;
            w[char_speed + i] = b;
        }
    }

    // The energy density and the mass, which no stage reads.
    fn compute_energy_and_mass(&mut self)
        ensures { Passed (λ level. energies) self.old self.new }
    {
        let n = self.n;
        let w = &mut *self.w;
        let momentum = slots::MOMENTUM * n;
        let energy_density = slots::ENERGY_DENSITY * n;
        let mass = slots::MASS * n;
        let radial_factor = slots::RADIAL_FACTOR * n;
        let gradient = slots::GRADIENT * n;
        let points = slots::POINTS * n;
        for i in 0..n {
            let e = energy_density_at(w[points + i], w[gradient + i], w[momentum + i]);
            let m = mass_at(w[points + i], w[radial_factor + i]);
            w[energy_density + i] = e;
            w[mass + i] = m;
        }
    }
}

// The formulas of a point, here and in equations.rt and integration.rt, take their numbers one by one, as the definitions do.
fn integrand_at(r: f64, gradient: f64, momentum: f64) -> f64
    ensures { result ≡ integrand_at r gradient momentum }
{
    -1.0 * r * (gradient * gradient + momentum * momentum)
}

fn radial_factor_at(lapse: f64, r: f64, integral: f64, integral0: f64) -> f64
    ensures { result ≡ radial_factor_at lapse r integral integral0 }
{
    lapse / r * (integral - integral0)
}

fn energy_density_at(r: f64, gradient: f64, momentum: f64) -> f64
    ensures { result ≡ energy_density_at r gradient momentum }
{
    0.5 * (r * r) * (gradient * gradient + momentum * momentum)
}

fn mass_at(r: f64, factor: f64) -> f64
    ensures { result ≡ mass_at r factor }
{
    0.5 * r * (1.0 - factor)
}
