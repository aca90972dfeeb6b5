// The equations of motion of equations.rs, in the slots of slots.rt. The loops over points go by an index, as those of constraint_computer.rt, and a row
// of a third difference begins before its point.
ghost use Rattle.std.specs.Prelude.{◌≡◌, ℕ, ◌+◌, ◌*◌, ◌<◌, ◌≤◌, length, Float};
ghost use Rattle.std.specs.Float.{binary64};
ghost use Rattle.std.specs.Float.Ieee.{add};
ghost use Rattle.vectors.specs.Grid.{spacing_of};
ghost use Rattle.vectors.specs.Memory.{tab, part, put};
ghost use Rattle.vectors.specs.MemoryLaws.{Grown};
ghost use Rattle.vectors.specs.StencilLaws.{Windows};
ghost use Rattle.physics.specs.Equations.{field_rate_at, momentum_rate_at, origin_rate_at, mass_rate_at, bounded_of};
ghost use Rattle.physics.specs.SlotNumbers.{correction_slot, slot_count};
ghost use Rattle.physics.specs.Slots.{slots};
ghost use Rattle.physics.specs.Passed.{Passed, WithGradient};
ghost use Rattle.physics.specs.Vector.{at};
ghost use Rattle.physics.specs.Passes.{Later, Gives, half_val, half_on, halves, seconds, dampings, field_rates, momentum_rates, mass_rates, rates, derivatives, bounds};

use crate::slots;
use crate::slots::Slots;
use vectors::diff::{diff2, dissipation_scale, set_left_neumann_bc};
use vectors::grid::delta;
use vectors::rows::{DIFF3, row_hollow};

impl Slots<'_> {
    // The rates: the time derivatives of field, momentum and alternate mass, from these, the constraints and the gradient. The scratch slot and the
    // half dissipations are used.
    pub(crate) fn equations_of_motion(&mut self)
        requires { WithGradient self.old }
        ensures { Passed (λ level n. derivatives level) self.old self.new }
    {
        let scale = dissipation_scale(delta(self.level));
        self.half_dissipations();
        self.second_difference();
        self.compute_rates(scale);
    }

    // The half dissipations: the radial correction times the third difference, of field and momentum.
    fn half_dissipations(&mut self)
        ensures { Passed (λ level n. halves) self.old self.new }
    {
        let n = self.n;
        let w = &mut *self.w;
        let field = slots::FIELD * n;
        let momentum = slots::MOMENTUM * n;
        let half_field = slots::HALF_FIELD * n;
        let half_momentum = slots::HALF_MOMENTUM * n;
        half_dissipation(n, field, half_field, w);
        half_dissipation(n, momentum, half_momentum, w);
    }

    // The second difference of the field, to the scratch slot. The level of the struct is not refused. A function beside `compute_radial_gradient`: one
    // for both would take the call as a closure, with clauses on what it asks and leaves, and no line less.
    fn second_difference(&mut self)
        ensures { Passed (λ level n. seconds (spacing_of level)) self.old self.new }
    {
        let n = self.n;
        let w = &mut *self.w;
        let field = slots::FIELD * n;
        let (before, after) = w.split_at_mut(slots::SCRATCH * n);
        let _ = diff2(self.level, &before[field..field + n], &mut after[..n]);
    }

    fn compute_rates(&mut self, scale: f64)
        ensures { Passed (λ level n. rates n scale) self.old self.new }
    {
        self.dissipations(scale);
        self.calculate_dt_field();
        self.calculate_dt_conj_momentum();
        self.calculate_dt_alternate_mass();
    }

    // The dissipation of field and momentum, from their half dissipations, to the slots of their rates.
    fn dissipations(&mut self, scale: f64)
        ensures { Passed (λ level n. dampings n scale) self.old self.new }
    {
        let n = self.n;
        let w = &mut *self.w;
        let half_field = slots::HALF_FIELD * n;
        let half_momentum = slots::HALF_MOMENTUM * n;
        let dt_field = slots::DT_FIELD * n;
        let dt_momentum = slots::DT_MOMENTUM * n;
        third_differences(|_| scale, n, half_field, dt_field, w);
        third_differences(|_| scale, n, half_momentum, dt_momentum, w);
    }

    // The rate of the field, whose slot holds the dissipation.
    fn calculate_dt_field(&mut self)
        ensures { Passed (λ level. field_rates) self.old self.new }
    {
        let n = self.n;
        let w = &mut *self.w;
        let momentum = slots::MOMENTUM * n;
        let char_speed = slots::CHAR_SPEED * n;
        let to = slots::DT_FIELD * n;
        for i in 0..n {
            w[to + i] = dt_field_at(w[char_speed + i], w[momentum + i], w[to + i]);
        }
    }

    // The rate of the momentum, whose slot holds the dissipation. Point 0 is set by L'Hopital's rule.
    fn calculate_dt_conj_momentum(&mut self)
        ensures { Passed (λ level. momentum_rates) self.old self.new }
    {
        let n = self.n;
        let w = &mut *self.w;
        let radial_factor = slots::RADIAL_FACTOR * n;
        let lapse = slots::LAPSE * n;
        let char_speed = slots::CHAR_SPEED * n;
        let gradient = slots::GRADIENT * n;
        let second = slots::SCRATCH * n;
        let to = slots::DT_MOMENTUM * n;
        let points = slots::POINTS * n;
        w[to] = dt_conj_momentum_at_origin(w[second], w[lapse], w[to]);
        for i in 1..n {
            w[to + i] = dt_conj_momentum_at(
                w[char_speed + i],
                w[second + i],
                w[radial_factor + i],
                w[gradient + i],
                w[points + i],
                w[lapse + i],
                w[to + i],
            );
        }
    }

    // The rate of the alternate mass.
    fn calculate_dt_alternate_mass(&mut self)
        ensures { Passed (λ level. mass_rates) self.old self.new }
    {
        let n = self.n;
        let w = &mut *self.w;
        let momentum = slots::MOMENTUM * n;
        let radial_factor = slots::RADIAL_FACTOR * n;
        let lapse = slots::LAPSE * n;
        let gradient = slots::GRADIENT * n;
        let to = slots::DT_MASS * n;
        let points = slots::POINTS * n;
        for i in 0..n {
            w[to + i] = dt_alternate_mass_at(
                w[points + i],
                w[radial_factor + i],
                w[lapse + i],
                w[gradient + i],
                w[momentum + i],
            );
        }
    }

    // Field and momentum: a left Neumann value for regularity at the origin, and 0 at the last point, which reflects.
    pub(crate) fn apply_bcs(&mut self)
        ensures { Passed (λ level n. bounds) self.old self.new }
    {
        let n = self.n;
        let w = &mut *self.w;
        let field = slots::FIELD * n;
        let momentum = slots::MOMENTUM * n;
        set_bcs(n, field, w);
        set_bcs(n, momentum, w);
    }
}

// The half dissipation of the n numbers from from on, to those from to on. Here and below places and no slots, as in slots.rt.
fn half_dissipation(n: usize, from: usize, to: usize, w: &mut [f64])
    requires { (slot_count * n ≤ length w.old) × Later (correction_slot * n) from to n }
    ensures { w.new ≡ put to (half_on (at (slots n w.old correction_slot)) (part from n w.old)) w.old }
{
    let (w, correction) = w.split_at_mut(slots::CORRECTION * n);
    third_differences(|i| correction[i], n, from, to, w);
}

// The third differences of the n numbers from from on, each times the factor at its point, to those from to on.
fn third_differences<F: Fn(usize) -> f64>(
    factor: F,
    n: usize,
    from: usize,
    to: usize,
    w: &mut [f64],
)
    requires places { Later (length w.old) from to n }
    requires callable { (i : ℕ) → i < n → F.pre factor i }
    ensures { (c : ℕ → Float) → Gives (F.post factor) n c → w.new ≡ put to (tab n (half_val c (part from n w.old))) w.old }
{
    let (before, after) = w.split_at_mut(to);
    let vector = &before[from..from + n];
    let out = &mut after[..n];
    let end = n - 3;
    third_difference_run(&factor, vector, out, 0, 3, 0);
    third_difference_run(&factor, vector, out, 3, end, 3);
    third_difference_run(&factor, vector, out, end, n, 6);
}

// Points lo to hi, where a point's seven numbers begin back points before it.
// By an index, as `diff3_run` of vectors, and apart from it: that has no factor, and a function for both would be public and ask what its closure
// asks.
fn third_difference_run<F: Fn(usize) -> f64>(
    factor: &F,
    vector: &[f64],
    out: &mut [f64],
    lo: usize,
    hi: usize,
    back: usize,
)
    requires windows { (length out.old ≡ length vector.now) × Windows (length vector.now) lo hi back }
    requires callable { (i : ℕ) → i < length vector.now → F.pre factor.now i }
    ensures long { length out.new ≡ length out.old }
    ensures made { (c : ℕ → Float) → Gives (F.post factor.now) (length vector.now) c → Grown 0 lo hi (λ E. half_val c vector.now) out.old out.new }
{
    for i in lo..hi {
        out[i] = factor(i) * (row_hollow(DIFF3, vector, i - back) / 8.0);
    }
}

fn dt_field_at(speed: f64, momentum: f64, dissipation: f64) -> f64
    ensures { result ≡ add binary64 (field_rate_at speed momentum) dissipation }
{
    speed * momentum + dissipation
}

fn dt_conj_momentum_at_origin(second: f64, lapse: f64, dissipation: f64) -> f64
    ensures { result ≡ add binary64 (origin_rate_at second lapse) dissipation }
{
    3.0 * second / lapse + dissipation
}

fn dt_conj_momentum_at(
    speed: f64,
    second: f64,
    factor: f64,
    gradient: f64,
    r: f64,
    lapse: f64,
    dissipation: f64,
) -> f64
    ensures { result ≡ add binary64 (momentum_rate_at speed second factor gradient r lapse) dissipation }
{
    speed * second + (factor + 1.0) * gradient / (r * lapse) + dissipation
}

fn dt_alternate_mass_at(r: f64, factor: f64, lapse: f64, gradient: f64, momentum: f64) -> f64
    ensures { result ≡ mass_rate_at r factor lapse gradient momentum }
{
    (r * r) * (factor * factor) / lapse * gradient * momentum
}

fn set_bcs(n: usize, at: usize, w: &mut [f64])
    requires { (9 ≤ n) × (at + n ≤ length w.old) }
    ensures { w.new ≡ put at (bounded_of (part at n w.old)) w.old }
{
    let vector = &mut w[at..at + n];
    let _ = set_left_neumann_bc(vector);
    vector[n - 1] = 0.0;
}
