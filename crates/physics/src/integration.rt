// `rk4_step` and `integrate` of integration.rs, in the slots of slots.rt.
ghost use Rattle.std.specs.Prelude.{◌≡◌, ◌+◌, ◌*◌, ◌<◌, ◌≤◌, ◌==◌, false, length};
ghost use Rattle.std.specs.Result.{result_ok};
ghost use Rattle.vectors.specs.Answer.{number_of};
ghost use Rattle.vectors.specs.Fault.{fault_of};
ghost use Rattle.vectors.specs.Grid.{points_of};
ghost use Rattle.vectors.specs.Memory.{put};
ghost use Rattle.physics.specs.Integral.{quadratic_over, simpson_over, eighths_over, integral_of};
ghost use Rattle.physics.specs.Rk4.{rk4_of};
ghost use Rattle.physics.specs.SlotNumbers.{scratch_slot, slot_count};
ghost use Rattle.physics.specs.Slots.{slots, upd, Became};
ghost use Rattle.physics.specs.Passed.{Passed};
ghost use Rattle.physics.specs.Passes.{Room, Target, grids};
ghost use Rattle.physics.specs.StepPasses.{loads, begins, doubles, first_stages, moves, stages, doubled_stages, ends, lasts, steps};
ghost use Rattle.physics.specs.StepPassed.{StepPassed};
ghost use Rattle.physics.specs.Stepped.{time_after, room_to_step};
ghost use Rattle.physics.specs.State.{state_in};
ghost use Rattle.physics.specs.WorkAfter.{WorkAfter};

use crate::slots;
use crate::slots::{Slots, add_scaled, advance, advance_by_sum, copy_vector, copy_within};
use crate::step::Step;
use vectors::answer::{Refusal, checked};
use vectors::grid::length_at_discretization;

// Performs a Runge-Kutta 4th order time step: the next state's vectors are left in numbers 8n to 16n of work memory.
#[tactic(auto, using(vectors::specs::GridLaws::points_bound))]
pub fn rk4_step(
    level: u32,
    time: f64,
    delta: f64,
    state: &[f64],
    work: &mut [f64],
) -> Result<f64, Refusal>
    ensures refused { number_of result ≡ fault_of level (room_to_step level (length state.now) (length work.old)) }
    ensures time { result_ok result ≡ time_after (number_of result) (rk4_of level delta (state_in (points_of level) time state.now)).time }
    ensures made { WorkAfter (number_of result) level (rk4_of level delta (state_in (points_of level) time state.now)) work.old work.new }
{
    checked_room(level, state.len(), work.len())?;
    let n = length_at_discretization(level);
    let start = slots::START * n;
    let end = slots::END * n;
    advance_state(level, n, delta, state, &mut work[start..end]);
    Ok(time + delta)
}

// The answer to a call that takes a step, by the lengths of state memory and work memory.
#[tactic(auto, using(vectors::specs::GridLaws::points_bound))]
pub fn checked_room(level: u32, state: usize, work: usize) -> Result<(), Refusal>
    ensures { number_of result ≡ fault_of level (room_to_step level state work) }
{
    let n = length_at_discretization(level);
    checked(
        level,
        slots::VECTORS * n <= state && slots::WORK * n <= work,
    )
}

// To the first slots: the state that is delta after the one in state memory.
fn advance_state(level: u32, n: usize, delta: f64, state: &[f64], w: &mut [f64])
    requires { (n ≡ points_of level) × Room n (length w.old) × (8 * n ≤ length state.now) }
    ensures { Became n (λ S. steps level n delta (slots n state.now) (grids level n S)) w.old w.new }
{
    let mut s = Slots { level, n, w };
    s.fill_grid();
    let mut step = Step {
        slots: &mut s,
        state,
    };
    step.take_stages(delta);
}

impl Step<'_, '_, '_> {
    fn take_stages(&mut self, delta: f64)
        ensures { StepPassed (λ level n. steps level n delta) self.old self.new }
    {
        self.first_stage();
        self.doubled_stage(0.5 * delta); // from the rates of the first
        self.doubled_stage(0.5 * delta); // from those of the second
        self.stage(delta); // from those of the third
        self.next_state(delta / 6.0);
    }

    // The rates at the state, with the constraints that it stores, and the sums that begin with them.
    fn first_stage(&mut self)
        ensures { StepPassed (λ level n. first_stages level) self.old self.new }
    {
        self.load();
        self.slots.compute_radial_gradient();
        self.slots.equations_of_motion();
        self.slots.begin_sums();
    }

    // Of the state: the field and the momentum, then the radial factor, the lapse and the char speed.
    fn load(&mut self)
        ensures { StepPassed (λ level n. loads) self.old self.new }
    {
        let state = self.state;
        let s = &mut *self.slots;
        let n = s.n;
        let w = &mut *s.w;
        let variables = slots::FIELD * n;
        let variables_end = slots::ALTERNATE_MASS * n;
        let constraints = slots::RADIAL_FACTOR * n;
        let end = slots::VECTORS * n;
        copy_vector(&state[variables..variables_end], variables, w);
        copy_vector(&state[constraints..end], constraints, w);
    }

    // A stage whose rates count twice in the sums.
    fn doubled_stage(&mut self, c: f64)
        ensures { StepPassed (λ level n. doubled_stages level n c) self.old self.new }
    {
        self.stage(c);
        self.slots.add_doubled();
    }

    // The rates at the field and the momentum that are c along the last rates from those of the state.
    fn stage(&mut self, c: f64)
        ensures { StepPassed (λ level n. stages level n c) self.old self.new }
    {
        self.move_variables(c);
        self.slots.apply_bcs();
        self.slots.compute_constraints();
        self.slots.equations_of_motion();
    }

    // Field and momentum of the state, moved c along the rates.
    fn move_variables(&mut self, c: f64)
        ensures { StepPassed (λ level n. moves n c) self.old self.new }
    {
        let state = self.state;
        let s = &mut *self.slots;
        let n = s.n;
        let variables = slots::FIELD * n;
        let end = slots::ALTERNATE_MASS * n;
        let rates = slots::DT_FIELD * n;
        advance(&state[variables..end], c, rates, variables, s.w);
    }

    // To the first slots: the state that is c along the sums, with the last rates added to them.
    fn next_state(&mut self, c: f64)
        ensures { StepPassed (λ level n. lasts level n c) self.old self.new }
    {
        self.next_variables(c);
        self.slots.apply_bcs();
        self.slots.compute_all_constraints();
    }

    fn next_variables(&mut self, c: f64)
        ensures { StepPassed (λ level n. ends n c) self.old self.new }
    {
        let state = self.state;
        let s = &mut *self.slots;
        let n = s.n;
        let variables = slots::FIELD * n;
        let end = slots::ENERGY_DENSITY * n;
        let rates = slots::DT_FIELD * n;
        let sums = slots::FIELD_SUM * n;
        advance_by_sum(&state[variables..end], c, sums, rates, variables, s.w);
    }
}

impl Slots<'_> {
    // The sums: the rates, all three.
    fn begin_sums(&mut self)
        ensures { Passed (λ level n. begins) self.old self.new }
    {
        let rates = slots::DT_FIELD * self.n;
        let sums = slots::FIELD_SUM * self.n;
        copy_within(rates, sums, 3 * self.n, self.w);
    }

    // The sums: twice the rates added.
    fn add_doubled(&mut self)
        ensures { Passed (λ level. doubles) self.old self.new }
    {
        let rates = slots::DT_FIELD * self.n;
        let sums = slots::FIELD_SUM * self.n;
        add_scaled(2.0, rates, sums, 3 * self.n, self.w);
    }

    // The running integral of the scratch slot, to another slot.
    pub(crate) fn integrate(&mut self, h: f64, to: usize)
        requires { (to < slot_count) × ((scratch_slot == to) ≡ false) }
        ensures { Passed (λ level n S. upd to (integral_of h (S scratch_slot)) S) self.old self.new }
    {
        integrate(h, self.n, to * self.n, self.w);
    }
}

fn quadratic_over(h: f64, v: &[f64]) -> f64
    requires { 2 < length v.now }
    ensures { result ≡ quadratic_over h v.now }
{
    h / 12.0 * (5.0 * v[0] + 8.0 * v[1] - v[2])
}

fn simpson_over(h: f64, v: &[f64], i: usize) -> f64
    requires { (2 ≤ i) × (i < length v.now) }
    ensures { result ≡ simpson_over h v.now i }
{
    h / 3.0 * (v[i - 2] + 4.0 * v[i - 1] + v[i])
}

fn eighths_over(h: f64, v: &[f64], i: usize) -> f64
    requires { (3 ≤ i) × (i < length v.now) }
    ensures { result ≡ eighths_over h v.now i }
{
    3.0 * h / 8.0 * (v[i - 3] + 3.0 * v[i - 2] + 3.0 * v[i - 1] + v[i])
}

// The running integral of the scratch slot, to the numbers from to on. By an index, since a turn reads what turns before it wrote.
fn integrate(h: f64, n: usize, to: usize, w: &mut [f64])
    requires { Target n (length w.old) to }
    ensures { w.new ≡ put to (integral_of h (slots n w.old scratch_slot)) w.old }
{
    let from = slots::SCRATCH * n;
    let end = slots::INTEGRAL * n;
    let v = &w[from..end];
    let entry1 = quadratic_over(h, v);
    let entry2 = simpson_over(h, v, 2);
    w[to] = 0.0;
    w[to + 1] = entry1;
    w[to + 2] = entry2;
    for k in 1..n / 2 {
        let i = 2 * k + 1;
        let odd = w[to + (i - 3)] + eighths_over(h, &w[from..end], i);
        let even = w[to + (i - 1)] + simpson_over(h, &w[from..end], i + 1);
        w[to + i] = odd;
        w[to + (i + 1)] = even;
    }
}
