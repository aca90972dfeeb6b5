// Vectors in one part of work memory: slot k has the n numbers from k * n on, up to where slot k + 1 begins.
ghost use Rattle.std.specs.Prelude.{◌≡◌, ◌+◌, ◌*◌, ◌%◌, ◌≤◌, length};
ghost use Rattle.vectors.specs.Grid.{points_of};
ghost use Rattle.vectors.specs.Memory.{part, put};
ghost use Rattle.physics.specs.Vector.{advanced_of};
ghost use Rattle.physics.specs.SlotNumbers.{slot_count};
ghost use Rattle.physics.specs.Passes.{Inside};
ghost use Rattle.physics.specs.StepPasses.{TwoInside, advanced_by_sum};

// The slots are numbers START * n to END * n of work memory, of which a call asks WORK * n.
pub(crate) const START: usize = 8;

pub(crate) const END: usize = 29;

pub(crate) const WORK: usize = 40;

// The first VECTORS slots are a state, in the order of document 01.
pub(crate) const VECTORS: usize = 8;

pub(crate) const FIELD: usize = 0;

pub(crate) const MOMENTUM: usize = 1;

pub(crate) const ALTERNATE_MASS: usize = 2;

pub(crate) const ENERGY_DENSITY: usize = 3;

pub(crate) const MASS: usize = 4;

pub(crate) const RADIAL_FACTOR: usize = 5;

pub(crate) const LAPSE: usize = 6;

pub(crate) const CHAR_SPEED: usize = 7;

// The radial gradient of the field.
pub(crate) const GRADIENT: usize = 8;

// An integrand, 1 over the lapse, or the second difference of the field.
pub(crate) const SCRATCH: usize = 9;

// The running integral of 1 over the lapse.
pub(crate) const INTEGRAL: usize = 10;

// The half dissipations of field and momentum.
pub(crate) const HALF_FIELD: usize = 11;

pub(crate) const HALF_MOMENTUM: usize = 12;

// The rates of field, momentum and alternate mass.
pub(crate) const DT_FIELD: usize = 13;

pub(crate) const DT_MOMENTUM: usize = 14;

pub(crate) const DT_MASS: usize = 15;

// The sums of these three, in the same order.
pub(crate) const FIELD_SUM: usize = 16;

// The points of the grid, and the radial correction there.
pub(crate) const POINTS: usize = 19;

pub(crate) const CORRECTION: usize = 20;

// The part of work memory that holds the slots, each of the n points of a level. Each pass over them is a method, in the file of the equation that it computes.
#[derive(Drop)]
pub(crate) struct Slots<'a> {
    pub(crate) level: u32,
    pub(crate) n: usize,
    pub(crate) w: &'a mut [f64],
    ghost grid: { n ≡ points_of level },
    ghost many: { 9 ≤ n },
    ghost odd: { n % 2 ≡ 1 },
    ghost fits: { slot_count * n ≤ length w.now },
}

// The functions below take places and no slots, since neighbouring slots are one list in them.
// A vector, to the numbers from to on. A loop, here and in `copy_within`: `copy_from_slice` and `copy_within` are calls of C's memcpy
// and memmove, which made a step at levels 9 to 11 take 8 percent longer.
pub(crate) fn copy_vector(vector: &[f64], to: usize, w: &mut [f64])
    requires { to + length vector.now ≤ length w.old }
    ensures { w.new ≡ put to vector.now w.old }
{
    for (i, x) in vector.iter().enumerate() {
        w[to + i] = *x;
    }
}

// The n numbers from from on, to those from to on; n is not how many w has. By an index here and in `add_scaled`, as the loops of
// constraint_computer.rt.
pub(crate) fn copy_within(from: usize, to: usize, n: usize, w: &mut [f64])
    requires { Inside (length w.old) from to n }
    ensures { w.new ≡ put to (part from n w.old) w.old }
{
    for i in 0..n {
        w[to + i] = w[from + i];
    }
}

// This and the next two differ in what they add up. One loop that takes a closure needs a ghost function and clauses on what
// the closure reads of w while w is written: no plainer than the three.
// The vector plus c times as many numbers from from on, to those from to on.
pub(crate) fn advance(vector: &[f64], c: f64, from: usize, to: usize, w: &mut [f64])
    requires { Inside (length w.old) from to (length vector.now) }
    ensures { let n = length vector.now in w.new ≡ put to (advanced_of n c vector.now (part from n w.old)) w.old }
{
    for (i, x) in vector.iter().enumerate() {
        w[to + i] = x + c * w[from + i];
    }
}

// The vector plus c times the sum of as many numbers from sums on and from rates on, to those from to on.
pub(crate) fn advance_by_sum(
    vector: &[f64],
    c: f64,
    sums: usize,
    rates: usize,
    to: usize,
    w: &mut [f64],
)
    requires { TwoInside (length w.old) sums rates to (length vector.now) }
    ensures { let n = length vector.now in w.new ≡ put to (advanced_by_sum n c vector.now (part sums n w.old) (part rates n w.old)) w.old }
{
    for (i, x) in vector.iter().enumerate() {
        w[to + i] = x + c * (w[sums + i] + w[rates + i]);
    }
}

// The n numbers from to on, plus c times those from from on, in place.
pub(crate) fn add_scaled(c: f64, from: usize, to: usize, n: usize, w: &mut [f64])
    requires { Inside (length w.old) from to n }
    ensures { w.new ≡ put to (advanced_of n c (part to n w.old) (part from n w.old)) w.old }
{
    for i in 0..n {
        w[to + i] += c * w[from + i];
    }
}
